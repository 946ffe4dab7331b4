//! A run of a collector over a list of events.

ghost use Rattle.std.specs.Prelude.{◌≡◌, ◌++◌, ◌<◌, ◌≤◌, ◌+◌, ℕ, List, length, vec_capacity, vec_len};
ghost use Rattle.archive_text.specs.Entries.{Entry};
ghost use Rattle.syslog_collect.specs.Collectors.{GoesOn, HaveSameConnections, Stands, behind, limit_of, reading_of};
ghost use Rattle.syslog_collect.specs.Collectors.{store_of, waits_of};
ghost use Rattle.syslog_collect.specs.History.{AcceptedEvent, history_of, stream_of};
ghost use Rattle.syslog_collect.specs.Logs.{Grows, LogsDatagram, LogsEventEnd, LogsPiece, LogsRun};
ghost use Rattle.syslog_collect.specs.Logs.{waiting_after_all};
ghost use Rattle.syslog_collect.specs.Observers.{HearsPiece};
ghost use Rattle.syslog_collect.specs.Outcomes.{IsRecordFrame};
ghost use Rattle.syslog_collect.specs.Runs.{IfAllDone, IfDone, accepted_all, accepted_by, accepted_datagram_end};
ghost use Rattle.syslog_collect.specs.Runs.{accepted_piece_end, accepted_run, event_end, piece_octets};
ghost use Rattle.syslog_collect.specs.Stops.{EndWell, EndsWell, IfStopped, StopsAs, StopsAt, StopsPieceAt};
ghost use Rattle.syslog_collect.specs.Stops.{done_events};
ghost use Rattle.syslog_collect.specs.declared.fault.CollectFault.TheVariants.{Memory};

use crate::collector::Collector;
use crate::event::{Event, EventEnd, RunEnd};
use crate::fault::CollectFault;
use crate::limits::CONNECTIONS_MAX;
use crate::observer::{Observer, Unobserved};
use crate::outcome::Outcome;
use crate::piece::{note, take_piece};
use archive_text::Store;
use std::alloc::Global;

fn end_of(answer: Result<(), CollectFault>) -> EventEnd
    ensures { result ≡ event_end answer }
{
    match answer {
        Ok(()) => EventEnd::Done,
        Err(fault) => EventEnd::Stopped { taken: 0, fault },
    }
}

impl<S: Store> Collector<S> {
    /// Handles a piece: advances until its rest is empty, at least once.
    fn piece(&mut self, alloc: Global, conn: u32, octets: &[u8], log: &mut Vec<Outcome>) -> EventEnd
        ensures goes_on { GoesOn S.entries self.old self.new (accepted_piece_end conn octets.now result) }
        ensures logged { (past first : List Entry) (events : List AcceptedEvent)
            → Stands (behind past S.entries) self.old first events
            → Grows (LogsPiece (reading_of self.old) (history_of events) (waits_of self.old)
            (waits_of self.new) conn octets.now result (S.entries (store_of self.old))
            (S.entries (store_of self.new))) log.old.items log.new.items }
        ensures within { IfStopped result (λ taken fault. taken ≤ length octets.now) }
        ensures cause { (past first : List Entry) (events : List AcceptedEvent)
            → Stands (behind past S.entries) self.old first events
            → IfStopped result (λ taken fault. StopsPieceAt (reading_of self.old) conn octets.now taken
            (waits_of self.new conn) fault (history_of events)) }
    {
        self.observed_piece(alloc, conn, octets, log, &mut Unobserved)
    }

    /// Takes a connection's piece as [`Collector::run`] does, and tells an observer of each frame as
    /// it is handled, with its octets.
    pub fn observed_piece<O: Observer>(
        &mut self,
        alloc: Global,
        conn: u32,
        octets: &[u8],
        log: &mut Vec<Outcome>,
        observer: &mut O,
    ) -> EventEnd
        ensures goes_on { GoesOn S.entries self.old self.new (accepted_piece_end conn octets.now result) }
        ensures logged { (past first : List Entry) (events : List AcceptedEvent)
            → Stands (behind past S.entries) self.old first events
            → Grows (LogsPiece (reading_of self.old) (history_of events) (waits_of self.old)
            (waits_of self.new) conn octets.now result (S.entries (store_of self.old))
            (S.entries (store_of self.new))) log.old.items log.new.items }
        ensures within { IfStopped result (λ taken fault. taken ≤ length octets.now) }
        ensures cause { (past first : List Entry) (events : List AcceptedEvent)
            → Stands (behind past S.entries) self.old first events
            → IfStopped result (λ taken fault. StopsPieceAt (reading_of self.old) conn octets.now taken
            (waits_of self.new conn) fault (history_of events)) }
        // It was told of exactly the frames whose outcomes were appended, outcome by outcome.
        ensures hears { (past first : List Entry) (events : List AcceptedEvent)
            → Stands (behind past S.entries) self.old first events
            → HearsPiece O.observes (stream_of conn (history_of events).streams) (piece_octets octets.now result)
            (waits_of self.old conn) (waits_of self.new conn) log.old.items log.new.items
            observer.old observer.new }
    {
        match self.connections.find(conn) {
            None => EventEnd::Stopped {
                taken: 0,
                fault: CollectFault::NotOpen,
            },
            Some(place) => take_piece(
                alloc,
                self.reading,
                &mut self.connections.slots[place],
                &mut self.store,
                observer,
                octets,
                log,
            ),
        }
    }

    /// Handles a datagram, for whose outcome the log has room.
    fn logged_datagram(&mut self, alloc: Global, octets: &[u8], log: &mut Vec<Outcome>) -> EventEnd
        requires { vec_len log.old < vec_capacity log.old }
        ensures goes_on { GoesOn S.entries self.old self.new (accepted_datagram_end octets.now result) }
        ensures connections { HaveSameConnections self.old self.new }
        ensures logged { Grows (LogsDatagram (reading_of self.old) octets.now result
            (S.entries (store_of self.old)) (S.entries (store_of self.new))) log.old.items log.new.items }
        ensures cause { IfStopped result (λ taken fault. (taken ≡ 0) × (fault ≡ Memory 0)
            × IsRecordFrame (reading_of self.old) octets.now) }
    {
        match self.datagram(alloc, octets) {
            Ok(outcome) => {
                note(log, Some(outcome));
                EventEnd::Done
            }
            Err(_) => EventEnd::Stopped {
                taken: 0,
                fault: CollectFault::Memory { used: 0 },
            },
        }
    }

    /// Handles one event, as far as it goes. Room for an outcome is made in the log first.
    fn run_event(&mut self, alloc: Global, event: Event<'_>, log: &mut Vec<Outcome>) -> EventEnd
        ensures goes_on { GoesOn S.entries self.old self.new (accepted_by event.entry result) }
        ensures logged { (past first : List Entry) (events : List AcceptedEvent)
            → Stands (behind past S.entries) self.old first events
            → Grows (LogsEventEnd (reading_of self.old) (history_of events) (waits_of self.old)
            (waits_of self.new) event.entry result (S.entries (store_of self.old))
            (S.entries (store_of self.new))) log.old.items log.new.items }
        ensures cause { (past first : List Entry) (events : List AcceptedEvent)
            → Stands (behind past S.entries) self.old first events
            → IfStopped result (StopsAt (limit_of self.old) (reading_of self.old) (history_of events) (waits_of self.new)
            event.entry) }
        ensures ends { (past first : List Entry) (events : List AcceptedEvent)
            → Stands (behind past S.entries) self.old first events
            → IfDone result (EndsWell (history_of events) event.entry) }
    {
        if log.reserve(1).is_err() {
            return EventEnd::Stopped {
                taken: 0,
                fault: CollectFault::Memory { used: 0 },
            };
        }
        match event {
            Event::Opened { conn, framing } => end_of(self.open_conn(alloc, conn, framing)),
            Event::Piece { conn, octets } => self.piece(alloc, conn, octets, log),
            Event::Ended { conn } => end_of(self.end_conn(conn)),
            Event::Datagram { octets } => self.logged_datagram(alloc, octets, log),
        }
    }

    /// Handles events in order, up to the first one that is refused, and appends each outcome to
    /// the log. The octets of a piece that follow a bad count are dropped.
    ///
    /// After `Stopped { at, taken, fault }` the events before `at` were accepted, and if that one
    /// is a piece, `taken` of its octets, so that the caller may go on with the rest; an end that
    /// is refused with `Unterminated` has closed its connection. If memory was refused for a
    /// record, `Memory { used }` tells how many of these octets are of its frame. Room for an
    /// outcome is made in the log before each call: if that is refused, or room for octets of a
    /// frame is in a collector by [`Collector::with_growing_room`], the fault is `Memory { used: 0
    /// }`, and either no octets were taken, or they end a frame and none waits.
    pub fn run(&mut self, alloc: Global, events: &[Event<'_>], log: &mut Vec<Outcome>) -> RunEnd
        // It stands at the events with those that were accepted, and with the part of the last.
        ensures goes_on { GoesOn S.entries self.old self.new (accepted_run events.now result) }
        // Why it stopped: the first event that is refused, its cause after the events before it, and
        // how much of a piece was taken there.
        ensures cause { (past first : List Entry) (before : List AcceptedEvent)
            → Stands (behind past S.entries) self.old first before
            → StopsAs (limit_of self.old) (reading_of self.old) (history_of before) (waits_of self.new) events.now result }
        // It may have so many connections open.
        ensures many { CONNECTIONS_MAX ≤ limit_of self.old }
        // It did not stop at an end: the connection's last frame is whole, or it held a bad count.
        ensures ends { (past first : List Entry) (before : List AcceptedEvent)
            → Stands (behind past S.entries) self.old first before
            → EndWell (history_of before) (done_events events.now result) }
        // After Done no frame waits of a number of which a piece came; of the others as many as
        // before.
        ensures waits { (past first : List Entry) (before : List AcceptedEvent)
            → Stands (behind past S.entries) self.old first before → IfAllDone result ((d : ℕ)
            → waits_of self.new d ≡ waiting_after_all (waits_of self.old) (accepted_all events.now) d) }
        // The log has the outcomes in the order in which the frames' last octets came: of a run
        // that stops too, where a frame for which memory was refused waits for the next call.
        ensures logged { (past first : List Entry) (before : List AcceptedEvent)
            → Stands (behind past S.entries) self.old first before
            → Grows (LogsRun (reading_of self.old) (history_of before) (waits_of self.old)
            (waits_of self.new) events.now result (S.entries (store_of self.old))
            (S.entries (store_of self.new))) log.old.items log.new.items }
    {
        for (at, event) in events.iter().enumerate() {
            if let EventEnd::Stopped { taken, fault } = self.run_event(alloc, *event, log) {
                return RunEnd::Stopped { at, taken, fault };
            }
        }
        RunEnd::Done
    }
}
