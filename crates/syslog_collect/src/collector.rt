//! The collector: streams in pieces, and datagrams, into a set of records.

ghost use Rattle.std.specs.Prelude.{◌≡◌, ◌≤◌, ◌⊎◌, ◌↔◌, ◌++◌, ◌==◌, ℕ, List, [], IfErr, IfOk, IfSome, OnErr, OnOk};
ghost use Rattle.std.specs.Prelude.{false, max, min, true};
ghost use Rattle.archive_text.specs.Entries.{Entry, Has};
ghost use Rattle.syslog_legacy.specs.FrameReadings.{whole};
ghost use Rattle.syslog_collect.specs.Answers.{IfRefused, IfUnreleased, IsAnswerAt, IsEnding, IsOpening, IsTaken};
ghost use Rattle.syslog_collect.specs.Answers.{IsUsedWithin, accepted_octets, dropped_octets, used_octets};
ghost use Rattle.syslog_collect.specs.Answers.{accepted_datagram, accepted_ending, accepted_opening, accepted_piece};
ghost use Rattle.syslog_collect.specs.Frames.{IsReceived};
ghost use Rattle.syslog_collect.specs.History.{AcceptedEvent, history_of, stream_of};
ghost use Rattle.syslog_collect.specs.Logs.{Reports, waiting_then};
ghost use Rattle.syslog_collect.specs.Outcomes.{IsOutcome, IsRecordFrame, outcomes_of};

use crate::advancing::advance_connection;
use crate::connection::{Connection, handle, new_scanner};
use crate::connections::Connections;
use crate::fault::{Advance, CollectFault};
use crate::limits::{CONNECTIONS_LIMIT, CONNECTIONS_MAX};
use crate::observer::Unobserved;
use crate::outcome::Outcome;
use archive_text::Store;
use std::alloc::{AllocError, Global};
use syslog_frame::{EndFault, Framing};
use syslog_legacy::{FrameReading, LegacyClock};

/// A collector: open connections, and the store into which the records of their frames go.
///
/// The store comes to hold the records of all frames that came, however the streams are cut into
/// pieces, in whatever order the pieces of the connections come, and however often. A
/// [`FrameReading`] says how frames are read: with a clock, those without the front of RFC 5424 are
/// legacy packets (RFC 3164).
#[derive(Drop)]
pub struct Collector<S> {
    pub(crate) store: S,
    pub(crate) connections: Connections,
    pub(crate) reading: FrameReading,
    // whether a connection reserves the room for a whole record as it is opened
    reserves: bool,
}

impl<S: Store> Collector<S> {
    ghost use Rattle.syslog_collect.specs.Collectors.{GoesOn, HaveSameConnections, NoneWaits, Stands, WaitAlike, behind};
    ghost use Rattle.syslog_collect.specs.Collectors.{HasAllRoom, LacksRoom, limit_of, reading_of, reserves_of, room_of};
    ghost use Rattle.syslog_collect.specs.Collectors.{store_of, waits_of};

    /// A collector over a store, with room for `CONNECTIONS_MAX` connections, that reads frames
    /// whole. If that room cannot be allocated, the store comes back.
    pub fn new(alloc: Global, store: S, clock: Option<LegacyClock>) -> Result<Collector<S>, S>
        ensures stands { IfOk result (λ c. Stands S.entries c (S.entries store) []) }
        ensures settled { IfOk result (λ c. NoneWaits c) }
        ensures reading { IfOk result (λ c. reading_of c ≡ whole clock) }
        ensures reserves { IfOk result (λ c. (reserves_of c ≡ true) × HasAllRoom c) }
        ensures back { IfErr result (λ s. s ≡ store) }
        ensures room { IfOk result (λ c. CONNECTIONS_MAX ≤ room_of c) }
        ensures limit { IfOk result (λ c. limit_of c ≡ CONNECTIONS_MAX) }
    {
        Collector::with_reading(alloc, store, FrameReading { trim: false, clock })
    }

    /// A collector as by [`Collector::new`] that reads frames as this says. If its room cannot be
    /// allocated, the store comes back.
    pub fn with_reading(alloc: Global, store: S, reading: FrameReading) -> Result<Collector<S>, S>
        ensures stands { IfOk result (λ c. Stands S.entries c (S.entries store) []) }
        ensures settled { IfOk result (λ c. NoneWaits c) }
        ensures reading { IfOk result (λ c. reading_of c ≡ reading) }
        ensures reserves { IfOk result (λ c. (reserves_of c ≡ true) × HasAllRoom c) }
        ensures back { IfErr result (λ s. s ≡ store) }
        ensures room { IfOk result (λ c. CONNECTIONS_MAX ≤ room_of c) }
        ensures limit { IfOk result (λ c. limit_of c ≡ CONNECTIONS_MAX) }
    {
        Collector::with_connections(alloc, store, reading, CONNECTIONS_MAX)
    }

    /// A collector as by [`Collector::with_reading`], with room for this many connections, from
    /// `CONNECTIONS_MAX` to `CONNECTIONS_LIMIT`; a number outside is taken for the nearest of
    /// these. If that room cannot be allocated, the store comes back.
    pub fn with_connections(
        alloc: Global,
        store: S,
        reading: FrameReading,
        connections: usize,
    ) -> Result<Collector<S>, S>
        ensures stands { IfOk result (λ c. Stands S.entries c (S.entries store) []) }
        ensures settled { IfOk result (λ c. NoneWaits c) }
        ensures reading { IfOk result (λ c. reading_of c ≡ reading) }
        ensures reserves { IfOk result (λ c. (reserves_of c ≡ true) × HasAllRoom c) }
        ensures back { IfErr result (λ s. s ≡ store) }
        ensures room { IfOk result (λ c. limit_of c ≤ room_of c) }
        ensures limit { IfOk result (λ c.
            limit_of c ≡ max CONNECTIONS_MAX (min connections CONNECTIONS_LIMIT)) }
    {
        Collector::with_room(alloc, store, reading, connections, true)
    }

    /// A collector as by [`Collector::with_connections`] whose connections reserve no room: the room
    /// of each grows with its frame, and is given back when that has ended. So many connections that
    /// are silent cost little; but a piece may be refused with `Memory { used: 0 }` for want of room,
    /// where no frame waits. Then no octet of the frame was taken.
    pub fn with_growing_room(
        alloc: Global,
        store: S,
        reading: FrameReading,
        connections: usize,
    ) -> Result<Collector<S>, S>
        ensures stands { IfOk result (λ c. Stands S.entries c (S.entries store) []) }
        ensures settled { IfOk result (λ c. NoneWaits c) }
        ensures reading { IfOk result (λ c. reading_of c ≡ reading) }
        ensures reserves { IfOk result (λ c. (reserves_of c ≡ false) × HasAllRoom c) }
        ensures back { IfErr result (λ s. s ≡ store) }
        ensures room { IfOk result (λ c. limit_of c ≤ room_of c) }
        ensures limit { IfOk result (λ c.
            limit_of c ≡ max CONNECTIONS_MAX (min connections CONNECTIONS_LIMIT)) }
    {
        Collector::with_room(alloc, store, reading, connections, false)
    }

    // A collector whose connections reserve room or do not.
    fn with_room(
        alloc: Global,
        store: S,
        reading: FrameReading,
        connections: usize,
        reserves: bool,
    ) -> Result<Collector<S>, S>
        ensures stands { IfOk result (λ c. Stands S.entries c (S.entries store) []) }
        ensures settled { IfOk result (λ c. NoneWaits c) }
        ensures reading { IfOk result (λ c. reading_of c ≡ reading) }
        ensures reserves { IfOk result (λ c. (reserves_of c ≡ reserves) × HasAllRoom c) }
        ensures back { IfErr result (λ s. s ≡ store) }
        ensures room { IfOk result (λ c. limit_of c ≤ room_of c) }
        ensures limit { IfOk result (λ c.
            limit_of c ≡ max CONNECTIONS_MAX (min connections CONNECTIONS_LIMIT)) }
    {
        match Connections::new(alloc, connections) {
            Ok(connections) => Ok(Collector {
                store,
                connections,
                reading,
                reserves,
            }),
            Err(_) => Err(store),
        }
    }

    /// Opens a connection under a number that the caller chooses. A number whose connection was
    /// ended may be opened again, as a new stream.
    ///
    /// It is refused, in this order, with `AlreadyOpen` if the number is open, `TooManyOpen` if as
    /// many connections are open as the collector was made for, and `Memory { used: 0 }` if an
    /// allocation fails. A refusal changes nothing.
    pub fn open_conn(
        &mut self,
        alloc: Global,
        conn: u32,
        framing: Framing,
    ) -> Result<(), CollectFault>
        ensures goes_on { GoesOn S.entries self.old self.new
            (accepted_opening conn framing result) }
        ensures cause { (past first : List Entry) (events : List AcceptedEvent)
            → Stands (behind past S.entries) self.old first events
            → IsOpening (limit_of self.old) conn result (history_of events) }
        ensures waits { WaitAlike self.old self.new }
        ensures err { OnErr result (HaveSameConnections self.old self.new) }
        ensures store { store_of self.new ≡ store_of self.old }
    {
        if self.connections.find(conn).is_some() {
            return Err(CollectFault::AlreadyOpen);
        }
        if self.connections.is_full() {
            return Err(CollectFault::TooManyOpen);
        }
        let Ok(scanner) = new_scanner(alloc, framing, self.reserves) else {
            return Err(CollectFault::Memory { used: 0 });
        };
        let connection = Connection {
            number: conn,
            scanner,
        };
        match self.connections.open(connection) {
            Ok(()) => Ok(()),
            Err(_) => Err(CollectFault::Memory { used: 0 }),
        }
    }

    /// Takes octets of a connection's piece, and handles at most one frame. If a frame is ready
    /// already, it is handled first, and no octet is taken. Otherwise octets are taken up to the
    /// end of a frame, a bad octet of a count, or the end of the piece.
    ///
    /// It is refused, in this order, with `NotOpen`, `ConnFailed` after a bad count, and
    /// `StreamTooLong` if the stream would have more than `POSITION_MAX` octets. These change
    /// nothing. After `Memory { used }` so many octets were taken, and the frame stays ready: the
    /// next call handles it. Only in a collector by [`Collector::with_growing_room`], `Memory { used:
    /// 0 }` also comes where room for octets of a frame is refused: then nothing has changed. After
    /// `BadCount` the connection takes no more octets; the others go on.
    pub fn advance(
        &mut self,
        alloc: Global,
        conn: u32,
        piece: &[u8],
    ) -> Result<Advance, CollectFault>
        ensures within { IsUsedWithin piece.now result }
        // How much is taken: nothing while a frame waits, which is handled first; else all up to the
        // end of a frame, or up to a bad octet, or the whole piece. Where memory was refused, all of
        // it is of the frame that waits.
        ensures taken { (past first : List Entry) (events : List AcceptedEvent)
            → Stands (behind past S.entries) self.old first events
            → LacksRoom self.old self.new conn result ⊎ IfSome (stream_of conn (history_of events).streams)
            (IsTaken piece.now (waits_of self.old conn) result) }
        // It stands at the events with what was accepted: the octets used, and a bad one.
        ensures goes_on { GoesOn S.entries self.old self.new
            (accepted_piece conn (accepted_octets piece.now result)) }
        // The octets that follow a bad one change nothing.
        ensures drops { GoesOn S.entries self.old self.new
            (accepted_piece conn (dropped_octets piece.now result)) }
        // The outcome is that of the frame that waited, or else that the octets complete; there is
        // none exactly where there is no such frame, and no bad count.
        ensures outcome { (past first : List Entry) (events : List AcceptedEvent)
            → Stands (behind past S.entries) self.old first events
            → IfOk result (λ a. Reports (reading_of self.old) conn (used_octets piece.now a)
            (history_of events) (waits_of self.old conn) (S.entries (store_of self.old))
            (S.entries (store_of self.new)) (outcomes_of a.outcome)) }
        // After Ok no frame of the connection waits; where memory was refused, one does.
        ensures waits { LacksRoom self.old self.new conn result
            ⊎ ((d : ℕ) → waits_of self.new d ≡ waiting_then result conn (waits_of self.old) d) }
        // Why the piece is refused.
        ensures cause { (past first : List Entry) (events : List AcceptedEvent)
            → Stands (behind past S.entries) self.old first events
            → LacksRoom self.old self.new conn result
            ⊎ IsAnswerAt (reading_of self.old) conn piece.now result (history_of events) }
        // A refusal changes nothing, but where memory was refused.
        ensures unchanged { IfRefused result ((HaveSameConnections self.old self.new)
            × (store_of self.new ≡ store_of self.old)) }
        ensures err { OnErr result (S.entries (store_of self.new) ≡ S.entries (store_of self.old)) }
    {
        match self.connections.find(conn) {
            None => Err(CollectFault::NotOpen),
            Some(place) => advance_connection(
                alloc,
                self.reading,
                &mut self.connections.slots[place],
                &mut self.store,
                &mut Unobserved,
                piece,
            ),
        }
    }

    /// Handles a datagram, whose octets are one frame. If an allocation fails, nothing has changed.
    pub fn datagram(&mut self, alloc: Global, octets: &[u8]) -> Result<Outcome, AllocError>
        ensures goes_on { GoesOn S.entries self.old self.new (accepted_datagram octets.now result) }
        ensures outcome { IfOk result (λ o.
            IsOutcome (reading_of self.old) (S.entries (store_of self.old)) (S.entries (store_of self.new))
            octets.now o) }
        ensures err { OnErr result (S.entries (store_of self.new) ≡ S.entries (store_of self.old)) }
        ensures connections { HaveSameConnections self.old self.new }
        ensures spelled { OnErr result (IsRecordFrame (reading_of self.old) octets.now) }
    {
        handle(alloc, self.reading, &mut self.store, octets)
    }

    /// Ends a connection. After Ok it is closed, and also after `Unterminated { start }`, when the
    /// stream stops inside the frame that begins at that position. One whose stream held a bad
    /// count is closed with Ok. `NotOpen`, and `Unreleased` while a frame waits for which memory
    /// was refused, change nothing.
    pub fn end_conn(&mut self, conn: u32) -> Result<(), CollectFault>
        ensures goes_on { GoesOn S.entries self.old self.new (accepted_ending conn result) }
        ensures cause { (past first : List Entry) (events : List AcceptedEvent)
            → Stands (behind past S.entries) self.old first events
            → IsEnding conn result (history_of events) }
        // The frame that is not handled is one of this connection.
        ensures ready { (past first : List Entry) (events : List AcceptedEvent)
            → Stands (behind past S.entries) self.old first events
            → IfUnreleased result (waits_of self.old conn ≡ 1) }
        ensures unchanged { IfRefused result (HaveSameConnections self.old self.new) }
        // No frame of another connection is lost.
        ensures waits { (past first : List Entry) (events : List AcceptedEvent)
            → Stands (behind past S.entries) self.old first events
            → WaitAlike self.old self.new }
        ensures store { store_of self.new ≡ store_of self.old }
    {
        let place = match self.connections.find(conn) {
            None => return Err(CollectFault::NotOpen),
            Some(place) => place,
        };
        match self.connections.slots[place].scanner.end() {
            Err(EndFault::Unreleased) => Err(CollectFault::Unreleased),
            Err(EndFault::Unterminated { start }) => {
                self.connections.close(conn, place);
                Err(CollectFault::Unterminated { start })
            }
            Err(EndFault::Failed) => {
                self.connections.close(conn, place);
                Ok(())
            }
            Ok(()) => {
                self.connections.close(conn, place);
                Ok(())
            }
        }
    }

    /// Whether a frame of a connection waits, since memory was refused for it.
    pub fn frame_waits(&self, conn: u32) -> bool
        ensures none { result ≡ false → waits_of self.now conn ≡ 0 }
        ensures one { result ≡ true → (past first : List Entry) (events : List AcceptedEvent)
            → Stands (behind past S.entries) self.now first events → waits_of self.now conn ≡ 1 }
    {
        match self.connections.find(conn) {
            None => false,
            Some(place) => match self.connections.slots[place].scanner.end() {
                Err(EndFault::Unreleased) => true,
                Ok(()) | Err(EndFault::Failed | EndFault::Unterminated { .. }) => false,
            },
        }
    }

    /// The store. If no frame waits, it holds what it held at first and the received set.
    pub fn store(&self) -> &S
        ensures same { result.now ≡ store_of self.now }
        ensures received { (first : List Entry) (events : List AcceptedEvent)
            → Stands S.entries self.now first events → NoneWaits self.now
            → (x : Entry) → Has (S.entries result.now) x
            ↔ (Has first x ⊎ IsReceived (reading_of self.now) events x) }
    {
        &self.store
    }
}
