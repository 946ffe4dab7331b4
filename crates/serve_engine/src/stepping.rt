//! What a server does with a step.
ghost use Rattle.std.specs.Prelude.{◌≡◌, ◌⊎◌, ◌++◌, Bool, List, false, true};
ghost use Rattle.archive_text.specs.Entries.{Entry};
ghost use Rattle.socket_source.specs.Steps.{Closes};
ghost use Rattle.syslog_collect.specs.Collectors.{NoneWaits};
ghost use Rattle.syslog_collect.specs.History.{AcceptedEvent, Datagram, Ended, Opened, Piece};
ghost use Rattle.serve_engine.specs.Events.{Receives, bad_last, ends_in_bad_count, manner_of};
ghost use Rattle.serve_engine.specs.Intakes.{StandsBy, waiting_in};
ghost use Rattle.serve_engine.specs.Keepings.{Kept};
ghost use Rattle.serve_engine.specs.Notes.{IsNote, Passes, TellsFew, TellsTurn, told_in};
ghost use Rattle.serve_engine.specs.Paces.{PaysFor};
ghost use Rattle.serve_engine.specs.Refusals.{KeepsSilent, dropped_counted, kept_in, peer_counted};
ghost use Rattle.serve_engine.specs.Serving.{Accepts, ClosesLost, CommitsAll, EndsUnlessFull, FaultsAs};
ghost use Rattle.serve_engine.specs.Serving.{IsCommitTurn, IsEventTurn, IsToldFull, TellsFull, UnlessStopped};
ghost use Rattle.serve_engine.specs.Syncs.{MakesAtMost, commit_syncs, turn_syncs};
ghost use Rattle.serve_engine.specs.declared.serve_end.ServeEnd.TheVariants.{Disk, Memory};
ghost use Rattle.serve_engine.specs.declared.turn.Turn.TheVariants.{End, On};

use crate::keeping::{KeepFault, Keeping};
use crate::limits::STATUS_LINES;
use crate::lines::{Happening, is_bad_count};
use crate::peers::Way;
use crate::serve_end::ServeEnd;
use crate::server::Server;
use crate::serving::ServeOptions;
use crate::turn::Turn;
use archive_text::Store;
use collect_engine::Received;
use octet_devices::Output;
use socket_source::{ConnectionEnd, ServerSource};
use std::alloc::Global;
use std::net::SocketAddr;
use syslog_collect::{Event, Outcome};
use syslog_frame::Framing;

// Whether the last of the outcomes is a bad count.
fn is_bad_last(last: Option<Outcome>) -> bool
    ensures { result ≡ bad_last last }
{
    match last {
        Some(outcome) => is_bad_count(outcome),
        None => false,
    }
}

// Whether outcomes end in a bad count.
fn ends_in_bad_count(outcomes: &[Outcome]) -> bool
    ensures { result ≡ ends_in_bad_count outcomes.now }
{
    is_bad_last(outcomes.last().copied())
}

// How a datagram came.
fn way_of(peer: Option<SocketAddr>) -> Way {
    match peer {
        Some(peer) => Way::Udp(peer),
        None => Way::Unix,
    }
}

// Why a connection was not opened.
fn not_opened(received: Received) -> Happening {
    match received {
        Received::Memory => Happening::NoMemory,
        Received::Accepted | Received::Refused | Received::Unterminated { .. } => {
            Happening::TurnedAway
        }
    }
}

impl<S: Store + Drop, K: Keeping<S> + Drop, N: Output + Drop, R: Output + Drop> Server<S, K, N, R> {
    // A connection was opened. Where there is no room or no memory for it, it is closed.
    pub(crate) fn opened<Q: ServerSource>(
        &mut self,
        alloc: Global,
        source: &mut Q,
        conn: u32,
        framing: Framing,
        peer: SocketAddr,
    ) -> Turn
        ensures served { (lost : Bool) × ClosesLost lost (Q.state source.old) (Q.state source.new) conn
            × Accepts S.entries K.stands self.old.intake self.new.intake (Opened conn framing) lost result
            (kept_in R.state self.old.report) (kept_in R.state self.new.report) }
        ensures manner { manner_of self.new.intake.collector ≡ manner_of self.old.intake.collector }
        ensures full { self.new.full ≡ self.old.full }
        ensures turn { result ≡ On }
        ensures notes { TellsTurn (told_in N.state self.old.report) (told_in N.state self.new.report) }
        ensures keeper { self.new.intake.keeper ≡ self.old.intake.keeper }
    {
        let way = Way::Stream(framing, peer);
        match self.intake.open(alloc, conn, framing) {
            Received::Accepted => {
                self.peers.set(conn, Some(way));
                self.report.count_connection();
                Turn::On
            }
            received => {
                source.close(conn);
                self.report.tell(alloc, way, not_opened(received));
                Turn::On
            }
        }
    }

    // Ends a connection that can go on no more.
    fn lose<Q: ServerSource>(&mut self, source: &mut Q, lost: u32) -> Turn
        ensures served { (k : Kept) (first : List Entry) (before : List AcceptedEvent)
            → StandsBy S.entries K.stands self.old.intake k first before
            → NoneWaits self.old.intake.collector → (here : List AcceptedEvent)
            × StandsBy S.entries K.stands self.new.intake k first (before ++ here)
            × Receives (manner_of self.old.intake.collector) before (Ended lost) here result
            × NoneWaits self.new.intake.collector }
        ensures manner { manner_of self.new.intake.collector ≡ manner_of self.old.intake.collector }
        ensures full { self.new.full ≡ self.old.full }
        ensures turn { result ≡ On }
        ensures closes { Closes (Q.state source.old) (Q.state source.new) lost }
        ensures report { self.new.report ≡ self.old.report }
        ensures keeper { self.new.intake.keeper ≡ self.old.intake.keeper }
    {
        source.close(lost);
        self.peers.set(lost, None);
        let _ = self.intake.end(lost);
        Turn::On
    }

    // Octets came on a connection. If there is no memory for them, it is closed; if there is none for the
    // record of a frame that they complete, the run ends.
    pub(crate) fn piece<Q: ServerSource>(
        &mut self,
        alloc: Global,
        source: &mut Q,
        conn: u32,
        octets: &[u8],
    ) -> Turn
        ensures served { (lost : Bool) × ClosesLost lost (Q.state source.old) (Q.state source.new) conn
            × Accepts S.entries K.stands self.old.intake self.new.intake (Piece conn octets.now) lost result
            (kept_in R.state self.old.report) (kept_in R.state self.new.report) }
        ensures manner { manner_of self.new.intake.collector ≡ manner_of self.old.intake.collector }
        ensures full { self.new.full ≡ self.old.full }
        ensures turn { IsEventTurn result }
        ensures notes { (k : Kept) (first : List Entry) (before : List AcceptedEvent)
            → StandsBy S.entries K.stands self.old.intake k first before
            → TellsTurn (told_in N.state self.old.report) (told_in N.state self.new.report) }
        ensures keeper { self.new.intake.keeper ≡ self.old.intake.keeper }
    {
        let way = self.peers.get(conn);
        self.report.begin_piece(way, octets.len());
        let received = self
            .intake
            .receive_piece(alloc, conn, octets, &mut self.report);
        match received {
            Received::Memory => {
                if self.intake.collector.frame_waits(conn) {
                    return Turn::End(ServeEnd::Memory);
                }
                self.report.lost(alloc, way, Happening::NoMemory);
                self.lose(source, conn)
            }
            Received::Refused => self.lose(source, conn),
            Received::Accepted | Received::Unterminated { .. } => {
                if ends_in_bad_count(self.intake.outcomes.as_slice()) {
                    return self.lose(source, conn);
                }
                Turn::On
            }
        }
    }

    // A connection has ended.
    pub(crate) fn ended(&mut self, alloc: Global, conn: u32, end: ConnectionEnd) -> Turn
        ensures served { Accepts S.entries K.stands self.old.intake self.new.intake (Ended conn) false result
            (kept_in R.state self.old.report) (kept_in R.state self.new.report) }
        ensures manner { manner_of self.new.intake.collector ≡ manner_of self.old.intake.collector }
        ensures full { self.new.full ≡ self.old.full }
        ensures turn { result ≡ On }
        ensures notes { TellsTurn (told_in N.state self.old.report) (told_in N.state self.new.report) }
        ensures keeper { self.new.intake.keeper ≡ self.old.intake.keeper }
    {
        let way = self.peers.get(conn);
        self.peers.set(conn, None);
        let received = self.intake.end(conn);
        self.report.ended(alloc, way, received, end);
        Turn::On
    }

    // A datagram came. If there is no memory for its record, it is dropped.
    pub(crate) fn datagram(
        &mut self,
        alloc: Global,
        peer: Option<SocketAddr>,
        octets: &[u8],
    ) -> Turn
        ensures served { Accepts S.entries K.stands self.old.intake self.new.intake (Datagram octets.now) false result
            (kept_in R.state self.old.report) (kept_in R.state self.new.report) }
        ensures manner { manner_of self.new.intake.collector ≡ manner_of self.old.intake.collector }
        ensures full { self.new.full ≡ self.old.full }
        ensures turn { result ≡ On }
        ensures notes { TellsTurn (told_in N.state self.old.report) (told_in N.state self.new.report) }
        ensures keeper { self.new.intake.keeper ≡ self.old.intake.keeper }
    {
        let way = way_of(peer);
        let received = self.intake.receive(alloc, Event::Datagram { octets });
        self.report.count_octets(octets.len());
        self.report
            .outcomes(alloc, way, self.intake.outcomes.as_slice(), octets);
        self.report.datagram(alloc, way, received);
        Turn::On
    }

    // A connection came that there was no room for.
    pub(crate) fn turned_away(&mut self, alloc: Global, framing: Framing, peer: SocketAddr) -> Turn
        ensures same { self.new.intake ≡ self.old.intake }
        ensures full { self.new.full ≡ self.old.full }
        ensures turn { result ≡ On }
        ensures kept { KeepsSilent false (kept_in R.state self.old.report) (kept_in R.state self.new.report) }
        ensures notes { TellsTurn (told_in N.state self.old.report) (told_in N.state self.new.report) }
    {
        let way = Way::Stream(framing, peer);
        self.report.tell(alloc, way, Happening::TurnedAway);
        Turn::On
    }

    // A connection or a datagram came of a peer that may not send.
    pub(crate) fn not_allowed(&mut self, alloc: Global, peer: SocketAddr) -> Turn
        ensures same { self.new.intake ≡ self.old.intake }
        ensures full { self.new.full ≡ self.old.full }
        ensures turn { result ≡ On }
        ensures kept { KeepsSilent false (peer_counted (kept_in R.state self.old.report))
            (kept_in R.state self.new.report) }
        ensures notes { TellsTurn (told_in N.state self.old.report) (told_in N.state self.new.report) }
    {
        self.report.not_allowed(alloc, peer);
        Turn::On
    }

    // A datagram came above the rate of its peer.
    pub(crate) fn over_rate(&mut self, alloc: Global, peer: SocketAddr) -> Turn
        ensures same { self.new.intake ≡ self.old.intake }
        ensures full { self.new.full ≡ self.old.full }
        ensures turn { result ≡ On }
        ensures kept { KeepsSilent false (dropped_counted (kept_in R.state self.old.report))
            (kept_in R.state self.new.report) }
        ensures notes { TellsTurn (told_in N.state self.old.report) (told_in N.state self.new.report) }
    {
        self.report.over_rate(alloc, peer);
        Turn::On
    }

    // Nothing is read until what waits is committed, which is tried again. Why is told once.
    fn wait(&mut self, line: &[u8]) -> Turn
        requires { IsNote line.now }
        ensures same { self.new.intake ≡ self.old.intake }
        ensures turn { result ≡ On }
        ensures full { self.new.full ≡ true }
        ensures told { self.new.told ≡ true }
        ensures kept { KeepsSilent false (kept_in R.state self.old.report) (kept_in R.state self.new.report) }
        ensures notes { TellsFew 1 (N.state self.old.report.notes) (N.state self.new.report.notes) }
        ensures pace { self.new.report.pace ≡ self.old.report.pace }
    {
        self.report.tell_waiting(line, self.told);
        self.told = true;
        self.full = true;
        Turn::On
    }

    // What a fault of what keeps the records comes to: one of the disk ends the run.
    fn fault(&mut self, fault: KeepFault) -> Turn
        ensures same { self.new.intake ≡ self.old.intake }
        ensures turn { FaultsAs fault self.new.full result }
        ensures told { TellsFull result self.old.told self.new.full self.new.told }
        ensures kept { KeepsSilent false (kept_in R.state self.old.report) (kept_in R.state self.new.report) }
        ensures notes { TellsFew 1 (N.state self.old.report.notes) (N.state self.new.report.notes) }
        ensures pace { self.new.report.pace ≡ self.old.report.pace }
    {
        match fault {
            KeepFault::Full => self.wait(b"store full\n"),
            KeepFault::Memory => self.wait(b"store waits: want of memory\n"),
            KeepFault::Failed => {
                self.report.tell_text(b"store fault\n");
                Turn::End(ServeEnd::Disk)
            }
        }
    }

    // Commits all that came.
    pub(crate) fn commit(&mut self, alloc: Global) -> Turn
        ensures served { CommitsAll S.entries K.stands self.old.intake self.new.intake self.new.full result }
        ensures settled { NoneWaits self.old.intake.collector → NoneWaits self.new.intake.collector }
        ensures manner { manner_of self.new.intake.collector ≡ manner_of self.old.intake.collector }
        ensures turn { IsCommitTurn result }
        ensures kept { KeepsSilent true (kept_in R.state self.old.report) (kept_in R.state self.new.report) }
        ensures told { TellsFull result self.old.told self.new.full self.new.told }
        ensures notes { TellsFew 1 (N.state self.old.report.notes) (N.state self.new.report.notes) }
        ensures pace { self.new.report.pace ≡ self.old.report.pace }
        ensures syncs { MakesAtMost (commit_syncs K.most_syncs (waiting_in S.entries self.old.intake))
            (K.syncs self.old.intake.keeper) (K.syncs self.new.intake.keeper) }
    {
        match self.intake.commit(alloc) {
            Ok(taken) => {
                self.report.committed(taken);
                self.full = false;
                Turn::On
            }
            Err(fault) => self.fault(fault),
        }
    }

    // A checkpoint, where the journal is long.
    fn checkpoint(&mut self, alloc: Global, checkpoint_len: u64) -> Turn
        ensures stands { (k : Kept) (first : List Entry) (before : List AcceptedEvent)
            → StandsBy S.entries K.stands self.old.intake k first before
            → StandsBy S.entries K.stands self.new.intake k first before }
        ensures collector { self.new.intake.collector ≡ self.old.intake.collector }
        ensures full { UnlessStopped result self.new.full (self.old.full ≡ false) }
        ensures turn { IsCommitTurn result }
        ensures kept { KeepsSilent false (kept_in R.state self.old.report) (kept_in R.state self.new.report) }
        ensures told { IsToldFull self.old.full self.old.told
            → TellsFull result self.old.told self.new.full self.new.told }
        ensures notes { TellsFew 1 (N.state self.old.report.notes) (N.state self.new.report.notes) }
        ensures pace { self.new.report.pace ≡ self.old.report.pace }
        ensures syncs { MakesAtMost K.most_syncs
            (K.syncs self.old.intake.keeper) (K.syncs self.new.intake.keeper) }
    {
        if self.full || self.intake.keeper.journal_len() <= checkpoint_len {
            return Turn::On;
        }
        match self.intake.checkpoint(alloc) {
            Ok(()) => Turn::On,
            Err(fault) => self.fault(fault),
        }
    }

    // Counts the time that has passed, which pays for lines, and tells the counts each so often.
    fn count_time(&mut self, millis: u32, options: &ServeOptions)
        ensures same { self.new.intake ≡ self.old.intake }
        ensures full { self.new.full ≡ self.old.full }
        ensures kept { KeepsSilent false (kept_in R.state self.old.report) (kept_in R.state self.new.report) }
        ensures pace { PaysFor self.old.report.pace self.new.report.pace millis }
        ensures told { self.new.told ≡ self.old.told }
        ensures notes { TellsFew 1 (N.state self.old.report.notes) (N.state self.new.report.notes) }
    {
        self.report.tick(millis);
        self.waited = self.waited.saturating_add(u64::from(millis));
        if options.count_millis != 0 && self.waited >= options.count_millis {
            self.waited = 0;
            self.report
                .tell_counts(options.counts_not_allowed, options.counts_over_rate);
        }
    }

    // Tells that the disk has room again, where it was told that it is full and it is not.
    fn tell_room(&mut self)
        ensures same { self.new.intake ≡ self.old.intake }
        ensures full { self.new.full ≡ self.old.full }
        ensures kept { KeepsSilent false (kept_in R.state self.old.report) (kept_in R.state self.new.report) }
        ensures told { self.old.full ≡ false → self.new.told ≡ false }
        ensures waits { self.old.full ≡ true → self.new ≡ self.old }
        ensures notes { TellsFew 1 (N.state self.old.report.notes) (N.state self.new.report.notes) }
        ensures pace { self.new.report.pace ≡ self.old.report.pace }
    {
        if !self.full {
            self.report.tell_room(self.told);
            self.told = false;
        }
    }

    // Makes a checkpoint that is due, and tells that there is room again.
    fn finish_tick(&mut self, alloc: Global, checkpoint_len: u64) -> Turn
        ensures stands { (k : Kept) (first : List Entry) (before : List AcceptedEvent)
            → StandsBy S.entries K.stands self.old.intake k first before
            → StandsBy S.entries K.stands self.new.intake k first before }
        ensures collector { self.new.intake.collector ≡ self.old.intake.collector }
        ensures full { UnlessStopped result self.new.full (self.old.full ≡ false) }
        ensures turn { IsCommitTurn result }
        ensures kept { KeepsSilent false (kept_in R.state self.old.report) (kept_in R.state self.new.report) }
        ensures told { IsToldFull self.old.full self.old.told → result ≡ On
            → self.new.told ≡ self.new.full }
        ensures notes { TellsFew 2 (N.state self.old.report.notes) (N.state self.new.report.notes) }
        ensures pace { self.new.report.pace ≡ self.old.report.pace }
        ensures syncs { MakesAtMost K.most_syncs
            (K.syncs self.old.intake.keeper) (K.syncs self.new.intake.keeper) }
    {
        match self.checkpoint(alloc, checkpoint_len) {
            Turn::On => {
                self.tell_room();
                Turn::On
            }
            end => end,
        }
    }

    // The time of a period is up; so many milliseconds have passed since the last time.
    pub(crate) fn tick(&mut self, alloc: Global, millis: u32, options: &ServeOptions) -> Turn
        ensures served { CommitsAll S.entries K.stands self.old.intake self.new.intake self.new.full result }
        ensures settled { NoneWaits self.old.intake.collector → NoneWaits self.new.intake.collector }
        ensures manner { manner_of self.new.intake.collector ≡ manner_of self.old.intake.collector }
        ensures turn { IsCommitTurn result }
        ensures kept { KeepsSilent true (kept_in R.state self.old.report) (kept_in R.state self.new.report) }
        ensures told { result ≡ On → self.new.told ≡ self.new.full }
        ensures notes { TellsFew STATUS_LINES (N.state self.old.report.notes) (N.state self.new.report.notes) }
        ensures pace { Passes millis self.old.report.pace self.new.report.pace }
        ensures syncs { MakesAtMost (turn_syncs K.most_syncs (waiting_in S.entries self.old.intake))
            (K.syncs self.old.intake.keeper) (K.syncs self.new.intake.keeper) }
    {
        match self.commit(alloc) {
            Turn::On => {
                self.count_time(millis, options);
                self.finish_tick(alloc, options.checkpoint_len)
            }
            end => end,
        }
    }

    // Memory is short: all that came is committed before the next tick, and a checkpoint made that is due.
    pub(crate) fn commit_early(&mut self, alloc: Global, checkpoint_len: u64) -> Turn
        ensures served { CommitsAll S.entries K.stands self.old.intake self.new.intake self.new.full result }
        ensures settled { NoneWaits self.old.intake.collector → NoneWaits self.new.intake.collector }
        ensures manner { manner_of self.new.intake.collector ≡ manner_of self.old.intake.collector }
        ensures turn { IsCommitTurn result }
        ensures kept { KeepsSilent true (kept_in R.state self.old.report) (kept_in R.state self.new.report) }
        ensures notes { TellsFew 3 (N.state self.old.report.notes) (N.state self.new.report.notes) }
        ensures pace { self.new.report.pace ≡ self.old.report.pace }
        ensures syncs { MakesAtMost (turn_syncs K.most_syncs (waiting_in S.entries self.old.intake))
            (K.syncs self.old.intake.keeper) (K.syncs self.new.intake.keeper) }
    {
        match self.commit(alloc) {
            Turn::On => self.finish_tick(alloc, checkpoint_len),
            end => end,
        }
    }

    // Ends so, unless what came waits for a disk with room or for memory: then it is tried again.
    fn end_with(&mut self, end: ServeEnd) -> Turn
        ensures same { self.new.intake ≡ self.old.intake }
        ensures full { self.new.full ≡ self.old.full }
        ensures turn { EndsUnlessFull self.old.full end result }
        ensures kept { KeepsSilent false (kept_in R.state self.old.report) (kept_in R.state self.new.report) }
        ensures notes { TellsFew 1 (N.state self.old.report.notes) (N.state self.new.report.notes) }
        ensures pace { self.new.report.pace ≡ self.old.report.pace }
    {
        if self.full {
            return Turn::On;
        }
        self.report.tell_end(end);
        Turn::End(end)
    }

    // The source gives nothing more: all that came is committed, and then it ends so.
    pub(crate) fn finish(&mut self, alloc: Global, end: ServeEnd) -> Turn
        ensures served { CommitsAll S.entries K.stands self.old.intake self.new.intake self.new.full result }
        ensures settled { NoneWaits self.old.intake.collector → NoneWaits self.new.intake.collector }
        ensures manner { manner_of self.new.intake.collector ≡ manner_of self.old.intake.collector }
        ensures turn { IsCommitTurn result ⊎ (result ≡ End end) }
        ensures last { result ≡ On → self.new.full ≡ true }
        ensures kept { KeepsSilent true (kept_in R.state self.old.report) (kept_in R.state self.new.report) }
        ensures notes { TellsFew 2 (N.state self.old.report.notes) (N.state self.new.report.notes) }
        ensures pace { self.new.report.pace ≡ self.old.report.pace }
        ensures syncs { MakesAtMost (commit_syncs K.most_syncs (waiting_in S.entries self.old.intake))
            (K.syncs self.old.intake.keeper) (K.syncs self.new.intake.keeper) }
    {
        match self.commit(alloc) {
            Turn::On => self.end_with(end),
            turn => turn,
        }
    }

    // What came waits: the store is opened again, and it is committed.
    pub(crate) fn try_again(&mut self, alloc: Global) -> Turn
        ensures served { CommitsAll S.entries K.stands self.old.intake self.new.intake self.new.full result }
        ensures settled { NoneWaits self.old.intake.collector → NoneWaits self.new.intake.collector }
        ensures manner { manner_of self.new.intake.collector ≡ manner_of self.old.intake.collector }
        ensures turn { IsCommitTurn result }
        ensures kept { KeepsSilent true (kept_in R.state self.old.report) (kept_in R.state self.new.report) }
        ensures told { TellsFull result self.old.told self.new.full self.new.told }
        ensures notes { TellsFew 1 (N.state self.old.report.notes) (N.state self.new.report.notes) }
        ensures pace { self.new.report.pace ≡ self.old.report.pace }
        ensures syncs { MakesAtMost (turn_syncs K.most_syncs (waiting_in S.entries self.old.intake))
            (K.syncs self.old.intake.keeper) (K.syncs self.new.intake.keeper) }
    {
        match self.intake.reopen(alloc) {
            Ok(()) => self.commit(alloc),
            Err(fault) => self.fault(fault),
        }
    }
}
