//! What a server tells: lines, counts, and the frames that it refuses.
ghost use Rattle.std.specs.Prelude.{◌≡◌, ◌≤◌, ◌<◌, ℕ, OnOk, [], false, length, true};
ghost use Rattle.serve_engine.specs.Counts.{CountsDropped, CountsEnd, connection_counted, count_up, counted, no_counts};
ghost use Rattle.serve_engine.specs.Counts.{broken_counted, commit_counted, octets_counted, quiet_counted};
ghost use Rattle.serve_engine.specs.Lines.{counts_text, is_refused};
ghost use Rattle.serve_engine.specs.Notes.{IsNote, TakesMade, TakesSome, TellsFew, TellsOf, line_count, line_counts};
ghost use Rattle.serve_engine.specs.Notes.{told_in};
ghost use Rattle.serve_engine.specs.Paces.{GoesByPace, HasLine, PaysFor, SpendsLine};
ghost use Rattle.std.specs.Net.Socket.{socket_ip};
ghost use Rattle.serve_engine.specs.Peers.{number_of, peer_of};
ghost use Rattle.serve_engine.specs.Refusals.{CountsLost, KeepsEach, KeepsFrame, KeepsNext, KeepsNone, KeepsSilent};
ghost use Rattle.serve_engine.specs.Refusals.{dropped_counted, kept_in, octets_in, outputs_in, peer_counted};
ghost use Rattle.serve_engine.specs.declared.turn.Turn.TheVariants.{On};

use crate::counts::ServeCounts;
use crate::keeping::Taken;
use crate::lines::{Happening, put_counts, put_happening, put_refused};
use crate::pace::Pace;
use crate::peers::Way;
use crate::refusals::put_refusal;
use crate::serve_end::ServeEnd;
use collect_engine::Received;
use octet_devices::{Output, write_all};
use socket_source::ConnectionEnd;
use std::alloc::{AllocError, Global};
use std::net::SocketAddr;
use syslog_collect::{Observer, Outcome};

/// The lines, the counts, and the frames that are refused.
#[derive(Drop)]
pub(crate) struct Report<N, R> {
    notes: N,
    refused: R,
    pub(crate) counts: ServeCounts,
    // the number of the next frame
    number: u64,
    // the way by which the piece came whose frames are handled
    way: Way,
    line: Vec<u8>,
    // the last frame that was kept, behind its line
    kept: Vec<u8>,
    pub(crate) pace: Pace,
}

impl<N: Output + Drop, R: Output + Drop> Report<N, R> {
    pub(crate) fn new(alloc: Global, pace: Pace, notes: N, refused: R) -> Report<N, R>
        ensures pace { result.pace ≡ pace }
        ensures counts { result.counts ≡ no_counts }
        ensures outputs { outputs_in result ≡ (notes, refused) }
    {
        Report {
            notes,
            refused,
            counts: ServeCounts {
                received: 0,
                new: 0,
                held: 0,
                refused: 0,
                too_long: 0,
                connections: 0,
                batches: 0,
                octets: 0,
                broken: 0,
                dropped: 0,
                quiet: 0,
                not_allowed: 0,
                over_rate: 0,
            },
            number: 1,
            way: Way::Unix,
            line: Vec::new(alloc),
            kept: Vec::new(alloc),
            pace,
        }
    }

    /// The outputs, with all that they took.
    pub(crate) fn into_outputs(self) -> (N, R)
        ensures { result ≡ outputs_in self }
    {
        let Report {
            notes,
            refused,
            counts: _,
            number: _,
            way: _,
            line: _,
            kept: _,
            pace: _,
        } = self;
        (notes, refused)
    }

    // Writes the line that was made, or counts that it was dropped.
    fn write_line(&mut self, made: Result<(), AllocError>)
        ensures refused { self.new.refused ≡ self.old.refused }
        ensures dropped { self.old.counts.dropped ≤ self.new.counts.dropped }
        ensures counts { CountsDropped self.old.counts self.new.counts }
        ensures quiet { self.new.counts.quiet ≡ self.old.counts.quiet }
        ensures pace { self.new.pace ≡ self.old.pace }
        ensures way { self.new.way ≡ self.old.way }
        ensures once { TakesMade made self.old.line.items (N.state self.old.notes) (N.state self.new.notes) }
    {
        match made {
            Err(_) => self.drop_one(),
            Ok(()) => match write_all(&mut self.notes, self.line.as_slice()) {
                Err(_) => self.drop_one(),
                Ok(()) => {}
            },
        }
    }

    // Writes the line that was made on a peer, if the pace has one for it, or counts it as quiet.
    fn write_paced(&mut self, way: Way, made: Result<(), AllocError>)
        ensures refused { self.new.refused ≡ self.old.refused }
        ensures dropped { self.old.counts.dropped ≤ self.new.counts.dropped }
        ensures counts { CountsDropped self.old.counts self.new.counts }
        ensures pace { GoesByPace self.old.pace self.new.pace (peer_of way) self.old.counts.quiet
            self.new.counts.quiet }
        ensures quiet { ¬ (HasLine self.old.pace (peer_of way))
            → self.new ≡ record self.old { counts = quiet_counted self.old.counts } }
        ensures told { OnOk made (IsNote self.old.line.items)
            → TellsOf (peer_of way) 1 (told_in N.state self.old) (told_in N.state self.new) }
        ensures way { self.new.way ≡ self.old.way }
    {
        if self.pace.lets(way.peer()) {
            self.write_line(made);
        } else {
            count_up(&mut self.counts.quiet, 1);
        }
    }

    /// Tells what happened to a connection, at the pace of the notes.
    pub(crate) fn tell(&mut self, alloc: Global, way: Way, happening: Happening)
        ensures kept { KeepsNone (kept_in R.state self.old) (kept_in R.state self.new) }
        ensures counts { CountsDropped self.old.counts self.new.counts }
        ensures pace { GoesByPace self.old.pace self.new.pace (peer_of way) self.old.counts.quiet
            self.new.counts.quiet }
        ensures told { TellsOf (peer_of way) 1 (told_in N.state self.old) (told_in N.state self.new) }
        ensures way { self.new.way ≡ self.old.way }
    {
        self.line.clear();
        let made = put_happening(alloc, &mut self.line, way, happening);
        self.write_paced(way, made);
    }

    /// Time has passed, which pays for lines.
    pub(crate) fn tick(&mut self, millis: u32)
        ensures kept { kept_in R.state self.new ≡ kept_in R.state self.old }
        ensures pace { PaysFor self.old.pace self.new.pace millis }
        ensures notes { self.new.notes ≡ self.old.notes }
    {
        self.pace.tick(millis);
    }

    /// Tells a line whose text is known.
    pub(crate) fn tell_text(&mut self, text: &[u8])
        requires { IsNote text.now }
        ensures kept { KeepsSilent false (kept_in R.state self.old) (kept_in R.state self.new) }
        ensures told { TellsFew 1 (N.state self.old.notes) (N.state self.new.notes) }
        ensures pace { self.new.pace ≡ self.old.pace }
    {
        self.line.clear();
        let made = self.line.extend_from_slice(text);
        self.write_line(made);
    }

    /// Tells the counts, with the peers that may not send, and the datagrams above the rates of theirs,
    /// if that is asked for.
    pub(crate) fn tell_counts(&mut self, with_not_allowed: bool, with_over_rate: bool)
        ensures kept { KeepsSilent false (kept_in R.state self.old) (kept_in R.state self.new) }
        ensures told { TellsFew 1 (N.state self.old.notes) (N.state self.new.notes) }
        ensures counts { TakesSome (counts_text self.old.counts with_not_allowed with_over_rate)
            (N.state self.old.notes) (N.state self.new.notes) }
        ensures pace { self.new.pace ≡ self.old.pace }
    {
        self.line.clear();
        let made = put_counts(
            &mut self.line,
            &self.counts,
            with_not_allowed,
            with_over_rate,
        );
        self.write_line(made);
    }

    // Counts an outcome.
    fn count(&mut self, outcome: Outcome)
        ensures refused { self.new.refused ≡ self.old.refused }
        ensures counts { self.new.counts ≡ counted self.old.counts outcome }
        ensures told { told_in N.state self.new ≡ told_in N.state self.old }
        ensures way { self.new.way ≡ self.old.way }
    {
        match outcome {
            Outcome::New => count_up(&mut self.counts.received, 1),
            Outcome::Held => {
                count_up(&mut self.counts.received, 1);
                count_up(&mut self.counts.held, 1);
            }
            Outcome::Refused(_) | Outcome::RefusedLegacy { .. } => {
                count_up(&mut self.counts.refused, 1);
            }
            Outcome::TooLong => count_up(&mut self.counts.too_long, 1),
            Outcome::BadCount { .. } => count_up(&mut self.counts.broken, 1),
        }
    }

    // Counts a line or a frame that was dropped.
    fn drop_one(&mut self)
        ensures refused { self.new.refused ≡ self.old.refused }
        ensures dropped { self.new.counts.dropped ≡ count_up self.old.counts.dropped 1 }
        ensures grows { self.old.counts.dropped ≤ self.new.counts.dropped }
        ensures counts { CountsDropped self.old.counts self.new.counts }
        ensures quiet { self.new.counts.quiet ≡ self.old.counts.quiet }
        ensures told { told_in N.state self.new ≡ told_in N.state self.old }
        ensures pace { self.new.pace ≡ self.old.pace }
        ensures way { self.new.way ≡ self.old.way }
    {
        self.counts.dropped = self.counts.dropped.saturating_add(1);
    }

    // Keeps a frame that was refused, behind the line on it.
    fn keep_refused(&mut self, alloc: Global, frame: Option<&[u8]>)
        ensures kept { KeepsFrame (R.state self.old.refused) (R.state self.new.refused) (octets_in frame.entry)
            self.old.counts.dropped self.new.counts.dropped }
        ensures counts { CountsDropped self.old.counts self.new.counts }
        ensures quiet { self.new.counts.quiet ≡ self.old.counts.quiet }
        ensures told { told_in N.state self.new ≡ told_in N.state self.old }
        ensures pace { self.new.pace ≡ self.old.pace }
        ensures way { self.new.way ≡ self.old.way }
    {
        self.kept.clear();
        let line = without_lf(self.line.as_slice());
        match put_refusal(alloc, &mut self.kept, line, frame) {
            Err(_) => self.drop_one(),
            Ok(()) => match write_all(&mut self.refused, self.kept.as_slice()) {
                Err(_) => self.drop_one(),
                Ok(()) => {}
            },
        }
    }

    // Tells a frame of this number that is refused, at the pace of the notes, and keeps it.
    fn refuse(
        &mut self,
        alloc: Global,
        way: Way,
        number: u64,
        outcome: Outcome,
        frame: Option<&[u8]>,
    )
        requires { is_refused outcome ≡ true }
        ensures kept { KeepsFrame (R.state self.old.refused) (R.state self.new.refused) (octets_in frame.entry)
            self.old.counts.dropped self.new.counts.dropped }
        ensures counts { CountsDropped self.old.counts self.new.counts }
        ensures pace { GoesByPace self.old.pace self.new.pace (peer_of way) self.old.counts.quiet
            self.new.counts.quiet }
        ensures told { TellsOf (peer_of way) 1 (told_in N.state self.old) (told_in N.state self.new) }
        ensures way { self.new.way ≡ self.old.way }
    {
        self.line.clear();
        let made = put_refused(alloc, &mut self.line, way, number, outcome);
        self.write_paced(way, made);
        self.keep_refused(alloc, frame);
    }

    /// Tells what became of a frame: if it is refused, a line, and the frame itself.
    pub(crate) fn outcome(
        &mut self,
        alloc: Global,
        way: Way,
        outcome: Outcome,
        frame: Option<&[u8]>,
    )
        ensures kept { KeepsNext (kept_in R.state self.old) outcome (octets_in frame.entry)
            (kept_in R.state self.new) }
        ensures told { TellsOf (peer_of way) (line_count outcome) (told_in N.state self.old)
            (told_in N.state self.new) }
        ensures way { self.new.way ≡ self.old.way }
    {
        self.count(outcome);
        let number = self.number;
        self.number = number.saturating_add(1);
        match outcome {
            Outcome::New | Outcome::Held | Outcome::BadCount { .. } => {}
            Outcome::Refused(_) | Outcome::RefusedLegacy { .. } => {
                self.refuse(alloc, way, number, outcome, frame);
            }
            Outcome::TooLong => self.refuse(alloc, way, number, outcome, None),
        }
    }

    /// Tells what became of a datagram.
    pub(crate) fn outcomes(
        &mut self,
        alloc: Global,
        way: Way,
        outcomes: &[Outcome],
        datagram: &[u8],
    )
        ensures kept { KeepsEach datagram.now outcomes.now (kept_in R.state self.old)
            (kept_in R.state self.new) }
        ensures told { TellsOf (peer_of way) (line_counts outcomes.now) (told_in N.state self.old)
            (told_in N.state self.new) }
    {
        for outcome in outcomes {
            self.outcome(alloc, way, *outcome, Some(datagram));
        }
    }

    /// Counts what is lost for want of memory, and tells it.
    pub(crate) fn lost(&mut self, alloc: Global, way: Way, happening: Happening)
        ensures kept { KeepsNone (kept_in R.state self.old) (kept_in R.state self.new) }
        ensures counts { CountsDropped (broken_counted self.old.counts) self.new.counts }
        ensures told { TellsOf (peer_of way) 1 (told_in N.state self.old) (told_in N.state self.new) }
    {
        count_up(&mut self.counts.broken, 1);
        self.tell(alloc, way, happening);
    }

    /// Counts a peer that may not send, and tells it at the pace of the notes.
    pub(crate) fn not_allowed(&mut self, alloc: Global, peer: SocketAddr)
        ensures kept { KeepsSilent false (peer_counted (kept_in R.state self.old)) (kept_in R.state self.new) }
        ensures pace { GoesByPace self.old.pace self.new.pace (number_of (socket_ip peer)) self.old.counts.quiet
            self.new.counts.quiet }
        ensures told { TellsOf (number_of (socket_ip peer)) 1 (told_in N.state self.old)
            (told_in N.state self.new) }
    {
        count_up(&mut self.counts.not_allowed, 1);
        self.tell(alloc, Way::Udp(peer), Happening::NotAllowed);
    }

    /// Counts a datagram above the rate of its peer, and tells it at the pace of the notes.
    pub(crate) fn over_rate(&mut self, alloc: Global, peer: SocketAddr)
        ensures kept { KeepsSilent false (dropped_counted (kept_in R.state self.old)) (kept_in R.state self.new) }
        ensures pace { GoesByPace self.old.pace self.new.pace (number_of (socket_ip peer)) self.old.counts.quiet
            self.new.counts.quiet }
        ensures told { TellsOf (number_of (socket_ip peer)) 1 (told_in N.state self.old)
            (told_in N.state self.new) }
    {
        count_up(&mut self.counts.over_rate, 1);
        self.tell(alloc, Way::Udp(peer), Happening::OverRate);
    }

    /// Counts and tells that a datagram is lost for want of memory, if it is.
    pub(crate) fn datagram(&mut self, alloc: Global, way: Way, received: Received)
        ensures kept { CountsLost received On (kept_in R.state self.old) (kept_in R.state self.new) }
        ensures told { TellsOf (peer_of way) 1 (told_in N.state self.old) (told_in N.state self.new) }
    {
        match received {
            Received::Memory => self.lost(alloc, way, Happening::Dropped),
            Received::Accepted | Received::Refused | Received::Unterminated { .. } => {}
        }
    }

    /// Counts octets of a piece, of whose frames it is told next.
    pub(crate) fn begin_piece(&mut self, way: Way, octets: usize)
        ensures refused { self.new.refused ≡ self.old.refused }
        ensures counts { self.new.counts ≡ octets_counted self.old.counts octets }
        ensures told { told_in N.state self.new ≡ told_in N.state self.old }
        ensures way { self.new.way ≡ way }
    {
        self.way = way;
        self.count_octets(octets);
    }

    // Tells that a connection ended inside a frame, if it did.
    fn unterminated(&mut self, alloc: Global, way: Way, received: Received)
        ensures kept { KeepsNone (kept_in R.state self.old) (kept_in R.state self.new) }
        ensures counts { CountsEnd received self.old.counts self.new.counts }
        ensures told { TellsOf (peer_of way) 1 (told_in N.state self.old) (told_in N.state self.new) }
    {
        match received {
            Received::Unterminated { start } => {
                count_up(&mut self.counts.broken, 1);
                self.tell(alloc, way, Happening::Unterminated(start));
            }
            Received::Accepted | Received::Refused | Received::Memory => {}
        }
    }

    /// Tells how a connection ended.
    pub(crate) fn ended(&mut self, alloc: Global, way: Way, received: Received, end: ConnectionEnd)
        ensures kept { KeepsNone (kept_in R.state self.old) (kept_in R.state self.new) }
        ensures counts { CountsEnd received self.old.counts self.new.counts }
        ensures told { TellsOf (peer_of way) 2 (told_in N.state self.old) (told_in N.state self.new) }
    {
        self.unterminated(alloc, way, received);
        match end {
            ConnectionEnd::Closed => {}
            ConnectionEnd::Reset => self.tell(alloc, way, Happening::Reset),
            ConnectionEnd::Idle => self.tell(alloc, way, Happening::Idle),
            ConnectionEnd::Displaced => self.tell(alloc, way, Happening::TurnedAway),
        }
    }

    /// Tells by this line why what came waits, unless that was told before.
    pub(crate) fn tell_waiting(&mut self, line: &[u8], told: bool)
        requires { IsNote line.now }
        ensures kept { KeepsSilent false (kept_in R.state self.old) (kept_in R.state self.new) }
        ensures once { told ≡ true → self.new ≡ self.old }
        ensures told { TellsFew 1 (N.state self.old.notes) (N.state self.new.notes) }
        ensures pace { self.new.pace ≡ self.old.pace }
    {
        if !told {
            self.tell_text(line);
        }
    }

    /// Tells that the store has room again, where it was told that what came waits.
    pub(crate) fn tell_room(&mut self, told: bool)
        ensures kept { KeepsSilent false (kept_in R.state self.old) (kept_in R.state self.new) }
        ensures once { told ≡ false → self.new ≡ self.old }
        ensures told { TellsFew 1 (N.state self.old.notes) (N.state self.new.notes) }
        ensures pace { self.new.pace ≡ self.old.pace }
    {
        if told {
            self.tell_text(b"store has room\n");
        }
    }

    /// Tells how serving ends.
    pub(crate) fn tell_end(&mut self, end: ServeEnd)
        ensures kept { KeepsSilent false (kept_in R.state self.old) (kept_in R.state self.new) }
        ensures told { TellsFew 1 (N.state self.old.notes) (N.state self.new.notes) }
        ensures pace { self.new.pace ≡ self.old.pace }
    {
        if let ServeEnd::Source(_) = end {
            self.tell_text(b"source fault\n");
        }
    }

    /// Counts a connection.
    pub(crate) fn count_connection(&mut self)
        ensures kept { KeepsNone (kept_in R.state self.old) (kept_in R.state self.new) }
        ensures counts { self.new.counts ≡ connection_counted self.old.counts }
        ensures told { told_in N.state self.new ≡ told_in N.state self.old }
    {
        count_up(&mut self.counts.connections, 1);
    }

    /// Counts octets of a piece or a datagram.
    pub(crate) fn count_octets(&mut self, octets: usize)
        ensures refused { self.new.refused ≡ self.old.refused }
        ensures counts { self.new.counts ≡ octets_counted self.old.counts octets }
        ensures told { told_in N.state self.new ≡ told_in N.state self.old }
        ensures way { self.new.way ≡ self.old.way }
    {
        count_up(&mut self.counts.octets, octets as u64);
    }

    /// Counts what was handed over and committed.
    pub(crate) fn committed(&mut self, taken: Taken)
        ensures refused { self.new.refused ≡ self.old.refused }
        ensures counts { self.new.counts ≡ commit_counted self.old.counts taken }
        ensures told { told_in N.state self.new ≡ told_in N.state self.old }
    {
        count_up(&mut self.counts.new, taken.new);
        count_up(&mut self.counts.held, taken.held);
        count_up(
            &mut self.counts.batches,
            u64::from(taken.new > 0 || taken.held > 0),
        );
    }
}

impl<N: Output + Drop, R: Output + Drop> Observer for Report<N, R> {
    ghost observes = { λ x o f y. KeepsNext (kept_in R.state x) o f (kept_in R.state y)
        × TellsOf (peer_of x.way) (line_count o) (told_in N.state x) (told_in N.state y) × (y.way ≡ x.way) };

    fn frame(&mut self, alloc: Global, outcome: Outcome, frame: &[u8]) {
        self.outcome(alloc, self.way, outcome, Some(frame));
    }

    fn passed_over(&mut self, alloc: Global, outcome: Outcome) {
        match outcome {
            Outcome::BadCount { at } => {
                self.count(outcome);
                self.tell(alloc, self.way, Happening::BadCount(at));
            }
            outcome => self.outcome(alloc, self.way, outcome, None),
        }
    }
}

// Counts more, and stays at the largest value.
fn count_up(count: &mut u64, more: u64)
    ensures { count.new ≡ count_up count.old more }
{
    *count = count.saturating_add(more);
}

// A line without its line feed.
fn without_lf(line: &[u8]) -> &[u8] {
    line.strip_suffix(b"\n").unwrap_or(line)
}
