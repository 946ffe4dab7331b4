//! A source in memory.
ghost use Rattle.std.specs.Prelude.{◌≡◌, ◌<◌, ◌≤◌, ◌&&◌, ℕ, Bool, length, map, drop, take, not, nat_lt, true, max, min};
ghost use Rattle.std.specs.Prelude.{IfNone, IfOk, IfSome};
ghost use Rattle.peer_rules.specs.AllowLists.{networks_of};
ghost use Rattle.socket_source.specs.Scripts.{IsFirst, MayNone, flagged, listed, listed_item, standing_by};
ghost use Rattle.socket_source.specs.Steps.{Becomes, Comes, IsFresh, IsLawful, IsWithin, Standing, given_of, may_come};
ghost use Rattle.socket_source.specs.Steps.{open_after, with_open, without_open};

use crate::allowed::{is_peer, is_sender};
use crate::counts::StepCounts;
use crate::limits::{CONNECTIONS_MAX, PIECE_MAX};
use crate::source::ServerSource;
use crate::step::{ServerStep, SourceFault};
use peer_rules::AllowList;
use std::alloc::{AllocError, Global};

/// A source in memory: it gives the steps of a list, in order, and then the end again and again. A
/// step that may not come, as a piece under a number that is not open, or one of a peer that may not
/// send, is passed over; so is what is listed of a connection that was closed.
#[derive(Drop)]
pub struct MemorySource {
    steps: Vec<(ServerStep, Vec<u8>)>,
    // how many were given or passed over
    at: usize,
    // which numbers are open
    flags: Vec<bool>,
    listeners: usize,
    // who may send
    allowed: AllowList,
    counts: StepCounts,
}

// Copies octets into the front of a slice.
fn copy_front(octets: &[u8], buf: &mut [u8])
    requires { length octets.now ≤ length buf.old }
    ensures { take (length octets.now) buf.new ≡ octets.now }
{
    buf[..octets.len()].copy_from_slice(octets);
}

// Puts octets into the front of a slice, and returns how many: what does not fit is lost, and what
// is more than a piece.
fn put(octets: &[u8], buf: &mut [u8]) -> usize
    ensures count { result ≡ min (min (length octets.now) PIECE_MAX) (length buf.new) }
    ensures put { take result buf.new ≡ take result octets.now }
{
    let len = octets.len().min(PIECE_MAX).min(buf.len());
    copy_front(&octets[..len], buf);
    len
}

// Gives the step of an item.
fn give(step: ServerStep, octets: &[u8], buf: &mut [u8]) -> ServerStep
    ensures within { IsWithin (length buf.new) result }
    ensures given { PIECE_MAX ≤ length buf.new → given_of result buf.new ≡ listed step octets.now }
    ensures may { (s : Standing) → 0 < length buf.new
        → may_come s result ≡ may_come s (listed step octets.now).step }
    ensures same { (live : ℕ → Bool) → (n : ℕ)
        → open_after result live n ≡ open_after (listed step octets.now).step live n }
{
    match step {
        ServerStep::Piece { conn, len: _ } => ServerStep::Piece {
            conn,
            len: put(octets, buf),
        },
        ServerStep::Datagram {
            listener,
            peer,
            len: _,
        } => ServerStep::Datagram {
            listener,
            peer,
            len: put(octets, buf),
        },
        other => other,
    }
}

// Whether a number is open.
fn is_open(flags: &[bool], conn: u32) -> bool
    ensures { result ≡ flagged flags.now conn }
{
    flags.get(conn as usize).copied() == Some(true)
}

// Whether a number may be opened.
fn is_vacant(flags: &[bool], conn: u32) -> bool
    ensures { result ≡ (nat_lt conn (length flags.now) && not (flagged flags.now conn)) }
{
    flags.get(conn as usize).copied() == Some(false)
}

// Whether an item may come where these numbers are open.
fn may_come(
    flags: &[bool],
    listeners: usize,
    allowed: &AllowList,
    step: ServerStep,
    octets: &[u8],
) -> bool
    ensures { result ≡ may_come (standing_by flags.now listeners (networks_of allowed.now)) (listed step octets.now).step }
{
    match step {
        ServerStep::Opened {
            conn,
            listener,
            peer,
            ..
        } => listener < listeners && is_vacant(flags, conn) && is_peer(allowed, peer),
        ServerStep::Piece { conn, .. } => is_open(flags, conn) && !octets.is_empty(),
        ServerStep::Ended { conn, .. } => is_open(flags, conn),
        ServerStep::Datagram { listener, peer, .. } => {
            listener < listeners && is_sender(allowed, peer)
        }
        ServerStep::TurnedAway { listener, peer, .. } | ServerStep::OverRate { listener, peer } => {
            listener < listeners && is_peer(allowed, peer)
        }
        ServerStep::NotAllowed { listener, peer } => {
            listener < listeners && !is_peer(allowed, peer)
        }
        ServerStep::Tick | ServerStep::InputEnded | ServerStep::Finished | ServerStep::Failed(_) =>
            true,
    }
}

// Notes that a number is open.
fn set_open(flags: &mut [bool], conn: u32)
    requires { conn < length flags.old }
    ensures { (n : ℕ) → flagged flags.new n ≡ with_open conn (flagged flags.old) n }
{
    flags[conn as usize] = true;
}

// Notes that a number is not open.
fn set_closed(flags: &mut [bool], conn: u32)
    ensures { (n : ℕ) → flagged flags.new n ≡ without_open conn (flagged flags.old) n }
{
    let conn = conn as usize;
    if conn < flags.len() {
        flags[conn] = false;
    }
}

// Opens or ends what a step says.
fn apply(flags: &mut [bool], listeners: usize, allowed: &AllowList, step: ServerStep)
    requires { may_come (standing_by flags.old listeners (networks_of allowed.now)) step ≡ true }
    ensures { (n : ℕ) → flagged flags.new n ≡ open_after step (flagged flags.old) n }
{
    match step {
        ServerStep::Opened { conn, .. } => set_open(flags, conn),
        ServerStep::Ended { conn, .. } => set_closed(flags, conn),
        _ => {}
    }
}

impl MemorySource {
    /// A source that gives these steps, over `listeners` listeners to which the list says who may send,
    /// with at most as many open connections as the limit says: from 1 to `CONNECTIONS_MAX`; a number
    /// outside is taken for the nearest of these. Of a piece or a datagram, the octets count, not the
    /// number in the step. It fails only when out of memory.
    pub fn new(
        alloc: Global,
        limit: usize,
        listeners: usize,
        allowed: AllowList,
        steps: Vec<(ServerStep, Vec<u8>)>,
    ) -> Result<MemorySource, AllocError>
        ensures { IfOk result (λ source. IsFresh (⟦<MemorySource as ServerSource>⟧.state source)
            (max 1 (min limit CONNECTIONS_MAX)) listeners (networks_of allowed) (Some (map listed_item steps.items))) }
    {
        let limit = limit.clamp(1, CONNECTIONS_MAX);
        Ok(MemorySource {
            steps,
            at: 0,
            flags: vec![in alloc; false; limit]?,
            listeners,
            allowed,
            counts: StepCounts::new(),
        })
    }

    // The place of the next item that may come.
    fn find(&self) -> Option<usize>
        ensures found { IfSome result (IsFirst (standing_by self.now.flags.items self.now.listeners (networks_of self.now.allowed))
            (map listed_item self.now.steps.items) self.now.at) }
        ensures none { IfNone result (MayNone (standing_by self.now.flags.items self.now.listeners (networks_of self.now.allowed))
            (map listed_item self.now.steps.items) self.now.at) }
    {
        for at in self.at..self.steps.len() {
            let (step, octets) = &self.steps[at];
            if may_come(&self.flags, self.listeners, &self.allowed, *step, octets) {
                return Some(at);
            }
        }
        None
    }

    // Opens or ends what a step says.
    fn note(&mut self, step: ServerStep)
        requires { may_come (standing_by self.old.flags.items self.old.listeners (networks_of self.old.allowed)) step ≡ true }
        ensures becomes { Becomes (standing_by self.old.flags.items self.old.listeners (networks_of self.old.allowed))
            (standing_by self.new.flags.items self.new.listeners (networks_of self.new.allowed))
            (open_after step (flagged self.old.flags.items)) }
        ensures steps { self.new.steps ≡ self.old.steps }
        ensures at { self.new.at ≡ self.old.at }
        ensures counts { self.new.counts ≡ self.old.counts }
    {
        apply(&mut self.flags, self.listeners, &self.allowed, step);
    }

    // Gives the next step.
    fn give_next(&mut self, buf: &mut [u8]) -> ServerStep
        ensures counts { self.new.counts ≡ self.old.counts }
        ensures lawful { IsLawful (standing_by self.old.flags.items self.old.listeners (networks_of self.old.allowed))
            (standing_by self.new.flags.items self.new.listeners (networks_of self.new.allowed)) (length buf.new) result }
        ensures comes { PIECE_MAX ≤ length buf.new
            → Comes (standing_by self.old.flags.items self.old.listeners (networks_of self.old.allowed))
            (Some (drop self.old.at (map listed_item self.old.steps.items)))
            (Some (drop self.new.at (map listed_item self.new.steps.items)))
            (given_of result buf.new) }
    {
        if buf.is_empty() {
            return ServerStep::Failed(SourceFault::NoRoom);
        }
        let Some(at) = self.find() else {
            self.at = self.steps.len();
            return ServerStep::Finished;
        };
        self.at = at + 1;
        let (step, octets) = &self.steps[at];
        let step = give(*step, octets, buf);
        self.note(step);
        step
    }
}

impl ServerSource for MemorySource {
    ghost use Rattle.std.specs.Prelude.{Some, map, drop};
    ghost use Rattle.peer_rules.specs.AllowLists.{networks_of};
    ghost use Rattle.socket_source.specs.Scripts.{listed_item, standing_by};
    ghost use Rattle.socket_source.specs.Steps.{counts_of};

    ghost state = { λ s. record {
      standing = standing_by s.flags.items s.listeners (networks_of s.allowed);
      counts = counts_of s.counts;
      coming = Some (drop s.at (map listed_item s.steps.items));
    } };

    fn next(&mut self, buf: &mut [u8]) -> ServerStep {
        let step = self.give_next(buf);
        self.counts.count(step);
        step
    }

    fn close(&mut self, conn: u32) {
        set_closed(&mut self.flags, conn);
    }
}
