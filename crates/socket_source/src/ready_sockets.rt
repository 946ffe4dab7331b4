//! Whose turn it is: datagram sockets come between the steps of all others.
ghost use Rattle.std.specs.Prelude.{◌≡◌, ◌+◌, ◌<◌, ◌≤◌, false, true, length, map, min, vec_len, IfOk};
ghost use Rattle.socket_source.specs.Kinds.{is_datagrams};
ghost use Rattle.socket_source.specs.Waiting.{Chooses, ComesBack, Keeps, MayTakeDatagram, MayTakeOther, most_steps};
ghost use Rattle.socket_source.specs.Waiting.{number_of};

use crate::bound::Bound;
use crate::limits::{ACCEPTS_A_TURN, DATAGRAM_TURNS_A_ROUND, DATAGRAMS_A_TURN, STEPS_BETWEEN};
use crate::ready::{ReadyQueue, listener_number};
use mio::Events;
use std::alloc::{AllocError, Global};

/// The socket that has the next step, by its number.
#[derive(Clone, Copy)]
pub(crate) enum Chosen {
    /// A socket of datagrams.
    Datagrams(usize),
    /// A listener of connections, a connection, or standard input.
    Other(usize),
}

impl Chosen {
    /// Its number.
    pub(crate) fn number(self) -> usize
        ensures { result ≡ number_of self }
    {
        match self {
            Chosen::Datagrams(number) | Chosen::Other(number) => number,
        }
    }
}

/// The sockets that may have something. Those of datagrams have a queue of their own, since the system
/// drops what comes while its room for them is full: in a round of all other sockets that are ready they
/// have `DATAGRAM_TURNS_A_ROUND` turns, and never more than `STEPS_BETWEEN` steps of others between two.
#[derive(Drop)]
pub(crate) struct ReadySockets {
    pub(crate) datagrams: ReadyQueue,
    pub(crate) others: ReadyQueue,
    // which listeners are those of datagrams, in their order
    pub(crate) kinds: Vec<bool>,
    // how many steps other sockets have had since a datagram socket had one, up to `STEPS_BETWEEN`
    pub(crate) between: usize,
}

// Which listeners are those of datagrams, in their order.
#[tactic(auto, using(std::proofs::lemmas::List::map_more))]
fn kinds_of(alloc: Global, listeners: &[Bound]) -> Result<Vec<bool>, AllocError>
    ensures { IfOk result (λ kinds. kinds.items ≡ map is_datagrams listeners.now) }
{
    let mut kinds = Vec::with_capacity(alloc, listeners.len())?;
    for bound in listeners {
        kinds.push(bound.is_datagrams())?;
    }
    Ok(kinds)
}

impl ReadySockets {
    ghost use Rattle.socket_source.specs.Kinds.{has_datagrams};
    ghost use Rattle.socket_source.specs.Lines.{Puts, line_of, ready_in};

    /// No socket has anything, and there is room for all numbers below `count`. It fails only when
    /// out of memory.
    pub(crate) fn new(
        alloc: Global,
        count: usize,
        listeners: &[Bound],
    ) -> Result<ReadySockets, AllocError>
        ensures empty { IfOk result (λ ready. ready_in (line_of ready) ≡ 0) }
        ensures kinds { IfOk result (λ ready. ready.kinds.items ≡ map is_datagrams listeners.now) }
    {
        Ok(ReadySockets {
            datagrams: ReadyQueue::new(alloc, listener_number(listeners.len()))?,
            others: ReadyQueue::new(alloc, count)?,
            kinds: kinds_of(alloc, listeners)?,
            between: 0,
        })
    }

    // Whether a number is that of a listener of datagrams.
    fn is_of_datagrams(&self, number: usize) -> bool
        ensures { result ≡ has_datagrams self.now.kinds.items number }
    {
        match number.checked_sub(1) {
            Some(listener) => self.kinds.get(listener).copied().unwrap_or(false),
            None => false,
        }
    }

    /// Puts a number behind those of its kind that wait, if it does not wait already.
    pub(crate) fn push(&mut self, number: usize)
        ensures puts { Puts self.old self.new number }
        ensures keeps { Keeps (line_of self.old) (line_of self.new) }
        ensures longer { ready_in (line_of self.new) ≤ ready_in (line_of self.old) + 1 }
    {
        if self.is_of_datagrams(number) {
            self.datagrams.push(number);
        } else {
            self.others.push(number);
        }
    }

    /// Puts the numbers that the system reports behind those that wait.
    pub(crate) fn push_reported(&mut self, events: &Events)
        ensures keeps { Keeps (line_of self.old) (line_of self.new) }
        ensures kinds { self.new.kinds ≡ self.old.kinds }
    {
        for event in events.iter() {
            self.push(event.token().0);
        }
    }

    // Whether the next step is one of a datagram socket.
    fn is_datagrams_turn(&self) -> bool
        ensures datagrams { result ≡ true → MayTakeDatagram (line_of self.now) }
        ensures others { result ≡ false → MayTakeOther (line_of self.now) }
        ensures some { result ≡ true → 0 < length (line_of self.now).datagrams.numbers }
    {
        let ready = self.others.len();
        let most = ready.div_ceil(DATAGRAM_TURNS_A_ROUND).min(STEPS_BETWEEN);
        self.datagrams.is_going() || self.datagrams.len() > 0 && self.between >= most
    }

    /// Takes the socket that has the next step: the one that goes on with its turn, or else the one of
    /// its kind that has waited longest.
    pub(crate) fn next(&mut self) -> Option<Chosen>
        ensures chooses { Chooses result (line_of self.old) (line_of self.new) }
        ensures kinds { self.new.kinds ≡ self.old.kinds }
    {
        if self.is_datagrams_turn() {
            let number = self.datagrams.next()?;
            self.between = 0;
            return Some(Chosen::Datagrams(number));
        }
        let number = self.others.next()?;
        self.between = self.between.saturating_add(1).min(STEPS_BETWEEN);
        Some(Chosen::Other(number))
    }

    // The most steps in a turn of a socket that is none of datagrams.
    fn steps_of(&self, number: usize) -> usize
        ensures { result ≡ most_steps (vec_len self.now.kinds) number }
    {
        match number.checked_sub(1) {
            Some(listener) if listener < self.kinds.len() => ACCEPTS_A_TURN,
            _ => 1,
        }
    }

    /// A socket has had a step, and has something left. It goes on while its turn may have more
    /// steps, and then waits behind the others of its kind.
    pub(crate) fn stay(&mut self, chosen: Chosen)
        ensures comes_back { ComesBack chosen (line_of self.old) (line_of self.new) }
        ensures kinds { self.new.kinds ≡ self.old.kinds }
        ensures longer { ready_in (line_of self.new) ≤ ready_in (line_of self.old) + 1 }
    {
        match chosen {
            Chosen::Datagrams(number) => self.datagrams.stay(number, DATAGRAMS_A_TURN),
            Chosen::Other(number) => {
                let most = self.steps_of(number);
                self.others.stay(number, most);
            }
        }
    }

    /// How many sockets wait or go on, as far as a number can say.
    pub(crate) fn len(&self) -> usize
        ensures { result ≡ min (ready_in (line_of self.now)) usize.MAX }
    {
        self.datagrams.len().saturating_add(self.others.len())
    }
}
