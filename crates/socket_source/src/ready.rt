//! The sockets that may have something.
ghost use Rattle.std.specs.Prelude.{◌≡◌, ◌+◌, ◌++◌, ◌≤◌, [], length, IfNone, IfOk, IfSome, is_some, vec_len};
ghost use Rattle.std.specs.Option.{option_to_list};
ghost use Rattle.std.specs.VecDeque.{deque_capacity};
ghost use Rattle.socket_source.specs.Waiting.{Queues, Returns, Stays, TakesFirst};

use std::alloc::{AllocError, Global};
use std::collections::VecDeque;

/// The number of standard input.
pub(crate) const INPUT_NUMBER: usize = 0;

/// The number of a listener, by its place. The numbers of connections follow those of the listeners.
pub(crate) fn listener_number(listener: usize) -> usize {
    listener.saturating_add(1)
}

/// Numbers of sockets. Those that wait for a turn do so each at most once, in the order in which they
/// were put. Room for all is allocated at the beginning.
#[derive(Drop)]
pub(crate) struct ReadyQueue {
    waiting: VecDeque<usize>,
    // which numbers wait
    queued: Vec<bool>,
    // the number that goes on with its turn, and how many steps of the turn it has had
    going: Option<usize>,
    steps: usize,
}

impl ReadyQueue {
    ghost use Rattle.socket_source.specs.Lines.{queue_of};

    /// A queue in which no number waits, with room for those below `count`. It fails only when out
    /// of memory.
    pub(crate) fn new(alloc: Global, count: usize) -> Result<ReadyQueue, AllocError>
        ensures empty { IfOk result (λ ready. (queue_of ready).numbers ≡ []) }
        ensures room { IfOk result (λ ready. vec_len ready.queued ≡ count) }
    {
        Ok(ReadyQueue {
            waiting: VecDeque::with_capacity(alloc, count)?,
            queued: vec![in alloc; false; count]?,
            going: None,
            steps: 0,
        })
    }

    /// Puts a number behind those that wait, if it does not wait already.
    pub(crate) fn push(&mut self, number: usize)
        ensures queued { Queues (deque_capacity self.old.waiting) self.old.queued.items
            self.new.queued.items self.old.waiting.items self.new.waiting.items number }
        ensures stays { Stays (queue_of self.old) (queue_of self.new) }
        ensures longer { length (queue_of self.new).numbers ≤ length (queue_of self.old).numbers + 1 }
    {
        if number < self.queued.len() && !self.queued[number] {
            let put = self.waiting.push_back(number);
            self.queued[number] = put.is_ok();
        }
    }

    // Takes the number that has waited longest.
    fn pop(&mut self) -> Option<usize>
        ensures first { self.old.waiting.items ≡ option_to_list result ++ self.new.waiting.items }
        ensures none { IfNone result (self.old.waiting.items ≡ []) }
        ensures going { self.new.going ≡ self.old.going }
        ensures steps { self.new.steps ≡ self.old.steps }
    {
        let number = self.waiting.pop_front()?;
        if let Some(queued) = self.queued.get_mut(number) {
            *queued = false;
        }
        Some(number)
    }

    /// Takes the number that has its turn: the one that goes on, or else the one that has waited
    /// longest.
    pub(crate) fn next(&mut self) -> Option<usize>
        ensures first { IfSome result (λ number. TakesFirst number (queue_of self.old) (queue_of self.new)) }
        ensures none { IfNone result ((queue_of self.old).numbers ≡ []) }
        ensures stays { IfNone result (Stays (queue_of self.old) (queue_of self.new)) }
    {
        if let Some(number) = self.going {
            self.going = None;
            return Some(number);
        }
        self.steps = 0;
        self.pop()
    }

    /// A number has had a step, and has something left. It goes on while its turn may have more
    /// steps, and then waits behind the others.
    pub(crate) fn stay(&mut self, number: usize, most: usize)
        ensures returns { Returns number most (queue_of self.old) (queue_of self.new) }
        ensures longer { length (queue_of self.new).numbers ≤ length (queue_of self.old).numbers + 1 }
    {
        let steps = self.steps.saturating_add(1);
        if steps < most && self.going.is_none() {
            self.steps = steps;
            self.going = Some(number);
        } else {
            self.push(number);
        }
    }

    /// Whether a number goes on with its turn.
    pub(crate) fn is_going(&self) -> bool
        ensures { result ≡ is_some self.now.going }
    {
        self.going.is_some()
    }

    /// How many numbers wait or go on.
    pub(crate) fn len(&self) -> usize
        ensures { result ≡ length (queue_of self.now).numbers }
    {
        self.waiting.len() + usize::from(self.going.is_some())
    }
}
