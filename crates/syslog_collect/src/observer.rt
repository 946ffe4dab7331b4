//! What is told of frames as they are handled.

ghost use Rattle.std.specs.Prelude.{ℕ, ⊤, List, Option, None, Some};
ghost use Rattle.syslog_collect.specs.declared.outcome.Outcome.{Outcome};

use crate::outcome::Outcome;
use std::alloc::Global;

/// What is told of each frame of a piece as it is handled, while its octets are still there.
pub trait Observer {
    // what it becomes where it is told of an outcome, and of the octets of the frame
    ghost observes: { Self → Outcome → Option (List ℕ) → Self → Type 0 };

    /// A frame was handled, with this outcome.
    fn frame(&mut self, alloc: Global, outcome: Outcome, frame: &[u8])
        ensures { observes self.old outcome (Some frame.now) self.new };

    /// A frame was passed over since it is too long, or a bad count was met.
    fn passed_over(&mut self, alloc: Global, outcome: Outcome)
        ensures { observes self.old outcome None self.new };
}

/// An observer that makes nothing of it.
#[derive(Drop)]
pub struct Unobserved;

impl Observer for Unobserved {
    ghost observes = { λ x o f y. ⊤ };

    fn frame(&mut self, _alloc: Global, _outcome: Outcome, _frame: &[u8]) {}

    fn passed_over(&mut self, _alloc: Global, _outcome: Outcome) {}
}
