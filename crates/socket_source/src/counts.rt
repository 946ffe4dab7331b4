//! The counts that each source keeps of its own steps.
ghost use Rattle.std.specs.Prelude.{◌≡◌};
ghost use Rattle.socket_source.specs.Steps.{counted, counts_of, no_steps};

use crate::step::ServerStep;

/// How many steps a source gave, how many of them said that it failed, and how many that nothing
/// more comes. A count that reaches `u64::MAX` stays there.
#[derive(Clone, Copy)]
pub(crate) struct StepCounts {
    pub(crate) steps: u64,
    pub(crate) failures: u64,
    pub(crate) finishes: u64,
}

impl StepCounts {
    pub(crate) fn new() -> StepCounts
        ensures { counts_of result ≡ no_steps }
    {
        StepCounts {
            steps: 0,
            failures: 0,
            finishes: 0,
        }
    }

    /// Counts a step.
    pub(crate) fn count(&mut self, step: ServerStep)
        ensures { counts_of self.new ≡ counted (counts_of self.old) step }
    {
        self.steps = self.steps.saturating_add(1);
        match step {
            ServerStep::Failed(_) => self.failures = self.failures.saturating_add(1),
            ServerStep::Finished => self.finishes = self.finishes.saturating_add(1),
            _ => {}
        }
    }
}
