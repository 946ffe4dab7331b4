//! The counts that each source keeps of its own steps.
ghost use Rattle.std.specs.Prelude.{◌≡◌};
ghost use Rattle.octet_devices.specs.Device.{count_on};
ghost use Rattle.collect_engine.specs.Steps.{FailuresAfter, FinishesAfter};

use crate::step::Step;

/// How many steps a source gave, how many of them said that it failed, and how many that nothing
/// more comes. A count that reaches `u64::MAX` stays there.
#[derive(Clone, Copy, Debug, PartialEq, Eq)]
pub(crate) struct StepCounts {
    pub(crate) steps: u64,
    pub(crate) failures: u64,
    pub(crate) finishes: u64,
}

impl StepCounts {
    pub(crate) fn new() -> StepCounts
        ensures steps { result.steps ≡ 0 }
        ensures failures { result.failures ≡ 0 }
        ensures finishes { result.finishes ≡ 0 }
    {
        StepCounts {
            steps: 0,
            failures: 0,
            finishes: 0,
        }
    }

    /// Counts a step.
    pub(crate) fn count(&mut self, step: Step)
        ensures steps { self.new.steps ≡ count_on self.old.steps }
        ensures failures { FailuresAfter step self.old.failures self.new.failures }
        ensures finishes { FinishesAfter step self.old.finishes self.new.finishes }
    {
        self.steps = self.steps.saturating_add(1);
        match step {
            Step::Failed => self.failures = self.failures.saturating_add(1),
            Step::Finished => self.finishes = self.finishes.saturating_add(1),
            _ => {}
        }
    }
}
