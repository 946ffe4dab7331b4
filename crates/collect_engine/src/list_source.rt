//! A source in memory.
ghost use Rattle.std.specs.Prelude.{◌≡◌, ◌<◌, ◌≤◌, ◌+◌, ℕ, IsSomeAnd, length, map, take};
ghost use Rattle.syslog_frame.specs.declared.limits.TheConstants.{FRAME_MAX};
ghost use Rattle.collect_engine.specs.Listed.{listed, listed_item, step_after};
ghost use Rattle.collect_engine.specs.Steps.{IsWithin, given_of};

use crate::counts::StepCounts;
use crate::source::Source;
use crate::step::Step;
use syslog_frame::FRAME_MAX;

/// A source in memory: it gives the steps of a list, and then the last one again and again.
#[derive(Debug, Drop)]
pub struct ListSource {
    steps: Vec<(Step, Vec<u8>)>,
    counts: StepCounts,
}

// Copies octets into the front of a slice.
fn copy_front(octets: &[u8], buf: &mut [u8])
    requires { length octets.now ≤ length buf.old }
    ensures { take (length octets.now) buf.new ≡ octets.now }
{
    buf[..octets.len()].copy_from_slice(octets);
}

// Puts octets into the front of a slice, and returns how many: what does not fit is lost, and what
// is more than `FRAME_MAX + 1` octets.
fn put(octets: &[u8], buf: &mut [u8]) -> usize
    ensures within { result ≤ length buf.new }
    ensures put { FRAME_MAX < length buf.new →
        take result buf.new ≡ take (FRAME_MAX + 1) octets.now }
{
    let len = octets.len().min(FRAME_MAX + 1).min(buf.len());
    copy_front(&octets[..len], buf);
    len
}

// Gives the step of an item.
fn give(step: Step, octets: &[u8], buf: &mut [u8]) -> Step
    ensures within { IsWithin (length buf.new) result }
    ensures given { FRAME_MAX < length buf.new →
        given_of result buf.new ≡ listed step octets.now }
{
    match step {
        Step::Piece(_) => Step::Piece(put(octets, buf)),
        Step::Datagram(_) => Step::Datagram(put(octets, buf)),
        other => other,
    }
}

impl ListSource {
    /// A source that gives these steps. Of a piece or a datagram, the octets count, not the number
    /// in the step. Without any step, the source fails.
    pub fn new(steps: Vec<(Step, Vec<u8>)>) -> ListSource
        ensures steps { (⟦<ListSource as Source>⟧.state result).steps ≡ 0 }
        ensures failures { (⟦<ListSource as Source>⟧.state result).failures ≡ 0 }
        ensures finishes { (⟦<ListSource as Source>⟧.state result).finishes ≡ 0 }
        ensures coming { IsSomeAnd (⟦<ListSource as Source>⟧.state result).coming (λ coming.
            (n : ℕ) → coming n ≡ step_after (map listed_item steps.items) n) }
    {
        ListSource {
            steps,
            counts: StepCounts::new(),
        }
    }

    // Gives the step that comes next.
    fn give_next(&self, buf: &mut [u8]) -> Step
        ensures within { IsWithin (length buf.new) result }
        ensures given { FRAME_MAX < length buf.new → given_of result buf.new
            ≡ step_after (map listed_item self.now.steps.items) self.now.counts.steps }
    {
        let Some(last) = self.steps.len().checked_sub(1) else {
            return Step::Failed;
        };
        let at = last.min(self.counts.steps as usize);
        let (step, octets) = &self.steps[at];
        give(*step, octets.as_slice(), buf)
    }
}

impl Source for ListSource {
    ghost use Rattle.std.specs.Prelude.{◌+◌, Some, map};
    ghost use Rattle.collect_engine.specs.Listed.{listed_item, step_after};

    ghost state = { λ s. record {
      steps = s.counts.steps;
      failures = s.counts.failures;
      finishes = s.counts.finishes;
      coming = Some (λ n. step_after (map listed_item s.steps.items) (n + s.counts.steps));
    } };

    fn next(&mut self, buf: &mut [u8]) -> Step {
        let step = self.give_next(buf);
        self.counts.count(step);
        step
    }
}
