//! Pending parts are compared with the own set.

ghost use Rattle.std.specs.Prelude.{◌≡◌, ◌+◌, ◌≤◌, ◌<◌, ◌++◌, ◌≢◌, List, IfErr, IfOk, length};
ghost use Rattle.std.specs.List.{AllByRecursion};
ghost use Rattle.archive_text.specs.Entries.{Entry};
ghost use Rattle.archive_text.specs.Text.{IsArchive};
ghost use Rattle.archive_text.specs.declared.limits.TheConstants.{ENTRY_MAX};
ghost use Rattle.reconcile.specs.Ranges.{AreWithin};
ghost use Rattle.reconcile.specs.Reconciling.{Going};
ghost use Rattle.reconcile.specs.Requests.{allowance};
ghost use Rattle.reconcile.specs.declared.range.Range.{Range as the_range};
ghost use Rattle.reconcile.specs.declared.part.Part.{Part as the_part};
ghost use Rattle.reconcile.specs.declared.stopped.Stopped.TheVariants.{Lied};

use crate::part::Part;
use crate::plan::Plan;
use crate::ranged_set::RangedSet;
use crate::stopped::Stopped;
use std::alloc::Global;

/// Parts in which the own set differs.
#[derive(Drop)]
pub struct Sorted {
    /// Those of which finer parts are to be asked for.
    pub large: Vec<Part>,
    /// Those that are to be got.
    pub small: Vec<Part>,
}

// Takes the last ones of the pending parts, and sorts those in which the own set differs, the last
// one first.
fn pop_parts<S: RangedSet>(
    alloc: Global,
    own: &mut S,
    pending: &mut Vec<Part>,
    plan: Plan,
) -> Result<Sorted, Stopped>
    ensures kept { S.entries own.new ≡ S.entries own.old }
    ensures large { IfOk result (λ s.
        AllByRecursion (λ (p : the_part). 2 ≤ p.sum.records) s.large.items) }
    ensures costs { IfOk result (λ s. allowance pending.new.items + allowance s.large.items
        + allowance s.small.items ≤ allowance pending.old.items) }
    ensures within { IfOk result (λ s. (r : the_range) → AreWithin r pending.old.items
        → AreWithin r (pending.new.items ++ (s.large.items ++ s.small.items))) }
    ensures going { IfOk result (λ s. (r : the_range) (a b held : List Entry)
        → IsArchive ENTRY_MAX a → IsArchive ENTRY_MAX b
        → Going r a b (S.entries own.old) held pending.old.items
        → Going r a b (S.entries own.old) held
        (pending.new.items ++ (s.large.items ++ s.small.items))) }
    ensures not_lied { IfErr result (λ e. e ≢ Lied) }
{
    let mut large = Vec::new(alloc);
    let mut small = Vec::new(alloc);
    'sorting: while large.len() < plan.batch && small.len() < plan.batch {
        let Some(part) = pending.pop() else {
            return Ok(Sorted { large, small });
        };
        let mine = own.sum(&part.range)?;
        if mine.is(&part.sum) {
            continue;
        }
        if part.sum.records <= plan.small {
            small.push(part)?;
        } else {
            large.push(part)?;
        }
    }
    Ok(Sorted { large, small })
}

/// Takes the last ones of the pending parts, and sorts those in which the own set differs, in the
/// order in which they were pending. So ranges that ascend are asked for in that order, and what is
/// pending ascends once finer parts of them are put behind it.
pub fn sort_parts<S: RangedSet>(
    alloc: Global,
    own: &mut S,
    pending: &mut Vec<Part>,
    plan: Plan,
) -> Result<Sorted, Stopped>
    ensures kept { S.entries own.new ≡ S.entries own.old }
    ensures large { IfOk result (λ s.
        AllByRecursion (λ (p : the_part). 2 ≤ p.sum.records) s.large.items) }
    ensures costs { IfOk result (λ s. allowance pending.new.items + allowance s.large.items
        + allowance s.small.items ≤ allowance pending.old.items) }
    ensures within { IfOk result (λ s. (r : the_range) → AreWithin r pending.old.items
        → AreWithin r (pending.new.items ++ (s.large.items ++ s.small.items))) }
    ensures going { IfOk result (λ s. (r : the_range) (a b held : List Entry)
        → IsArchive ENTRY_MAX a → IsArchive ENTRY_MAX b
        → Going r a b (S.entries own.old) held pending.old.items
        → Going r a b (S.entries own.old) held
        (pending.new.items ++ (s.large.items ++ s.small.items))) }
    ensures not_lied { IfErr result (λ e. e ≢ Lied) }
{
    let mut sorted = pop_parts(alloc, own, pending, plan)?;
    sorted.large.reverse();
    sorted.small.reverse();
    Ok(sorted)
}
