//! A range is cut into parts.

ghost use Rattle.std.specs.Prelude.{◌≡◌, List, IfOk, IfSome};
ghost use Rattle.archive_text.specs.Entries.{Entry};
ghost use Rattle.reconcile.specs.Honest.{AreParts};
ghost use Rattle.reconcile.specs.Ranges.{AreThose, IsInside, IsProper, IsSumOf};

use crate::part::Part;
use crate::place::Place;
use crate::range::Range;
use crate::stopped::SetFault;
use crate::summing::sum_of;
use std::alloc::Global;

// The part of a range that has these entries.
fn part_of(low: Place, high: Option<Place>, entries: &[Place]) -> Result<Part, SetFault>
    ensures range { IfOk result (λ p. p.range ≡ record { low = low; high = high }) }
    ensures sum { IfOk result (λ p. IsSumOf entries.now p.sum) }
{
    let sum = sum_of(entries)?;
    Ok(Part {
        range: Range { low, high },
        sum,
    })
}

// A bound once more.
fn copy_of(alloc: Global, high: &Option<Place>) -> Result<Option<Place>, SetFault>
    ensures { IfOk result (λ copy. copy ≡ high.now) }
{
    match high {
        None => Ok(None),
        Some(high) => Ok(Some(high.copy(alloc)?)),
    }
}

/// Cuts a range, of which these are the entries, into parts of about the same count, at most `most`
/// (and at least two, where there are several entries). Each begins with an entry.
pub fn parts_of(
    alloc: Global,
    entries: &[Place],
    range: &Range,
    most: u64,
) -> Result<Vec<Part>, SetFault>
    ensures { IfOk result (λ parts. (xs : List Entry) → IsProper range.now
        → AreThose (IsInside range.now) xs entries.now → AreParts xs range.now parts.items) }
{
    let size = entries.len().saturating_sub(1) / most.max(2) as usize + 1;
    let mut parts = Vec::new(alloc);
    let mut low = range.low.copy(alloc)?;
    let mut rest = entries;
    'cutting: while rest.len() > size {
        let next = &rest[size];
        let high = next.copy(alloc)?;
        parts.push(part_of(low, Some(high), &rest[..size])?)?;
        low = next.copy(alloc)?;
        rest = &rest[size..];
    }
    let high = copy_of(alloc, &range.high)?;
    parts.push(part_of(low, high, rest)?)?;
    Ok(parts)
}
