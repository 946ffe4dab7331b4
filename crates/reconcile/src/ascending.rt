//! Parts whose ranges ascend.

ghost use Rattle.std.specs.Prelude.{◌≡◌, ◌↔◌, ◌≤◌, All, IsTrue, drop, length, option_map, take};
ghost use Rattle.std.specs.List.{AllByRecursion};
ghost use Rattle.archive_text.specs.Entries.{IsAscending, IsBelow};
ghost use Rattle.reconcile.specs.Ascending.{DoAscend, IsBeyond};
ghost use Rattle.reconcile.specs.Ranges.{Covers, IsUnder};

use crate::checking::is_under;
use crate::part::Part;
use crate::place::Place;
use crate::searching::count_below;

// Whether the first of some ranges begins at an end or higher.
fn is_beyond(end: Option<&Place>, parts: &[Part]) -> bool
    ensures { IsTrue result ↔ IsBeyond (option_map (λ p. p.now) end.entry) parts.now }
{
    match parts {
        [] => true,
        [part, ..] => !is_under(end, &part.range.low),
    }
}

/// Whether the ranges of parts ascend, and do not overlap.
pub fn do_ascend(parts: &[Part]) -> bool
    ensures { IsTrue result ↔ DoAscend parts.now }
{
    match parts {
        [] => true,
        [part, rest @ ..] => {
            part.range.is_proper() && is_beyond(part.range.high.as_ref(), rest) && do_ascend(rest)
        }
    }
}

// How many of ascending places are below an upper bound; all, if there is none.
fn count_under(places: &[Place], high: Option<&Place>) -> usize
    requires { IsAscending places.now }
    ensures within { result ≤ length places.now }
    ensures under { AllByRecursion (IsUnder (option_map (λ h. h.now) high.entry))
        (take result places.now) }
    ensures over { AllByRecursion (λ x. ¬ (IsUnder (option_map (λ h. h.now) high.entry) x))
        (drop result places.now) }
{
    match high {
        None => places.len(),
        Some(high) => count_below(places, high),
    }
}

// Whether none of ascending places is below one.
fn are_from(low: &Place, places: &[Place]) -> bool
    requires { IsAscending places.now }
    ensures { IsTrue result ↔ AllByRecursion (λ x. ¬ (IsBelow x low.now)) places.now }
{
    match places {
        [] => true,
        [first, ..] => !first.is_below(low),
    }
}

/// Whether each of ascending places is in the range of one of the parts, which ascend. One search
/// is made for each part.
pub fn are_inside(places: &[Place], parts: &[Part]) -> bool
    requires places { IsAscending places.now }
    requires parts { DoAscend parts.now }
    ensures { IsTrue result ↔ All (λ x. Covers parts.now x) places.now }
{
    match parts {
        [] => places.is_empty(),
        [part, rest @ ..] => {
            let (front, back) = places.split_at(count_under(places, part.range.high.as_ref()));
            are_from(&part.range.low, front) && are_inside(back, rest)
        }
    }
}
