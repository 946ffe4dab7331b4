//! What a peer tells is checked.

ghost use Rattle.std.specs.Prelude.{◌≡◌, ◌↔◌, ◌≤◌, ◌++◌, All, IsTrue, OnOk, option_map};
ghost use Rattle.std.specs.List.{AllByRecursion, sum_by};
ghost use Rattle.archive_text.specs.Entries.{IsAscending};
ghost use Rattle.reconcile.specs.Ranges.{Chain, Covers, IsInside, IsProper, IsUnder};
ghost use Rattle.reconcile.specs.Requests.{AreCuts, IsCut, joined, lists_of};
ghost use Rattle.reconcile.specs.declared.part.Part.{Part as the_part};

use crate::ascending::{are_inside, do_ascend};
use crate::part::Part;
use crate::place::Place;
use crate::range::Range;
use std::alloc::AllocError;

/// Whether a place is below an upper bound, or there is none.
pub fn is_under(high: Option<&Place>, place: &Place) -> bool
    ensures { IsTrue result ↔ IsUnder (option_map (λ h. h.now) high.entry) place.now }
{
    match high {
        None => true,
        Some(high) => place.is_below(high),
    }
}

// Whether a place is in a range.
fn is_inside(range: &Range, place: &Place) -> bool
    ensures { IsTrue result ↔ IsInside range.now place.now }
{
    !place.is_below(&range.low) && is_under(range.high.as_ref(), place)
}

// Whether two bounds are one.
fn is_same(a: Option<&Place>, b: Option<&Place>) -> bool
    ensures { IsTrue result ↔ (option_map (λ p. p.now) a.entry ≡ option_map (λ p. p.now) b.entry) }
{
    match (a, b) {
        (None, None) => true,
        (Some(a), Some(b)) => a.is(b),
        _ => false,
    }
}

/// Whether a place is in the range of one of the parts.
pub fn is_covered(place: &Place, parts: &[Part]) -> bool
    ensures { IsTrue result ↔ Covers parts.now place.now }
{
    match parts {
        [] => false,
        [part, rest @ ..] => is_inside(&part.range, place) || is_covered(place, rest),
    }
}

// Whether each place is in the range of one of the parts. Each place is compared with each part.
fn are_all_covered(places: &[Place], parts: &[Part]) -> bool
    ensures { IsTrue result ↔ All (λ x. Covers parts.now x) places.now }
{
    places.iter().all(|place| is_covered(place, parts))
}

/// Whether each of ascending places is in the range of one of the parts.
pub fn are_covered(places: &[Place], parts: &[Part]) -> bool
    requires { IsAscending places.now }
    ensures { IsTrue result ↔ All (λ x. Covers parts.now x) places.now }
{
    if do_ascend(parts) {
        return are_inside(places, parts);
    }
    are_all_covered(places, parts)
}

/// Whether the parts have ranges, each from where the one before ends, from one bound to another.
pub fn is_chain(from: Option<&Place>, to: Option<&Place>, parts: &[Part]) -> bool
    ensures { IsTrue result
        ↔ Chain (option_map (λ p. p.now) from.entry) (option_map (λ p. p.now) to.entry) parts.now }
{
    match parts {
        [] => is_same(to, from),
        [part, rest @ ..] => {
            let high = part.range.high.as_ref();
            is_same(from, Some(&part.range.low))
                && is_under(high, &part.range.low)
                && is_chain(high, to, rest)
        }
    }
}

// Whether the parts have so many records together, and none has none.
fn make_up(records: u64, parts: &[Part]) -> bool
    ensures { IsTrue result ↔ (AllByRecursion (λ (p : the_part). 1 ≤ p.sum.records) parts.now
        × (sum_by (λ (p : the_part). p.sum.records) parts.now ≡ records)) }
{
    match parts {
        [] => records == 0,
        [part, rest @ ..] => {
            1 <= part.sum.records
                && part.sum.records <= records
                && make_up(records - part.sum.records, rest)
        }
    }
}

// Whether these can be finer parts of a part.
fn is_cut(part: &Part, parts: &[Part]) -> bool
    ensures { IsTrue result ↔ IsCut part.now parts.now }
{
    parts.len() >= 2
        && is_chain(Some(&part.range.low), part.range.high.as_ref(), parts)
        && make_up(part.sum.records, parts)
}

/// Whether these can be finer parts of each of some parts.
pub fn are_cuts(parts: &[Part], cuts: &[Vec<Part>]) -> bool
    ensures { IsTrue result ↔ AreCuts parts.now (lists_of cuts.now) }
{
    match parts {
        [] => match cuts {
            [] => true,
            [_, ..] => false,
        },
        [part, parts @ ..] => match cuts {
            [] => false,
            [cut, cuts @ ..] => is_cut(part, cut.as_slice()) && are_cuts(parts, cuts),
        },
    }
}

/// Puts parts behind others.
pub fn push_all(pending: &mut Vec<Part>, cuts: Vec<Vec<Part>>) -> Result<(), AllocError>
    ensures { OnOk result (pending.new.items ≡ pending.old.items ++ joined (lists_of cuts.items)) }
{
    'cuts: for mut cut in cuts {
        pending.append(&mut cut)?;
    }
    Ok(())
}
