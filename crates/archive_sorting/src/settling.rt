//! Spans are put in the order of their entries, each entry once.

ghost use Rattle.std.specs.Prelude.{◌≡◌, ◌≤◌, vec_len};
ghost use Rattle.std.specs.List.{AllByRecursion, dedup};
ghost use Rattle.std.specs.List.Sorted.{IsPermutation, IsSorted};
ghost use Rattle.std.specs.Ordering.{eq_by_cmp};
ghost use Rattle.archive_text.specs.Entries.{IsAscending};
ghost use Rattle.archive_sorting.specs.Settled.{HaveSame, span_cmp};
ghost use Rattle.archive_sorting.specs.Spans.{IsWithin, blocks_of, entries_at};

use crate::arena::{Arena, Span};
use std::cmp::Ordering;

// How the entries of two spans compare. Their octets are read only if the ranks are equal.
#[inline]
fn compare(arena: &Arena, a: Span, b: Span) -> Ordering
    ensures { result ≡ span_cmp (blocks_of arena.now) a b }
{
    match a.rank.cmp(&b.rank) {
        Ordering::Equal => arena.octets(a).cmp(arena.octets(b)),
        unequal => unequal,
    }
}

// Whether two spans have equal entries.
#[inline]
fn are_same(arena: &Arena, a: Span, b: Span) -> bool
    ensures { result ≡ eq_by_cmp (span_cmp (blocks_of arena.now)) a b }
{
    compare(arena, a, b) == Ordering::Equal
}

// Sorts spans by their entries.
fn sort(arena: &Arena, spans: &mut Vec<Span>)
    ensures moved { IsPermutation spans.old.items spans.new.items }
    ensures sorted { IsSorted (span_cmp (blocks_of arena.now)) spans.new.items }
    ensures len { vec_len spans.new ≡ vec_len spans.old }
{
    spans.sort_unstable_by(|a, b| compare(arena, *a, *b));
}

// Leaves the first of spans in a row that have one entry.
fn drop_repeats(arena: &Arena, spans: &mut Vec<Span>)
    ensures bound { vec_len spans.new ≤ vec_len spans.old }
    ensures kept { spans.new.items
        ≡ dedup (eq_by_cmp (span_cmp (blocks_of arena.now))) spans.old.items }
{
    spans.dedup_by(|a, b| are_same(arena, *a, *b));
}

/// Puts spans in the order of their entries, each entry once. It takes no memory.
pub fn settle(arena: &Arena, spans: &mut Vec<Span>)
    ensures ascending { IsAscending (entries_at (blocks_of arena.now) spans.new.items) }
    ensures same { HaveSame (entries_at (blocks_of arena.now) spans.old.items)
        (entries_at (blocks_of arena.now) spans.new.items) }
    ensures within { AllByRecursion (IsWithin (blocks_of arena.now)) spans.old.items
        → AllByRecursion (IsWithin (blocks_of arena.now)) spans.new.items }
    ensures bound { vec_len spans.new ≤ vec_len spans.old }
{
    sort(arena, spans);
    drop_repeats(arena, spans);
}

/// Leaves each entry of spans once, as far as there is memory to sort them: beside those that were
/// sorted before, which are one run, it takes little time.
pub fn shed(arena: &Arena, spans: &mut Vec<Span>)
    ensures same { HaveSame (entries_at (blocks_of arena.now) spans.old.items)
        (entries_at (blocks_of arena.now) spans.new.items) }
    ensures within { AllByRecursion (IsWithin (blocks_of arena.now)) spans.old.items
        → AllByRecursion (IsWithin (blocks_of arena.now)) spans.new.items }
    ensures bound { vec_len spans.new ≤ vec_len spans.old }
{
    let _sorted = spans.sort_by(|a, b| compare(arena, *a, *b));
    drop_repeats(arena, spans);
}
