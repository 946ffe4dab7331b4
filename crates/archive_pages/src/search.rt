//! Where an entry is among pages.

ghost use Rattle.std.specs.Prelude.{◌≡◌, ◌<◌, ◌≤◌, ◌+◌, ℕ, length};
ghost use Rattle.std.specs.Bool.{MatchBool};
ghost use Rattle.std.specs.List.{AllByRecursion};
ghost use Rattle.archive_text.specs.Entries.{IsAscending};
ghost use Rattle.archive_text.specs.EntryViews.{entry_of};
ghost use Rattle.archive_pages.specs.Spans.{IsWithin, blocks_of, entries_at, lists_of};
ghost use Rattle.archive_pages.specs.Pages.{AreSearchable};
ghost use Rattle.archive_pages.specs.Places.{BeginsAbove, BeginsUpTo, IsInsertion};
ghost use Rattle.archive_pages.specs.Places.{IsLastOrder, IsPage, IsPlace};

use crate::arena::{Arena, Span};
use crate::comparing::compare_span;
use crate::rank::rank_of;
use archive_text::EntryView;
use std::cmp::Ordering;

// how many spans of a page are passed over at a time
const STRIDE: usize = 16;

// The span to compare next, of those from `low` to below `high`: one a stride on, so that the page is
// read from its front, ahead of the comparisons; the middle one where few spans are left, or where
// the instant is that of the entry and octets are compared.
#[inline]
fn next_index(page: &[Span], low: usize, high: usize, rank: u64) -> usize
    requires ordered { low < high }
    requires within { high ≤ length page.now }
    ensures low { low ≤ result }
    ensures high { result < high }
{
    if high - low > STRIDE && page[low + STRIDE - 1].rank != rank {
        return low + STRIDE - 1;
    }
    low + (high - low) / 2
}

// Where an entry goes in a page: before the span of this index. None where it is held.
fn search_page(arena: &Arena, page: &[Span], entry: &EntryView<'_>) -> Option<usize>
    requires within { AllByRecursion (IsWithin (blocks_of arena.now)) page.now }
    requires ascending { IsAscending (entries_at (blocks_of arena.now) page.now) }
    ensures { IsInsertion (blocks_of arena.now) page.now (entry_of entry.now) result }
{
    let rank = rank_of(entry.instant);
    let mut low = 0;
    let mut high = page.len();
    while low < high {
        let index = next_index(page, low, high, rank);
        match compare_span(arena, page[index], entry) {
            Ordering::Less => low = index + 1,
            Ordering::Equal => return None,
            Ordering::Greater => high = index,
        }
    }
    Some(low)
}

// Whether a page begins above an entry.
fn begins_above(arena: &Arena, page: &[Span], entry: &EntryView<'_>) -> bool
    requires some { 0 < length page.now }
    requires within { AllByRecursion (IsWithin (blocks_of arena.now)) page.now }
    ensures { MatchBool result
        (BeginsAbove (blocks_of arena.now) page.now (entry_of entry.now))
        (BeginsUpTo (blocks_of arena.now) page.now (entry_of entry.now)) }
{
    compare_span(arena, page[0], entry) == Ordering::Greater
}

// How the last entry of a page compares with an entry.
fn compare_last(arena: &Arena, page: &[Span], entry: &EntryView<'_>) -> Ordering
    requires some { 0 < length page.now }
    requires within { AllByRecursion (IsWithin (blocks_of arena.now)) page.now }
    ensures { IsLastOrder (blocks_of arena.now) page.now (entry_of entry.now) result }
{
    let last = page.len() - 1;
    compare_span(arena, page[last], entry)
}

// The page to compare next, of those from `low` to below `high`: the one that was guessed, then the one
// behind it, then the middle one.
#[inline(always)]
fn next_page(low: usize, high: usize, guess: usize) -> usize
    requires { low < high }
    ensures low { low ≤ result }
    ensures high { result < high }
{
    if low <= guess && guess < high {
        return guess;
    }
    if guess < low && low - guess == 1 {
        return low;
    }
    low + (high - low) / 2
}

// The page for an entry: all entries of earlier pages are below it, all of later ones above it.
// The search begins at the page that is guessed.
fn page_for(arena: &Arena, pages: &[Vec<Span>], guess: usize, entry: &EntryView<'_>) -> usize
    requires some { 0 < length pages.now }
    requires pages { AreSearchable (blocks_of arena.now) (lists_of pages.now) }
    ensures { IsPage (blocks_of arena.now) (lists_of pages.now) (entry_of entry.now) result }
{
    let mut low = 0;
    let mut high = pages.len();
    while low < high {
        let page = next_page(low, high, guess);
        if begins_above(arena, &pages[page], entry) {
            high = page;
        } else {
            low = page + 1;
        }
    }
    low.saturating_sub(1)
}

/// Where an entry belongs among pages: in this page, before the span with this index. None if it is
/// held. An entry above all others takes one comparison; for any other the search begins at the
/// page that is guessed.
pub fn place_of(
    arena: &Arena,
    pages: &[Vec<Span>],
    guess: usize,
    entry: &EntryView<'_>,
) -> Option<(usize, usize)>
    requires some { 0 < length pages.now }
    requires pages { AreSearchable (blocks_of arena.now) (lists_of pages.now) }
    ensures { IsPlace (blocks_of arena.now) (lists_of pages.now) (entry_of entry.now) result }
{
    let end = pages.len() - 1;
    match compare_last(arena, &pages[end], entry) {
        Ordering::Less => return Some((end, pages[end].len())),
        Ordering::Equal => return None,
        Ordering::Greater => {}
    }
    let page = page_for(arena, pages, guess, entry);
    let index = search_page(arena, &pages[page], entry)?;
    Some((page, index))
}
