//! Entries are added to pages.

ghost use Rattle.std.specs.Prelude.{◌≡◌, ◌≤◌, ◌↔◌, ℕ, [], ◌∷◌, length, IfOk, OnErr, OnOk, IsTrue};
ghost use Rattle.archive_text.specs.Entries.{Has, IsEntry};
ghost use Rattle.archive_text.specs.EntryViews.{entry_of};
ghost use Rattle.archive_text.specs.Stores.{AddsEntry};
ghost use Rattle.archive_pages.specs.Spans.{blocks_of, lists_of};
ghost use Rattle.archive_pages.specs.Pages.{AreKept, ArePaged, entries_of};
ghost use Rattle.archive_pages.specs.Ranks.{ranks_of};
ghost use Rattle.archive_pages.specs.Places.{GoesTo};
ghost use Rattle.archive_text.specs.declared.store.Added.TheVariants.{New};

use crate::arena::{Arena, Span};
use crate::page::{insert_span, page_of};
use crate::rank::rank_of;
use crate::ranks::Ranks;
use crate::search::place_of;
use archive_text::{Added, ENTRY_MAX, EntryView};
use std::alloc::{AllocError, Global};

// Makes the first page, of one span.
fn push_first(alloc: Global, pages: &mut Vec<Vec<Span>>, span: Span) -> Result<(), AllocError>
    requires { pages.old.items ≡ [] }
    ensures ok { OnOk result (lists_of pages.new.items ≡ (span ∷ []) ∷ []) }
    ensures err { OnErr result (pages.new.items ≡ []) }
{
    let page = page_of(alloc, &[span], &[])?;
    pages.push(page)?;
    Ok(())
}

// Adds the first entry.
fn add_first(
    alloc: Global,
    arena: &mut Arena,
    pages: &mut Vec<Vec<Span>>,
    entry: &EntryView<'_>,
) -> Result<(), AllocError>
    requires none { pages.old.items ≡ [] }
    requires paged { ArePaged (blocks_of arena.old) (lists_of pages.old.items) }
    requires entry { IsEntry (entry_of entry.now) }
    requires fits { length entry.now.octets.now ≤ ENTRY_MAX }
    ensures paged { ArePaged (blocks_of arena.new) (lists_of pages.new.items) }
    ensures ok { OnOk result (AddsEntry (entry_of entry.now)
        (entries_of (blocks_of arena.old) (lists_of pages.old.items))
        (entries_of (blocks_of arena.new) (lists_of pages.new.items)) New) }
    ensures err { OnErr result (AreKept (blocks_of arena.old) (blocks_of arena.new)
        (lists_of pages.old.items) (lists_of pages.new.items)) }
{
    let span = arena.push(alloc, entry)?;
    push_first(alloc, pages, span)
}

// Adds an entry to a page, before the span of this index.
fn add_at(
    alloc: Global,
    arena: &mut Arena,
    pages: &mut Vec<Vec<Span>>,
    entry: &EntryView<'_>,
    page: usize,
    index: usize,
) -> Result<(), AllocError>
    requires place { GoesTo (blocks_of arena.old) (lists_of pages.old.items)
        (entry_of entry.now) page index }
    requires paged { ArePaged (blocks_of arena.old) (lists_of pages.old.items) }
    requires entry { IsEntry (entry_of entry.now) }
    requires fits { length entry.now.octets.now ≤ ENTRY_MAX }
    ensures paged { ArePaged (blocks_of arena.new) (lists_of pages.new.items) }
    ensures ok { OnOk result (AddsEntry (entry_of entry.now)
        (entries_of (blocks_of arena.old) (lists_of pages.old.items))
        (entries_of (blocks_of arena.new) (lists_of pages.new.items)) New) }
    ensures err { OnErr result (AreKept (blocks_of arena.old) (blocks_of arena.new)
        (lists_of pages.old.items) (lists_of pages.new.items)) }
{
    let span = arena.push(alloc, entry)?;
    insert_span(alloc, pages, page, index, span)
}

/// Adds an entry, and notes how pages begin then. All memory is allocated before a page, the index
/// or the ranks are changed; if that fails, they are as they were.
pub fn add_entry(
    alloc: Global,
    arena: &mut Arena,
    pages: &mut Vec<Vec<Span>>,
    ranks: &mut Ranks,
    entry: &EntryView<'_>,
) -> Result<Added, AllocError>
    requires paged { ArePaged (blocks_of arena.old) (lists_of pages.old.items) }
    requires entry { IsEntry (entry_of entry.now) }
    requires fits { length entry.now.octets.now ≤ ENTRY_MAX }
    ensures paged { ArePaged (blocks_of arena.new) (lists_of pages.new.items) }
    ensures ok { IfOk result (AddsEntry (entry_of entry.now)
        (entries_of (blocks_of arena.old) (lists_of pages.old.items))
        (entries_of (blocks_of arena.new) (lists_of pages.new.items))) }
    ensures err { OnErr result (AreKept (blocks_of arena.old) (blocks_of arena.new)
        (lists_of pages.old.items) (lists_of pages.new.items)) }
    ensures ranks { OnErr result (ranks_of ranks.new ≡ ranks_of ranks.old) }
{
    if pages.len() == 0 {
        ranks.reserve()?;
        add_first(alloc, arena, pages, entry)?;
        ranks.note(pages, 0, 0);
        return Ok(Added::New);
    }
    let guess = ranks.guess(rank_of(entry.instant));
    match place_of(arena, pages, guess, entry) {
        None => Ok(Added::Held),
        Some((page, index)) => {
            ranks.reserve()?;
            add_at(alloc, arena, pages, entry, page, index)?;
            ranks.note(pages, page, index);
            Ok(Added::New)
        }
    }
}

/// Whether pages hold an entry.
pub fn holds_entry(arena: &Arena, pages: &[Vec<Span>], ranks: &Ranks, entry: &EntryView<'_>) -> bool
    requires { ArePaged (blocks_of arena.now) (lists_of pages.now) }
    ensures { IsTrue result
        ↔ Has (entries_of (blocks_of arena.now) (lists_of pages.now)) (entry_of entry.now) }
{
    if pages.len() == 0 {
        return false;
    }
    let guess = ranks.guess(rank_of(entry.instant));
    let place = place_of(arena, pages, guess, entry);
    place.is_none()
}
