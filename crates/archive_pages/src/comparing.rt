//! Entries of an arena are compared.

ghost use Rattle.archive_text.specs.Entries.{IsOrder};
ghost use Rattle.archive_text.specs.EntryViews.{entry_of};
ghost use Rattle.archive_pages.specs.Spans.{IsWithin, blocks_of, entry_at};

use crate::arena::{Arena, Span};
use crate::rank::rank_of;
use archive_text::EntryView;
use std::cmp::Ordering;

/// How the entry of a span compares with an entry. Its octets are read only if the instants are
/// equal.
#[inline]
pub fn compare_span(arena: &Arena, span: Span, entry: &EntryView<'_>) -> Ordering
    requires { IsWithin (blocks_of arena.now) span }
    ensures { IsOrder result (entry_at (blocks_of arena.now) span) (entry_of entry.now) }
{
    match span.rank.cmp(&rank_of(entry.instant)) {
        Ordering::Equal => arena.octets(span).cmp(entry.octets),
        unequal => unequal,
    }
}
