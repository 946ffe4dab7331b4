//! The entries of pages, one behind the other.

ghost use Rattle.std.specs.Prelude.{◌≡◌, ◌∷◌, [], IfNone, IfSome};
ghost use Rattle.archive_pages.specs.Pages.{after};
ghost use Rattle.archive_pages.specs.Paged.{entries_from};
ghost use Rattle.archive_pages.specs.Spans.{lists_of};
ghost use Rattle.archive_pages.specs.declared.paged.PagedArchive.{PagedArchive as Set};

use crate::PagedArchive;
use crate::arena::Span;
use archive_text::Store;

/// A place in a set: before one of its entries, or behind all of them.
#[derive(Clone, Copy, Debug)]
pub struct Place {
    page: usize,
    index: usize,
}

impl Place {
    /// The place before all entries.
    pub fn first() -> Place
        ensures { (s : Set) → entries_from s result ≡ ⟦<PagedArchive as Store>⟧.entries s }
    {
        Place { page: 0, index: 0 }
    }
}

/// The span behind a place, and the place behind that.
pub fn span_from(pages: &[Vec<Span>], place: Place) -> Option<(Span, Place)>
    ensures some { IfSome result (λ r. after (lists_of pages.now) place.page place.index
        ≡ r.0 ∷ after (lists_of pages.now) r.1.page r.1.index) }
    ensures none { IfNone result (after (lists_of pages.now) place.page place.index ≡ []) }
{
    let mut page = place.page;
    let mut index = place.index;
    'pages: while page < pages.len() {
        if index < pages[page].len() {
            let behind = Place {
                page,
                index: index + 1,
            };
            return Some((pages[page][index], behind));
        }
        page += 1;
        index = 0;
    }
    None
}
