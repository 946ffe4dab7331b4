//! Where a search among pages begins.

ghost use Rattle.std.specs.Prelude.{◌≡◌, ◌<◌, ◌+◌, length, OnOk};
ghost use Rattle.archive_pages.specs.Ranks.{HasRoom, ranks_of};

use crate::arena::Span;
use std::alloc::{AllocError, Global};

/// The ranks with which pages begin. A search begins where they point; nothing else depends on them.
#[derive(Debug, Drop)]
pub struct Ranks {
    ranks: Vec<u64>,
}

// The rank of the first span of a page.
fn first_rank(page: &[Span]) -> u64 {
    if page.is_empty() {
        return 0;
    }
    page[0].rank
}

impl Ranks {
    /// The ranks of no pages. They take no memory.
    pub fn new(alloc: Global) -> Ranks {
        Ranks {
            ranks: Vec::new(alloc),
        }
    }

    /// The index of the last page that begins with at most this rank, as far as the ranks tell.
    pub fn guess(&self, rank: u64) -> usize {
        let mut first = 0;
        let mut count = self.ranks.len();
        while count > 1 {
            let half = count / 2;
            if self.ranks[first + half] <= rank {
                first += half;
            }
            count -= half;
        }
        first
    }

    /// Makes room for one more rank. The ranks stay as they are. It fails only when out of memory.
    pub fn reserve(&mut self) -> Result<(), AllocError>
        ensures same { ranks_of self.new ≡ ranks_of self.old }
        ensures room { OnOk result (HasRoom self.new) }
    {
        self.ranks.reserve(1)?;
        Ok(())
    }

    // Notes the rank with which the page of an index begins.
    fn note_one(&mut self, pages: &[Vec<Span>], page: usize)
        ensures { length (ranks_of self.new) ≡ length (ranks_of self.old) }
    {
        if page < pages.len() && page < self.ranks.len() {
            self.ranks[page] = first_rank(&pages[page]);
        }
    }

    /// Notes a span that was put into a page, before the span with this index. If there are more
    /// pages than ranks, one rank is added.
    pub fn note(&mut self, pages: &[Vec<Span>], page: usize, index: usize)
        requires { HasRoom self.old }
        ensures { length (ranks_of self.old) < length pages.now
            → length (ranks_of self.new) ≡ length (ranks_of self.old) + 1 }
    {
        if self.ranks.len() < pages.len() {
            let at = self.ranks.len().min(page.saturating_add(1));
            let _ = self.ranks.insert(at, 0);
            self.note_one(pages, page);
            self.note_one(pages, page.saturating_add(1));
        } else if index == 0 {
            self.note_one(pages, page);
        }
    }
}
