//! Pages: at most 256 spans in the ascending order of their entries.

ghost use Rattle.std.specs.Prelude.{◌≡◌, ◌<◌, ◌≤◌, ◌+◌, ◌++◌, ℕ, []};
ghost use Rattle.std.specs.Prelude.{◌∷◌, length, take, drop, IfOk, OnOk, OnErr};
ghost use Rattle.archive_pages.specs.Spans.{lists_of};
ghost use Rattle.archive_pages.specs.Pages.{HaveSizes, after, before, joined, page_at};

use crate::arena::Span;
use std::alloc::{AllocError, Global};

/// The most entries of a page.
pub const PAGE_MAX: usize = 256;

// how many entries the first of two pages has after a split
const LOWER: usize = 128;

/// A page of the first spans and then the second ones. It fails only when out of memory.
pub fn page_of(alloc: Global, first: &[Span], second: &[Span]) -> Result<Vec<Span>, AllocError>
    ensures { IfOk result (λ page. page.items ≡ first.now ++ second.now) }
{
    let mut page = Vec::with_capacity(alloc, PAGE_MAX)?;
    page.extend_from_slice(first)?;
    page.extend_from_slice(second)?;
    Ok(page)
}

/// The two pages of a full page and one more span: its first 128 spans, and the other 129. It fails
/// only when out of memory.
pub fn split(
    alloc: Global,
    page: &[Span],
    at: usize,
    span: Span,
) -> Result<(Vec<Span>, Vec<Span>), AllocError>
    requires at_in { at ≤ length page.now }
    requires full { length page.now ≡ PAGE_MAX }
    ensures spans { IfOk result (λ p. p.0.items ++ p.1.items
        ≡ take at page.now ++ span ∷ drop at page.now) }
    ensures lower { IfOk result (λ p. length p.0.items ≡ 128) }
    ensures upper { IfOk result (λ p. length p.1.items ≡ 129) }
{
    if at < LOWER {
        let (first, second) = page.split_at(LOWER - 1);
        let mut lower = page_of(alloc, first, &[])?;
        lower.insert(at, span)?;
        let upper = page_of(alloc, second, &[])?;
        return Ok((lower, upper));
    }
    let (first, second) = page.split_at(LOWER);
    let lower = page_of(alloc, first, &[])?;
    let mut upper = page_of(alloc, second, &[])?;
    upper.insert(at - LOWER, span)?;
    Ok((lower, upper))
}

// Puts two pages in the place of one.
fn replace_by_both(
    pages: &mut Vec<Vec<Span>>,
    k: usize,
    lower: Vec<Span>,
    upper: Vec<Span>,
) -> Result<(), AllocError>
    requires { k < length pages.old.items }
    ensures ok { OnOk result (lists_of pages.new.items ≡ take k (lists_of pages.old.items)
        ++ lower.items ∷ upper.items ∷ drop (k + 1) (lists_of pages.old.items)) }
    ensures err { OnErr result (pages.new.items ≡ pages.old.items) }
{
    pages.insert(k + 1, upper)?;
    pages[k] = lower;
    Ok(())
}

/// Puts a span into a page, which is split if it is full. If an allocation fails, nothing changes.
pub fn insert_span(
    alloc: Global,
    pages: &mut Vec<Vec<Span>>,
    k: usize,
    at: usize,
    span: Span,
) -> Result<(), AllocError>
    requires page_in { k < length pages.old.items }
    requires at_in { at ≤ length (page_at (lists_of pages.old.items) k) }
    requires sizes { HaveSizes (lists_of pages.old.items) }
    ensures ok { OnOk result (joined (lists_of pages.new.items)
        ≡ before (lists_of pages.old.items) k at ++ span ∷ after (lists_of pages.old.items) k at) }
    ensures err { OnErr result (lists_of pages.new.items ≡ lists_of pages.old.items) }
    ensures sizes { HaveSizes (lists_of pages.new.items) }
{
    if pages[k].len() < PAGE_MAX {
        pages[k].insert(at, span)?;
        return Ok(());
    }
    let (lower, upper) = split(alloc, &pages[k], at, span)?;
    replace_by_both(pages, k, lower, upper)
}
