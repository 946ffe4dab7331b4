//! The text of pages.

ghost use Rattle.std.specs.Prelude.{◌<◌, ◌^◌, [], length};
ghost use Rattle.std.specs.List.{AllByRecursion};
ghost use Rattle.octet_devices.specs.Held.{Puts};
ghost use Rattle.octet_devices.specs.Transfers.{WritesAll};
ghost use Rattle.archive_text.specs.Text.{text_of};
ghost use Rattle.archive_pages.specs.Pages.{LieWithin, pages_text};
ghost use Rattle.archive_pages.specs.Spans.{IsWithin, blocks_of, entries_at, lists_of};

use crate::arena::{Arena, Span};
use archive_text::put_entry;
use octet_devices::{BufferedOutput, Output, WriteFault};

// a page of so many octets is begun by a write of what is held back
const MANY: usize = 16_384;

// How many octets the entries of a page have. Their lengths are asked for side by side here, and not
// each behind the copy of the entry before it, since they lie far from each other.
fn octets_in(arena: &Arena, page: &[Span]) -> usize
    requires { AllByRecursion (IsWithin (blocks_of arena.now)) page.now }
{
    let mut count: usize = 0;
    for span in page {
        count = count.saturating_add(arena.octets(*span).len());
    }
    count
}

// Writes what is held back before a page of many octets.
fn begin_page<W: Output>(
    held: &mut BufferedOutput,
    writer: &mut W,
    arena: &Arena,
    page: &[Span],
) -> Result<(), WriteFault>
    requires { AllByRecursion (IsWithin (blocks_of arena.now)) page.now }
    ensures { Puts (W.state writer.old) (W.state writer.new) held.old held.new [] result }
{
    if octets_in(arena, page) < MANY {
        return Ok(());
    }
    held.finish(writer)
}

// Puts the text of a page's entries.
fn put_page<W: Output>(
    held: &mut BufferedOutput,
    writer: &mut W,
    arena: &Arena,
    page: &[Span],
) -> Result<(), WriteFault>
    requires { AllByRecursion (IsWithin (blocks_of arena.now)) page.now }
    ensures { Puts (W.state writer.old) (W.state writer.new) held.old held.new
        (text_of (entries_at (blocks_of arena.now) page.now)) result }
{
    begin_page(held, writer, arena, page)?;
    for span in page {
        put_entry(held, writer, arena.octets(*span))?;
    }
    Ok(())
}

// Puts the text of the entries of all pages.
fn put_pages<W: Output>(
    held: &mut BufferedOutput,
    writer: &mut W,
    arena: &Arena,
    pages: &[Vec<Span>],
) -> Result<(), WriteFault>
    requires { LieWithin (blocks_of arena.now) (lists_of pages.now) }
    ensures { Puts (W.state writer.old) (W.state writer.new) held.old held.new
        (pages_text (blocks_of arena.now) (lists_of pages.now)) result }
{
    for page in pages {
        put_page(held, writer, arena, page)?;
    }
    Ok(())
}

/// Writes the text of the entries of all pages. If the writer fails, the first octets of the text
/// were written, as many as the fault says.
pub fn write_pages<W: Output>(
    writer: &mut W,
    arena: &Arena,
    pages: &[Vec<Span>],
) -> Result<(), WriteFault>
    requires within { LieWithin (blocks_of arena.now) (lists_of pages.now) }
    requires fits { length (pages_text (blocks_of arena.now) (lists_of pages.now)) < 2 ^ 64 }
    ensures { WritesAll (W.state writer.old) (W.state writer.new)
        (pages_text (blocks_of arena.now) (lists_of pages.now)) result }
{
    let mut held = BufferedOutput::new();
    put_pages(&mut held, writer, arena, pages)?;
    held.finish(writer)
}
