//! The text of spans.

ghost use Rattle.std.specs.Prelude.{◌<◌, ◌^◌, [], length};
ghost use Rattle.octet_devices.specs.Held.{Puts};
ghost use Rattle.octet_devices.specs.Transfers.{WritesAll};
ghost use Rattle.archive_sorting.specs.Spans.{blocks_of, entries_at};
ghost use Rattle.archive_text.specs.Text.{text_of};

use crate::arena::{Arena, Span};
use archive_text::put_entry;
use octet_devices::{BufferedOutput, Output, WriteFault};

// how many entries are looked at side by side before they are written
const AHEAD: usize = 64;

// entries of so many octets are begun by a write of what is held back
const MANY: usize = 16_384;

// About how many octets the entries of spans have. Each entry is touched at its length, in its middle and
// at its end, side by side here, and not each behind the copy of the one before it, since they lie far
// from each other.
fn look_at(arena: &Arena, spans: &[Span]) -> usize {
    let mut count: usize = 0;
    for span in spans {
        let octets = arena.octets(*span);
        count = count.saturating_add(octets.len());
        if let Some(octet) = octets.get(octets.len() / 2) {
            count = count.saturating_add((*octet >> 7) as usize);
        }
        if let Some(octet) = octets.last() {
            count = count.saturating_add((*octet >> 7) as usize);
        }
    }
    count
}

// Writes what is held back before entries of many octets.
fn begin_part<W: Output>(
    held: &mut BufferedOutput,
    writer: &mut W,
    arena: &Arena,
    part: &[Span],
) -> Result<(), WriteFault>
    ensures { Puts (W.state writer.old) (W.state writer.new) held.old held.new [] result }
{
    if look_at(arena, part) < MANY {
        return Ok(());
    }
    held.finish(writer)
}

// Puts the text of the entries of few spans.
fn put_part<W: Output>(
    held: &mut BufferedOutput,
    writer: &mut W,
    arena: &Arena,
    part: &[Span],
) -> Result<(), WriteFault>
    ensures { Puts (W.state writer.old) (W.state writer.new) held.old held.new
        (text_of (entries_at (blocks_of arena.now) part.now)) result }
{
    begin_part(held, writer, arena, part)?;
    for span in part {
        put_entry(held, writer, arena.octets(*span))?;
    }
    Ok(())
}

// Puts the text of the entries of spans.
fn put_spans<W: Output>(
    held: &mut BufferedOutput,
    writer: &mut W,
    arena: &Arena,
    spans: &[Span],
) -> Result<(), WriteFault>
    ensures { Puts (W.state writer.old) (W.state writer.new) held.old held.new
        (text_of (entries_at (blocks_of arena.now) spans.now)) result }
{
    let mut from = 0;
    'parts: while from < spans.len() {
        let to = spans.len().min(from.saturating_add(AHEAD));
        put_part(held, writer, arena, &spans[from..to])?;
        from = to;
    }
    Ok(())
}

/// Writes the text of the entries of spans. If the writer fails, the first octets of the text were
/// written, as many as the fault says.
pub fn write_spans<W: Output>(
    writer: &mut W,
    arena: &Arena,
    spans: &[Span],
) -> Result<(), WriteFault>
    requires { length (text_of (entries_at (blocks_of arena.now) spans.now)) < 2 ^ 64 }
    ensures { WritesAll (W.state writer.old) (W.state writer.new)
        (text_of (entries_at (blocks_of arena.now) spans.now)) result }
{
    let mut held = BufferedOutput::new();
    put_spans(&mut held, writer, arena, spans)?;
    held.finish(writer)
}
