//! The lines of a digest.

ghost use Rattle.std.specs.Prelude.{◌++◌, ◌∷◌, [], decimal};
ghost use Rattle.octet_devices.specs.Held.{Puts};
ghost use Rattle.archive_digest.specs.Putting.{PutsLine, line_end};

use crate::sum::{HEX_LEN, Sum};
use itoa::Buffer;
use octet_devices::{BufferedOutput, Output, WriteFault};

// Puts a space and a text.
fn put_word<W: Output>(
    held: &mut BufferedOutput,
    writer: &mut W,
    text: &[u8],
) -> Result<(), WriteFault>
    ensures { Puts (W.state writer.old) (W.state writer.new) held.old held.new
        (32 ∷ text.now) result }
{
    held.put(writer, b" ")?;
    held.put(writer, text)
}

// Puts a space and a number.
fn put_number<W: Output>(
    held: &mut BufferedOutput,
    writer: &mut W,
    number: u64,
) -> Result<(), WriteFault>
    ensures { Puts (W.state writer.old) (W.state writer.new) held.old held.new
        (32 ∷ decimal number) result }
{
    put_word(held, writer, Buffer::new().format(number).as_bytes())
}

// Puts a space, a text and a line feed.
fn put_last<W: Output>(
    held: &mut BufferedOutput,
    writer: &mut W,
    text: &[u8],
) -> Result<(), WriteFault>
    ensures { Puts (W.state writer.old) (W.state writer.new) held.old held.new
        (32 ∷ text.now ++ 10 ∷ []) result }
{
    held.put(writer, b" ")?;
    held.put(writer, text)?;
    held.put(writer, b"\n")
}

// Puts a hash behind a space, and what ends the line: a root behind a space, if there is one, and a
// line feed.
fn put_hashes<W: Output>(
    held: &mut BufferedOutput,
    writer: &mut W,
    hash: &[u8],
    root: Option<[u8; HEX_LEN]>,
) -> Result<(), WriteFault>
    ensures { Puts (W.state writer.old) (W.state writer.new) held.old held.new
        (32 ∷ hash.now ++ line_end root) result }
{
    let Some(root) = root else {
        return put_last(held, writer, hash);
    };
    put_word(held, writer, hash)?;
    put_last(held, writer, &root)
}

/// Puts the line of entries behind what is held: a name, how many entries there are, how many
/// octets their text has, its SHA-256, and their root if there is to be one. A fault counts octets
/// from the first one ever put.
pub fn put_line<W: Output>(
    held: &mut BufferedOutput,
    writer: &mut W,
    name: &[u8],
    sum: &Sum,
) -> Result<(), WriteFault>
    ensures { PutsLine (W.state writer.old) (W.state writer.new) held.old held.new name.now
        sum.now result }
{
    let hexadecimal = sum.hexadecimal();
    let root = sum.root();
    held.put(writer, name)?;
    put_number(held, writer, sum.records)?;
    put_number(held, writer, sum.octets)?;
    put_hashes(held, writer, &hexadecimal, root)
}
