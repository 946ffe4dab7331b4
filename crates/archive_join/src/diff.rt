//! The lines in which two archives differ.

ghost use Rattle.std.specs.Prelude.{◌≡◌, ◌↔◌, IsTrue};
ghost use Rattle.archive_join.specs.Keeping.{HasOneOfTwo, diff_line, side_mark};

use crate::kept::Kept;
use crate::shown::put_shown;
use archive_text::EntryView;
use octet_devices::{BufferedOutput, Output, WriteFault};

/// A line for each record that only one of two archives has: `< ` if that is the first, else `> `,
/// and the record's canonical octets as they are shown.
#[derive(Clone, Copy, Debug, PartialEq, Eq)]
pub struct Diff;

// What a line begins with.
fn mark(holders: &[bool]) -> &'static [u8]
    ensures { result.now ≡ side_mark holders.now }
{
    match holders {
        [true, ..] => b"< ",
        _ => b"> ",
    }
}

impl Kept for Diff {
    ghost keeps = { λ _. HasOneOfTwo };

    ghost text = { λ _. diff_line };

    fn is_kept(&self, holders: &[bool]) -> bool {
        match holders {
            [first, second] => *first != *second,
            _ => false,
        }
    }

    fn put<W: Output>(
        &self,
        holders: &[bool],
        entry: &EntryView<'_>,
        held: &mut BufferedOutput,
        writer: &mut W,
    ) -> Result<(), WriteFault> {
        held.put(writer, mark(holders))?;
        put_shown(held, writer, entry.octets)?;
        held.put(writer, b"\n")
    }
}
