//! The archive of records that have settled.

ghost use Rattle.std.specs.Prelude.{◌≡◌, ◌≤◌, length, vec_len};
ghost use Rattle.archive_sorting.specs.Within.{ShowArchive, ShowArchive-prop};
ghost use Rattle.archive_sorting.specs.declared.unsorted.TheConstants.{RECORDS_MAX};

use crate::arena::{Arena, Span};
use crate::writing::write_spans;
use octet_devices::{Output, WriteFault};

/// An archive in memory: a set of records, each once, in the one order of archives.
#[derive(Debug, Drop)]
pub struct SortedArchive {
    /// Where the octets of its entries lie.
    pub(crate) arena: Arena,
    /// Where each entry lies, in order.
    pub(crate) spans: Vec<Span>,
    ghost sorted: { ShowArchive arena spans } by { ShowArchive-prop arena spans },
    ghost few: { vec_len spans ≤ RECORDS_MAX },
}

impl SortedArchive {
    ghost use Rattle.octet_devices.specs.Transfers.{WritesAll};
    ghost use Rattle.archive_text.specs.Text.{text_of};
    ghost use Rattle.archive_sorting.specs.Records.{entries_in};

    /// How many records it has.
    pub fn len(&self) -> usize
        ensures { result ≡ length (entries_in self.now) }
    {
        self.spans.len()
    }

    /// Writes the text of the archive. If the writer fails, the first octets of the text were
    /// written, as many as the fault says.
    pub fn write<W: Output>(&self, writer: &mut W) -> Result<(), WriteFault>
        ensures { WritesAll (W.state writer.old) (W.state writer.new) (text_of (entries_in self.now))
            result }
    {
        write_spans(writer, &self.arena, &self.spans)
    }
}
