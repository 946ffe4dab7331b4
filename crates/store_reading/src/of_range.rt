//! The union of archives, of which only a range of time is written.

ghost use Rattle.store_reading.specs.Ranges.{text_in};

use archive_join::Kept;
use archive_sets::{Condition, InRange};
use archive_text::{EntryView, put_entry};
use octet_devices::{BufferedOutput, Output, WriteFault};

/// The records in a range of time that any of the archives has.
#[derive(Clone, Copy, Debug, PartialEq, Eq)]
pub(crate) struct OfRange {
    pub(crate) range: InRange,
}

impl Kept for OfRange {
    ghost keeps = { λ _ _. Unit {0} };

    ghost text = { λ k _ e. text_in k.range e };

    fn is_kept(&self, _holders: &[bool]) -> bool {
        true
    }

    fn put<W: Output>(
        &self,
        _holders: &[bool],
        entry: &EntryView<'_>,
        held: &mut BufferedOutput,
        writer: &mut W,
    ) -> Result<(), WriteFault> {
        if !self.range.holds(entry) {
            return Ok(());
        }
        put_entry(held, writer, entry.octets)
    }
}
