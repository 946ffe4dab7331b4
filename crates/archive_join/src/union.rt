//! The union of archives.

ghost use Rattle.archive_text.specs.Text.{entry_text};

use crate::kept::Kept;
use archive_text::{EntryView, put_entry};
use octet_devices::{BufferedOutput, Output, WriteFault};

/// The archive of the records that any of the archives has.
#[derive(Clone, Copy, Debug, PartialEq, Eq)]
pub struct Union;

impl Kept for Union {
    ghost keeps = { λ _ _. Unit {0} };

    ghost text = { λ _ _ e. entry_text e };

    fn is_kept(&self, _holders: &[bool]) -> bool {
        true
    }

    fn put<W: Output>(
        &self,
        _holders: &[bool],
        entry: &EntryView<'_>,
        held: &mut BufferedOutput,
        writer: &mut W,
    ) -> Result<(), WriteFault> {
        put_entry(held, writer, entry.octets)
    }
}
