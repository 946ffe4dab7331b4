//! What archives have in common.

ghost use Rattle.std.specs.Prelude.{◌↔◌, IsTrue};
ghost use Rattle.archive_text.specs.Text.{entry_text};
ghost use Rattle.archive_join.specs.Keeping.{DoAllHave};

use crate::kept::Kept;
use archive_text::{EntryView, put_entry};
use octet_devices::{BufferedOutput, Output, WriteFault};

/// The archive of the records that all of the archives have.
#[derive(Clone, Copy, Debug, PartialEq, Eq)]
pub struct Common;

// Whether all flags are set.
fn are_all(holders: &[bool]) -> bool
    ensures { IsTrue result ↔ DoAllHave holders.now }
{
    for has in holders {
        if !*has {
            return false;
        }
    }
    true
}

impl Kept for Common {
    ghost keeps = { λ _. DoAllHave };

    ghost text = { λ _ _ e. entry_text e };

    fn is_kept(&self, holders: &[bool]) -> bool {
        are_all(holders)
    }

    fn put<W: Output>(
        &self,
        _holders: &[bool],
        entry: &EntryView<'_>,
        held: &mut BufferedOutput,
        writer: &mut W,
    ) -> Result<(), WriteFault> {
        put_entry(held, writer, entry.octets)
    }
}
