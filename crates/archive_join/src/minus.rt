//! What one archive has and others lack.

ghost use Rattle.std.specs.Prelude.{◌≡◌, ◌↔◌, Bool, IsTrue, false};
ghost use Rattle.std.specs.List.{AllByRecursion};
ghost use Rattle.archive_text.specs.Text.{entry_text};
ghost use Rattle.archive_join.specs.Keeping.{HasFirstAlone};

use crate::kept::Kept;
use archive_text::{EntryView, put_entry};
use octet_devices::{BufferedOutput, Output, WriteFault};

/// The archive of the records that the first of the archives has and no other one.
#[derive(Clone, Copy, Debug, PartialEq, Eq)]
pub struct Minus;

// Whether no flag is set.
fn are_none(holders: &[bool]) -> bool
    ensures { IsTrue result ↔ AllByRecursion (λ (b : Bool). b ≡ false) holders.now }
{
    for has in holders {
        if *has {
            return false;
        }
    }
    true
}

impl Kept for Minus {
    ghost keeps = { λ _. HasFirstAlone };

    ghost text = { λ _ _ e. entry_text e };

    fn is_kept(&self, holders: &[bool]) -> bool {
        match holders {
            [] => false,
            [first, others @ ..] => *first && are_none(others),
        }
    }

    fn put<W: Output>(
        &self,
        _holders: &[bool],
        entry: &EntryView<'_>,
        held: &mut BufferedOutput,
        writer: &mut W,
    ) -> Result<(), WriteFault> {
        put_entry(held, writer, entry.octets)
    }
}
