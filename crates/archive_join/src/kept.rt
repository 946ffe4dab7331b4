//! What is kept of the entries of many archives.

ghost use Rattle.std.specs.Prelude.{◌↔◌, ℕ, Bool, List, IsTrue};
ghost use Rattle.octet_devices.specs.Held.{Puts};
ghost use Rattle.archive_text.specs.Entries.{Entry};
ghost use Rattle.archive_text.specs.EntryViews.{entry_of};

use archive_text::EntryView;
use octet_devices::{BufferedOutput, Output, WriteFault};

/// What is kept of each entry of many archives, depending on who has it, and what is written of it.
pub trait Kept {
    // by who has it, whether an entry is kept
    ghost keeps: { Self → List Bool → Type 0 };

    // what is written of an entry that is kept
    ghost text: { Self → List Bool → Entry → List ℕ };

    /// Whether an entry is kept that those archives have whose flag is set.
    fn is_kept(&self, holders: &[bool]) -> bool
        ensures { IsTrue result ↔ keeps self.now holders.now };

    /// Puts what is written of an entry that is kept behind what is held. A fault counts octets
    /// from the first one ever put.
    fn put<W: Output>(
        &self,
        holders: &[bool],
        entry: &EntryView<'_>,
        held: &mut BufferedOutput,
        writer: &mut W,
    ) -> Result<(), WriteFault>
        ensures { Puts (W.state writer.old) (W.state writer.new) held.old held.new
            (text self.now holders.now (entry_of entry.now)) result };
}
