//! A disk whose files are read and written as streams.
ghost use Rattle.std.specs.Prelude.{◌≡◌, [], IfOk, List, OnOk, Some, ℕ};
ghost use Rattle.disk.specs.Calls.{IsUnchanged};
ghost use Rattle.disk.specs.Files.{settled};
ghost use Rattle.journal.specs.Journals.{IsSound, KeepsOthers, Shows};
ghost use Rattle.store_reading.specs.Folders.{IsUnused, Opens};
ghost use Rattle.store_upkeep.specs.Compaction.{shown};

use disk::{Disk, DiskFault, FileName};
use octet_devices::{Input, Output};
use std::alloc::Global;

/// A disk whose files are read as streams, many side by side, while one is written.
///
/// A file that is open goes on being read where its name is removed. What is written to a draft is
/// no part of what a read shows until the draft is settled; a crash may leave any part of it.
pub trait StreamDisk: Disk {
    /// A file that is open, from its first octet on.
    type File: Input + Drop;

    /// A file that is written.
    type Draft: Output + Drop;

    /// Opens a file.
    fn open(&mut self, alloc: Global, name: &FileName) -> Result<Self::File, DiskFault>
        ensures opened { Self.tells self.new → IsSound (Self.state self.old) → IfOk result (λ file.
            Opens (shown (Self.state self.old)) name.now (Self.File.state file)) }
        ensures unused { IfOk result (λ file. IsUnused (Self.File.state file)) }
        ensures same { Self.tells self.new → IsUnchanged (Self.state self.old) (Self.state self.new) }
        ensures told { Self.tells self.new → Self.tells self.old };

    /// Begins a file under a name, in place of what is there.
    fn begin(&mut self, name: &FileName) -> Result<Self::Draft, DiskFault>
        ensures empty { Self.tells self.new → IfOk result (λ draft.
            (Self.Draft.state draft).taken ≡ Some []) }
        ensures others { Self.tells self.new
            → KeepsOthers (Self.state self.old) (Self.state self.new) name.now }
        ensures lost { Self.tells self.new → (Self.state self.new).lost ≡ (Self.state self.old).lost }
        ensures told { Self.tells self.new → Self.tells self.old };

    /// Brings to the disk what was written of a file.
    fn settle(&mut self, name: &FileName, draft: Self::Draft) -> Result<(), DiskFault>
        ensures settled { OnOk result (Self.tells self.new → (text : List ℕ)
            → (Self.Draft.state draft).taken ≡ Some text → IsSound (Self.state self.old)
            → Shows (Self.state self.new) name.now (settled text)) }
        ensures others { Self.tells self.new
            → KeepsOthers (Self.state self.old) (Self.state self.new) name.now }
        ensures told { Self.tells self.new → Self.tells self.old };
}
