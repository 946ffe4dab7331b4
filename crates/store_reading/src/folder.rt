//! A folder whose files are read.
ghost use Rattle.std.specs.Prelude.{◌≡◌, IfOk};
ghost use Rattle.disk.specs.Calls.{HasCause};
ghost use Rattle.disk.specs.States.{Files};
ghost use Rattle.store_reading.specs.Folders.{AreNamesOf, IsUnused, Opens};

use disk::{DiskFault, FileName};
use octet_devices::Input;
use std::alloc::Global;

/// A folder of files that are opened to be read, many at a time.
///
/// A file that is open can still be read when its name has been removed. A folder in memory may
/// tell contracts what its files have; one of the system does not, since no contract can say what a
/// file gives, and every clause on what files have is about folders that tell.
pub trait Folder {
    /// A file that is open, at its first octet.
    type File: Input + Drop;

    // the octets under each name that has a file
    ghost files: { Self → Files };

    // the folder does what its clauses say of `files`
    ghost tells: { Self → Type 0 };

    // a call has failed by the folder's own fault
    ghost has_failed: { Self → Type 0 };

    /// The names of all files, in any order. It fails with the folder's fault.
    fn names(&mut self, alloc: Global) -> Result<Vec<FileName>, DiskFault>
        ensures names { tells self.new → IfOk result (λ v. AreNamesOf (files self.old) v.items) }
        ensures same { tells self.new → files self.new ≡ files self.old }
        ensures told { tells self.new → tells self.old }
        ensures cause { HasCause (has_failed self.old) (has_failed self.new) result };

    /// Opens a file; `Missing` if there is none.
    fn open(&mut self, alloc: Global, name: &FileName) -> Result<Self::File, DiskFault>
        ensures opened { tells self.new → IfOk result (λ file.
            Opens (files self.old) name.now (Self.File.state file)) }
        ensures unused { IfOk result (λ file. IsUnused (Self.File.state file)) }
        ensures same { tells self.new → files self.new ≡ files self.old }
        ensures told { tells self.new → tells self.old }
        ensures cause { HasCause (has_failed self.old) (has_failed self.new) result };
}
