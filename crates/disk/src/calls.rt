//! What is asked of a disk.
ghost use Rattle.std.specs.Prelude.{◌≤◌, ℕ, IfOk, length};
ghost use Rattle.disk.specs.States.{State};
ghost use Rattle.disk.specs.Calls.{Appends, AreNames, AtMostSyncs, Creates, Cuts, HasCause, IsOfFolder};
ghost use Rattle.disk.specs.Calls.{IsUnchanged, KeepsIfShort, Overwrites, Reads, Removes, Renames, Syncs};
ghost use Rattle.disk.specs.Calls.{SyncsNames};

use crate::{DiskFault, FileName};
use std::alloc::Global;

/// A folder of files.
///
/// A disk in memory tells contracts what it holds. One over the system's files does not, since no
/// contract can say what a file gives; every clause on what a disk holds is about disks that tell.
pub trait Disk {
    /// What a read shows, and what a crash may leave.
    ghost state: { Self → State };

    /// The disk does what its clauses say of `state`.
    ghost tells: { Self → Type 0 };

    /// A call has failed by a fault of the disk's own.
    ghost has_failed: { Self → Type 0 };

    /// How many syncs were made, of files and of the folder.
    ghost syncs: { Self → ℕ };

    /// The names of all files, in any order. It fails with the disk's fault or out of memory.
    fn names(&mut self, alloc: Global) -> Result<Vec<FileName>, DiskFault>
        ensures names { tells self.new → IfOk result (λ v. AreNames (state self.old) v.items) }
        ensures done { tells self.new → IsUnchanged (state self.old) (state self.new) }
        ensures of_folder { tells self.new → IsOfFolder result }
        ensures told { tells self.new → tells self.old }
        ensures syncs { AtMostSyncs 0 (syncs self.old) (syncs self.new) }
        ensures cause { HasCause (has_failed self.old) (has_failed self.new) result };

    /// Reads octets of a file from an offset on, at most as many as the buffer has. It may give
    /// fewer, but none only at the file's end. `Missing` if there is no such file.
    fn read(&mut self, name: &FileName, at: u64, buf: &mut [u8]) -> Result<usize, DiskFault>
        ensures within { IfOk result (λ n. n ≤ length buf.new) }
        ensures done { tells self.new
            → Reads (state self.old) (state self.new) name.now at buf.new result }
        ensures told { tells self.new → tells self.old }
        ensures syncs { AtMostSyncs 0 (syncs self.old) (syncs self.new) }
        ensures cause { HasCause (has_failed self.old) (has_failed self.new) result };

    /// Makes an empty file under a name that has none; `Exists` if it has one.
    fn create(&mut self, name: &FileName) -> Result<(), DiskFault>
        ensures done { tells self.new → Creates (state self.old) (state self.new) name.now result }
        ensures told { tells self.new → tells self.old }
        ensures syncs { AtMostSyncs 0 (syncs self.old) (syncs self.new) }
        ensures cause { HasCause (has_failed self.old) (has_failed self.new) result };

    /// Writes octets at the end of a file; `Missing` if there is no such file. If it fails
    /// otherwise, some of them may be there.
    fn append(&mut self, name: &FileName, octets: &[u8]) -> Result<(), DiskFault>
        ensures done { tells self.new
            → Appends (state self.old) (state self.new) name.now octets.now result }
        ensures told { tells self.new → tells self.old }
        ensures syncs { AtMostSyncs 0 (syncs self.old) (syncs self.new) }
        ensures cause { HasCause (has_failed self.old) (has_failed self.new) result };

    /// Overwrites the octet of a file at an offset; at its end or behind it, nothing. `Missing` if
    /// there is no such file.
    fn overwrite(&mut self, name: &FileName, at: u64, octet: u8) -> Result<(), DiskFault>
        ensures done { tells self.new
            → Overwrites (state self.old) (state self.new) name.now at octet result }
        ensures told { tells self.new → tells self.old }
        ensures syncs { AtMostSyncs 0 (syncs self.old) (syncs self.new) }
        ensures cause { HasCause (has_failed self.old) (has_failed self.new) result };

    /// Cuts a file to a length in octets, if it is longer; `Missing` if there is no such file.
    fn cut(&mut self, name: &FileName, len: u64) -> Result<(), DiskFault>
        ensures done { tells self.new → Cuts (state self.old) (state self.new) name.now len result }
        ensures told { tells self.new → tells self.old }
        ensures syncs { AtMostSyncs 0 (syncs self.old) (syncs self.new) }
        ensures cause { HasCause (has_failed self.old) (has_failed self.new) result };

    /// Brings to the disk what a read of a file shows; `Missing` if there is no such file. `Full` and
    /// `Memory` have changed nothing: what a read showed it shows still, and a later call brings it to
    /// the disk. `Failed` may have lost it.
    fn sync(&mut self, name: &FileName) -> Result<(), DiskFault>
        ensures done { tells self.new → Syncs (state self.old) (state self.new) name.now result }
        ensures short { tells self.new → KeepsIfShort (state self.old) (state self.new) result }
        ensures told { tells self.new → tells self.old }
        ensures syncs { AtMostSyncs 1 (syncs self.old) (syncs self.new) }
        ensures cause { HasCause (has_failed self.old) (has_failed self.new) result };

    /// Gives a file another name, and replaces the file that has it; `Missing` if there is no file
    /// to rename.
    fn rename(&mut self, from: &FileName, to: &FileName) -> Result<(), DiskFault>
        ensures done { tells self.new
            → Renames (state self.old) (state self.new) from.now to.now result }
        ensures told { tells self.new → tells self.old }
        ensures syncs { AtMostSyncs 0 (syncs self.old) (syncs self.new) }
        ensures cause { HasCause (has_failed self.old) (has_failed self.new) result };

    /// Removes a file; `Missing` if there is none.
    fn remove(&mut self, name: &FileName) -> Result<(), DiskFault>
        ensures done { tells self.new → Removes (state self.old) (state self.new) name.now result }
        ensures told { tells self.new → tells self.old }
        ensures syncs { AtMostSyncs 0 (syncs self.old) (syncs self.new) }
        ensures cause { HasCause (has_failed self.old) (has_failed self.new) result };

    /// Brings the names of the folder to the disk. It fails with the disk's fault, or for lack of memory;
    /// `Full` and `Memory` have changed nothing.
    fn sync_names(&mut self) -> Result<(), DiskFault>
        ensures done { tells self.new → SyncsNames (state self.old) (state self.new) result }
        ensures short { tells self.new → KeepsIfShort (state self.old) (state self.new) result }
        ensures of_folder { tells self.new → IsOfFolder result }
        ensures told { tells self.new → tells self.old }
        ensures syncs { AtMostSyncs 1 (syncs self.old) (syncs self.new) }
        ensures cause { HasCause (has_failed self.old) (has_failed self.new) result };
}
