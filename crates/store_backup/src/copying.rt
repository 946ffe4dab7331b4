//! A store is copied.
ghost use Rattle.std.specs.Prelude.{◌≡◌, [], IfOk, IsErrOf, IsTrue, OnOk};
ghost use Rattle.disk.specs.Calls.{IsUnchanged};
ghost use Rattle.journal.specs.Journals.{IsSound};
ghost use Rattle.store_backup.specs.Backups.{AllAreDone, BacksUp, HasNoEntries, HoldsAll, HoldsNoOther, IsBackup};
ghost use Rattle.store_backup.specs.Backups.{IsEmptyFolder, IsWritten, ShowsNothing, ShowsSome};
ghost use Rattle.store_backup.specs.Copies.{HasCopies, IsBacking, LeavesCopies};

use crate::draft::draft_name;
use crate::fault::{BackupFault, CopyFault};
use crate::files::{Kind, both, copy_each};
use crate::outcome::Backup;
use disk::{Disk, FileName};
use std::alloc::Global;
use store_reading::{Folder, ReadFault, list};

/// How often the names of a store are listed at most, where a file that was listed is gone.
pub const ROUNDS_MAX: usize = 1_000;

// Sees that a folder has no files, and brings that to the disk.
fn begin_copy<D: Disk>(alloc: Global, target: &mut D) -> Result<(), BackupFault>
    ensures begun { OnOk result (D.tells target.new → IsSound (D.state target.old)
        → IsEmptyFolder (D.state target.new)) }
    ensures empty { OnOk result (D.tells target.new → IsSound (D.state target.old)
        → ShowsNothing (D.state target.old)) }
    ensures refused { IsErrOf result BackupFault.NotEmpty → D.tells target.new
        → IsSound (D.state target.old) → ShowsSome (D.state target.old) }
    ensures kept { IsErrOf result BackupFault.NotEmpty → D.tells target.new
        → IsUnchanged (D.state target.old) (D.state target.new) }

    // whatever the result is: so at every moment
    ensures still_empty { D.tells target.new → IsEmptyFolder (D.state target.old)
        → HasNoEntries (D.state target.new) }

    ensures told { D.tells target.new → D.tells target.old }
{
    let names = match target.names(alloc) {
        Ok(names) => names,
        Err(fault) => return Err(BackupFault::Copy(CopyFault::Folder { fault })),
    };
    if !names.is_empty() {
        return Err(BackupFault::NotEmpty);
    }
    match target.sync_names() {
        Ok(()) => Ok(()),
        Err(fault) => Err(BackupFault::Copy(CopyFault::Folder { fault })),
    }
}

// Copies what is not copied yet of the files of a store, as one listing has them: journals first. Gives whether
// each was there.
fn copy_listed<F: Folder, D: Disk>(
    alloc: Global,
    folder: &mut F,
    target: &mut D,
    draft: &FileName,
    backup: &mut Backup,
) -> Result<bool, CopyFault>
    ensures done { IfOk result (λ there. F.tells folder.new → D.tells target.new
        → IsBacking (F.files folder.old) (D.state target.old) draft.now → IsTrue there
        → AllAreDone (F.files folder.old) (D.state target.new) backup.new.damaged.items) }
    ensures backs { OnOk result (F.tells folder.new → D.tells target.new
        → IsBacking (F.files folder.old) (D.state target.old) draft.now
        → BacksUp (F.files folder.old) (D.state target.old) (D.state target.new) draft.now
        backup.old backup.new) }

    // whatever the result is: so at every moment
    ensures copies { F.tells folder.new → D.tells target.new
        → IsBacking (F.files folder.old) (D.state target.old) draft.now
        → HasCopies (F.files folder.old) (D.state target.new) draft.now }

    ensures same { F.tells folder.new → F.files folder.new ≡ F.files folder.old }
    ensures told_source { F.tells folder.new → F.tells folder.old }
    ensures told { D.tells target.new → D.tells target.old }
{
    let names = list(alloc, folder)?;
    let journals = copy_each(alloc, folder, target, draft, Kind::Journals, &names, backup)?;
    let segments = copy_each(alloc, folder, target, draft, Kind::Segments, &names, backup)?;
    Ok(both(journals, segments))
}

// Copies the files of a store. Where one that was listed is gone, a checkpoint has made segments of a journal,
// or a compaction has joined segments: the names are listed again.
fn copy_all<F: Folder, D: Disk>(
    alloc: Global,
    folder: &mut F,
    target: &mut D,
    draft: &FileName,
) -> Result<Backup, CopyFault>
    ensures written { IfOk result (λ backup. F.tells folder.new → D.tells target.new
        → IsBacking (F.files folder.old) (D.state target.old) draft.now
        → ShowsNothing (D.state target.old)
        → IsWritten (F.files folder.old) (D.state target.new) draft.now backup) }

    // whatever the result is: so at every moment
    ensures copies { F.tells folder.new → D.tells target.new
        → IsBacking (F.files folder.old) (D.state target.old) draft.now
        → HasCopies (F.files folder.old) (D.state target.new) draft.now }

    ensures same { F.tells folder.new → F.files folder.new ≡ F.files folder.old }
    ensures told_source { F.tells folder.new → F.tells folder.old }
    ensures told { D.tells target.new → D.tells target.old }
{
    let mut backup = Backup {
        copied: Vec::new(alloc),
        damaged: Vec::new(alloc),
    };
    'rounds: for _ in 0..ROUNDS_MAX {
        backup.damaged.clear();
        if copy_listed(alloc, folder, target, draft, &mut backup)? {
            return Ok(backup);
        }
    }
    Err(CopyFault::Read(ReadFault::Gone))
}

/// Copies the journals and segments of a store, also beside its server, into a folder without files. A segment is
/// copied as it is, if its SHA-256 is the one in its name; of a journal its batches are copied, if they are whole.
/// What is damaged is told, and not copied. Each copy is on the disk before it gets its name, and all of them once
/// this returns.
///
/// So the copy holds each record that the store held when this was called, and maybe some that came since.
/// Segments are read a piece at a time, journals whole.
///
/// # Errors
/// `NotEmpty` if the folder of the copy has files; else the first call on a file or a folder that failed, or `Gone`
/// if files came and went each time of `ROUNDS_MAX` that the names were listed, or lack of memory. What is in the
/// folder of the copy then are whole copies, and maybe the draft `backup.archive`.
pub fn backup<F: Folder, D: Disk>(
    alloc: Global,
    folder: &mut F,
    target: &mut D,
) -> Result<Backup, BackupFault>
    // each file that counts is copied, or told as damaged; and nothing else is there
    ensures backup { IfOk result (λ backup. F.tells folder.new → D.tells target.new
        → IsSound (D.state target.old)
        → IsBackup (F.files folder.old) (D.state target.new) backup) }

    // the copy holds what the store holds, and nothing else
    ensures all { IfOk result (λ backup. F.tells folder.new → D.tells target.new
        → IsSound (D.state target.old) → backup.damaged.items ≡ []
        → HoldsAll (F.files folder.old) (D.state target.new)) }
    ensures no_other { OnOk result (F.tells folder.new → D.tells target.new
        → IsSound (D.state target.old)
        → HoldsNoOther (F.files folder.old) (D.state target.new)) }

    // the folder of the copy had no files
    ensures empty { OnOk result (D.tells target.new → IsSound (D.state target.old)
        → ShowsNothing (D.state target.old)) }
    ensures refused { IsErrOf result BackupFault.NotEmpty → D.tells target.new
        → IsSound (D.state target.old) → ShowsSome (D.state target.old) }
    ensures kept { IsErrOf result BackupFault.NotEmpty → D.tells target.new
        → IsUnchanged (D.state target.old) (D.state target.new) }

    // whatever the result is, a crash leaves whole copies, but for the draft: so at every moment
    ensures any_moment { F.tells folder.new → D.tells target.new
        → IsEmptyFolder (D.state target.old)
        → LeavesCopies (F.files folder.old) (D.state target.new) }

    ensures same { F.tells folder.new → F.files folder.new ≡ F.files folder.old }
    ensures told_source { F.tells folder.new → F.tells folder.old }
    ensures told { D.tells target.new → D.tells target.old }
{
    begin_copy(alloc, target)?;
    let draft = draft_name(alloc)?;
    let copied = copy_all(alloc, folder, target, &draft)?;
    match target.sync_names() {
        Ok(()) => Ok(copied),
        Err(fault) => Err(BackupFault::Copy(CopyFault::Folder { fault })),
    }
}
