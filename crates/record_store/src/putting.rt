//! A whole file is put under a name.
ghost use Rattle.std.specs.Prelude.{◌≡◌, ◌≢◌, IsErrOf, IsNone, OnOk};
ghost use Rattle.disk.specs.Calls.{AtMostSyncs};
ghost use Rattle.disk.specs.Files.{settled};
ghost use Rattle.journal.specs.Journals.{IsOnDisk, IsSound, KeepsOthers, Shows};
ghost use Rattle.record_store.specs.Puts.{KeepsOrSettlesApart, LeavesOldOr};

use disk::{Disk, DiskFault, FileName};

// Removes a file, if there is one.
pub(crate) fn clear<D: Disk>(disk: &mut D, name: &FileName) -> Result<(), DiskFault>
    ensures sound { OnOk result (D.tells disk.new → IsSound (D.state disk.old) → IsSound (D.state disk.new)) }
    ensures same { D.tells disk.new → (D.state disk.new).lost ≡ (D.state disk.old).lost }
    ensures gone { OnOk result (D.tells disk.new → IsNone ((D.state disk.new).entries name.now).now) }
    ensures others { D.tells disk.new → KeepsOthers (D.state disk.old) (D.state disk.new) name.now }
    ensures syncs { AtMostSyncs 0 (D.syncs disk.old) (D.syncs disk.new) }
    ensures told { D.tells disk.new → D.tells disk.old }
    ensures failed { IsErrOf result DiskFault.Failed → D.has_failed disk.new }
    ensures full { IsErrOf result DiskFault.Full → D.has_failed disk.new }
    ensures not_missing { D.tells disk.new → ¬ (IsErrOf result DiskFault.Missing) }
    ensures not_exists { D.tells disk.new → ¬ (IsErrOf result DiskFault.Exists) }
{
    match disk.remove(name) {
        Err(DiskFault::Missing) => Ok(()),
        removed => removed,
    }
}

/// Removes a file that could not be written whole, if the disk lets it: it would take room on a full
/// disk.
pub(crate) fn discard<D: Disk>(disk: &mut D, name: &FileName)
    ensures others { D.tells disk.new → KeepsOthers (D.state disk.old) (D.state disk.new) name.now }
    ensures lost { D.tells disk.new → (D.state disk.new).lost ≡ (D.state disk.old).lost }
    ensures told { D.tells disk.new → D.tells disk.old }
    ensures failed { D.has_failed disk.old → D.has_failed disk.new }
{
    let _ = disk.remove(name);
}

// Writes a file anew, to the disk.
fn draft<D: Disk>(disk: &mut D, name: &FileName, text: &[u8]) -> Result<(), DiskFault>
    ensures whole { OnOk result (D.tells disk.new → IsSound (D.state disk.old)
        → Shows (D.state disk.new) name.now (settled text.now)) }
    ensures others { D.tells disk.new → KeepsOthers (D.state disk.old) (D.state disk.new) name.now }
    ensures told { D.tells disk.new → D.tells disk.old }
    ensures failed { IsErrOf result DiskFault.Failed → D.has_failed disk.new }
    ensures full { IsErrOf result DiskFault.Full → D.has_failed disk.new }
    ensures not_missing { D.tells disk.new → ¬ (IsErrOf result DiskFault.Missing) }
    ensures not_exists { D.tells disk.new → ¬ (IsErrOf result DiskFault.Exists) }
{
    clear(disk, name)?;
    disk.create(name)?;
    disk.append(name, text)?;
    disk.sync(name)
}

/// Puts a file with this text under a name, in place of what is there: it is written under the name
/// of a draft, synced, renamed, and the folder synced. A crash at any moment leaves under the name
/// what it might have left before, or the whole text; once the call has returned `Ok`, the text.
/// What is under the draft's name is lost. It fails with the disk's fault.
pub fn put<D: Disk>(
    disk: &mut D,
    draft_name: &FileName,
    name: &FileName,
    text: &[u8],
) -> Result<(), DiskFault>
    ensures put { OnOk result (D.tells disk.new → IsSound (D.state disk.old)
        → name.now ≢ draft_name.now → IsOnDisk (D.state disk.new) name.now text.now) }

    // whatever the result is: so at every moment
    ensures any_moment { D.tells disk.new → IsSound (D.state disk.old) → name.now ≢ draft_name.now
        → LeavesOldOr (D.state disk.old) (D.state disk.new) name.now text.now }
    ensures others { D.tells disk.new → KeepsOrSettlesApart (D.state disk.old) (D.state disk.new)
        draft_name.now name.now }

    ensures told { D.tells disk.new → D.tells disk.old }
    ensures failed { IsErrOf result DiskFault.Failed → D.has_failed disk.new }
    ensures full { IsErrOf result DiskFault.Full → D.has_failed disk.new }
    ensures not_missing { D.tells disk.new → IsSound (D.state disk.old)
        → ¬ (IsErrOf result DiskFault.Missing) }
    ensures not_exists { D.tells disk.new → ¬ (IsErrOf result DiskFault.Exists) }
{
    draft(disk, draft_name, text)?;
    disk.rename(draft_name, name)?;
    disk.sync_names()
}
