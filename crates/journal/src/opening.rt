//! A journal is opened.
ghost use Rattle.std.specs.Prelude.{◌≡◌, ◌≤◌, ◌<◌, ◌^◌, length, List, ℕ, IfOk, IsErrOf, IsNone, OnOk};
ghost use Rattle.std.specs.Prelude.{◌⊎◌, Option, Some};
ghost use Rattle.disk.specs.Calls.{AtMostSyncs};
ghost use Rattle.disk.specs.Files.{File};
ghost use Rattle.disk.specs.States.{NameMayLeave};
ghost use Rattle.journal.specs.Batches.{batches_text, HasBatches};
ghost use Rattle.journal.specs.Journals.{EndsAt, IsAtRest, IsClosing, IsOnDisk, KeepsOrSettlesOthers};
ghost use Rattle.journal.specs.Journals.{IsSound, KeepsOthers, LeavesThese, OpensOn, SettlesOthers, Shows};
ghost use Rattle.journal.specs.Journals.{ShowsTheSame, name_of};

use crate::reading::{end_of_batches, read_octets};
use crate::{Journal, JournalFault};
use disk::{Disk, DiskFault, FileName};
use std::alloc::Global;

/// How many syncs `settle` makes at most: of the file and of the folder.
pub const SETTLE_SYNCS: u64 = 2;

/// How many syncs `open` makes at most: before the cut and behind it, and of a closed octet that is renewed.
pub const OPEN_SYNCS: u64 = CUT_SYNCS + RENEW_SYNCS;

// what opens a batch, and what stands in its place before
const OPEN: u8 = 1;

const CLOSED: u8 = 254;

// How many syncs a cut makes at most: of the closed octet before it, and of the file once it is cut.
const CUT_SYNCS: u64 = 2;

// How many syncs make a closed octet that of today, at most: one of the file.
const RENEW_SYNCS: u64 = 1;

// Puts a closed octet behind the batches, if there is none.
fn shut<D: Disk>(disk: &mut D, name: &FileName, file: &[u8], end: usize) -> Result<(), DiskFault>
    requires { end ≤ length file.now }
    ensures closing { OnOk result (D.tells disk.new → (bodies : List (List ℕ))
        → IsOnDisk (D.state disk.old) name.now file.now → EndsAt file.now bodies end
        → IsClosing (D.state disk.new) name.now bodies) }
    ensures leaves { D.tells disk.new → (bodies : List (List ℕ))
        → IsOnDisk (D.state disk.old) name.now file.now → EndsAt file.now bodies end
        → LeavesThese (D.state disk.new) name.now bodies }
    ensures others { D.tells disk.new → KeepsOthers (D.state disk.old) (D.state disk.new) name.now }
    ensures syncs { AtMostSyncs 0 (D.syncs disk.old) (D.syncs disk.new) }
    ensures told { D.tells disk.new → D.tells disk.old }
    ensures failed { IsErrOf result DiskFault.Failed → D.has_failed disk.new }
    ensures full { IsErrOf result DiskFault.Full → D.has_failed disk.new }
    ensures missing { D.tells disk.new → IsErrOf result DiskFault.Missing
        → IsNone ((D.state disk.old).entries name.now).now }
    ensures not_exists { D.tells disk.new → ¬ (IsErrOf result DiskFault.Exists) }
{
    if end == file.len() {
        disk.append(name, &[CLOSED])?;
        return Ok(());
    }
    if file[end] == OPEN {
        disk.overwrite(name, end as u64, CLOSED)?;
        return Ok(());
    }
    Ok(())
}

// Cuts what is behind the closed octet.
fn cut_behind<D: Disk>(disk: &mut D, name: &FileName, end: u64) -> Result<(), DiskFault>
    requires { end < 2 ^ 63 }
    ensures at_rest { OnOk result (D.tells disk.new → (bodies : List (List ℕ))
        → IsClosing (D.state disk.old) name.now bodies → end ≡ length (batches_text bodies)
        → IsAtRest (D.state disk.new) name.now bodies) }
    ensures leaves { D.tells disk.new → (bodies : List (List ℕ))
        → IsClosing (D.state disk.old) name.now bodies → end ≡ length (batches_text bodies)
        → LeavesThese (D.state disk.new) name.now bodies }
    ensures others { D.tells disk.new → KeepsOthers (D.state disk.old) (D.state disk.new) name.now }
    ensures syncs { AtMostSyncs CUT_SYNCS (D.syncs disk.old) (D.syncs disk.new) }
    ensures told { D.tells disk.new → D.tells disk.old }
    ensures failed { IsErrOf result DiskFault.Failed → D.has_failed disk.new }
    ensures full { IsErrOf result DiskFault.Full → D.has_failed disk.new }
    ensures missing { D.tells disk.new → IsErrOf result DiskFault.Missing
        → IsNone ((D.state disk.old).entries name.now).now }
    ensures not_exists { D.tells disk.new → ¬ (IsErrOf result DiskFault.Exists) }
{
    // The closed octet has to be on the disk first: a crash in the cut may leave anything behind it.
    disk.sync(name)?;
    disk.cut(name, end + 1)?;
    disk.sync(name)?;
    Ok(())
}

// Puts the closed octet of today in place of another one: older programs wrote 0.
fn renew<D: Disk>(disk: &mut D, name: &FileName, file: &[u8], end: usize) -> Result<(), DiskFault>
    requires { end ≤ length file.now }
    ensures at_rest { OnOk result (D.tells disk.new → (bodies : List (List ℕ))
        → IsAtRest (D.state disk.old) name.now bodies → end ≡ length (batches_text bodies)
        → IsAtRest (D.state disk.new) name.now bodies) }
    ensures leaves { D.tells disk.new → (bodies : List (List ℕ))
        → IsAtRest (D.state disk.old) name.now bodies → end ≡ length (batches_text bodies)
        → LeavesThese (D.state disk.new) name.now bodies }
    ensures others { D.tells disk.new → KeepsOthers (D.state disk.old) (D.state disk.new) name.now }
    ensures syncs { AtMostSyncs RENEW_SYNCS (D.syncs disk.old) (D.syncs disk.new) }
    ensures told { D.tells disk.new → D.tells disk.old }
    ensures failed { IsErrOf result DiskFault.Failed → D.has_failed disk.new }
    ensures full { IsErrOf result DiskFault.Full → D.has_failed disk.new }
    ensures missing { D.tells disk.new → IsErrOf result DiskFault.Missing
        → IsNone ((D.state disk.old).entries name.now).now }
    ensures not_exists { D.tells disk.new → ¬ (IsErrOf result DiskFault.Exists) }
{
    if end == file.len() || file[end] == OPEN || file[end] == CLOSED {
        return Ok(());
    }
    disk.overwrite(name, end as u64, CLOSED)?;
    disk.sync(name)?;
    Ok(())
}

/// Brings to the disk what a read of a journal shows, so that it can be opened if only the process
/// has ended. A crash at any moment leaves what it might have left before, or what is shown. It
/// fails with the disk's fault.
pub fn settle<D: Disk>(disk: &mut D, name: &FileName) -> Result<(), DiskFault>
    ensures on_disk { OnOk result (D.tells disk.new → (file : File)
        → Shows (D.state disk.old) name.now file
        → IsOnDisk (D.state disk.new) name.now file.shown) }

    // whatever the result is: so at every moment
    ensures leaves { D.tells disk.new → (file : File) (octets : Option (List ℕ))
        → Shows (D.state disk.old) name.now file
        → NameMayLeave ((D.state disk.new).entries name.now) octets
        → NameMayLeave ((D.state disk.old).entries name.now) octets ⊎ (octets ≡ Some file.shown) }
    ensures others { D.tells disk.new
        → KeepsOrSettlesOthers (D.state disk.old) (D.state disk.new) name.now }
    ensures settles { OnOk result (D.tells disk.new → IsSound (D.state disk.old)
        → SettlesOthers (D.state disk.old) (D.state disk.new) name.now) }
    ensures shows { D.tells disk.new → ShowsTheSame (D.state disk.old) (D.state disk.new) }

    ensures syncs { AtMostSyncs SETTLE_SYNCS (D.syncs disk.old) (D.syncs disk.new) }
    ensures told { D.tells disk.new → D.tells disk.old }
    ensures failed { IsErrOf result DiskFault.Failed → D.has_failed disk.new }
    ensures full { IsErrOf result DiskFault.Full → D.has_failed disk.new }
    ensures missing { D.tells disk.new → IsErrOf result DiskFault.Missing
        → IsNone ((D.state disk.old).entries name.now).now }
    ensures not_exists { D.tells disk.new → ¬ (IsErrOf result DiskFault.Exists) }
{
    disk.sync(name)?;
    disk.sync_names()?;
    Ok(())
}

/// Opens the journal under a name, and gives the text of its batches (`batch_len` finds them), all
/// of which are on the disk then. What a crash left behind them is cut off. A crash at any moment
/// leaves the same batches. It says so of a file that is on the disk as a read shows it, as after a
/// restart of the machine; if only the process has ended, call `settle` before. It fails as the
/// variants of [`JournalFault`] say.
pub fn open<D: Disk>(
    alloc: Global,
    disk: &mut D,
    name: FileName,
) -> Result<(Journal, Vec<u8>), JournalFault>
    ensures opened { IfOk result (λ r. D.tells disk.new → (file : List ℕ)
        → IsOnDisk (D.state disk.old) name file
        → OpensOn r.0 (D.state disk.new) file r.1.items) }

    // whatever the result is: so at every moment
    ensures any_moment { D.tells disk.new → (file : List ℕ) (bodies : List (List ℕ))
        → IsOnDisk (D.state disk.old) name file → HasBatches file bodies
        → LeavesThese (D.state disk.new) name bodies }
    ensures others { D.tells disk.new → KeepsOthers (D.state disk.old) (D.state disk.new) name }

    ensures name { IfOk result (λ r. name_of r.0 ≡ name) }
    ensures syncs { AtMostSyncs OPEN_SYNCS (D.syncs disk.old) (D.syncs disk.new) }
    ensures told { D.tells disk.new → D.tells disk.old }
    ensures failed { IsErrOf result (JournalFault.Disk DiskFault.Failed) → D.has_failed disk.new }
    ensures full { IsErrOf result (JournalFault.Disk DiskFault.Full) → D.has_failed disk.new }
    ensures not_missing { D.tells disk.new → (file : List ℕ) → IsOnDisk (D.state disk.old) name file
        → ¬ (IsErrOf result (JournalFault.Disk DiskFault.Missing)) }
    ensures not_exists { D.tells disk.new → ¬ (IsErrOf result (JournalFault.Disk DiskFault.Exists)) }
    ensures too_long { D.tells disk.new → IsErrOf result JournalFault.TooLong → (file : List ℕ)
        → IsOnDisk (D.state disk.old) name file → 2 ^ 40 ≤ length file }
{
    let mut file = read_octets(alloc, disk, &name)?;
    let end = end_of_batches(&file);
    shut(disk, &name, &file, end)?;
    cut_behind(disk, &name, end as u64)?;
    renew(disk, &name, &file, end)?;
    file.truncate(end);
    let journal = Journal {
        name,
        end: end as u64,
    };
    Ok((journal, file))
}
