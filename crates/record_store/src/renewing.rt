//! The newest journal is written anew.
ghost use Rattle.std.specs.Prelude.{◌≡◌, ◌≢◌, [], List, ℕ, Some, OnOk};
ghost use Rattle.disk.specs.Memory.{shown_now};
ghost use Rattle.journal.specs.Journals.{IsSound, KeepsOthers};
ghost use Rattle.archive_text.specs.Entries.{Entry};
ghost use Rattle.record_store.specs.Crashes.{Keeps};
ghost use Rattle.record_store.specs.Renewals.{AreRenewalNames, Renewed, Renews};
ghost use Rattle.record_store.specs.Shown.{IsNewestShown};

use crate::fault::StoreFault;
use crate::names::{name_of_journal, name_of_renewal, newest};
use crate::putting::{clear, discard};
use crate::segment::place;
use crate::turning::at_journal;
use disk::{Disk, DiskFault, FileName};
use std::alloc::Global;

// the most octets that are asked for in a call
const PIECE: usize = 16_384;

// the most octets that are copied
const COPIED_MAX: u64 = 1 << 62;

// Writes what a read of a file shows at the end of another one.
fn copy<D: Disk>(disk: &mut D, from: &FileName, to: &FileName) -> Result<(), DiskFault>
    ensures copied { OnOk result (D.tells disk.new → IsSound (D.state disk.old) → from.now ≢ to.now
        → (text : List ℕ) → shown_now ((D.state disk.old).entries from.now) ≡ Some text
        → shown_now ((D.state disk.old).entries to.now) ≡ Some []
        → shown_now ((D.state disk.new).entries to.now) ≡ Some text) }

    // whatever the result is: so at every moment
    ensures others { D.tells disk.new → KeepsOthers (D.state disk.old) (D.state disk.new) to.now }
    ensures lost { D.tells disk.new → (D.state disk.new).lost ≡ (D.state disk.old).lost }
    ensures told { D.tells disk.new → D.tells disk.old }
{
    let mut piece = [0u8; PIECE];
    let mut at = 0u64;
    'pieces: while at < COPIED_MAX {
        let n = disk.read(from, at, &mut piece)?;
        if n == 0 {
            return Ok(());
        }
        disk.append(to, &piece[..n])?;
        at += n as u64;
    }
    Err(DiskFault::Full)
}

// Writes what a read of a file shows to a draft, in place of what is there. If that fails, the draft is
// removed.
fn draft_copy<D: Disk>(disk: &mut D, from: &FileName, draft: &FileName) -> Result<(), DiskFault>
    ensures drafted { OnOk result (D.tells disk.new → IsSound (D.state disk.old) → from.now ≢ draft.now
        → (text : List ℕ) → shown_now ((D.state disk.old).entries from.now) ≡ Some text
        → shown_now ((D.state disk.new).entries draft.now) ≡ Some text) }

    // whatever the result is: so at every moment
    ensures others { D.tells disk.new → KeepsOthers (D.state disk.old) (D.state disk.new) draft.now }
    ensures lost { D.tells disk.new → (D.state disk.new).lost ≡ (D.state disk.old).lost }
    ensures told { D.tells disk.new → D.tells disk.old }
{
    clear(disk, draft)?;
    disk.create(draft)?;
    match copy(disk, from, draft) {
        Ok(()) => Ok(()),
        Err(fault) => {
            discard(disk, draft);
            Err(fault)
        }
    }
}

// Writes a journal anew under the name of the next one, and removes it.
fn move_on<D: Disk>(
    disk: &mut D,
    from: &FileName,
    draft: &FileName,
    to: &FileName,
) -> Result<(), DiskFault>
    ensures renewed { OnOk result (D.tells disk.new → IsSound (D.state disk.old)
        → (number : ℕ) (octets : List ℕ) → AreRenewalNames number from.now draft.now to.now
        → IsNewestShown (D.state disk.old) number octets
        → Renewed (D.state disk.old) (D.state disk.new) number octets) }

    // whatever the result is: so at every moment
    ensures any_moment { D.tells disk.new → IsSound (D.state disk.old)
        → (number : ℕ) (octets : List ℕ) → AreRenewalNames number from.now draft.now to.now
        → IsNewestShown (D.state disk.old) number octets
        → (committed received : List Entry) → Keeps (D.state disk.old) committed received
        → Keeps (D.state disk.new) committed received }
    ensures told { D.tells disk.new → D.tells disk.old }
{
    draft_copy(disk, from, draft)?;
    place(disk, draft, to)?;
    disk.remove(from)
}

// Writes the journal of a number anew as that of the next one.
fn renew_journal<D: Disk>(alloc: Global, disk: &mut D, number: u64) -> Result<(), StoreFault>
    ensures renewed { OnOk result (D.tells disk.new → IsSound (D.state disk.old)
        → (octets : List ℕ) → IsNewestShown (D.state disk.old) number octets
        → Renewed (D.state disk.old) (D.state disk.new) number octets) }

    // whatever the result is: so at every moment
    ensures any_moment { D.tells disk.new → IsSound (D.state disk.old)
        → (octets : List ℕ) → IsNewestShown (D.state disk.old) number octets
        → (committed received : List Entry) → Keeps (D.state disk.old) committed received
        → Keeps (D.state disk.new) committed received }
    ensures told { D.tells disk.new → D.tells disk.old }
{
    if number == u64::MAX {
        return Err(StoreFault::LastNumber { number });
    }
    let name = name_of_journal(alloc, number)?;
    let next = name_of_journal(alloc, number + 1)?;
    let draft = name_of_renewal(alloc)?;
    match move_on(disk, &name, &draft, &next) {
        Ok(()) => Ok(()),
        Err(fault) => Err(at_journal(number, fault)),
    }
}

/// Writes the newest journal that a read shows anew: into a new file, which is brought to the disk
/// under the name of a draft and gets the next number; then the one before is removed. So what a read
/// shows comes to the disk though a sync of the old file has failed before, after which the system may
/// say of it what is not so. A folder without a journal stays as it is.
///
/// # Errors
/// The disk's fault, lack of memory, or `LastNumber` if there is no greater number.
pub fn renew<D: Disk>(alloc: Global, disk: &mut D) -> Result<(), StoreFault>
    ensures renewed { OnOk result (D.tells disk.new → IsSound (D.state disk.old)
        → Renews (D.state disk.old) (D.state disk.new)) }

    // whatever the result is: so at every moment
    ensures any_moment { D.tells disk.new → IsSound (D.state disk.old)
        → (committed received : List Entry) → Keeps (D.state disk.old) committed received
        → Keeps (D.state disk.new) committed received }
    ensures told { D.tells disk.new → D.tells disk.old }
{
    let names = match disk.names(alloc) {
        Ok(names) => names,
        Err(fault) => return Err(StoreFault::Folder { fault }),
    };
    match newest(&names) {
        Some(number) => renew_journal(alloc, disk, number),
        None => Ok(()),
    }
}
