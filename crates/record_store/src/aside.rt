//! What an opening cuts off is set aside before.
ghost use Rattle.std.specs.Prelude.{◌≡◌, ◌⊎◌, ◌∷◌, ◌++◌, [], IfErr, IfOk, IsErrOf, List, OnOk, Some, ℕ};
ghost use Rattle.disk.specs.Memory.{shown_now};
ghost use Rattle.journal.specs.Batches.{HasBatches, batches_text};
ghost use Rattle.journal.specs.Journals.{IsSound, KeepsOrSettlesOthers, KeepsOthers};
ghost use Rattle.record_store.specs.Asides.{IsAside, KeepsOrSettlesCounted, ShowsOrNone, WritesBehind};
ghost use Rattle.record_store.specs.Asides.{aside_causes, aside_name};
ghost use Rattle.archive_text.specs.Entries.{Entry};
ghost use Rattle.record_store.specs.Causes.{IsCause, reading_causes};
ghost use Rattle.record_store.specs.Crashes.{Keeps};
ghost use Rattle.record_store.specs.Names.{journal_name};
ghost use Rattle.record_store.specs.Shown.{ShowsTheBatches, journal_shown};

use crate::fault::StoreFault;
use crate::names::{name_of_aside, name_of_journal};
use crate::opening::open_shown;
use crate::putting::discard;
use crate::turning::at_journal;
use disk::{Disk, DiskFault, FileName};
use journal::settle;
use std::alloc::Global;

// Makes an empty file, if there is none of the name; whether there was none.
fn make<D: Disk>(disk: &mut D, name: &FileName) -> Result<bool, DiskFault>
    ensures shown { OnOk result (D.tells disk.new → (before : List ℕ)
        × ShowsOrNone (D.state disk.old) name.now before
        × (shown_now ((D.state disk.new).entries name.now) ≡ Some before)) }
    ensures others { D.tells disk.new → KeepsOthers (D.state disk.old) (D.state disk.new) name.now }
    ensures lost { D.tells disk.new → (D.state disk.new).lost ≡ (D.state disk.old).lost }
    ensures told { D.tells disk.new → D.tells disk.old }
    ensures failed { IsErrOf result DiskFault.Failed → D.has_failed disk.new }
    ensures full { IsErrOf result DiskFault.Full → D.has_failed disk.new }
    ensures not_missing { D.tells disk.new → ¬ (IsErrOf result DiskFault.Missing) }
    ensures not_exists { D.tells disk.new → ¬ (IsErrOf result DiskFault.Exists) }
{
    match disk.create(name) {
        Ok(()) => Ok(true),
        Err(DiskFault::Exists) => Ok(false),
        Err(fault) => Err(fault),
    }
}

// Writes octets at the end of a file, which is made if there is none. If that fails, a file that was
// made is removed.
fn write_behind<D: Disk>(disk: &mut D, name: &FileName, octets: &[u8]) -> Result<(), DiskFault>
    ensures written { OnOk result (D.tells disk.new
        → WritesBehind (D.state disk.old) (D.state disk.new) name.now octets.now) }

    // whatever the result is: so at every moment
    ensures others { D.tells disk.new → KeepsOthers (D.state disk.old) (D.state disk.new) name.now }
    ensures lost { D.tells disk.new → (D.state disk.new).lost ≡ (D.state disk.old).lost }

    ensures told { D.tells disk.new → D.tells disk.old }
    ensures failed { IsErrOf result DiskFault.Failed → D.has_failed disk.new }
    ensures full { IsErrOf result DiskFault.Full → D.has_failed disk.new }
    ensures not_missing { D.tells disk.new → ¬ (IsErrOf result DiskFault.Missing) }
    ensures not_exists { D.tells disk.new → ¬ (IsErrOf result DiskFault.Exists) }
{
    let is_new = make(disk, name)?;
    match disk.append(name, octets) {
        Ok(()) => Ok(()),
        Err(fault) => {
            if is_new {
                discard(disk, name);
            }
            Err(fault)
        }
    }
}

// The same, and brings it to the disk.
fn put_behind<D: Disk>(disk: &mut D, name: &FileName, octets: &[u8]) -> Result<(), DiskFault>
    ensures aside { OnOk result (D.tells disk.new → IsSound (D.state disk.old)
        → IsAside (D.state disk.old) (D.state disk.new) name.now octets.now) }

    // whatever the result is: so at every moment
    ensures others { D.tells disk.new
        → KeepsOrSettlesOthers (D.state disk.old) (D.state disk.new) name.now }

    ensures told { D.tells disk.new → D.tells disk.old }
    ensures failed { IsErrOf result DiskFault.Failed → D.has_failed disk.new }
    ensures full { IsErrOf result DiskFault.Full → D.has_failed disk.new }
    ensures not_missing { D.tells disk.new → ¬ (IsErrOf result DiskFault.Missing) }
    ensures not_exists { D.tells disk.new → ¬ (IsErrOf result DiskFault.Exists) }
{
    write_behind(disk, name, octets)?;
    settle(disk, name)
}

/// Writes octets of the journal with a number at the end of the file `damaged.journal.N`, which is made
/// if there is none, and brings them to the disk. Such a file counts for nothing.
///
/// # Errors
/// The disk's fault, or lack of memory. What was written may be there then, if the file was there
/// before.
pub fn set_aside<D: Disk>(
    alloc: Global,
    disk: &mut D,
    number: u64,
    octets: &[u8],
) -> Result<(), StoreFault>
    ensures aside { OnOk result (D.tells disk.new → IsSound (D.state disk.old)
        → IsAside (D.state disk.old) (D.state disk.new) (aside_name number) octets.now) }

    // whatever the result is: so at every moment
    ensures others { D.tells disk.new
        → KeepsOrSettlesOthers (D.state disk.old) (D.state disk.new) (aside_name number) }
    ensures counted { D.tells disk.new → KeepsOrSettlesCounted (D.state disk.old) (D.state disk.new) }

    ensures told { D.tells disk.new → D.tells disk.old }
    ensures cause { IfErr result (IsCause (aside_causes (D.tells disk.new) (D.has_failed disk.new))) }
{
    let name = name_of_aside(alloc, number)?;
    match put_behind(disk, &name, octets) {
        Ok(()) => Ok(()),
        Err(fault) => Err(at_journal(number, fault)),
    }
}

/// Brings the journal with a number, which a read shows, to the disk, and cuts off what is behind its
/// batches. So an opening does with the newest one.
///
/// # Errors
/// The disk's fault, lack of memory, or a journal that is too long to be opened.
pub fn cut_journal<D: Disk>(alloc: Global, disk: &mut D, number: u64) -> Result<(), StoreFault>
    ensures sound { OnOk result (D.tells disk.new → IsSound (D.state disk.old)
        → (octets : List ℕ) → journal_shown (D.state disk.old) number ≡ Some octets
        → IsSound (D.state disk.new)) }
    ensures cut { OnOk result (D.tells disk.new → IsSound (D.state disk.old)
        → (octets : List ℕ) (bodies : List (List ℕ)) → journal_shown (D.state disk.old) number ≡ Some octets
        → HasBatches octets bodies
        → (gate : ℕ) × (journal_shown (D.state disk.new) number ≡ Some (batches_text bodies ++ gate ∷ []))) }

    // whatever the result is: so at every moment
    ensures any_moment { D.tells disk.new → IsSound (D.state disk.old)
        → (octets : List ℕ) → journal_shown (D.state disk.old) number ≡ Some octets
        → (committed received : List Entry) → Keeps (D.state disk.old) committed received
        → Keeps (D.state disk.new) committed received }
    ensures shows { D.tells disk.new → IsSound (D.state disk.old)
        → (octets : List ℕ) → journal_shown (D.state disk.old) number ≡ Some octets
        → ShowsTheBatches (D.state disk.old) (D.state disk.new) (journal_name number) }
    ensures others { D.tells disk.new
        → KeepsOrSettlesOthers (D.state disk.old) (D.state disk.new) (journal_name number) }

    ensures told { D.tells disk.new → D.tells disk.old }
    ensures cause { IfErr result (IsCause
        (reading_causes (D.tells disk.new) (D.has_failed disk.new) (D.state disk.old) number)) }
{
    let name = name_of_journal(alloc, number)?;
    match open_shown(alloc, disk, name) {
        Ok(_opened) => Ok(()),
        Err(fault) => Err(StoreFault::Journal { number, fault }),
    }
}
