//! The journals of a folder, from the oldest to the newest.
ghost use Rattle.std.specs.Prelude.{◌≡◌, IfErr, IfOk, List, Some, ℕ};
ghost use Rattle.disk.specs.Calls.{AtMostSyncs, IsUnchanged};
ghost use Rattle.journal.specs.Journals.{IsSound};
ghost use Rattle.record_store.specs.Causes.{IsCause, listing_causes, reading_causes};
ghost use Rattle.record_store.specs.Shown.{AreShown, journal_shown};

use crate::fault::StoreFault;
use crate::names::{name_of_journal, numbers_up_to};
use disk::Disk;
use journal::read_octets;
use std::alloc::Global;

/// The numbers, ascending, of the journals up to one that a read shows. It changes nothing.
///
/// # Errors
/// The disk's fault, or lack of memory.
pub fn journals<D: Disk>(alloc: Global, disk: &mut D, last: u64) -> Result<Vec<u64>, StoreFault>
    ensures shown { IfOk result (λ numbers. D.tells disk.new → IsSound (D.state disk.old)
        → AreShown (D.state disk.old) last numbers.items) }
    ensures same { D.tells disk.new → IsUnchanged (D.state disk.old) (D.state disk.new) }
    ensures syncs { AtMostSyncs 0 (D.syncs disk.old) (D.syncs disk.new) }
    ensures told { D.tells disk.new → D.tells disk.old }
    ensures cause { IfErr result (IsCause (listing_causes (D.tells disk.new) (D.has_failed disk.new))) }
{
    let names = match disk.names(alloc) {
        Ok(names) => names,
        Err(fault) => return Err(StoreFault::Folder { fault }),
    };
    let mut numbers = numbers_up_to(alloc, &names, last)?;
    numbers.sort_unstable();
    numbers.dedup();
    Ok(numbers)
}

/// Reads the octets of the journal with a number, which a read shows. It changes nothing.
///
/// # Errors
/// The disk's fault, lack of memory, or a journal that is too long to be opened.
pub fn read_journal<D: Disk>(
    alloc: Global,
    disk: &mut D,
    number: u64,
) -> Result<Vec<u8>, StoreFault>
    ensures read { IfOk result (λ read. D.tells disk.new → IsSound (D.state disk.old)
        → (octets : List ℕ) → journal_shown (D.state disk.old) number ≡ Some octets → read.items ≡ octets) }
    ensures same { D.tells disk.new → IsUnchanged (D.state disk.old) (D.state disk.new) }
    ensures told { D.tells disk.new → D.tells disk.old }
    ensures cause { IfErr result (IsCause
        (reading_causes (D.tells disk.new) (D.has_failed disk.new) (D.state disk.old) number)) }
{
    let name = name_of_journal(alloc, number)?;
    match read_octets(alloc, disk, &name) {
        Ok(octets) => Ok(octets),
        Err(fault) => Err(StoreFault::Journal { number, fault }),
    }
}
