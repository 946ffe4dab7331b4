//! A segment is removed once its line is in the ledger.
ghost use Rattle.std.specs.Prelude.{◌≡◌, ◌≢◌, IsNone, IsSome, List, ℕ};
ghost use Rattle.disk.specs.Memory.{shown_now};
ghost use Rattle.journal.specs.Journals.{IsSound, KeepsOrSettlesOthers};
ghost use Rattle.ledger.specs.Lines.{said_of};
ghost use Rattle.ledger_disk.specs.Ledgers.{GainsLine, IsNamed, KeepsLines};

use crate::appending::append_line;
use crate::fault::disk_fault;
use crate::turns::TIME_LEN;
use disk::{Disk, DiskFault, FileName};
use ledger::LedgerEntry;
use std::alloc::Global;

/// Writes the line of a segment that goes, and removes it. If the line is not written, nothing is
/// removed. Gives the number of the line.
pub(crate) fn remove_listed<D: Disk>(
    alloc: Global,
    disk: &mut D,
    ledger: &FileName,
    segment: &FileName,
    time: &[u8; TIME_LEN],
    entry: &LedgerEntry<'_>,
) -> Result<u64, DiskFault>
    // whatever the result is: so at every moment
    ensures gone { D.tells disk.new → IsSound (D.state disk.old) → segment.now ≢ ledger.now
        → IsSome ((D.state disk.old).entries segment.now).now
        → IsNone ((D.state disk.new).entries segment.now).now
        → GainsLine (D.state disk.old) (D.state disk.new) ledger.now (said_of entry.now) }
    ensures named { D.tells disk.new → IsSound (D.state disk.old) → segment.now ≢ ledger.now
        → IsSome ((D.state disk.old).entries segment.now).now
        → IsNone ((D.state disk.new).entries segment.now).now
        → IsNamed (D.state disk.old) ledger.now → IsNamed (D.state disk.new) ledger.now }
    ensures kept { D.tells disk.new → IsSound (D.state disk.old) → segment.now ≢ ledger.now
        → KeepsLines (D.state disk.old) (D.state disk.new) ledger.now }
    ensures others { D.tells disk.new → (other : List ℕ) → other ≢ ledger.now → other ≢ segment.now
        → shown_now ((D.state disk.new).entries other)
        ≡ shown_now ((D.state disk.old).entries other) }
    ensures told { D.tells disk.new → D.tells disk.old }
{
    let number = match append_line(alloc, disk, ledger, time, entry) {
        Ok(number) => number,
        Err(fault) => return Err(disk_fault(fault)),
    };
    disk.remove(segment)?;
    Ok(number)
}

/// The names of the files that the folder has now, in order. A read does not tell: it may show a file that
/// was opened before its name was removed.
pub(crate) fn names_in_order<D: Disk>(
    alloc: Global,
    disk: &mut D,
) -> Result<Vec<FileName>, DiskFault> {
    let mut names = disk.names(alloc)?;
    names.sort_unstable_by(|one, other| one.as_octets().cmp(other.as_octets()));
    Ok(names)
}

/// Whether a name is among others, which are in order.
pub(crate) fn is_among(names: &[FileName], name: &FileName) -> bool {
    names
        .binary_search_by(|other| other.as_octets().cmp(name.as_octets()))
        .is_ok()
}
