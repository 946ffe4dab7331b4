//! The records of a store are read into memory.

ghost use Rattle.std.specs.Prelude.{◌≡◌, ◌≤◌, IfErr, IfOk, length};
ghost use Rattle.archive_text.specs.Text.{text_of};
ghost use Rattle.store_reading.specs.Sets.{IsSetOf};
ghost use Rattle.store_site.specs.Readings.{IsSetReadCause};

use crate::fault::SetReadFault;
use crate::gathering::Gathering;
use archive_sets::InRange;
use octet_devices::ToWrite;
use reconcile::{MemorySet, RangedSet, Records};
use std::alloc::Global;
use store_reading::{Folder, ReadFault, read};

// Writes the records in a range of time that a folder holds, and gathers them.
fn gather<F: Folder>(
    alloc: Global,
    folder: &mut F,
    range: InRange,
    room: u64,
) -> Result<Records, SetReadFault>
    ensures set { F.tells folder.new → IfOk result (IsSetOf (F.files folder.old) range) }
    ensures room { IfOk result (λ records. length (text_of records) ≤ room) }
    ensures cause { IfErr result (IsSetReadCause (F.tells folder.new) (F.has_failed folder.new)
        (F.files folder.old) range) }
    ensures same { F.tells folder.new → F.files folder.new ≡ F.files folder.old }
    ensures told { F.tells folder.new → F.tells folder.old }
{
    let mut output = ToWrite::new(Gathering::new(alloc, room));
    match read(alloc, folder, range, &mut output) {
        Ok(()) => output.into_inner().into_records(room),
        Err(ReadFault::Write) => Err(output.into_inner().fault()),
        Err(fault) => Err(SetReadFault::Read(fault)),
    }
}

/// Reads the records in a range of time that the folder of a store holds, in one pass: each entry is
/// taken as it is read. A folder without files holds none.
///
/// # Errors
/// The first fault that is met: that of the folder, with its cause; `TooMuch`: the archive of the
/// records has more than `room` octets; `Memory`.
pub fn read_set<F: Folder>(
    alloc: Global,
    folder: &mut F,
    range: InRange,
    room: u64,
) -> Result<MemorySet, SetReadFault>
    ensures set { F.tells folder.new → IfOk result (λ set.
        IsSetOf (F.files folder.old) range (⟦<MemorySet as RangedSet>⟧.entries set)) }
    ensures room { IfOk result (λ set.
        length (text_of (⟦<MemorySet as RangedSet>⟧.entries set)) ≤ room) }
    ensures cause { IfErr result (IsSetReadCause (F.tells folder.new) (F.has_failed folder.new)
        (F.files folder.old) range) }
    ensures same { F.tells folder.new → F.files folder.new ≡ F.files folder.old }
    ensures told { F.tells folder.new → F.tells folder.old }
{
    let records = gather(alloc, folder, range, room)?;
    Ok(MemorySet::of(alloc, records))
}
