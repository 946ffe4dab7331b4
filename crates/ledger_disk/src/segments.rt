//! What is asked of segments, and of what the ledger lists of them.
ghost use Rattle.std.specs.Prelude.{◌≡◌, ◌↔◌, IsSomeAnd, IsTrue, option_map, true};
ghost use Rattle.disk.specs.Calls.{IsUnchanged};
ghost use Rattle.ledger_disk.specs.Disks.{IsKept, IsSegmentName, listed_in, size_listed};
ghost use Rattle.ledger.specs.Standings.{listed_at};

use crate::counting::count_entries;
use crate::purpose::Purpose;
use disk::{Disk, DiskFault, FileName};
use ledger::{LedgerEntry, Standing};
use std::alloc::AllocError;
use store_reading::segment_period;

/// Whether a file has the name of a segment.
pub(crate) fn is_segment(name: &FileName) -> bool
    ensures { IsTrue result ↔ IsSegmentName name.now }
{
    segment_period(name.as_octets()).is_some()
}

/// Whether there is a file.
pub(crate) fn has_file<D: Disk>(disk: &mut D, name: &FileName) -> Result<bool, DiskFault>
    ensures same { D.tells disk.new → IsUnchanged (D.state disk.old) (D.state disk.new) }
    ensures told { D.tells disk.new → D.tells disk.old }
{
    match disk.read(name, 0, &mut [0u8; 1]) {
        Ok(_) => Ok(true),
        Err(DiskFault::Missing) => Ok(false),
        Err(fault) => Err(fault),
    }
}

// How many records and octets a standing lists of a segment.
fn size_in(standing: &Standing, name: &FileName) -> Option<(u64, u64)>
    ensures { result ≡ option_map size_listed (listed_at standing.now name.now) }
{
    match standing.find(name.as_octets()) {
        Some(listed) => Some((listed.count, listed.octets)),
        None => None,
    }
}

/// How many records and octets are listed of a segment, if it is listed.
pub(crate) fn listed_size(standing: &Option<Standing>, name: &FileName) -> Option<(u64, u64)>
    ensures { result ≡ option_map size_listed (listed_in standing.now name.now) }
{
    match standing {
        Some(standing) => size_in(standing, name),
        None => None,
    }
}

/// How many records and octets a segment has, as it is listed or else as it is counted.
pub(crate) fn size_of<D: Disk>(
    disk: &mut D,
    standing: &Option<Standing>,
    name: &FileName,
) -> Result<(u64, u64), DiskFault>
    ensures same { D.tells disk.new → IsUnchanged (D.state disk.old) (D.state disk.new) }
    ensures told { D.tells disk.new → D.tells disk.old }
{
    if let Some(size) = listed_size(standing, name) {
        return Ok(size);
    }
    let counted = count_entries(disk, name)?;
    Ok((counted.entries, counted.octets))
}

// Whether a segment is listed as sealed.
fn is_sealed(standing: &Standing, name: &FileName) -> bool
    ensures { IsTrue result ↔ IsSomeAnd (listed_at standing.now name.now) (λ listed. listed.sealed ≡ true) }
{
    match standing.find(name.as_octets()) {
        Some(listed) => listed.sealed,
        None => false,
    }
}

/// Whether a segment is sealed, and is left alone for that.
pub(crate) fn is_kept(purpose: Purpose, standing: &Option<Standing>, name: &FileName) -> bool
    ensures { IsTrue result ↔ IsKept purpose standing.now name.now }
{
    if purpose.removes_sealed() {
        return false;
    }
    match standing {
        Some(standing) => is_sealed(standing, name),
        None => false,
    }
}

/// Notes what a line says, where it is known what the ledger lists.
pub(crate) fn note(
    standing: &mut Option<Standing>,
    number: u64,
    entry: &LedgerEntry<'_>,
) -> Result<(), AllocError> {
    match standing {
        Some(standing) => standing.take(number, entry),
        None => Ok(()),
    }
}
