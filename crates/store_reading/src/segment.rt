//! Files of a folder are opened.
ghost use Rattle.std.specs.Prelude.{◌≡◌, IfErr, IfOk, List, ℕ};
ghost use Rattle.store_reading.specs.Causes.{IsCause, file_causes, open_causes};
ghost use Rattle.store_reading.specs.Damages.{IsDamagedSegment};
ghost use Rattle.store_reading.specs.Folders.{IsUnused, Opens};
ghost use Rattle.store_reading.specs.Segments.{IsSegmentInput};

use crate::fault::ReadFault;
use crate::folder::Folder;
use crate::period::Period;
use crate::segment_check::check_segment;
use disk::{DiskFault, FileName};
use std::alloc::Global;

/// Opens a file.
///
/// # Errors
/// `Gone` if there is none, lack of memory, or the folder's fault.
pub fn open_file<F: Folder>(
    alloc: Global,
    folder: &mut F,
    name: &FileName,
) -> Result<F::File, ReadFault>
    ensures opened { F.tells folder.new → IfOk result (λ file.
        Opens (F.files folder.old) name.now (F.File.state file)) }
    ensures unused { IfOk result (λ file. IsUnused (F.File.state file)) }
    ensures same { F.tells folder.new → F.files folder.new ≡ F.files folder.old }
    ensures told { F.tells folder.new → F.tells folder.old }
    ensures cause { IfErr result (IsCause (open_causes (F.has_failed folder.new) name.now)) }
{
    match folder.open(alloc, name) {
        Ok(file) => Ok(file),
        Err(DiskFault::Missing) => Err(ReadFault::Gone),
        Err(fault) => Err(ReadFault::Open {
            name: name.copy(alloc)?,
            fault,
        }),
    }
}

/// Opens a segment of a period, once it has been read to its end: it is an archive of entries of the
/// period, and its name has the SHA-256 of its octets.
pub(crate) fn open_segment<F: Folder>(
    alloc: Global,
    folder: &mut F,
    name: &FileName,
    period: &Period,
) -> Result<F::File, ReadFault>
    ensures input { F.tells folder.new → IfOk result (λ file.
        IsSegmentInput (F.files folder.old) name.now period.now (F.File.state file)) }
    ensures same { F.tells folder.new → F.files folder.new ≡ F.files folder.old }
    ensures told { F.tells folder.new → F.tells folder.old }
    ensures cause { IfErr result (IsCause (file_causes (F.tells folder.new) (F.has_failed folder.new)
        (F.files folder.old) (λ (n : List ℕ). n ≡ name.now) (IsDamagedSegment period.now))) }
{
    let mut file = open_file(alloc, folder, name)?;
    match check_segment(alloc, name.as_octets(), period, &mut file) {
        Ok(()) => open_file(alloc, folder, name),
        Err(fault) => Err(fault.of(name.copy(alloc)?)),
    }
}
