//! A segment is copied.
ghost use Rattle.std.specs.Prelude.{◌≡◌, ◌↔◌, IfNone, IfOk, IfSome, IsTrue};
ghost use Rattle.journal.specs.Journals.{IsSound, KeepsOthers};
ghost use Rattle.record_store.specs.Names.{IsSegment};
ghost use Rattle.store_reading.specs.Days.{IsPeriodText};
ghost use Rattle.store_reading.specs.Folders.{Opens};
ghost use Rattle.store_reading.specs.Segments.{IsNamedBy};
ghost use Rattle.store_backup.specs.Backups.{Becomes, IsOpenFor};
ghost use Rattle.store_backup.specs.Drafts.{IsWrittenOf, Places};

use crate::draft::{begin, discard, place};
use crate::fault::CopyFault;
use crate::outcome::Outcome;
use crate::transfer::{Transfer, transfer_octets};
use disk::{Disk, FileName};
use std::alloc::{AllocError, Global};
use store_reading::{FileFault, Folder, Period, ReadFault, open_file, segment_octets};

// Opens a file; none where it is gone.
fn open<F: Folder>(
    alloc: Global,
    folder: &mut F,
    name: &FileName,
) -> Result<Option<F::File>, CopyFault>
    ensures opened { F.tells folder.new → IfOk result (λ found. IfSome found (λ file.
        Opens (F.files folder.old) name.now (F.File.state file))) }
    ensures same { F.tells folder.new → F.files folder.new ≡ F.files folder.old }
    ensures told { F.tells folder.new → F.tells folder.old }
{
    match open_file(alloc, folder, name) {
        Ok(file) => Ok(Some(file)),
        Err(ReadFault::Gone) => Ok(None),
        Err(fault) => Err(CopyFault::Read(fault)),
    }
}

// Writes the file of a name as a draft; none where it is gone.
fn draft_segment<F: Folder, D: Disk>(
    alloc: Global,
    folder: &mut F,
    target: &mut D,
    draft: &FileName,
    name: &FileName,
) -> Result<Option<Transfer>, CopyFault>
    ensures written { IfOk result (λ found. IfSome found (λ written. F.tells folder.new
        → D.tells target.new → IsSound (D.state target.old)
        → IsWrittenOf (F.files folder.old) (D.state target.new) draft.now name.now written)) }
    ensures gone { IfOk result (λ found. IfNone found (D.state target.new ≡ D.state target.old)) }
    ensures others { D.tells target.new
        → KeepsOthers (D.state target.old) (D.state target.new) draft.now }
    ensures same { F.tells folder.new → F.files folder.new ≡ F.files folder.old }
    ensures told_source { F.tells folder.new → F.tells folder.old }
    ensures told { D.tells target.new → D.tells target.old }
{
    let Some(mut file) = open(alloc, folder, name)? else {
        return Ok(None);
    };
    begin(alloc, target, draft)?;
    let written = transfer_octets(alloc, name, &mut file, target, draft)?;
    Ok(Some(written))
}

// Whether a name is that of the segment of a period with the digest of what was written.
fn is_named_by(
    alloc: Global,
    name: &FileName,
    period: &Period,
    written: &Transfer,
) -> Result<bool, AllocError>
    ensures { IfOk result (λ named. IsTrue named ↔ IsNamedBy period.now name.now written.now.hex) }
{
    let octets = segment_octets(alloc, period.as_octets(), &written.hex)?;
    Ok(octets.as_slice() == name.as_octets())
}

/// Copies a segment of a period, whose name is not taken: it is read once, and its SHA-256 must be the one in
/// its name. Another one is damaged, and is not copied.
pub(crate) fn copy_segment<F: Folder, D: Disk>(
    alloc: Global,
    folder: &mut F,
    target: &mut D,
    draft: &FileName,
    name: &FileName,
    period: &Period,
) -> Result<Outcome, CopyFault>
    requires text { IsPeriodText period.now }
    requires segment { IsSegment period.now name.now }
    ensures becomes { IfOk result (λ outcome. F.tells folder.new → D.tells target.new
        → IsOpenFor (F.files folder.old) (D.state target.old) draft.now name.now
        → Becomes (F.files folder.old) (D.state target.old) (D.state target.new) draft.now name.now
        outcome) }

    // whatever the result is: so at every moment
    ensures places { F.tells folder.new → D.tells target.new
        → IsOpenFor (F.files folder.old) (D.state target.old) draft.now name.now
        → Places (F.files folder.old) (D.state target.old) (D.state target.new) draft.now name.now }

    ensures same { F.tells folder.new → F.files folder.new ≡ F.files folder.old }
    ensures told_source { F.tells folder.new → F.tells folder.old }
    ensures told { D.tells target.new → D.tells target.old }
{
    let Some(written) = draft_segment(alloc, folder, target, draft, name)? else {
        return Ok(Outcome::Gone);
    };
    if !is_named_by(alloc, name, period, &written)? {
        discard(alloc, target, draft)?;
        return Ok(Outcome::Damaged(FileFault::Digest));
    }
    place(alloc, target, draft, name)?;
    Ok(Outcome::Copied {
        octets: written.octets,
    })
}
