//! What is left of a segment is written anew.
ghost use Rattle.std.specs.Prelude.{◌≡◌, IfErr, IfOk, List, OnOk, Some, ℕ};
ghost use Rattle.disk.specs.Calls.{IsUnchanged};
ghost use Rattle.journal.specs.Journals.{IsSound, KeepsOthers};
ghost use Rattle.archive_text.specs.Entries.{Entry};
ghost use Rattle.archive_text.specs.Text.{IsArchive, text_of};
ghost use Rattle.archive_text.specs.declared.limits.TheConstants.{ENTRY_MAX};
ghost use Rattle.store_upkeep.specs.Compaction.{shown};
ghost use Rattle.store_expiry.specs.Causes.{IsExpireCause, TellsCause};
ghost use Rattle.store_expiry.specs.Expiry.{IsFree, IsReadyRest, IsRestOf, expire_draft};
ghost use Rattle.store_expiry.specs.Surveys.{HasExpired, IsArchiveAt, IsLeftOver, IsSegmentFile};

use crate::expired::Expired;
use crate::fault::ExpireFault;
use crate::taken::is_taken;
use crate::unexpired::Unexpired;
use archive_sets::{SelectFault, select_stream};
use archive_streams::InputFault;
use disk::{DiskFault, FileName};
use std::alloc::{AllocError, Global};
use store_reading::{CheckFault, FileFault, Period};
use store_upkeep::{
    CompactFault, StreamDisk, begin_draft, check_fault, discard_draft, name_of_draft, open_file,
    settle_draft, write_fault,
};

/// What is left of a segment, as a draft that is on the disk.
#[derive(Drop)]
pub struct Rest {
    /// The name of the draft.
    pub draft: FileName,
    /// What it is to be called.
    pub name: FileName,
}

// what the rest is called until all of it is on the disk
fn draft_name(alloc: Global) -> Result<FileName, AllocError>
    ensures { IfOk result (λ name. name ≡ expire_draft) }
{
    match FileName::new(alloc, b"expire.archive")? {
        Some(name) => Ok(name),
        None => unreachable!(),
    }
}

// Why a segment was not read to its end.
fn check_of(fault: SelectFault) -> CheckFault {
    match fault {
        SelectFault::Archive(fault) => CheckFault::Damaged(FileFault::Archive(fault)),
        SelectFault::Read => CheckFault::Input(InputFault::Device),
        SelectFault::Endless => CheckFault::Input(InputFault::Endless),
        SelectFault::Write { sent: _ } => CheckFault::Memory,
        SelectFault::Memory => CheckFault::Memory,
    }
}

// Why the rest was not written. Where the draft was not, the disk says why as it is settled. The draft is
// removed.
fn rest_fault<D: StreamDisk>(
    alloc: Global,
    disk: &mut D,
    name: &FileName,
    draft: &FileName,
    writer: D::Draft,
    fault: SelectFault,
) -> CompactFault
    ensures others { D.tells disk.new
        → KeepsOthers (D.state disk.old) (D.state disk.new) draft.now }
    ensures told { D.tells disk.new → D.tells disk.old }
{
    if !matches!(fault, SelectFault::Write { .. }) {
        discard_draft(disk, draft);
        return check_fault(alloc, name, check_of(fault));
    }
    match settle_draft(alloc, disk, draft, writer) {
        Ok(()) => {
            discard_draft(disk, draft);
            write_fault(alloc, draft, DiskFault::Failed)
        }
        Err(fault) => fault,
    }
}

// Writes the records of a segment that are not expired as a draft, and brings it to the disk. Where that
// fails, the draft is removed.
fn write_rest<D: StreamDisk>(
    alloc: Global,
    disk: &mut D,
    expired: &Expired,
    name: &FileName,
    draft: &FileName,
) -> Result<(), CompactFault>
    ensures rest { OnOk result (D.tells disk.new → IsSound (D.state disk.old) → (es : List Entry)
        → IsArchive ENTRY_MAX es → shown (D.state disk.old) name.now ≡ Some (text_of es)
        → IsRestOf expired.now (D.state disk.new) draft.now es) }
    ensures others { D.tells disk.new
        → KeepsOthers (D.state disk.old) (D.state disk.new) draft.now }
    ensures told { D.tells disk.new → D.tells disk.old }
{
    let mut file = open_file(alloc, disk, name)?;
    let mut writer = begin_draft(alloc, disk, draft)?;
    let unexpired = Unexpired { expired: *expired };
    if let Err(fault) = select_stream(alloc, &unexpired, &mut file, &mut writer) {
        return Err(rest_fault(alloc, disk, name, draft, writer, fault));
    }
    settle_draft(alloc, disk, draft, writer)?;
    Ok(())
}

// The name that a draft is to have as the segment of a period. A file of that name is a whole segment and
// has no other records.
fn name_of_rest<D: StreamDisk>(
    alloc: Global,
    disk: &mut D,
    expired: &Expired,
    draft: &FileName,
    period: &Period,
) -> Result<FileName, ExpireFault>
    ensures free { IfOk result (λ name. D.tells disk.new → IsSound (D.state disk.old)
        → (left : List Entry) → IsArchiveAt (shown (D.state disk.old)) draft.now left
        → IsFree (D.state disk.old) name period.now left) }
    ensures cause { IfErr result (λ fault. D.tells disk.new → IsSound (D.state disk.old)
        → (left : List Entry) → IsArchiveAt (shown (D.state disk.old)) draft.now left
        → IsLeftOver expired.now (shown (D.state disk.old)) period.now left → (n : ℕ)
        → IsExpireCause expired.now (shown (D.state disk.old)) n n fault) }
    ensures same { D.tells disk.new → IsUnchanged (D.state disk.old) (D.state disk.new) }
    ensures told { D.tells disk.new → D.tells disk.old }
{
    let name = name_of_draft(alloc, disk, draft, period)?;
    if is_taken(alloc, disk, expired, &name, period, draft)? {
        return Err(ExpireFault::Taken { name });
    }
    Ok(name)
}

/// Writes what is left of a segment of a period as a draft, and finds the name that it is to have. A file
/// of that name has no other records. Where that fails, the draft is removed.
pub fn prepare_rest<D: StreamDisk>(
    alloc: Global,
    disk: &mut D,
    expired: &Expired,
    name: &FileName,
    period: &Period,
) -> Result<Rest, ExpireFault>
    ensures ready { IfOk result (λ rest. D.tells disk.new → IsSound (D.state disk.old)
        → (es : List Entry) → IsSegmentFile (shown (D.state disk.old)) name.now period.now es
        → IsReadyRest expired.now (D.state disk.new) rest.draft rest.name period.now es) }
    ensures others { D.tells disk.new
        → KeepsOthers (D.state disk.old) (D.state disk.new) expire_draft }
    ensures cause { D.tells disk.new → IsSound (D.state disk.old) → (es : List Entry)
        → HasExpired expired.now (shown (D.state disk.old)) name.now period.now es → (n : ℕ)
        → TellsCause expired.now (shown (D.state disk.new)) n n result }
    ensures told { D.tells disk.new → D.tells disk.old }
{
    let draft = draft_name(alloc)?;
    write_rest(alloc, disk, expired, name, &draft)?;
    match name_of_rest(alloc, disk, expired, &draft, period) {
        Ok(name) => Ok(Rest { draft, name }),
        Err(fault) => {
            discard_draft(disk, &draft);
            Err(fault)
        }
    }
}
