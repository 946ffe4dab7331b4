//! Whether a file has the name of another one.
ghost use Rattle.std.specs.Prelude.{◌≡◌, IfErr, IfOk, IsTrue, List, None, ℕ, false};
ghost use Rattle.disk.specs.Calls.{IsUnchanged};
ghost use Rattle.journal.specs.Journals.{IsSound};
ghost use Rattle.archive_text.specs.Entries.{Entry, Has};
ghost use Rattle.record_store.specs.Names.{IsSegment};
ghost use Rattle.record_store.specs.Segments.{ShowsNoMore};
ghost use Rattle.store_upkeep.specs.Compaction.{shown};
ghost use Rattle.store_expiry.specs.Causes.{HasOthers, IsExpireCause};
ghost use Rattle.store_expiry.specs.Surveys.{IsArchiveAt, IsNoneOrWhole};

use crate::expired::Expired;
use crate::fault::ExpireFault;
use crate::survey::survey_segment;
use archive_join::{JoinFault, Minus, join_streams};
use archive_streams::InputFault;
use disk::{Disk, DiskFault, FileName};
use octet_devices::ToWrite;
use std::alloc::Global;
use store_reading::{CheckFault, FileFault, Period};
use store_upkeep::{CompactFault, StreamDisk, check_fault, open_fault, open_file};

// Whether a read shows a file of this name.
fn is_there<D: Disk>(alloc: Global, disk: &mut D, name: &FileName) -> Result<bool, CompactFault>
    ensures there { IfOk result (λ there. there ≡ false → D.tells disk.new
        → shown (D.state disk.old) name.now ≡ None) }
    ensures same { D.tells disk.new → IsUnchanged (D.state disk.old) (D.state disk.new) }
    ensures told { D.tells disk.new → D.tells disk.old }
{
    match disk.read(name, 0, &mut [0u8; 1]) {
        Ok(_) => Ok(true),
        Err(DiskFault::Missing) => Ok(false),
        Err(fault) => Err(open_fault(alloc, name, fault)),
    }
}

// Why two files were not compared, of which the second one is whole.
fn check_of(fault: JoinFault) -> CheckFault {
    match fault {
        JoinFault::Archive { input: _, fault } => CheckFault::Damaged(FileFault::Archive(fault)),
        JoinFault::Read { input: _ } => CheckFault::Input(InputFault::Device),
        JoinFault::Endless { input: _ } => CheckFault::Input(InputFault::Endless),
        JoinFault::Write { sent: _ } => CheckFault::Memory,
        JoinFault::Memory => CheckFault::Memory,
    }
}

// Whether an archive has no records that a draft lacks.
fn has_no_more<D: StreamDisk>(
    alloc: Global,
    disk: &mut D,
    name: &FileName,
    draft: &FileName,
) -> Result<bool, CompactFault>
    ensures none { IfOk result (λ none. IsTrue none → D.tells disk.new → IsSound (D.state disk.old)
        → (es left : List Entry) → IsArchiveAt (shown (D.state disk.old)) name.now es
        → IsArchiveAt (shown (D.state disk.old)) draft.now left
        → (e : Entry) → Has es e → Has left e) }
    ensures more { IfOk result (λ none. none ≡ false → D.tells disk.new → IsSound (D.state disk.old)
        → (es left : List Entry) → IsArchiveAt (shown (D.state disk.old)) name.now es
        → IsArchiveAt (shown (D.state disk.old)) draft.now left
        → (e : Entry) × Has es e × (¬ (Has left e))) }
    ensures same { D.tells disk.new → IsUnchanged (D.state disk.old) (D.state disk.new) }
    ensures told { D.tells disk.new → D.tells disk.old }
{
    let mut inputs = Vec::new(alloc);
    inputs.push(open_file(alloc, disk, name)?)?;
    inputs.push(open_file(alloc, disk, draft)?)?;
    let mut nowhere = ToWrite::new(Vec::new(alloc));
    match join_streams(alloc, &Minus, inputs.as_mut_slice(), &mut nowhere) {
        Ok(others) => Ok(others == 0),
        Err(fault) => Err(check_fault(alloc, name, check_of(fault))),
    }
}

/// Whether the file that a read shows under the name of a segment of a period has records that a draft
/// lacks. It is read to its end first: it must be a whole segment.
pub fn is_taken<D: StreamDisk>(
    alloc: Global,
    disk: &mut D,
    expired: &Expired,
    name: &FileName,
    period: &Period,
    draft: &FileName,
) -> Result<bool, ExpireFault>
    ensures free { IfOk result (λ taken. taken ≡ false → D.tells disk.new → IsSound (D.state disk.old)
        → IsSegment period.now name.now → (left : List Entry)
        → IsArchiveAt (shown (D.state disk.old)) draft.now left
        → ShowsNoMore (D.state disk.old) name.now left
        × IsNoneOrWhole (shown (D.state disk.old)) name.now) }
    ensures taken { IfOk result (λ taken. IsTrue taken → D.tells disk.new → IsSound (D.state disk.old)
        → IsSegment period.now name.now → (left : List Entry)
        → IsArchiveAt (shown (D.state disk.old)) draft.now left
        → HasOthers (shown (D.state disk.old)) name.now period.now left) }
    ensures cause { IfErr result (λ fault. D.tells disk.new → IsSound (D.state disk.old)
        → IsSegment period.now name.now → (n : ℕ)
        → IsExpireCause expired.now (shown (D.state disk.old)) n n fault) }
    ensures same { D.tells disk.new → IsUnchanged (D.state disk.old) (D.state disk.new) }
    ensures told { D.tells disk.new → D.tells disk.old }
{
    if !is_there(alloc, disk, name)? {
        return Ok(false);
    }
    survey_segment(alloc, disk, expired, name, period)?;
    let none = has_no_more(alloc, disk, name, draft)?;
    Ok(!none)
}
