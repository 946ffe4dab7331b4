//! The days of a store that are over are sealed.
ghost use Rattle.std.specs.Prelude.{◌≡◌, IfNone, IfOk, IfSome, List, OnOk, ℕ};
ghost use Rattle.disk.specs.Calls.{IsUnchanged};
ghost use Rattle.hex.specs.Hex.{encode_lower};
ghost use Rattle.journal.specs.Journals.{IsSound};
ghost use Rattle.ledger_disk.specs.Below.{below, known};
ghost use Rattle.ledger_engine.specs.Sealing.{IsOver, IsRootIn, SealsSegment};
ghost use Rattle.record_store.specs.Names.{IsSegment};
ghost use Rattle.store_reading.specs.Days.{IsDayText};
ghost use Rattle.store_reading.specs.Folders.{Opens};
ghost use Rattle.store_upkeep.specs.Compaction.{shown};

use crate::known::ledger_name;
use archive_sets::SelectFault;
use archive_streams::InputFault;
use disk::{DiskFault, FileName};
use ledger_disk::{LedgerDisk, ListFault, Turns};
use proof_engine::root_of;
use std::alloc::Global;
use store_reading::{CheckFault, Day, FileFault, Period, check_segment, segment_day};
use store_upkeep::{
    CompactFault, StreamDisk, check_fault, join_period, list_names, open_fault, segments_of,
    write_fault,
};
use syslog_value::Instant;

// The period of the segment with this name, where it is that of a day that ended by a time.
fn period_over(name: &FileName, before: Instant) -> Option<Period>
    ensures over { IfSome result (λ period. IsSegment period name.now × IsOver before period) }
    ensures none { IfNone result ((day : List ℕ) → IsDayText day → IsSegment day name.now
        → ¬ (IsOver before day)) }
{
    let day = segment_day(name.as_octets())?;
    if day.is(&Day::undated()) || !day.is_before(&Day::of(Some(before))) {
        return None;
    }
    Some(Period::of(&day))
}

// Why the root of a segment was not found.
fn root_fault(fault: SelectFault) -> CheckFault {
    match fault {
        SelectFault::Archive(fault) => CheckFault::Damaged(FileFault::Archive(fault)),
        SelectFault::Memory => CheckFault::Memory,
        SelectFault::Endless => CheckFault::Input(InputFault::Endless),
        SelectFault::Read | SelectFault::Write { .. } => CheckFault::Input(InputFault::Device),
    }
}

// Opens a segment.
fn open_segment<D: StreamDisk + Drop, T: Turns + Drop>(
    alloc: Global,
    disk: &mut LedgerDisk<D, T>,
    name: &FileName,
) -> Result<D::File, CompactFault>
    ensures opened { D.tells (below disk.new) → IsSound (D.state (below disk.old)) → IfOk result (λ file.
        Opens (shown (D.state (below disk.old))) name.now (D.File.state file)) }
    ensures same { D.tells (below disk.new)
        → IsUnchanged (D.state (below disk.old)) (D.state (below disk.new)) }
    ensures known { known disk.new ≡ known disk.old }
    ensures told { D.tells (below disk.new) → D.tells (below disk.old) }
{
    match disk.open_below(alloc, name) {
        Ok(file) => Ok(file),
        Err(fault) => Err(open_fault(alloc, name, fault)),
    }
}

// A hash in lower-case hexadecimal.
fn hexadecimal(hash: &[u8; 32]) -> [u8; 64]
    ensures { result ≡ encode_lower hash.now }
{
    let mut digits = [0; 64];
    let _ = hex::encode_to_slice(hash, &mut digits);
    digits
}

// The root of a segment of a period, which is whole, in lower-case hexadecimal.
fn segment_root<D: StreamDisk + Drop, T: Turns + Drop>(
    alloc: Global,
    disk: &mut LedgerDisk<D, T>,
    name: &FileName,
    period: &Period,
) -> Result<[u8; 64], CompactFault>
    ensures root { IfOk result (λ root. D.tells (below disk.new) → IsSound (D.state (below disk.old))
        → IsRootIn (shown (D.state (below disk.old))) period.now name.now root) }
    ensures same { OnOk result (D.tells (below disk.new)
        → IsUnchanged (D.state (below disk.old)) (D.state (below disk.new))) }
    ensures known { OnOk result (known disk.new ≡ known disk.old) }
    ensures told { D.tells (below disk.new) → D.tells (below disk.old) }
{
    let mut file = open_segment(alloc, disk, name)?;
    if let Err(fault) = check_segment(alloc, name.as_octets(), period, &mut file) {
        return Err(check_fault(alloc, name, fault));
    }
    let mut file = open_segment(alloc, disk, name)?;
    match root_of(alloc, &mut file) {
        Ok(head) => Ok(hexadecimal(&head.hash)),
        Err(fault) => Err(check_fault(alloc, name, root_fault(fault))),
    }
}

// Seals a segment of a period.
fn seal_segment<D: StreamDisk + Drop, T: Turns + Drop>(
    alloc: Global,
    disk: &mut LedgerDisk<D, T>,
    name: &FileName,
    period: &Period,
) -> Result<(), CompactFault>
    ensures { OnOk result (D.tells (below disk.new) → IsSound (D.state (below disk.old))
        → SealsSegment (D.state (below disk.old)) (D.state (below disk.new)) (known disk.old)
        period.now name.now) }
{
    let root = segment_root(alloc, disk, name, period)?;
    match disk.list_seal(name, &root) {
        Ok(()) => Ok(()),
        Err(ListFault::Disk(fault)) => Err(write_fault(alloc, &ledger_name(alloc)?, fault)),
        Err(ListFault::Broken { .. } | ListFault::Unlisted) => {
            Err(write_fault(alloc, &ledger_name(alloc)?, DiskFault::Failed))
        }
    }
}

// Whether the ledger lists a segment, as far as it was read.
fn is_listed<D: StreamDisk + Drop, T: Turns + Drop>(
    disk: &LedgerDisk<D, T>,
    name: &FileName,
) -> bool {
    disk.standing()
        .is_some_and(|standing| standing.lists(name.as_octets()))
}

// Joins the segments of a period that are not sealed into one, and seals that. One that comes meanwhile is left for the
// next time.
fn seal_period<D: StreamDisk + Drop, T: Turns + Drop>(
    alloc: Global,
    disk: &mut LedgerDisk<D, T>,
    period: &Period,
) -> Result<(), CompactFault> {
    join_period(alloc, disk, period)?;
    let names = list_names(alloc, disk)?;
    let segments = segments_of(alloc, &names, period)?;
    'segments: for name in &segments {
        if is_listed(disk, name) {
            seal_segment(alloc, disk, name, period)?;
        }
    }
    Ok(())
}

// Seals the period of the segment with a name, where it is over and another than the last one. Gives the period.
fn seal_period_of<D: StreamDisk + Drop, T: Turns + Drop>(
    alloc: Global,
    disk: &mut LedgerDisk<D, T>,
    name: &FileName,
    before: Instant,
    last: Option<Period>,
) -> Result<Option<Period>, CompactFault> {
    let Some(period) = period_over(name, before) else {
        return Ok(last);
    };
    if last.as_ref().is_some_and(|last| last.is(&period)) {
        return Ok(last);
    }
    seal_period(alloc, disk, &period)?;
    Ok(Some(period))
}

/// Seals each day of a store that ended by a time and has segments that are not sealed: these are joined into one, and
/// the ledger takes its Merkle tree hash (RFC 9162, section 2.1.1). The disk must leave sealed segments alone
/// (`Purpose::Seal`). Records without a time, and those in mixed segments, are not sealed; nor is a segment that comes
/// meanwhile, before the next run.
///
/// # Errors
/// The first fault, and at which file; the days before it are sealed.
pub fn seal_days<D: StreamDisk + Drop, T: Turns + Drop>(
    alloc: Global,
    disk: &mut LedgerDisk<D, T>,
    before: Instant,
) -> Result<(), CompactFault> {
    let names = list_names(alloc, disk)?;
    let mut last = None;
    'names: for name in names.as_slice() {
        last = seal_period_of(alloc, disk, name, before, last)?;
    }
    Ok(())
}
