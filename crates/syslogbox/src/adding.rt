//! `add`, over a folder of the system.

use crate::ledgers::{SystemTurns, report_list_fault, report_turn_fault};
use crate::meter::{ClearedWriter, Meter, MeteredReader, SharedMeter, stdin_octets};
use crate::stores::report_lock_fault;
use driver::{FAULT, NO_MEMORY, report};
use folder_disk::{FolderDisk, FolderFault, FolderLock, LockFile};
use ledger_disk::{LedgerDisk, Purpose};
use octet_devices::{FromRead, Output, ToWrite};
use std::alloc::Global;
use std::io::ErrorKind;
use store_engine::{add_to_store, line_on, report_file_error};

/// Reports why nothing may be added to a folder, and returns the exit status.
pub fn report_folder_fault<N: Output>(
    alloc: Global,
    dir: &str,
    fault: FolderFault,
    diagnostics: &mut N,
) -> u8 {
    if fault.kind() == ErrorKind::OutOfMemory {
        return report(diagnostics, b"want of memory\n", NO_MEMORY);
    }
    match line_on(alloc, dir, fault) {
        Ok(line) => report(diagnostics, line.as_bytes(), FAULT),
        Err(_) => report(diagnostics, b"want of memory\n", NO_MEMORY),
    }
}

// The folder of a store that records are put into, whose ledger takes the segments that are made.
type AddedTo<'d> = LedgerDisk<FolderDisk<HostRuntime>, SystemTurns<'d>>;

// Opens the folder of a store that records are put into, which is made if it is missing, and locks it against
// others who add; or reports why not, and gives the exit status.
fn open_to_add<'d, N: Output>(
    rt: &'d HostRuntime,
    alloc: Global,
    dir: &'d str,
    diagnostics: &mut N,
) -> Result<AddedTo<'d>, u8> {
    let mut disk = match FolderDisk::create(rt, dir) {
        Ok(disk) => disk,
        Err(fault) => return Err(report_folder_fault(alloc, dir, fault, diagnostics)),
    };
    let lock = LockFile::Addition;
    match FolderLock::take(rt, dir, lock) {
        Ok(taken) => disk.hold(taken),
        Err(fault) => return Err(report_lock_fault(alloc, lock, fault, diagnostics)),
    }
    let turns = SystemTurns::new(rt, dir);
    let Ok(mut disk) = LedgerDisk::new(alloc, disk, turns, Purpose::Add) else {
        return Err(report(diagnostics, b"want of memory\n", NO_MEMORY));
    };
    match disk.catch_up() {
        Ok(()) => Ok(disk),
        Err(fault) => {
            let error = disk.disk().last_error();
            Err(report_list_fault(alloc, fault, disk.turns(), error, diagnostics))
        }
    }
}

// Puts the records of standard input, whose octets a meter counts, into the store in a folder.
fn add_metered(rt: &HostRuntime, alloc: Global, dir: &str, meter: SharedMeter<'_, '_>) -> u8 {
    let mut diagnostics = ToWrite::new(ClearedWriter {
        writer: rt.stderr(),
        meter,
    });
    let mut disk = match open_to_add(rt, alloc, dir, &mut diagnostics) {
        Ok(disk) => disk,
        Err(status) => return status,
    };
    meter.expect_more(stdin_octets(rt));
    let mut input = FromRead::new(MeteredReader {
        reader: rt.stdin(),
        meter,
    });
    let status = add_to_store(alloc, &mut disk, &mut input, &mut diagnostics);
    meter.clear();
    if let Some(status) = report_turn_fault(alloc, disk.turns(), &mut diagnostics) {
        return status;
    }
    match disk.disk().last_error() {
        Some(error) if status == FAULT => report_file_error(alloc, dir, error, &mut diagnostics),
        _ => status,
    }
}

/// Puts the records of an archive on standard input into the store in a folder, which is made if it is
/// missing. Returns the exit status: 0 where all of the archive is on the disk.
pub fn add(rt: &HostRuntime, alloc: Global, dir: &str, is_quiet: bool) -> u8 {
    let meter = Meter::of_input(rt, is_quiet);
    add_metered(rt, alloc, dir, SharedMeter::new(meter.as_ref()))
}
