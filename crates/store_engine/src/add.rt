//! `add`: the records of an archive, into a store.
ghost use Rattle.std.specs.Prelude.{◌≡◌, ◌++◌, IfOk, codes, decimal};
ghost use Rattle.driver.specs.Devices.{Reports};
ghost use Rattle.driver.specs.Ended.{Tells};
ghost use Rattle.store_engine.specs.Adding.{IsAddedLine, RanAdd, TellsAdded, TellsInterrupted, add_telling};
ghost use Rattle.store_engine.specs.Reading.{disk_line, disk_status};

use crate::read::report_damage;
use archive_reports::report_archive_fault;
use archive_streams::{EntriesFault, InputFault};
use disk::{Disk, DiskFault};
use driver::{DONE, FAULT, NO_MEMORY, REFUSED, report};
use itoa::Buffer;
use octet_devices::{Input, Output};
use record_store::KeepFault;
use std::alloc::{AllocError, Global};
use store_addition::{AddFault, Addition, Interrupted, add_archive};
use store_reading::FileFault;
use syslog_grammar::canonical_timestamp;

// The line on so many entries, up to this time.
fn line_up_to(alloc: Global, entries: u64, time: &[u8]) -> Result<Vec<u8>, AllocError>
    ensures { IfOk result (λ line. line.items ≡ codes "added " ++ decimal entries
        ++ codes " entries, up to " ++ time.now ++ codes "\n") }
{
    let mut line = Vec::new(alloc);
    line.extend_from_slice(b"added ")?;
    line.extend_from_slice(Buffer::new().format(entries).as_bytes())?;
    line.extend_from_slice(b" entries, up to ")?;
    line.extend_from_slice(time)?;
    line.extend_from_slice(b"\n")?;
    Ok(line)
}

// The line on how much of an archive is on the disk.
fn added_line(alloc: Global, added: &Addition) -> Result<Vec<u8>, AllocError>
    ensures { IfOk result (λ line. IsAddedLine added.now line.items) }
{
    match added.last {
        None => line_up_to(alloc, added.entries, b"-"),
        Some(instant) => line_up_to(alloc, added.entries, &canonical_timestamp(instant)),
    }
}

// Reports how much of an archive is on the disk, and returns this status, or that of want of memory.
fn report_added<N: Output>(alloc: Global, added: &Addition, status: u8, diagnostics: &mut N) -> u8
    ensures { TellsAdded added.now status (N.state diagnostics.old) (N.state diagnostics.new) result }
{
    match added_line(alloc, added) {
        Ok(line) => report(diagnostics, line.as_slice(), status),
        Err(_) => report(diagnostics, b"want of memory\n", NO_MEMORY),
    }
}

// Reports why the input was not read to its end.
fn report_input_fault<N: Output>(fault: InputFault, diagnostics: &mut N) -> u8
    ensures { Tells add_telling (AddFault.Input (EntriesFault.Input fault))
        (N.state diagnostics.old) (N.state diagnostics.new) result }
{
    match fault {
        InputFault::Device => report(diagnostics, b"read fault\n", FAULT),
        InputFault::Endless => report(diagnostics, b"endless input\n", FAULT),
    }
}

// Reports that a segment could not be written.
fn report_store_fault<N: Output>(fault: DiskFault, diagnostics: &mut N) -> u8
    ensures { Reports (disk_line fault (codes "store fault\n")) (disk_status fault)
        (N.state diagnostics.old) (N.state diagnostics.new) result }
{
    match fault {
        DiskFault::Memory => report(diagnostics, b"want of memory\n", NO_MEMORY),
        DiskFault::Missing | DiskFault::Exists | DiskFault::Full | DiskFault::Failed => {
            report(diagnostics, b"store fault\n", FAULT)
        }
    }
}

// Reports why an archive was not added whole.
fn report_add_fault<N: Output>(alloc: Global, fault: &AddFault, diagnostics: &mut N) -> u8
    ensures { Tells add_telling fault.now (N.state diagnostics.old) (N.state diagnostics.new) result }
{
    match fault {
        AddFault::Input(EntriesFault::Archive(fault)) => {
            report_archive_fault(alloc, b"", *fault, REFUSED, diagnostics)
        }
        AddFault::Input(EntriesFault::Input(fault)) => report_input_fault(*fault, diagnostics),
        AddFault::Segment(KeepFault::Disk(fault)) => report_store_fault(*fault, diagnostics),
        AddFault::Segment(KeepFault::Day) => report(diagnostics, b"store fault\n", FAULT),
        AddFault::Segment(KeepFault::Differs { name }) => {
            report_damage(alloc, name, FileFault::Digest, diagnostics)
        }
        AddFault::Memory => report(diagnostics, b"want of memory\n", NO_MEMORY),
    }
}

// Reports why an archive was not added whole, and behind that how much of it is on the disk.
fn report_interrupted<N: Output>(alloc: Global, at: &Interrupted, diagnostics: &mut N) -> u8
    ensures { TellsInterrupted at.now (N.state diagnostics.old) (N.state diagnostics.new) result }
{
    let status = report_add_fault(alloc, &at.fault, diagnostics);
    report_added(alloc, &at.added, status, diagnostics)
}

/// Reads an archive, and puts its records into a store. Returns the exit status: `DONE` where all of it
/// is on the disk; `REFUSED` if the input is no archive or a file of the store is damaged; `FAULT` if a
/// device or the disk failed; `NO_MEMORY` if memory ran out. A line says what went wrong, and a second
/// one how much of the archive is on the disk.
pub fn add_to_store<D: Disk, R: Input, N: Output>(
    alloc: Global,
    disk: &mut D,
    input: &mut R,
    diagnostics: &mut N,
) -> u8
    ensures ran { RanAdd (D.tells disk.new) (D.has_failed disk.new) (R.state input.old)
        (R.state input.new) (D.state disk.old) (D.state disk.new) (N.state diagnostics.old)
        (N.state diagnostics.new) result }
    ensures told { D.tells disk.new → D.tells disk.old }
{
    match add_archive(alloc, disk, input) {
        Ok(_) => DONE,
        Err(at) => report_interrupted(alloc, &at, diagnostics),
    }
}
