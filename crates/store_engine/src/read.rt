//! `read`: the archive of what a store holds.
ghost use Rattle.std.specs.Prelude.{◌≡◌, ◌++◌, codes};
ghost use Rattle.driver.specs.Devices.{Reports};
ghost use Rattle.driver.specs.Ended.{Tells, TellsLine};
ghost use Rattle.store_engine.specs.Lines.{file_line};
ghost use Rattle.store_engine.specs.Reading.{RanRead, disk_line, disk_status, input_words, read_telling};

use crate::lines::{damaged_line, report_line, words_on};
use archive_sets::InRange;
use archive_streams::InputFault;
use disk::{DiskFault, FileName};
use driver::{DONE, FAULT, NO_MEMORY, REFUSED, report};
use octet_devices::Output;
use std::alloc::Global;
use store_reading::{FileFault, Folder, ReadFault, read};

/// Reports what is wrong with a file.
pub(crate) fn report_damage<N: Output>(
    alloc: Global,
    name: &FileName,
    fault: FileFault,
    diagnostics: &mut N,
) -> u8
    ensures { TellsLine (file_line name.now fault) REFUSED (N.state diagnostics.old)
        (N.state diagnostics.new) result }
{
    report_line(
        damaged_line(alloc, name.as_octets(), fault),
        REFUSED,
        diagnostics,
    )
}

// Reports that a file could not be read, by these words behind its name.
fn report_on_file<N: Output>(
    alloc: Global,
    name: &FileName,
    words: &[u8],
    diagnostics: &mut N,
) -> u8
    ensures { TellsLine (name.now ++ words.now) FAULT (N.state diagnostics.old)
        (N.state diagnostics.new) result }
{
    report_line(words_on(alloc, name.as_octets(), words), FAULT, diagnostics)
}

// Reports that a file was not read to its end.
fn report_input<N: Output>(
    alloc: Global,
    name: &FileName,
    fault: InputFault,
    diagnostics: &mut N,
) -> u8
    ensures { TellsLine (name.now ++ input_words fault) FAULT (N.state diagnostics.old)
        (N.state diagnostics.new) result }
{
    match fault {
        InputFault::Device => report_on_file(alloc, name, b" read fault\n", diagnostics),
        InputFault::Endless => report_on_file(alloc, name, b" endless input\n", diagnostics),
    }
}

// Reports that a file could not be opened.
fn report_opening<N: Output>(
    alloc: Global,
    name: &FileName,
    fault: DiskFault,
    diagnostics: &mut N,
) -> u8
    ensures { TellsLine (disk_line fault (name.now ++ codes " read fault\n")) (disk_status fault)
        (N.state diagnostics.old) (N.state diagnostics.new) result }
{
    match fault {
        DiskFault::Memory => report(diagnostics, b"want of memory\n", NO_MEMORY),
        DiskFault::Missing | DiskFault::Exists | DiskFault::Full | DiskFault::Failed => {
            report_on_file(alloc, name, b" read fault\n", diagnostics)
        }
    }
}

// Reports that the names could not be read.
fn report_folder<N: Output>(fault: DiskFault, diagnostics: &mut N) -> u8
    ensures { Reports (disk_line fault (codes "folder read fault\n")) (disk_status fault)
        (N.state diagnostics.old) (N.state diagnostics.new) result }
{
    match fault {
        DiskFault::Memory => report(diagnostics, b"want of memory\n", NO_MEMORY),
        DiskFault::Missing | DiskFault::Exists | DiskFault::Full | DiskFault::Failed => {
            report(diagnostics, b"folder read fault\n", FAULT)
        }
    }
}

/// Reports why a folder was not read, and returns the exit status: `REFUSED` if a file is damaged,
/// `NO_MEMORY` if memory ran out, else `FAULT`.
pub fn report_read_fault<N: Output>(alloc: Global, fault: &ReadFault, diagnostics: &mut N) -> u8
    ensures { Tells read_telling fault.now (N.state diagnostics.old) (N.state diagnostics.new)
        result }
{
    match fault {
        ReadFault::Damaged { name, fault } => report_damage(alloc, name, *fault, diagnostics),
        ReadFault::Open { name, fault } => report_opening(alloc, name, *fault, diagnostics),
        ReadFault::Read { name, fault } => report_input(alloc, name, *fault, diagnostics),
        ReadFault::Folder { fault } => report_folder(*fault, diagnostics),
        ReadFault::Gone => report(diagnostics, b"the folder keeps changing\n", FAULT),
        ReadFault::TooManyDays => report(diagnostics, b"too many days\n", FAULT),
        ReadFault::Write => report(diagnostics, b"write fault\n", FAULT),
        ReadFault::Memory => report(diagnostics, b"want of memory\n", NO_MEMORY),
    }
}

/// Writes the archive of the records in a range of time that a store holds. Returns the exit
/// status: `DONE`; `REFUSED` if a file is damaged; `FAULT` if a file or a device failed;
/// `NO_MEMORY` if memory ran out. A line says what went wrong, behind a prefix of the archive.
pub fn read_store<F: Folder, W: Output, N: Output>(
    alloc: Global,
    folder: &mut F,
    range: InRange,
    output: &mut W,
    diagnostics: &mut N,
) -> u8
    // the whole archive, or a prefix of it and a line on a fault that has a cause
    ensures ran { RanRead (F.tells folder.new) (F.has_failed folder.new) (F.files folder.old) range
        (W.state output.old) (W.state output.new) (N.state diagnostics.old)
        (N.state diagnostics.new) result }
    ensures same { F.tells folder.new → F.files folder.new ≡ F.files folder.old }
    ensures told { F.tells folder.new → F.tells folder.old }
{
    match read(alloc, folder, range, output) {
        Ok(()) => DONE,
        Err(fault) => report_read_fault(alloc, &fault, diagnostics),
    }
}
