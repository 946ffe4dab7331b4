//! `backup`: a store is copied.
ghost use Rattle.std.specs.Prelude.{◌≡◌, ◌++◌, IfOk, codes};
ghost use Rattle.driver.specs.Ended.{Tells, TellsLine};
ghost use Rattle.backup_engine.specs.Ended.{RanBackup, backup_telling, copy_telling, status_of};
ghost use Rattle.backup_engine.specs.Lines.{backup_lines};

use crate::lines::lines_on;
use disk::{Disk, DiskFault, FileName};
use driver::{DONE, FAULT, NO_MEMORY, REFUSED, report};
use octet_devices::Output;
use std::alloc::{AllocError, Global};
use store_backup::{Backup, BackupFault, CopyFault, backup};
use store_engine::report_read_fault;
use store_reading::Folder;

// The exit status of a backup that was made.
fn status_on(done: &Backup) -> u8
    ensures { result ≡ status_of done.now }
{
    if done.damaged.is_empty() {
        DONE
    } else {
        REFUSED
    }
}

// Reports what was copied and what is damaged.
fn report_done<N: Output>(alloc: Global, done: &Backup, diagnostics: &mut N) -> u8
    ensures { TellsLine (backup_lines done.now) (status_of done.now) (N.state diagnostics.old)
        (N.state diagnostics.new) result }
{
    match lines_on(alloc, done) {
        Ok(lines) => report(diagnostics, lines.as_slice(), status_on(done)),
        Err(_) => report(diagnostics, b"want of memory\n", NO_MEMORY),
    }
}

// Reports that the folder of the copy failed.
fn report_folder<N: Output>(fault: DiskFault, diagnostics: &mut N) -> u8
    ensures { Tells copy_telling (CopyFault.Folder fault) (N.state diagnostics.old)
        (N.state diagnostics.new) result }
{
    match fault {
        DiskFault::Memory => report(diagnostics, b"want of memory\n", NO_MEMORY),
        DiskFault::Missing | DiskFault::Exists | DiskFault::Full | DiskFault::Failed => {
            report(diagnostics, b"copy fault\n", FAULT)
        }
    }
}

// The line on a file that could not be written.
fn write_line(alloc: Global, name: &FileName) -> Result<Vec<u8>, AllocError>
    ensures { IfOk result (λ line. line.items ≡ name.now ++ codes " write fault\n") }
{
    let mut line = Vec::new(alloc);
    line.extend_from_slice(name.as_octets())?;
    line.extend_from_slice(b" write fault\n")?;
    Ok(line)
}

// Reports that a file of the copy could not be written.
fn report_write<N: Output>(
    alloc: Global,
    name: &FileName,
    fault: DiskFault,
    diagnostics: &mut N,
) -> u8
    ensures { Tells copy_telling (CopyFault.Write name.now fault) (N.state diagnostics.old)
        (N.state diagnostics.new) result }
{
    match fault {
        DiskFault::Memory => report(diagnostics, b"want of memory\n", NO_MEMORY),
        DiskFault::Missing | DiskFault::Exists | DiskFault::Full | DiskFault::Failed => {
            match write_line(alloc, name) {
                Ok(line) => report(diagnostics, line.as_slice(), FAULT),
                Err(_) => report(diagnostics, b"want of memory\n", NO_MEMORY),
            }
        }
    }
}

// Reports why not all files of a store were copied.
fn report_copy<N: Output>(alloc: Global, fault: &CopyFault, diagnostics: &mut N) -> u8
    ensures { Tells copy_telling fault.now (N.state diagnostics.old) (N.state diagnostics.new) result }
{
    match fault {
        CopyFault::Read(fault) => report_read_fault(alloc, fault, diagnostics),
        CopyFault::Folder { fault } => report_folder(*fault, diagnostics),
        CopyFault::Write { name, fault } => report_write(alloc, name, *fault, diagnostics),
    }
}

// Reports why a store was not copied.
fn report_fault<N: Output>(alloc: Global, fault: &BackupFault, diagnostics: &mut N) -> u8
    ensures { Tells backup_telling fault.now (N.state diagnostics.old) (N.state diagnostics.new)
        result }
{
    match fault {
        BackupFault::NotEmpty => report(diagnostics, b"the folder of the copy has files\n", FAULT),
        BackupFault::Copy(fault) => report_copy(alloc, fault, diagnostics),
    }
}

/// Copies a store into a folder without files. Returns the exit status: `DONE` where all of it was copied;
/// `REFUSED` if a file is damaged, which was not copied; `FAULT` if the folder has files, or a file, a disk or a device
/// failed; `NO_MEMORY` if memory ran out. Lines on the diagnostics say which files are damaged, and how much was
/// copied; or one says what went wrong.
pub fn backup_store<F: Folder, D: Disk, N: Output>(
    alloc: Global,
    folder: &mut F,
    target: &mut D,
    diagnostics: &mut N,
) -> u8
    // a backup and the lines on it, or a line on a fault
    ensures ran { RanBackup (F.tells folder.new) (D.tells target.new) (F.files folder.old)
        (D.state target.old) (D.state target.new) (N.state diagnostics.old) (N.state diagnostics.new)
        result }
    ensures same { F.tells folder.new → F.files folder.new ≡ F.files folder.old }
    ensures told_source { F.tells folder.new → F.tells folder.old }
    ensures told { D.tells target.new → D.tells target.old }
{
    match backup(alloc, folder, target) {
        Ok(done) => report_done(alloc, &done, diagnostics),
        Err(fault) => report_fault(alloc, &fault, diagnostics),
    }
}
