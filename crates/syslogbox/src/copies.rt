//! `backup`, over folders of the system.

use crate::adding::report_folder_fault;
use crate::copy_disk::{CopyDisk, UNFINISHED, is_unfinished};
use crate::stores::explained;
use backup_engine::backup_store;
use disk::DiskFault;
use driver::{DONE, FAULT, NO_MEMORY, REFUSED, report};
use folder_disk::FolderDisk;
use octet_devices::Output;
use std::alloc::Global;
use store_engine::{SystemFolder, line_on, report_file_error, report_no_store};

// Reports that the folder of a copy failed, and why. Returns the exit status.
fn report_copy<N: Output>(
    alloc: Global,
    dest: &str,
    target: &CopyDisk,
    fault: DiskFault,
    diagnostics: &mut N,
) -> u8 {
    if matches!(fault, DiskFault::Memory) {
        return report(diagnostics, b"want of memory\n", NO_MEMORY);
    }
    let status = report(diagnostics, b"store fault\n", FAULT);
    match target.last_error() {
        Some(error) => report_file_error(alloc, dest, error, diagnostics),
        None => status,
    }
}

/// Reports that a folder holds a copy that was not finished, if it does. Returns the exit status: that which is given, or
/// `REFUSED` in the place of `DONE`.
pub fn report_unfinished<N: Output>(
    rt: &HostRuntime,
    alloc: Global,
    dir: &str,
    status: u8,
    diagnostics: &mut N,
) -> u8 {
    if !is_unfinished(rt, dir) {
        return status;
    }
    let status = if status == DONE { REFUSED } else { status };
    match line_on(
        alloc,
        UNFINISHED,
        "the copy was not finished, so records may lack",
    ) {
        Ok(line) => report(diagnostics, line.as_bytes(), status),
        Err(_) => report(diagnostics, b"want of memory\n", NO_MEMORY),
    }
}

/// Copies the store in a folder into another folder, which is made if it is missing, and its parent is not. Until all is
/// there, the copy is marked as not finished. Returns the exit status: 0 where all of the store was copied, 1 where a
/// file is damaged, else that of a fault.
pub fn backup<N: Output>(
    rt: &HostRuntime,
    alloc: Global,
    dir: &str,
    dest: &str,
    diagnostics: &mut N,
) -> u8 {
    let mut folder = match SystemFolder::open(rt, dir) {
        Ok(folder) => folder,
        Err(error) => return report_no_store(alloc, dir, &error, diagnostics),
    };
    let mut target = match FolderDisk::create(rt, dest) {
        Ok(target) => CopyDisk::new(target),
        Err(fault) => return report_folder_fault(alloc, dest, fault, diagnostics),
    };
    if let Err(fault) = target.begin(alloc) {
        return report_copy(alloc, dest, &target, fault, diagnostics);
    }
    let status = backup_store(alloc, &mut folder, &mut target, diagnostics);
    if (status == DONE || status == REFUSED)
        && let Err(fault) = target.finish(alloc)
    {
        return report_copy(alloc, dest, &target, fault, diagnostics);
    }
    match target.last_error() {
        Some(error) if status == FAULT => report_file_error(alloc, dest, error, diagnostics),
        _ => explained(alloc, dir, &folder, status, diagnostics),
    }
}
