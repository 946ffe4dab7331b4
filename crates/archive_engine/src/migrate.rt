//! `migrate`: an archive of the old form is brought into the new one.

ghost use Rattle.driver.specs.Devices.{devices};
ghost use Rattle.archive_engine.specs.Migrated.{RanMigrate};

use archive_migration::{ReadFault, migrate};
use archive_reports::report_archive_fault;
use driver::{DONE, FAULT, NO_MEMORY, REFUSED, report};
use octet_devices::{Input, Output, ReadAllFault, read_all, write_all};
use std::alloc::Global;

/// Reads an archive of the old form and writes the archive of its records, with their elements by
/// id. Returns the exit status: `DONE`; `REFUSED` if the text is no such archive, and then nothing
/// is written; `FAULT` if a device failed or the input has no end; `NO_MEMORY` if memory ran out.
pub fn migrate_archive<R: Input, W: Output, N: Output>(
    alloc: Global,
    old: &mut R,
    output: &mut W,
    diagnostics: &mut N,
) -> u8
    ensures { RanMigrate
        (devices (R.state old.old) (W.state output.old) (N.state diagnostics.old))
        (devices (R.state old.new) (W.state output.new) (N.state diagnostics.new)) result }
{
    let text = match read_all(alloc, old, usize::MAX) {
        Ok(text) => text,
        Err(ReadAllFault::Device) => return report(diagnostics, b"old read fault\n", FAULT),
        Err(ReadAllFault::Endless) => return report(diagnostics, b"old endless input\n", FAULT),
        Err(ReadAllFault::Memory) => return report(diagnostics, b"want of memory\n", NO_MEMORY),
    };
    let archive = match migrate(alloc, text.as_slice()) {
        Ok(archive) => archive,
        Err(ReadFault::Bad(fault)) => {
            return report_archive_fault(alloc, b"old ", fault, REFUSED, diagnostics);
        }
        Err(ReadFault::Memory) => return report(diagnostics, b"want of memory\n", NO_MEMORY),
    };
    match write_all(output, archive.as_slice()) {
        Ok(()) => DONE,
        Err(_) => report(diagnostics, b"write fault\n", FAULT),
    }
}
