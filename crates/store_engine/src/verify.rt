//! `verify`: which files of a store are damaged.
ghost use Rattle.std.specs.Prelude.{◌≡◌, IfErr, IfOk, OnOk};
ghost use Rattle.driver.specs.Ended.{Tells};
ghost use Rattle.store_engine.specs.Lines.{damage_lines};
ghost use Rattle.store_engine.specs.Reading.{read_telling};
ghost use Rattle.store_engine.specs.Verifying.{IsVerdictStatus, RanVerify};

use crate::lines::damaged_line;
use crate::read::report_read_fault;
use driver::{DONE, REFUSED};
use octet_devices::{Output, write_all};
use std::alloc::{AllocError, Global};
use store_reading::{Folder, ReadFault};
use store_upkeep::{DamagedFile, verify};

// A line on each damaged file, in their order.
fn lines_on(alloc: Global, damaged: &[DamagedFile]) -> Result<Vec<u8>, AllocError>
    ensures { IfOk result (λ lines. lines.items ≡ damage_lines damaged.now) }
{
    let mut lines = Vec::new(alloc);
    'files: for file in damaged {
        lines.extend_from_slice(&damaged_line(alloc, file.name.as_octets(), file.damage)?)?;
    }
    Ok(lines)
}

// The status where all files were read, and these are damaged.
fn verdict(damaged: &[DamagedFile]) -> u8
    ensures { IsVerdictStatus damaged.now result }
{
    if damaged.is_empty() { DONE } else { REFUSED }
}

// Ends a verification, which found these files to be damaged: by their verdict, or by the fault that stopped
// it.
fn end<N: Output>(
    alloc: Global,
    verified: &Result<(), ReadFault>,
    damaged: &[DamagedFile],
    diagnostics: &mut N,
) -> u8
    ensures done { OnOk verified.now (IsVerdictStatus damaged.now result
        × (N.state diagnostics.new ≡ N.state diagnostics.old)) }
    ensures told { IfErr verified.now (λ fault. Tells read_telling fault (N.state diagnostics.old)
        (N.state diagnostics.new) result) }
{
    match verified {
        Ok(()) => verdict(damaged),
        Err(fault) => report_read_fault(alloc, fault, diagnostics),
    }
}

/// Writes a line for each file of a store that is damaged, in the order of their names. Returns the exit
/// status: `DONE` if none is, `REFUSED` if one is; `FAULT` if a file or a device failed, `NO_MEMORY` if
/// memory ran out. A line on the diagnostics says what went wrong, after those on the files before.
pub fn verify_store<F: Folder, W: Output, N: Output>(
    alloc: Global,
    folder: &mut F,
    output: &mut W,
    diagnostics: &mut N,
) -> u8
    // a line on each damaged file, or on those before a fault, which is told and has a cause
    ensures ran { RanVerify (F.tells folder.new) (F.has_failed folder.new) (F.files folder.old)
        (W.state output.old) (W.state output.new) (N.state diagnostics.old)
        (N.state diagnostics.new) result }
    ensures same { F.tells folder.new → F.files folder.new ≡ F.files folder.old }
    ensures told { F.tells folder.new → F.tells folder.old }
{
    let mut damaged = Vec::new(alloc);
    let verified = verify(alloc, folder, &mut damaged);
    let Ok(lines) = lines_on(alloc, &damaged) else {
        return report_read_fault(alloc, &ReadFault::Memory, diagnostics);
    };
    if let Err(_) = write_all(output, &lines) {
        return report_read_fault(alloc, &ReadFault::Write, diagnostics);
    }
    end(alloc, &verified, &damaged, diagnostics)
}
