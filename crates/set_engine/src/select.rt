//! `select`: the records of an archive that meet a condition.

ghost use Rattle.driver.specs.Devices.{devices};
ghost use Rattle.driver.specs.Ended.{Tells};
ghost use Rattle.set_engine.specs.Selecting.{RanSelect, select_telling};

use archive_reports::report_archive_fault;
use archive_sets::{Condition, SelectFault, select_stream};
use driver::{DONE, FAULT, NO_MEMORY, REFUSED, report};
use octet_devices::{Input, Output};
use std::alloc::Global;

/// Reports what stopped a selection or a digest, and returns the exit status.
pub fn report_select_fault<N: Output>(alloc: Global, fault: SelectFault, diagnostics: &mut N) -> u8
    ensures { Tells select_telling fault (N.state diagnostics.old) (N.state diagnostics.new) result }
{
    match fault {
        SelectFault::Archive(fault) => report_archive_fault(
            alloc,
            b"",
            fault,
            REFUSED,
            diagnostics,
        ),
        SelectFault::Read => report(diagnostics, b"read fault\n", FAULT),
        SelectFault::Endless => report(diagnostics, b"endless input\n", FAULT),
        SelectFault::Write { .. } => report(diagnostics, b"write fault\n", FAULT),
        SelectFault::Memory => report(diagnostics, b"want of memory\n", NO_MEMORY),
    }
}

/// Reads an archive and writes the archive of its records that meet the condition. Returns the exit
/// status: `DONE`; `REFUSED` if the input is no archive; `FAULT` if a device failed or the input
/// has no end; `NO_MEMORY` if memory ran out. A line says what was refused or failed, behind what
/// is selected of the entries before it.
pub fn select_archive<C: Condition, R: Input, W: Output, N: Output>(
    alloc: Global,
    condition: &C,
    input: &mut R,
    output: &mut W,
    diagnostics: &mut N,
) -> u8
    ensures { RanSelect (C.meets condition.now)
        (devices (R.state input.old) (W.state output.old) (N.state diagnostics.old))
        (devices (R.state input.new) (W.state output.new) (N.state diagnostics.new)) result }
{
    match select_stream(alloc, condition, input, output) {
        Ok(_) => DONE,
        Err(fault) => report_select_fault(alloc, fault, diagnostics),
    }
}
