//! `merge`: two archives are joined.

ghost use Rattle.std.specs.Prelude.{◌⊎◌, codes};
ghost use Rattle.driver.specs.Devices.{Reports};
ghost use Rattle.archive_engine.specs.Merged.{IsRefusal, RanMerge, merge_devices, merge_line, merge_status};

use archive_reports::report_archive_fault;
use archive_streams::{MergeFault, Side, merge_streams};
use driver::{DONE, FAULT, NO_MEMORY, REFUSED, report};
use octet_devices::{Input, Output};
use std::alloc::Global;

// Reports what stopped the joining, and returns the exit status.
fn report_merge_fault<N: Output>(alloc: Global, fault: MergeFault, diagnostics: &mut N) -> u8
    ensures { Reports (merge_line fault) (merge_status fault) (N.state diagnostics.old)
        (N.state diagnostics.new) result
        ⊎ (IsRefusal fault × Reports (codes "want of memory\n") NO_MEMORY
        (N.state diagnostics.old) (N.state diagnostics.new) result) }
{
    match fault {
        MergeFault::Left(fault) => report_archive_fault(
            alloc,
            b"left ",
            fault,
            REFUSED,
            diagnostics,
        ),
        MergeFault::Right(fault) => report_archive_fault(
            alloc,
            b"right ",
            fault,
            REFUSED,
            diagnostics,
        ),
        MergeFault::Read(Side::Left) => report(diagnostics, b"left read fault\n", FAULT),
        MergeFault::Read(Side::Right) => report(diagnostics, b"right read fault\n", FAULT),
        MergeFault::Endless(Side::Left) => report(diagnostics, b"left endless input\n", FAULT),
        MergeFault::Endless(Side::Right) => report(diagnostics, b"right endless input\n", FAULT),
        MergeFault::Write { .. } => report(diagnostics, b"write fault\n", FAULT),
        MergeFault::Memory => report(diagnostics, b"want of memory\n", NO_MEMORY),
    }
}

/// Joins two archives and writes the text of the union. Returns the exit status: `DONE` if both are
/// archives, else `REFUSED`; `FAULT` if a device failed or an input has no end; `NO_MEMORY` if
/// memory ran out. A line says what was refused or failed, and on which side.
pub fn merge_archives<R1: Input, R2: Input, W: Output, N: Output>(
    alloc: Global,
    left: &mut R1,
    right: &mut R2,
    output: &mut W,
    diagnostics: &mut N,
) -> u8
    ensures { RanMerge
        (merge_devices (R1.state left.old) (R2.state right.old) (W.state output.old)
        (N.state diagnostics.old))
        (merge_devices (R1.state left.new) (R2.state right.new) (W.state output.new)
        (N.state diagnostics.new)) result }
{
    match merge_streams(alloc, left, right, output) {
        Ok(_) => DONE,
        Err(fault) => report_merge_fault(alloc, fault, diagnostics),
    }
}
