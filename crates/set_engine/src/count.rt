//! `count`: the records of an archive, by what they have in their fields.

ghost use Rattle.driver.specs.Devices.{devices};
ghost use Rattle.set_engine.specs.Counting.{RanCount};

use crate::select::report_select_fault;
use archive_counts::{CountOptions, count_stream};
use driver::DONE;
use octet_devices::{Input, Output};
use std::alloc::Global;

/// Reads an archive and writes how many records it has of each of the words that they have under
/// the keys. Returns the exit status: `DONE`; `REFUSED` if the input is no archive; `FAULT` if a
/// device failed or the input has no end; `NO_MEMORY` if memory ran out. A line says what was
/// refused or failed; nothing is written then, unless it was the output that failed.
pub fn count_archive<R: Input, W: Output, N: Output>(
    alloc: Global,
    options: &CountOptions,
    input: &mut R,
    output: &mut W,
    diagnostics: &mut N,
) -> u8
    ensures { RanCount options.now
        (devices (R.state input.old) (W.state output.old) (N.state diagnostics.old))
        (devices (R.state input.new) (W.state output.new) (N.state diagnostics.new)) result }
{
    match count_stream(alloc, options, input, output) {
        Ok(()) => DONE,
        Err(fault) => report_select_fault(alloc, fault, diagnostics),
    }
}
