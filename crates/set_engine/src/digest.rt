//! `digest`: the digests of the periods of an archive.

ghost use Rattle.driver.specs.Devices.{devices};
ghost use Rattle.set_engine.specs.Digesting.{RanDigest, RanRootedDigest};

use crate::select::report_select_fault;
use archive_digest::{Period, digest_stream, digest_stream_with_roots};
use driver::DONE;
use octet_devices::{Input, Output};
use std::alloc::Global;

/// Reads an archive and writes a line for each period that has records, and a last one for the
/// whole. Returns the exit status: `DONE`; `REFUSED` if the input is no archive; `FAULT` if a
/// device failed or the input has no end; `NO_MEMORY` if memory ran out. A line says what was
/// refused or failed, behind the lines of the periods that ended before that of the last entry.
pub fn digest_archive<R: Input, W: Output, N: Output>(
    alloc: Global,
    period: Period,
    input: &mut R,
    output: &mut W,
    diagnostics: &mut N,
) -> u8
    ensures { RanDigest period
        (devices (R.state input.old) (W.state output.old) (N.state diagnostics.old))
        (devices (R.state input.new) (W.state output.new) (N.state diagnostics.new)) result }
{
    match digest_stream(alloc, period, input, output) {
        Ok(_) => DONE,
        Err(fault) => report_select_fault(alloc, fault, diagnostics),
    }
}

/// Writes the digest of [`digest_archive`], where each line ends with a space and the root of its
/// records: their Merkle tree hash (RFC 9162, section 2.1.1) in lower-case hexadecimal, as `root`
/// writes it of their archive. Returns the exit status as [`digest_archive`] does.
pub fn digest_archive_with_roots<R: Input, W: Output, N: Output>(
    alloc: Global,
    period: Period,
    input: &mut R,
    output: &mut W,
    diagnostics: &mut N,
) -> u8
    ensures { RanRootedDigest period
        (devices (R.state input.old) (W.state output.old) (N.state diagnostics.old))
        (devices (R.state input.new) (W.state output.new) (N.state diagnostics.new)) result }
{
    match digest_stream_with_roots(alloc, period, input, output) {
        Ok(_) => DONE,
        Err(fault) => report_select_fault(alloc, fault, diagnostics),
    }
}
