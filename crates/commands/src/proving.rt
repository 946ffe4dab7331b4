//! Proofs on the records of a file.

ghost use Rattle.driver.specs.Devices.{devices};
ghost use Rattle.commands.specs.Proved.{RanConfirmFile, RanProveFile};

use crate::files::Files;
use archive_tree::TreeHead;
use driver::{FAULT, report};
use octet_devices::{Input, Output};
use proof_engine::{confirm_proofs, prove_archive};
use std::alloc::Global;

/// Writes proofs that the archive on the input has each of the records of a file, or that it has not.
/// The file is opened before the archive is read.
pub fn prove_file<R: Input, W: Output, N: Output, F: Files>(
    alloc: Global,
    records: &str,
    input: &mut R,
    output: &mut W,
    diagnostics: &mut N,
    files: &mut F,
) -> u8
    ensures { RanProveFile (F.stored files.old) records.now
        (devices (R.state input.old) (W.state output.old) (N.state diagnostics.old))
        (devices (R.state input.new) (W.state output.new) (N.state diagnostics.new)) result }
{
    let Some(mut records) = files.reader(records) else {
        return report(diagnostics, b"records no file\n", FAULT);
    };
    prove_archive(alloc, &mut records, input, output, diagnostics)
}

/// Says what the proofs on the input show of the records of a file, and of the archive with this head. The
/// file is opened before the proofs are read.
pub fn confirm_file<R: Input, W: Output, N: Output, F: Files>(
    alloc: Global,
    head: &TreeHead,
    records: &str,
    input: &mut R,
    output: &mut W,
    diagnostics: &mut N,
    files: &mut F,
) -> u8
    ensures { RanConfirmFile head.now (F.stored files.old) records.now
        (devices (R.state input.old) (W.state output.old) (N.state diagnostics.old))
        (devices (R.state input.new) (W.state output.new) (N.state diagnostics.new)) result }
{
    let Some(mut records) = files.reader(records) else {
        return report(diagnostics, b"records no file\n", FAULT);
    };
    confirm_proofs(alloc, head, &mut records, input, output, diagnostics)
}
