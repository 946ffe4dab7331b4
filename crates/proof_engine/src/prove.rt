//! `prove`: proofs that records are in an archive, or that they are not.

ghost use Rattle.std.specs.Prelude.{MatchResult};
ghost use Rattle.driver.specs.Devices.{devices};
ghost use Rattle.driver.specs.Ended.{Tells};
ghost use Rattle.proof_engine.specs.Proved.{ProveFailures, Proved, RanProve, Stopped, prove_telling};

use crate::asking::{AskingFault, read_asked, report_asking_fault};
use crate::proving::prove_asked;
use archive_sets::SelectFault;
use driver::DONE;
use octet_devices::{Input, Output, WriteFault, write_all};
use set_engine::report_select_fault;
use std::alloc::Global;

/// Why no proofs were written, or not all of them.
#[derive(Clone, Copy, Debug, PartialEq, Eq)]
pub enum ProveFault {
    /// The records that are asked for were not read.
    Records(AskingFault),
    /// The archive was not read, the writer failed, or memory ran out.
    Archive(SelectFault),
}

// Reads the records that are asked for, then an archive, and writes their proofs.
fn prove_stream<Q: Input, R: Input, W: Output>(
    alloc: Global,
    records: &mut Q,
    reader: &mut R,
    writer: &mut W,
) -> Result<(), ProveFault>
    ensures outcome { MatchResult result
        (λ _. Proved (Q.state records.old) (Q.state records.new) (R.state reader.old)
        (R.state reader.new) (W.state writer.old).taken (W.state writer.new).taken)
        (λ fault. Stopped fault (Q.state records.old) (Q.state records.new) (R.state reader.old)
        (R.state reader.new) (W.state writer.old) (W.state writer.new)) }
    ensures told { ProveFailures result (Q.state records.old) (Q.state records.new)
        (R.state reader.old) (R.state reader.new) (W.state writer.old) (W.state writer.new) }
{
    let asked = match read_asked(alloc, records) {
        Ok(asked) => asked,
        Err(fault) => return Err(ProveFault::Records(fault)),
    };
    let text = match prove_asked(alloc, asked, reader) {
        Ok(text) => text,
        Err(fault) => return Err(ProveFault::Archive(fault)),
    };
    match write_all(writer, text.as_slice()) {
        Ok(()) => Ok(()),
        Err(WriteFault { sent }) => Err(ProveFault::Archive(SelectFault::Write { sent })),
    }
}

// Reports what stopped it, and returns the exit status.
fn report_prove_fault<N: Output>(alloc: Global, fault: ProveFault, diagnostics: &mut N) -> u8
    ensures { Tells prove_telling fault (N.state diagnostics.old) (N.state diagnostics.new)
        result }
{
    match fault {
        ProveFault::Records(fault) => report_asking_fault(alloc, fault, diagnostics),
        ProveFault::Archive(fault) => report_select_fault(alloc, fault, diagnostics),
    }
}

/// Reads the text of counted records (RFC 6587, section 3.4.1), each in any spelling, at most
/// `ASKED_MAX` of them and `RECORDS_MAX` octets, then an archive, and writes for each of the records,
/// in their order, the proof that it is in the archive, or that it is not, as docs/PROOF_FORMAT.md has
/// it. Returns the exit status: `DONE`; `REFUSED` if the text is none of records, or the input no
/// archive; `FAULT` if a device failed, the text goes on behind its bounds, or the input has no end;
/// `NO_MEMORY` if memory ran out. A line says what was refused or failed, behind `records ` if it is
/// the text of the records; nothing is written then, unless it was the output that failed.
pub fn prove_archive<Q: Input, R: Input, W: Output, N: Output>(
    alloc: Global,
    records: &mut Q,
    input: &mut R,
    output: &mut W,
    diagnostics: &mut N,
) -> u8
    ensures { RanProve (Q.state records.old) (Q.state records.new)
        (devices (R.state input.old) (W.state output.old) (N.state diagnostics.old))
        (devices (R.state input.new) (W.state output.new) (N.state diagnostics.new)) result }
{
    match prove_stream(alloc, records, input, output) {
        Ok(()) => DONE,
        Err(fault) => report_prove_fault(alloc, fault, diagnostics),
    }
}
