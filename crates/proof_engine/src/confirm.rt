//! `confirm`: what proofs show of records, without their archive.

ghost use Rattle.std.specs.Prelude.{◌≡◌, ◌≤◌, IfOk, IfSome, MatchResult, length};
ghost use Rattle.std.specs.List.{flat_map};
ghost use Rattle.std.specs.Option.{option_map};
ghost use Rattle.archive_proof.specs.Asking.{asked_entries};
ghost use Rattle.driver.specs.Devices.{devices};
ghost use Rattle.driver.specs.Ended.{Tells};
ghost use Rattle.proof_engine.specs.Confirmed.{answer_line, ConfirmFailures, Confirmed, IsNotRead, IsTrailing};
ghost use Rattle.proof_engine.specs.Confirmed.{RanConfirm, ReadFailures, Stopped, confirm_telling, shown_status};
ghost use Rattle.proof_engine.specs.Saying.{HasRead, IsSaid};

use crate::asking::{AskingFault, read_asked, report_asking_fault};
use crate::bounded::{TextFault, read_text};
use crate::line::trailing_line;
use archive_proof::{Answer, AskedRecord, PROOF_MAX, confirm_all};
use archive_tree::TreeHead;
use driver::{DONE, FAULT, NO_MEMORY, REFUSED, report};
use octet_devices::{Input, Output, WriteFault, write_all};
use std::alloc::{AllocError, Global};

/// Why not all was confirmed, or not all of it written.
#[derive(Clone, Copy, Debug, PartialEq, Eq)]
pub enum ConfirmFault {
    /// The records that are asked for were not read.
    Records(AskingFault),
    /// The reader of the proofs failed.
    Read,
    /// The text of the proofs has more than `PROOF_MAX` octets for each record, and as many again.
    TooLong,
    /// Octets follow the last proof, behind so many. What is shown was written.
    Trailing { at: u64 },
    /// The writer failed after `sent` octets.
    Write { sent: u64 },
    /// An allocation failed.
    Memory,
}

/// What is said of some records.
#[derive(Drop)]
pub struct Said {
    /// A line for each record.
    pub lines: Vec<u8>,
    /// The exit status, if no octets follow the last proof.
    pub status: u8,
    /// Behind how many octets others follow the last proof, if there are any.
    pub trailing: Option<u64>,
}

// The line on what is shown of a record.
fn line_of(answer: Answer) -> &'static [u8]
    ensures { result.now ≡ answer_line answer }
{
    match answer {
        Answer::Present => b"present\n",
        Answer::Absent => b"absent\n",
        Answer::NotShown => b"not shown\n",
    }
}

fn lines_of(alloc: Global, answers: &[Answer]) -> Result<Vec<u8>, AllocError>
    ensures { IfOk result (λ lines. lines.items ≡ flat_map answer_line answers.now) }
{
    let mut lines = Vec::new(alloc);
    for answer in answers {
        lines.extend_from_slice(line_of(*answer))?;
    }
    Ok(lines)
}

// `REFUSED` if nothing is shown of one of the records.
fn status_of(answers: &[Answer]) -> u8
    ensures { result ≡ shown_status answers.now }
{
    for answer in answers {
        if let Answer::NotShown = answer {
            return REFUSED;
        }
    }
    DONE
}

// Behind how many octets of a text others follow the last proof, if there is one for each record.
fn trailing_of(text: &[u8], left: Option<&[u8]>) -> Option<u64>
    requires { IfSome (option_map (λ s. s.now) left) (λ rest. length rest ≤ length text.now) }
    ensures { IsTrailing text.now (option_map (λ s. s.now) left.entry) result }
{
    let rest = left?;
    if rest.is_empty() {
        return None;
    }
    Some((text.len() - rest.len()) as u64)
}

// What a text of proofs says of some records.
fn say(
    alloc: Global,
    head: &TreeHead,
    asked: &[AskedRecord],
    text: &[u8],
) -> Result<Said, AllocError>
    ensures { IfOk result (IsSaid head.now (asked_entries asked.now) text.now) }
{
    let (answers, left) = confirm_all(alloc, head, asked, text)?;
    let lines = lines_of(alloc, answers.as_slice())?;
    Ok(Said {
        lines,
        status: status_of(answers.as_slice()),
        trailing: trailing_of(text, left),
    })
}

// Reads records and the proofs of them, and answers what is said of them.
fn read_said<Q: Input, R: Input>(
    alloc: Global,
    head: &TreeHead,
    records: &mut Q,
    reader: &mut R,
) -> Result<Said, ConfirmFault>
    ensures outcome { MatchResult result
        (λ said. HasRead head.now (Q.state records.old) (Q.state records.new)
        (R.state reader.old) (R.state reader.new) said)
        (λ fault. IsNotRead fault (Q.state records.old) (Q.state records.new)
        (R.state reader.old) (R.state reader.new)) }
    ensures told { ReadFailures result (Q.state records.old) (Q.state records.new)
        (R.state reader.old) (R.state reader.new) }
{
    let asked = match read_asked(alloc, records) {
        Ok(asked) => asked,
        Err(fault) => return Err(ConfirmFault::Records(fault)),
    };
    let text = match read_text(alloc, reader, (asked.len() + 1) * PROOF_MAX) {
        Ok(text) => text,
        Err(TextFault::Read) => return Err(ConfirmFault::Read),
        Err(TextFault::TooLong) => return Err(ConfirmFault::TooLong),
        Err(TextFault::Memory) => return Err(ConfirmFault::Memory),
    };
    match say(alloc, head, asked.as_slice(), text.as_slice()) {
        Ok(said) => Ok(said),
        Err(_) => Err(ConfirmFault::Memory),
    }
}

// Reads records and the proofs of them, and writes what is shown. Answers the status.
fn confirm_stream<Q: Input, R: Input, W: Output>(
    alloc: Global,
    head: &TreeHead,
    records: &mut Q,
    reader: &mut R,
    writer: &mut W,
) -> Result<u8, ConfirmFault>
    ensures outcome { MatchResult result
        (λ status. Confirmed head.now (Q.state records.old) (Q.state records.new)
        (R.state reader.old) (R.state reader.new) (W.state writer.old).taken
        (W.state writer.new).taken status)
        (λ fault. Stopped head.now fault (Q.state records.old) (Q.state records.new)
        (R.state reader.old) (R.state reader.new) (W.state writer.old) (W.state writer.new)) }
    ensures told { ConfirmFailures result (Q.state records.old) (Q.state records.new)
        (R.state reader.old) (R.state reader.new) (W.state writer.old) (W.state writer.new) }
{
    let said = match read_said(alloc, head, records, reader) {
        Ok(said) => said,
        Err(fault) => return Err(fault),
    };
    if let Err(WriteFault { sent }) = write_all(writer, said.lines.as_slice()) {
        return Err(ConfirmFault::Write { sent });
    }
    match said.trailing {
        Some(at) => Err(ConfirmFault::Trailing { at }),
        None => Ok(said.status),
    }
}

// Reports what stopped it, and returns the exit status.
fn report_confirm_fault<N: Output>(alloc: Global, fault: ConfirmFault, diagnostics: &mut N) -> u8
    ensures { Tells confirm_telling fault (N.state diagnostics.old) (N.state diagnostics.new)
        result }
{
    match fault {
        ConfirmFault::Records(fault) => report_asking_fault(alloc, fault, diagnostics),
        ConfirmFault::Read => report(diagnostics, b"read fault\n", FAULT),
        ConfirmFault::TooLong => report(diagnostics, b"too-long\n", FAULT),
        ConfirmFault::Trailing { at } => {
            let line = trailing_line(at);
            report(diagnostics, line.as_slice(), REFUSED)
        }
        ConfirmFault::Write { .. } => report(diagnostics, b"write fault\n", FAULT),
        ConfirmFault::Memory => report(diagnostics, b"want of memory\n", NO_MEMORY),
    }
}

/// Reads the text of counted records, as `prove_archive` does, then that of their proofs, as
/// docs/PROOF_FORMAT.md has it, and writes what each shows of its record to someone with this head: a
/// line `present`, `absent` or `not shown` for each record, in their order. If a proof is missing or
/// cannot be read, nothing is shown of its record and of the later ones. Of the proofs at most
/// `PROOF_MAX` octets for each record, and as many again, are read.
///
/// Returns the exit status: `DONE`; `REFUSED` if nothing is shown of one of the records, if octets
/// follow the last proof (a line `trailing` tells how many come before them), or if the text of the
/// records is none; `FAULT` if a device failed, or a text goes on behind its bounds; `NO_MEMORY` if
/// memory ran out. A line says what was refused or failed, behind `records ` if it is the text of the
/// records.
pub fn confirm_proofs<Q: Input, R: Input, W: Output, N: Output>(
    alloc: Global,
    head: &TreeHead,
    records: &mut Q,
    input: &mut R,
    output: &mut W,
    diagnostics: &mut N,
) -> u8
    ensures { RanConfirm head.now (Q.state records.old) (Q.state records.new)
        (devices (R.state input.old) (W.state output.old) (N.state diagnostics.old))
        (devices (R.state input.new) (W.state output.new) (N.state diagnostics.new)) result }
{
    match confirm_stream(alloc, head, records, input, output) {
        Ok(status) => status,
        Err(fault) => report_confirm_fault(alloc, fault, diagnostics),
    }
}
