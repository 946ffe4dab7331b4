//! `root`: the head of an archive's Merkle tree.

ghost use Rattle.std.specs.Prelude.{◌≡◌, IsErrOf, MatchResult};
ghost use Rattle.archive_sets.specs.Failures.{TellsFailures};
ghost use Rattle.octet_devices.specs.Transfers.{WritesAll};
ghost use Rattle.driver.specs.Devices.{devices};
ghost use Rattle.proof_engine.specs.Rooted.{RanRoot, Rooted, Stopped, head_text};

use crate::line::head_line;
use crate::rooting::root_of;
use archive_sets::SelectFault;
use archive_tree::TreeHead;
use driver::DONE;
use octet_devices::{Input, Output, WriteFault, write_all};
use set_engine::report_select_fault;
use std::alloc::Global;

fn put_head<W: Output>(writer: &mut W, head: &TreeHead) -> Result<(), WriteFault>
    ensures { WritesAll (W.state writer.old) (W.state writer.new) (head_text head.now) result }
{
    let line = head_line(head);
    write_all(writer, line.as_slice())
}

// Reads an archive, and writes the line of its head.
fn root_stream<R: Input, W: Output>(
    alloc: Global,
    reader: &mut R,
    writer: &mut W,
) -> Result<(), SelectFault>
    ensures outcome { MatchResult result
        (λ _. Rooted (R.state reader.old) (R.state reader.new) (W.state writer.old).taken
        (W.state writer.new).taken)
        (λ fault. Stopped fault (R.state reader.old) (R.state reader.new)
        (W.state writer.old).taken (W.state writer.new).taken) }
    ensures told { TellsFailures result (R.state reader.old) (R.state reader.new)
        (W.state writer.old) (W.state writer.new) }
    ensures memory { IsErrOf result SelectFault.Memory → (reader.new ≡ reader.old)
        × (writer.new ≡ writer.old) }
{
    match root_of(alloc, reader) {
        Ok(head) => match put_head(writer, &head) {
            Ok(()) => Ok(()),
            Err(WriteFault { sent }) => Err(SelectFault::Write { sent }),
        },
        Err(fault) => Err(fault),
    }
}

/// Reads an archive and writes the head of its Merkle tree: how many records it has, a space, their
/// Merkle tree hash (RFC 9162, section 2.1.1) in lower-case hexadecimal, and a line feed. The
/// leaves are the canonical records, without their counts. Returns the exit status: `DONE`;
/// `REFUSED` if the input is no archive; `FAULT` if a device failed or the input has no end;
/// `NO_MEMORY` if memory ran out. A line says what was refused or failed; nothing is written then,
/// unless it was the output that failed.
pub fn root_archive<R: Input, W: Output, N: Output>(
    alloc: Global,
    input: &mut R,
    output: &mut W,
    diagnostics: &mut N,
) -> u8
    ensures { RanRoot (devices (R.state input.old) (W.state output.old) (N.state diagnostics.old))
        (devices (R.state input.new) (W.state output.new) (N.state diagnostics.new)) result }
{
    match root_stream(alloc, input, output) {
        Ok(()) => DONE,
        Err(fault) => report_select_fault(alloc, fault, diagnostics),
    }
}
