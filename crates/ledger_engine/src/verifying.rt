//! A ledger is compared with the files beside it, and what is found is told.
ghost use Rattle.std.specs.Prelude.{◌≡◌, IfErr, IfOk};
ghost use Rattle.ledger_engine.specs.Findings.{IsFoundOf};
ghost use Rattle.ledger_engine.specs.Known.{ledger_text};
ghost use Rattle.ledger_engine.specs.Verifying.{RanLedger, TellsFound};
ghost use Rattle.store_reading.specs.Causes.{IsCause, open_causes};

use crate::findings::{LedgerFindings, examine_ledger};
use crate::lines::finding_lines;
use driver::REFUSED;
use octet_devices::{Output, write_all};
use std::alloc::Global;
use store_engine::report_read_fault;
use store_reading::{Folder, ReadFault};

// How often the same has to be found of a ledger, one time after the other: a segment that gets its name or goes
// meanwhile is found once or twice, and what is wrong each time.
const LOOKS: usize = 5;

// How often a ledger is compared with the files at most, where something else is found each time.
const LOOKS_MAX: usize = 100;

/// What waits between two looks at a ledger.
pub trait Pause {
    /// Waits a while.
    fn pause(&mut self);
}

// What is wrong with the ledger of a store. It is looked at again where a segment is found that may just have got its
// name, or just have gone.
fn examine<F: Folder, P: Pause>(
    alloc: Global,
    folder: &mut F,
    against: Option<&[u8]>,
    pause: &mut P,
) -> Result<LedgerFindings, ReadFault>
    ensures found { F.tells folder.new → IfOk result (IsFoundOf (F.files folder.old) against.entry) }
    ensures same { F.tells folder.new → F.files folder.new ≡ F.files folder.old }
    ensures told { F.tells folder.new → F.tells folder.old }
    ensures cause { IfErr result (IsCause (open_causes (F.has_failed folder.new) ledger_text)) }
{
    let mut found = examine_ledger(alloc, folder, against)?;
    let mut times = 1usize;
    'looks: for _look in 1..LOOKS_MAX {
        if !found.may_pass() || times >= LOOKS {
            return Ok(found);
        }
        pause.pause();
        let next = examine_ledger(alloc, folder, against)?;
        times = if next.is_like(&found) {
            times.saturating_add(1)
        } else {
            1
        };
        found = next;
    }
    Ok(found)
}

// Writes the lines on what was found. Returns the exit status.
fn tell<W: Output, N: Output>(
    alloc: Global,
    found: &LedgerFindings,
    status: u8,
    output: &mut W,
    diagnostics: &mut N,
) -> u8
    ensures { TellsFound found.now status (W.state output.old) (W.state output.new)
        (N.state diagnostics.old) (N.state diagnostics.new) result }
{
    if found.is_empty() {
        return status;
    }
    let Ok(lines) = finding_lines(alloc, found) else {
        return report_read_fault(alloc, &ReadFault::Memory, diagnostics);
    };
    match write_all(output, &lines) {
        Ok(()) => REFUSED,
        Err(_) => report_read_fault(alloc, &ReadFault::Write, diagnostics),
    }
}

/// Writes a line for each thing that is wrong with the ledger of a store, and with the files beside it. Returns the exit
/// status: the one that is given where nothing is found, and nothing is written then; `REFUSED` where something is; that of
/// the fault, which is told, if it could not be found or written.
pub fn verify_ledger<F: Folder, P: Pause, W: Output, N: Output>(
    alloc: Global,
    folder: &mut F,
    against: Option<&[u8]>,
    status: u8,
    pause: &mut P,
    output: &mut W,
    diagnostics: &mut N,
) -> u8
    ensures ran { RanLedger (F.tells folder.new) (F.has_failed folder.new) (F.files folder.old)
        against.entry status (W.state output.old) (W.state output.new) (N.state diagnostics.old)
        (N.state diagnostics.new) result }
    ensures same { F.tells folder.new → F.files folder.new ≡ F.files folder.old }
    ensures told { F.tells folder.new → F.tells folder.old }
{
    match examine(alloc, folder, against, pause) {
        Ok(found) => tell(alloc, &found, status, output, diagnostics),
        Err(fault) => report_read_fault(alloc, &fault, diagnostics),
    }
}
