//! How a reading ends, and what is told of it.

ghost use Rattle.std.specs.Prelude.{◌≡◌};
ghost use Rattle.read_engine.specs.Commands.{TellsOutcome, TellsStop};
ghost use Rattle.read_engine.specs.Readings.{both_of};

use crate::choosing::Written;
use driver::{DONE, FAULT, NO_MEMORY, REFUSED, Stopped, report};
use octet_devices::Output;
use std::alloc::Global;
use store_engine::report_read_fault;

// Reports why a session was stopped, and returns the exit status.
fn report_stop<N: Output>(stopped: Stopped, diagnostics: &mut N) -> u8
    ensures { TellsStop stopped (N.state diagnostics.old) (N.state diagnostics.new) result }
{
    match stopped {
        Stopped::Read => report(diagnostics, b"read fault\n", FAULT),
        Stopped::Endless => report(diagnostics, b"endless input\n", FAULT),
        Stopped::Write => report(diagnostics, b"write fault\n", FAULT),
        Stopped::Diagnostics => FAULT,
        Stopped::Memory => report(diagnostics, b"want of memory\n", NO_MEMORY),
    }
}

/// Reports why a store was not read, or its records not written, and returns the exit status: `DONE` if both were
/// done and nothing was refused.
pub(crate) fn report_written<N: Output>(alloc: Global, written: &Written, diagnostics: &mut N) -> u8
    ensures { TellsOutcome written.now.reading written.now.writing (N.state diagnostics.old)
        (N.state diagnostics.new) result }
{
    let is_refused = match written.writing {
        Ok(is_refused) => is_refused,
        Err(stopped) => return report_stop(stopped, diagnostics),
    };
    match &written.reading {
        Err(fault) => report_read_fault(alloc, fault, diagnostics),
        Ok(()) if is_refused => REFUSED,
        Ok(()) => DONE,
    }
}

/// What became of two sessions of which the first wrote to the second: what stopped the second one stopped the
/// first.
pub(crate) fn both(
    first: Result<bool, Stopped>,
    second: Result<bool, Stopped>,
) -> Result<bool, Stopped>
    ensures { result ≡ both_of first second }
{
    let second = second?;
    let first = first?;
    Ok(first || second)
}
