//! How an exchange ended is told.

ghost use Rattle.std.specs.Prelude.{◌≡◌, ◌⊎◌, IfOk, List, ℕ};
ghost use Rattle.driver.specs.declared.status.TheConstants.{FAULT, NO_MEMORY};
ghost use Rattle.driver.specs.Ended.{TellsLine};
ghost use Rattle.site_engine.specs.Lines.{answer_line, summary_line, summary_status};
ghost use Rattle.site_engine.specs.Telling.{TellsFault, TellsOther};

use crate::fault::SiteFault;
use crate::summary::Summary;
use disk::DiskFault;
use driver::{FAULT, NO_MEMORY, report};
use octet_devices::Output;
use reconcile::{SetFault, Stopped};
use record_store::KeepFault;
use site_pipe::PipeFault;
use std::alloc::{AllocError, Global};
use store_addition::AddFault;
use store_engine::report_read_fault;
use store_site::SetReadFault;

const NO_MEMORY_LINE: &[u8] = b"want of memory\n";

// Reports a line, for which memory may have run out.
fn report_line<N: Output>(line: Result<Vec<u8>, AllocError>, status: u8, diagnostics: &mut N) -> u8
    ensures { (text : List ℕ) → IfOk line (λ line. line.items ≡ text)
        → TellsLine text status (N.state diagnostics.old) (N.state diagnostics.new) result }
{
    match line {
        Ok(line) => report(diagnostics, line.as_slice(), status),
        Err(_) => report(diagnostics, NO_MEMORY_LINE, NO_MEMORY),
    }
}

/// Reports what an exchange came to, and returns its status.
pub(crate) fn report_summary<N: Output>(alloc: Global, summary: &Summary, diagnostics: &mut N) -> u8
    ensures { TellsLine (summary_line summary.now) (summary_status summary.now)
        (N.state diagnostics.old) (N.state diagnostics.new) result }
{
    report_line(summary.line(alloc), summary.status(), diagnostics)
}

/// The same, of a site that answered.
pub(crate) fn report_answer<N: Output>(alloc: Global, summary: &Summary, diagnostics: &mut N) -> u8
    ensures { TellsLine (answer_line summary.now) (summary_status summary.now)
        (N.state diagnostics.old) (N.state diagnostics.new) result }
{
    report_line(summary.answer_line(alloc), summary.status(), diagnostics)
}

// The line on a pipe that failed, or on what the other site says.
fn pipe_line(fault: PipeFault) -> &'static [u8] {
    match fault {
        PipeFault::Input => b"the other site cannot be read from\n",
        PipeFault::Output => b"the other site cannot be written to\n",
        PipeFault::Ended => b"the other site ended the exchange\n",
        PipeFault::Failed => b"the other site failed\n",
        PipeFault::Refused => b"the other site takes no records\n",
        PipeFault::Version =>
            b"the other site does not speak version 1 of the exchange: does its shell print something first?\n",
        PipeFault::Lied => b"what the other site says cannot be so\n",
        PipeFault::TooMuch => b"more came than --room allows\n",
        PipeFault::Own(SetFault::Failed) => b"store fault\n",
        PipeFault::Own(SetFault::Memory) | PipeFault::Memory => NO_MEMORY_LINE,
    }
}

// The line on an exchange that stopped.
fn stopped_line(stopped: Stopped) -> &'static [u8] {
    match stopped {
        Stopped::Broken => b"the connection failed\n",
        Stopped::Lied => b"what the other site says cannot be so\n",
        Stopped::TooMany => b"too many requests\n",
        Stopped::TooMuch => b"more came than --room allows\n",
        Stopped::Own(SetFault::Failed) => b"store fault\n",
        Stopped::Own(SetFault::Memory) | Stopped::Memory => NO_MEMORY_LINE,
    }
}

// The line on a disk that did not take records.
fn add_line(fault: &AddFault) -> &'static [u8] {
    match fault {
        AddFault::Segment(KeepFault::Disk(DiskFault::Memory)) | AddFault::Memory => NO_MEMORY_LINE,
        AddFault::Segment(_) | AddFault::Input(_) => b"store fault\n",
    }
}

// The line on a fault of which no file is known.
fn fault_line(fault: &SiteFault) -> &'static [u8] {
    match fault {
        SiteFault::Pipe(fault) => pipe_line(*fault),
        SiteFault::Stopped(stopped) => stopped_line(*stopped),
        SiteFault::Add(fault) => add_line(fault),
        SiteFault::Set(SetReadFault::TooMuch) => b"more records than there is room for\n",
        SiteFault::Set(SetReadFault::Read(_)) | SiteFault::Set(SetReadFault::NoArchive) => {
            b"store fault\n"
        }
        SiteFault::Set(SetReadFault::Memory) | SiteFault::Memory => NO_MEMORY_LINE,
    }
}

// Reports a line of its own, and returns `FAULT`, or the status of want of memory.
fn report_words<N: Output>(line: &[u8], diagnostics: &mut N) -> u8
    ensures { TellsOther (N.state diagnostics.old) (N.state diagnostics.new) result }
{
    if line == NO_MEMORY_LINE {
        return report(diagnostics, line, NO_MEMORY);
    }
    report(diagnostics, line, FAULT)
}

/// Reports why an exchange did not come to its end, and returns its status.
pub(crate) fn report_fault<N: Output>(alloc: Global, fault: &SiteFault, diagnostics: &mut N) -> u8
    ensures { TellsFault fault.now (N.state diagnostics.old) (N.state diagnostics.new) result }
{
    match fault {
        SiteFault::Set(SetReadFault::Read(fault)) => report_read_fault(alloc, fault, diagnostics),
        _ => report_words(fault_line(fault), diagnostics),
    }
}
