//! The records that are asked for, from an input.

ghost use Rattle.std.specs.Prelude.{MatchResult};
ghost use Rattle.archive_proof.specs.Asking.{asked_entries};
ghost use Rattle.driver.specs.Ended.{Tells};
ghost use Rattle.proof_engine.specs.Asking.{AskingFailures, HasAsked, IsNotAsked, asking_telling};

use crate::bounded::{TextFault, read_text};
use archive_proof::{AskedRecord, RecordsFault, read_records};
use archive_reports::report_archive_fault;
use archive_text::ArchiveFault;
use driver::{FAULT, NO_MEMORY, REFUSED, report};
use octet_devices::{Input, Output};
use std::alloc::Global;

/// The most octets of the text of the records that are asked for.
pub const RECORDS_MAX: usize = 16_777_216;

/// Why records that are asked for were not read.
#[derive(Clone, Copy, Debug, PartialEq, Eq)]
pub enum AskingFault {
    /// The reader failed.
    Read,
    /// Their text has more than `RECORDS_MAX` octets.
    TooLong,
    /// Their text is none of counted records, for this reason and there.
    Bad(ArchiveFault),
    /// There are more than `ASKED_MAX` of them.
    TooMany,
    /// An allocation failed.
    Memory,
}

/// Reads the records that are asked for, to the end of their text.
pub(crate) fn read_asked<R: Input>(
    alloc: Global,
    reader: &mut R,
) -> Result<Vec<AskedRecord>, AskingFault>
    ensures outcome { MatchResult result
        (λ asked. HasAsked (R.state reader.old) (R.state reader.new) (asked_entries asked.items))
        (λ fault. IsNotAsked fault (R.state reader.old) (R.state reader.new)) }
    ensures told { AskingFailures result (R.state reader.old).failures
        (R.state reader.new).failures }
{
    let text = match read_text(alloc, reader, RECORDS_MAX) {
        Ok(text) => text,
        Err(TextFault::Read) => return Err(AskingFault::Read),
        Err(TextFault::TooLong) => return Err(AskingFault::TooLong),
        Err(TextFault::Memory) => return Err(AskingFault::Memory),
    };
    match read_records(alloc, text.as_slice()) {
        Ok(asked) => Ok(asked),
        Err(RecordsFault::Bad(fault)) => Err(AskingFault::Bad(fault)),
        Err(RecordsFault::TooMany) => Err(AskingFault::TooMany),
        Err(RecordsFault::Memory) => Err(AskingFault::Memory),
    }
}

/// Reports why the records that are asked for were not read, and returns the exit status.
pub(crate) fn report_asking_fault<N: Output>(
    alloc: Global,
    fault: AskingFault,
    diagnostics: &mut N,
) -> u8
    ensures { Tells asking_telling fault (N.state diagnostics.old) (N.state diagnostics.new) result }
{
    match fault {
        AskingFault::Read => report(diagnostics, b"records read fault\n", FAULT),
        AskingFault::TooLong => report(diagnostics, b"records too-long\n", FAULT),
        AskingFault::Bad(fault) => report_archive_fault(
            alloc,
            b"records ",
            fault,
            REFUSED,
            diagnostics,
        ),
        AskingFault::TooMany => report(diagnostics, b"records too-many\n", FAULT),
        AskingFault::Memory => report(diagnostics, b"want of memory\n", NO_MEMORY),
    }
}
