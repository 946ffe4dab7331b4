//! The records that are asked for, as a text.

ghost use Rattle.std.specs.Prelude.{◌≡◌, ◌∷◌, ◌++◌, [], ◌+◌, ◌<◌, ◌≤◌, ◌^◌, IfErr, IfOk, length};
ghost use Rattle.archive_text.specs.Entries.{Entry};
ghost use Rattle.archive_proof.specs.Asking.{AreAskedIn, IsFirstAsked, IsNoAsked, IsRecordsCause};
ghost use Rattle.archive_proof.specs.Asking.{IsRecordsFault, asked_entries, asked_entry};

use crate::asked::{AskFault, AskedRecord};
use archive_text::{ArchiveFault, ENTRY_MAX, counted_octets};
use std::alloc::Global;
use thiserror::Error;

/// The most records that are asked for at once.
pub const ASKED_MAX: usize = 1024;

/// Why a text is none of records that are asked for.
#[derive(Clone, Copy, Debug, PartialEq, Eq, Error)]
pub enum RecordsFault {
    /// It is no text of counted records, for this reason and there.
    #[error("{0}")]
    Bad(ArchiveFault),
    /// It goes on behind `ASKED_MAX` records.
    #[error("more than {ASKED_MAX} records")]
    TooMany,
    /// An allocation failed.
    #[error("out of memory")]
    Memory,
}

// The record that a text begins with, in whichever spelling, and what follows it. Positions of the
// fault count from the start of this text.
fn first_asked(alloc: Global, text: &[u8]) -> Result<(AskedRecord, &[u8]), RecordsFault>
    ensures ok { IfOk result (λ x. IsFirstAsked text.now (asked_entry x.0) x.1.now) }
    ensures err { IfErr result (IsNoAsked text.now) }
{
    let (octets, rest) = match counted_octets(ENTRY_MAX as u64, text) {
        Ok(counted) => counted,
        Err(fault) => return Err(RecordsFault::Bad(fault)),
    };
    match AskedRecord::read(alloc, octets) {
        Ok(record) => Ok((record, rest)),
        Err(AskFault::Bad(fault)) => Err(RecordsFault::Bad(ArchiveFault::BadEntry {
            at: 0,
            fault,
        })),
        Err(AskFault::Memory) => Err(RecordsFault::Memory),
    }
}

// Puts the record that a text begins with behind the others, and gives what follows it. The text of
// the others has `offset` octets.
fn push_first<'a>(
    alloc: Global,
    asked: &mut Vec<AskedRecord>,
    text: &'a [u8],
    offset: u64,
) -> Result<&'a [u8], RecordsFault>
    requires fits { offset + length text.now < 2 ^ 64 }
    requires some { 0 < length text.now }
    ensures ok { IfOk result (λ rest. (e : Entry) × IsFirstAsked text.now e rest.now
        × (asked_entries asked.new.items ≡ asked_entries asked.old.items ++ e ∷ [])) }
    ensures few { IfOk result (λ _. length asked.new.items ≤ ASKED_MAX) }
    ensures err { IfErr result (IsRecordsCause offset (length asked.old.items) text.now) }
{
    if asked.len() >= ASKED_MAX {
        return Err(RecordsFault::TooMany);
    }
    let (record, rest) = match first_asked(alloc, text) {
        Ok(first) => first,
        Err(RecordsFault::Bad(fault)) => return Err(RecordsFault::Bad(fault.later(offset))),
        Err(_) => return Err(RecordsFault::Memory),
    };
    match asked.push(record) {
        Ok(()) => Ok(rest),
        Err(_) => Err(RecordsFault::Memory),
    }
}

/// The records of a text, each with its length before it (RFC 6587, section 3.4.1) and in whichever
/// spelling; at most `ASKED_MAX` of them. The refusals are those of [`RecordsFault`].
pub fn read_records(alloc: Global, text: &[u8]) -> Result<Vec<AskedRecord>, RecordsFault>
    ensures ok { IfOk result (λ asked. AreAskedIn text.now (asked_entries asked.items) []) }
    ensures few { IfOk result (λ asked. length asked.items ≤ ASKED_MAX) }
    ensures err { IfErr result (IsRecordsFault text.now) }
{
    let mut asked = Vec::new(alloc);
    let mut rest = text;
    'records: while !rest.is_empty() {
        rest = match push_first(alloc, &mut asked, rest, (text.len() - rest.len()) as u64) {
            Ok(behind) => behind,
            Err(fault) => return Err(fault),
        };
    }
    Ok(asked)
}
