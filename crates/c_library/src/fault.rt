//! Why a call refused, as C sees it.

ghost use Rattle.std.specs.Prelude.{◌≡◌};
ghost use Rattle.archive_text.specs.declared.limits.TheConstants.{ENTRY_MAX};
ghost use Rattle.c_library.specs.Faults.{archive_fault, field_number, plain_fault, record_fault};

use crate::numbers::{
    APP_NAME, BAD_ENTRY, BAD_FRAME, ENTRY_TOO_LONG, HOSTNAME, INSTANT_RANGE, MESSAGE, MSG_ID,
    NO_FIELD, NOT_ASCENDING, NOT_CANONICAL, PRIORITY, PROC_ID, RECORD_TOO_LONG, REPEATED_ID,
    STRUCTURED_DATA, SYNTAX, TIMESTAMP, VERSION,
};
use archive_text::{ArchiveFault, ENTRY_MAX};
use syslog_grammar::{Fault, Field};

/// Why a call refused.
#[repr(C)]
#[derive(Clone, Copy, Debug, PartialEq, Eq)]
pub struct SyslogboxFault {
    /// What is wrong: a number of `enum syslogbox_kind`.
    pub kind: u32,
    /// Where: a number of `enum syslogbox_field`, 0 if the kind names no field.
    pub field: u32,
    /// The offset of an octet, or how many there are or must be.
    pub offset: u64,
}

/// The number of a field.
fn number_of(field: Field) -> u32
    ensures { result ≡ field_number field }
{
    match field {
        Field::Priority => PRIORITY,
        Field::Version => VERSION,
        Field::Timestamp => TIMESTAMP,
        Field::Hostname => HOSTNAME,
        Field::AppName => APP_NAME,
        Field::ProcId => PROC_ID,
        Field::MsgId => MSG_ID,
        Field::StructuredData => STRUCTURED_DATA,
        Field::Message => MESSAGE,
    }
}

impl SyslogboxFault {
    /// A fault of this kind without a field.
    pub fn new(kind: u32, offset: u64) -> SyslogboxFault
        ensures { result ≡ plain_fault kind offset }
    {
        SyslogboxFault {
            kind,
            field: NO_FIELD,
            offset,
        }
    }

    /// The fault of more octets than an entry of an archive may have, of which no record is read.
    pub fn too_long() -> SyslogboxFault
        ensures { result ≡ plain_fault 15 ENTRY_MAX }
    {
        SyslogboxFault::new(RECORD_TOO_LONG, ENTRY_MAX as u64)
    }

    /// Why octets are no record.
    pub fn of_record(fault: Fault) -> SyslogboxFault
        ensures { result ≡ record_fault fault }
    {
        match fault {
            Fault::Syntax { field, offset } => SyslogboxFault {
                kind: SYNTAX,
                field: number_of(field),
                offset: offset as u64,
            },
            Fault::InstantRange { offset } => SyslogboxFault::new(INSTANT_RANGE, offset as u64),
            Fault::RepeatedId { offset } => SyslogboxFault::new(REPEATED_ID, offset as u64),
        }
    }

    /// Why a text is no archive, on this side.
    pub fn of_archive(side: u32, fault: ArchiveFault) -> SyslogboxFault
        ensures { result ≡ archive_fault side fault }
    {
        let (kind, offset) = match fault {
            ArchiveFault::BadFrame { at } => (BAD_FRAME, at),
            ArchiveFault::EntryTooLong { at } => (ENTRY_TOO_LONG, at),
            ArchiveFault::BadEntry { at, fault: _ } => (BAD_ENTRY, at),
            ArchiveFault::NotCanonical { at } => (NOT_CANONICAL, at),
            ArchiveFault::NotAscending { at } => (NOT_ASCENDING, at),
        };
        SyslogboxFault {
            kind,
            field: side,
            offset,
        }
    }
}
