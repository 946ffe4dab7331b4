//! A record of its fields, in its canonical form.

ghost use Rattle.std.specs.Prelude.{◌≡◌, ◌*◌, ◌+◌, ◌<◌, MatchOption, MatchResult};
ghost use Rattle.syslog_value.specs.Parts.{IsRecord};
ghost use Rattle.c_library.specs.Answers.{Answers};
ghost use Rattle.c_library.specs.Building.{BuiltOf, IsDataOf, IsDataRefused, IsMessageOf, IsMessageRefused};
ghost use Rattle.c_library.specs.Building.{IsNotBuilt, IsPriorityOf, IsRecordOf, IsRefused, IsTimeOf, IsTimeRefused};
ghost use Rattle.c_library.specs.Building.{IsWordOf, IsWordRefused};
ghost use Rattle.c_library.specs.Faults.{field_fault, memory_fault};

use crate::answer::answer;
use crate::fault::SyslogboxFault;
use crate::items::{ItemsFault, SyslogboxItem, elements_of};
use crate::numbers::{
    APP_NAME, BAD_FIELD, BAD_ITEM, HOSTNAME, INSTANT_RANGE, MESSAGE, MSG_ID, NO_MEMORY, NOT_UTF8,
    PRIORITY, PROC_ID, REPEATED_ID, STRUCTURED_DATA,
};
use archive_text::ENTRY_MAX;
use std::alloc::Global;
use syslog_grammar::{canon, utf8};
use syslog_value::{Instant, Message, Priority, Record, StructuredData, Word, WordFault};

/// The fields of a record. A word without octets is NILVALUE.
#[repr(C)]
#[derive(Clone, Copy)]
pub struct SyslogboxFields<'a> {
    /// The instant in microseconds from 1970-01-01T00:00:00Z.
    pub time: i64,
    /// Whether there is an instant; if this is 0, there is none.
    pub has_time: u32,
    /// The facility, 0 to 23.
    pub facility: u32,
    /// The severity, 0 to 7.
    pub severity: u32,
    /// Whether the message is a text behind the BOM; if this is 0, it is any octets.
    pub has_bom: u32,
    /// HOSTNAME.
    pub hostname: &'a [u8],
    /// APP-NAME.
    pub app_name: &'a [u8],
    /// PROCID.
    pub proc_id: &'a [u8],
    /// MSGID.
    pub msg_id: &'a [u8],
    /// The structured data: of each element its id, then the name and the value of each parameter.
    pub items: &'a [SyslogboxItem<'a>],
    /// The message, without the BOM.
    pub message: &'a [u8],
}

fn no_memory() -> SyslogboxFault
    ensures { result ≡ memory_fault }
{
    SyslogboxFault::new(NO_MEMORY, 0)
}

/// The fault of a field that may not be so, from an octet on.
pub fn bad_field(field: u32, offset: usize) -> SyslogboxFault
    ensures { result ≡ field_fault field offset }
{
    SyslogboxFault {
        kind: BAD_FIELD,
        field,
        offset: offset as u64,
    }
}

/// The priority of a facility and a severity.
fn priority_of(facility: u32, severity: u32) -> Option<Priority>
    ensures { MatchOption result (¬ ((facility < 24) × (severity < 8)))
        (IsPriorityOf facility severity) }
{
    if facility > 23 || severity > 7 {
        return None;
    }
    Priority::from_value((facility * 8 + severity) as u8)
}

/// The instant, if there is one.
pub fn instant_of(has_time: u32, time: i64) -> Result<Option<Instant>, SyslogboxFault>
    ensures { MatchResult result (IsTimeOf has_time time) (IsTimeRefused has_time time) }
{
    if has_time == 0 {
        return Ok(None);
    }
    match Instant::from_micros(time) {
        Some(instant) => Ok(Some(instant)),
        None => Err(SyslogboxFault::new(INSTANT_RANGE, 0)),
    }
}

/// The word of the octets of a field, if there are any.
fn word_of<const N: usize>(
    alloc: Global,
    field: u32,
    octets: &[u8],
) -> Result<Option<Word<N>>, SyslogboxFault>
    ensures { MatchResult result (IsWordOf N octets.now) (IsWordRefused N field octets.now) }
{
    if octets.is_empty() {
        return Ok(None);
    }
    match Word::new(alloc, octets) {
        Ok(word) => Ok(Some(word)),
        Err(WordFault::BadOctet { offset }) => Err(bad_field(field, offset)),
        Err(WordFault::TooLong) => Err(bad_field(field, N)),
        Err(WordFault::Empty | WordFault::Nil) => Err(bad_field(field, 0)),
        Err(WordFault::Memory) => Err(no_memory()),
    }
}

/// The structured data of items.
fn data_of(alloc: Global, items: &[SyslogboxItem<'_>]) -> Result<StructuredData, SyslogboxFault>
    ensures { MatchResult result (IsDataOf items.now) (IsDataRefused items.now) }
{
    match elements_of(alloc, items) {
        Ok(elements) => match StructuredData::from_elements(elements) {
            Some(data) => Ok(data),
            None => Err(SyslogboxFault::new(REPEATED_ID, 0)),
        },
        Err(ItemsFault::Bad { left }) => Err(SyslogboxFault {
            kind: BAD_ITEM,
            field: STRUCTURED_DATA,
            offset: (items.len() - left) as u64,
        }),
        Err(ItemsFault::Memory) => Err(no_memory()),
    }
}

/// The message of octets: a text behind the BOM, or any octets that do not start with it.
fn message_of(alloc: Global, has_bom: u32, octets: &[u8]) -> Result<Message, SyslogboxFault>
    ensures { MatchResult result (IsMessageOf has_bom octets.now)
        (IsMessageRefused has_bom octets.now) }
{
    if has_bom == 0 {
        let Ok(copied) = octets.to_vec(alloc) else {
            return Err(no_memory());
        };
        return match Message::any(copied) {
            Ok(message) => Ok(message),
            Err(_back) => Err(bad_field(MESSAGE, 0)),
        };
    }
    match utf8(octets) {
        Ok(text) => match String::from_str(alloc, text) {
            Ok(text) => Ok(Message::utf8(text)),
            Err(_) => Err(no_memory()),
        },
        Err(at) => Err(SyslogboxFault::new(NOT_UTF8, at as u64)),
    }
}

/// The record of the fields.
fn record_of(alloc: Global, fields: &SyslogboxFields<'_>) -> Result<Record, SyslogboxFault>
    ensures { MatchResult result (λ r. IsRecord r × IsRecordOf fields.now r) (IsRefused fields.now) }
{
    let Some(priority) = priority_of(fields.facility, fields.severity) else {
        return Err(bad_field(PRIORITY, 0));
    };
    let instant = instant_of(fields.has_time, fields.time)?;
    let hostname = word_of(alloc, HOSTNAME, fields.hostname)?;
    let app_name = word_of(alloc, APP_NAME, fields.app_name)?;
    let proc_id = word_of(alloc, PROC_ID, fields.proc_id)?;
    let msg_id = word_of(alloc, MSG_ID, fields.msg_id)?;
    let data = data_of(alloc, fields.items)?;
    let message = message_of(alloc, fields.has_bom, fields.message)?;
    let record = Record::new(
        priority, instant, hostname, app_name, proc_id, msg_id, data, message,
    );
    let _ = record.priority();
    Ok(record)
}

/// The canonical octets of the record of the fields.
fn built_text(alloc: Global, fields: &SyslogboxFields<'_>) -> Result<Vec<u8>, SyslogboxFault>
    ensures { MatchResult result (λ v. BuiltOf fields.now v.items) (IsNotBuilt fields.now) }
{
    let record = match record_of(alloc, fields) {
        Ok(record) => record,
        Err(fault) => return Err(fault),
    };
    let Ok(text) = canon(alloc, &record) else {
        return Err(no_memory());
    };
    if text.len() > ENTRY_MAX {
        return Err(SyslogboxFault::too_long());
    }
    Ok(text)
}

/// Writes the canonical octets of the record of the fields, and returns how many they are; or -1 and which field is
/// refused, and why.
#[unsafe(no_mangle)]
pub extern "C" fn syslogbox_proved_build(
    alloc: Global,
    fields: &SyslogboxFields<'_>,
    out: &mut [u8],
    fault: &mut SyslogboxFault,
) -> i64
    ensures { Answers (BuiltOf fields.now) (IsNotBuilt fields.now)
        (record { room = out.old; fault = fault.old })
        (record { room = out.new; fault = fault.new }) result }
{
    answer(built_text(alloc, fields), out, fault)
}
