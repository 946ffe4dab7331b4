//! Records, made and compared.

use std::alloc::Global;
use std::test::Fail;
use syslog_value::{Instant, Message, Priority, Record, StructuredData, Word};

/// The fields of a record without elements and without a mark.
#[derive(Clone, Copy, PartialEq)]
struct Fields<'a> {
    priority: u8,
    micros: Option<i64>,
    hostname: Option<&'a [u8]>,
    app_name: Option<&'a [u8]>,
    proc_id: Option<&'a [u8]>,
    msg_id: Option<&'a [u8]>,
    message: &'a [u8],
}

const HELLO: Fields<'static> = Fields {
    priority: 165,
    micros: None,
    hostname: None,
    app_name: None,
    proc_id: None,
    msg_id: None,
    message: b"hello",
};

const HOST_AND_APP: Fields<'static> = Fields {
    priority: 23,
    micros: Some(1_061_727_255_000_003),
    hostname: Some(b"h"),
    app_name: Some(b"su"),
    proc_id: None,
    msg_id: None,
    message: b"",
};

const PROC_AND_MESSAGE_ID: Fields<'static> = Fields {
    priority: 0,
    micros: None,
    hostname: None,
    app_name: None,
    proc_id: Some(b"8710"),
    msg_id: Some(b"ID47"),
    message: b"",
};

fn word<const N: usize>(alloc: Global, octets: Option<&[u8]>) -> Result<Option<Word<N>>, Fail> {
    match octets {
        Some(octets) => Ok(Some(Word::new(alloc, octets)?)),
        None => Ok(None),
    }
}

/// The record of these fields.
fn record_of(alloc: Global, fields: Fields<'_>) -> Result<Record, Fail> {
    let message = Message::any(fields.message.to_vec(alloc)?)
        .ok()
        .ok_or("octets with the mark")?;
    Ok(Record::new(
        Priority::from_value(fields.priority).ok_or("no priority")?,
        fields.micros.and_then(Instant::from_micros),
        word(alloc, fields.hostname)?,
        word(alloc, fields.app_name)?,
        word(alloc, fields.proc_id)?,
        word(alloc, fields.msg_id)?,
        StructuredData::empty(alloc),
        message,
    ))
}

/// The fields of a record.
fn fields_of(record: &Record) -> Fields<'_> {
    Fields {
        priority: record.priority().value(),
        micros: record.instant().map(Instant::micros),
        hostname: record.hostname().map(Word::bytes),
        app_name: record.app_name().map(Word::bytes),
        proc_id: record.proc_id().map(Word::bytes),
        msg_id: record.msg_id().map(Word::bytes),
        message: record.message().octets(),
    }
}

/// Whether a record of these fields has them, and neither elements nor a mark.
fn come_back(alloc: Global, fields: Fields<'_>) -> Result<bool, Fail> {
    let record = record_of(alloc, fields)?;
    let bare = record.structured().elements().is_empty() && !record.message().has_mark();
    Ok(bare && fields_of(&record) == fields)
}

#[test]
fn the_fields_of_a_record_come_back(rt: HostRuntime) -> Result<(), Fail> {
    assert!(rt; come_back(rt.alloc(), HELLO)?);
    assert!(rt; come_back(rt.alloc(), HOST_AND_APP)?);
    assert!(rt; come_back(rt.alloc(), PROC_AND_MESSAGE_ID)?);
    Ok(())
}

#[test]
fn a_record_equals_its_copy_and_none_of_another_host(rt: HostRuntime) -> Result<(), Fail> {
    let record = record_of(rt.alloc(), HOST_AND_APP)?;
    assert!(rt; record == record.copy(rt.alloc())?);
    let mut fields = HOST_AND_APP;
    fields.hostname = Some(b"H");
    assert!(rt; record != record_of(rt.alloc(), fields)?);
    Ok(())
}
