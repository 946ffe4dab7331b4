//! What octets are read as, and where they stop being a record.

use crate::calls::seen;
use std::alloc::{AllocError, Global};
use std::test::Fail;
use syslog_grammar::{ElementView, Fault, Field, same_value, utf8};

fn at(octets: &[u8]) -> Option<(Field, usize)> {
    match seen(octets) {
        Err(Fault::Syntax { field, offset }) => Some((field, offset)),
        _ => None,
    }
}

const RFC: &[u8] =
    b"<165>1 2003-08-24T05:14:15.000003-07:00 192.0.2.1 myproc 8710 - - %% It's time to make the do-nuts.";

#[test]
fn the_example_of_the_standard_is_read(rt: HostRuntime) -> Result<(), Fail> {
    let seen = seen(RFC).ok().ok_or("a fault")?;
    assert_eq!(rt; seen.priority().value(), 165);
    assert!(rt; seen.instant().map(|i| i.micros()) == Some(1_061_727_255_000_003));
    assert!(rt; seen.message() == b"%% It's time to make the do-nuts.".as_slice());
    assert!(rt; !seen.has_mark());
    Ok(())
}

#[test]
fn the_words_of_the_example_are_read(rt: HostRuntime) -> Result<(), Fail> {
    let seen = seen(RFC).ok().ok_or("a fault")?;
    assert!(rt; seen.hostname() == Some(b"192.0.2.1".as_slice()));
    assert!(rt; seen.app_name() == Some(b"myproc".as_slice()));
    assert!(rt; seen.proc_id() == Some(b"8710".as_slice()));
    assert!(rt; seen.msg_id().is_none());
    Ok(())
}

#[test]
fn each_prefix_of_the_example_stops_at_its_length(rt: HostRuntime) -> Result<(), Fail> {
    for n in 0..65 {
        let (prefix, _) = RFC.split_at(RFC.len().min(n));
        let (_, offset) = at(prefix).ok_or("no fault")?;
        assert_eq!(rt; offset, n);
    }
    Ok(())
}

const SYNTAX_FAULTS: [(&[u8], Field, usize); 32] = [
    (b"<192>1 -", Field::Priority, 3),
    (b"<007>1 -", Field::Priority, 2),
    (b"", Field::Priority, 0),
    (b"<>", Field::Priority, 1),
    (b"<0>10 -", Field::Version, 4),
    (b"<0>2", Field::Version, 3),
    (b"<0>1 2003-02-29T00:00:00Z - - - - -", Field::Timestamp, 14),
    (b"<0>1 1900-02-29T00:00:00Z - - - - -", Field::Timestamp, 14),
    (b"<0>1 2003-02-28T00:00:60Z - - - - -", Field::Timestamp, 22),
    (b"<0>1 2024-13", Field::Timestamp, 11),
    (b"<0>1 2023-02-3", Field::Timestamp, 13),
    (b"<0>1 2023-04-31", Field::Timestamp, 14),
    (b"<0>1 2003-02-28T00:00:00.Z", Field::Timestamp, 25),
    (b"<0>1 2003-02-28T00:00:00.1234567Z", Field::Timestamp, 31),
    (b"<0>1 2003-02-28T00:00:00+24:00", Field::Timestamp, 26),
    (b"<13>1 x", Field::Timestamp, 6),
    (b"<0>1 - ab", Field::Hostname, 9),
    (b"<0>1 -  -", Field::Hostname, 7),
    (b"<0>1 - - - - -", Field::MsgId, 14),
    (b"<0>1 - - - - - -x", Field::StructuredData, 16),
    (b"<0>1 - - - - - ", Field::StructuredData, 15),
    (b"<0>1 - - - - - []", Field::StructuredData, 16),
    (b"<0>1 - - - - - [a ]", Field::StructuredData, 18),
    (
        b"<0>1 - - - - - [aaaaaaaaaaaaaaaaaaaaaaaaaaaaaaaaa",
        Field::StructuredData,
        48,
    ),
    (b"<0>1 - - - - - [a k=\"]\"]", Field::StructuredData, 21),
    (b"<0>1 - - - - - [a k=\"x\\\"]", Field::StructuredData, 24),
    (b"<0>1 - - - - - [a k=\"\\\xff", Field::StructuredData, 22),
    (
        b"<0>1 - - - - - [a k=\"\xe0\x80\"]",
        Field::StructuredData,
        22,
    ),
    (b"<0>1 - - - - - [a][a]x", Field::StructuredData, 21),
    (
        b"<0>1 9999-12-31T23:59:59-00:01 - - - - x",
        Field::StructuredData,
        39,
    ),
    (b"<0>1 - - - - - - \xef\xbb\xbf\xff", Field::Message, 20),
    (b"<0>1 - - - - - - \xef\xbb\xbf\xe2\x82", Field::Message, 22),
];

#[test]
fn a_fault_of_the_syntax_has_its_field_and_offset(rt: HostRuntime) -> Result<(), Fail> {
    for (octets, field, offset) in SYNTAX_FAULTS {
        assert!(rt; at(octets) == Some((field, offset)));
    }
    Ok(())
}

const OTHER_FAULTS: [(&[u8], Option<Fault>); 9] = [
    (
        b"<0>1 9999-12-31T23:59:59-00:01 - - - - [a][a]",
        Some(Fault::InstantRange { offset: 5 }),
    ),
    (b"<0>1 0000-01-01T00:00:00Z - - - - -", None),
    (
        b"<0>1 0000-01-01T00:00:00+00:01 - - - - -",
        Some(Fault::InstantRange { offset: 5 }),
    ),
    (
        b"<0>1 - - - - - [a][b][a]",
        Some(Fault::RepeatedId { offset: 22 }),
    ),
    (
        b"<0>1 - - - - - [c][b][a][b]",
        Some(Fault::RepeatedId { offset: 25 }),
    ),
    (b"<0>1 - - - - - [a k=\"1\" k=\"2\"]", None),
    (b"<0>1 - - - - - [b][a][c]", None),
    (b"<0>1 - - - - - - \xef\xbb", None),
    (b"<0>1 - - - - - - \xff", None),
];

#[test]
fn the_instant_is_judged_before_the_ids(rt: HostRuntime) -> Result<(), Fail> {
    for (octets, fault) in OTHER_FAULTS {
        assert!(rt; seen(octets).err() == fault);
    }
    Ok(())
}

const TEXTS: [(&[u8], Option<usize>); 5] = [
    (b"a\xe0\x80", Some(2)),
    (b"a\xff", Some(1)),
    (b"a\xe2\x82", Some(3)),
    (b"\xed\xa0\x80", Some(1)),
    (b"h\xc3\xa9", None),
];

#[test]
fn texts_stop_at_their_offsets(rt: HostRuntime) -> Result<(), Fail> {
    for (octets, offset) in TEXTS {
        assert!(rt; utf8(octets).err() == offset);
    }
    Ok(())
}

/// Appends an element and its parameters, as they are spelled.
fn put_element(element: ElementView<'_>, out: &mut Vec<u8>) -> Result<(), AllocError> {
    out.extend_from_slice(element.id())?;
    for param in element.params() {
        out.push(b' ')?;
        out.extend_from_slice(param.name())?;
        out.push(b'=')?;
        out.extend_from_slice(param.raw())?;
    }
    out.push(b';')?;
    Ok(())
}

/// The elements of a record, in the order in which they are lent.
fn elements(alloc: Global, octets: &[u8]) -> Result<Vec<u8>, Fail> {
    let seen = seen(octets).ok().ok_or("a fault")?;
    let mut out = Vec::new(alloc);
    for element in seen.elements() {
        put_element(element, &mut out)?;
    }
    Ok(out)
}

const ELEMENTS: [(&[u8], &[u8]); 3] = [
    (b"<0>1 - - - - - -", b""),
    (b"<0>1 - - - - - [b k=\"1\"][a]", b"b k=1;a;"),
    (
        b"<0>1 - - - - - [b k=\"1\" l=\"x\\n\"][a]",
        b"b k=1 l=x\\n;a;",
    ),
];

#[test]
fn elements_and_parameters_come_in_their_order(rt: HostRuntime) -> Result<(), Fail> {
    for (octets, lent) in ELEMENTS {
        assert_eq!(rt; elements(rt.alloc(), octets)?.as_slice(), lent);
    }
    Ok(())
}

const SPELLINGS: [(&[u8], &str, bool); 8] = [
    (b"x\\n", "x\\n", true),
    (b"x\\\\n", "x\\n", true),
    (b"x\\n", "xn", false),
    (b"\\\"\\]", "\"]", true),
    (b"]", "]", false),
    (b"x\\", "x\\", false),
    (b"", "x", false),
    (b"", "", true),
];

#[test]
fn a_spelling_means_its_text(rt: HostRuntime) -> Result<(), Fail> {
    for (raw, text, same) in SPELLINGS {
        assert!(rt; same_value(raw, text) == same);
    }
    Ok(())
}
