//! Entries as they are read, and their order.

use archive_text::{ArchiveFault, ENTRY_MAX, compare, entry_of_octets, read_entry};
use std::cmp::Ordering;
use std::test::Fail;
use syslog_grammar::{Fault, Field};

// The octets of the first entry of a text, and what is behind it.
fn first_of(text: &[u8]) -> Result<(&[u8], &[u8]), ArchiveFault> {
    match read_entry(ENTRY_MAX as u64, text) {
        Ok((entry, rest)) => Ok((entry.octets, rest)),
        Err(fault) => Err(fault),
    }
}

fn order_of(a: &[u8], b: &[u8]) -> Option<Ordering> {
    match (entry_of_octets(a), entry_of_octets(b)) {
        (Ok(a), Ok(b)) => Some(compare(&a, &b)),
        _ => None,
    }
}

#[test]
fn an_entry_is_read_and_the_rest_is_left(rt: HostRuntime) -> Result<(), Fail> {
    let (octets, rest) = first_of(b"16 <0>1 - - - - - -19 ").ok().ok_or("a fault")?;
    assert_eq!(rt; octets, b"<0>1 - - - - - -".as_slice());
    assert_eq!(rt; rest, b"19 ".as_slice());
    Ok(())
}

#[test]
fn what_is_no_entry_is_refused(rt: HostRuntime) {
    let field = Field::Version;
    let fault = Fault::Syntax { field, offset: 4 };
    for (text, fault) in [
        (b"x".as_slice(), ArchiveFault::BadFrame { at: 0 }),
        (b"16", ArchiveFault::BadFrame { at: 2 }),
        (b"17 <0>1 - - - - - -", ArchiveFault::BadFrame { at: 19 }),
        (b"524296 ", ArchiveFault::EntryTooLong { at: 0 }),
        (b"524295 ", ArchiveFault::BadFrame { at: 7 }),
        (b"4 <0>1", ArchiveFault::BadEntry { at: 0, fault }),
        (
            b"17 <0>1 - - - - - - ",
            ArchiveFault::NotCanonical { at: 0 },
        ),
    ] {
        assert_eq!(rt; first_of(text).err(), Some(fault));
    }
}

#[test]
fn entries_stand_by_instant_and_then_by_octets(rt: HostRuntime) {
    let a = b"<13>1 - h a - - - x".as_slice();
    let b = b"<14>1 2024-02-29T23:30:00.000000Z h a - - - y".as_slice();
    let c = b"<12>1 2024-02-29T23:00:00.000000Z h a - - - z".as_slice();
    let d = b"<14>1 2024-02-29T23:30:00.000000Z h a - - - z".as_slice();
    for (left, right, order) in [
        (a, c, Ordering::Less),
        (c, b, Ordering::Less),
        (b, d, Ordering::Less),
        (b, b, Ordering::Equal),
        (b, a, Ordering::Greater),
    ] {
        assert_eq!(rt; order_of(left, right), Some(order));
    }
}
