//! Archives whose texts are known independently.

use crate::support::{A, ARCHIVE, B, C, store_of, text_of};
use archive_pages::PagedArchive;
use archive_text::{Added, ArchiveFault, Store};
use archive_vec::{ReadFault, VecArchive, merge};
use std::alloc::Global;
use std::process::Abort;
use std::test::Fail;
use syslog_grammar::{Fault, Field, decode};

// The archive of these records.
fn archive_of(alloc: Global, records: &[&[u8]]) -> Result<VecArchive, Fail> {
    store_of(alloc, VecArchive::new(alloc), records)
}

// Why a text is not read as an archive.
fn fault_of(alloc: Global, text: &[u8]) -> Option<ReadFault> {
    VecArchive::read(alloc, text).err()
}

#[test]
fn a_text_that_is_no_archive_is_refused_where_it_goes_wrong(rt: HostRuntime) {
    for (text, fault) in [
        (
            b"45 <14>1 2024-02-29T23:30:00.000000Z h a - - - y19 <13>1 - h a - - - x".as_slice(),
            ArchiveFault::NotAscending { at: 48 },
        ),
        (
            b"19 <13>1 - h a - - - x19 <13>1 - h a - - - x",
            ArchiveFault::NotAscending { at: 22 },
        ),
        (
            b"17 <0>1 - - - - - - ",
            ArchiveFault::NotCanonical { at: 0 },
        ),
        (
            b"21 <0>1 - - - - - [a][b]21 <0>1 - - - - - [b][a]",
            ArchiveFault::NotCanonical { at: 24 },
        ),
        (b"17 <0>1 - - - - - -", ArchiveFault::BadFrame { at: 19 }),
        (
            b"4 <0>1",
            ArchiveFault::BadEntry {
                at: 0,
                fault: Fault::Syntax {
                    field: Field::Version,
                    offset: 4,
                },
            },
        ),
        (b"131078 ", ArchiveFault::BadFrame { at: 7 }),
        (b"524296 ", ArchiveFault::EntryTooLong { at: 0 }),
        (b"x", ArchiveFault::BadFrame { at: 0 }),
    ] {
        assert_eq!(rt; fault_of(rt.alloc(), text), Some(ReadFault::Bad(fault)));
    }
}

#[test]
fn a_cut_archive_is_read_at_the_end_of_an_entry_alone(rt: HostRuntime) -> Result<(), Fail> {
    assert_eq!(rt; ARCHIVE.len(), 118);
    for cut in 0..118 {
        let found = fault_of(rt.alloc(), &ARCHIVE[..cut]);
        let expected = match cut {
            0 | 22 | 70 => None,
            _ => Some(ReadFault::Bad(ArchiveFault::BadFrame { at: cut as u64 })),
        };
        assert_eq!(rt; found, expected);
    }
    Ok(())
}

// The text of the archive of the records of two archives.
fn merged_text(alloc: Global, left: &[&[u8]], right: &[&[u8]]) -> Result<Vec<u8>, Fail> {
    let left = archive_of(alloc, left)?;
    let right = archive_of(alloc, right)?;
    let merged = merge(alloc, &left, &right)?;
    text_of(alloc, &merged)
}

#[test]
fn archives_are_merged(rt: HostRuntime) -> Result<(), Fail> {
    for (left, right) in [
        ([C, A].as_slice(), [B, A].as_slice()),
        ([A, B].as_slice(), [A, C].as_slice()),
        ([B, C, A].as_slice(), [A, B, C].as_slice()),
    ] {
        let text = merged_text(rt.alloc(), left, right)?;
        assert_eq!(rt; text.as_slice(), ARCHIVE);
    }
    Ok(())
}

#[test]
fn nothing_merged_with_nothing_is_nothing(rt: HostRuntime) -> Result<(), Fail> {
    let text = merged_text(rt.alloc(), &[], &[])?;
    assert_eq!(rt; text.len(), 0);
    Ok(())
}

const BOM_ALONE: &[u8] = b"<0>1 - - - - - - \xef\xbb\xbf";

#[test]
fn the_empty_message_and_the_bom_are_merged(rt: HostRuntime) -> Result<(), Fail> {
    let joined = b"16 <0>1 - - - - - -20 <0>1 - - - - - - \xef\xbb\xbf".as_slice();
    let none = b"<0>1 - - - - - -".as_slice();
    for (left, right) in [(none, BOM_ALONE), (BOM_ALONE, none)] {
        let text = merged_text(rt.alloc(), &[left], &[right])?;
        assert_eq!(rt; text.as_slice(), joined);
    }
    Ok(())
}

const EXAMPLE: &[u8] = b"<165>1 2003-08-24T05:14:15.000003-07:00 192.0.2.1 myproc 8710 - - \
    %% It's time to make the do-nuts.";

// Adds the record of these octets; and whether it was held before, and is held then.
fn added<S: Store>(
    alloc: Global,
    store: &mut S,
    octets: &[u8],
) -> Result<(bool, Added, bool), Fail> {
    let record = decode(alloc, octets).ok().ok_or("no record")?;
    let before = store.holds(alloc, &record)?;
    let added = store.add(alloc, &record)?;
    Ok((before, added, store.holds(alloc, &record)?))
}

// A record is added once, and held then.
fn one_is_added<S: Store>(rt: &(impl Abort + AllocGlobal), store: &mut S) -> Result<(), Fail> {
    let alloc = rt.alloc();
    for expected in [(false, Added::New, true), (true, Added::Held, true)] {
        assert_eq!(rt; added(alloc, store, EXAMPLE)?, expected);
    }
    assert_eq!(rt; store.len(), 1);
    let expected = b"94 <165>1 2003-08-24T12:14:15.000003Z 192.0.2.1 myproc 8710 - - \
        %% It's time to make the do-nuts."
        .as_slice();
    assert_eq!(rt; text_of(alloc, store)?.as_slice(), expected);
    Ok(())
}

#[test]
fn the_example_of_the_standard_is_added_once(rt: HostRuntime) -> Result<(), Fail> {
    one_is_added(&rt, &mut VecArchive::new(rt.alloc()))?;
    one_is_added(&rt, &mut PagedArchive::new(rt.alloc()))
}

// A record of elements that is longer in its canonical form.
fn longest(alloc: Global) -> Result<Vec<u8>, Fail> {
    let mut octets = b"<0>1 - - - - - [a k=\"".to_vec(alloc)?;
    for _ in 0..131_060 {
        octets.extend_from_slice(b"\\n")?;
    }
    octets.extend_from_slice(b"\"]")?;
    Ok(octets)
}

#[test]
fn the_longest_record_is_archived(rt: HostRuntime) -> Result<(), Fail> {
    let alloc = rt.alloc();
    let octets = longest(alloc)?;
    assert_eq!(rt; octets.len(), 262_143);
    let text = text_of(alloc, &archive_of(alloc, &[octets.as_slice()])?)?;
    assert_eq!(rt; text.len(), 393_210);
    let again = VecArchive::read(alloc, text.as_slice())?;
    assert!(rt; text_of(alloc, &again)? == text);
    Ok(())
}

#[test]
fn the_empty_message_is_none_but_with_the_bom(rt: HostRuntime) -> Result<(), Fail> {
    let mut archive = VecArchive::new(rt.alloc());
    for (octets, expected) in [
        (b"<0>1 - - - - - -".as_slice(), Added::New),
        (b"<0>1 - - - - - - ", Added::Held),
        (b"<0>1 - - - - - - \xef\xbb\xbf", Added::New),
        (b"<0>1 - - - - - -", Added::Held),
    ] {
        let (before, found, after) = added(rt.alloc(), &mut archive, octets)?;
        assert_eq!(rt; before, expected == Added::Held);
        assert_eq!(rt; found, expected);
        assert!(rt; after);
    }
    for (place, octets) in [(0, Some(b"<0>1 - - - - - -".as_slice())), (2, None)] {
        assert_eq!(rt; archive.get(place), octets);
    }
    Ok(())
}
