//! Archives that are sorted when all of their records are there.

use crate::support::{A, ARCHIVE, B, C, store_of, text_of};
use archive_pages::PagedArchive;
use archive_sorting::{RecordSet, SortedArchive, UnsortedRecords};
use archive_text::AddFault;
use archive_vec::VecArchive;
use octet_devices::ToWrite;
use std::alloc::Global;
use std::test::Fail;
use syslog_grammar::{decode, view};

// a record of the instant of B, and below it
const BELOW_B: &[u8] = b"<13>1 2024-02-29T23:30:00.000000Z h a - - - y";

// a record without a time, and above A
const ABOVE_A: &[u8] = b"<13>1 - h a - - - y";

// the archive of the five records
const FIVE: &[u8] = b"19 <13>1 - h a - - - x\
    19 <13>1 - h a - - - y\
    45 <12>1 2024-02-29T23:00:00.000000Z h a - - - z\
    45 <13>1 2024-02-29T23:30:00.000000Z h a - - - y\
    45 <14>1 2024-02-29T23:30:00.000000Z h a - - - y";

// Adds the record of these octets as a view, and as a copy.
fn add_twice(
    alloc: Global,
    set: &mut UnsortedRecords,
    octets: &[u8],
) -> Result<[Result<(), AddFault>; 2], Fail> {
    let seen = view(octets).ok().ok_or("no record")?;
    let record = decode(alloc, octets).ok().ok_or("no record")?;
    Ok([set.add_view(alloc, &seen), set.add(alloc, &record)])
}

// The text of an archive.
fn written(alloc: Global, archive: &SortedArchive) -> Result<Vec<u8>, Fail> {
    let mut writer = ToWrite::new(Vec::new(alloc));
    archive.write(&mut writer)?;
    Ok(writer.into_inner())
}

// The texts of the archive of records: sorted at the end, kept in a vector, and kept in pages.
fn texts_of(alloc: Global, records: &[&[u8]]) -> Result<[Vec<u8>; 3], Fail> {
    let mut set = UnsortedRecords::new(alloc);
    for octets in records {
        let _added = add_twice(alloc, &mut set, octets)?;
    }
    let sorted = written(alloc, &set.settle())?;
    let vector = text_of(alloc, &store_of(alloc, VecArchive::new(alloc), records)?)?;
    let pages = text_of(alloc, &store_of(alloc, PagedArchive::new(alloc), records)?)?;
    Ok([sorted, vector, pages])
}

#[test]
fn every_order_gives_the_one_archive(rt: HostRuntime) -> Result<(), Fail> {
    for (records, expected) in [
        ([].as_slice(), b"".as_slice()),
        ([A, C, B].as_slice(), ARCHIVE),
        ([B, C, A].as_slice(), ARCHIVE),
        ([C, B, C, A, A, B].as_slice(), ARCHIVE),
        ([B, BELOW_B, ABOVE_A, C, A].as_slice(), FIVE),
        ([BELOW_B, B, A, ABOVE_A, C, B, BELOW_B].as_slice(), FIVE),
    ] {
        let [sorted, vector, pages] = texts_of(rt.alloc(), records)?;
        assert_eq!(rt; sorted.as_slice(), expected);
        assert!(rt; sorted == vector);
        assert!(rt; sorted == pages);
    }
    Ok(())
}

// A record whose canonical form has 23 octets and three for each of so many escapes.
fn escaped(alloc: Global, escapes: usize) -> Result<Vec<u8>, Fail> {
    let mut octets = b"<0>1 - - - - - [a k=\"".to_vec(alloc)?;
    for _ in 0..escapes {
        octets.extend_from_slice(b"\\n")?;
    }
    octets.extend_from_slice(b"\"]")?;
    Ok(octets)
}

#[test]
fn a_record_that_is_too_long_leaves_the_others(rt: HostRuntime) -> Result<(), Fail> {
    let alloc = rt.alloc();
    let mut set = UnsortedRecords::new(alloc);
    // 524,294 octets, and 524,297
    for (escapes, answer) in [(174_757, Ok(())), (174_758, Err(AddFault::TooLong))] {
        let octets = escaped(alloc, escapes)?;
        let answers = add_twice(alloc, &mut set, octets.as_slice())?;
        assert_eq!(rt; answers, [answer; 2]);
    }
    let archive = set.settle();
    assert_eq!(rt; archive.len(), 1);
    let text = written(alloc, &archive)?;
    assert_eq!(rt; text.len(), 524_301);
    assert!(rt; text.starts_with(b"524294 <0>1 - "));
    Ok(())
}
