//! What is expired is removed from folders in memory.

use super::{put_segment, segment_name};
use crate::views::{ALL, view_of, written};
use disk::{FileName, MemoryDisk};
use octet_devices::{Fuse, Output, ToWrite};
use sha2::{Digest, Sha256};
use std::alloc::Global;
use std::test::Fail;
use store_expiry::{ExpireFault, Expired, expire};
use store_reading::FileFault;
use store_test_support::calls::{crash, fused, has, has_all, joined, names_in, put};
use store_upkeep::{StreamDisk, WholeFiles};
use syslog_value::Instant;

// entries, in their order
const UNDATED: &[u8] = b"19 <13>1 - h a - - - x";

const EARLY: &[u8] = b"45 <14>1 2024-02-28T10:00:00.000000Z h a - - - a";

const BEFORE: &[u8] = b"45 <14>1 2024-02-29T11:59:59.999999Z h a - - - b";

const FROM: &[u8] = b"45 <14>1 2024-02-29T12:00:00.000000Z h a - - - c";

const LATE: &[u8] = b"45 <14>1 2024-03-01T00:00:00.000000Z h a - - - d";

// 2024-02-29T12:34:56Z
const TIME: i64 = 1_709_210_096_000_000;

// more than a file of these tests has
const FILE_MAX: usize = 4096;

// what is expired at this time
fn rule(undated: bool) -> Result<Expired, Fail> {
    let time = Instant::from_micros(TIME).ok_or("no instant")?;
    Ok(Expired::before(time, undated))
}

// the segments of a folder
const SEGMENTS: [(&[u8], &[&[u8]]); 5] = [
    (b"2024-02-28", &[EARLY]),
    (b"2024-02-29", &[BEFORE, FROM]),
    (b"2024-03-01", &[LATE]),
    (b"undated", &[UNDATED]),
    (b"mixed", &[UNDATED, EARLY, FROM]),
];

// a folder of these segments, of a journal and of a file that does not count
fn stored(alloc: Global) -> Result<MemoryDisk, Fail> {
    let mut disk = MemoryDisk::new(alloc);
    for (period, entries) in SEGMENTS {
        put_segment(alloc, &mut disk, period, &joined(alloc, entries)?)?;
    }
    put(alloc, &mut disk, b"refused", &[b"x"])?;
    put(alloc, &mut disk, b"journal.7", &[b"\x01\x30\0\0\0", EARLY])?;
    Ok(disk)
}

// the SHA-256 of octets, in hexadecimal
fn digest_of(octets: &[u8]) -> [u8; 64] {
    let mut hasher = Sha256::new();
    hasher.update(octets);
    let mut digest = [0u8; 64];
    let _ = hex::encode_to_slice(hasher.finalize(), &mut digest);
    digest
}

// the line of a segment: its period, how many records it has, and its octets
fn line(alloc: Global, period: &[u8], count: &[u8], octets: &[u8]) -> Result<Vec<u8>, Fail> {
    let digest = digest_of(octets);
    let size = format!(in alloc; "{}", octets.len())?;
    joined(
        alloc,
        &[
            period,
            b" ",
            count,
            b" ",
            size.as_bytes(),
            b" ",
            &digest,
            b"\n",
        ],
    )
}

// the lines of the segments that have an expired record
fn lines(alloc: Global) -> Result<Vec<u8>, Fail> {
    let day = joined(alloc, &[BEFORE, FROM])?;
    let mixed = joined(alloc, &[UNDATED, EARLY, FROM])?;
    let lines = [
        line(alloc, b"2024-02-28", b"1", EARLY)?,
        line(alloc, b"2024-02-29", b"2", &day)?,
        line(alloc, b"mixed", b"3", &mixed)?,
    ];
    joined(alloc, &[&lines[0], &lines[1], &lines[2]])
}

fn expire_all<S: StreamDisk, W: Output>(
    alloc: Global,
    files: &mut S,
    expired: Expired,
    dry_run: bool,
    output: &mut W,
) -> Result<(), ExpireFault> {
    expire(alloc, files, expired, dry_run, output)
}

// a folder from which what is expired was removed, what was answered, and what was written
#[derive(Drop)]
struct Run {
    disk: MemoryDisk,
    answer: Result<(), ExpireFault>,
    text: Vec<u8>,
}

// removes what is expired, by at most so many calls of the disk and so many of the output
fn run_on(
    alloc: Global,
    disk: MemoryDisk,
    undated: bool,
    dry_run: bool,
    calls: u64,
    writes: u64,
) -> Result<Run, Fail> {
    let mut files = WholeFiles::new(alloc, fused(disk, calls));
    let mut output = Fuse::new(ToWrite::new(Vec::new(alloc)), u64::MAX, writes);
    let expired = rule(undated)?;
    let answer = expire_all(alloc, &mut files, expired, dry_run, &mut output);
    Ok(Run {
        disk: files.into_inner().into_inner(),
        answer,
        text: output.into_inner().into_inner(),
    })
}

// removes what is expired, without faults
fn run_to_its_end(alloc: Global, disk: MemoryDisk, undated: bool) -> Result<Run, Fail> {
    run_on(alloc, disk, undated, false, u64::MAX, u64::MAX)
}

// whether this is the segment that is told as damaged
fn is_told(answer: &Result<(), ExpireFault>, segment: &[u8], found: FileFault) -> bool {
    match answer {
        Err(ExpireFault::Damaged { name, damage }) => name.as_octets() == segment
            && *damage == found,
        _ => false,
    }
}

// the archive of what a folder holds
fn archive_of(alloc: Global, disk: &mut MemoryDisk) -> Result<Vec<u8>, Fail> {
    let (answer, text) = written(alloc, &mut view_of(alloc, disk)?, ALL);
    answer?;
    Ok(text)
}

// whether a folder has a file of this name
fn is_named(names: &[FileName], name: &[u8]) -> bool {
    names.iter().any(|other| other.as_octets() == name)
}

#[test]
fn what_is_before_the_hour_goes(rt: HostRuntime) -> Result<(), Fail> {
    let alloc = rt.alloc();
    let mut done = run_to_its_end(alloc, stored(alloc)?, false)?;
    assert!(rt; done.answer.is_ok());
    assert!(rt; done.text == lines(alloc)?);
    let left = joined(alloc, &[UNDATED, EARLY, FROM, LATE])?;
    assert!(rt; archive_of(alloc, &mut done.disk)? == left);
    let names = names_in(alloc, &mut done.disk)?;
    assert_eq!(rt; names.len(), 6);
    assert!(rt; is_named(&names, &segment_name(alloc, b"2024-02-29", FROM)?));
    let mixed = joined(alloc, &[UNDATED, FROM])?;
    assert!(rt; is_named(&names, &segment_name(alloc, b"mixed", &mixed)?));
    let mut again = run_to_its_end(alloc, done.disk, false)?;
    assert!(rt; again.answer.is_ok() && again.text.is_empty());
    assert_eq!(rt; names_in(alloc, &mut again.disk)?.len(), 6);
    Ok(())
}

#[test]
fn a_dry_run_tells_the_same_and_changes_nothing(rt: HostRuntime) -> Result<(), Fail> {
    let alloc = rt.alloc();
    let before = archive_of(alloc, &mut stored(alloc)?)?;
    let mut done = run_on(alloc, stored(alloc)?, false, true, u64::MAX, u64::MAX)?;
    assert!(rt; done.answer.is_ok());
    assert!(rt; done.text == lines(alloc)?);
    assert!(rt; archive_of(alloc, &mut done.disk)? == before);
    assert_eq!(rt; names_in(alloc, &mut done.disk)?.len(), 7);
    Ok(())
}

#[test]
fn what_has_no_time_goes_where_that_is_asked_for(rt: HostRuntime) -> Result<(), Fail> {
    let alloc = rt.alloc();
    let mut done = run_to_its_end(alloc, stored(alloc)?, true)?;
    assert!(rt; done.answer.is_ok());
    assert!(rt; archive_of(alloc, &mut done.disk)? == joined(alloc, &[EARLY, FROM, LATE])?);
    assert!(rt; has(&done.text, &line(alloc, b"undated", b"1", UNDATED)?));
    assert_eq!(rt; names_in(alloc, &mut done.disk)?.len(), 5);
    Ok(())
}

#[test]
fn a_damaged_segment_stays(rt: HostRuntime) -> Result<(), Fail> {
    let alloc = rt.alloc();
    let mut disk = stored(alloc)?;
    let damaged = segment_name(alloc, b"2024-02-27", LATE)?;
    put(alloc, &mut disk, &damaged, &[EARLY])?;
    let mut done = run_to_its_end(alloc, disk, false)?;
    assert!(rt; is_told(&done.answer, &damaged, FileFault::OtherDay { at: 0 }));
    assert_eq!(rt; names_in(alloc, &mut done.disk)?.len(), 8);
    Ok(())
}

#[test]
fn nothing_goes_whose_line_is_not_written(rt: HostRuntime) -> Result<(), Fail> {
    let alloc = rt.alloc();
    let day = joined(alloc, &[BEFORE, FROM])?;
    let mut done = run_on(alloc, stored(alloc)?, false, false, u64::MAX, 1)?;
    assert!(rt; matches!(done.answer, Err(ExpireFault::Output)));
    assert!(rt; done.text == line(alloc, b"2024-02-28", b"1", EARLY)?);
    let names = names_in(alloc, &mut done.disk)?;
    assert!(rt; !is_named(&names, &segment_name(alloc, b"2024-02-28", EARLY)?));
    assert!(rt; is_named(&names, &segment_name(alloc, b"2024-02-29", &day)?));
    Ok(())
}

// A run that stops at some call, with a crash whatever it leaves, and one that goes on from there.
#[test]
fn a_crash_leaves_what_is_not_expired(rt: HostRuntime) -> Result<(), Fail> {
    let alloc = rt.alloc();
    let left = joined(alloc, &[UNDATED, EARLY, FROM, LATE])?;
    for calls in [8, 12, 14, 15, 16, 17, 18, 24, 33, 34, 35] {
        let (kept, octet) = match calls % 3 {
            0 => (0, None),
            1 => (7, Some(0)),
            _ => (FILE_MAX, None),
        };
        let stopped = run_on(alloc, stored(alloc)?, false, false, calls, u64::MAX)?;
        let mut disk = crash(stopped.disk, kept, octet, calls % 2 == 0)?;
        let between = archive_of(alloc, &mut disk)?;
        assert!(rt;
            has_all(&between, &[UNDATED, EARLY, FROM, LATE]),
            "at {calls}"
        );
        let mut done = run_to_its_end(alloc, disk, false)?;
        assert!(rt; done.answer.is_ok(), "at {calls}");
        assert!(rt; archive_of(alloc, &mut done.disk)? == left, "at {calls}");
    }
    Ok(())
}
