//! Folders in memory are compacted.

use super::{DAY, LATE, damage_in, entries, entry, put_segment, segment_name, stored};
use crate::views::{ALL, view_of, written};
use disk::{FileName, MemoryDisk};
use std::alloc::Global;
use std::test::Fail;
use store_reading::FileFault;
use store_test_support::calls::{crash, fused, names_in, put};
use store_upkeep::{CompactFault, SEGMENTS_MAX, StreamDisk, WholeFiles, compact};

// more than a file of these tests has
const FILE_MAX: usize = 4096;

// the archive of what a folder holds
fn archive_of(alloc: Global, disk: &mut MemoryDisk) -> Result<Vec<u8>, Fail> {
    let (answer, text) = written(alloc, &mut view_of(alloc, disk)?, ALL);
    answer?;
    Ok(text)
}

// the names of the segments of the day that has many
fn segments_in(alloc: Global, disk: &mut MemoryDisk) -> Result<Vec<FileName>, Fail> {
    let mut found = Vec::new(alloc);
    for name in names_in(alloc, disk)? {
        if name.as_octets().starts_with(DAY) {
            found.push(name)?;
        }
    }
    Ok(found)
}

// whether no file of a folder is damaged
fn is_whole(alloc: Global, disk: &mut MemoryDisk) -> Result<bool, Fail> {
    let (answer, damaged) = damage_in(alloc, disk)?;
    Ok(answer.is_ok() && damaged.is_empty())
}

fn compact_all<S: StreamDisk>(alloc: Global, files: &mut S) -> Result<(), CompactFault> {
    compact(alloc, files)
}

// compacts a folder, by at most so many calls
fn compacted(
    alloc: Global,
    disk: MemoryDisk,
    calls: u64,
) -> Result<(MemoryDisk, Result<(), CompactFault>), Fail> {
    let mut files = WholeFiles::new(alloc, fused(disk, calls));
    let answer = compact_all(alloc, &mut files);
    Ok((files.into_inner().into_inner(), answer))
}

#[test]
fn the_segments_of_a_day_are_joined(rt: HostRuntime) -> Result<(), Fail> {
    let alloc = rt.alloc();
    let mut disk = stored(alloc, 9)?;
    let before = archive_of(alloc, &mut disk)?;
    let (mut disk, answer) = compacted(alloc, disk, u64::MAX)?;
    assert!(rt; answer.is_ok());
    assert_eq!(rt; segments_in(alloc, &mut disk)?.len(), 1);
    assert_eq!(rt; names_in(alloc, &mut disk)?.len(), 5);
    assert!(rt; archive_of(alloc, &mut disk)? == before);
    assert!(rt; is_whole(alloc, &mut disk)?);
    Ok(())
}

#[test]
fn few_segments_stay(rt: HostRuntime) -> Result<(), Fail> {
    let alloc = rt.alloc();
    let (mut disk, answer) = compacted(alloc, stored(alloc, 8)?, u64::MAX)?;
    assert!(rt; answer.is_ok());
    assert_eq!(rt; segments_in(alloc, &mut disk)?.len(), SEGMENTS_MAX);
    Ok(())
}

// one of the segments has what all of them have
#[test]
fn a_segment_that_has_all_stays(rt: HostRuntime) -> Result<(), Fail> {
    let alloc = rt.alloc();
    let mut disk = stored(alloc, 9)?;
    let text = entries(alloc, b'a'..=b'j')?;
    put_segment(alloc, &mut disk, DAY, &text)?;
    let (mut disk, answer) = compacted(alloc, disk, u64::MAX)?;
    assert!(rt; answer.is_ok());
    let names = segments_in(alloc, &mut disk)?;
    assert_eq!(rt; names.len(), 1);
    let all = segment_name(alloc, DAY, &text)?;
    assert!(rt; names.iter().all(|name| name.as_octets() == all.as_slice()));
    Ok(())
}

#[test]
fn nothing_of_a_day_with_a_damaged_segment_is_removed(rt: HostRuntime) -> Result<(), Fail> {
    let alloc = rt.alloc();
    let mut disk = stored(alloc, 9)?;
    let damaged = segment_name(alloc, DAY, LATE)?;
    put(alloc, &mut disk, &damaged, &[&entry(alloc, b'k')?])?;
    let (mut disk, answer) = compacted(alloc, disk, u64::MAX)?;
    match answer {
        Err(CompactFault::Damaged { name, damage }) => {
            assert!(rt; name.as_octets() == damaged.as_slice());
            assert_eq!(rt; damage, FileFault::Digest);
        }
        _ => return Err("not told".into()),
    }
    assert_eq!(rt; segments_in(alloc, &mut disk)?.len(), 10);
    Ok(())
}

// A compaction that stops while it writes the draft, places it or removes what it joined, with a crash
// whatever it leaves.
#[test]
fn a_crash_leaves_the_same_set(rt: HostRuntime) -> Result<(), Fail> {
    let alloc = rt.alloc();
    let before = archive_of(alloc, &mut stored(alloc, 9)?)?;
    for calls in [39, 42, 43, 46, 47, 48, 53] {
        let (kept, octet) = match calls % 3 {
            0 => (0, None),
            1 => (7, Some(0)),
            _ => (FILE_MAX, None),
        };
        let (disk, _stopped) = compacted(alloc, stored(alloc, 9)?, calls)?;
        let mut disk = crash(disk, kept, octet, calls % 2 == 0)?;
        assert!(rt; archive_of(alloc, &mut disk)? == before, "at {calls}");
    }
    Ok(())
}
