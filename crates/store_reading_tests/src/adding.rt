//! Archives are added to folders in memory.

use crate::views::{ALL, view_of, written};
use archive_streams::{EntriesFault, InputFault};
use archive_text::ArchiveFault;
use disk::{Disk, MemoryDisk};
use octet_devices::{FromRead, Fuse, Input};
use record_store::KeepFault;
use std::alloc::Global;
use std::io::Cursor;
use std::test::Fail;
use store_addition::{AddFault, Addition, Interrupted, add_archive};
use store_test_support::calls::{crash, fused, has_all, joined, names_in, put};
use store_test_support::stores::{add, commit, opened};

// entries, in their order
const UNDATED: &[u8] = b"16 <0>1 - - - - - -";

const EARLY: &[u8] = b"45 <14>1 2024-02-29T23:30:00.000000Z h a - - - y";

const LATE: &[u8] = b"45 <14>1 2024-03-01T00:30:00.000000Z h a - - - z";

// behind them, an entry that is not canonical
const SHORT_TIME: &[u8] = b"38 <14>1 2024-03-02T00:30:00Z h a - - - z";

// a record of another day, and one of a day of the archive
const OTHER: &[u8] = b"<14>1 2024-03-02T00:31:00.000000Z h a - - - w";

const SAME_DAY: &[u8] = b"<14>1 2024-02-29T23:31:00.000000Z h a - - - v";

// more than a file of these tests has
const FILE_MAX: usize = 4096;

// What became of an archive that was added: how many entries were told, and the fault.
type Told = (u64, Option<AddFault>);

// an archive of three days
fn archive(alloc: Global) -> Result<Vec<u8>, Fail> {
    joined(alloc, &[UNDATED, EARLY, LATE])
}

fn add_to<D: Disk, R: Input>(
    alloc: Global,
    disk: &mut D,
    input: &mut R,
) -> Result<Addition, Interrupted> {
    add_archive(alloc, disk, input)
}

// adds a text, and gives what is told; the reader fails after so many octets
fn told_of<D: Disk>(alloc: Global, disk: &mut D, text: &[u8], octets: u64) -> Result<Told, Fail> {
    let copy = text.to_vec(alloc)?;
    let mut input = Fuse::new(FromRead::new(Cursor::new(copy)), octets, u64::MAX);
    Ok(match add_to(alloc, disk, &mut input) {
        Ok(added) => (added.entries, None),
        Err(at) => (at.added.entries, Some(at.fault)),
    })
}

// the disk after an addition of the archive by at most so many calls, and how many entries were told
fn stopped(alloc: Global, disk: MemoryDisk, calls: u64) -> Result<(MemoryDisk, u64), Fail> {
    let mut fuse = fused(disk, calls);
    let (entries, _fault) = told_of(alloc, &mut fuse, &archive(alloc)?, u64::MAX)?;
    Ok((fuse.into_inner(), entries))
}

// a folder of a server: two records that are committed, and the draft of a checkpoint
fn served(alloc: Global) -> Result<MemoryDisk, Fail> {
    let mut disk = MemoryDisk::new(alloc);
    let mut store = opened(alloc, &mut disk)?;
    add(alloc, &mut store, OTHER)?;
    add(alloc, &mut store, SAME_DAY)?;
    commit(alloc, &mut store, &mut disk)?;
    put(alloc, &mut disk, b"new.archive", &[EARLY])?;
    Ok(disk)
}

// the archive of what a folder holds
fn archive_of(alloc: Global, disk: &mut MemoryDisk) -> Result<Vec<u8>, Fail> {
    let (answer, text) = written(alloc, &mut view_of(alloc, disk)?, ALL);
    answer?;
    Ok(text)
}

fn has_file(alloc: Global, disk: &mut MemoryDisk, name: &[u8]) -> Result<bool, Fail> {
    let names = names_in(alloc, disk)?;
    Ok(names.iter().any(|other| other.as_octets() == name))
}

#[test]
fn an_archive_is_added_once(rt: HostRuntime) -> Result<(), Fail> {
    let alloc = rt.alloc();
    let mut disk = MemoryDisk::new(alloc);
    let text = archive(alloc)?;
    for _ in 0..2 {
        let (entries, fault) = told_of(alloc, &mut disk, &text, u64::MAX)?;
        assert!(rt; fault.is_none());
        assert_eq!(rt; entries, 3);
        assert!(rt; archive_of(alloc, &mut disk)? == text);
        assert_eq!(rt; names_in(alloc, &mut disk)?.len(), 3);
    }
    Ok(())
}

#[test]
fn the_last_instant_is_told(rt: HostRuntime) -> Result<(), Fail> {
    let alloc = rt.alloc();
    let rows = [
        (0, None),
        (1, None),
        (2, Some(1_709_249_400_000_000)),
        (3, Some(1_709_253_000_000_000)),
    ];
    for (entries, micros) in rows {
        let all = [UNDATED, EARLY, LATE];
        let text = joined(alloc, &all[..entries])?;
        let mut input = FromRead::new(Cursor::new(text));
        let added = add_to(alloc, &mut MemoryDisk::new(alloc), &mut input);
        let added = added.ok().ok_or("not added")?;
        assert_eq!(rt; added.entries, entries as u64);
        assert_eq!(rt; added.last.map(|last| last.micros()), micros);
    }
    Ok(())
}

// What a server has on its disk stays, its journal and its draft too.
#[test]
fn an_archive_comes_beside_a_server(rt: HostRuntime) -> Result<(), Fail> {
    let alloc = rt.alloc();
    let mut disk = served(alloc)?;
    let before = names_in(alloc, &mut disk)?.len();
    let (entries, _none) = told_of(alloc, &mut disk, &archive(alloc)?, u64::MAX)?;
    assert_eq!(rt; entries, 3);
    assert_eq!(rt; names_in(alloc, &mut disk)?.len(), before + 3);
    assert!(rt; has_file(alloc, &mut disk, b"new.archive")?);
    let text = archive_of(alloc, &mut disk)?;
    assert!(rt; has_all(&text, &[UNDATED, EARLY, LATE, OTHER, SAME_DAY]));
    let (_, _none) = told_of(alloc, &mut disk, &text, u64::MAX)?;
    assert!(rt; archive_of(alloc, &mut disk)? == text);
    Ok(())
}

// the first entries of the archive
fn first(alloc: Global, entries: u64) -> Result<Vec<u8>, Fail> {
    let all: &[&[u8]] = &[UNDATED, EARLY, LATE];
    joined(alloc, &all[..(entries as usize).min(3)])
}

// whether all entries before a fault are there, and no others
fn is_prefix(alloc: Global, text: &[u8], told: &Told, disk: &mut MemoryDisk) -> Result<bool, Fail> {
    let before = first(alloc, told.0)?;
    Ok(archive_of(alloc, disk)? == before && text.starts_with(&before))
}

// whether these octets are refused so behind the first entries, which are added
fn is_refused(
    alloc: Global,
    entries: u64,
    behind: &[u8],
    fault: ArchiveFault,
) -> Result<bool, Fail> {
    let mut disk = MemoryDisk::new(alloc);
    let text = joined(alloc, &[&first(alloc, entries)?, behind])?;
    let told = told_of(alloc, &mut disk, &text, u64::MAX)?;
    let is_told = match &told.1 {
        Some(AddFault::Input(EntriesFault::Archive(found))) => *found == fault,
        _ => false,
    };
    Ok(is_told && told.0 == entries && is_prefix(alloc, &text, &told, &mut disk)?)
}

// What is no archive is refused with its octet, and the entries before it are there.
#[test]
fn the_entries_before_a_fault_are_added(rt: HostRuntime) -> Result<(), Fail> {
    let alloc = rt.alloc();
    let rows = [
        (0, b"x".as_slice(), ArchiveFault::BadFrame { at: 0 }),
        (3, EARLY, ArchiveFault::NotAscending { at: 115 }),
        (3, b"99 <0>1 - - ", ArchiveFault::BadFrame { at: 127 }),
        (3, SHORT_TIME, ArchiveFault::NotCanonical { at: 115 }),
    ];
    for (entries, behind, fault) in rows {
        assert!(rt; is_refused(alloc, entries, behind, fault)?, "{fault:?}");
    }
    Ok(())
}

#[test]
fn the_entries_before_a_failure_are_added(rt: HostRuntime) -> Result<(), Fail> {
    let alloc = rt.alloc();
    let text = archive(alloc)?;
    for octets in [0, 19, 20, 67, 114, 115] {
        let mut disk = MemoryDisk::new(alloc);
        let told = told_of(alloc, &mut disk, &text, octets)?;
        assert!(rt; is_prefix(alloc, &text, &told, &mut disk)?, "at {octets}");
        let is_device = matches!(
            told.1,
            Some(AddFault::Input(EntriesFault::Input(InputFault::Device)))
        );
        assert!(rt; is_device, "at {octets}");
    }
    Ok(())
}

// A file under the name of a segment that has other octets stays, and is told.
#[test]
fn a_damaged_segment_is_told(rt: HostRuntime) -> Result<(), Fail> {
    let alloc = rt.alloc();
    let mut whole = MemoryDisk::new(alloc);
    let (_, _none) = told_of(alloc, &mut whole, EARLY, u64::MAX)?;
    let names = names_in(alloc, &mut whole)?;
    let name = names.first().ok_or("no segment")?;
    let mut disk = MemoryDisk::new(alloc);
    put(alloc, &mut disk, name.as_octets(), &[b"x"])?;
    let (entries, fault) = told_of(alloc, &mut disk, EARLY, u64::MAX)?;
    assert_eq!(rt; entries, 0);
    match fault {
        Some(AddFault::Segment(KeepFault::Differs { name: found })) => {
            assert!(rt; found.as_octets() == name.as_octets());
        }
        _ => return Err("another fault".into()),
    }
    assert_eq!(rt; names_in(alloc, &mut disk)?.len(), 1);
    Ok(())
}

// An addition that is stopped at each of its calls, with a crash whatever it leaves: the folder holds what
// it held and what was told, and nothing else but entries of the archive.
#[test]
fn an_addition_may_stop_at_any_call(rt: HostRuntime) -> Result<(), Fail> {
    let alloc = rt.alloc();
    let full = archive_of(alloc, &mut stopped(alloc, served(alloc)?, u64::MAX)?.0)?;
    for calls in [0, 1, 3, 5, 6, 8, 10, 12, 13, 15, 17, 19, 20, 21, 22, 24] {
        let (disk, entries) = stopped(alloc, served(alloc)?, calls)?;
        let (kept, octet) = match calls % 3 {
            0 => (0, None),
            1 => (7, Some(0)),
            _ => (FILE_MAX, None),
        };
        let mut disk = crash(disk, kept, octet, calls % 2 == 0)?;
        let held = archive_of(alloc, &mut disk)?;
        assert!(rt; has_all(&held, &[OTHER, SAME_DAY]), "at {calls}");
        assert!(rt; entries == 0 || held == full, "at {calls}");
        let (_, _none) = told_of(alloc, &mut disk, &archive(alloc)?, u64::MAX)?;
        assert!(rt; archive_of(alloc, &mut disk)? == full, "at {calls}");
    }
    Ok(())
}
