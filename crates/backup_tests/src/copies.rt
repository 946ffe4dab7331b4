//! Stores are copied.

use crate::views::{View, copied, count_in, has_file, ran, view_of};
use disk::{Disk, MemoryDisk};
use std::alloc::Global;
use std::test::Fail;
use store_backup::ROUNDS_MAX;
use store_test_support::calls::{crash, joined, overwrite, put};

/// The name of a segment, whose octets are B.
pub(crate) const FIRST: &[u8] =
    b"2024-02-29.143260abab3d41d3e9860999c599619802b3353737d9e846bc1d40c266256871.archive";

/// The name of another.
pub(crate) const OTHER: &[u8] =
    b"2024-02-29.5555555555555555555555555555555555555555555555555555555555555555.archive";

/// An entry of no time, and one of a day.
pub(crate) const A: &[u8] = b"19 <13>1 - h a - - - x";

pub(crate) const B: &[u8] = b"45 <12>1 2024-02-29T23:00:00.000000Z h a - - - z";

/// What stands before a batch of an entry, as older programs wrote it.
pub(crate) const BATCH: &[u8] = &[1, 22, 0, 0, 0];

/// A folder of a segment, of a journal behind whose batch another one was being written, and of other files.
pub(crate) fn stored(alloc: Global) -> Result<MemoryDisk, Fail> {
    let mut disk = MemoryDisk::new(alloc);
    put(alloc, &mut disk, FIRST, &[B])?;
    put(
        alloc,
        &mut disk,
        b"journal.1",
        &[BATCH, A, b"\xfe\x09\0\0\0x"],
    )?;
    put(alloc, &mut disk, b"lock", &[])?;
    put(alloc, &mut disk, b"refused", &[A])?;
    Ok(disk)
}

/// The copy of that journal.
pub(crate) fn journal_copy(alloc: Global) -> Result<Vec<u8>, Fail> {
    joined(alloc, &[BATCH, A, b"\xfe"])
}

/// Whether a folder has the copies of those files.
pub(crate) fn has_copies<D: Disk>(alloc: Global, disk: &mut D) -> Result<bool, Fail> {
    let journal = journal_copy(alloc)?;
    Ok(has_file(alloc, disk, FIRST, B)? && has_file(alloc, disk, b"journal.1", &journal)?)
}

#[test]
fn a_store_is_copied(rt: HostRuntime) -> Result<(), Fail> {
    let alloc = rt.alloc();
    let mut view = view_of(alloc, &mut stored(alloc)?)?;
    let mut target = MemoryDisk::new(alloc);
    let (status, lines) = ran(alloc, &mut view, &mut target);
    assert_eq!(rt; status, 0);
    assert_eq!(rt; lines.as_slice(), b"copied 2 files 76 octets\n".as_slice());
    assert_eq!(rt; count_in(alloc, &mut target)?, 2);
    assert!(rt; has_copies(alloc, &mut target)?);
    Ok(())
}

#[test]
fn a_copy_is_on_the_disk(rt: HostRuntime) -> Result<(), Fail> {
    let alloc = rt.alloc();
    let mut view = view_of(alloc, &mut stored(alloc)?)?;
    let mut target = MemoryDisk::new(alloc);
    let _ = copied(alloc, &mut view, &mut target)?;
    let mut target = crash(target, 0, Some(b'!'), true)?;
    assert!(rt; has_copies(alloc, &mut target)?);
    Ok(())
}

// the name of a segment of both entries
const BOTH: &[u8] =
    b"mixed.2366fd8543da4c5f4ec7c8b8b1f7f79c893145fba52703eb07902ccf5e8a5d61.archive";

// a folder whose journal and segment became one segment
fn compacted(alloc: Global) -> Result<View, Fail> {
    let mut disk = MemoryDisk::new(alloc);
    put(alloc, &mut disk, BOTH, &[A, B])?;
    view_of(alloc, &mut disk)
}

#[test]
fn what_goes_is_found_elsewhere(rt: HostRuntime) -> Result<(), Fail> {
    let alloc = rt.alloc();
    for leaving in [b"journal.1".as_slice(), FIRST] {
        let mut view = view_of(alloc, &mut stored(alloc)?)?;
        view.change(leaving.to_vec(alloc)?, compacted(alloc)?);
        let mut target = MemoryDisk::new(alloc);
        let (status, _) = ran(alloc, &mut view, &mut target);
        assert_eq!(rt; status, 0);
        assert!(rt; has_file(alloc, &mut target, BOTH, &joined(alloc, &[A, B])?)?);
    }
    Ok(())
}

#[test]
fn a_folder_that_keeps_changing_is_given_up(rt: HostRuntime) -> Result<(), Fail> {
    let alloc = rt.alloc();
    let mut view = view_of(alloc, &mut stored(alloc)?)?;
    view.lose(FIRST.to_vec(alloc)?);
    let mut target = MemoryDisk::new(alloc);
    let (status, lines) = ran(alloc, &mut view, &mut target);
    assert_eq!(rt; status, 2);
    assert_eq!(rt; lines.as_slice(), b"the folder keeps changing\n".as_slice());
    assert_eq!(rt; view.listings, ROUNDS_MAX as u64 * 2);
    Ok(())
}

#[test]
fn a_damaged_file_is_told_and_not_copied(rt: HostRuntime) -> Result<(), Fail> {
    let alloc = rt.alloc();
    let mut disk = stored(alloc)?;
    put(alloc, &mut disk, OTHER, &[B])?;
    put(alloc, &mut disk, b"journal.2", &[BATCH, B])?;
    let mut target = MemoryDisk::new(alloc);
    let (status, lines) = ran(alloc, &mut view_of(alloc, &mut disk)?, &mut target);
    assert_eq!(rt; status, 1);
    let told = [
        b"journal.2 ".as_slice(),
        OTHER,
        b" digest\ncopied 2 files 76 octets\n",
    ];
    assert!(rt; lines.starts_with(told[0]) && lines.ends_with(&joined(alloc, &told[1..])?));
    assert_eq!(rt; count_in(alloc, &mut target)?, 2);
    assert!(rt; has_copies(alloc, &mut target)?);
    Ok(())
}

#[test]
fn a_flipped_octet_is_told(rt: HostRuntime) -> Result<(), Fail> {
    let alloc = rt.alloc();
    let mut disk = stored(alloc)?;
    overwrite(alloc, &mut disk, FIRST, 40, b'!')?;
    let mut target = MemoryDisk::new(alloc);
    let (status, lines) = ran(alloc, &mut view_of(alloc, &mut disk)?, &mut target);
    assert_eq!(rt; status, 1);
    let told = joined(alloc, &[FIRST, b" digest\ncopied 1 files 28 octets\n"])?;
    assert_eq!(rt; lines, told);
    assert_eq!(rt; count_in(alloc, &mut target)?, 1);
    Ok(())
}
