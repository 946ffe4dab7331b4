//! Copies that are not finished.

use crate::copies::{A, B, FIRST, journal_copy, stored};
use crate::full::FullDisk;
use crate::views::{copied, count_in, has_file, ran, view_of};
use disk::MemoryDisk;
use std::alloc::Global;
use std::test::Fail;
use store_test_support::calls::{Stop, crash, fused, names_in, octets_of, put, stops};

#[test]
fn a_folder_with_files_is_refused(rt: HostRuntime) -> Result<(), Fail> {
    let alloc = rt.alloc();
    let mut view = view_of(alloc, &mut stored(alloc)?)?;
    let mut target = MemoryDisk::new(alloc);
    put(alloc, &mut target, b"x", &[A])?;
    let (status, lines) = ran(alloc, &mut view, &mut target);
    assert_eq!(rt; status, 2);
    assert_eq!(rt;
        lines.as_slice(),
        b"the folder of the copy has files\n".as_slice()
    );
    assert_eq!(rt; count_in(alloc, &mut target)?, 1);
    Ok(())
}

// whether each file of a folder is a whole copy, or the draft
fn has_whole_copies(alloc: Global, disk: &mut MemoryDisk) -> Result<bool, Fail> {
    let mut whole = true;
    for name in names_in(alloc, disk)? {
        let octets = octets_of(alloc, disk, name.as_octets())?;
        whole = whole
            && match name.as_octets() {
                b"backup.archive" => true,
                b"journal.1" => octets == journal_copy(alloc)?,
                other => other == FIRST && octets.as_slice() == B,
            };
    }
    Ok(whole)
}

// what a crash leaves of a copy that stops so
fn left_by(alloc: Global, stop: Stop) -> Result<MemoryDisk, Fail> {
    let mut view = view_of(alloc, &mut stored(alloc)?)?;
    let mut target = fused(MemoryDisk::new(alloc), stop.calls);
    let _ = copied(alloc, &mut view, &mut target);
    crash(target.into_inner(), stop.kept, stop.octet, stop.kept == 0)
}

#[test]
fn a_crash_at_any_call_leaves_whole_copies(rt: HostRuntime) -> Result<(), Fail> {
    let alloc = rt.alloc();
    for stop in stops(alloc, 20, &[0, 3, 4096], &[None, Some(b'!')])? {
        let mut left = left_by(alloc, stop)?;
        assert!(rt; has_whole_copies(alloc, &mut left)?, "{stop:?}");
    }
    Ok(())
}

#[test]
fn a_full_disk_is_told(rt: HostRuntime) -> Result<(), Fail> {
    let alloc = rt.alloc();
    let mut view = view_of(alloc, &mut stored(alloc)?)?;
    let mut target = FullDisk::new(MemoryDisk::new(alloc), 60);
    let (status, lines) = ran(alloc, &mut view, &mut target);
    assert_eq!(rt; status, 2);
    assert_eq!(rt;
        lines.as_slice(),
        b"backup.archive write fault\n".as_slice()
    );
    assert!(rt; has_file(alloc, &mut target, b"journal.1", &journal_copy(alloc)?)?);
    Ok(())
}

#[test]
fn a_file_that_fails_is_told_with_its_name(rt: HostRuntime) -> Result<(), Fail> {
    let alloc = rt.alloc();
    let mut view = view_of(alloc, &mut stored(alloc)?)?;
    view.octets = 40;
    let mut target = MemoryDisk::new(alloc);
    let (status, lines) = ran(alloc, &mut view, &mut target);
    assert_eq!(rt; status, 2);
    assert!(rt; lines.starts_with(FIRST) && lines.ends_with(b" read fault\n"));
    Ok(())
}
