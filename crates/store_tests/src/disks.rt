use disk::{DiskFault, FileName, MemoryDisk};
use std::test::Fail;
use store_test_support::calls::{Change, change_all, fused, names_in, octets_of};

#[test]
fn names_are_tested(rt: HostRuntime) -> Result<(), Fail> {
    let alloc = rt.alloc();
    for (octets, fits) in [
        (b"journal.1".as_slice(), true),
        (b"...".as_slice(), true),
        (b"".as_slice(), false),
        (b".".as_slice(), false),
        (b"..".as_slice(), false),
        (b"a/b".as_slice(), false),
        (b"a\0".as_slice(), false),
    ] {
        assert_eq!(rt;
            FileName::new(alloc, octets)?.is_some(),
            fits,
            "at {octets:?}"
        );
    }
    Ok(())
}

#[test]
fn a_file_is_written_cut_and_renamed(rt: HostRuntime) -> Result<(), Fail> {
    let alloc = rt.alloc();
    let mut disk = MemoryDisk::new(alloc);
    let rows = [
        (Change::Append("one", "a"), Err(DiskFault::Missing)),
        (Change::Create("one"), Ok(())),
        (Change::Create("one"), Err(DiskFault::Exists)),
        (Change::Append("one", "abcd"), Ok(())),
        (Change::Overwrite("one", 1, b'x'), Ok(())),
        (Change::Cut("one", 3), Ok(())),
        (Change::Sync("one"), Ok(())),
        (Change::Rename("one", "two"), Ok(())),
        (Change::SyncNames, Ok(())),
    ];
    change_all(alloc, &mut disk, &rows)?;
    assert_eq!(rt; disk.sync_count(), 2);
    assert!(rt; octets_of(alloc, &mut disk, b"two")?.as_slice() == b"axc".as_slice());
    assert_eq!(rt; names_in(alloc, &mut disk)?.len(), 1);
    change_all(alloc, &mut disk, &[(Change::Remove("two"), Ok(()))])?;
    assert_eq!(rt; names_in(alloc, &mut disk)?.len(), 0);
    Ok(())
}

#[test]
fn a_fuse_stops_every_later_call(rt: HostRuntime) -> Result<(), Fail> {
    let alloc = rt.alloc();
    let mut disk = fused(MemoryDisk::new(alloc), 2);
    let rows = [
        (Change::Create("one"), Ok(())),
        (Change::Append("one", "ab"), Ok(())),
        (Change::Append("one", "cd"), Err(DiskFault::Failed)),
        (Change::Sync("one"), Err(DiskFault::Failed)),
    ];
    change_all(alloc, &mut disk, &rows)?;
    let mut disk = disk.into_inner();
    assert!(rt; octets_of(alloc, &mut disk, b"one")?.as_slice() == b"ab".as_slice());
    Ok(())
}
