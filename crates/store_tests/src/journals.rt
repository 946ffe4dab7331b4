use disk::{Disk, DiskFault, MemoryDisk};
use journal::{Journal, batch_len, open, settle};
use std::alloc::Global;
use std::test::Fail;
use store_test_support::calls::{crash, fused, named, octets_of, put, stops};

const NAME: &[u8] = b"journal.1";

// a batch, and behind it the closed octet of older programs and a batch that was never opened
const TORN: [u8; 15] = [1, 2, 0, 0, 0, b'a', b'b', 0, 3, 0, 0, 0, b'x', b'y', b'z'];

// the first batch of TORN
const BATCH: [u8; 7] = [1, 2, 0, 0, 0, b'a', b'b'];

fn create<D: Disk>(alloc: Global, disk: &mut D) -> Result<Journal, Fail> {
    Ok(Journal::create(disk, named(alloc, NAME)?)?)
}

fn commit<D: Disk>(
    alloc: Global,
    journal: &mut Journal,
    disk: &mut D,
    batch: &[u8],
) -> Result<(), DiskFault> {
    journal.commit(alloc, disk, batch)
}

// the batches of a journal that is opened
fn batches_of<D: Disk>(alloc: Global, disk: &mut D) -> Result<Vec<u8>, Fail> {
    let (_journal, batches) = open(alloc, disk, named(alloc, NAME)?)?;
    Ok(batches)
}

// an empty folder, and its new journal
fn created(alloc: Global) -> Result<(MemoryDisk, Journal), Fail> {
    let mut disk = MemoryDisk::new(alloc);
    let journal = create(alloc, &mut disk)?;
    Ok((disk, journal))
}

fn settled<D: Disk>(alloc: Global, disk: &mut D) -> Result<(), Fail> {
    Ok(settle(disk, &named(alloc, NAME)?)?)
}

#[test]
fn a_torn_batch_is_cut(rt: HostRuntime) -> Result<(), Fail> {
    let alloc = rt.alloc();
    let mut disk = MemoryDisk::new(alloc);
    put(alloc, &mut disk, NAME, &[&TORN])?;
    settled(alloc, &mut disk)?;
    let batches = batches_of(alloc, &mut disk)?;
    assert!(rt; batches.as_slice() == BATCH.as_slice());
    assert_eq!(rt; batch_len(&batches), Some(2));
    let cut = [1, 2, 0, 0, 0, b'a', b'b', 254];
    assert!(rt; octets_of(alloc, &mut disk, NAME)?.as_slice() == cut.as_slice());
    Ok(())
}

#[test]
fn a_batch_is_added_behind_the_first(rt: HostRuntime) -> Result<(), Fail> {
    let alloc = rt.alloc();
    let (mut disk, mut journal) = created(alloc)?;
    commit(alloc, &mut journal, &mut disk, b"ab")?;
    commit(alloc, &mut journal, &mut disk, b"")?;
    assert_eq!(rt; disk.sync_count(), 6);
    let want = [1, 2, 0, 0, 0, b'a', b'b', 1, 0, 0, 0, 0];
    assert!(rt; batches_of(alloc, &mut disk)?.as_slice() == want.as_slice());
    Ok(())
}

// The folder where a commit stops after so many calls, and whether the commit was told as done.
fn stopped(alloc: Global, calls: u64) -> Result<(MemoryDisk, bool), Fail> {
    let (disk, mut journal) = created(alloc)?;
    let mut fuse = fused(disk, calls);
    let done = commit(alloc, &mut journal, &mut fuse, b"ab").is_ok();
    Ok((fuse.into_inner(), done))
}

// Whether a folder has the batch or none, and the batch if it was told as committed.
fn is_sound(alloc: Global, mut disk: MemoryDisk, done: bool) -> Result<bool, Fail> {
    let batches = batches_of(alloc, &mut disk)?;
    Ok(batches.as_slice() == BATCH.as_slice() || batches.is_empty() && !done)
}

// A commit that is stopped at each of its calls leaves the batch or none, and once it was told as
// committed it is there.
#[test]
fn a_commit_may_stop_at_any_call(rt: HostRuntime) -> Result<(), Fail> {
    let alloc = rt.alloc();
    for calls in 0..6 {
        let (disk, done) = stopped(alloc, calls)?;
        assert!(rt; is_sound(alloc, disk, done)?, "at {calls}");
    }
    Ok(())
}

// The same with a crash in place of the stop, whatever it leaves of what was not on the disk.
#[test]
fn a_crash_leaves_the_batch_or_none(rt: HostRuntime) -> Result<(), Fail> {
    let alloc = rt.alloc();
    let octets = [None, Some(0), Some(1), Some(2)];
    for stop in &stops(alloc, 5, &[0, 1, 2, 3, 4, 5, 6, 7], &octets)? {
        let (disk, done) = stopped(alloc, stop.calls)?;
        let disk = crash(disk, stop.kept, stop.octet, false)?;
        assert!(rt; is_sound(alloc, disk, done)?, "at {stop:?}");
    }
    Ok(())
}
