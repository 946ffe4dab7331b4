//! Devices that fail.

use crate::stores::{A, B, C, batches, joined, looks, put, stored};
use disk::{DiskFault, Fuse as DiskFuse};
use octet_devices::{Fuse, ToWrite};
use std::alloc::Global;
use std::test::Fail;
use store_follow::{FollowFault, Follower};

// Whether a look over an output that takes so many octets writes these alone and fails, and the next
// look goes on with the batches that were not written whole.
fn goes_on(alloc: Global, octets: u64, rest: &[&[u8]]) -> Result<bool, Fail> {
    let mut disk = stored(alloc, &[A, B, C])?;
    let mut follower = Follower::from_start();
    let mut output = Fuse::new(ToWrite::new(Vec::new(alloc)), octets, u64::MAX);
    let failed = match follower.look(alloc, &mut disk, &mut output) {
        Ok(_) => false,
        Err(fault) => fault == FollowFault::Write,
    };
    let all = joined(alloc, &[A, B, C])?;
    let written = output.into_inner().into_inner();
    looks(alloc, &mut follower, &mut disk, Ok(false), rest)?;
    Ok(failed && written.len() as u64 == octets && all.starts_with(&written))
}

#[test]
fn a_batch_is_written_again_if_the_output_failed(rt: HostRuntime) -> Result<(), Fail> {
    let alloc = rt.alloc();
    assert!(rt; goes_on(alloc, 0, &[A, B, C])?);
    assert!(rt; goes_on(alloc, 21, &[A, B, C])?);
    assert!(rt; goes_on(alloc, 22, &[B, C])?);
    assert!(rt; goes_on(alloc, 23, &[B, C])?);
    assert!(rt; goes_on(alloc, 44, &[C])?);
    Ok(())
}

// Whether a look over a disk that fails after so many calls answers so and writes these texts, and the
// next look goes on behind them.
fn stops(
    alloc: Global,
    calls: u64,
    fault: FollowFault,
    before: &[&[u8]],
    rest: &[&[u8]],
) -> Result<(), Fail> {
    let mut disk = DiskFuse::new(stored(alloc, &[A, B])?, calls);
    let mut follower = Follower::from_start();
    looks(alloc, &mut follower, &mut disk, Err(fault), before)?;
    let mut disk = disk.into_inner();
    looks(alloc, &mut follower, &mut disk, Ok(false), rest)
}

#[test]
fn a_disk_that_fails_is_told(rt: HostRuntime) -> Result<(), Fail> {
    let alloc = rt.alloc();
    let names = FollowFault::Names {
        fault: DiskFault::Failed,
    };
    let read = FollowFault::Read {
        number: 1,
        fault: DiskFault::Failed,
    };
    stops(alloc, 0, names, &[], &[A, B])?;
    stops(alloc, 1, read, &[], &[A, B])?;
    stops(alloc, 2, read, &[], &[A, B])?;
    stops(alloc, 3, read, &[A], &[B])?;
    stops(alloc, 4, read, &[A], &[B])?;
    stops(alloc, 5, read, &[A, B], &[])
}

// Whether a look behind a batch fails so over a disk that fails after so many calls, and the next one goes on.
fn stops_behind(alloc: Global, calls: u64, fault: FollowFault) -> Result<(), Fail> {
    let mut disk = stored(alloc, &[A])?;
    let mut follower = Follower::from_start();
    looks(alloc, &mut follower, &mut disk, Ok(false), &[A])?;
    put(alloc, &mut disk, b"journal.1", &batches(alloc, &[A, B])?)?;
    let mut fuse = DiskFuse::new(disk, calls);
    looks(alloc, &mut follower, &mut fuse, Err(fault), &[])?;
    let mut disk = fuse.into_inner();
    looks(alloc, &mut follower, &mut disk, Ok(false), &[B])
}

#[test]
fn a_disk_that_fails_behind_a_batch_is_told(rt: HostRuntime) -> Result<(), Fail> {
    let alloc = rt.alloc();
    let read = FollowFault::Read {
        number: 1,
        fault: DiskFault::Failed,
    };
    stops_behind(alloc, 1, read)?;
    stops_behind(alloc, 2, read)
}
