//! Disks that stop at each call in turn.

use crate::folders::{A, B, Step, TWO, folder, octets_of, read, says, stepped, stopped};
use disk::MemoryDisk;
use ledger_disk::Purpose;
use std::alloc::Global;
use std::test::Fail;

// how many calls the steps below make at most
const CALLS: u64 = 200;

// Whether each segment that was removed is told as gone, and what the ledger lists is there.
fn is_told(alloc: Global, disk: &mut MemoryDisk) -> Result<bool, Fail> {
    let is_there = octets_of(alloc, disk, A)?.is_some();
    let read = read(alloc, disk)?;
    Ok(is_there || read.head.number() > 0 && read.standing.find(A).is_none())
}

#[test]
fn nothing_goes_without_its_line(rt: HostRuntime) -> Result<(), Fail> {
    let alloc = rt.alloc();
    let steps = [Step::CatchUp, Step::Place(B, TWO), Step::Remove(A)];
    for calls in 0..CALLS {
        let disk = folder(alloc, &[A])?;
        let disk = stopped(alloc, disk, calls, Purpose::Join, &steps)?;
        let mut disk = disk.crash(0, None, calls % 2 == 0)?;
        if !is_told(alloc, &mut disk)? {
            return Err(Fail::new(format_args!("it goes untold at {calls}")));
        }
    }
    Ok(())
}

#[test]
fn what_a_crash_leaves_is_gone_on_with(rt: HostRuntime) -> Result<(), Fail> {
    let alloc = rt.alloc();
    let steps = [Step::CatchUp, Step::Place(B, TWO), Step::Remove(A)];
    for calls in 0..CALLS {
        let disk = folder(alloc, &[A])?;
        let disk = stopped(alloc, disk, calls, Purpose::Join, &steps)?;
        let disk = disk.crash((calls % 90) as usize, None, false)?;
        let mut disk = stepped(alloc, disk, Purpose::Expire, &[Step::CatchUp])?;
        let standing = read(alloc, &mut disk)?.standing;
        let is_there = octets_of(alloc, &mut disk, A)?.is_some();
        if standing.find(A).is_some() != is_there {
            return Err(Fail::new(format_args!("it is listed wrong at {calls}")));
        }
    }
    Ok(())
}

#[test]
fn the_whole_run_is_told(rt: HostRuntime) -> Result<(), Fail> {
    let alloc = rt.alloc();
    let disk = folder(alloc, &[A])?;
    let steps = [Step::CatchUp, Step::Place(B, TWO), Step::Remove(A)];
    let mut disk = stopped(alloc, disk, CALLS, Purpose::Join, &steps)?;
    if octets_of(alloc, &mut disk, A)?.is_some()
        || !says(alloc, &mut disk, &[b"", b"", b"joined 2"])?
    {
        return Err(Fail::new("it needs more calls"));
    }
    Ok(())
}
