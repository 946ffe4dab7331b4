//! Segments that are sealed.

use crate::folders::{
    A, B, ROOT, Step, TWO, folder, keeping, octets_of, read, stepped, steps, take_step,
};
use disk::{Disk, DiskFault, MemoryDisk};
use ledger_disk::{ListFault, Purpose};
use std::alloc::Global;
use std::test::Fail;

// A folder of two segments, of which one is sealed.
fn sealed(alloc: Global) -> Result<MemoryDisk, Fail> {
    let steps = [Step::CatchUp, Step::Seal(A)];
    stepped(alloc, folder(alloc, &[A, B])?, Purpose::Seal, &steps)
}

#[test]
fn a_seal_is_a_line(rt: HostRuntime) -> Result<(), Fail> {
    let alloc = rt.alloc();
    let mut disk = sealed(alloc)?;
    let standing = read(alloc, &mut disk)?.standing;
    let listed = standing.find(A).ok_or("it is not listed")?;
    if !listed.sealed || listed.count != 2 || listed.octets != 20 {
        return Err(Fail::new("it is not sealed"));
    }
    let mut disk = keeping(alloc, disk, Purpose::Seal)?;
    let line = disk.last_line().map_err(|_| "no last line")?.ok_or("none")?;
    let ledger = octets_of(alloc, &mut disk.into_inner(), b"ledger")?.ok_or("no ledger")?;
    if !ledger[..ledger.len().saturating_sub(1)].ends_with(&line) || !has_root(&line) {
        return Err(Fail::new("another last line"));
    }
    Ok(())
}

// Whether the root stands before the chain.
fn has_root(line: &[u8]) -> bool {
    line.len() > 129 && line[line.len() - 129..].starts_with(&ROOT)
}

#[test]
fn what_is_not_listed_is_not_sealed(rt: HostRuntime) -> Result<(), Fail> {
    let alloc = rt.alloc();
    let mut disk = keeping(alloc, folder(alloc, &[A])?, Purpose::Seal)?;
    if take_step(alloc, &mut disk, Step::Seal(A))? != Err(ListFault::Unlisted) {
        return Err(Fail::new("it is sealed"));
    }
    Ok(())
}

#[test]
fn joins_leave_sealed_segments_alone(rt: HostRuntime) -> Result<(), Fail> {
    let alloc = rt.alloc();
    let mut disk = keeping(alloc, sealed(alloc)?, Purpose::Join)?;
    if !steps(alloc, &mut disk, &[Step::CatchUp, Step::Place(B, TWO)])? {
        return Err(Fail::new("a step failed"));
    }
    for name in &disk.names(alloc)? {
        if name.as_octets() == A {
            return Err(Fail::new("it is shown"));
        }
    }
    if take_step(alloc, &mut disk, Step::Remove(A))? != Err(ListFault::Disk(DiskFault::Failed)) {
        return Err(Fail::new("it is not refused"));
    }
    if octets_of(alloc, &mut disk.into_inner(), A)?.is_none() {
        return Err(Fail::new("it is removed"));
    }
    Ok(())
}

#[test]
fn sealed_segments_expire(rt: HostRuntime) -> Result<(), Fail> {
    let alloc = rt.alloc();
    let steps = [Step::CatchUp, Step::Remove(A)];
    let mut disk = stepped(alloc, sealed(alloc)?, Purpose::Expire, &steps)?;
    if octets_of(alloc, &mut disk, A)?.is_some() {
        return Err(Fail::new("it is there"));
    }
    if read(alloc, &mut disk)?.standing.find(A).is_some() {
        return Err(Fail::new("it is listed"));
    }
    Ok(())
}
