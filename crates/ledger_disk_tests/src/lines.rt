//! Lines of segments that come and go.

use crate::folders::{
    A, B, C, Step, TWO, Ticks, folder, keeping, octets_of, put, read, says, stepped, steps,
    take_step,
};
use disk::{Disk, DiskFault, MemoryDisk};
use ledger_disk::{LedgerDisk, ListFault, Purpose};
use std::test::Fail;

// how many segments wait for their lines at most
const WAITING_MAX: u64 = 1_024;

const ADDED: &[u8] =
    b"Z add 2026-11-25.0000000000000000000000000000000000000000000000000000000000000000.archive 2 20";

const JOINED: &[u8] =
    b"Z join mixed.00000000000000000000000000000000000000000000000000000000000000aa.archive 2 20";

const GONE_JOINED: &[u8] =
    b"Z gone 2026-11-25.0000000000000000000000000000000000000000000000000000000000000000.archive 2 20 joined 2";

const GONE: &[u8] =
    b"Z gone 2026-11-25.0000000000000000000000000000000000000000000000000000000000000000.archive 2 20 expired";

#[test]
fn what_comes_and_goes_has_its_line(rt: HostRuntime) -> Result<(), Fail> {
    let alloc = rt.alloc();
    let disk = MemoryDisk::new(alloc);
    let steps = [Step::CatchUp, Step::Place(A, TWO)];
    let disk = stepped(alloc, disk, Purpose::Add, &steps)?;
    let steps = [Step::CatchUp, Step::Place(B, TWO), Step::Remove(A)];
    let mut disk = stepped(alloc, disk, Purpose::Join, &steps)?;
    if !says(alloc, &mut disk, &[ADDED, JOINED, GONE_JOINED])? {
        return Err(Fail::new("other lines"));
    }
    if octets_of(alloc, &mut disk, A)?.is_some() || octets_of(alloc, &mut disk, B)?.is_none() {
        return Err(Fail::new("other files"));
    }
    Ok(())
}

#[test]
fn a_store_from_before_is_listed(rt: HostRuntime) -> Result<(), Fail> {
    let alloc = rt.alloc();
    let mut disk = folder(alloc, &[A])?;
    put(alloc, &mut disk, C, b"3 ab")?;
    put(alloc, &mut disk, b"journal.1", b"")?;
    let steps = [Step::CatchUp, Step::CatchUp, Step::Remove(A)];
    let mut disk = stepped(alloc, disk, Purpose::Expire, &steps)?;
    if !says(alloc, &mut disk, &[ADDED, GONE])? {
        return Err(Fail::new("other lines"));
    }
    Ok(())
}

#[test]
fn a_server_lists_where_there_is_a_ledger_or_no_segment(rt: HostRuntime) -> Result<(), Fail> {
    let alloc = rt.alloc();
    let steps = [Step::Place(A, TWO)];
    let mut disk = stepped(alloc, MemoryDisk::new(alloc), Purpose::Serve, &steps)?;
    if !says(alloc, &mut disk, &[ADDED])? {
        return Err(Fail::new("a new store is not listed"));
    }
    let mut disk = folder(alloc, &[B])?;
    put(alloc, &mut disk, b"ledger", b"")?;
    let mut disk = stepped(alloc, disk, Purpose::Serve, &steps)?;
    if !says(alloc, &mut disk, &[ADDED])? {
        return Err(Fail::new("what has a ledger is not listed"));
    }
    let mut disk = stepped(alloc, folder(alloc, &[B])?, Purpose::Serve, &steps)?;
    if octets_of(alloc, &mut disk, b"ledger")?.is_some() {
        return Err(Fail::new("a store from before is listed"));
    }
    Ok(())
}

#[test]
fn a_torn_line_is_cut_off(rt: HostRuntime) -> Result<(), Fail> {
    let alloc = rt.alloc();
    let mut disk = MemoryDisk::new(alloc);
    put(alloc, &mut disk, b"ledger", b"1 2026")?;
    let steps = [Step::CatchUp, Step::Place(A, TWO)];
    let mut disk = stepped(alloc, disk, Purpose::Add, &steps)?;
    if !says(alloc, &mut disk, &[ADDED])? {
        return Err(Fail::new("other lines"));
    }
    Ok(())
}

#[test]
fn many_lines_are_written(rt: HostRuntime) -> Result<(), Fail> {
    let alloc = rt.alloc();
    let mut disk = keeping(alloc, MemoryDisk::new(alloc), Purpose::Add)?;
    for _ in 0..12 {
        take_step(alloc, &mut disk, Step::Place(A, TWO))?.map_err(|_| "a step failed")?;
    }
    let mut disk = disk.into_inner();
    if !says(alloc, &mut disk, &[ADDED; 12])? {
        return Err(Fail::new("other lines"));
    }
    Ok(())
}

#[test]
fn a_broken_chain_is_told(rt: HostRuntime) -> Result<(), Fail> {
    let alloc = rt.alloc();
    let mut disk = folder(alloc, &[A])?;
    put(alloc, &mut disk, b"ledger", b"no line\n")?;
    let mut disk = keeping(alloc, disk, Purpose::Add)?;
    if take_step(alloc, &mut disk, Step::CatchUp)? != Err(ListFault::Broken { at: 0 }) {
        return Err(Fail::new("not told"));
    }
    if take_step(alloc, &mut disk, Step::Remove(A))? != Err(ListFault::Disk(DiskFault::Failed)) {
        return Err(Fail::new("a segment is removed"));
    }
    Ok(())
}

// Whether a server tells this of its ledger, and has told so often.
fn has_told<D: Disk + Drop>(
    disk: &LedgerDisk<D, Ticks>,
    unlisted_for: Option<ListFault>,
    told: u64,
) -> bool {
    disk.turns().unlisted_for == unlisted_for && disk.turns().told == told
}

#[test]
fn a_server_goes_on_without_its_ledger(rt: HostRuntime) -> Result<(), Fail> {
    let alloc = rt.alloc();
    let mut disk = folder(alloc, &[C])?;
    put(alloc, &mut disk, b"ledger", b"no line\n")?;
    let mut disk = keeping(alloc, disk, Purpose::Serve)?;
    let placed = [Step::Place(A, TWO), Step::Place(B, TWO)];
    if !steps(alloc, &mut disk, &placed)? {
        return Err(Fail::new("it does not go on"));
    }
    if !has_told(&disk, Some(ListFault::Broken { at: 0 }), 1) {
        return Err(Fail::new("not told once"));
    }
    let renewed = [Step::Remove(b"ledger"), Step::Place(C, TWO)];
    if !steps(alloc, &mut disk, &renewed)? || !has_told(&disk, None, 2) {
        return Err(Fail::new("not told that it lists again"));
    }
    let mut disk = disk.into_inner();
    if !says(alloc, &mut disk, &[ADDED, b"archive 2 20", b"archive 2 20"])? {
        return Err(Fail::new("other lines"));
    }
    Ok(())
}

#[test]
fn a_server_without_its_ledger_lists_the_first_that_wait(rt: HostRuntime) -> Result<(), Fail> {
    let alloc = rt.alloc();
    let mut disk = MemoryDisk::new(alloc);
    put(alloc, &mut disk, b"ledger", b"no line\n")?;
    let mut disk = keeping(alloc, disk, Purpose::Serve)?;
    for _ in 0..WAITING_MAX + 10 {
        take_step(alloc, &mut disk, Step::Place(A, TWO))?.map_err(|_| "a step failed")?;
    }
    let renewed = [Step::Remove(b"ledger"), Step::Place(A, TWO)];
    if !steps(alloc, &mut disk, &renewed)? {
        return Err(Fail::new("a step failed"));
    }
    let read = read(alloc, &mut disk.into_inner())?;
    if read.head.number() != WAITING_MAX {
        return Err(Fail::new("another number of lines"));
    }
    Ok(())
}

#[test]
fn what_is_not_there_has_no_line(rt: HostRuntime) -> Result<(), Fail> {
    let alloc = rt.alloc();
    let mut disk = keeping(alloc, MemoryDisk::new(alloc), Purpose::Expire)?;
    if take_step(alloc, &mut disk, Step::Remove(A))? != Err(ListFault::Disk(DiskFault::Missing)) {
        return Err(Fail::new("another answer"));
    }
    if octets_of(alloc, &mut disk.into_inner(), b"ledger")?.is_some() {
        return Err(Fail::new("a ledger is made"));
    }
    Ok(())
}
