//! Looks at stores that grow.

use crate::stores::{
    A, B, C, batch, batch_with, batches, joined, look, looks, named, put, remove, stored,
};
use disk::{Disk, MemoryDisk};
use std::test::Fail;
use store_follow::{BATCHES_MAX, FollowFault, Follower};

#[test]
fn batches_are_written_as_they_come(rt: HostRuntime) -> Result<(), Fail> {
    let alloc = rt.alloc();
    let mut disk = stored(alloc, &[A])?;
    let mut follower = Follower::from_start();
    looks(alloc, &mut follower, &mut disk, Ok(false), &[A])?;
    looks(alloc, &mut follower, &mut disk, Ok(false), &[])?;
    put(alloc, &mut disk, b"journal.1", &batches(alloc, &[A, B, C])?)?;
    looks(alloc, &mut follower, &mut disk, Ok(false), &[B, C])?;
    looks(alloc, &mut follower, &mut disk, Ok(false), &[])?;
    Ok(())
}

#[test]
fn a_batch_of_more_entries_is_one_text(rt: HostRuntime) -> Result<(), Fail> {
    let alloc = rt.alloc();
    let both = joined(alloc, &[B, A])?;
    let mut disk = stored(alloc, &[&both, b"", C])?;
    looks(
        alloc,
        &mut Follower::from_start(),
        &mut disk,
        Ok(false),
        &[B, A, C],
    )
}

#[test]
fn a_batch_counts_once_it_is_open(rt: HostRuntime) -> Result<(), Fail> {
    let alloc = rt.alloc();
    let mut disk = MemoryDisk::new(alloc);
    let first = batch(alloc, A)?;
    let second = batch_with(alloc, 254, B, 0)?;
    put(
        alloc,
        &mut disk,
        b"journal.1",
        &joined(alloc, &[&first, &second, &[254]])?,
    )?;
    let mut follower = Follower::from_start();
    looks(alloc, &mut follower, &mut disk, Ok(false), &[A])?;
    looks(alloc, &mut follower, &mut disk, Ok(false), &[])?;
    disk.overwrite(&named(alloc, b"journal.1")?, first.len() as u64, 1)?;
    looks(alloc, &mut follower, &mut disk, Ok(false), &[B])
}

#[test]
fn the_next_journal_is_followed(rt: HostRuntime) -> Result<(), Fail> {
    let alloc = rt.alloc();
    let mut disk = stored(alloc, &[A])?;
    let mut follower = Follower::from_start();
    looks(alloc, &mut follower, &mut disk, Ok(false), &[A])?;
    put(alloc, &mut disk, b"journal.1", &batches(alloc, &[A, B])?)?;
    put(alloc, &mut disk, b"journal.2", &batches(alloc, &[C])?)?;
    looks(alloc, &mut follower, &mut disk, Ok(true), &[B])?;
    remove(alloc, &mut disk, b"journal.1")?;
    looks(alloc, &mut follower, &mut disk, Ok(false), &[C])?;
    put(alloc, &mut disk, b"journal.2", &batches(alloc, &[C, A])?)?;
    looks(alloc, &mut follower, &mut disk, Ok(false), &[A])
}

#[test]
fn a_journal_that_is_gone_is_told(rt: HostRuntime) -> Result<(), Fail> {
    let alloc = rt.alloc();
    let mut disk = stored(alloc, &[A])?;
    let mut follower = Follower::from_start();
    looks(alloc, &mut follower, &mut disk, Ok(false), &[A])?;
    remove(alloc, &mut disk, b"journal.1")?;
    looks(alloc, &mut follower, &mut disk, Ok(false), &[])?;
    put(alloc, &mut disk, b"journal.4", &batches(alloc, &[B])?)?;
    put(alloc, &mut disk, b"journal.3", &batches(alloc, &[C])?)?;
    looks(
        alloc,
        &mut follower,
        &mut disk,
        Err(FollowFault::Gap { number: 1 }),
        &[],
    )?;
    looks(alloc, &mut follower, &mut disk, Ok(true), &[C])?;
    looks(alloc, &mut follower, &mut disk, Ok(false), &[B])
}

#[test]
fn a_journal_between_that_is_gone_is_told(rt: HostRuntime) -> Result<(), Fail> {
    let alloc = rt.alloc();
    let mut disk = stored(alloc, &[A])?;
    put(alloc, &mut disk, b"journal.3", &batches(alloc, &[C])?)?;
    let mut follower = Follower::from_start();
    looks(alloc, &mut follower, &mut disk, Ok(true), &[A])?;
    looks(
        alloc,
        &mut follower,
        &mut disk,
        Err(FollowFault::Gap { number: 2 }),
        &[],
    )?;
    looks(alloc, &mut follower, &mut disk, Ok(false), &[C])
}

#[test]
fn what_is_there_now_is_passed_over(rt: HostRuntime) -> Result<(), Fail> {
    let alloc = rt.alloc();
    let mut disk = stored(alloc, &[A])?;
    put(alloc, &mut disk, b"journal.2", &batches(alloc, &[B, B])?)?;
    let mut follower = Follower::from_now(alloc, &mut disk)?;
    looks(alloc, &mut follower, &mut disk, Ok(false), &[])?;
    put(alloc, &mut disk, b"journal.2", &batches(alloc, &[B, B, C])?)?;
    looks(alloc, &mut follower, &mut disk, Ok(false), &[C])
}

#[test]
fn a_store_that_comes_later_is_followed(rt: HostRuntime) -> Result<(), Fail> {
    let alloc = rt.alloc();
    let mut disk = MemoryDisk::new(alloc);
    put(alloc, &mut disk, b"new.journal", &batches(alloc, &[A])?)?;
    let mut follower = Follower::from_now(alloc, &mut disk)?;
    looks(alloc, &mut follower, &mut disk, Ok(false), &[])?;
    put(alloc, &mut disk, b"journal.1", &[])?;
    looks(alloc, &mut follower, &mut disk, Ok(false), &[])?;
    put(alloc, &mut disk, b"journal.1", &batches(alloc, &[A])?)?;
    looks(alloc, &mut follower, &mut disk, Ok(false), &[A])
}

#[test]
fn a_look_is_bounded(rt: HostRuntime) -> Result<(), Fail> {
    let alloc = rt.alloc();
    let mut texts = Vec::new(alloc);
    for _ in 0..BATCHES_MAX {
        texts.push(A)?;
    }
    texts.push(B)?;
    let mut disk = stored(alloc, &texts)?;
    let mut follower = Follower::from_start();
    let (answer, written) = look(alloc, &mut follower, &mut disk);
    assert_eq!(rt; answer, Ok(true));
    assert_eq!(rt; written.len(), 64 * 22);
    looks(alloc, &mut follower, &mut disk, Ok(false), &[B])
}

#[test]
fn batches_of_older_programs_are_written(rt: HostRuntime) -> Result<(), Fail> {
    let alloc = rt.alloc();
    let mut disk = MemoryDisk::new(alloc);
    let sealed = batch(alloc, B)?;
    let octets = joined(alloc, &[&[1, 22, 0, 0, 0], A, &sealed, &[0]])?;
    put(alloc, &mut disk, b"journal.1", &octets)?;
    looks(
        alloc,
        &mut Follower::from_start(),
        &mut disk,
        Ok(false),
        &[A, B],
    )
}

// What a look answers that finds a journal replaced.
const fn replaced(number: u64) -> Result<bool, FollowFault> {
    Err(FollowFault::Replaced { number })
}

#[test]
fn earlier_journals_in_the_place_of_a_journal_are_begun(rt: HostRuntime) -> Result<(), Fail> {
    let alloc = rt.alloc();
    let mut disk = MemoryDisk::new(alloc);
    put(alloc, &mut disk, b"journal.7", &batches(alloc, &[A])?)?;
    let mut follower = Follower::from_start();
    looks(alloc, &mut follower, &mut disk, Ok(false), &[A])?;
    remove(alloc, &mut disk, b"journal.7")?;
    looks(alloc, &mut follower, &mut disk, Ok(false), &[])?;
    put(alloc, &mut disk, b"journal.2", &batches(alloc, &[C])?)?;
    put(alloc, &mut disk, b"journal.1", &batches(alloc, &[B])?)?;
    looks(alloc, &mut follower, &mut disk, replaced(7), &[])?;
    looks(alloc, &mut follower, &mut disk, Ok(true), &[B])?;
    looks(alloc, &mut follower, &mut disk, Ok(false), &[C])?;
    looks(alloc, &mut follower, &mut disk, Ok(false), &[])
}

#[test]
fn earlier_journals_beside_a_journal_are_not_begun(rt: HostRuntime) -> Result<(), Fail> {
    let alloc = rt.alloc();
    let mut disk = stored(alloc, &[A])?;
    put(alloc, &mut disk, b"journal.2", &batches(alloc, &[B])?)?;
    let mut follower = Follower::from_now(alloc, &mut disk)?;
    looks(alloc, &mut follower, &mut disk, Ok(false), &[])?;
    remove(alloc, &mut disk, b"journal.2")?;
    put(alloc, &mut disk, b"journal.3", &batches(alloc, &[C])?)?;
    let gap = Err(FollowFault::Gap { number: 2 });
    looks(alloc, &mut follower, &mut disk, gap, &[])?;
    looks(alloc, &mut follower, &mut disk, Ok(false), &[C])
}

#[test]
fn a_journal_that_is_shorter_is_begun_anew(rt: HostRuntime) -> Result<(), Fail> {
    let alloc = rt.alloc();
    let mut disk = stored(alloc, &[A, B])?;
    let mut follower = Follower::from_start();
    looks(alloc, &mut follower, &mut disk, Ok(false), &[A, B])?;
    put(alloc, &mut disk, b"journal.1", &batches(alloc, &[C])?)?;
    looks(alloc, &mut follower, &mut disk, replaced(1), &[])?;
    looks(alloc, &mut follower, &mut disk, Ok(false), &[C])?;
    put(alloc, &mut disk, b"journal.1", &batches(alloc, &[C, A])?)?;
    looks(alloc, &mut follower, &mut disk, Ok(false), &[A])
}

#[test]
fn a_journal_without_octets_in_the_place_of_another_is_begun_anew(
    rt: HostRuntime,
) -> Result<(), Fail> {
    let alloc = rt.alloc();
    let mut disk = stored(alloc, &[A])?;
    let mut follower = Follower::from_now(alloc, &mut disk)?;
    put(alloc, &mut disk, b"journal.1", &[])?;
    looks(alloc, &mut follower, &mut disk, replaced(1), &[])?;
    looks(alloc, &mut follower, &mut disk, Ok(false), &[])?;
    put(alloc, &mut disk, b"journal.1", &batches(alloc, &[B])?)?;
    looks(alloc, &mut follower, &mut disk, Ok(false), &[B])
}

#[test]
fn a_journal_that_ends_at_the_place_is_the_same(rt: HostRuntime) -> Result<(), Fail> {
    let alloc = rt.alloc();
    let mut disk = MemoryDisk::new(alloc);
    put(alloc, &mut disk, b"journal.1", &batch(alloc, A)?)?;
    let mut follower = Follower::from_start();
    looks(alloc, &mut follower, &mut disk, Ok(false), &[A])?;
    looks(alloc, &mut follower, &mut disk, Ok(false), &[])?;
    put(alloc, &mut disk, b"journal.1", &batches(alloc, &[A, B])?)?;
    looks(alloc, &mut follower, &mut disk, Ok(false), &[B])
}
