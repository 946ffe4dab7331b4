//! Journals that are damaged.

use crate::stores::{A, B, batch, batch_with, batches, joined, looks, put, stored};
use disk::MemoryDisk;
use std::alloc::Global;
use std::test::Fail;
use store_follow::{FollowFault, Follower};

// how many octets a batch of A takes
const BATCH: u64 = 36;

// Whether a look at a journal that goes on so behind a batch writes that batch, and then answers so.
fn answers(alloc: Global, behind: &[u8], answer: Result<bool, FollowFault>) -> Result<(), Fail> {
    let mut disk = MemoryDisk::new(alloc);
    let octets = joined(alloc, &[&batch(alloc, A)?, behind])?;
    put(alloc, &mut disk, b"journal.7", &octets)?;
    let mut follower = Follower::from_start();
    looks(alloc, &mut follower, &mut disk, answer, &[A])?;
    looks(alloc, &mut follower, &mut disk, answer, &[])
}

const DAMAGED: Result<bool, FollowFault> = Err(FollowFault::Damaged {
    number: 7,
    at: BATCH,
});

#[test]
fn another_checksum_is_told(rt: HostRuntime) -> Result<(), Fail> {
    let alloc = rt.alloc();
    answers(alloc, &batch_with(alloc, 1, B, 1)?, DAMAGED)
}

#[test]
fn what_is_no_entry_is_told(rt: HostRuntime) -> Result<(), Fail> {
    let alloc = rt.alloc();
    answers(alloc, &batch(alloc, b"19 <13>1 - h a - - - ")?, DAMAGED)?;
    answers(alloc, &batch(alloc, b"x")?, DAMAGED)
}

#[test]
fn a_batch_without_its_seal_behind_one_is_told(rt: HostRuntime) -> Result<(), Fail> {
    let alloc = rt.alloc();
    answers(alloc, &joined(alloc, &[&[1, 22, 0, 0, 0], A])?, DAMAGED)
}

#[test]
fn other_octets_before_a_batch_are_told(rt: HostRuntime) -> Result<(), Fail> {
    let alloc = rt.alloc();
    answers(alloc, &batch_with(alloc, 2, B, 0)?, DAMAGED)?;
    answers(alloc, &[255, 0], DAMAGED)?;
    answers(alloc, &[1, 0], DAMAGED)?;
    answers(alloc, &[1, 9, 0, 0, 0, b'x'], DAMAGED)?;
    answers(alloc, &[1, 1, 0, 0, 0x40, b'x'], DAMAGED)
}

#[test]
fn what_a_crash_leaves_is_not_told(rt: HostRuntime) -> Result<(), Fail> {
    let alloc = rt.alloc();
    answers(alloc, &[], Ok(false))?;
    answers(alloc, &[1], Ok(false))?;
    answers(alloc, &[3], Ok(false))?;
    answers(alloc, &[254, 7, 7, 7, 7, 7], Ok(false))?;
    answers(alloc, &[0, 7, 7], Ok(false))
}

#[test]
fn a_journal_before_is_not_left_where_it_is_damaged(rt: HostRuntime) -> Result<(), Fail> {
    let alloc = rt.alloc();
    let mut disk = stored(alloc, &[A])?;
    put(alloc, &mut disk, b"journal.1", &[2, 1])?;
    put(alloc, &mut disk, b"journal.2", &batches(alloc, &[B])?)?;
    let answer = Err(FollowFault::Damaged { number: 1, at: 0 });
    looks(alloc, &mut Follower::from_start(), &mut disk, answer, &[])
}
