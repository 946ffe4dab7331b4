//! Two sites are reconciled over pipes in memory.

use crate::support::{answers_to, in_pieces, set_of, whole};
use octet_devices::ToWrite;
use reconcile::{MemorySet, Plan, reconcile};
use site_pipe::PipePeer;
use std::alloc::Global;
use std::test::Fail;

// What a site asks where it is answered so, and whether it comes to its end.
fn asks(
    alloc: Global,
    own: &mut MemorySet,
    plan: Plan,
    answers: &[u8],
    size: usize,
) -> Result<(Vec<u8>, bool), Fail> {
    let input = in_pieces(answers, size);
    let output = ToWrite::new(Vec::new(alloc));
    let mut peer = PipePeer::new(alloc, input, output, u64::MAX);
    let ends = peer.greet().is_ok()
        && reconcile(alloc, own, &mut peer, &whole(alloc), plan).is_ok()
        && peer.finish().is_ok();
    Ok((peer.into_output().into_inner(), ends))
}

// The set of every so many of the first numbers.
fn every(alloc: Global, step: usize, below: usize) -> Result<MemorySet, Fail> {
    let mut numbers = Vec::new(alloc);
    for number in 0..below {
        if number % step.max(1) == 0 {
            numbers.push(number)?;
        }
    }
    set_of(alloc, numbers.as_slice())
}

// Both sites are run anew for each message, with all that the other has said so far.
fn come_to_one(
    alloc: Global,
    plan: Plan,
    steps: (usize, usize),
    below: usize,
    size: usize,
) -> Result<bool, Fail> {
    let mut answers: Vec<u8> = Vec::new(alloc);
    for _ in 0..100 {
        let mut own = every(alloc, steps.0, below)?;
        let (requests, ends) = asks(alloc, &mut own, plan, answers.as_slice(), size)?;
        let mut other = every(alloc, steps.1, below)?;
        let (text, end) = answers_to(
            alloc,
            &mut other,
            false,
            u64::MAX,
            requests.as_slice(),
            size,
        );
        if ends {
            return Ok(end.is_ok() && are_one(&own, &other));
        }
        answers = text;
        answers.truncate(answers.len().saturating_sub(b"failed\n".len()));
    }
    Ok(false)
}

// Whether both sets have the same records.
fn are_one(a: &MemorySet, b: &MemorySet) -> bool {
    if a.len() != b.len() {
        return false;
    }
    for index in 0..a.len() {
        if a.get(index) != b.get(index) {
            return false;
        }
    }
    true
}

#[test]
fn both_hold_the_union(rt: HostRuntime) -> Result<(), Fail> {
    let fine = Plan {
        most: 3,
        small: 2,
        batch: 5,
        turns: 1000,
    };
    for (plan, steps, size) in [
        (fine, (2, 3), 1),
        (fine, (1, 7), 1000),
        (fine, (7, 1), 3),
        (Plan::standard(), (2, 3), 1000),
        (Plan::standard(), (1, 1), 1),
    ] {
        assert!(rt; come_to_one(rt.alloc(), plan, steps, 60, size)?);
    }
    Ok(())
}
