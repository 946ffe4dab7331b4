//! Two sites in memory are reconciled.

use crate::sets::{Numbers, are_one, set_of, whole};
use reconcile::{LocalPeer, MemorySet, Plan, reconcile};
use std::alloc::Global;
use std::test::Fail;

// Reconciles two sets, and answers both.
fn meet(
    alloc: Global,
    mut own: MemorySet,
    other: MemorySet,
    plan: Plan,
) -> Result<(MemorySet, MemorySet), Fail> {
    let mut peer = LocalPeer::new(alloc, other);
    reconcile(alloc, &mut own, &mut peer, &whole(alloc), plan)
        .ok()
        .ok_or("not reconciled")?;
    Ok((own, peer.into_set()))
}

// Whether two sites come to be one by a plan, with so many records.
fn come_to_one(
    alloc: Global,
    a: Numbers,
    b: Numbers,
    plan: Plan,
    count: usize,
) -> Result<bool, Fail> {
    let (own, other) = meet(alloc, set_of(alloc, a)?, set_of(alloc, b)?, plan)?;
    Ok(are_one(&own, &other, count))
}

#[test]
fn both_hold_the_union(rt: HostRuntime) -> Result<(), Fail> {
    let fine = Plan {
        most: 2,
        small: 1,
        batch: 3,
        turns: 10_000,
    };
    let none = Numbers { every: 1, below: 0 };
    let even = Numbers {
        every: 2,
        below: 200,
    };
    let third = Numbers {
        every: 3,
        below: 200,
    };
    let all = Numbers {
        every: 1,
        below: 200,
    };
    for (a, b, plan, count) in [
        (even, third, fine, 133),
        (even, third, Plan::standard(), 133),
        (none, all, fine, 200),
        (all, none, fine, 200),
        (all, all, Plan::standard(), 200),
        (none, none, Plan::standard(), 0),
    ] {
        assert!(rt; come_to_one(rt.alloc(), a, b, plan, count)?);
    }
    Ok(())
}
