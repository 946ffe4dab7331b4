//! A set in memory is asked for the records of ranges, in any order.

use crate::sets::{Numbers, are_one, set_of, whole};
use reconcile::{MemorySet, Part, RangedSet};
use std::alloc::Global;
use std::test::Fail;

// The records in the ranges of some parts, as a set; none of them is lacking once they were got.
fn within(alloc: Global, set: &mut MemorySet, parts: &[Part]) -> Result<MemorySet, Fail> {
    let got = set.within(parts).ok().ok_or("not answered")?;
    let rest = set.lacking(parts, &got).ok().ok_or("not answered")?;
    if rest.len() != 0 {
        return Err("some are lacking".into());
    }
    Ok(MemorySet::of(alloc, got))
}

// The parts of a set, so many.
fn parts_of(alloc: Global, set: &mut MemorySet, most: u64) -> Result<Vec<Part>, Fail> {
    let range = whole(alloc);
    let parts = set.parts(&range, most).ok().ok_or("not answered")?;
    Ok(parts)
}

#[test]
fn the_order_of_ranges_does_not_matter(rt: HostRuntime) -> Result<(), Fail> {
    let alloc = rt.alloc();
    let numbers = Numbers {
        every: 1,
        below: 90,
    };
    let mut set = set_of(alloc, numbers)?;
    let mut parts = parts_of(alloc, &mut set, 9)?;
    assert!(rt; parts.len() == 9);
    let _from_40_below_50 = parts.remove(4);
    let ascending = within(alloc, &mut set, parts.as_slice())?;
    assert!(rt; ascending.get(39) == Some(b"<0>1 - - - - - - 00039".as_slice()));
    assert!(rt; ascending.get(40) == Some(b"<0>1 - - - - - - 00050".as_slice()));
    parts.reverse();
    let descending = within(alloc, &mut set, parts.as_slice())?;
    assert!(rt; are_one(&ascending, &descending, 80));
    let mut others = parts_of(alloc, &mut set, 2)?;
    parts.append(&mut others)?;
    let all = within(alloc, &mut set, parts.as_slice())?;
    assert!(rt; are_one(&all, &set, 90));
    Ok(())
}
