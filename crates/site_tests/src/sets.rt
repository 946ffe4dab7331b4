//! Sets in memory that tests are made of.

use reconcile::{MemorySet, Place, Range};
use std::alloc::Global;
use std::test::Fail;

/// Every so many of the records with the first numbers.
#[derive(Clone, Copy)]
pub struct Numbers {
    pub every: usize,
    pub below: usize,
}

/// A set of the records `<0>1 - - - - - - ` and a number.
pub fn set_of(alloc: Global, numbers: Numbers) -> Result<MemorySet, Fail> {
    let mut set = MemorySet::new(alloc);
    for number in 0..numbers.below {
        if number % numbers.every.max(1) == 0 {
            let text = format!(in alloc; "<0>1 - - - - - - {number:05}")?;
            set.insert(text.as_bytes()).ok().ok_or("not inserted")?;
        }
    }
    Ok(set)
}

/// The range of all records.
pub fn whole(alloc: Global) -> Range {
    Range {
        low: Place::first(alloc),
        high: None,
    }
}

/// Whether both sets have the same records, so many.
pub fn are_one(a: &MemorySet, b: &MemorySet, count: usize) -> bool {
    if a.len() != count || b.len() != count {
        return false;
    }
    for index in 0..count {
        if a.get(index) != b.get(index) {
            return false;
        }
    }
    true
}
