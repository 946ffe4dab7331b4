//! What is listed behind lines.

use crate::ledgers::{FIRST, JOINED, ROOT, SECOND, entries, entry};
use ledger::{Event, LedgerEntry, Listed, Removal, Standing};
use std::alloc::{AllocError, Global};
use std::test::Fail;

fn standing_of(alloc: Global, entries: &[LedgerEntry<'_>]) -> Result<Standing, AllocError> {
    let mut standing = Standing::new(alloc);
    for (at, entry) in entries.iter().enumerate() {
        standing.take((at as u64).saturating_add(1), entry)?;
    }
    Ok(standing)
}

#[test]
fn what_is_gone_is_not_listed(rt: HostRuntime) -> Result<(), Fail> {
    let standing = standing_of(rt.alloc(), &entries())?;
    assert_eq!(rt; standing.len(), 1);
    assert_eq!(rt; standing.lists(FIRST), false);
    assert_eq!(rt; standing.lists(SECOND), false);
    let listed = Listed {
        count: 5,
        octets: 300,
        line: 3,
        sealed: true,
    };
    assert_eq!(rt; standing.find(JOINED).copied(), Some(listed));
    Ok(())
}

#[test]
fn a_segment_may_come_again(rt: HostRuntime) -> Result<(), Fail> {
    let steps = [
        (entry(Event::Added, FIRST, 1, 10), Some((1, 1, false))),
        (
            entry(Event::Sealed(*ROOT), FIRST, 1, 10),
            Some((1, 1, true)),
        ),
        (entry(Event::Added, FIRST, 2, 20), Some((2, 3, true))),
        (entry(Event::Gone(Removal::Expired), FIRST, 2, 20), None),
        (entry(Event::Gone(Removal::Joined(1)), SECOND, 0, 0), None),
        (
            entry(Event::Sealed(*ROOT), FIRST, 3, 30),
            Some((3, 6, true)),
        ),
        // one that is sealed goes only where it expires
        (
            entry(Event::Gone(Removal::Joined(2)), FIRST, 3, 30),
            Some((3, 6, true)),
        ),
        (entry(Event::Gone(Removal::Expired), FIRST, 3, 30), None),
        (entry(Event::Joined, FIRST, 4, 40), Some((4, 9, false))),
        (entry(Event::Gone(Removal::Joined(9)), FIRST, 4, 40), None),
    ];
    let mut standing = Standing::new(rt.alloc());
    let mut number = 0u64;
    for (said, wanted) in steps {
        number = number.saturating_add(1);
        standing.take(number, &said)?;
        let found = standing
            .find(FIRST)
            .map(|listed| (listed.count, listed.line, listed.sealed));
        assert_eq!(rt; found, wanted);
    }
    Ok(())
}

#[test]
fn a_folder_is_compared(rt: HostRuntime) -> Result<(), Fail> {
    let names = [SECOND, JOINED];
    let listed = [
        entry(Event::Added, FIRST, 1, 1),
        entry(Event::Added, SECOND, 1, 1),
    ];
    let standing = standing_of(rt.alloc(), &listed)?;
    let unlisted = standing.unlisted(rt.alloc(), &names)?;
    assert_eq!(rt; unlisted.as_slice(), [JOINED].as_slice());
    let missing = standing.missing(&names);
    assert_eq!(rt; missing.len(), 1);
    assert_eq!(rt; missing.lists(FIRST), true);
    Ok(())
}
