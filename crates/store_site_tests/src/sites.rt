//! Stores in memory are sites.

use crate::views::view_of;
use archive_sets::InRange;
use disk::{Disk, MemoryDisk};
use reconcile::{
    LocalPeer, MemorySet, Place, Plan, Range, RangedSet, Records, SetFault, Stopped, read_records,
    reconcile,
};
use std::alloc::Global;
use std::test::Fail;
use store_site::{SetReadFault, StoreSite, ranges_of, read_set};
use store_test_support::calls::{fused, joined, names_in};
use syslog_value::Instant;

/// entries, in their order
pub(crate) const UNDATED: &[u8] = b"16 <0>1 - - - - - -";

pub(crate) const EARLY: &[u8] = b"45 <14>1 2024-02-29T23:30:00.000000Z h a - - - y";

pub(crate) const LATE: &[u8] = b"45 <14>1 2024-03-01T00:30:00.000000Z h a - - - z";

/// room for all of these tests
pub(crate) const ROOM: u64 = 1_000_000;

/// every record
pub(crate) const ALL: InRange = InRange {
    from: None,
    to: None,
    undated: false,
};

/// the set of a folder
pub(crate) fn set_of<D: Disk>(
    alloc: Global,
    disk: &mut D,
    range: InRange,
    room: u64,
) -> Result<Result<MemorySet, SetReadFault>, Fail> {
    Ok(read_set(alloc, &mut view_of(alloc, disk)?, range, room))
}

// the records of these texts
fn records_of(alloc: Global, texts: &[&[u8]]) -> Result<Records, Fail> {
    Ok(
        read_records(alloc, &joined(alloc, texts)?)
            .ok()
            .ok_or("no records")?,
    )
}

// adds records to the site of a folder
fn add_to<D: Disk>(
    alloc: Global,
    disk: &mut D,
    texts: &[&[u8]],
) -> Result<Result<(), SetFault>, Fail> {
    let set = set_of(alloc, disk, ALL, ROOM)?.ok().ok_or("no set")?;
    let mut site = StoreSite::new(alloc, disk, set);
    Ok(site.add(&records_of(alloc, texts)?))
}

/// the folder of these records
pub(crate) fn store_of(alloc: Global, texts: &[&[u8]]) -> Result<MemoryDisk, Fail> {
    let mut disk = MemoryDisk::new(alloc);
    add_to(alloc, &mut disk, texts)?.ok().ok_or("not added")?;
    Ok(disk)
}

/// whether a set has these entries and no others
pub(crate) fn has_just(set: &MemorySet, texts: &[&[u8]]) -> bool {
    if set.len() != texts.len() {
        return false;
    }
    for at in 0..texts.len() {
        match set.get(at) {
            Some(octets) if texts[at].ends_with(octets) => {}
            _ => return false,
        }
    }
    true
}

#[test]
fn an_empty_folder_holds_no_records(rt: HostRuntime) -> Result<(), Fail> {
    let alloc = rt.alloc();
    let set = set_of(alloc, &mut MemoryDisk::new(alloc), ALL, ROOM)?;
    assert!(rt; set.is_ok_and(|set| set.len() == 0));
    Ok(())
}

#[test]
fn records_that_are_added_are_in_the_folder(rt: HostRuntime) -> Result<(), Fail> {
    let alloc = rt.alloc();
    let mut disk = store_of(alloc, &[EARLY])?;
    assert_eq!(rt; names_in(alloc, &mut disk)?.len(), 1);
    add_to(alloc, &mut disk, &[UNDATED, EARLY, LATE])?
        .ok()
        .ok_or("not added")?;
    let set = set_of(alloc, &mut disk, ALL, ROOM)?.ok().ok_or("no set")?;
    assert!(rt; has_just(&set, &[UNDATED, EARLY, LATE]));
    // nothing is written where nothing is new
    let files = names_in(alloc, &mut disk)?.len();
    let mut fuse = fused(disk, 0);
    let answer = add_to_set(alloc, &mut fuse, set, &[EARLY, LATE])?;
    assert!(rt; answer.is_ok());
    let mut disk = fuse.into_inner();
    assert_eq!(rt; names_in(alloc, &mut disk)?.len(), files);
    Ok(())
}

// adds records to a site with this set
fn add_to_set<D: Disk>(
    alloc: Global,
    disk: &mut D,
    set: MemorySet,
    texts: &[&[u8]],
) -> Result<Result<(), SetFault>, Fail> {
    let mut site = StoreSite::new(alloc, disk, set);
    Ok(site.add(&records_of(alloc, texts)?))
}

#[test]
fn a_fault_of_the_disk_is_kept(rt: HostRuntime) -> Result<(), Fail> {
    let alloc = rt.alloc();
    let mut fuse = fused(MemoryDisk::new(alloc), 1);
    let mut site = StoreSite::new(alloc, &mut fuse, MemorySet::new(alloc));
    assert!(rt; site.add(&records_of(alloc, &[EARLY])?) == Err(SetFault::Failed));
    assert!(rt; site.fault().is_some());
    let whole = Range {
        low: Place::first(alloc),
        high: None,
    };
    let sum = site.sum(&whole).ok().ok_or("no sum")?;
    assert_eq!(rt; sum.records, 0);
    Ok(())
}

#[test]
fn too_many_records_are_refused(rt: HostRuntime) -> Result<(), Fail> {
    let alloc = rt.alloc();
    let mut disk = store_of(alloc, &[UNDATED, EARLY, LATE])?;
    let octets = (UNDATED.len() + EARLY.len() + LATE.len()) as u64;
    assert!(rt; set_of(alloc, &mut disk, ALL, octets)?.is_ok());
    assert!(rt;
        matches!(
            set_of(alloc, &mut disk, ALL, octets - 1)?,
            Err(SetReadFault::TooMuch)
        )
    );
    Ok(())
}

// the instant of so many microseconds
fn at(micros: i64) -> Option<Instant> {
    Instant::from_micros(micros)
}

#[test]
fn ranges_of_time_are_ranges_of_places(rt: HostRuntime) -> Result<(), Fail> {
    let alloc = rt.alloc();
    let mut disk = store_of(alloc, &[UNDATED, EARLY, LATE])?;
    let early = at(1_709_249_400_000_000);
    let late = at(1_709_253_000_000_000);
    let rows: [(InRange, &[&[u8]]); 7] = [
        (ALL, &[UNDATED, EARLY, LATE]),
        (
            InRange {
                from: early,
                to: None,
                undated: false,
            },
            &[EARLY, LATE],
        ),
        (
            InRange {
                from: early,
                to: late,
                undated: false,
            },
            &[EARLY],
        ),
        (
            InRange {
                from: None,
                to: late,
                undated: false,
            },
            &[EARLY],
        ),
        (
            InRange {
                from: None,
                to: late,
                undated: true,
            },
            &[UNDATED, EARLY],
        ),
        (
            InRange {
                from: late,
                to: None,
                undated: true,
            },
            &[UNDATED, LATE],
        ),
        (
            InRange {
                from: late,
                to: early,
                undated: false,
            },
            &[],
        ),
    ];
    for (range, texts) in rows {
        let set = set_of(alloc, &mut disk, range, ROOM)?.ok().ok_or("no set")?;
        assert!(rt; has_just(&set, texts));
        let mut all = set_of(alloc, &mut disk, ALL, ROOM)?.ok().ok_or("no set")?;
        let mut records: u64 = 0;
        for places in &ranges_of(alloc, &range)? {
            let sum = all.sum(places).ok().ok_or("no sum")?;
            records = records.saturating_add(sum.records);
        }
        assert_eq!(rt; records, texts.len() as u64);
    }
    Ok(())
}

// whether a folder holds these entries and no others
fn holds_just<D: Disk>(alloc: Global, disk: &mut D, texts: &[&[u8]]) -> Result<bool, Fail> {
    let set = set_of(alloc, disk, ALL, ROOM)?.ok().ok_or("no set")?;
    Ok(has_just(&set, texts))
}

#[test]
fn two_stores_come_to_hold_the_union(rt: HostRuntime) -> Result<(), Fail> {
    let alloc = rt.alloc();
    let mut first = store_of(alloc, &[UNDATED, EARLY])?;
    let mut second = store_of(alloc, &[EARLY, LATE])?;
    meet(alloc, &mut first, &mut second)?;
    assert!(rt; holds_just(alloc, &mut first, &[UNDATED, EARLY, LATE])?);
    assert!(rt; holds_just(alloc, &mut second, &[UNDATED, EARLY, LATE])?);
    Ok(())
}

// reconciles the stores of two folders
fn meet<D: Disk>(alloc: Global, first: &mut D, second: &mut D) -> Result<(), Fail> {
    let set = set_of(alloc, first, ALL, ROOM)?.ok().ok_or("no set")?;
    let other = set_of(alloc, second, ALL, ROOM)?.ok().ok_or("no set")?;
    let mut own = StoreSite::new(alloc, first, set);
    let mut peer = LocalPeer::new(alloc, StoreSite::new(alloc, second, other));
    let whole = Range {
        low: Place::first(alloc),
        high: None,
    };
    reconcile(alloc, &mut own, &mut peer, &whole, Plan::standard())
        .ok()
        .ok_or("not reconciled")?;
    Ok(())
}
