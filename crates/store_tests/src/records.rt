use disk::{Disk, FileName, MemoryDisk};
use record_store::{AppendFault, RecordStore, SegmentDraft, SegmentFault, StoreFault, open};
use std::alloc::Global;
use std::test::Fail;
use store_test_support::calls::{crash, fused, has, names_in, stops};

const FIRST: &[u8] = b"<0>1 - - - - - -";

const SECOND: &[u8] = b"<14>1 2024-02-29T23:30:00.000000Z h a - - - y";

// what octets may be that are unsure after a crash
const OCTETS: [Option<u8>; 3] = [None, Some(0), Some(1)];

// A disk, and the store of its folder.
type Kept = (MemoryDisk, RecordStore);

// What a store does that may stop at any call on its disk.
#[derive(Clone, Copy)]
enum Step {
    Commit,
    Reopen,
    Turn,
    Segment,
}

// the store of a folder, and the batches of its journal
fn opened<D: Disk>(alloc: Global, disk: &mut D) -> Result<(RecordStore, Vec<u8>), StoreFault> {
    open(alloc, disk)
}

// the batches of a folder that is opened
fn batches_in(alloc: Global, disk: &mut MemoryDisk) -> Result<Vec<u8>, Fail> {
    let (_store, batches) = opened(alloc, disk)?;
    Ok(batches)
}

// the store of an empty folder
fn created(alloc: Global) -> Result<Kept, Fail> {
    let mut disk = MemoryDisk::new(alloc);
    let (store, _batches) = opened(alloc, &mut disk)?;
    Ok((disk, store))
}

fn append(store: &mut RecordStore, octets: &[u8]) -> Result<(), AppendFault> {
    store.append(octets)
}

fn commit<D: Disk>(alloc: Global, store: &mut RecordStore, disk: &mut D) -> Result<(), StoreFault> {
    store.commit(alloc, disk)
}

fn reopen<D: Disk>(alloc: Global, store: &mut RecordStore, disk: &mut D) -> Result<(), StoreFault> {
    store.reopen(alloc, disk)
}

// whether a commit says that the store has to be opened again
fn is_broken(alloc: Global, store: &mut RecordStore, disk: &mut MemoryDisk) -> bool {
    commit(alloc, store, disk) == Err(StoreFault::Broken)
}

fn turn<D: Disk>(alloc: Global, store: &mut RecordStore, disk: &mut D) -> Result<(), StoreFault> {
    store.turn(alloc, disk)
}

// a folder with the first record
fn begun(alloc: Global) -> Result<Kept, Fail> {
    let (mut disk, mut store) = created(alloc)?;
    append(&mut store, FIRST).ok().ok_or("refused")?;
    commit(alloc, &mut store, &mut disk)?;
    Ok((disk, store))
}

// a folder with the first record, whose store waits with the second
fn waiting(alloc: Global) -> Result<Kept, Fail> {
    let (disk, mut store) = begun(alloc)?;
    append(&mut store, SECOND).ok().ok_or("refused")?;
    Ok((disk, store))
}

// the first record as a segment
fn write_segment<D: Disk>(
    alloc: Global,
    store: &mut RecordStore,
    disk: &mut D,
) -> Result<(), SegmentFault> {
    let Some(name) = FileName::new(alloc, b"new.archive")? else {
        return Err(SegmentFault::Day);
    };
    let mut draft = SegmentDraft::begin(disk, name)?;
    draft.push(disk, b"16 ")?;
    draft.push(disk, FIRST)?;
    store.add_segment(alloc, disk, draft, b"undated")
}

// takes a step, and tells whether it was done
fn takes<D: Disk>(alloc: Global, store: &mut RecordStore, step: Step, disk: &mut D) -> bool {
    match step {
        Step::Commit => commit(alloc, store, disk).is_ok(),
        Step::Reopen => reopen(alloc, store, disk).is_ok(),
        Step::Turn => turn(alloc, store, disk).is_ok(),
        Step::Segment => write_segment(alloc, store, disk).is_ok(),
    }
}

// A step that stops after so many calls, and whether it was told as done.
fn stopped(alloc: Global, kept: Kept, step: Step, calls: u64) -> Result<(Kept, bool), Fail> {
    let (disk, mut store) = kept;
    let mut fuse = fused(disk, calls);
    let done = takes(alloc, &mut store, step, &mut fuse);
    Ok(((fuse.into_inner(), store), done))
}

// the disk of a folder whose opening stops after so many calls
fn half_opened(alloc: Global, disk: MemoryDisk, calls: u64) -> MemoryDisk {
    let mut fuse = fused(disk, calls);
    let _stopped = opened(alloc, &mut fuse);
    fuse.into_inner()
}

#[test]
fn what_is_no_canonical_record_is_refused(rt: HostRuntime) -> Result<(), Fail> {
    let (_disk, mut store) = created(rt.alloc())?;
    for octets in [b"x".as_slice(), b"<0>1 - - - - - - "] {
        let found = append(&mut store, octets);
        assert!(rt; matches!(&found, Err(AppendFault::Entry(_))), "{octets:?}");
    }
    assert!(rt; append(&mut store, FIRST).is_ok());
    Ok(())
}

// A commit that is stopped at each of its calls, with a crash whatever it leaves of what was not on
// the disk: the first record is there, the second or not, and once it was told as committed it is.
#[test]
fn a_crash_leaves_what_is_committed(rt: HostRuntime) -> Result<(), Fail> {
    let alloc = rt.alloc();
    let octets = [None, Some(0), Some(1), Some(b'9')];
    for stop in &stops(alloc, 6, &[0, 3, 60, 99], &octets)? {
        let ((disk, mut store), done) = stopped(alloc, waiting(alloc)?, Step::Commit, stop.calls)?;
        let mut disk = crash(disk, stop.kept, stop.octet, stop.calls % 2 == 0)?;
        let batches = batches_in(alloc, &mut disk)?;
        assert!(rt; has(&batches, FIRST), "at {stop:?}");
        assert!(rt; has(&batches, SECOND) || !done, "at {stop:?}");
        assert!(rt;
            done || is_broken(alloc, &mut store, &mut disk),
            "at {stop:?}"
        );
    }
    Ok(())
}

// The same of an opening, of a folder with a record and of an empty one.
#[test]
fn an_opening_may_stop_at_any_call(rt: HostRuntime) -> Result<(), Fail> {
    let alloc = rt.alloc();
    for calls in 0..12 {
        let (disk, _store) = begun(alloc)?;
        let mut disk = crash(half_opened(alloc, disk, calls), 0, Some(1), true)?;
        assert!(rt; has(&batches_in(alloc, &mut disk)?, FIRST), "at {calls}");
        let disk = half_opened(alloc, MemoryDisk::new(alloc), calls);
        let mut disk = crash(disk, 1, Some(1), false)?;
        assert!(rt; batches_in(alloc, &mut disk)?.is_empty(), "at {calls}");
    }
    Ok(())
}

// A commit that is stopped at each of its calls, and then the disk has room again: the store is
// opened again, and the next commit writes what waited.
#[test]
fn a_batch_waits_for_a_disk_with_room(rt: HostRuntime) -> Result<(), Fail> {
    let alloc = rt.alloc();
    for calls in 0..6 {
        let ((mut disk, mut store), done) = stopped(alloc, waiting(alloc)?, Step::Commit, calls)?;
        if !done {
            reopen(alloc, &mut store, &mut disk)?;
            commit(alloc, &mut store, &mut disk)?;
        }
        let mut disk = crash(disk, 0, Some(1), true)?;
        let batches = batches_in(alloc, &mut disk)?;
        assert!(rt; has(&batches, FIRST) && has(&batches, SECOND), "at {calls}");
    }
    Ok(())
}

// An opening again that is stopped at each of its calls, with a crash whatever it leaves.
#[test]
fn an_opening_again_may_stop_at_any_call(rt: HostRuntime) -> Result<(), Fail> {
    let alloc = rt.alloc();
    for stop in &stops(alloc, 12, &[1], &OCTETS)? {
        let ((mut disk, mut store), done) = stopped(
            alloc,
            waiting(alloc)?,
            Step::Reopen,
            stop.calls,
        )?;
        if !done {
            assert!(rt; is_broken(alloc, &mut store, &mut disk), "at {stop:?}");
            reopen(alloc, &mut store, &mut disk)?;
        }
        let mut disk = crash(disk, stop.kept, stop.octet, true)?;
        assert!(rt; has(&batches_in(alloc, &mut disk)?, FIRST), "at {stop:?}");
    }
    Ok(())
}

// A turn that is stopped at each of its calls, with a crash whatever it leaves: a folder has the
// journal from before, or the next one without batches. It takes a record then.
#[test]
fn a_turn_may_stop_at_any_call(rt: HostRuntime) -> Result<(), Fail> {
    let alloc = rt.alloc();
    for stop in &stops(alloc, 8, &[1], &OCTETS)? {
        let ((disk, _store), done) = stopped(alloc, begun(alloc)?, Step::Turn, stop.calls)?;
        let mut disk = crash(disk, stop.kept, stop.octet, stop.calls % 2 == 0)?;
        let (mut store, batches) = opened(alloc, &mut disk)?;
        assert!(rt;
            batches.is_empty() || has(&batches, FIRST) && !done,
            "at {stop:?}"
        );
        append(&mut store, SECOND).ok().ok_or("refused")?;
        commit(alloc, &mut store, &mut disk)?;
        assert!(rt; has(&batches_in(alloc, &mut disk)?, SECOND), "at {stop:?}");
    }
    Ok(())
}

// A process is killed in a commit: what a read shows is brought to the disk before it is used.
#[test]
fn a_store_is_opened_after_a_kill(rt: HostRuntime) -> Result<(), Fail> {
    let alloc = rt.alloc();
    for calls in 0..6 {
        let ((mut disk, _store), _done) = stopped(alloc, waiting(alloc)?, Step::Commit, calls)?;
        let shown = batches_in(alloc, &mut disk)?;
        let mut disk = crash(disk, 0, Some(1), true)?;
        let batches = batches_in(alloc, &mut disk)?;
        assert!(rt; has(&batches, FIRST), "at {calls}");
        assert_eq!(rt; has(&batches, SECOND), has(&shown, SECOND), "at {calls}");
    }
    Ok(())
}

// whether a file has a name that begins so
fn has_file(alloc: Global, disk: &mut MemoryDisk, front: &[u8]) -> Result<bool, Fail> {
    let names = names_in(alloc, disk)?;
    Ok(names.iter().any(|name| name.as_octets().starts_with(front)))
}

// A segment that is stopped at each of its calls, with a crash whatever it leaves: the journal has
// the record still, and once it was told as finished the folder has the segment.
#[test]
fn a_segment_may_stop_at_any_call(rt: HostRuntime) -> Result<(), Fail> {
    let alloc = rt.alloc();
    for stop in &stops(alloc, 8, &[1], &OCTETS)? {
        let ((disk, _store), done) = stopped(alloc, begun(alloc)?, Step::Segment, stop.calls)?;
        let mut disk = crash(disk, stop.kept, stop.octet, stop.calls % 2 == 0)?;
        assert!(rt;
            has_file(alloc, &mut disk, b"undated.")? || !done,
            "at {stop:?}"
        );
        assert!(rt; has(&batches_in(alloc, &mut disk)?, FIRST), "at {stop:?}");
    }
    Ok(())
}
