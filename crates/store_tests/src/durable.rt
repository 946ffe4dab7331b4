use crate::cramped::CrampedDisk;
use archive_text::{Added, Store};
use disk::{Disk, MemoryDisk};
use durable_store::{CheckpointFault, DurableStore, OpenFault, SetAside};
use record_store::{JournalDamage, StoreFault};
use std::alloc::Global;
use std::test::Fail;
use store_test_support::calls::{
    Stop, append, crash, fused, has, has_all, joined, names_in, octets_of, put, stops,
};
use store_test_support::stores::{add, checkpoint, commit, count, opened, reopen, text_of};
use syslog_grammar::view;
use syslog_value::Record;

const FIRST: &[u8] = b"<0>1 - - - - - -";

const SECOND: &[u8] = b"<14>1 2024-02-29T23:30:00.000000Z h a - - - y";

const THIRD: &[u8] = b"<14>1 2024-03-01T00:30:00.000000Z h a - - - z";

const FOURTH: &[u8] = b"<14>1 2024-03-01T00:31:00.000000Z h a - - - w";

// the CRC-32C of the entry of FIRST
const FIRST_SUM: u32 = 0x1472_fee5;

const JOURNAL: &[u8] = b"journal.1";

const DAMAGED: &[u8] = b"damaged.journal.1";

// a batch of FIRST as older programs wrote it
const PLAIN: &[u8] = b"\x01\x13\0\0\016 <0>1 - - - - - -";

// what is behind such a batch in a journal that is torn
const TAIL: &[u8] = b"\0\x05\0\0\0torn";

// A disk, and the store of its folder.
type Kept = (MemoryDisk, DurableStore);

// What a store does that may stop at any call on its disk.
#[derive(Clone, Copy)]
enum Step {
    Commit,
    Checkpoint,
}

// whether a file of this name counts
fn counts(name: &[u8]) -> bool {
    name != b"new.archive".as_slice() && !name.starts_with(b"damaged.")
}

// the octets of all files that count, one behind the other
fn all_files(alloc: Global, disk: &mut MemoryDisk) -> Result<Vec<u8>, Fail> {
    let mut all = Vec::new(alloc);
    for name in names_in(alloc, disk)? {
        if counts(name.as_octets()) {
            all.extend_from_slice(&octets_of(alloc, disk, name.as_octets())?)?;
        }
    }
    Ok(all)
}

// how many files are segments
fn segments(alloc: Global, disk: &mut MemoryDisk) -> Result<usize, Fail> {
    let names = names_in(alloc, disk)?;
    Ok(
        names
            .iter()
            .filter(|name| name.as_octets().ends_with(b".archive"))
            .count(),
    )
}

// a folder with two records that are committed and one that waits
fn begun(alloc: Global) -> Result<Kept, Fail> {
    let mut disk = MemoryDisk::new(alloc);
    let mut store = opened(alloc, &mut disk)?;
    add(alloc, &mut store, THIRD)?;
    add(alloc, &mut store, FIRST)?;
    commit(alloc, &mut store, &mut disk)?;
    add(alloc, &mut store, SECOND)?;
    Ok((disk, store))
}

// a folder with three records that are committed
fn committed(alloc: Global) -> Result<Kept, Fail> {
    let (mut disk, mut store) = begun(alloc)?;
    commit(alloc, &mut store, &mut disk)?;
    Ok((disk, store))
}

// takes a step, and tells whether it was done
fn takes<D: Disk>(alloc: Global, store: &mut DurableStore, step: Step, disk: &mut D) -> bool {
    match step {
        Step::Commit => commit(alloc, store, disk).is_ok(),
        Step::Checkpoint => checkpoint(alloc, store, disk).is_ok(),
    }
}

// A step of the store of `begun` that stops after so many calls, and whether it was told as done.
fn stopped(alloc: Global, step: Step, calls: u64) -> Result<(Kept, bool), Fail> {
    let (disk, mut store) = begun(alloc)?;
    let mut fuse = fused(disk, calls);
    let done = takes(alloc, &mut store, step, &mut fuse);
    Ok(((fuse.into_inner(), store), done))
}

// the disk of a folder whose opening stops after so many calls
fn half_opened(alloc: Global, disk: MemoryDisk, calls: u64) -> MemoryDisk {
    let mut fuse = fused(disk, calls);
    let _stopped = opened(alloc, &mut fuse);
    fuse.into_inner()
}

fn record_of(alloc: Global, octets: &[u8]) -> Result<Record, Fail> {
    let shown = view(octets).ok().ok_or("no record")?;
    Ok(shown.to_record(alloc).ok().ok_or("memory")?)
}

fn add_record<S: Store>(alloc: Global, store: &mut S, record: &Record) -> Result<Added, Fail> {
    Ok(store.add(alloc, record)?)
}

fn holds<S: Store>(alloc: Global, store: &S, record: &Record) -> Result<bool, Fail> {
    Ok(store.holds(alloc, record)?)
}

#[test]
fn a_record_is_added_once(rt: HostRuntime) -> Result<(), Fail> {
    let alloc = rt.alloc();
    let (mut disk, mut store) = begun(alloc)?;
    let waiting = store.waiting();
    assert!(rt; add(alloc, &mut store, FIRST)? == Added::Held);
    assert_eq!(rt; store.waiting(), waiting);
    assert_eq!(rt; count(&store), 3);
    commit(alloc, &mut store, &mut disk)?;
    assert_eq!(rt; store.waiting(), 0);
    let journal_len = store.journal_len();
    commit(alloc, &mut store, &mut disk)?;
    assert_eq!(rt; store.journal_len(), journal_len);
    let record = record_of(alloc, FOURTH)?;
    assert!(rt; add_record(alloc, &mut store, &record)? == Added::New);
    assert!(rt; add_record(alloc, &mut store, &record)? == Added::Held);
    assert!(rt; holds(alloc, &store, &record)?);
    Ok(())
}

#[test]
fn a_store_is_opened_with_what_came_since_the_last_checkpoint(rt: HostRuntime) -> Result<(), Fail> {
    let alloc = rt.alloc();
    let (mut disk, store) = committed(alloc)?;
    let mut again = opened(alloc, &mut disk)?;
    assert!(rt; text_of(alloc, &again)? == text_of(alloc, &store)?);
    checkpoint(alloc, &mut again, &mut disk)?;
    assert_eq!(rt; count(&again), 0);
    assert_eq!(rt; again.journal_len(), 0);
    assert_eq!(rt; segments(alloc, &mut disk)?, 3);
    let mut later = opened(alloc, &mut disk)?;
    assert_eq!(rt; count(&later), 0);
    add(alloc, &mut later, FOURTH)?;
    checkpoint(alloc, &mut later, &mut disk)?;
    assert_eq!(rt; segments(alloc, &mut disk)?, 4);
    let all = all_files(alloc, &mut disk)?;
    assert!(rt; has_all(&all, &[FIRST, SECOND, THIRD, FOURTH]));
    Ok(())
}

// A checkpoint that is stopped at each of its calls, with a crash whatever it leaves: what was
// committed is in a file that counts, and what is read was received.
#[test]
fn a_checkpoint_may_stop_at_any_call(rt: HostRuntime) -> Result<(), Fail> {
    let alloc = rt.alloc();
    for stop in &stops(alloc, 40, &[0], &[None, Some(0), Some(1)])? {
        let ((disk, store), done) = stopped(alloc, Step::Checkpoint, stop.calls)?;
        assert_eq!(rt; count(&store), if done { 0 } else { 3 }, "at {stop:?}");
        let mut disk = crash(
            disk,
            (stop.calls % 3) as usize,
            stop.octet,
            stop.calls % 2 == 0,
        )?;
        let mut again = opened(alloc, &mut disk)?;
        let all = all_files(alloc, &mut disk)?;
        assert!(rt; has_all(&all, &[FIRST, THIRD]), "at {stop:?}");
        assert!(rt;
            has(&all, SECOND) || !done && count(&again) > 0,
            "at {stop:?}"
        );
        checkpoint(alloc, &mut again, &mut disk)?;
        let all = all_files(alloc, &mut disk)?;
        assert!(rt; has_all(&all, &[FIRST, THIRD]), "at {stop:?}");
    }
    Ok(())
}

// The disk has room again: the store is opened again, and the next checkpoint goes on beside the
// segments that are there.
#[test]
fn a_checkpoint_is_made_again(rt: HostRuntime) -> Result<(), Fail> {
    let alloc = rt.alloc();
    for calls in 0..40 {
        let ((mut disk, mut store), done) = stopped(alloc, Step::Checkpoint, calls)?;
        if !done {
            assert_eq!(rt;
                commit(alloc, &mut store, &mut disk),
                Err(StoreFault::Broken)
            );
            add(alloc, &mut store, FOURTH)?;
            reopen(alloc, &mut store, &mut disk)?;
            checkpoint(alloc, &mut store, &mut disk)?;
        }
        assert_eq!(rt; count(&store), 0);
        let mut disk = crash(disk, 1, Some(1), true)?;
        let all = all_files(alloc, &mut disk)?;
        assert!(rt; has_all(&all, &[FIRST, SECOND, THIRD]), "at {calls}");
        assert!(rt; done || has(&all, FOURTH), "at {calls}");
    }
    Ok(())
}

// takes a step of a store, which is opened again before if it is broken
fn tries<D: Disk>(
    alloc: Global,
    store: &mut DurableStore,
    step: Step,
    disk: &mut D,
) -> Result<(), CheckpointFault> {
    if store.is_broken() {
        reopen(alloc, store, disk)?;
    }
    match step {
        Step::Commit => Ok(commit(alloc, store, disk)?),
        Step::Checkpoint => checkpoint(alloc, store, disk),
    }
}

// How many tries of a step are told to find no room before one does it. All records stay in memory until then.
fn tries_without_room<D: Disk>(
    alloc: Global,
    store: &mut DurableStore,
    step: Step,
    disk: &mut D,
) -> Result<u64, Fail> {
    for told in 0..8 {
        let Err(fault) = tries(alloc, store, step, disk) else {
            return Ok(told);
        };
        if !fault.is_full() || count(store) != 3 {
            return Err("another fault, or records are lost".into());
        }
    }
    Err("never done".into())
}

// The octets of the files of a store that is opened after a crash, which left nothing that was not on the disk.
fn left_by_crash(alloc: Global, disk: MemoryDisk) -> Result<Vec<u8>, Fail> {
    let mut disk = crash(disk, 0, Some(1), true)?;
    let _store = opened(alloc, &mut disk)?;
    all_files(alloc, &mut disk)
}

// whether a crash leaves what is committed where a step found no room at the sync behind so many
fn keeps_committed(alloc: Global, step: Step, before: u64) -> Result<bool, Fail> {
    let (disk, mut store) = begun(alloc)?;
    let mut cramped = CrampedDisk::new(disk, before, 1);
    let _done = takes(alloc, &mut store, step, &mut cramped);
    let all = left_by_crash(alloc, cramped.into_inner())?;
    Ok(has_all(&all, &[FIRST, THIRD]))
}

// Whether a step is done that finds no room at `full` syncs behind the first `before`, once so many tries have told
// so. All records are on the disk then.
fn is_tried_again(
    alloc: Global,
    step: Step,
    before: u64,
    full: u64,
    told: u64,
) -> Result<bool, Fail> {
    let (disk, mut store) = begun(alloc)?;
    let mut cramped = CrampedDisk::new(disk, before, full);
    let found = tries_without_room(alloc, &mut store, step, &mut cramped)?;
    let left = match step {
        Step::Commit => 3,
        Step::Checkpoint => 0,
    };
    let is_done = found == told && count(&store) == left;
    let all = left_by_crash(alloc, cramped.into_inner())?;
    Ok(is_done && has_all(&all, &[FIRST, SECOND, THIRD]))
}

// The number of syncs behind which a step that finds no room does not tell so, loses something or is not done later.
// Behind all of its syncs, it is done at once.
fn first_without_room(alloc: Global, step: Step, syncs: u64) -> Result<Option<u64>, Fail> {
    for before in 0..=syncs {
        let full = 1 + before % 3;
        let told = if before < syncs { full } else { 0 };
        let is_done = is_tried_again(alloc, step, before, full, told)?;
        if !is_done || !keeps_committed(alloc, step, before)? {
            return Ok(Some(before));
        }
    }
    Ok(None)
}

// Each sync of a commit and of a checkpoint finds no room, and so do some behind it: that is told, nothing is lost,
// and it is done once there is room.
#[test]
fn a_sync_without_room_is_tried_again(rt: HostRuntime) -> Result<(), Fail> {
    let alloc = rt.alloc();
    assert_eq!(rt; first_without_room(alloc, Step::Commit, 2)?, None);
    assert_eq!(rt; first_without_room(alloc, Step::Checkpoint, 8)?, None);
    Ok(())
}

// Whether what is committed outlives a commit that stops with a crash, and an opening that does so behind `more`
// calls.
fn outlives(alloc: Global, stop: &Stop, more: u64) -> Result<bool, Fail> {
    let ((disk, _store), done) = stopped(alloc, Step::Commit, stop.calls)?;
    let disk = half_opened(alloc, crash(disk, stop.kept, stop.octet, true)?, more);
    let again = opened(alloc, &mut crash(disk, 1, stop.octet, false)?)?;
    let all = text_of(alloc, &again)?;
    let is_held = has_all(&all, &[FIRST, THIRD]) && (has(&all, SECOND) || !done);
    Ok(is_held && count(&again) <= 3)
}

// the number of calls behind which the opening stops that loses something
fn first_loss(alloc: Global, stop: &Stop) -> Result<Option<u64>, Fail> {
    for more in 0..8 {
        if !outlives(alloc, stop, more)? {
            return Ok(Some(more));
        }
    }
    Ok(None)
}

// A commit that is stopped at each of its calls, with a crash whatever it leaves, and then the opening
// is stopped too.
#[test]
fn a_second_crash_may_come_in_the_recovery(rt: HostRuntime) -> Result<(), Fail> {
    let alloc = rt.alloc();
    for stop in &stops(alloc, 6, &[3], &[None, Some(254), Some(1)])? {
        assert_eq!(rt; first_loss(alloc, stop)?, None, "at {stop:?}");
    }
    Ok(())
}

// the file of the first journal
fn journal(alloc: Global, disk: &mut MemoryDisk) -> Result<Vec<u8>, Fail> {
    octets_of(alloc, disk, JOURNAL)
}

// a folder with this journal
fn with_journal(alloc: Global, octets: &[u8]) -> Result<MemoryDisk, Fail> {
    let mut disk = MemoryDisk::new(alloc);
    put(alloc, &mut disk, JOURNAL, &[octets])?;
    Ok(disk)
}

// A batch is its entries, and their length and CRC-32C behind '#'; behind the batches is 254.
#[test]
fn a_batch_is_sealed(rt: HostRuntime) -> Result<(), Fail> {
    let alloc = rt.alloc();
    let mut disk = MemoryDisk::new(alloc);
    let mut store = opened(alloc, &mut disk)?;
    add(alloc, &mut store, FIRST)?;
    commit(alloc, &mut store, &mut disk)?;
    let sum = FIRST_SUM.to_le_bytes();
    let front = b"\x01\x1c\0\0\016 <0>1 - - - - - -#\x13\0\0\0";
    let want = joined(alloc, &[front, &sum, &[254]])?;
    assert!(rt; journal(alloc, &mut disk)? == want);
    Ok(())
}

// A journal of an older program is read, and goes on with batches that are sealed.
#[test]
fn an_older_journal_goes_on(rt: HostRuntime) -> Result<(), Fail> {
    let alloc = rt.alloc();
    let mut disk = with_journal(alloc, &joined(alloc, &[PLAIN, TAIL])?)?;
    let mut store = opened(alloc, &mut disk)?;
    assert_eq!(rt; count(&store), 1);
    assert!(rt; journal(alloc, &mut disk)? == joined(alloc, &[PLAIN, &[254]])?);
    add(alloc, &mut store, SECOND)?;
    commit(alloc, &mut store, &mut disk)?;
    let again = opened(alloc, &mut disk)?;
    assert!(rt; text_of(alloc, &again)? == text_of(alloc, &store)?);
    assert_eq!(rt; count(&again), 2);
    Ok(())
}

// whether so many octets of the first journal, and of no other, were set aside
fn is_aside(store: &DurableStore, octets: u64) -> bool {
    let of_first = [SetAside { number: 1, octets }];
    store.set_aside() == of_first.as_slice()
}

// What is behind the batches is set aside before it is cut off, behind what was set aside before.
#[test]
fn what_is_cut_off_is_set_aside(rt: HostRuntime) -> Result<(), Fail> {
    let alloc = rt.alloc();
    let mut disk = with_journal(alloc, &joined(alloc, &[PLAIN, TAIL])?)?;
    let store = opened(alloc, &mut disk)?;
    assert!(rt; is_aside(&store, 9));
    assert!(rt; octets_of(alloc, &mut disk, DAMAGED)?.as_slice() == TAIL);
    let again = opened(alloc, &mut disk)?;
    assert_eq!(rt; again.set_aside().len(), 0);
    append(alloc, &mut disk, JOURNAL, b"zero")?;
    let later = opened(alloc, &mut disk)?;
    assert!(rt; is_aside(&later, 5));
    assert_eq!(rt; count(&later), 1);
    let all = joined(alloc, &[TAIL, b"\xfezero"])?;
    assert!(rt; octets_of(alloc, &mut disk, DAMAGED)? == all);
    Ok(())
}

// A journal whose first octets are lost reads as one without batches: all of it is set aside, and so it is
// wherever an opening stops.
#[test]
fn a_journal_that_reads_as_empty_is_set_aside(rt: HostRuntime) -> Result<(), Fail> {
    let alloc = rt.alloc();
    let (mut disk, _store) = committed(alloc)?;
    let mut octets = journal(alloc, &mut disk)?;
    let front = octets.len().min(16);
    octets[..front].fill(0);
    for calls in 0..16 {
        let mut disk = half_opened(alloc, with_journal(alloc, &octets)?, calls);
        if journal(alloc, &mut disk)? == octets {
            let again = opened(alloc, &mut disk)?;
            assert!(rt; is_aside(&again, octets.len() as u64), "at {calls}");
            assert_eq!(rt; count(&again), 0);
        }
        let aside = octets_of(alloc, &mut disk, DAMAGED)?;
        assert!(rt; aside.ends_with(&octets), "at {calls}");
    }
    Ok(())
}

// whether a folder's first journal is told as damaged so, and left as it is
fn is_told(alloc: Global, octets: &[u8], fault: JournalDamage) -> Result<bool, Fail> {
    let mut disk = with_journal(alloc, octets)?;
    let told = opened(alloc, &mut disk).err();
    let is_same = journal(alloc, &mut disk)?.as_slice() == octets;
    Ok(is_same && told == Some(OpenFault::Damaged { number: 1, fault }))
}

// Once a batch has its seal, one without a seal is damage.
#[test]
fn a_batch_without_a_seal_behind_a_sealed_one_is_damage(rt: HostRuntime) -> Result<(), Fail> {
    let alloc = rt.alloc();
    let (mut disk, _store) = committed(alloc)?;
    let whole = journal(alloc, &mut disk)?;
    let batches = &whole[..whole.len().saturating_sub(1)];
    let at = batches.len().saturating_add(PLAIN.len()) as u64;
    let behind = joined(alloc, &[batches, PLAIN, &[254]])?;
    assert!(rt; is_told(alloc, &behind, JournalDamage::Checksum { at })?);
    let mut disk = with_journal(alloc, &joined(alloc, &[PLAIN, &whole])?)?;
    assert_eq!(rt; count(&opened(alloc, &mut disk)?), 3);
    Ok(())
}

// An octet of a journal has another value: damage is told, and nothing is changed.
#[test]
fn a_damaged_journal_is_told_first(rt: HostRuntime) -> Result<(), Fail> {
    let alloc = rt.alloc();
    let (mut disk, _store) = committed(alloc)?;
    let whole = journal(alloc, &mut disk)?;
    let rows = [
        (0, 254, JournalDamage::Hidden { at: 0 }),
        (0, 3, JournalDamage::Hidden { at: 0 }),
        (1, 0, JournalDamage::Hidden { at: 5 }),
        (52, b'x', JournalDamage::Checksum { at: 72 }),
        (73, 0, JournalDamage::Checksum { at: 72 }),
        (77, 0, JournalDamage::Checksum { at: 72 }),
    ];
    for (at, octet, fault) in rows {
        let mut octets = whole.clone()?;
        if at < octets.len() {
            octets[at] = octet;
        }
        assert!(rt; is_told(alloc, &octets, fault)?, "at {at}");
    }
    Ok(())
}
