//! Sets that go to a disk, and come back.

use archive_pages::PagedArchive;
use archive_spill::{
    FolderSpill, JOINED_MAX, JOINED_ROOM, MemorySpill, Spill, SpillCall, SpillFault,
    SpilledArchive, joined_at_once,
};
use archive_text::Store;
use octet_devices::{DeviceFault, FromRead, Fuse, ToWrite};
use std::alloc::Global;
use std::io::Cursor;
use std::test::Fail;
use std::{env, fs, io, process};
use syslog_grammar::{decode, view};

// how many records the tests' set has, each added twice
const RECORDS: usize = 150;

// a room in which not all of them fit, and one in which they do
const SMALL: usize = 9_000;

const LARGE: usize = 10_000_000;

// sets whose runs are in memory
type MemorySet = SpilledArchive<MemorySpill, <MemorySpill as Spill>::Run>;

// the record of a number, at an instant that does not grow with it
fn numbered(alloc: Global, number: usize) -> Result<String, Fail> {
    let second = number % 60 * 7 % 60;
    Ok(format!(in alloc; "<0>1 2024-02-29T23:00:{second:02}.000000Z h a - - - {number}")?)
}

// an empty set over a spill
fn set_over<P: Spill + Drop>(alloc: Global, spill: P, room: usize) -> SpilledArchive<P, P::Run> {
    SpilledArchive::new(alloc, spill, room)
}

// an empty set in memory
fn set_of(alloc: Global, room: usize) -> MemorySet {
    set_over(alloc, MemorySpill::new(alloc), room)
}

// an empty set whose call on a run fails
fn failing(alloc: Global, run: u64, call: SpillCall) -> MemorySet {
    set_over(alloc, MemorySpill::failing(alloc, run, call), SMALL)
}

// adds the record of a text by its view
fn add_text<P: Spill + Drop>(
    set: &mut SpilledArchive<P, P::Run>,
    text: &str,
) -> Result<Result<(), SpillFault>, Fail> {
    match view(text.as_bytes()) {
        Ok(seen) => Ok(set.add_view(&seen)),
        Err(_) => Err(Fail::from("a fault")),
    }
}

// adds the tests' records to a set, as long as it takes them
fn add_all<P: Spill + Drop>(
    alloc: Global,
    set: &mut SpilledArchive<P, P::Run>,
) -> Result<Result<(), SpillFault>, Fail> {
    for place in 0..2 * RECORDS {
        let text = numbered(alloc, place * 7 % RECORDS)?;
        if let Err(fault) = add_text(set, &text)? {
            return Ok(Err(fault));
        }
    }
    Ok(Ok(()))
}

// the archive of the tests' records, as a set in memory writes it
fn whole(alloc: Global) -> Result<Vec<u8>, Fail> {
    let mut set = PagedArchive::new(alloc);
    for number in 0..RECORDS {
        let text = numbered(alloc, number)?;
        let Ok(seen) = view(text.as_bytes()) else {
            return Err(Fail::from("a fault"));
        };
        let _ = set.add_view(alloc, &seen).ok().ok_or("not added")?;
    }
    let mut writer = ToWrite::new(Vec::new(alloc));
    set.write(&mut writer).ok().ok_or("not written")?;
    Ok(writer.into_inner())
}

// what is answered where a set is written to a device that takes so many octets, and what it took
fn written_within<P: Spill + Drop>(
    alloc: Global,
    set: SpilledArchive<P, P::Run>,
    octets: u64,
) -> (Result<(), SpillFault>, Vec<u8>) {
    let mut writer = Fuse::new(ToWrite::new(Vec::new(alloc)), octets, u64::MAX);
    let answer = set.write(&mut writer);
    (answer, writer.into_inner().into_inner())
}

fn written<P: Spill + Drop>(
    alloc: Global,
    set: SpilledArchive<P, P::Run>,
) -> (Result<(), SpillFault>, Vec<u8>) {
    written_within(alloc, set, u64::MAX)
}

// the same where the tests' records are added first
fn filled<P: Spill + Drop>(
    alloc: Global,
    mut set: SpilledArchive<P, P::Run>,
) -> Result<(Result<(), SpillFault>, Vec<u8>), Fail> {
    match add_all(alloc, &mut set)? {
        Ok(()) => Ok(written(alloc, set)),
        Err(fault) => Ok((Err(fault), Vec::new(alloc))),
    }
}

#[test]
fn an_empty_set_has_no_text(rt: HostRuntime) {
    let (answer, octets) = written(rt.alloc(), set_of(rt.alloc(), 0));
    assert_eq!(rt; answer, Ok(()));
    assert!(rt; octets.is_empty());
}

#[test]
fn every_room_gives_the_same_text(rt: HostRuntime) -> Result<(), Fail> {
    let alloc = rt.alloc();
    let text = whole(alloc)?;
    for room in [4_500, 6_000, SMALL, LARGE] {
        let (answer, octets) = filled(alloc, set_of(alloc, room))?;
        assert_eq!(rt; answer, Ok(()));
        assert!(rt; octets == text);
    }
    Ok(())
}

#[test]
fn few_runs_are_there_at_a_time(rt: HostRuntime) -> Result<(), Fail> {
    let alloc = rt.alloc();
    let mut set = set_of(alloc, 0);
    for number in 0..63 {
        let text = numbered(alloc, number)?;
        assert_eq!(rt; add_text(&mut set, &text)?, Ok(()));
    }
    // of 32, 16, 8, 4, 2 and 1 of the records
    assert_eq!(rt; set.runs(), 6);
    Ok(())
}

#[test]
fn a_set_that_fits_makes_no_run(rt: HostRuntime) -> Result<(), Fail> {
    let alloc = rt.alloc();
    let mut set = set_of(alloc, LARGE);
    assert_eq!(rt; add_all(alloc, &mut set)?, Ok(()));
    assert_eq!(rt; set.runs(), 0);
    Ok(())
}

#[test]
fn a_record_is_added_itself(rt: HostRuntime) -> Result<(), Fail> {
    let alloc = rt.alloc();
    let record = decode(alloc, b"<0>1 - - - - - - x").ok().ok_or("a fault")?;
    assert_eq!(rt; set_of(alloc, LARGE).add(&record), Ok(()));
    Ok(())
}

#[test]
fn as_many_runs_are_joined_as_fit(rt: HostRuntime) {
    for (room, joined) in [
        (0, 2),
        (3 * JOINED_ROOM - 1, 2),
        (3 * JOINED_ROOM, 3),
        (268_435_456, 204),
        (usize::MAX, JOINED_MAX),
    ] {
        assert_eq!(rt; joined_at_once(room), joined);
    }
}

// whether, where a call on a run fails, that is told behind a prefix of the text, or all is written
fn is_told(alloc: Global, text: &[u8], run: u64, call: SpillCall) -> Result<bool, Fail> {
    let (answer, octets) = filled(alloc, failing(alloc, run, call))?;
    Ok(match answer {
        Ok(()) => octets.as_slice() == text,
        Err(SpillFault::Spill) => text.starts_with(&octets),
        Err(_) => false,
    })
}

#[test]
fn whatever_call_fails_a_prefix_is_written(rt: HostRuntime) -> Result<(), Fail> {
    let alloc = rt.alloc();
    let text = whole(alloc)?;
    for run in 0..6 {
        for call in [
            SpillCall::Make,
            SpillCall::Reopen,
            SpillCall::Write { calls: 0 },
            SpillCall::Write { calls: 1 },
            SpillCall::Read { calls: 0 },
            SpillCall::Read { calls: 1 },
            SpillCall::Full { octets: 1 },
            SpillCall::Full { octets: 2_000 },
        ] {
            assert!(rt; is_told(alloc, &text, run, call)?, "run {run}: {call:?}");
        }
    }
    Ok(())
}

#[test]
fn a_failed_call_is_told(rt: HostRuntime) -> Result<(), Fail> {
    let alloc = rt.alloc();
    for call in [
        SpillCall::Make,
        SpillCall::Write { calls: 0 },
        SpillCall::Full { octets: 9 },
        SpillCall::Reopen,
        SpillCall::Read { calls: 0 },
    ] {
        let (answer, octets) = filled(alloc, failing(alloc, 1, call))?;
        assert_eq!(rt; answer, Err(SpillFault::Spill), "{call:?}");
        assert!(rt; octets.is_empty(), "{call:?}");
    }
    Ok(())
}

#[test]
fn a_set_that_lost_a_run_takes_and_writes_nothing(rt: HostRuntime) -> Result<(), Fail> {
    let alloc = rt.alloc();
    let mut set = failing(alloc, 0, SpillCall::Full { octets: 9 });
    assert_eq!(rt; add_all(alloc, &mut set)?, Err(SpillFault::Spill));
    let added = add_text(&mut set, "<0>1 - - - - - - x")?;
    assert_eq!(rt; added, Err(SpillFault::Spill));
    let (answer, octets) = written(alloc, set);
    assert_eq!(rt; answer, Err(SpillFault::Spill));
    assert!(rt; octets.is_empty());
    Ok(())
}

#[test]
fn an_output_that_fails_is_told(rt: HostRuntime) -> Result<(), Fail> {
    let alloc = rt.alloc();
    let text = whole(alloc)?;
    for room in [SMALL, LARGE] {
        let mut set = set_of(alloc, room);
        assert_eq!(rt; add_all(alloc, &mut set)?, Ok(()));
        let (answer, octets) = written_within(alloc, set, 100);
        assert_eq!(rt; answer, Err(SpillFault::Output));
        assert_eq!(rt; octets.len(), 100);
        assert!(rt; text.starts_with(&octets));
    }
    Ok(())
}

// runs in memory that lose what was written behind some octets
#[derive(Debug, Drop)]
struct Shortened {
    spill: MemorySpill,
    kept: usize,
}

impl Spill for Shortened {
    type Written = Fuse<ToWrite<Vec<u8>>>;

    type Run = FromRead<Cursor<Vec<u8>>>;

    ghost tells = { λ _. ⊥ };

    fn make(&mut self) -> Result<Fuse<ToWrite<Vec<u8>>>, SpillFault> {
        self.spill.make()
    }

    fn reopen(
        &mut self,
        written: Fuse<ToWrite<Vec<u8>>>,
    ) -> Result<FromRead<Cursor<Vec<u8>>>, DeviceFault> {
        let mut octets = written.into_inner().into_inner();
        octets.truncate(self.kept);
        Ok(FromRead::new(Cursor::new(octets)))
    }
}

#[test]
fn a_run_that_is_read_otherwise_is_told(rt: HostRuntime) -> Result<(), Fail> {
    let alloc = rt.alloc();
    let text = whole(alloc)?;
    for kept in [1, 300] {
        let spill = Shortened {
            spill: MemorySpill::new(alloc),
            kept,
        };
        let (answer, octets) = filled(alloc, set_over(alloc, spill, SMALL))?;
        assert_eq!(rt; answer, Err(SpillFault::Spill));
        assert!(rt; text.starts_with(&octets));
    }
    Ok(())
}

// A folder of the system's temporary one, empty and new.
fn new_folder(rt: &HostRuntime, test: &str) -> io::Result<String> {
    let id = process::id(rt.process());
    let temporary = env::temp_dir(rt)?;
    let folder = temporary.as_str();
    let path = format!(in rt.alloc(); "{folder}/archive_spill.{test}.{id}")?;
    let _ = fs::remove_dir_all(rt, path.as_str());
    fs::create_dir(rt, path.as_str())?;
    Ok(path)
}

// Removes a folder, which fails unless nothing is there.
fn remove(rt: &HostRuntime, path: &str) -> io::Result<()> {
    fs::remove_dir(rt, path)
}

#[test]
fn runs_in_a_folder_leave_nothing_there(rt: HostRuntime) -> Result<(), Fail> {
    let alloc = rt.alloc();
    let path = new_folder(&rt, "runs")?;
    // a name that is taken
    let taken = format!(in alloc; "{path}/syslogbox.run.1")?;
    fs::write(&rt, taken.as_str(), "x")?;
    let spill = FolderSpill::new(&rt, path.as_str())?;
    let mut set = set_over(alloc, spill, SMALL);
    assert_eq!(rt; add_all(alloc, &mut set)?, Ok(()));
    assert!(rt; set.runs() > 1);
    fs::remove_file(&rt, taken.as_str())?;
    // nothing else is there, while the runs are
    remove(&rt, &path)?;
    fs::create_dir(&rt, path.as_str())?;
    let (answer, octets) = written(alloc, set);
    assert_eq!(rt; answer, Ok(()));
    assert!(rt; octets == whole(alloc)?);
    remove(&rt, &path)?;
    Ok(())
}

#[test]
fn a_folder_that_is_not_there_is_told(rt: HostRuntime) -> Result<(), Fail> {
    let alloc = rt.alloc();
    let path = new_folder(&rt, "missing")?;
    remove(&rt, &path)?;
    let mut spill = FolderSpill::new(&rt, path.as_str())?;
    assert_eq!(rt; spill.make().err(), Some(SpillFault::Spill));
    let (answer, _) = filled(alloc, set_over(alloc, spill, SMALL))?;
    assert_eq!(rt; answer, Err(SpillFault::Spill));
    Ok(())
}
