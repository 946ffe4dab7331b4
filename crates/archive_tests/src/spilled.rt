//! `archive` by way of a set that may be larger than memory.

use archive_engine::{archive_input, archive_spilled_input};
use archive_spill::{MemorySpill, Spill, SpillCall, SpilledArchive};
use driver::{DONE, FAULT, REFUSED};
use frame_engine::InputFraming;
use octet_devices::{FromRead, Fuse, ToWrite};
use std::alloc::Global;
use std::process::Abort;
use std::test::Fail;
use syslog_frame::Framing;
use syslog_legacy::FrameReading;

// a room of one page
const PAGE: usize = 4_500;

// sets whose runs are in memory
type MemorySet = SpilledArchive<MemorySpill, <MemorySpill as Spill>::Run>;

// the framing of most of these tests
const LINES: InputFraming = InputFraming::Stream(Framing::Lf);

// how many octets a device passes in all, and the call that fails
type Limits = (u64, u64);

// the limits of a device that does not fail in these tests
const WORKS: Limits = (u64::MAX, u64::MAX);

// how a frame is read in these tests
fn whole() -> FrameReading {
    FrameReading {
        trim: false,
        clock: None,
    }
}

// What a run answers and writes.
#[derive(Debug, PartialEq, Drop)]
struct Answer {
    status: u8,
    output: Vec<u8>,
    lines: Vec<u8>,
}

// 120 lines of 60 records, some of them refused, and then an end inside a line
fn input(alloc: Global) -> Result<String, Fail> {
    let mut text = String::new(alloc);
    for place in 0..120 {
        let number = place % 60 * 7 % 60;
        let second = number * 7 % 60;
        let day = if place % 50 == 3 { 30 } else { 29 };
        let line = format!(in alloc;
            "<0>1 2024-02-{day}T23:00:{second:02}.000000Z h a - - - {number}\n"
        )?;
        text.push_str(line.as_str())?;
    }
    text.push_str("<0>1 - - -")?;
    Ok(text)
}

// what `archive` answers to lines
fn expected(alloc: Global, text: &[u8]) -> Answer {
    let mut output = ToWrite::new(Vec::new(alloc));
    let mut lines = ToWrite::new(Vec::new(alloc));
    let status = archive_input(
        alloc,
        LINES,
        whole(),
        &mut FromRead::new(text),
        &mut output,
        &mut lines,
    );
    Answer {
        status,
        output: output.into_inner(),
        lines: lines.into_inner(),
    }
}

// a set of this room over a spill in memory
fn set_of(alloc: Global, spill: MemorySpill, room: usize) -> MemorySet {
    SpilledArchive::new(alloc, spill, room)
}

// what it answers with a set that may be larger than memory, over devices within limits
fn spilled_within(
    alloc: Global,
    framing: InputFraming,
    text: &[u8],
    set: MemorySet,
    limits: (Limits, Limits),
) -> Answer {
    let (of_input, of_output) = limits;
    let mut input = Fuse::new(FromRead::new(text), of_input.0, of_input.1);
    let taken = ToWrite::new(Vec::new(alloc));
    let mut output = Fuse::new(taken, of_output.0, of_output.1);
    let mut lines = ToWrite::new(Vec::new(alloc));
    let status = archive_spilled_input(
        alloc,
        framing,
        whole(),
        set,
        &mut input,
        &mut output,
        &mut lines,
    );
    Answer {
        status,
        output: output.into_inner().into_inner(),
        lines: lines.into_inner(),
    }
}

// what it answers to lines with a set of this room over a spill
fn spilled(alloc: Global, text: &[u8], spill: MemorySpill, room: usize) -> Answer {
    spilled_within(
        alloc,
        LINES,
        text,
        set_of(alloc, spill, room),
        (WORKS, WORKS),
    )
}

#[test]
fn every_room_gives_the_same(rt: HostRuntime) -> Result<(), Fail> {
    let alloc = rt.alloc();
    let text = input(alloc)?;
    let whole = expected(alloc, text.as_bytes());
    assert_eq!(rt; whole.status, REFUSED);
    assert!(rt; !whole.lines.is_empty());
    // of a page, of two, of all
    for room in [4_500, 9_000, 10_000_000] {
        let answer = spilled(alloc, text.as_bytes(), MemorySpill::new(alloc), room);
        assert!(rt; answer == whole, "room {room}");
    }
    Ok(())
}

// sees that a failed spill is told, behind a prefix of all that is written without the failure
fn see_told(rt: &impl Abort, answer: &Answer, whole: &Answer) -> Result<(), Fail> {
    assert_eq!(rt; answer.status, FAULT);
    assert!(rt; whole.output.starts_with(&answer.output));
    let told = answer.lines.strip_suffix(b"spill fault\n");
    assert!(rt; whole.lines.starts_with(told.ok_or("not told")?));
    Ok(())
}

#[test]
fn a_spill_that_fails_is_told(rt: HostRuntime) -> Result<(), Fail> {
    let alloc = rt.alloc();
    let text = input(alloc)?;
    let whole = expected(alloc, text.as_bytes());
    let mut faults = 0u32;
    for run in 0..3 {
        for call in [
            SpillCall::Make,
            SpillCall::Write { calls: 0 },
            SpillCall::Full { octets: 9 },
            SpillCall::Reopen,
            SpillCall::Read { calls: 0 },
            SpillCall::Read { calls: 1 },
        ] {
            let spill = MemorySpill::failing(alloc, run, call);
            let answer = spilled(alloc, text.as_bytes(), spill, PAGE);
            if answer != whole {
                faults = faults.saturating_add(1);
                see_told(&rt, &answer, &whole)?;
            }
        }
    }
    assert!(rt; faults > 3);
    Ok(())
}

#[test]
fn a_spill_without_room_is_told_before_anything_is_read(rt: HostRuntime) {
    let alloc = rt.alloc();
    let set = set_of(alloc, MemorySpill::failing(alloc, 0, SpillCall::Make), PAGE);
    let answer = spilled_within(alloc, LINES, b"<0>1 - - - - - -\n", set, ((0, 0), WORKS));
    assert_eq!(rt; answer.status, FAULT);
    assert_eq!(rt; answer.lines.as_slice(), b"spill fault\n".as_slice());
    assert!(rt; answer.output.is_empty());
}

#[test]
fn a_read_and_a_write_that_fail_are_told(rt: HostRuntime) -> Result<(), Fail> {
    let alloc = rt.alloc();
    let text = input(alloc)?;
    let whole = expected(alloc, text.as_bytes());
    for (limits, len, told) in [
        (((4_000, 9), WORKS), 0, b"read fault\n".as_slice()),
        ((WORKS, (500, 99)), 500, b"write fault\n"),
    ] {
        let set = set_of(alloc, MemorySpill::new(alloc), PAGE);
        let answer = spilled_within(alloc, LINES, text.as_bytes(), set, limits);
        assert_eq!(rt; answer.status, FAULT);
        assert_eq!(rt; answer.output.len(), len);
        assert!(rt; whole.output.starts_with(&answer.output));
        assert!(rt; answer.lines.ends_with(told));
    }
    Ok(())
}

#[test]
fn counted_frames_and_a_datagram(rt: HostRuntime) {
    let alloc = rt.alloc();
    let counted = InputFraming::Stream(Framing::Counted);
    let entry = b"16 <0>1 - - - - - -".as_slice();
    let bad_count = b"2 bad-count 19\n".as_slice();
    for (framing, text, status, told) in [
        (
            counted,
            b"16 <0>1 - - - - - -x".as_slice(),
            REFUSED,
            bad_count,
        ),
        (counted, entry, DONE, b""),
        (InputFraming::Datagram, b"<0>1 - - - - - -", DONE, b""),
    ] {
        let set = set_of(alloc, MemorySpill::new(alloc), 0);
        let answer = spilled_within(alloc, framing, text, set, (WORKS, WORKS));
        assert_eq!(rt; answer.status, status);
        assert_eq!(rt; answer.output.as_slice(), entry);
        assert_eq!(rt; answer.lines.as_slice(), told);
    }
}
