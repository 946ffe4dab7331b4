//! Frames that are cut out of streams, and frames that are written.

use std::alloc::Global;
use std::process::Abort;
use std::test::Fail;
use syslog_frame::{
    EndFault, FRAME_MAX, Framing, GrowFault, GrowingScanner, MsgLen, PiecesFault, PutFault,
    ROOM_KEPT, Ready, ScanFault, Scanner, StartFault, StreamEnd, frames_of_pieces, msg_len,
    put_frame, trimmed,
};

const RECORD: &[u8] = b"<0>1 - - - - - -";

/// A call of a scanner, and what it answers.
#[derive(Clone, Copy)]
enum Step<'a> {
    Push(&'a [u8], Result<usize, ScanFault>),
    Ready(Option<Ready<'a>>),
    Release(bool),
    End(Result<(), EndFault>),
    Position(u64),
}

/// Whether a scanner answers so.
fn answers(scanner: &mut Scanner, step: Step<'_>) -> bool {
    match step {
        Step::Push(piece, answer) => scanner.push(piece) == answer,
        Step::Ready(answer) => scanner.ready() == answer,
        Step::Release(answer) => scanner.release() == answer,
        Step::End(answer) => scanner.end() == answer,
        Step::Position(answer) => scanner.position() == answer,
    }
}

/// Fails at the first step at which a scanner answers otherwise.
fn walk(rt: &impl Abort, scanner: &mut Scanner, steps: &[Step<'_>]) {
    for (number, step) in steps.iter().enumerate() {
        assert!(rt; answers(scanner, *step), "step {number}");
    }
}

/// The same fault of a scanner that grows.
fn growing(fault: ScanFault) -> GrowFault {
    match fault {
        ScanFault::Failed => GrowFault::Failed,
        ScanFault::StreamTooLong => GrowFault::StreamTooLong,
    }
}

/// Whether a scanner that grows answers so.
fn growing_answers(scanner: &mut GrowingScanner, step: Step<'_>) -> bool {
    match step {
        Step::Push(piece, answer) => scanner.push(piece) == answer.map_err(growing),
        Step::Ready(answer) => scanner.ready() == answer,
        Step::Release(answer) => scanner.release() == answer,
        Step::End(answer) => scanner.end() == answer,
        Step::Position(answer) => scanner.position() == answer,
    }
}

/// Fails at the first step at which a scanner that grows answers otherwise.
fn walk_growing(rt: &impl Abort, scanner: &mut GrowingScanner, steps: &[Step<'_>]) {
    for (number, step) in steps.iter().enumerate() {
        assert!(rt; growing_answers(scanner, *step), "step {number}");
    }
}

#[test]
fn a_counted_stream_cut_anywhere_has_one_frame(rt: HostRuntime) -> Result<(), Fail> {
    let stream = b"16 <0>1 - - - - - -";
    for cut in 0..=stream.len() {
        let (first, second) = stream.split_at(cut);
        let mut scanner = Scanner::new(rt.alloc(), Framing::Counted)?;
        walk(&rt, &mut scanner, &[Step::Push(first, Ok(cut))]);
        if cut < stream.len() {
            walk(&rt, &mut scanner, &[Step::Ready(None)]);
        }
        let rest = [
            Step::Push(second, Ok(second.len())),
            Step::Ready(Some(Ready::Frame(RECORD))),
            Step::End(Err(EndFault::Unreleased)),
            Step::Release(true),
            Step::End(Ok(())),
        ];
        walk(&rt, &mut scanner, &rest);
    }
    Ok(())
}

/// Whether pieces of a counted stream hold these frames and no other, and stop so.
fn hold(alloc: Global, pieces: &[&[u8]], frames: &[&[u8]], stop: StreamEnd) -> Result<bool, Fail> {
    let mut owned = Vec::new(alloc);
    for piece in pieces {
        owned.push(piece.to_vec(alloc)?)?;
    }
    let read = frames_of_pieces(alloc, Framing::Counted, &owned)?;
    let mut same = read.stop == stop && read.frames.len() == frames.len();
    for (found, frame) in read.frames.iter().zip(frames) {
        same = same
            && found
                .as_ref()
                .is_some_and(|found| found.as_slice() == *frame);
    }
    Ok(same)
}

#[test]
fn pieces_of_any_cut_hold_the_same_frames(rt: HostRuntime) -> Result<(), Fail> {
    let stream = b"16 <0>1 - - - - - -2 ab16 <0>";
    let stop = StreamEnd::Unterminated { start: 23 };
    for cut in 0..=stream.len() {
        let (first, second) = stream.split_at(cut);
        let same = hold(rt.alloc(), &[first, second], &[RECORD, b"ab"], stop)?;
        assert!(rt; same, "cut at {cut}");
    }
    Ok(())
}

#[test]
fn nothing_follows_a_bad_count(rt: HostRuntime) -> Result<(), Fail> {
    let stop = StreamEnd::BadCount { at: 4 };
    assert!(rt; hold(rt.alloc(), &[b"2 ab0", b"2 ab"], &[b"ab"], stop)?);
    Ok(())
}

/// Fails unless a count of these octets is bad at this offset, and the scanner then fails for good.
fn is_bad_at(rt: &(impl Abort + AllocGlobal), octets: &[u8], at: usize) -> Result<(), Fail> {
    assert_eq!(rt; msg_len(octets), MsgLen::Bad { at });
    let mut scanner = Scanner::new(rt.alloc(), Framing::Counted)?;
    let steps = [
        Step::Push(octets, Ok(at)),
        Step::Ready(Some(Ready::BadCount { at: at as u64 })),
        Step::Push(octets, Ok(0)),
        Step::End(Err(EndFault::Unreleased)),
        Step::Release(true),
        Step::Push(octets, Err(ScanFault::Failed)),
        Step::Ready(None),
        Step::Release(false),
        Step::End(Err(EndFault::Failed)),
    ];
    walk(rt, &mut scanner, &steps);
    Ok(())
}

#[test]
fn bad_counts_stand_at_the_octet(rt: HostRuntime) -> Result<(), Fail> {
    is_bad_at(&rt, b"016 ", 0)?;
    is_bad_at(&rt, b"0 ", 0)?;
    is_bad_at(&rt, b"16<", 2)?;
    is_bad_at(&rt, b"12345678901 ", 10)
}

#[test]
fn a_count_is_read_with_its_space(rt: HostRuntime) -> Result<(), Fail> {
    let rows: [(&[u8], MsgLen); 6] = [
        (b"16 <", MsgLen::Whole { count: 16, used: 3 }),
        (b"16", MsgLen::Part),
        (b"", MsgLen::Part),
        (b"016 ", MsgLen::Bad { at: 0 }),
        (
            b"9999999999 ",
            MsgLen::Whole {
                count: 9_999_999_999,
                used: 11,
            },
        ),
        (b"x", MsgLen::Bad { at: 0 }),
    ];
    for (octets, answer) in rows {
        assert_eq!(rt; msg_len(octets), answer);
    }
    Ok(())
}

#[test]
fn a_counted_rest_is_unterminated(rt: HostRuntime) -> Result<(), Fail> {
    let mut scanner = Scanner::new(rt.alloc(), Framing::Counted)?;
    let steps = [
        Step::Push(b"16 <0>", Ok(6)),
        Step::End(Err(EndFault::Unterminated { start: 0 })),
    ];
    walk(&rt, &mut scanner, &steps);
    Ok(())
}

/// An empty line and a short one, each taken once the line before it is released.
const SHORT_LINES: [Step<'static>; 7] = [
    Step::Push(b"\nx\n", Ok(1)),
    Step::Ready(Some(Ready::Frame(b""))),
    Step::Push(b"x\n", Ok(0)),
    Step::Release(true),
    Step::Push(b"x\n", Ok(2)),
    Step::Ready(Some(Ready::Frame(b"x"))),
    Step::Release(true),
];

/// The end of a line above the limit, and a record behind it.
const BEHIND_A_LONG_LINE: [Step<'static>; 9] = [
    Step::Ready(None),
    Step::Push(b"\n<0>1 - - - - - -", Ok(1)),
    Step::Ready(Some(Ready::TooLong)),
    Step::Release(true),
    Step::Position(262_149),
    Step::Push(RECORD, Ok(16)),
    Step::End(Err(EndFault::Unterminated { start: 262_149 })),
    Step::Push(b"\n", Ok(1)),
    Step::Ready(Some(Ready::Frame(RECORD))),
];

#[test]
fn a_line_above_the_limit_is_told_once(rt: HostRuntime) -> Result<(), Fail> {
    let mut scanner = Scanner::new(rt.alloc(), Framing::Lf)?;
    walk(&rt, &mut scanner, &SHORT_LINES);
    for _ in 0..FRAME_MAX + 1 {
        walk(&rt, &mut scanner, &[Step::Push(b"a", Ok(1))]);
    }
    walk(&rt, &mut scanner, &BEHIND_A_LONG_LINE);
    Ok(())
}

#[test]
fn room_that_grows_holds_every_frame(rt: HostRuntime) -> Result<(), Fail> {
    let mut scanner = GrowingScanner::new(rt.alloc(), Framing::Lf);
    for size in [0, 1, ROOM_KEPT, ROOM_KEPT + 1, FRAME_MAX, FRAME_MAX + 1, 5] {
        let line = vec![in rt.alloc(); b'a'; size]?;
        for piece in line.chunks(1_000) {
            walk_growing(&rt, &mut scanner, &[Step::Push(piece, Ok(piece.len()))]);
        }
        let ready = if size <= FRAME_MAX {
            Ready::Frame(line.as_slice())
        } else {
            Ready::TooLong
        };
        let steps = [
            Step::Push(b"\nb", Ok(1)),
            Step::Ready(Some(ready)),
            Step::Release(true),
            Step::End(Ok(())),
        ];
        walk_growing(&rt, &mut scanner, &steps);
    }
    Ok(())
}

#[test]
fn a_scanner_that_grows_meets_bad_counts(rt: HostRuntime) {
    let mut scanner = GrowingScanner::new(rt.alloc(), Framing::Counted);
    let steps = [
        Step::Push(b"2 ab02 ", Ok(4)),
        Step::Ready(Some(Ready::Frame(b"ab"))),
        Step::Release(true),
        Step::Push(b"02 ", Ok(0)),
        Step::Ready(Some(Ready::BadCount { at: 4 })),
        Step::Release(true),
        Step::Push(b"2 ab", Err(ScanFault::Failed)),
    ];
    walk_growing(&rt, &mut scanner, &steps);
}

#[test]
fn a_carriage_return_belongs_to_the_line(rt: HostRuntime) -> Result<(), Fail> {
    let mut scanner = Scanner::new(rt.alloc(), Framing::Lf)?;
    let steps = [
        Step::Push(b"x\r\n", Ok(3)),
        Step::Ready(Some(Ready::Frame(b"x\r"))),
    ];
    walk(&rt, &mut scanner, &steps);
    Ok(())
}

#[test]
fn positions_end_at_their_last(rt: HostRuntime) -> Result<(), Fail> {
    let last = 4_611_686_018_427_387_904;
    let mut scanner = Scanner::new_at(rt.alloc(), Framing::Lf, last)?;
    let steps = [
        Step::Push(b"a", Err(ScanFault::StreamTooLong)),
        Step::Push(b"", Ok(0)),
    ];
    walk(&rt, &mut scanner, &steps);
    let refused = Scanner::new_at(rt.alloc(), Framing::Lf, last + 1).err();
    assert_eq!(rt; refused, Some(StartFault::PositionTooLarge));
    Ok(())
}

/// Appends a frame.
fn put(framing: Framing, octets: &[u8], out: &mut Vec<u8>) -> Result<(), PutFault> {
    put_frame(framing, octets, out)
}

#[test]
fn frames_are_written(rt: HostRuntime) {
    let mut out = Vec::new(rt.alloc());
    let rows: [(Framing, &[u8], Result<(), PutFault>, &[u8]); 4] = [
        (Framing::Counted, b"", Err(PutFault::Empty), b""),
        (Framing::Lf, b"a\nb", Err(PutFault::HasLf), b""),
        (Framing::Lf, b"", Ok(()), b"\n"),
        (Framing::Counted, b"ab", Ok(()), b"\n2 ab"),
    ];
    for (framing, octets, answer, written) in rows {
        assert_eq!(rt; put(framing, octets, &mut out), answer);
        assert_eq!(rt; out.as_slice(), written);
    }
}

/// A record whose one value is so many spellings of a backslash and an `n`.
fn with_spellings(alloc: Global, spelling: &[u8]) -> Result<Vec<u8>, Fail> {
    let mut out = b"<0>1 - - - - - [a k=\"".as_slice().to_vec(alloc)?;
    for _ in 0..131_060 {
        out.extend_from_slice(spelling)?;
    }
    out.extend_from_slice(b"\"]")?;
    Ok(out)
}

#[test]
fn the_largest_record_is_written_and_a_longer_one_is_not(rt: HostRuntime) -> Result<(), Fail> {
    let record = with_spellings(rt.alloc(), b"\\n")?;
    let mut canonical = with_spellings(rt.alloc(), b"\\\\n")?;
    assert_eq!(rt; record.len(), 262_143);
    assert_eq!(rt; canonical.len(), 393_203);
    let mut out = Vec::new(rt.alloc());
    for framing in [Framing::Counted, Framing::Lf] {
        assert_eq!(rt; put(framing, &canonical, &mut out), Err(PutFault::TooLong));
        assert!(rt; out.is_empty());
    }
    canonical.truncate(98_291);
    assert_eq!(rt; put(Framing::Lf, &canonical, &mut out), Ok(()));
    assert_eq!(rt; out.len(), 98_292);
    out.clear();
    assert_eq!(rt; put(Framing::Counted, &record, &mut out), Ok(()));
    assert_eq!(rt; out.len(), 262_150);
    let mut scanner = Scanner::new(rt.alloc(), Framing::Counted)?;
    let steps = [
        Step::Push(&out, Ok(262_150)),
        Step::Ready(Some(Ready::Frame(record.as_slice()))),
    ];
    walk(&rt, &mut scanner, &steps);
    Ok(())
}

#[test]
fn faults_have_their_texts(rt: HostRuntime) -> Result<(), Fail> {
    let text = format!(in rt.alloc(); "{}", EndFault::Unterminated { start: 7 })?;
    assert_eq!(rt; text.as_str(), "the frame at 7 is unfinished");
    let text = format!(in rt.alloc(); "{}", PiecesFault::Memory)?;
    assert_eq!(rt; text.as_str(), "out of memory");
    Ok(())
}

#[test]
fn one_line_end_or_nul_is_trimmed(rt: HostRuntime) -> Result<(), Fail> {
    let rows: [(&[u8], &[u8]); 12] = [
        (b"", b""),
        (b"\n", b""),
        (b"\r\n", b""),
        (b"a", b"a"),
        (b"a\n", b"a"),
        (b"a\r\n", b"a"),
        (b"a\r", b"a"),
        (b"a\0", b"a"),
        (b"a\n\n", b"a\n"),
        (b"a\r\r\n", b"a\r"),
        (b"a\n\r", b"a\n"),
        (b"a\n\0", b"a\n"),
    ];
    for (frame, octets) in rows {
        assert_eq!(rt; trimmed(frame), octets);
    }
    Ok(())
}
