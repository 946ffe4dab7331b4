//! What a collector refuses, and what it goes on with.

use crate::support::{advanced, collected, collector, in_two_pieces, see_answers, see_text};
use archive_pages::PagedArchive;
use archive_vec::VecArchive;
use std::alloc::Global;
use std::test::Fail;
use syslog_collect::{
    Advance, CONNECTIONS_LIMIT, CONNECTIONS_MAX, CollectFault, Collector, Event, Outcome, RunEnd,
};
use syslog_frame::Framing;
use syslog_grammar::{Fault, Field};
use syslog_legacy::FrameReading;

const A_AS_A_LINE: &[u8] = b"<13>1 - h a - - - x\n";

const A_COUNTED: &[u8] = b"19 <13>1 - h a - - - x";

/// What a collector answers to an event.
type Answer = Result<Option<Advance>, CollectFault>;

const ALREADY_OPEN: Answer = Err(CollectFault::AlreadyOpen);

const NOT_OPEN: Answer = Err(CollectFault::NotOpen);

const TOO_MANY_OPEN: Answer = Err(CollectFault::TooManyOpen);

/// A connection of lines is opened.
fn lf(conn: u32) -> Event<'static> {
    let framing = Framing::Lf;
    Event::Opened { conn, framing }
}

/// A counted connection is opened.
fn counted(conn: u32) -> Event<'static> {
    let framing = Framing::Counted;
    Event::Opened { conn, framing }
}

fn piece<'a>(conn: u32, octets: &'a [u8]) -> Event<'a> {
    Event::Piece { conn, octets }
}

fn ended(conn: u32) -> Event<'static> {
    Event::Ended { conn }
}

#[test]
fn at_most_so_many_connections_are_opened(rt: HostRuntime) -> Result<(), Fail> {
    let mut collector = collector(rt.alloc(), VecArchive::new(rt.alloc()))?;
    assert_eq!(rt; CONNECTIONS_MAX, 64);
    see_answers(
        &rt,
        &mut collector,
        &[(lf(7), Ok(None)), (counted(7), ALREADY_OPEN)],
    );
    for conn in 101..164 {
        see_answers(&rt, &mut collector, &[(counted(conn), Ok(None))]);
    }
    let nothing = Advance {
        used: 0,
        outcome: None,
    };
    see_answers(
        &rt,
        &mut collector,
        &[
            (lf(164), TOO_MANY_OPEN),
            (lf(163), ALREADY_OPEN),
            (ended(101), Ok(None)),
            (lf(164), Ok(None)),
            (piece(7, b""), Ok(Some(nothing))),
            (piece(8, A_AS_A_LINE), NOT_OPEN),
            (piece(101, A_COUNTED), NOT_OPEN),
            (ended(8), NOT_OPEN),
        ],
    );
    Ok(())
}

/// A collector of as many connections as are asked for.
fn collector_of(alloc: Global, connections: usize) -> Result<Collector<VecArchive>, Fail> {
    let store = VecArchive::new(alloc);
    let reading = FrameReading::from(None);
    match Collector::with_connections(alloc, store, reading, connections) {
        Ok(collector) => Ok(collector),
        Err(_) => Err("no memory")?,
    }
}

#[test]
fn as_many_connections_are_opened_as_are_asked_for(rt: HostRuntime) -> Result<(), Fail> {
    assert_eq!(rt; CONNECTIONS_LIMIT, 16_384);
    for (asked, most) in [(1, 64_u32), (200, 200)] {
        let mut collector = collector_of(rt.alloc(), asked)?;
        for place in 0..most {
            let conn = place.wrapping_mul(0x9E37_79B1);
            see_answers(&rt, &mut collector, &[(lf(conn), Ok(None))]);
        }
        let whole = advanced(A_AS_A_LINE.len(), Outcome::New);
        see_answers(
            &rt,
            &mut collector,
            &[
                (lf(1), TOO_MANY_OPEN),
                (piece(0, A_AS_A_LINE), Ok(whole)),
                (ended(0x9E37_79B1), Ok(None)),
                (ended(0x9E37_79B1), NOT_OPEN),
                (lf(1), Ok(None)),
            ],
        );
        see_text(&rt, &collector, A_COUNTED)?;
    }
    Ok(())
}

#[test]
fn a_bad_count_closes_its_connection_alone(rt: HostRuntime) -> Result<(), Fail> {
    let mut collector = collector(rt.alloc(), PagedArchive::new(rt.alloc()))?;
    let bad = advanced(0, Outcome::BadCount { at: 0 });
    see_answers(
        &rt,
        &mut collector,
        &[
            (counted(1), Ok(None)),
            (counted(2), Ok(None)),
            (piece(1, b"x"), Ok(bad)),
            (piece(1, A_COUNTED), Err(CollectFault::ConnFailed)),
            (piece(2, A_COUNTED), Ok(advanced(22, Outcome::New))),
            (ended(1), Ok(None)),
            (ended(1), NOT_OPEN),
            (counted(1), Ok(None)),
            (piece(1, A_COUNTED), Ok(advanced(22, Outcome::Held))),
        ],
    );
    see_text(&rt, &collector, A_COUNTED)
}

/// A line of no octets, one of one octet, one that is longer than a frame may be, and a record.
fn lines(alloc: Global) -> Result<Vec<u8>, Fail> {
    let long = vec![in alloc; b'a'; 262_145]?;
    let mut stream = b"\nx\n".to_vec(alloc)?;
    stream.extend_from_slice(&long)?;
    stream.extend_from_slice(b"\n<0>1 - - - - - -\n")?;
    Ok(stream)
}

/// What a run over an LF connection in two pieces gives.
fn run_of_lines<'a>(
    alloc: Global,
    pieces: (&'a [u8], &'a [u8]),
) -> Result<(RunEnd, Vec<Outcome>, Vec<u8>), Fail> {
    let events = in_two_pieces(Framing::Lf, pieces);
    collected(alloc, VecArchive::new(alloc), events.as_slice())
}

/// The refusal of a line that does not begin with a priority.
fn no_priority() -> Outcome {
    let field = Field::Priority;
    Outcome::Refused(Fault::Syntax { field, offset: 0 })
}

#[test]
fn lines_are_refused_where_they_are_no_records(rt: HostRuntime) -> Result<(), Fail> {
    let stream = lines(rt.alloc())?;
    assert_eq!(rt; stream.len(), 262_166);
    let logged = [no_priority(), no_priority(), Outcome::TooLong, Outcome::New];
    for (from, to) in [(0, 6), (262_145, 262_152), (262_162, 262_167)] {
        for cut in from..to {
            let pieces = stream.split_at_checked(cut).ok_or("too short")?;
            let (end, log, text) = run_of_lines(rt.alloc(), pieces)?;
            assert_eq!(rt; end, RunEnd::Done);
            assert_eq!(rt; log.as_slice(), logged.as_slice());
            assert_eq!(rt; text.as_slice(), b"16 <0>1 - - - - - -".as_slice());
        }
    }
    Ok(())
}

#[test]
fn a_line_without_its_end_is_no_record(rt: HostRuntime) -> Result<(), Fail> {
    let stream = lines(rt.alloc())?;
    let whole = stream.split_at_checked(262_165).ok_or("too short")?;
    let (end, log, text) = run_of_lines(rt.alloc(), (whole.0, b""))?;
    let stopped = RunEnd::Stopped {
        at: 3,
        taken: 0,
        fault: CollectFault::Unterminated { start: 262_149 },
    };
    assert_eq!(rt; end, stopped);
    let logged = [no_priority(), no_priority(), Outcome::TooLong];
    assert_eq!(rt; log.as_slice(), logged.as_slice());
    assert_eq!(rt; text.len(), 0);
    Ok(())
}
