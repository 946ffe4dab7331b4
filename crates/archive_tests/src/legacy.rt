//! Collectors that read legacy packets (RFC 3164) under a clock.

use crate::support::{
    A, advanced, collected, collector_under, in_two_pieces, run_of, see_answers, see_text,
};
use archive_vec::VecArchive;
use std::process::Abort;
use std::test::Fail;
use syslog_collect::{Event, Outcome, RunEnd};
use syslog_frame::Framing;
use syslog_grammar::{Fault, Field};
use syslog_legacy::LegacyClock;

const CRON: &[u8] = b"<13>Feb  5 17:32:18 10.0.0.99 cron[42]: x";

const BFG: &[u8] = b"Use the BFG!";

/// The archive of the two packets, of the record A and of the empty packet, under a clock of 2001
/// that is five hours behind UTC.
const ARCHIVE: &[u8] = b"17 <13>1 - - - - - -\
    30 <13>1 - - - - - - Use the BFG!\
    19 <13>1 - h a - - - x\
    57 <13>1 2001-02-05T22:32:18.000000Z 10.0.0.99 cron 42 - - x";

const LINES: &[u8] = b"<13>Feb  5 17:32:18 10.0.0.99 cron[42]: x\nUse the BFG!\n\
    <13>1 - h a - - - x\n\n";

const COUNTED: &[u8] =
    b"12 Use the BFG!41 <13>Feb  5 17:32:18 10.0.0.99 cron[42]: x19 <13>1 - h a - - - x";

/// A message that begins with the byte order mark, and is not UTF-8 from its second octet on.
const NO_UTF8: &[u8] = b"\xef\xbb\xbfA\xff";

fn clock() -> Result<LegacyClock, Fail> {
    Ok(LegacyClock::new(2001, -300).ok_or("no clock")?)
}

/// Sees that a run over events logs these outcomes, and leaves the archive above.
fn see_archived(
    rt: &(impl Abort + AllocGlobal),
    events: &[Event<'_>],
    outcomes: &[Outcome],
) -> Result<(), Fail> {
    let (log, text) = run_of(rt, Some(clock()?), events)?;
    assert_eq!(rt; log.as_slice(), outcomes);
    assert_eq!(rt; text.as_slice(), ARCHIVE);
    Ok(())
}

#[test]
fn legacy_datagrams_are_archived(rt: HostRuntime) -> Result<(), Fail> {
    let events = [
        Event::Datagram { octets: CRON },
        Event::Datagram { octets: A },
        Event::Datagram { octets: BFG },
        Event::Datagram { octets: b"" },
        Event::Datagram { octets: CRON },
    ];
    let outcomes = [
        Outcome::New,
        Outcome::New,
        Outcome::New,
        Outcome::New,
        Outcome::Held,
    ];
    see_archived(&rt, events.as_slice(), outcomes.as_slice())
}

#[test]
fn lines_in_both_forms_are_cut_at_every_place(rt: HostRuntime) -> Result<(), Fail> {
    for cut in 0..76 {
        let pieces = LINES.split_at_checked(cut).ok_or("too short")?;
        let events = in_two_pieces(Framing::Lf, pieces);
        see_archived(&rt, events.as_slice(), [Outcome::New; 4].as_slice())?;
    }
    Ok(())
}

#[test]
fn a_counted_stream_and_a_datagram_give_the_same_archive(rt: HostRuntime) -> Result<(), Fail> {
    let framing = Framing::Counted;
    let events = [
        Event::Opened { conn: 1, framing },
        Event::Datagram { octets: b"" },
        Event::Piece {
            conn: 1,
            octets: COUNTED,
        },
        Event::Ended { conn: 1 },
    ];
    see_archived(&rt, events.as_slice(), [Outcome::New; 4].as_slice())
}

#[test]
fn a_refused_packet_leaves_the_next(rt: HostRuntime) -> Result<(), Fail> {
    let framing = Framing::Counted;
    let events = [
        Event::Datagram { octets: NO_UTF8 },
        Event::Datagram { octets: b"<13>1 x" },
        Event::Opened { conn: 1, framing },
        Event::Piece {
            conn: 1,
            octets: b"5 \xef\xbb\xbfA\xff7 <13>1 x12 Use the BFG!",
        },
        Event::Ended { conn: 1 },
    ];
    let (log, text) = run_of(&rt, Some(clock()?), events.as_slice())?;
    let field = Field::Timestamp;
    let no_utf8 = Outcome::RefusedLegacy { offset: 4 };
    let no_record = Outcome::Refused(Fault::Syntax { field, offset: 6 });
    let expected = [no_utf8, no_record, no_utf8, no_record, Outcome::New];
    assert_eq!(rt; log.as_slice(), expected.as_slice());
    assert_eq!(rt;
        text.as_slice(),
        b"30 <13>1 - - - - - - Use the BFG!".as_slice()
    );
    Ok(())
}

#[test]
fn without_a_clock_a_legacy_packet_is_no_record(rt: HostRuntime) -> Result<(), Fail> {
    let alloc = rt.alloc();
    let events = [
        Event::Datagram { octets: CRON },
        Event::Datagram { octets: NO_UTF8 },
    ];
    let (end, log, text) = collected(alloc, VecArchive::new(alloc), events.as_slice())?;
    assert_eq!(rt; end, RunEnd::Done);
    let no_version = Outcome::Refused(Fault::Syntax {
        field: Field::Version,
        offset: 4,
    });
    let no_priority = Outcome::Refused(Fault::Syntax {
        field: Field::Priority,
        offset: 0,
    });
    assert_eq!(rt; log.as_slice(), [no_version, no_priority].as_slice());
    assert_eq!(rt; text.len(), 0);
    Ok(())
}

#[test]
fn a_legacy_line_is_taken_as_far_as_its_end(rt: HostRuntime) -> Result<(), Fail> {
    let alloc = rt.alloc();
    let mut collector = collector_under(alloc, Some(clock()?), VecArchive::new(alloc))?;
    let framing = Framing::Lf;
    let piece = Event::Piece {
        conn: 9,
        octets: LINES,
    };
    let datagram = Event::Datagram { octets: CRON };
    see_answers(
        &rt,
        &mut collector,
        &[
            (Event::Opened { conn: 9, framing }, Ok(None)),
            (piece, Ok(advanced(42, Outcome::New))),
            (datagram, Ok(advanced(CRON.len(), Outcome::Held))),
            (Event::Ended { conn: 9 }, Ok(None)),
        ],
    );
    let expected = b"57 <13>1 2001-02-05T22:32:18.000000Z 10.0.0.99 cron 42 - - x";
    see_text(&rt, &collector, expected)
}
