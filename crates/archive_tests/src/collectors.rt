//! Collectors over both stores.

use crate::support::{A, ARCHIVE, B, C, collector, run_of, see_text, text_of};
use archive_laws::same_records_have_one_text;
use archive_pages::PagedArchive;
use archive_text::Store;
use archive_vec::{VecArchive, merge};
use std::alloc::Global;
use std::process::Abort;
use std::test::Fail;
use syslog_collect::{Collector, Event, Outcome, RunEnd, merged_archives, same_archives};
use syslog_frame::Framing;

const C_AS_A_LINE: &[u8] = b"<12>1 2024-02-29T23:00:00.000000Z h a - - - z\n";

const FIRST_STREAM: &[u8] = b"38 <14>1 2024-02-29T23:30:00Z h a - - - y19 <13>1 - h a - - - x";

const SECOND_STREAM: &[u8] =
    b"38 <12>1 2024-02-29T23:00:00Z h a - - - z45 <14>1 2024-02-29T23:30:00.000000Z h a - - - y";

#[test]
fn datagrams_and_a_line_are_archived(rt: HostRuntime) -> Result<(), Fail> {
    let framing = Framing::Lf;
    let events = [
        Event::Datagram { octets: B },
        Event::Datagram { octets: A },
        Event::Opened { conn: 1, framing },
        Event::Piece {
            conn: 1,
            octets: C_AS_A_LINE,
        },
        Event::Ended { conn: 1 },
    ];
    let (log, text) = run_of(&rt, None, events.as_slice())?;
    let expected = [Outcome::New, Outcome::New, Outcome::New];
    assert_eq!(rt; log.as_slice(), expected.as_slice());
    assert_eq!(rt; text.as_slice(), ARCHIVE);
    Ok(())
}

/// The two counted streams, each in two pieces, by turns.
fn turns<'a>(first: (&'a [u8], &'a [u8]), second: (&'a [u8], &'a [u8])) -> [Event<'a>; 8] {
    let framing = Framing::Counted;
    [
        Event::Opened { conn: 1, framing },
        Event::Opened { conn: 2, framing },
        Event::Piece {
            conn: 1,
            octets: first.0,
        },
        Event::Piece {
            conn: 2,
            octets: second.0,
        },
        Event::Piece {
            conn: 1,
            octets: first.1,
        },
        Event::Ended { conn: 1 },
        Event::Piece {
            conn: 2,
            octets: second.1,
        },
        Event::Ended { conn: 2 },
    ]
}

#[test]
fn two_streams_are_cut_at_every_place(rt: HostRuntime) -> Result<(), Fail> {
    for cut in 0..64 {
        let first = FIRST_STREAM.split_at_checked(cut).ok_or("too short")?;
        for other in 0..90 {
            let second = SECOND_STREAM.split_at_checked(other).ok_or("too short")?;
            let (log, text) = run_of(&rt, None, turns(first, second).as_slice())?;
            assert_eq!(rt; log.len(), 4);
            assert_eq!(rt; text.as_slice(), ARCHIVE);
        }
    }
    Ok(())
}

/// What is logged of datagrams, and the text of the archive then.
fn run_of_datagrams(
    rt: &(impl Abort + AllocGlobal),
    datagrams: &[&[u8]],
) -> Result<(Vec<Outcome>, Vec<u8>), Fail> {
    let mut events = Vec::new(rt.alloc());
    for octets in datagrams {
        events.push(Event::Datagram { octets })?;
    }
    run_of(rt, None, events.as_slice())
}

/// A collector over a store that received datagrams.
fn receiver<S: Store + Drop>(
    alloc: Global,
    store: S,
    datagrams: &[&[u8]],
) -> Result<Collector<S>, Fail> {
    let mut receiver = collector(alloc, store)?;
    let mut log = Vec::new(alloc);
    for octets in datagrams {
        if receiver.run(alloc, &[Event::Datagram { octets }], &mut log) != RunEnd::Done {
            Err("a datagram was refused")?;
        }
    }
    Ok(receiver)
}

#[test]
fn collectors_of_the_same_records_have_one_archive(rt: HostRuntime) -> Result<(), Fail> {
    let alloc = rt.alloc();
    let one = receiver(alloc, VecArchive::new(alloc), &[B, A, C])?;
    let two = receiver(alloc, PagedArchive::new(alloc), &[C, A, B, A])?;
    same_archives(&one, &two);
    same_records_have_one_text(one.store(), two.store());
    see_text(&rt, &one, ARCHIVE)?;
    see_text(&rt, &two, ARCHIVE)
}

#[test]
fn archives_of_two_collectors_merge_to_that_of_one(rt: HostRuntime) -> Result<(), Fail> {
    let alloc = rt.alloc();
    let left = receiver(alloc, VecArchive::new(alloc), &[B, A])?;
    let right = receiver(alloc, VecArchive::new(alloc), &[A, C])?;
    let all = receiver(alloc, PagedArchive::new(alloc), &[A, B, C])?;
    merged_archives(&left, &right, &all);
    let merged = merge(alloc, left.store(), right.store())?;
    assert_eq!(rt; text_of(alloc, &merged)?.as_slice(), ARCHIVE);
    see_text(&rt, &all, ARCHIVE)
}

#[test]
fn an_instant_in_two_zones_is_one_entry(rt: HostRuntime) -> Result<(), Fail> {
    let (log, text) = run_of_datagrams(
        &rt,
        &[
            b"<14>1 2024-03-01T00:30:00+01:00 h a - - -",
            b"<14>1 2024-02-29T23:30:00.0Z h a - - -",
        ],
    )?;
    assert_eq!(rt; log.as_slice(), [Outcome::New, Outcome::Held].as_slice());
    let expected = b"43 <14>1 2024-02-29T23:30:00.000000Z h a - - -".as_slice();
    assert_eq!(rt; text.as_slice(), expected);
    Ok(())
}

const NO_MESSAGE: &[u8] = b"<0>1 - - - - - -";

const EMPTY_MESSAGE: &[u8] = b"<0>1 - - - - - - ";

const BOM_MESSAGE: &[u8] = b"<0>1 - - - - - - \xef\xbb\xbf";

#[test]
fn the_empty_message_is_none(rt: HostRuntime) -> Result<(), Fail> {
    for datagrams in [[NO_MESSAGE, EMPTY_MESSAGE], [EMPTY_MESSAGE, NO_MESSAGE]] {
        let (log, text) = run_of_datagrams(&rt, datagrams.as_slice())?;
        assert_eq!(rt; log.as_slice(), [Outcome::New, Outcome::Held].as_slice());
        assert_eq!(rt; text.as_slice(), b"16 <0>1 - - - - - -".as_slice());
    }
    Ok(())
}

#[test]
fn the_bom_alone_is_a_message(rt: HostRuntime) -> Result<(), Fail> {
    for datagrams in [
        [NO_MESSAGE, BOM_MESSAGE, EMPTY_MESSAGE],
        [BOM_MESSAGE, EMPTY_MESSAGE, BOM_MESSAGE],
    ] {
        let (log, text) = run_of_datagrams(&rt, datagrams.as_slice())?;
        let expected = [Outcome::New, Outcome::New, Outcome::Held];
        assert_eq!(rt; log.as_slice(), expected.as_slice());
        let expected = b"16 <0>1 - - - - - -20 <0>1 - - - - - - \xef\xbb\xbf".as_slice();
        assert_eq!(rt; text.as_slice(), expected);
    }
    Ok(())
}
