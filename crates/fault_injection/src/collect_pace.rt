//! A collector over a counted stream in pieces, and its parts alone.

use crate::collecting::collector;
use crate::pace::{PIECE, numbers, take};
use crate::random::Random;
use archive_pages::PagedArchive;
use archive_text::Store;
use std::alloc::{AllocError, Global};
use std::io;
use std::io::Write;
use syslog_collect::{Event, RunEnd};
use syslog_frame::{Framing, MsgLen, Scanner, msg_len, put_frame};
use syslog_grammar::view;

/// How many records the stream of a round has.
const RECORDS: u32 = 100_000;

/// The host and the application of each record.
const HOST: &str = "mymachine.example.com evntslog";

/// Records of some 175 octets, or of some 220 with two elements, in counted frames. Their instants
/// nearly ascend.
fn stream(alloc: Global, has_elements: bool) -> io::Result<Vec<u8>> {
    let mut random = Random::new(5424);
    let mut record = Vec::with_capacity(alloc, 300)?;
    let mut out = Vec::new(alloc);
    let data = if has_elements {
        "[exampleSDID@32473 iut=\"3\" eventSource=\"Application\"][meta sequenceId=\"29\"]"
    } else {
        "-"
    };
    for number in 0..RECORDS {
        let second = number / 2000;
        let micros = random.below(1_000_000);
        let process = random.below(30_000);
        record.clear();
        write!(
            record,
            "<165>1 2024-02-29T23:00:{second:02}.{micros:06}Z {HOST} {process} ID47 {data} "
        )?;
        write!(
            record,
            "An application event log entry with so many words in it that it is usual {number}"
        )?;
        if put_frame(Framing::Counted, &record, &mut out).is_err() {
            return Err(AllocError)?;
        }
    }
    Ok(out)
}

/// Runs a collector over the pieces of the stream.
fn run(alloc: Global, stream: &[u8]) -> io::Result<usize> {
    let Ok(mut collector) = collector(alloc, PagedArchive::new(alloc)) else {
        return Err(AllocError)?;
    };
    let framing = Framing::Counted;
    let mut log = Vec::new(alloc);
    let _ = collector.run(alloc, &[Event::Opened { conn: 1, framing }], &mut log);
    for octets in stream.chunks(PIECE) {
        log.clear();
        let end = collector.run(alloc, &[Event::Piece { conn: 1, octets }], &mut log);
        if end != RunEnd::Done {
            return Ok(0);
        }
    }
    Ok(collector.store().len())
}

/// Scans the pieces alone.
fn scan(alloc: Global, stream: &[u8]) -> io::Result<usize> {
    let mut scanner = Scanner::new(alloc, Framing::Counted)?;
    let mut octets: u64 = 0;
    for piece in stream.chunks(PIECE) {
        octets = octets.wrapping_add(take(&mut scanner, piece));
    }
    Ok(octets as usize)
}

/// Adds each record where it lies in the stream, by its view.
fn add(alloc: Global, stream: &[u8]) -> io::Result<usize> {
    let mut store = PagedArchive::new(alloc);
    let mut start: usize = 0;
    for _ in 0..RECORDS {
        let Some((_, rest)) = stream.split_at_checked(start) else {
            return Ok(0);
        };
        let MsgLen::Whole { count, used } = msg_len(rest) else {
            return Ok(0);
        };
        let Some((_, behind)) = rest.split_at_checked(used) else {
            return Ok(0);
        };
        let Some((frame, _)) = behind.split_at_checked(count as usize) else {
            return Ok(0);
        };
        let Ok(shown) = view(frame) else {
            return Ok(0);
        };
        if store.add_view(alloc, &shown).is_err() {
            return Err(AllocError)?;
        }
        start = start.saturating_add(used).saturating_add(count as usize);
    }
    Ok(store.len())
}

/// Does a part, or all, a number of times, and prints what came of it the last time. It fails if a
/// word is refused, memory runs out or nothing can be printed.
pub fn collect(
    rt: &impl Print,
    alloc: Global,
    part: &str,
    data: &str,
    rounds: &str,
) -> io::Result<()> {
    let Some((_, rounds)) = numbers("0", rounds) else {
        return println!(rt; "no such number");
    };
    let stream = stream(alloc, data == "elements")?;
    let mut count = 0;
    for _ in 0..rounds {
        count = match part {
            "run" => run(alloc, &stream)?,
            "scan" => scan(alloc, &stream)?,
            _ => add(alloc, &stream)?,
        };
    }
    println!(rt; "{count}")
}
