//! The headline, tried at random: collectors that are given one set of records, each by another
//! route, have archives of equal octets.

use crate::collecting::{collector, text_of};
use crate::random::Random;
use crate::record_set::RecordSet;
use crate::route::Route;
use archive_pages::PagedArchive;
use archive_text::Store;
use archive_vec::{VecArchive, merge};
use std::alloc::Global;
use std::io;
use syslog_collect::{CollectFault, Collector, Event, Outcome, RunEnd};

/// How much was tried.
#[derive(Drop)]
struct Tally {
    records: usize,
    frames: usize,
    events: usize,
}

/// The error that something is not as it should be.
fn wrong(what: &'static str) -> io::Error {
    io::Error::new(io::ErrorKind::InvalidData, what)
}

/// Hears all events. One that is rightly refused is passed over: a piece of a stream that held a
/// bad count, and the end of an unfinished frame.
fn hear<S: Store>(
    alloc: Global,
    collector: &mut Collector<S>,
    events: &[Event<'_>],
    log: &mut Vec<Outcome>,
) -> io::Result<()> {
    let mut start: usize = 0;
    for _ in 0..=events.len() {
        let Some((_, rest)) = events.split_at_checked(start) else {
            return Err(wrong("a run stops past its events"));
        };
        match collector.run(alloc, rest, log) {
            RunEnd::Done => return Ok(()),
            RunEnd::Stopped {
                at,
                taken: 0,
                fault: CollectFault::ConnFailed | CollectFault::Unterminated { .. },
            } => start = start.saturating_add(at).saturating_add(1),
            RunEnd::Stopped { .. } => return Err(wrong("an event is refused")),
        }
    }
    Err(wrong("a run stops too often"))
}

/// Whether as many records were new, and as many held, as there should be.
fn is_right_log(log: &[Outcome], new: usize, records: usize) -> bool {
    let found = log
        .iter()
        .filter(|outcome| **outcome == Outcome::New)
        .count();
    let held = log
        .iter()
        .filter(|outcome| **outcome == Outcome::Held)
        .count();
    found == new && held.saturating_add(new) == records
}

/// The text of the archive of a collector that is given a set, possibly without one record, by some
/// route.
fn collected<S: Store + Drop>(
    alloc: Global,
    random: &mut Random,
    tally: &mut Tally,
    store: S,
    set: &RecordSet,
    left_out: Option<usize>,
) -> io::Result<Vec<u8>> {
    let frames = set.frames(alloc, random, left_out)?;
    let route = Route::of(alloc, random, &frames)?;
    let events = route.events(alloc, random)?;
    tally.frames = tally.frames.saturating_add(frames.len());
    tally.events = tally.events.saturating_add(events.len());
    let Ok(mut collector) = collector(alloc, store) else {
        return Err(wrong("no memory"));
    };
    let mut log = Vec::new(alloc);
    hear(alloc, &mut collector, &events, &mut log)?;
    let records = frames.iter().filter(|frame| frame.is_record).count();
    let new = set.len().saturating_sub(left_out.iter().count());
    if log.len() != route.outcomes || !is_right_log(&log, new, records) {
        return Err(wrong("the log is another"));
    }
    text_of(alloc, collector.store())
}

/// Two collectors, over both stores, each given all of a set by a route of its own.
fn two_collectors(
    alloc: Global,
    random: &mut Random,
    tally: &mut Tally,
    set: &RecordSet,
    whole: &[u8],
) -> io::Result<()> {
    let one = collected(alloc, random, tally, VecArchive::new(alloc), set, None)?;
    let two = collected(alloc, random, tally, PagedArchive::new(alloc), set, None)?;
    if one != two {
        return Err(wrong("the archives of the two collectors differ"));
    }
    if one.as_slice() != whole {
        return Err(wrong("the archive is not that of the set"));
    }
    Ok(())
}

/// A collector that is given all records but one: its archive is another one, and becomes that of
/// the set when it is merged with the archive of that one.
fn one_left_out(
    alloc: Global,
    random: &mut Random,
    tally: &mut Tally,
    set: &RecordSet,
    whole: &[u8],
) -> io::Result<()> {
    let chosen = Some(random.below(set.len()));
    let fewer = collected(alloc, random, tally, PagedArchive::new(alloc), set, chosen)?;
    if fewer.as_slice() == whole {
        return Err(wrong("a record that never came is in the archive"));
    }
    let Ok(fewer) = VecArchive::read(alloc, &fewer) else {
        return Err(wrong("an archive is not read"));
    };
    let merged = merge(alloc, &fewer, &set.added(alloc, chosen)?)?;
    if text_of(alloc, &merged)?.as_slice() != whole {
        return Err(wrong("the archives of the parts merge to another"));
    }
    Ok(())
}

/// A set, and what collectors make of it.
fn round(alloc: Global, random: &mut Random, tally: &mut Tally) -> io::Result<()> {
    let set = RecordSet::new(alloc, random)?;
    tally.records = tally.records.saturating_add(set.len());
    let whole = set.text(alloc)?;
    if text_of(alloc, &set.added(alloc, None)?)? != whole {
        return Err(wrong("the records added one by one have another archive"));
    }
    two_collectors(alloc, random, tally, &set, &whole)?;
    one_left_out(alloc, random, tally, &set, &whole)
}

/// Runs so many rounds. It fails if a word is refused, something is wrong, memory runs out or
/// nothing can be printed.
pub fn headline(rt: &impl Print, alloc: Global, seed: &str, rounds: &str) -> io::Result<()> {
    let (Ok(seed), Ok(rounds)) = (seed.parse::<u64>(), rounds.parse::<u32>()) else {
        return println!(rt; "no such numbers");
    };
    let mut random = Random::new(seed);
    let mut tally = Tally {
        records: 0,
        frames: 0,
        events: 0,
    };
    for number in 1..=rounds {
        if let Err(fault) = round(alloc, &mut random, &mut tally) {
            return println!(rt; "round {number}: {fault}");
        }
    }
    let Tally {
        records,
        frames,
        events,
    } = tally;
    println!(rt; "{rounds} rounds are right: {records} records, {frames} frames, {events} events")
}
