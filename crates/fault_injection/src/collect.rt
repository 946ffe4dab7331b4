//! Each call of a collector that takes memory, with its outcome on a line. If an allocation fails,
//! the line says so, and whether the set is as it was; the call is then made again with the rest,
//! and the archive has to be the same.

use crate::collecting::collector;
use crate::collector_calls::{Told, advance, datagram, open, run};
use crate::rows::{A, ABC, B, BA_STREAM, C, CB_STREAM};
use archive_pages::PagedArchive;
use archive_text::Store;
use archive_vec::VecArchive;
use std::alloc::Global;
use std::io;
use syslog_collect::{Collector, Event, RunEnd};
use syslog_frame::Framing;

/// A collector over a store, which comes back if there is no memory for it.
fn new<S: Store + Drop>(
    rt: &impl Print,
    alloc: Global,
    name: &str,
    store: S,
) -> io::Result<Option<Collector<S>>> {
    let (note, made) = match collector(alloc, store) {
        Err(store) => ("memory, unchanged; ", collector(alloc, store)),
        made => ("", made),
    };
    let answer = if made.is_ok() { "ok" } else { "refused" };
    println!(rt; "{name} new: {note}{answer}")?;
    Ok(made.ok())
}

/// The end of a trial: tells whether the archive is that of the three records.
fn tell_archive<S: Store>(
    rt: &impl Print,
    name: &str,
    told: &mut Told,
    collector: &Collector<S>,
) -> io::Result<()> {
    let is_right = told.room.is_text(collector.store(), ABC);
    println!(rt; "{name}: the archive of the three is {is_right}")
}

/// Two counted streams, by turns of five octets.
fn by_pieces<S: Store + Drop>(
    rt: &impl Print,
    alloc: Global,
    name: &str,
    store: S,
) -> io::Result<()> {
    let mut told = Told::new(alloc)?;
    let Some(mut collector) = new(rt, alloc, name, store)? else {
        return Ok(());
    };
    for conn in [1, 2] {
        let answer = open(alloc, &mut collector, &mut told, conn, Framing::Counted);
        if answer.is_err() {
            println!(rt; "{name} open_conn: {answer:?}")?;
        }
        told.tell(rt, name, "open_conn")?;
    }
    let (early, late) = CB_STREAM.split_at(65);
    for (one, two) in BA_STREAM.chunks(5).zip(early.chunks(5)) {
        let answer = advance(alloc, &mut collector, &mut told, 2, two);
        let other = advance(alloc, &mut collector, &mut told, 1, one);
        if answer.is_err() || other.is_err() {
            println!(rt; "{name} advance: {answer:?} {other:?}")?;
        }
    }
    let answer = advance(alloc, &mut collector, &mut told, 2, late);
    if answer.is_err() {
        println!(rt; "{name} advance: {answer:?}")?;
    }
    told.tell(rt, name, "advance")?;
    tell_archive(rt, name, &mut told, &collector)
}

/// The three records as datagrams, and one of them again.
fn by_datagrams<S: Store + Drop>(
    rt: &impl Print,
    alloc: Global,
    name: &str,
    store: S,
) -> io::Result<()> {
    let mut told = Told::new(alloc)?;
    let Some(mut collector) = new(rt, alloc, name, store)? else {
        return Ok(());
    };
    for octets in [B, A, C, B] {
        datagram(alloc, &mut collector, &mut told, octets);
    }
    told.tell(rt, name, "datagram")?;
    tell_archive(rt, name, &mut told, &collector)
}

/// The same streams as events, and a datagram.
fn by_run<S: Store + Drop>(rt: &impl Print, alloc: Global, name: &str, store: S) -> io::Result<()> {
    let mut told = Told::new(alloc)?;
    let Some(mut collector) = new(rt, alloc, name, store)? else {
        return Ok(());
    };
    let framing = Framing::Counted;
    let (first, second) = (BA_STREAM.split_at(20), CB_STREAM.split_at(50));
    let mut events = [
        Event::Opened { conn: 1, framing },
        Event::Opened { conn: 2, framing },
        Event::Piece {
            conn: 1,
            octets: first.0,
        },
        Event::Piece {
            conn: 2,
            octets: second.0,
        },
        Event::Piece {
            conn: 1,
            octets: first.1,
        },
        Event::Ended { conn: 1 },
        Event::Piece {
            conn: 2,
            octets: second.1,
        },
        Event::Ended { conn: 2 },
        Event::Datagram { octets: A },
    ];
    let end = run(alloc, &mut collector, &mut told, &mut events);
    if end != RunEnd::Done {
        println!(rt; "{name} run: {end:?}")?;
    }
    told.tell(rt, name, "run")?;
    tell_archive(rt, name, &mut told, &collector)
}

/// Every call of collectors, over both stores. It fails if the trial itself gets no memory or
/// cannot print.
pub fn collect(rt: &impl Print, alloc: Global) -> io::Result<()> {
    by_pieces(rt, alloc, "sorted", VecArchive::new(alloc))?;
    by_pieces(rt, alloc, "paged", PagedArchive::new(alloc))?;
    by_datagrams(rt, alloc, "sorted", VecArchive::new(alloc))?;
    by_datagrams(rt, alloc, "paged", PagedArchive::new(alloc))?;
    by_run(rt, alloc, "sorted", VecArchive::new(alloc))?;
    by_run(rt, alloc, "paged", PagedArchive::new(alloc))
}
