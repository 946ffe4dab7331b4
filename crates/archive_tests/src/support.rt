//! What the tests share: three records, and collectors and archives of them.

use archive_pages::PagedArchive;
use archive_text::Store;
use archive_vec::VecArchive;
use octet_devices::ToWrite;
use std::alloc::Global;
use std::process::Abort;
use std::test::Fail;
use syslog_collect::{Advance, CollectFault, Collector, Event, Outcome, RunEnd};
use syslog_frame::Framing;
use syslog_grammar::view;
use syslog_legacy::LegacyClock;

/// A record without a time.
pub const A: &[u8] = b"<13>1 - h a - - - x";

/// A record of 23:30 UTC.
pub const B: &[u8] = b"<14>1 2024-02-29T23:30:00.000000Z h a - - - y";

/// A record of 23:00 UTC, half an hour before B.
pub const C: &[u8] = b"<12>1 2024-02-29T23:00:00.000000Z h a - - - z";

/// The archive of the three records.
pub const ARCHIVE: &[u8] = b"19 <13>1 - h a - - - x\
    45 <12>1 2024-02-29T23:00:00.000000Z h a - - - z\
    45 <14>1 2024-02-29T23:30:00.000000Z h a - - - y";

/// A store with the records of these octets added. It fails if octets are no record or memory runs
/// out.
pub fn store_of<S: Store + Drop>(
    alloc: Global,
    mut store: S,
    records: &[&[u8]],
) -> Result<S, Fail> {
    for octets in records {
        let seen = view(octets).ok().ok_or("no record")?;
        store.add_view(alloc, &seen)?;
    }
    Ok(store)
}

/// The text of a store. It fails only when out of memory.
pub fn text_of<S: Store>(alloc: Global, store: &S) -> Result<Vec<u8>, Fail> {
    let mut writer = ToWrite::new(Vec::new(alloc));
    store.write(&mut writer)?;
    Ok(writer.into_inner())
}

/// A collector over a store, which reads legacy packets under a clock, if it has one. It fails only
/// when out of memory.
pub fn collector_under<S: Store + Drop>(
    alloc: Global,
    clock: Option<LegacyClock>,
    store: S,
) -> Result<Collector<S>, Fail> {
    match Collector::new(alloc, store, clock) {
        Ok(collector) => Ok(collector),
        Err(_) => Err("no memory")?,
    }
}

/// A collector over a store. It fails only when out of memory.
pub fn collector<S: Store + Drop>(alloc: Global, store: S) -> Result<Collector<S>, Fail> {
    collector_under(alloc, None, store)
}

/// The end of a run over events, what it logs, and the text of the archive then. It fails only when
/// out of memory.
pub fn collected<S: Store + Drop>(
    alloc: Global,
    store: S,
    events: &[Event<'_>],
) -> Result<(RunEnd, Vec<Outcome>, Vec<u8>), Fail> {
    collected_under(alloc, None, store, events)
}

/// The same, with legacy packets read under a clock, if there is one.
pub fn collected_under<S: Store + Drop>(
    alloc: Global,
    clock: Option<LegacyClock>,
    store: S,
    events: &[Event<'_>],
) -> Result<(RunEnd, Vec<Outcome>, Vec<u8>), Fail> {
    let mut collector = collector_under(alloc, clock, store)?;
    let mut log = Vec::new(alloc);
    let end = collector.run(alloc, events, &mut log);
    let text = text_of(alloc, collector.store())?;
    Ok((end, log, text))
}

/// What a run over events logs, and the text of the archive then, with legacy packets read under a
/// clock, if there is one: the same over both stores.
pub fn run_of(
    rt: &(impl Abort + AllocGlobal),
    clock: Option<LegacyClock>,
    events: &[Event<'_>],
) -> Result<(Vec<Outcome>, Vec<u8>), Fail> {
    let alloc = rt.alloc();
    let (end, log, text) = collected_under(alloc, clock, VecArchive::new(alloc), events)?;
    let (end_of_pages, log_of_pages, text_of_pages) = collected_under(
        alloc,
        clock,
        PagedArchive::new(alloc),
        events,
    )?;
    assert_eq!(rt; end, RunEnd::Done);
    assert_eq!(rt; end_of_pages, RunEnd::Done);
    assert!(rt; log == log_of_pages);
    assert!(rt; text == text_of_pages);
    Ok((log, text))
}

/// A connection that gives two pieces, and ends.
pub fn in_two_pieces<'a>(framing: Framing, pieces: (&'a [u8], &'a [u8])) -> [Event<'a>; 4] {
    [
        Event::Opened { conn: 1, framing },
        Event::Piece {
            conn: 1,
            octets: pieces.0,
        },
        Event::Piece {
            conn: 1,
            octets: pieces.1,
        },
        Event::Ended { conn: 1 },
    ]
}

/// What a collector answers to one event: of a piece, how far it advances in it.
pub fn answer_to<S: Store + Drop>(
    alloc: Global,
    collector: &mut Collector<S>,
    event: Event<'_>,
) -> Result<Option<Advance>, CollectFault> {
    match event {
        Event::Opened { conn, framing } => match collector.open_conn(alloc, conn, framing) {
            Ok(()) => Ok(None),
            Err(fault) => Err(fault),
        },
        Event::Piece { conn, octets } => match collector.advance(alloc, conn, octets) {
            Ok(advance) => Ok(Some(advance)),
            Err(fault) => Err(fault),
        },
        Event::Ended { conn } => match collector.end_conn(conn) {
            Ok(()) => Ok(None),
            Err(fault) => Err(fault),
        },
        Event::Datagram { octets } => match collector.datagram(alloc, octets) {
            Ok(outcome) => Ok(advanced(octets.len(), outcome)),
            Err(_) => Err(CollectFault::Memory { used: 0 }),
        },
    }
}

/// An advance by so many octets, at which a frame was handled.
pub fn advanced(used: usize, outcome: Outcome) -> Option<Advance> {
    let outcome = Some(outcome);
    Some(Advance { used, outcome })
}

/// Sees that a collector answers this to each event.
pub fn see_answers<S: Store + Drop>(
    rt: &(impl Abort + AllocGlobal),
    collector: &mut Collector<S>,
    rows: &[(Event<'_>, Result<Option<Advance>, CollectFault>)],
) {
    for (n, (event, expected)) in rows.iter().enumerate() {
        let answer = answer_to(rt.alloc(), collector, *event);
        assert_eq!(rt; answer, *expected, "event {n}");
    }
}

/// Sees that the archive of a collector is this text.
pub fn see_text<S: Store + Drop>(
    rt: &(impl Abort + AllocGlobal),
    collector: &Collector<S>,
    expected: &[u8],
) -> Result<(), Fail> {
    let text = text_of(rt.alloc(), collector.store())?;
    assert_eq!(rt; text.as_slice(), expected);
    Ok(())
}
