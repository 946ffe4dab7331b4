//! The calls of a collector that take memory. One that fails is made again with the rest.

use crate::room::Room;
use archive_text::Store;
use std::alloc::{AllocError, Global};
use std::io;
use syslog_collect::{Advance, CollectFault, Collector, Event, Outcome, RunEnd};
use syslog_frame::Framing;

/// What is told of calls: a note if memory was refused, and the outcomes.
#[derive(Drop)]
pub struct Told {
    /// Room for the texts of the store before and after a call.
    pub room: Room,
    note: &'static str,
    outcomes: Vec<Outcome>,
}

impl Told {
    /// Nothing to tell yet, and room for it. It fails only when out of memory.
    pub fn new(alloc: Global) -> Result<Told, AllocError> {
        Ok(Told {
            room: Room::new(alloc)?,
            note: "",
            outcomes: Vec::with_capacity(alloc, 16)?,
        })
    }

    /// Prints what is told, and forgets it. It fails if it cannot print.
    pub fn tell(&mut self, rt: &impl Print, name: &str, call: &str) -> io::Result<()> {
        let (note, outcomes) = (self.note, &self.outcomes);
        println!(rt; "{name} {call}: {note}{outcomes:?}")?;
        self.note = "";
        self.outcomes.clear();
        Ok(())
    }
}

/// Opens a connection.
pub fn open<S: Store>(
    alloc: Global,
    collector: &mut Collector<S>,
    told: &mut Told,
    conn: u32,
    framing: Framing,
) -> Result<(), CollectFault> {
    told.room.keep(collector.store());
    match collector.open_conn(alloc, conn, framing) {
        Err(CollectFault::Memory { used: 0 }) => {
            told.note = told.room.left(collector.store());
            collector.open_conn(alloc, conn, framing)
        }
        answer => answer,
    }
}

/// Advances a connection to the end of a piece. A frame for which memory was refused stays ready,
/// and the next call handles it.
pub fn advance<S: Store>(
    alloc: Global,
    collector: &mut Collector<S>,
    told: &mut Told,
    conn: u32,
    piece: &[u8],
) -> Result<(), CollectFault> {
    let mut rest = piece;
    for _ in 0..=piece.len() {
        told.room.keep(collector.store());
        let used = match collector.advance(alloc, conn, rest) {
            Ok(Advance { used, outcome }) => {
                if let Some(outcome) = outcome {
                    let _ = told.outcomes.push(outcome);
                }
                if used == rest.len() {
                    return Ok(());
                }
                used
            }
            Err(CollectFault::Memory { used }) => {
                told.note = told.room.left(collector.store());
                used
            }
            Err(fault) => return Err(fault),
        };
        rest = rest
            .split_at_checked(used)
            .map_or(b"".as_slice(), |parts| parts.1);
    }
    Ok(())
}

/// Handles a datagram.
pub fn datagram<S: Store>(
    alloc: Global,
    collector: &mut Collector<S>,
    told: &mut Told,
    octets: &[u8],
) {
    told.room.keep(collector.store());
    let answer = match collector.datagram(alloc, octets) {
        Err(AllocError) => {
            told.note = told.room.left(collector.store());
            collector.datagram(alloc, octets)
        }
        answer => answer,
    };
    if let Ok(outcome) = answer {
        let _ = told.outcomes.push(outcome);
    }
}

/// Runs over events. If memory is refused, it goes on with the rest of the event.
pub fn run<S: Store>(
    alloc: Global,
    collector: &mut Collector<S>,
    told: &mut Told,
    events: &mut [Event<'_>],
) -> RunEnd {
    let mut log = Vec::new(alloc);
    let mut start: usize = 0;
    let mut end = RunEnd::Done;
    for _ in 0..3 {
        let Some((_, rest)) = events.split_at_checked(start) else {
            break;
        };
        end = collector.run(alloc, rest, &mut log);
        let RunEnd::Stopped {
            at,
            taken,
            fault: CollectFault::Memory { .. },
        } = end
        else {
            break;
        };
        told.note = "memory; ";
        start = start.saturating_add(at);
        if let Some(Event::Piece { conn: _, octets }) = events.get_mut(start) {
            *octets = octets
                .split_at_checked(taken)
                .map_or(b"".as_slice(), |parts| parts.1);
        }
    }
    for outcome in log.iter() {
        let _ = told.outcomes.push(*outcome);
    }
    end
}
