//! Two connections of a collector by turns, with pieces of one size: the log and the archive must
//! be those of the frames.

use crate::collecting::{collector, put_text};
use crate::rows::{ABC, BA_STREAM, CB_STREAM};
use archive_pages::PagedArchive;
use archive_text::Store;
use archive_vec::VecArchive;
use std::alloc::{AllocError, Global};
use syslog_collect::{Event, Outcome, RunEnd};
use syslog_frame::Framing;

/// The counted stream of a connection, of two frames. The record of one of them is in the other
/// connection's stream too. Each frame ends at an offset.
#[derive(Clone, Copy, Debug)]
struct Stream {
    conn: u32,
    octets: &'static [u8],
    common_end: usize,
    other_end: usize,
}

const FIRST: Stream = Stream {
    conn: 1,
    octets: BA_STREAM,
    common_end: 41,
    other_end: 63,
};

const SECOND: Stream = Stream {
    conn: 2,
    octets: CB_STREAM,
    common_end: 89,
    other_end: 41,
};

/// One of the two connections.
#[derive(Clone, Copy, Debug)]
pub enum Side {
    /// The first one.
    First,
    /// The second one.
    Second,
}

/// The two connections by turns: how much of each was given, whether the common record was, the
/// events, and the outcomes that must be logged.
#[derive(Drop)]
pub struct Play {
    size: usize,
    first: usize,
    second: usize,
    is_held: bool,
    events: Vec<Event<'static>>,
    expected: Vec<Outcome>,
    log: Vec<Outcome>,
    text: Vec<u8>,
}

impl Play {
    /// The two connections before the first turn, with pieces of so many octets.
    pub fn new(alloc: Global, size: usize) -> Play {
        Play {
            size,
            first: 0,
            second: 0,
            is_held: false,
            events: Vec::new(alloc),
            expected: Vec::new(alloc),
            log: Vec::new(alloc),
            text: Vec::new(alloc),
        }
    }

    /// How many pieces are left of one connection's stream.
    pub fn left(&self, side: Side) -> usize {
        let octets = match side {
            Side::First => FIRST.octets.len().saturating_sub(self.first),
            Side::Second => SECOND.octets.len().saturating_sub(self.second),
        };
        octets.div_ceil(self.size.max(1))
    }

    /// Begins anew, before the first turn. It fails only when out of memory.
    pub fn start(&mut self) -> Result<(), AllocError> {
        self.first = 0;
        self.second = 0;
        self.is_held = false;
        self.expected.clear();
        self.events.clear();
        let framing = Framing::Counted;
        self.events.push(Event::Opened { conn: 1, framing })?;
        self.events.push(Event::Opened { conn: 2, framing })?;
        Ok(())
    }

    /// Adds the next piece of a stream of which so many octets were given, and the outcome of the
    /// frame that ends in it. Gives how many octets are given then.
    fn go_on(&mut self, stream: Stream, given: usize) -> Result<usize, AllocError> {
        let Some((_, rest)) = stream.octets.split_at_checked(given) else {
            return Ok(given);
        };
        if rest.is_empty() {
            return Ok(given);
        }
        let (octets, _) = rest.split_at(self.size.min(rest.len()));
        let conn = stream.conn;
        self.events.push(Event::Piece { conn, octets })?;
        let end = given.saturating_add(octets.len());
        if given < stream.common_end && stream.common_end <= end {
            let outcome = if self.is_held {
                Outcome::Held
            } else {
                Outcome::New
            };
            self.expected.push(outcome)?;
            self.is_held = true;
        }
        if given < stream.other_end && stream.other_end <= end {
            self.expected.push(Outcome::New)?;
        }
        Ok(end)
    }

    /// A turn of one connection; nothing if it is at its end. It fails only when out of memory.
    pub fn turn(&mut self, side: Side) -> Result<(), AllocError> {
        match side {
            Side::First => self.first = self.go_on(FIRST, self.first)?,
            Side::Second => self.second = self.go_on(SECOND, self.second)?,
        }
        Ok(())
    }

    /// So many turns of one connection. It fails only when out of memory.
    pub fn turns(&mut self, side: Side, count: usize) -> Result<(), AllocError> {
        for _ in 0..count {
            self.turn(side)?;
        }
        Ok(())
    }

    /// Whether a collector over a store logs what it must, and has the archive then.
    fn is_right_over<S: Store + Drop>(&mut self, alloc: Global, store: S) -> bool {
        let Ok(mut collector) = collector(alloc, store) else {
            return false;
        };
        self.log.clear();
        let end = collector.run(alloc, &self.events, &mut self.log);
        end == RunEnd::Done
            && self.log == self.expected
            && put_text(alloc, collector.store(), &mut self.text)
            && self.text.as_slice() == ABC
    }

    /// Adds what is left of both streams and their ends, and tells whether all is right over both
    /// stores. It fails only when out of memory.
    pub fn is_right(&mut self, alloc: Global) -> Result<bool, AllocError> {
        self.turns(Side::First, self.left(Side::First))?;
        self.turns(Side::Second, self.left(Side::Second))?;
        self.events.push(Event::Ended { conn: 1 })?;
        self.events.push(Event::Ended { conn: 2 })?;
        Ok(
            self.is_right_over(alloc, VecArchive::new(alloc))
                && self.is_right_over(alloc, PagedArchive::new(alloc)),
        )
    }
}
