//! Frames on their way: over connections that are cut and interleaved, and as datagrams.

use crate::random::Random;
use std::alloc::{AllocError, Global};
use std::io;
use std::io::Write;
use syslog_collect::{CONNECTIONS_MAX, Event};
use syslog_frame::Framing;

/// A frame, and whether it is a record.
#[derive(Drop)]
pub struct Frame {
    /// Its octets.
    pub octets: Vec<u8>,
    /// Whether they are a record.
    pub is_record: bool,
}

/// The stream of one connection.
#[derive(Drop)]
pub struct Stream {
    framing: Framing,
    octets: Vec<u8>,
}

/// Streams and datagrams, and how many outcomes a collector logs of them.
#[derive(Drop)]
pub struct Route {
    streams: Vec<Stream>,
    datagrams: Vec<Vec<u8>>,
    /// How many outcomes a collector logs of the whole.
    pub outcomes: usize,
}

/// Counts with which no stream can continue.
const BAD_COUNTS: [&[u8]; 6] = [b"x", b"0 ", b"016 ", b"16<", b" ", b"12345678901 "];

impl Stream {
    /// Whether a frame can be put on the stream.
    fn can_carry(&self, frame: &[u8]) -> bool {
        match self.framing {
            Framing::Counted => !frame.is_empty(),
            Framing::Lf => !frame.contains(&b'\n'),
        }
    }

    /// Puts a frame.
    fn put(&mut self, frame: &[u8]) -> io::Result<()> {
        match self.framing {
            Framing::Counted => {
                let count = frame.len();
                write!(&mut self.octets, "{count} ")?;
                self.octets.extend_from_slice(frame)?;
            }
            Framing::Lf => {
                self.octets.extend_from_slice(frame)?;
                self.octets.extend_from_slice(b"\n")?;
            }
        }
        Ok(())
    }

    /// Puts what follows the last frame: mostly nothing, else a bad count and what is lost behind
    /// it, or a frame that stays unfinished. Gives the number of outcomes that it has.
    fn put_end(&mut self, random: &mut Random) -> io::Result<usize> {
        match (random.below(8), self.framing) {
            (0, Framing::Counted) => {
                self.octets.extend_from_slice(random.one_of(&BAD_COUNTS))?;
                self.octets.extend_from_slice(b"16 <0>1 - - - - - -")?;
                Ok(1)
            }
            (1, Framing::Counted) => {
                self.octets.extend_from_slice(b"99 <0>1 - - - - - - lost")?;
                Ok(0)
            }
            (1, Framing::Lf) => {
                self.octets.extend_from_slice(b"<0>1 - - - - - - lost")?;
                Ok(0)
            }
            _ => Ok(0),
        }
    }
}

impl Route {
    /// At most so many connections, without a frame.
    fn new(alloc: Global, random: &mut Random, most: usize) -> io::Result<Route> {
        let mut streams = Vec::new(alloc);
        for _ in 0..random.below(most) {
            let framing = if random.once_in(2) {
                Framing::Counted
            } else {
                Framing::Lf
            };
            let octets = Vec::new(alloc);
            streams.push(Stream { framing, octets })?;
        }
        Ok(Route {
            streams,
            datagrams: Vec::new(alloc),
            outcomes: 0,
        })
    }

    /// Puts a frame on some stream that can carry it, or makes it a datagram.
    fn put(&mut self, alloc: Global, random: &mut Random, frame: &[u8]) -> io::Result<()> {
        let chosen = random.below(self.streams.len().saturating_add(2));
        self.outcomes = self.outcomes.saturating_add(1);
        if let Some(stream) = self.streams.get_mut(chosen) {
            if stream.can_carry(frame) {
                return stream.put(frame);
            }
        }
        let datagram = frame.to_vec(alloc)?;
        self.datagrams.push(datagram)?;
        Ok(())
    }

    /// A route for these frames. It fails only when out of memory.
    pub fn of(alloc: Global, random: &mut Random, frames: &[Frame]) -> io::Result<Route> {
        let mut route = Route::new(alloc, random, 90)?;
        for frame in frames.iter() {
            route.put(alloc, random, &frame.octets)?;
        }
        for stream in route.streams.iter_mut() {
            let outcomes = stream.put_end(random)?;
            route.outcomes = route.outcomes.saturating_add(outcomes);
        }
        Ok(route)
    }

    /// The events of the route: pieces of any size, some of them empty, of the connections in any
    /// order. It fails only when out of memory.
    pub fn events<'a>(
        &'a self,
        alloc: Global,
        random: &mut Random,
    ) -> Result<Vec<Event<'a>>, AllocError> {
        let mut traffic = Traffic::new(alloc, self)?;
        for _ in 0..u64::MAX {
            if !traffic.step(random)? {
                break;
            }
        }
        Ok(traffic.events)
    }
}

/// An open connection, and what is left of its stream.
#[derive(Clone, Copy, Debug)]
struct Open<'a> {
    conn: u32,
    rest: &'a [u8],
    most: usize,
}

/// The events so far, and what is still to come.
#[derive(Drop)]
struct Traffic<'a> {
    streams: &'a [Stream],
    datagrams: &'a [Vec<u8>],
    open: Vec<Open<'a>>,
    numbers: Vec<u32>,
    events: Vec<Event<'a>>,
}

impl<'a> Traffic<'a> {
    fn new(alloc: Global, route: &'a Route) -> Result<Traffic<'a>, AllocError> {
        let mut numbers = Vec::new(alloc);
        for number in 0..CONNECTIONS_MAX {
            numbers.push((number as u32).wrapping_mul(67_108_863))?;
        }
        Ok(Traffic {
            streams: &route.streams,
            datagrams: &route.datagrams,
            open: Vec::new(alloc),
            numbers,
            events: Vec::new(alloc),
        })
    }

    /// The next datagram, if there is one.
    fn hear_datagram(&mut self) -> Result<(), AllocError> {
        if let Some((octets, others)) = self.datagrams.split_first() {
            self.datagrams = others;
            self.events.push(Event::Datagram { octets })?;
        }
        Ok(())
    }

    /// The next connection, if there is one and a number for it. The number of one that has ended
    /// is used again.
    fn open_next(&mut self, random: &mut Random) -> Result<(), AllocError> {
        let Some((stream, others)) = self.streams.split_first() else {
            return Ok(());
        };
        let Some(conn) = self.numbers.pop() else {
            return Ok(());
        };
        self.streams = others;
        let framing = stream.framing;
        self.events.push(Event::Opened { conn, framing })?;
        let rest = stream.octets.as_slice();
        let most = [1, 5, 40, 400, 9_000, 90_000]
            .get(random.below(6))
            .copied()
            .unwrap_or(1);
        self.open.push(Open { conn, rest, most })?;
        Ok(())
    }

    /// A piece of some open connection, or its end.
    fn go_on(&mut self, random: &mut Random) -> Result<(), AllocError> {
        let chosen = random.below(self.open.len());
        let Some(open) = self.open.get_mut(chosen) else {
            return Ok(());
        };
        let conn = open.conn;
        if open.rest.is_empty() {
            self.events.push(Event::Ended { conn })?;
            self.numbers.push(conn)?;
            let _ = self.open.swap_remove(chosen);
            return Ok(());
        }
        let size = random
            .below(open.most.saturating_add(1))
            .min(open.rest.len());
        let (octets, rest) = open.rest.split_at(size);
        open.rest = rest;
        self.events.push(Event::Piece { conn, octets })?;
        Ok(())
    }

    /// At most one more event; false if nothing is left.
    fn step(&mut self, random: &mut Random) -> Result<bool, AllocError> {
        if self.streams.is_empty() && self.datagrams.is_empty() && self.open.is_empty() {
            return Ok(false);
        }
        match random.below(8) {
            0 => self.hear_datagram()?,
            1 => self.open_next(random)?,
            _ => self.go_on(random)?,
        }
        Ok(true)
    }
}
