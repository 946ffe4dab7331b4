//! The connections that are open.
ghost use Rattle.std.specs.Prelude.{◌≡◌, ◌≤◌, ◌<◌, length, true, false, IfSome, IfNone, IfOk, IsTrue, ℕ, option_map, slice_set};
ghost use Rattle.socket_source.specs.Steps.{with_open, without_open};
ghost use Rattle.socket_source.specs.Sockets.{open_in, IsOpenedAs, ReadsWithin};
ghost use Rattle.socket_source.specs.Turns.{ReadsFront};
ghost use Rattle.socket_source.specs.Framings.{framing_in, rank_in};
ghost use Rattle.slab.specs.Slab.{get};
ghost use Rattle.socket_source.specs.Peers.{count_of};
ghost use Rattle.socket_source.specs.Places.{ReadsFew, begun, place_at, place_in};

use crate::connection::{Allowance, Connection};
use crate::limits::{CONNECTIONS_MAX, TURN_OCTETS};
use crate::peers::Peers;
use crate::place::Place;
use crate::refusal::{Reading, ended_if_dry};
use crate::share::Share;
use crate::system::first_kept_descriptor;
use mio::{Interest, Registry, Token};
use slab::Slab;
use std::alloc::{AllocError, Global};
use std::net::IpAddr;
use std::os::fd::{AsRawFd, RawFd};
use std::time::{Duration, Instant};

/// Connections under numbers below a limit. A number is found in constant time, and given again
/// only once its connection was closed. Room for all is allocated at the beginning.
#[derive(Drop)]
pub(crate) struct Connections {
    pub(crate) streams: Slab<Connection>,
    // when each last gave octets
    heard: Vec<Instant>,
    // where in its stream each is, if its peer has a rate
    pub(crate) places: Vec<Place>,
    // room for the octets of a turn, which are read once to see them and once to take them
    spent: Vec<u8>,
    pub(crate) limit: usize,
    // the first descriptor that none is to have
    kept: RawFd,
    // how many connections each host has, and may have
    pub(crate) peers: Peers,
    pub(crate) per_peer: u64,
    ghost few: { limit ≤ 16384 },
}

// Whether a connection's host has more connections, or as many and this one was silent for longer.
fn is_above(rank: (u64, Duration), other: (u64, Duration)) -> bool
    ensures above { result ≡ true → other.0 ≤ rank.0 }
    ensures below { result ≡ false → rank.0 ≤ other.0 }
{
    rank.0 > other.0 || (rank.0 == other.0 && rank.1 > other.1)
}

impl Connections {
    /// No open connections, and room for as many as the limit says. It fails only when out of
    /// memory.
    pub(crate) fn new(
        alloc: Global,
        limit: usize,
        per_peer: usize,
        now: Instant,
    ) -> Result<Connections, AllocError>
        ensures none { IfOk result (λ all. (n : ℕ) → open_in all.streams n ≡ false) }
        ensures limit { limit ≤ 16384 → IfOk result (λ all. all.limit ≡ limit) }
    {
        let limit = limit.min(CONNECTIONS_MAX);
        Ok(Connections {
            streams: Slab::with_capacity(alloc, limit)?,
            heard: vec![in alloc; now; limit]?,
            places: vec![in alloc; Place::Between; limit]?,
            spent: vec![in alloc; 0u8; TURN_OCTETS]?,
            limit,
            kept: first_kept_descriptor(),
            peers: Peers::new(alloc),
            per_peer: per_peer.max(1) as u64,
        })
    }

    // A number for a connection more with this descriptor, if there is room for it, and its host
    // may have one more.
    fn vacant_number(&self, descriptor: RawFd, peer: u128) -> Option<usize>
        ensures number { IfSome result (λ key. (key ≡ self.now.streams.vacant_key) × (key < self.now.limit)) }
        ensures few { IfSome result (λ key. count_of self.now.peers peer < self.now.per_peer) }
    {
        let key = self.streams.vacant_key();
        let may_have = self.peers.count(peer) < self.per_peer;
        if may_have
            && descriptor < self.kept
            && self.streams.len() < self.limit
            && key < self.limit
        {
            return Some(key);
        }
        None
    }

    /// Keeps a connection, and has the system report it under its number behind `first`. None if
    /// there is no room for it: then it is closed.
    pub(crate) fn keep(
        &mut self,
        registry: &Registry,
        first: usize,
        mut connection: Connection,
        now: Instant,
    ) -> Option<u32>
        ensures kept { IfSome result (λ conn. IsOpenedAs self.old.streams self.new.streams self.old.limit conn) }
        ensures framing { IfSome result (λ conn. framing_in self.new.streams conn ≡ Some connection.framing) }
        // A host has no more than it may.
        ensures few { IfSome result (λ conn. count_of self.new.peers connection.peer ≤ self.old.per_peer) }
        ensures none { IfNone result ((n : ℕ) → open_in self.new.streams n ≡ open_in self.old.streams n) }
        ensures limit { self.new.limit ≡ self.old.limit }
    {
        let peer = connection.peer;
        let key = self.vacant_number(connection.stream.as_raw_fd(), peer)?;
        let token = Token(first.saturating_add(key));
        registry
            .register(&mut connection.stream, token, Interest::READABLE)
            .ok()?;
        self.peers.add(peer).ok()?;
        let Ok(key) = self.streams.insert(connection) else {
            self.peers.remove(peer);
            return None;
        };
        self.note_heard(key, now);
        self.note_place(key, Place::Between);
        Some(key as u32)
    }

    /// Whether a connection is open under a number.
    pub(crate) fn is_open(&self, conn: u32) -> bool
        ensures { result ≡ open_in self.now.streams conn }
    {
        self.streams.contains(conn as usize)
    }

    /// Whether a connection that is silent has something to read, which is left for its turn. One that
    /// has nothing has ended. None if no connection is open under the number.
    pub(crate) fn look(&self, conn: u32) -> Option<Reading>
        ensures { IfSome result (λ reading. open_in self.now.streams conn ≡ true) }
    {
        let connection = self.streams.get(conn as usize)?;
        Some(ended_if_dry(connection.look()))
    }

    /// The address of a connection's peer.
    pub(crate) fn address(&self, conn: u32) -> Option<IpAddr>
        ensures { result ≡ option_map (λ c. c.address) (get self.now.streams conn) }
    {
        match self.streams.get(conn as usize) {
            Some(connection) => Some(connection.address),
            None => None,
        }
    }

    // Where in its stream a connection is, if so many more frames may begin.
    fn allowance(&self, key: usize, room: Option<u64>) -> Option<Allowance>
        ensures { result ≡ option_map (λ room. record { place = place_in self.now.places.items key; room = room }) room }
    {
        match room {
            Some(room) => Some(Allowance {
                place: self.place(key),
                room,
            }),
            None => None,
        }
    }

    fn place(&self, key: usize) -> Place
        ensures { result ≡ place_in self.now.places.items key }
    {
        self.places.get(key).copied().unwrap_or(Place::Between)
    }

    // A connection is at this place of its stream.
    fn note_place(&mut self, key: usize, place: Place)
        ensures places { self.new.places.items ≡ slice_set self.old.places.items key place }
        ensures same { self.new.streams ≡ self.old.streams }
        ensures peers { self.new.peers ≡ self.old.peers }
        ensures limit { self.new.limit ≡ self.old.limit }
    {
        if let Some(known) = self.places.get_mut(key) {
            *known = place;
        }
    }

    /// How many frames begin in the first `len` octets, which a connection has given.
    pub(crate) fn begin(&mut self, conn: u32, octets: &[u8], len: usize) -> u64
        requires { len ≤ length octets.now }
        ensures frames { IfSome (framing_in self.old.streams conn) (λ framing.
            result ≡ begun framing (place_in self.old.places.items conn) octets.now len) }
        ensures places { IfSome (framing_in self.old.streams conn) (λ framing.
            self.new.places.items ≡ slice_set self.old.places.items conn
            (place_at framing (place_in self.old.places.items conn) octets.now len)) }
        ensures same { self.new.streams ≡ self.old.streams }
        ensures limit { self.new.limit ≡ self.old.limit }
    {
        let key = conn as usize;
        let Some(connection) = self.streams.get(key) else {
            return 0;
        };
        let begun = self
            .place(key)
            .begin(connection.framing, octets, len, u64::MAX);
        self.note_place(key, begun.place);
        begun.frames
    }

    /// Reads a share of what a connection has, in which no more frames begin than there is room for,
    /// if that is bounded.
    pub(crate) fn read(
        &mut self,
        conn: u32,
        share: Share,
        room: Option<u64>,
        now: Instant,
        buf: &mut [u8],
    ) -> Reading
        requires { 0 < share.frames }
        ensures few { IfSome room (λ room. IfSome (framing_in self.new.streams conn) (λ framing.
            ReadsFew framing (place_in self.old.places.items conn) room buf.new result)) }
        ensures places { self.new.places ≡ self.old.places }
        ensures within { ReadsWithin (length buf.new) result }
        ensures bounded { IfSome (framing_in self.new.streams conn) (λ framing. ReadsFront share framing buf.new result) }
        ensures same { self.new.streams ≡ self.old.streams }
        ensures limit { self.new.limit ≡ self.old.limit }
    {
        let key = conn as usize;
        let allowance = self.allowance(key, room);
        let Some(connection) = self.streams.get(key) else {
            return Reading::Dry;
        };
        let reading = connection.read(share, allowance, buf, &mut self.spent);
        if matches!(reading, Reading::Piece(_)) {
            self.note_heard(key, now);
        }
        reading
    }

    /// Closes a connection, if one is open under the number.
    pub(crate) fn close(&mut self, conn: u32)
        ensures closed { (n : ℕ) → open_in self.new.streams n
            ≡ without_open conn (open_in self.old.streams) n }
        ensures limit { self.new.limit ≡ self.old.limit }
    {
        if let Some(closed) = self.streams.try_remove(conn as usize) {
            self.peers.remove(closed.peer);
        }
    }

    /// Whether a host has no connection, and another has to end before it can have one.
    pub(crate) fn lacks_place(&self, peer: u128) -> bool
        ensures { IsTrue result → count_of self.now.peers peer ≡ 0 }
    {
        self.streams.len() >= self.limit && self.peers.count(peer) == 0
    }

    // How many connections the host of a connection has, and for how long this one was silent.
    fn rank(&self, key: usize, now: Instant) -> Option<(u64, Duration)>
        ensures count { IfSome result (λ rank. rank.0 ≡ rank_in self.now.peers self.now.streams key) }
        ensures is_open { IfSome result (λ rank. open_in self.now.streams key ≡ true) }
        ensures none { IfNone result (rank_in self.now.peers self.now.streams key ≡ 0) }
    {
        let connection = self.streams.get(key)?;
        let count = self.peers.count(connection.peer);
        let silence = match self.heard.get(key) {
            Some(heard) => now.duration_since(*heard),
            None => Duration::ZERO,
        };
        Some((count, silence))
    }

    /// The connection that makes room for a host that has none: of a host that has most, the
    /// one that was silent longest.
    pub(crate) fn find_displaced(&self, now: Instant) -> Option<u32>
        ensures is_open { IfSome result (λ conn. open_in self.now.streams conn ≡ true) }
        ensures most { IfSome result (λ conn. (n : ℕ) → n < self.now.limit
            → rank_in self.now.peers self.now.streams n ≤ rank_in self.now.peers self.now.streams conn) }
    {
        let mut found = None;
        let mut highest = (0, Duration::ZERO);
        for key in 0..self.limit {
            if let Some(rank) = self.rank(key, now) {
                if is_above(rank, highest) {
                    found = Some(key as u32);
                    highest = rank;
                }
            }
        }
        found
    }

    /// The first connection, from a number on, that has given nothing for so long.
    pub(crate) fn find_idle(&self, from: usize, now: Instant, idle: Duration) -> Option<u32>
        ensures { IfSome result (λ conn. open_in self.now.streams conn ≡ true) }
    {
        for key in from..self.limit {
            if self.streams.contains(key) && self.is_silent(key, now, idle) {
                return Some(key as u32);
            }
        }
        None
    }

    // A connection gives octets now.
    fn note_heard(&mut self, key: usize, now: Instant)
        ensures places { self.new.places ≡ self.old.places }
        ensures same { self.new.streams ≡ self.old.streams }
        ensures peers { self.new.peers ≡ self.old.peers }
        ensures limit { self.new.limit ≡ self.old.limit }
    {
        if let Some(heard) = self.heard.get_mut(key) {
            *heard = now;
        }
    }

    // Whether a connection has given nothing for so long.
    fn is_silent(&self, key: usize, now: Instant, idle: Duration) -> bool {
        match self.heard.get(key) {
            Some(heard) => now.duration_since(*heard) >= idle,
            None => false,
        }
    }
}
