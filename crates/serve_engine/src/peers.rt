//! Who is at the other end of each open connection.
ghost use Rattle.std.specs.Prelude.{◌≡◌};
ghost use Rattle.std.specs.Net.Socket.{socket_ip};
ghost use Rattle.serve_engine.specs.Peers.{number_of, peer_of};

use std::alloc::{AllocError, Global};
use std::net::{IpAddr, SocketAddr};
use syslog_frame::Framing;

/// Where octets come from.
#[derive(Clone, Copy, Debug, PartialEq, Eq)]
pub(crate) enum Way {
    /// Datagrams over UDP.
    Udp(SocketAddr),
    /// Datagrams at a path, whose senders have no address.
    Unix,
    /// A connection.
    Stream(Framing, SocketAddr),
}

// The bits of an IPv6 address; of an IPv4 address those of the IPv6 address that maps it.
fn number_of(peer: SocketAddr) -> u128
    ensures { result ≡ number_of (socket_ip peer) }
{
    match peer.ip() {
        IpAddr::V4(ip) => 0xffff_0000_0000 + u128::from(ip.to_bits()),
        IpAddr::V6(ip) => ip.to_bits(),
    }
}

impl Way {
    /// The number of the peer, whatever its port. All senders without an address are one peer.
    pub(crate) fn peer(self) -> u128
        ensures { result ≡ peer_of self }
    {
        match self {
            Way::Udp(peer) | Way::Stream(_, peer) => number_of(peer),
            Way::Unix => 0,
        }
    }
}

/// The way of each open connection, by its number.
#[derive(Drop)]
pub(crate) struct Peers {
    ways: Vec<Option<Way>>,
}

impl Peers {
    /// Room for this many connections.
    pub(crate) fn new(alloc: Global, connections: usize) -> Result<Peers, AllocError> {
        Ok(Peers {
            ways: vec![in alloc; None; connections]?,
        })
    }

    /// The way of a connection; of one that is not open, nothing is known.
    pub(crate) fn get(&self, conn: u32) -> Way {
        match self.ways.get(conn as usize) {
            Some(Some(way)) => *way,
            _ => Way::Unix,
        }
    }

    /// Notes the way of a connection that was opened, or that none is open.
    pub(crate) fn set(&mut self, conn: u32, way: Option<Way>) {
        if let Some(place) = self.ways.get_mut(conn as usize) {
            *place = way;
        }
    }
}
