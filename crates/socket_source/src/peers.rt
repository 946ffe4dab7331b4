//! How many connections each host has.
ghost use Rattle.std.specs.Prelude.{◌≡◌, ◌+◌, ◌-◌, ◌%◌, ◌^◌, min, IfOk, OnErr, OnOk};
ghost use Rattle.peer_rules.specs.Addresses.{IsIpv4, number_of};
ghost use Rattle.std.specs.Net.Socket.{socket_ip};

use peer_rules::address_number;
use std::alloc::{AllocError, Global};
use std::collections::BTreeMap;
use std::net::SocketAddr;

// How many addresses of IPv4 there are.
const IPV4_ADDRESSES: u128 = 0x1_0000_0000;

// The number of the first address of IPv6 that stands for one of IPv4, ::ffff:0.0.0.0 (RFC 4291, section 2.5.5.2).
const MAPPED: u128 = 0xffff_0000_0000;

// How many addresses of IPv6 begin with the same 64 bits.
const HOST_ADDRESSES: u128 = 0x1_0000_0000_0000_0000;

/// The number of a peer's host, to which its connections count. An address of IPv4 is a host, and counts
/// as the one of IPv6 that stands for it. The addresses of IPv6 that begin with the same 64 bits are one
/// host, which may choose the other 64 (RFC 4291, section 2.5.4): it has the number of the first of them.
pub(crate) fn host_number(peer: SocketAddr) -> u128
    ensures ipv4 { IsIpv4 (number_of (socket_ip peer)) → result ≡ number_of (socket_ip peer) }
    ensures ipv6 { ¬ (IsIpv4 (number_of (socket_ip peer)))
        → result ≡ number_of (socket_ip peer) - number_of (socket_ip peer) % 2 ^ 64 }
{
    let number = address_number(peer.ip());
    if number / IPV4_ADDRESSES == MAPPED / IPV4_ADDRESSES {
        return number;
    }
    number - number % HOST_ADDRESSES
}

/// How many connections each host has. One that has none takes no room.
#[derive(Drop)]
pub(crate) struct Peers {
    counts: BTreeMap<u128, u64>,
}

impl Peers {
    ghost use Rattle.socket_source.specs.Peers.{Counts, IsNobody, SameCounts, count_of};

    pub(crate) fn new(alloc: Global) -> Peers
        ensures { IsNobody result }
    {
        Peers {
            counts: BTreeMap::new(alloc),
        }
    }

    /// How many connections a host has.
    pub(crate) fn count(&self, peer: u128) -> u64
        ensures { result ≡ count_of self.now peer }
    {
        self.counts.get(&peer).copied().unwrap_or(0)
    }

    /// A host has one more.
    pub(crate) fn add(&mut self, peer: u128) -> Result<(), AllocError>
        ensures ok { OnOk result (Counts self.old self.new peer (min (count_of self.old peer + 1) (2 ^ 64 - 1))) }
        ensures err { OnErr result (SameCounts self.old self.new) }
    {
        let count = self.count(peer).saturating_add(1);
        self.counts.insert(peer, count)?;
        Ok(())
    }

    /// A host has one fewer.
    pub(crate) fn remove(&mut self, peer: u128)
        ensures { Counts self.old self.new peer (count_of self.old peer - 1) }
    {
        if self.count(peer) <= 1 {
            let _last = self.counts.remove(&peer);
        } else if let Some(count) = self.counts.get_mut(&peer) {
            *count -= 1;
        }
    }
}
