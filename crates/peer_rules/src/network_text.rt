//! Networks as text.
ghost use Rattle.std.specs.Prelude.{◌≡◌, MatchOption};
ghost use Rattle.peer_rules.specs.Addresses.{width_of};
ghost use Rattle.peer_rules.specs.NetworkTexts.{HasSlash, ReadsLength, address_part, length_part};

use crate::address::{IPV4_WIDTH, WIDTH};
use crate::network::Network;
use crate::network_fault::NetworkFault;
use std::net::IpAddr;
use std::str::FromStr;

// How many bits an address has.
fn width_of(address: IpAddr) -> u8
    ensures { result ≡ width_of address }
{
    match address {
        IpAddr::V4(_) => IPV4_WIDTH,
        IpAddr::V6(_) => WIDTH,
    }
}

// What stands before the first slash, and what behind it, if there is one.
fn parts_of(text: &str) -> (&str, Option<&str>)
    ensures address { result.0.now ≡ address_part text.now }
    ensures length { MatchOption result.1 (¬ (HasSlash text.now))
        (λ part. HasSlash text.now × (part.now ≡ length_part text.now)) }
{
    match text.split_once('/') {
        Some((address, length)) => (address, Some(length)),
        None => (text, None),
    }
}

// Reads the length of a prefix: decimal digits alone. None if it is no number, or none below 256.
fn read_length(text: &str) -> Option<u8>
    ensures { ReadsLength text.now result }
{
    if text.starts_with('+') {
        return None;
    }
    text.parse::<u8>().ok()
}

impl FromStr for Network {
    type Err = NetworkFault;

    ghost use Rattle.peer_rules.specs.NetworkTexts.{Reads};

    ghost from_str_gives = { Reads };

    /// Reads an address, or an address, a slash and the length of its prefix in decimal digits: the
    /// network of the addresses that begin with so many bits. Behind the prefix all bits of the address
    /// have to be 0. An address alone is a network of one.
    fn from_str(text: &str) -> Result<Network, NetworkFault> {
        let (address, length) = parts_of(text);
        let Ok(address) = address.parse::<IpAddr>() else {
            return Err(NetworkFault::Address);
        };
        let Some(length) = length else {
            return Network::new(address, width_of(address));
        };
        match read_length(length) {
            Some(length) => Network::new(address, length),
            None => Err(NetworkFault::Length),
        }
    }
}
