//! Networks.
ghost use Rattle.std.specs.Prelude.{◌≡◌, ◌↔◌, ◌-◌, ◌%◌, ◌^◌, ◌<◌, ◌≤◌, IfNone, IfSome, IsTrue};
ghost use Rattle.peer_rules.specs.Addresses.{full_length, number_of, width_of};

use crate::address::{
    IPV4_WIDTH, MAPPED_LENGTH, WIDTH, address_number, host_bits, is_ipv4, prefix_of,
};
use crate::network_fault::NetworkFault;
use std::fmt;
use std::net::{IpAddr, Ipv4Addr, Ipv6Addr};

/// A network: the addresses that begin with the same bits (RFC 4632, section 3.1; RFC 4291, section 2.3).
/// One of IPv4 has addresses of IPv4 alone, and one of IPv6 has none of IPv4.
#[derive(Clone, Copy, Debug, PartialEq, Eq)]
pub struct Network {
    // the number of its first address
    first: u128,
    // how many of the 128 bits are the same
    length: u8,
    ghost within: { length ≤ 128 },
    ghost exact: { first % 2 ^ (128 - length) ≡ 0 },
}

// How many of the 128 bits of an address's number a prefix of the address has; none if the address has
// fewer bits than the prefix.
fn full_length(address: IpAddr, length: u8) -> Option<u8>
    ensures none { IfNone result (width_of address < length) }
    ensures some { IfSome result (λ full. (length ≤ width_of address) × (full ≡ full_length address length)) }
    ensures within { IfSome result (λ full. full ≤ WIDTH) }
{
    match address {
        IpAddr::V4(_) if length <= IPV4_WIDTH => Some(MAPPED_LENGTH + length),
        IpAddr::V6(_) if length <= WIDTH => Some(length),
        _ => None,
    }
}

impl Network {
    ghost use Rattle.peer_rules.specs.Networks.{IsAround, IsIn, Makes};

    // The network of this length that has an address.
    fn around(number: u128, length: u8) -> Network
        requires { length ≤ WIDTH }
        ensures { IsAround number length result }
    {
        let rest = host_bits(number, length);
        Network {
            first: number - rest,
            length,
        }
    }

    /// The network whose addresses begin with so many bits of an address, the bits behind which are 0.
    /// Otherwise it is refused: [`NetworkFault::Length`] if the address has fewer bits, and else
    /// [`NetworkFault::HostBits`], with the network that has the address.
    pub fn new(address: IpAddr, length: u8) -> Result<Network, NetworkFault>
        ensures { Makes address length result }
    {
        let Some(length) = full_length(address, length) else {
            return Err(NetworkFault::Length);
        };
        let number = address_number(address);
        let network = Network::around(number, length);
        if network.first == number {
            Ok(network)
        } else {
            Err(NetworkFault::HostBits(network))
        }
    }

    /// Whether an address is in the network.
    pub fn contains(&self, address: IpAddr) -> bool
        ensures { IsTrue result ↔ IsIn self.now (number_of address) }
    {
        let number = address_number(address);
        let is_apart = self.length < MAPPED_LENGTH && is_ipv4(number);
        !is_apart && prefix_of(number, self.length) == prefix_of(self.first, self.length)
    }
}

impl fmt::Display for Network {
    fn fmt<W: fmt::Write>(&self, f: &mut fmt::Formatter<W>) -> fmt::Result {
        if self.length >= MAPPED_LENGTH && is_ipv4(self.first) {
            let address = Ipv4Addr::from_bits((self.first % (1 << 32)) as u32);
            return write!(f, "{address}/{}", self.length - MAPPED_LENGTH);
        }
        write!(f, "{}/{}", Ipv6Addr::from_bits(self.first), self.length)
    }
}
