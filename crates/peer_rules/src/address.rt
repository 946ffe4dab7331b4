//! Addresses as numbers.
ghost use Rattle.std.specs.Prelude.{◌≡◌, ◌↔◌, ◌-◌, ◌%◌, ◌^◌, ◌≤◌, IsTrue};
ghost use Rattle.peer_rules.specs.Addresses.{IsIpv4, number_of, prefix};

use std::net::IpAddr;

/// The number of the first IPv6 address that stands for one of IPv4, ::ffff:0.0.0.0.
pub(crate) const MAPPED: u128 = 0xffff_0000_0000;

/// How many bits the number of an address has.
pub(crate) const WIDTH: u8 = 128;

/// How many bits an IPv4 address has.
pub(crate) const IPV4_WIDTH: u8 = 32;

/// How many bits stand before those of an IPv4 address.
pub(crate) const MAPPED_LENGTH: u8 = 96;

/// The number of an address: that of IPv6. An address of IPv4 has the number of the IPv6 address that
/// stands for it (RFC 4291, section 2.5.5.2), so that the two are one.
pub fn address_number(address: IpAddr) -> u128
    ensures { result ≡ number_of address }
{
    match address {
        IpAddr::V4(address) => MAPPED + u128::from(address.to_bits()),
        IpAddr::V6(address) => address.to_bits(),
    }
}

/// Whether a number is that of an IPv4 address.
pub(crate) fn is_ipv4(number: u128) -> bool
    ensures { IsTrue result ↔ IsIpv4 number }
{
    number >> 32 == MAPPED >> 32
}

/// The first bits of a number, as a number.
pub(crate) fn prefix_of(number: u128, length: u8) -> u128
    requires { length ≤ WIDTH }
    ensures { result ≡ prefix length number }
{
    match number.checked_shr(u32::from(WIDTH - length)) {
        Some(prefix) => prefix,
        None => 0,
    }
}

/// The bits of a number behind the first ones.
pub(crate) fn host_bits(number: u128, length: u8) -> u128
    requires { length ≤ WIDTH }
    ensures { result ≡ number % 2 ^ (128 - length) }
{
    match 1u128.checked_shl(u32::from(WIDTH - length)) {
        Some(size) => number % size,
        None => number,
    }
}
