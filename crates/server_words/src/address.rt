//! Addresses of sockets.

ghost use Rattle.std.specs.Prelude.{◌≡◌};
ghost use Rattle.server_words.specs.Addresses.{address_in};

use std::net::SocketAddr;

/// The address and port that a text spells: IPv4, or IPv6 in brackets.
pub fn address(text: &str) -> Option<SocketAddr>
    ensures { result ≡ address_in text.now }
{
    match text.parse::<SocketAddr>() {
        Ok(address) => Some(address),
        Err(_) => None,
    }
}
