//! What a server listens on.

use std::net::SocketAddr;

/// What a descriptor that a service manager hands over is.
#[derive(Clone, Copy, Debug, PartialEq, Eq)]
pub enum Inherited {
    /// A datagram socket, of UDP or at a path.
    Udp,
    /// A listening TCP socket, whose streams are octet-counted.
    Counted,
    /// A listening TCP socket, whose streams are lines.
    Lf,
}

/// A socket that a server listens on. An IPv6 socket is for IPv6 alone. With port 0 the system
/// chooses a port ([`SocketSource::local_addr`](crate::SocketSource::local_addr) tells which).
#[derive(Clone, Copy, Debug, PartialEq, Eq)]
pub enum Listener<'a> {
    /// Datagrams to an address.
    Udp(SocketAddr),
    /// Connections to an address, whose streams are octet-counted.
    Counted(SocketAddr),
    /// Connections to an address, whose streams are lines.
    Lf(SocketAddr),
    /// Datagrams to a socket at a path. If a socket is there that nobody has open, it is removed first.
    Unix(&'a str),
    /// A descriptor that was handed over. The first one in a list is descriptor 3; the others
    /// follow in the order of the list.
    Inherited(Inherited),
}
