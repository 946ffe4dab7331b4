//! What a source over sockets is to do.

use std::time::Duration;

/// What a source over sockets is to do.
#[derive(Clone, Copy, Debug, PartialEq, Eq)]
pub struct SourceOptions {
    /// How many connections may be open at once: from 1 to
    /// [`CONNECTIONS_MAX`](crate::CONNECTIONS_MAX); a number outside is taken for the nearest of
    /// these.
    pub connections: usize,
    /// How many connections one host may have open at once, at least 1. An address of IPv4 is a host,
    /// and so are the addresses of IPv6 that begin with the same 64 bits; one that stands for an
    /// address of IPv4 counts as that one. If all places are taken, a host that has none gets that of
    /// the connection that was silent longest of a host that has most.
    pub per_peer: usize,
    /// How long a connection may give nothing before it is closed, to within a period; None means
    /// for ever.
    pub idle: Option<Duration>,
    /// How much time is between two ticks; less than a millisecond is taken for one. If it is zero,
    /// a tick also comes behind each step that has read octets, before anything more is read.
    pub period: Duration,
    /// Whether the source watches standard input, and ends with it.
    pub until_eof: bool,
    /// How many octets of room each socket gets for datagrams that have come and wait, as far as
    /// the system allows. One that has more keeps it.
    pub receive_buffer: Option<u32>,
}
