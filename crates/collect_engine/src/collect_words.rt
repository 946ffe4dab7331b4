//! What `collect` is asked to receive.

use syslog_legacy::FrameReading;

/// How records come to `collect`.
#[derive(Clone, Copy, Debug, PartialEq, Eq)]
pub enum Transport {
    /// Datagrams (RFC 5426).
    Udp,
    /// Connections whose frames have their octets counted (RFC 6587, section 3.4.1).
    Counted,
    /// Connections whose frames are lines (RFC 6587, section 3.4.2).
    Lf,
}

/// The arguments of `collect`.
#[derive(Clone, Copy, Debug, PartialEq, Eq)]
pub struct CollectWords {
    /// How records come.
    pub transport: Transport,
    /// The port of 127.0.0.1 that is bound.
    pub port: u16,
    /// How many datagrams or connections are received.
    pub count: u32,
    /// How frames are read.
    pub reading: FrameReading,
}
