//! What becomes of a frame.

use syslog_grammar::Fault;

/// What became of a frame or a datagram, or that a stream cannot go on.
#[derive(Clone, Copy, Debug, PartialEq, Eq)]
pub enum Outcome {
    /// Its record was not held before, and is now.
    New,
    /// Its record was held already.
    Held,
    /// It is no record (RFC 5424, section 6).
    Refused(Fault),
    /// It is a legacy packet (RFC 3164) whose message starts with the byte order mark and is not
    /// UTF-8: the octet at this offset of the packet cannot continue it.
    RefusedLegacy { offset: usize },
    /// It has more than `FRAME_MAX` octets.
    TooLong,
    /// No MSG-LEN can continue with the octet at this position of the stream (RFC 6587, 3.4.1).
    BadCount { at: u64 },
}
