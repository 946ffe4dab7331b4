//! The framing of an input.

use syslog_frame::Framing;

/// How records are delimited in an input.
#[derive(Clone, Copy, Debug, PartialEq, Eq)]
pub enum InputFraming {
    /// The whole input is one record (RFC 5426).
    Datagram,
    /// A stream of frames (RFC 6587, section 3.4).
    Stream(Framing),
}
