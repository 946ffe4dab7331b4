//! The steps of a source.

use syslog_frame::Framing;

/// What a source gives next. Connections come one after the other.
#[derive(Clone, Copy, Debug, PartialEq, Eq)]
pub enum Step {
    /// A connection was opened, whose stream has this framing.
    Opened(Framing),
    /// This many octets came on the open connection.
    Piece(usize),
    /// The connection has ended.
    Ended,
    /// A datagram of this many octets came.
    Datagram(usize),
    /// Nothing more comes.
    Finished,
    /// The source failed.
    Failed,
}
