//! The events that a collector is given, and how a run over them ends.

use crate::fault::CollectFault;
use syslog_frame::Framing;

/// An event that a collector is given.
#[derive(Clone, Copy, Debug)]
pub enum Event<'a> {
    /// A connection was opened.
    Opened { conn: u32, framing: Framing },
    /// Octets came on an open connection.
    Piece { conn: u32, octets: &'a [u8] },
    /// A connection has ended.
    Ended { conn: u32 },
    /// A datagram came.
    Datagram { octets: &'a [u8] },
}

/// How a run over events ended.
#[derive(Clone, Copy, Debug, PartialEq, Eq)]
pub enum RunEnd {
    /// All events were accepted.
    Done,
    /// The event with index `at` was refused. If it is a piece, `taken` of its octets were taken.
    Stopped {
        at: usize,
        taken: usize,
        fault: CollectFault,
    },
}

/// How far one event went.
#[derive(Clone, Copy, Debug)]
pub enum EventEnd {
    /// It was accepted.
    Done,
    /// It was refused. If it is a piece, `taken` of its octets were taken.
    Stopped { taken: usize, fault: CollectFault },
}
