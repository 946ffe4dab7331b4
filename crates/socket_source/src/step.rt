//! The steps of a server's source.

use std::net::SocketAddr;
use syslog_frame::Framing;

/// How a connection ended.
#[derive(Clone, Copy, Debug, PartialEq, Eq)]
pub enum ConnectionEnd {
    /// The peer ended it, and all that it sent has come; or the source is about to finish.
    Closed,
    /// It was reset, or its socket failed.
    Reset,
    /// Nothing came on it for as long as it may be idle, so it was closed.
    Idle,
    /// Its place was given to another address.
    Displaced,
}

/// Why a source gives nothing more.
#[derive(Clone, Copy, Debug, PartialEq, Eq)]
pub enum SourceFault {
    /// The clock cannot be read.
    Clock,
    /// The system no longer tells which sockets are ready.
    Poll,
    /// The slice for the octets is empty.
    NoRoom,
    /// No step came in 2^64 - 1 turns.
    Endless,
}

/// What a server's source gives next.
#[derive(Clone, Copy, Debug, PartialEq, Eq)]
pub enum ServerStep {
    /// A connection was opened, under a number that no open connection has. The listener is the one
    /// at that place in the list, from 0.
    Opened {
        conn: u32,
        listener: usize,
        framing: Framing,
        peer: SocketAddr,
    },
    /// `len` octets came on an open connection.
    Piece {
        conn: u32,
        len: usize,
    },
    /// An open connection has ended. Its number may be given again from now on.
    Ended {
        conn: u32,
        end: ConnectionEnd,
    },
    /// A datagram of `len` octets came to a listener. A peer at a Unix socket has no address.
    Datagram {
        listener: usize,
        peer: Option<SocketAddr>,
        len: usize,
    },
    /// A connection came for which there was no room: it was closed at once.
    TurnedAway {
        listener: usize,
        framing: Framing,
        peer: SocketAddr,
    },
    /// A connection or a datagram came to a listener from an address that may not send: the connection was
    /// closed before anything of it was read, the datagram is thrown away.
    NotAllowed {
        listener: usize,
        peer: SocketAddr,
    },
    /// A datagram came to a listener from an address that has sent as much as its rate lets through: it is
    /// thrown away.
    OverRate {
        listener: usize,
        peer: SocketAddr,
    },
    /// The time of a period is up, or the last step read octets and a tick is to follow it.
    Tick,
    /// Standard input has ended. What waits in the sockets may still come.
    InputEnded,
    /// Standard input has ended, each connection was ended, and nothing more is waited for.
    Finished,
    /// The source failed.
    Failed(SourceFault),
}
