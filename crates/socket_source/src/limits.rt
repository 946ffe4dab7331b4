//! The limits of a server's source.

use syslog_frame::FRAME_MAX;

/// The most octets of a piece or a datagram: one more than those of a frame, so that a datagram too
/// long for a frame is seen to be.
pub const PIECE_MAX: usize = FRAME_MAX + 1;

/// The most connections that may be open at once.
pub const CONNECTIONS_MAX: usize = 16_384;

/// The most octets of a connection that one turn gives.
pub const TURN_OCTETS: usize = 65_536;

/// The most frames that begin in what one turn of a connection gives.
pub const TURN_FRAMES: usize = 1_024;

/// The most octets that one turn each of all ready sockets gives, unless each has no more than
/// `LEAST_OCTETS`.
pub const ROUND_OCTETS: usize = 1_048_576;

/// The most frames that begin in what one turn each of all ready sockets gives, unless each has no
/// more than `LEAST_FRAMES`.
pub const ROUND_FRAMES: usize = 8_192;

/// How many octets a turn of a connection may have, however many sockets are ready.
pub const LEAST_OCTETS: usize = 1_024;

/// How many frames may begin in a turn of a connection, however many sockets are ready.
pub const LEAST_FRAMES: usize = 8;

/// The most datagrams of a socket in one turn.
pub const DATAGRAMS_A_TURN: usize = 64;

/// How many turns datagram sockets have, if they have something, in a round of all other sockets that are
/// ready: so between two of them comes a sixteenth of a round, or one step of another socket.
pub const DATAGRAM_TURNS_A_ROUND: usize = 16;

/// The most steps of other sockets between two turns of datagram sockets that have something, however
/// many others are ready.
pub const STEPS_BETWEEN: usize = 64;

/// The most connections of a listener in one turn.
pub const ACCEPTS_A_TURN: usize = 16;
