//! What the calls of a collector answer.

use crate::outcome::Outcome;
use thiserror::Error;

/// What an advance did.
#[derive(Clone, Copy, Debug, PartialEq, Eq)]
pub struct Advance {
    /// How many octets of the piece were taken.
    pub used: usize,
    /// What became of a frame, if one was handled, or the bad count that was met.
    pub outcome: Option<Outcome>,
}

/// Why a call of a collector is refused.
#[derive(Clone, Copy, Debug, PartialEq, Eq, Error)]
pub enum CollectFault {
    /// The number is that of an open connection.
    #[error("the connection is open already")]
    AlreadyOpen,
    /// As many connections are open as may be.
    #[error("too many connections are open")]
    TooManyOpen,
    /// No connection with this number is open.
    #[error("the connection is not open")]
    NotOpen,
    /// The connection's stream held a bad count: nothing more can be read of it.
    #[error("the stream held a bad count")]
    ConnFailed,
    /// The piece reaches past `POSITION_MAX`.
    #[error("the stream is too long")]
    StreamTooLong,
    /// A frame is still ready for which memory was refused.
    #[error("a frame was not handled")]
    Unreleased,
    /// The stream stops inside the frame whose first octet is at this position.
    #[error("the frame at {start} is unfinished")]
    Unterminated { start: u64 },
    /// An allocation failed. The first `used` octets of the piece were taken; of a run, `used` of
    /// those that were taken are of the frame that waits.
    #[error("out of memory")]
    Memory { used: usize },
}
