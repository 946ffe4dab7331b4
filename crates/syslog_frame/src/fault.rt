//! Why a call is refused.

use thiserror::Error;

/// Why no scanner starts at a position.
#[derive(Clone, Copy, Debug, PartialEq, Eq, Error)]
pub enum StartFault {
    /// The position is above `POSITION_MAX`.
    #[error("the position is too large")]
    PositionTooLarge,
    /// The room for a record could not be allocated.
    #[error("out of memory")]
    Memory,
}

/// Why a scanner took nothing of a piece.
#[derive(Clone, Copy, Debug, PartialEq, Eq, Error)]
pub enum ScanFault {
    /// A bad count was released: nothing more can be read.
    #[error("the stream held a bad count")]
    Failed,
    /// The piece reaches past `POSITION_MAX`.
    #[error("the stream is too long")]
    StreamTooLong,
}

/// Why a growing scanner took nothing of a piece.
#[derive(Clone, Copy, Debug, PartialEq, Eq, Error)]
pub enum GrowFault {
    /// A bad count was released: nothing more can be read.
    #[error("the stream held a bad count")]
    Failed,
    /// The piece reaches past `POSITION_MAX`.
    #[error("the stream is too long")]
    StreamTooLong,
    /// Room for octets of the frame could not be allocated.
    #[error("out of memory")]
    Memory,
}

/// Why a stream may not stop here.
#[derive(Clone, Copy, Debug, PartialEq, Eq, Error)]
pub enum EndFault {
    /// A bad count was released.
    #[error("the stream held a bad count")]
    Failed,
    /// Something is still ready.
    #[error("a frame or a bad count was not released")]
    Unreleased,
    /// The stream stops inside the frame whose first octet is at this position.
    #[error("the frame at {start} is unfinished")]
    Unterminated { start: u64 },
}

/// Why octets are not written as a frame.
#[derive(Clone, Copy, Debug, PartialEq, Eq, Error)]
pub enum PutFault {
    /// A counted frame would have no octets.
    #[error("a counted frame has at least one octet")]
    Empty,
    /// The octets have a line feed, which a line cannot carry.
    #[error("a line cannot hold a line feed")]
    HasLf,
    /// There are more than `FRAME_MAX` octets.
    #[error("the frame is too long")]
    TooLong,
    /// The allocation failed.
    #[error("out of memory")]
    Memory,
}

/// Why the frames of a stream are not reported.
#[derive(Clone, Copy, Debug, PartialEq, Eq, Error)]
pub enum PiecesFault {
    /// The pieces reach past `POSITION_MAX`.
    #[error("the stream is too long")]
    StreamTooLong,
    /// An allocation failed.
    #[error("out of memory")]
    Memory,
}
