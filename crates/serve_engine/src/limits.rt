//! How much a turn of a server tells.

/// The most lines of a turn on what the server does, rather than on a peer: that what came waits, or that
/// the disk has failed, at a commit and at a checkpoint; the counts; and that there is room again.
pub const STATUS_LINES: usize = 4;

/// The most lines of a turn: those of a burst on one peer. It is no less than `STATUS_LINES`.
pub const TURN_LINES: usize = 100;
