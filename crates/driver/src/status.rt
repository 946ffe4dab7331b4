//! The exit statuses of a run.

/// Everything was done.
pub const DONE: u8 = 0;

/// Something was refused.
pub const REFUSED: u8 = 1;

/// The arguments are wrong, or a device failed.
pub const FAULT: u8 = 2;

/// Out of memory.
pub const NO_MEMORY: u8 = 3;
