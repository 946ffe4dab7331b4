//! Why a run with a spill stopped.

use driver::Stopped;
use std::alloc::AllocError;

/// Why a run with a spill stopped before its input was answered.
#[derive(Clone, Copy, Debug, PartialEq, Eq)]
pub enum SpillStop {
    /// A device failed, the input has no end, or memory ran out.
    Run(Stopped),
    /// A run could not be made or written, or is not read back as it was written.
    Spill,
}
