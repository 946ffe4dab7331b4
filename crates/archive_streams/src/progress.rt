//! How far the reading of an archive has come.

use crate::fault::SideFault;

/// How far the reading of an archive has come.
#[derive(Clone, Copy, Debug, PartialEq, Eq)]
pub enum Progress {
    /// The next entry is to be read.
    Open,
    /// The end was found.
    Ended,
    /// An entry could not be read, for this reason.
    Stopped(SideFault),
}
