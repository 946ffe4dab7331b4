//! How far a session has come.

use driver::Stopped;

/// How far a session has come.
#[derive(Clone, Copy, Debug, PartialEq, Eq)]
pub enum Progress {
    /// It takes more octets, or the end.
    Open,
    /// Its answer is complete, whatever octets follow.
    Answered,
    /// It was stopped, for this reason.
    Stopped(Stopped),
}
