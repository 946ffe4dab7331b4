//! What a server counts.
ghost use Rattle.std.specs.Prelude.{◌↔◌, IsTrue};
ghost use Rattle.serve_engine.specs.Counts.{HasRefused};

use collect_engine::Received;
use syslog_collect::Outcome;

/// What a server counts over a whole run. A count that reaches `u64::MAX` stays there.
#[derive(Clone, Copy, Debug, PartialEq, Eq)]
pub struct ServeCounts {
    /// Frames that are records.
    pub received: u64,
    /// Records that had not been held since the last checkpoint.
    pub new: u64,
    /// Records that had.
    pub held: u64,
    /// Frames that are no records.
    pub refused: u64,
    /// Frames of more than `FRAME_MAX` octets.
    pub too_long: u64,
    /// Connections that were opened.
    pub connections: u64,
    /// Commits of a record or more.
    pub batches: u64,
    /// Octets of pieces and datagrams.
    pub octets: u64,
    /// Connections that went on with no count, ended inside a frame, or had no memory; and datagrams
    /// that had none.
    pub broken: u64,
    /// Lines that could not be written.
    pub dropped: u64,
    /// Lines on frames and connections that the pace of the notes left out.
    pub quiet: u64,
    /// Datagrams and connections of peers that may not send, of which nothing was read.
    pub not_allowed: u64,
    /// Datagrams above the rates of their peers, which were thrown away.
    pub over_rate: u64,
}

impl ServeCounts {
    /// Whether a frame, a count or the end of a connection was refused.
    pub fn has_refused(&self) -> bool
        ensures { IsTrue result ↔ HasRefused self.now }
    {
        self.refused > 0 || self.too_long > 0 || self.broken > 0
    }
}
