//! How serving ended.
ghost use Rattle.std.specs.Prelude.{◌≡◌};
ghost use Rattle.serve_engine.specs.Counts.{status_of};

use socket_source::SourceFault;

/// How serving ended.
#[derive(Clone, Copy, Debug, PartialEq, Eq)]
pub enum ServeEnd {
    /// The source has finished, and all that came is committed.
    Finished,
    /// The source failed.
    Source(SourceFault),
    /// The disk failed.
    Disk,
    /// An allocation failed.
    Memory,
    /// The source gave steps for 2^64 - 1 turns.
    Endless,
}

impl ServeEnd {
    /// The exit status of the process: 0 if the source has finished and no frame was refused, 1 if
    /// one was, 2 if the source or the disk failed or the source had no end, 3 if memory ran out.
    pub fn status(self, refused: bool) -> u8
        ensures { result ≡ status_of self refused }
    {
        match self {
            ServeEnd::Finished => u8::from(refused),
            ServeEnd::Source(_) | ServeEnd::Disk | ServeEnd::Endless => 2,
            ServeEnd::Memory => 3,
        }
    }
}
