//! Why a record is not sent.

use std::alloc::AllocError;
use thiserror::Error;

/// Why a record was not sent. Nothing was written, except as `Write` says.
#[derive(Clone, Copy, Debug, PartialEq, Eq, Error)]
pub enum SendFault {
    /// The framing is lines, and the canonical record contains a line feed.
    #[error("a line cannot hold a line feed")]
    HasLf,
    /// The canonical record is longer than a frame may be (`FRAME_MAX`).
    #[error("the record is too long for a frame")]
    TooLong,
    /// An allocation failed.
    #[error("out of memory")]
    Memory,
    /// The first `sent` octets of the frame were written, and then the writer failed.
    #[error("the writer failed after {sent} octets")]
    Write { sent: u64 },
}

impl From<AllocError> for SendFault {
    ghost use Rattle.std.specs.Prelude.{◌≡◌};
    ghost use Rattle.syslog_sender.specs.declared.fault.SendFault.TheVariants.{Memory};

    ghost from_gives = { λ _ fault. fault ≡ Memory };

    fn from(_: AllocError) -> SendFault {
        SendFault::Memory
    }
}
