//! Why a follower did not go on.

use disk::DiskFault;
use std::alloc::AllocError;
use thiserror::Error;

/// Why a follower did not go on.
#[derive(Clone, Copy, Debug, PartialEq, Eq, Error)]
pub enum FollowFault {
    /// The names of the folder could not be read.
    #[error("the folder: {fault}")]
    Names { fault: DiskFault },
    /// The journal with this number could not be read.
    #[error("journal.{number}: {fault}")]
    Read { number: u64, fault: DiskFault },
    /// What is at this position of the journal with this number is neither a batch of entries and their
    /// seal nor what a crash may leave behind the batches.
    #[error("journal.{number}: damaged at {at}")]
    Damaged { number: u64, at: u64 },
    /// The journal with this number is gone, and a later one is there: what was not read of it is in
    /// segments by now.
    #[error("journal.{number}: gone before all of it was read")]
    Gap { number: u64 },
    /// The journal with this number is gone, and only earlier ones are there; or it is shorter than what was
    /// read of it, so that it is another one. All journals that are there are read from their start.
    #[error("journal.{number}: replaced")]
    Replaced { number: u64 },
    /// The output failed.
    #[error("the writer failed")]
    Write,
    /// An allocation failed.
    #[error("out of memory")]
    Memory,
}

impl From<AllocError> for FollowFault {
    ghost use Rattle.std.specs.Prelude.{◌≡◌};
    ghost use Rattle.store_follow.specs.declared.fault.FollowFault.TheVariants.{Memory};

    ghost from_gives = { λ _ fault. fault ≡ Memory };

    fn from(_: AllocError) -> FollowFault {
        FollowFault::Memory
    }
}

/// Why the batches of a journal were not followed to their end.
#[derive(Clone, Copy, Debug, PartialEq, Eq)]
pub(crate) enum BatchFault {
    /// The disk's fault, or out of memory.
    Disk(DiskFault),
    /// No batch is there, and none that is being written.
    Damaged,
    /// The output failed.
    Write,
}

impl From<DiskFault> for BatchFault {
    ghost use Rattle.std.specs.Prelude.{◌≡◌};
    ghost use Rattle.store_follow.specs.declared.fault.BatchFault.TheVariants.{Disk};

    ghost from_gives = { λ fault wrapped. wrapped ≡ Disk fault };

    fn from(fault: DiskFault) -> BatchFault {
        BatchFault::Disk(fault)
    }
}
