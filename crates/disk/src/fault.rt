use std::alloc::{AllocError, AllocFailed};
use thiserror::Error;

/// Why a call of a disk did not do what was asked of it.
#[derive(Clone, Copy, Debug, PartialEq, Eq, Error)]
pub enum DiskFault {
    /// There is no file under the name.
    #[error("there is no such file")]
    Missing,
    /// There is a file under the name already.
    #[error("the file exists")]
    Exists,
    /// The disk has no room left (ENOSPC, EDQUOT).
    #[error("the disk is full")]
    Full,
    /// The disk failed.
    #[error("the disk failed")]
    Failed,
    /// An allocation failed.
    #[error("out of memory")]
    Memory,
}

impl From<AllocError> for DiskFault {
    ghost use Rattle.std.specs.Prelude.{◌≡◌};
    ghost use Rattle.disk.specs.declared.fault.DiskFault.TheVariants.{Memory};

    ghost from_gives = { λ _ fault. fault ≡ Memory };

    fn from(_: AllocError) -> DiskFault {
        DiskFault::Memory
    }
}

impl<T: Drop> From<AllocFailed<T>> for DiskFault {
    ghost use Rattle.std.specs.Prelude.{◌≡◌};
    ghost use Rattle.disk.specs.declared.fault.DiskFault.TheVariants.{Memory};

    ghost from_gives = { λ _ fault. fault ≡ Memory };

    fn from(_: AllocFailed<T>) -> DiskFault {
        DiskFault::Memory
    }
}
