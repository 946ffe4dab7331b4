//! Why a ledger was not read or written.

use disk::DiskFault;
use std::alloc::{AllocError, AllocFailed};
use thiserror::Error;

/// Why a ledger was not read or written.
#[derive(Clone, Copy, Debug, PartialEq, Eq, Error)]
pub enum ListFault {
    /// What begins at this octet of the ledger is no line that continues its chain. Where only the end of
    /// a ledger was read, it may be a later one that is none.
    #[error("ledger {at}")]
    Broken { at: u64 },
    /// The ledger does not list the segment.
    #[error("the ledger does not list the segment")]
    Unlisted,
    /// The disk failed, has no room, or memory ran out.
    #[error("{0}")]
    Disk(DiskFault),
}

impl From<DiskFault> for ListFault {
    ghost use Rattle.std.specs.Prelude.{◌≡◌};
    ghost use Rattle.ledger_disk.specs.declared.fault.ListFault.TheVariants.{Disk};

    ghost from_gives = { λ fault wrapped. wrapped ≡ Disk fault };

    fn from(fault: DiskFault) -> ListFault {
        ListFault::Disk(fault)
    }
}

impl From<AllocError> for ListFault {
    ghost use Rattle.std.specs.Prelude.{◌≡◌};
    ghost use Rattle.disk.specs.declared.fault.DiskFault.TheVariants.{Memory};
    ghost use Rattle.ledger_disk.specs.declared.fault.ListFault.TheVariants.{Disk};

    ghost from_gives = { λ _ fault. fault ≡ Disk Memory };

    fn from(_: AllocError) -> ListFault {
        ListFault::Disk(DiskFault::Memory)
    }
}

impl<T: Drop> From<AllocFailed<T>> for ListFault {
    ghost use Rattle.std.specs.Prelude.{◌≡◌};
    ghost use Rattle.disk.specs.declared.fault.DiskFault.TheVariants.{Memory};
    ghost use Rattle.ledger_disk.specs.declared.fault.ListFault.TheVariants.{Disk};

    ghost from_gives = { λ _ fault. fault ≡ Disk Memory };

    fn from(_: AllocFailed<T>) -> ListFault {
        ListFault::Disk(DiskFault::Memory)
    }
}

// What it means for a call on another file: that the ledger is missing says nothing of that file.
pub(crate) fn disk_fault(fault: ListFault) -> DiskFault {
    match fault {
        ListFault::Disk(DiskFault::Full) => DiskFault::Full,
        ListFault::Disk(DiskFault::Memory) => DiskFault::Memory,
        ListFault::Disk(_) | ListFault::Broken { .. } | ListFault::Unlisted => DiskFault::Failed,
    }
}
