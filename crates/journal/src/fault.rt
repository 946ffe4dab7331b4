use disk::DiskFault;
use std::alloc::AllocError;
use thiserror::Error;

/// Why a journal was not opened.
#[derive(Clone, Copy, Debug, PartialEq, Eq, Error)]
pub enum JournalFault {
    /// The disk's fault, or out of memory.
    #[error("{0}")]
    Disk(DiskFault),
    /// The file is longer than any journal that is written.
    #[error("the journal is too long")]
    TooLong,
}

impl From<DiskFault> for JournalFault {
    ghost use Rattle.std.specs.Prelude.{◌≡◌};
    ghost use Rattle.journal.specs.declared.fault.JournalFault.TheVariants.{Disk};

    ghost from_gives = { λ fault wrapped. wrapped ≡ Disk fault };

    fn from(fault: DiskFault) -> JournalFault {
        JournalFault::Disk(fault)
    }
}

impl From<AllocError> for JournalFault {
    ghost use Rattle.std.specs.Prelude.{◌≡◌};
    ghost use Rattle.disk.specs.declared.fault.DiskFault.TheVariants.{Memory};
    ghost use Rattle.journal.specs.declared.fault.JournalFault.TheVariants.{Disk};

    ghost from_gives = { λ _ wrapped. wrapped ≡ Disk Memory };

    fn from(_: AllocError) -> JournalFault {
        JournalFault::Disk(DiskFault::Memory)
    }
}
