use disk::DiskFault;
use record_store::{JournalDamage, KeepFault, StoreFault};
use std::alloc::AllocError;
use thiserror::Error;

/// Why a store was not opened.
#[derive(Clone, Copy, Debug, PartialEq, Eq, Error)]
pub enum OpenFault {
    /// A journal of the store, or its folder, failed.
    #[error("{0}")]
    Store(StoreFault),
    /// The journal with this number is damaged; nothing was changed.
    #[error("journal.{number}: {fault}")]
    Damaged { number: u64, fault: JournalDamage },
    /// An allocation failed.
    #[error("out of memory")]
    Memory,
}

impl From<StoreFault> for OpenFault {
    ghost use Rattle.std.specs.Prelude.{◌≡◌};
    ghost use Rattle.durable_store.specs.declared.fault.OpenFault.TheVariants.{Store};

    ghost from_gives = { λ fault wrapped. wrapped ≡ Store fault };

    fn from(fault: StoreFault) -> OpenFault {
        OpenFault::Store(fault)
    }
}

impl From<AllocError> for OpenFault {
    ghost use Rattle.std.specs.Prelude.{◌≡◌};
    ghost use Rattle.durable_store.specs.declared.fault.OpenFault.TheVariants.{Memory};

    ghost from_gives = { λ _ fault. fault ≡ Memory };

    fn from(_: AllocError) -> OpenFault {
        OpenFault::Memory
    }
}

/// Why a checkpoint was not made.
#[derive(Debug, Drop, Error)]
pub enum CheckpointFault {
    /// The store has to be opened again, or its journal or its folder failed.
    #[error("{0}")]
    Store(StoreFault),
    /// A segment was not kept.
    #[error("a segment: {0}")]
    Segment(KeepFault),
}

impl From<StoreFault> for CheckpointFault {
    ghost use Rattle.std.specs.Prelude.{◌≡◌};
    ghost use Rattle.durable_store.specs.declared.fault.CheckpointFault.TheVariants.{Store};

    ghost from_gives = { λ fault wrapped. wrapped ≡ Store fault };

    fn from(fault: StoreFault) -> CheckpointFault {
        CheckpointFault::Store(fault)
    }
}

impl CheckpointFault {
    ghost use Rattle.std.specs.Prelude.{◌↔◌, IsTrue};
    ghost use Rattle.durable_store.specs.Causes.{TellsFull};

    /// Whether the disk is full, so that the store may be opened again once it has room.
    pub fn is_full(&self) -> bool
        ensures { IsTrue result ↔ TellsFull self.now }
    {
        match self {
            CheckpointFault::Store(fault) => fault.is_full(),
            CheckpointFault::Segment(KeepFault::Disk(fault)) => *fault == DiskFault::Full,
            CheckpointFault::Segment(_) => false,
        }
    }
}
