use archive_text::EntryFault;
use disk::DiskFault;
use journal::JournalFault;
use std::alloc::AllocError;
use thiserror::Error;

/// Why a store did not do what was asked of it, and at which file.
#[derive(Clone, Copy, Debug, PartialEq, Eq, Error)]
pub enum StoreFault {
    /// A call has failed before, so what is on the disk is not known. The store has to be opened
    /// again.
    #[error("the store has to be opened again")]
    Broken,
    /// The journal with this number.
    #[error("journal.{number}: {fault}")]
    Journal { number: u64, fault: JournalFault },
    /// The names in the folder.
    #[error("the folder: {fault}")]
    Folder { fault: DiskFault },
    /// The journal with this number is to be followed by another one, and there is no greater number.
    #[error("journal.{number}: no journal has a greater number")]
    LastNumber { number: u64 },
    /// An allocation failed.
    #[error("out of memory")]
    Memory,
}

impl From<AllocError> for StoreFault {
    ghost use Rattle.std.specs.Prelude.{◌≡◌};
    ghost use Rattle.record_store.specs.declared.fault.StoreFault.TheVariants.{Memory};

    ghost from_gives = { λ _ fault. fault ≡ Memory };

    fn from(_: AllocError) -> StoreFault {
        StoreFault::Memory
    }
}

impl StoreFault {
    ghost use Rattle.std.specs.Prelude.{◌↔◌, IsTrue};
    ghost use Rattle.record_store.specs.Causes.{TellsFull};

    /// Whether the disk is full, so that the store may be opened again once it has room.
    pub fn is_full(&self) -> bool
        ensures { IsTrue result ↔ TellsFull self.now }
    {
        match self {
            StoreFault::Journal { number: _, fault } => *fault
                == JournalFault::Disk(DiskFault::Full),
            StoreFault::Folder { fault } => *fault == DiskFault::Full,
            StoreFault::Broken | StoreFault::LastNumber { .. } | StoreFault::Memory => false,
        }
    }
}

/// Why octets were not added to a batch. `Broken` comes before `TooLong`, and that before `Entry`.
#[derive(Clone, Copy, Debug, PartialEq, Eq)]
pub enum AppendFault {
    /// They are not the canonical octets of a record.
    Entry(EntryFault),
    /// They are more than an entry of an archive may have (`ENTRY_MAX`).
    TooLong,
    /// A call has failed before: the store has to be opened again.
    Broken,
    /// An allocation failed.
    Memory,
}
