//! Why a folder was not read.

use archive_streams::{EntriesFault, InputFault};
use archive_text::ArchiveFault;
use disk::{DiskFault, FileName};
use record_store::JournalDamage;
use std::alloc::{AllocError, AllocFailed};
use thiserror::Error;

/// What is wrong with the octets of a file. Positions count octets from its start.
#[derive(Clone, Copy, Debug, PartialEq, Eq, Error)]
pub enum FileFault {
    /// A segment is no archive.
    #[error("{0}")]
    Archive(ArchiveFault),
    /// An entry of a segment is of another day; `at` is the position of its first digit.
    #[error("another day at {at}")]
    OtherDay { at: u64 },
    /// The SHA-256 of a segment is not the one in its name.
    #[error("another digest")]
    Digest,
    /// A journal is damaged.
    #[error("{0}")]
    Journal(JournalDamage),
}

/// Why a folder was not read.
#[derive(Debug, Drop, Error)]
pub enum ReadFault {
    /// The names of the folder could not be read.
    #[error("the folder: {fault}")]
    Folder { fault: DiskFault },
    /// A file could not be opened.
    #[error("a file: {fault}")]
    Open { name: FileName, fault: DiskFault },
    /// A file is damaged.
    #[error("a file: {fault}")]
    Damaged { name: FileName, fault: FileFault },
    /// Reading a file failed.
    #[error("a file: {fault}")]
    Read { name: FileName, fault: InputFault },
    /// Files came and went every time the names were listed.
    #[error("files came and went while they were listed")]
    Gone,
    /// There are more days than `DAYS_MAX`.
    #[error("too many days")]
    TooManyDays,
    /// The writer failed.
    #[error("the writer failed")]
    Write,
    /// An allocation failed.
    #[error("out of memory")]
    Memory,
}

impl From<AllocError> for ReadFault {
    ghost use Rattle.std.specs.Prelude.{◌≡◌};
    ghost use Rattle.store_reading.specs.declared.fault.ReadFault.TheVariants.{Memory};

    ghost from_gives = { λ _ fault. fault ≡ Memory };

    fn from(_: AllocError) -> ReadFault {
        ReadFault::Memory
    }
}

impl<T: Drop> From<AllocFailed<T>> for ReadFault {
    ghost use Rattle.std.specs.Prelude.{◌≡◌};
    ghost use Rattle.store_reading.specs.declared.fault.ReadFault.TheVariants.{Memory};

    ghost from_gives = { λ _ fault. fault ≡ Memory };

    fn from(_: AllocFailed<T>) -> ReadFault {
        ReadFault::Memory
    }
}

/// Why a file is not what it should be, or could not be read.
#[derive(Clone, Copy, Debug, PartialEq, Eq)]
pub enum CheckFault {
    /// It is damaged.
    Damaged(FileFault),
    /// Reading it failed, or it gave no end.
    Input(InputFault),
    /// An allocation failed.
    Memory,
}

impl From<AllocError> for CheckFault {
    ghost use Rattle.std.specs.Prelude.{◌≡◌};
    ghost use Rattle.store_reading.specs.declared.fault.CheckFault.TheVariants.{Memory};

    ghost from_gives = { λ _ fault. fault ≡ Memory };

    fn from(_: AllocError) -> CheckFault {
        CheckFault::Memory
    }
}

impl From<EntriesFault> for CheckFault {
    ghost use Rattle.std.specs.Prelude.{◌≡◌};
    ghost use Rattle.store_reading.specs.Faults.{check_fault_of};

    ghost from_gives = { λ fault wrapped. wrapped ≡ check_fault_of fault };

    fn from(fault: EntriesFault) -> CheckFault {
        match fault {
            EntriesFault::Archive(fault) => CheckFault::Damaged(FileFault::Archive(fault)),
            EntriesFault::Input(fault) => CheckFault::Input(fault),
        }
    }
}

impl CheckFault {
    ghost use Rattle.store_reading.specs.Faults.{IsFaultAt};

    /// The fault for the file with this name.
    pub fn of(self, name: FileName) -> ReadFault
        ensures { IsFaultAt name self result }
    {
        match self {
            CheckFault::Damaged(fault) => ReadFault::Damaged { name, fault },
            CheckFault::Input(fault) => ReadFault::Read { name, fault },
            CheckFault::Memory => ReadFault::Memory,
        }
    }
}
