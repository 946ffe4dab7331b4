//! Why a store was not copied.

use disk::{DiskFault, FileName};
use std::alloc::{AllocError, AllocFailed};
use store_reading::ReadFault;
use thiserror::Error;

/// Why a store was not copied.
#[derive(Debug, Drop, Error)]
pub enum BackupFault {
    /// The folder of the copy has files.
    #[error("the folder has files")]
    NotEmpty,
    /// A file or a folder failed, or memory ran out.
    #[error("{0}")]
    Copy(CopyFault),
}

/// Why not all files of a store were copied.
#[derive(Debug, Drop, Error)]
pub enum CopyFault {
    /// The names of the store or a file of it could not be read, files came and went each time that they
    /// were listed, or memory ran out.
    #[error("{0}")]
    Read(ReadFault),
    /// The names of the copy's folder could not be read, or not be brought to the disk.
    #[error("the folder of the copy: {fault}")]
    Folder { fault: DiskFault },
    /// A file of the copy could not be written or given its name.
    #[error("a file of the copy: {fault}")]
    Write { name: FileName, fault: DiskFault },
}

impl From<CopyFault> for BackupFault {
    ghost use Rattle.std.specs.Prelude.{◌≡◌};
    ghost use Rattle.store_backup.specs.declared.fault.BackupFault.TheVariants.{Copy};

    ghost from_gives = { λ fault wrapped. wrapped ≡ Copy fault };

    fn from(fault: CopyFault) -> BackupFault {
        BackupFault::Copy(fault)
    }
}

impl From<AllocError> for BackupFault {
    ghost use Rattle.std.specs.Prelude.{◌≡◌};
    ghost use Rattle.store_reading.specs.declared.fault.ReadFault.TheVariants.{Memory};
    ghost use Rattle.store_backup.specs.declared.fault.BackupFault.TheVariants.{Copy};
    ghost use Rattle.store_backup.specs.declared.fault.CopyFault.TheVariants.{Read};

    ghost from_gives = { λ _ fault. fault ≡ Copy (Read Memory) };

    fn from(_: AllocError) -> BackupFault {
        BackupFault::Copy(CopyFault::Read(ReadFault::Memory))
    }
}

impl From<AllocError> for CopyFault {
    ghost use Rattle.std.specs.Prelude.{◌≡◌};
    ghost use Rattle.store_reading.specs.declared.fault.ReadFault.TheVariants.{Memory};
    ghost use Rattle.store_backup.specs.declared.fault.CopyFault.TheVariants.{Read};

    ghost from_gives = { λ _ fault. fault ≡ Read Memory };

    fn from(_: AllocError) -> CopyFault {
        CopyFault::Read(ReadFault::Memory)
    }
}

impl<T: Drop> From<AllocFailed<T>> for CopyFault {
    ghost use Rattle.std.specs.Prelude.{◌≡◌};
    ghost use Rattle.store_reading.specs.declared.fault.ReadFault.TheVariants.{Memory};
    ghost use Rattle.store_backup.specs.declared.fault.CopyFault.TheVariants.{Read};

    ghost from_gives = { λ _ fault. fault ≡ Read Memory };

    fn from(_: AllocFailed<T>) -> CopyFault {
        CopyFault::Read(ReadFault::Memory)
    }
}

impl From<ReadFault> for CopyFault {
    ghost use Rattle.std.specs.Prelude.{◌≡◌};
    ghost use Rattle.store_backup.specs.declared.fault.CopyFault.TheVariants.{Read};

    ghost from_gives = { λ fault wrapped. wrapped ≡ Read fault };

    fn from(fault: ReadFault) -> CopyFault {
        CopyFault::Read(fault)
    }
}
