//! Why a store was not compacted.
ghost use Rattle.store_upkeep.specs.Faults.{IsOrNoMemory, check_told};

use disk::{DiskFault, FileName};
use std::alloc::{AllocError, AllocFailed, Global};
use store_reading::{CheckFault, FileFault, ReadFault};
use thiserror::Error;

/// Why the segments of a store were not all joined, and at which file.
#[derive(Debug, Drop, Error)]
pub enum CompactFault {
    /// The names of the folder or a file could not be read, or memory ran out.
    #[error("{0}")]
    Read(ReadFault),
    /// A segment is damaged: nothing of its day is removed.
    #[error("a file: {damage}")]
    Damaged { name: FileName, damage: FileFault },
    /// A file could not be written, removed or given its name.
    #[error("a file: {fault}")]
    Write { name: FileName, fault: DiskFault },
    /// A file's name cannot begin with the day.
    #[error("no name of a day")]
    Day,
}

impl From<AllocError> for CompactFault {
    ghost use Rattle.std.specs.Prelude.{⊤};

    ghost from_gives = { λ _ _. ⊤ };

    fn from(_: AllocError) -> CompactFault {
        CompactFault::Read(ReadFault::Memory)
    }
}

impl<T: Drop> From<AllocFailed<T>> for CompactFault {
    ghost use Rattle.std.specs.Prelude.{⊤};

    ghost from_gives = { λ _ _. ⊤ };

    fn from(_: AllocFailed<T>) -> CompactFault {
        CompactFault::Read(ReadFault::Memory)
    }
}

impl From<ReadFault> for CompactFault {
    ghost use Rattle.std.specs.Prelude.{◌≡◌};
    ghost use Rattle.store_upkeep.specs.Faults.{read_told};

    ghost from_gives = { λ fault wrapped. wrapped ≡ read_told fault };

    fn from(fault: ReadFault) -> CompactFault {
        match fault {
            ReadFault::Damaged { name, fault } => CompactFault::Damaged {
                name,
                damage: fault,
            },
            fault => CompactFault::Read(fault),
        }
    }
}

/// The fault of a file that could not be written, removed or given its name.
pub fn write_fault(alloc: Global, name: &FileName, fault: DiskFault) -> CompactFault
    ensures { IsOrNoMemory (CompactFault.Write name.now fault) result }
{
    match name.copy(alloc) {
        Ok(name) => CompactFault::Write { name, fault },
        Err(_) => CompactFault::Read(ReadFault::Memory),
    }
}

/// The fault of a file that could not be opened.
pub fn open_fault(alloc: Global, name: &FileName, fault: DiskFault) -> CompactFault
    ensures { IsOrNoMemory (CompactFault.Read (ReadFault.Open name.now fault)) result }
{
    match name.copy(alloc) {
        Ok(name) => CompactFault::Read(ReadFault::Open { name, fault }),
        Err(_) => CompactFault::Read(ReadFault::Memory),
    }
}

/// The fault of a file that was checked.
pub fn check_fault(alloc: Global, name: &FileName, fault: CheckFault) -> CompactFault
    ensures { IsOrNoMemory (check_told name.now fault) result }
{
    let Ok(name) = name.copy(alloc) else {
        return CompactFault::Read(ReadFault::Memory);
    };
    match fault {
        CheckFault::Damaged(damage) => CompactFault::Damaged { name, damage },
        CheckFault::Input(fault) => CompactFault::Read(ReadFault::Read { name, fault }),
        CheckFault::Memory => CompactFault::Read(ReadFault::Memory),
    }
}
