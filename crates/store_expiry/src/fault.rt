//! Why what is expired was not all removed.

use disk::FileName;
use std::alloc::AllocError;
use store_reading::{FileFault, ReadFault};
use store_upkeep::CompactFault;
use thiserror::Error;

/// Why what is expired was not all removed.
#[derive(Debug, Drop, Error)]
pub enum ExpireFault {
    /// A segment is damaged. It stays.
    #[error("a file: {damage}")]
    Damaged { name: FileName, damage: FileFault },
    /// A file could not be read, written, removed or given its name, is another than it was when it was
    /// read before, or memory ran out.
    #[error("{0}")]
    Store(CompactFault),
    /// What is left of a segment has the SHA-256 of a file that has other records. Both stay.
    #[error("a file with the name of what is left has other records")]
    Taken { name: FileName },
    /// The output failed.
    #[error("the output failed")]
    Output,
}

impl From<CompactFault> for ExpireFault {
    ghost use Rattle.std.specs.Prelude.{◌≡◌};
    ghost use Rattle.store_expiry.specs.declared.fault.ExpireFault.TheVariants.{Store};

    ghost from_gives = { λ fault wrapped. wrapped ≡ Store fault };

    fn from(fault: CompactFault) -> ExpireFault {
        ExpireFault::Store(fault)
    }
}

impl From<AllocError> for ExpireFault {
    ghost use Rattle.std.specs.Prelude.{◌≡◌};
    ghost use Rattle.store_reading.specs.declared.fault.ReadFault.TheVariants.{Memory};
    ghost use Rattle.store_upkeep.specs.declared.compact_fault.CompactFault.TheVariants.{Read};
    ghost use Rattle.store_expiry.specs.declared.fault.ExpireFault.TheVariants.{Store};

    ghost from_gives = { λ _ fault. fault ≡ Store (Read Memory) };

    fn from(_: AllocError) -> ExpireFault {
        ExpireFault::Store(CompactFault::Read(ReadFault::Memory))
    }
}
