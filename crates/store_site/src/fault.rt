//! Why the records of a store were not read.

use reconcile::Stopped;
use std::alloc::AllocError;
use store_reading::ReadFault;
use thiserror::Error;

/// Why the records of a store were not read into memory.
#[derive(Debug, Drop, Error)]
pub enum SetReadFault {
    /// The folder was not read.
    #[error("{0}")]
    Read(ReadFault),
    /// What was read is no archive. A folder that tells what its files have never gives this.
    #[error("what was read is no archive")]
    NoArchive,
    /// The archive of the records has more octets than there is room for.
    #[error("more records than there is room for")]
    TooMuch,
    /// An allocation failed.
    #[error("out of memory")]
    Memory,
}

impl From<AllocError> for SetReadFault {
    ghost use Rattle.std.specs.Prelude.{◌≡◌};
    ghost use Rattle.store_site.specs.declared.fault.SetReadFault.TheVariants.{Memory};

    ghost from_gives = { λ _ fault. fault ≡ Memory };

    fn from(_: AllocError) -> SetReadFault {
        SetReadFault::Memory
    }
}
