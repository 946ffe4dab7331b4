use crate::addition::Addition;
use archive_streams::EntriesFault;
use record_store::KeepFault;
use std::alloc::AllocError;
use thiserror::Error;

/// Why an archive was not added whole.
#[derive(Debug, Drop, Error)]
pub enum AddFault {
    /// No further entry was read: the input is no archive, or it failed, or it gave no end.
    #[error("{0}")]
    Input(EntriesFault),
    /// A segment was not kept: the disk's fault, or a damaged file under its name.
    #[error("a segment: {0}")]
    Segment(KeepFault),
    /// An allocation failed.
    #[error("out of memory")]
    Memory,
}

/// Why an archive was not added whole, and how much of it is on the disk.
#[derive(Debug, Drop)]
pub struct Interrupted {
    /// How much of it is.
    pub added: Addition,
    /// Why no more of it is.
    pub fault: AddFault,
}

impl From<EntriesFault> for AddFault {
    ghost use Rattle.std.specs.Prelude.{◌≡◌};
    ghost use Rattle.store_addition.specs.declared.fault.AddFault.TheVariants.{Input};

    ghost from_gives = { λ fault wrapped. wrapped ≡ Input fault };

    fn from(fault: EntriesFault) -> AddFault {
        AddFault::Input(fault)
    }
}

impl From<KeepFault> for AddFault {
    ghost use Rattle.std.specs.Prelude.{◌≡◌};
    ghost use Rattle.store_addition.specs.declared.fault.AddFault.TheVariants.{Segment};

    ghost from_gives = { λ fault wrapped. wrapped ≡ Segment fault };

    fn from(fault: KeepFault) -> AddFault {
        AddFault::Segment(fault)
    }
}

impl From<AllocError> for AddFault {
    ghost use Rattle.std.specs.Prelude.{◌≡◌};
    ghost use Rattle.store_addition.specs.declared.fault.AddFault.TheVariants.{Memory};

    ghost from_gives = { λ _ fault. fault ≡ Memory };

    fn from(_: AllocError) -> AddFault {
        AddFault::Memory
    }
}
