//! Why sites did not agree.

use reconcile::Stopped;
use site_pipe::PipeFault;
use std::alloc::AllocError;
use store_addition::AddFault;
use store_site::SetReadFault;

/// Why an exchange did not come to its end.
#[derive(Debug, Drop)]
pub(crate) enum SiteFault {
    /// The own store was not read.
    Set(SetReadFault),
    /// The pipe, or what the other site says.
    Pipe(PipeFault),
    /// The exchange stopped, though the pipe did not fail.
    Stopped(Stopped),
    /// Records were not added to the own store.
    Add(AddFault),
    /// An allocation failed.
    Memory,
}

impl From<PipeFault> for SiteFault {
    ghost use Rattle.std.specs.Prelude.{◌≡◌};
    ghost use Rattle.site_engine.specs.declared.fault.SiteFault.TheVariants.{Pipe};

    ghost from_gives = { λ fault wrapped. wrapped ≡ Pipe fault };

    fn from(fault: PipeFault) -> SiteFault {
        SiteFault::Pipe(fault)
    }
}

impl From<SetReadFault> for SiteFault {
    ghost use Rattle.std.specs.Prelude.{◌≡◌};
    ghost use Rattle.site_engine.specs.declared.fault.SiteFault.TheVariants.{Set};

    ghost from_gives = { λ fault wrapped. wrapped ≡ Set fault };

    fn from(fault: SetReadFault) -> SiteFault {
        SiteFault::Set(fault)
    }
}

impl From<AllocError> for SiteFault {
    ghost use Rattle.std.specs.Prelude.{◌≡◌};
    ghost use Rattle.site_engine.specs.declared.fault.SiteFault.TheVariants.{Memory};

    ghost from_gives = { λ _ fault. fault ≡ Memory };

    fn from(_: AllocError) -> SiteFault {
        SiteFault::Memory
    }
}

impl SiteFault {
    /// The same, but the disk's own fault where that is known.
    pub(crate) fn of_store(self, disk: Option<AddFault>) -> SiteFault {
        match disk {
            Some(fault) => SiteFault::Add(fault),
            None => self,
        }
    }
}

/// Why an exchange stopped: the pipe's own fault, where it has one.
pub(crate) fn cause_of(stopped: Stopped, pipe: Option<PipeFault>) -> SiteFault {
    match pipe {
        Some(fault) => SiteFault::Pipe(fault),
        None => SiteFault::Stopped(stopped),
    }
}
