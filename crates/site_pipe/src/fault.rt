//! Why an exchange over a pipe ended.

use reconcile::{SetFault, Stopped};
use std::alloc::{AllocError, AllocFailed};
use thiserror::Error;

/// Why an exchange over a pipe ended before its end.
#[derive(Clone, Copy, Debug, PartialEq, Eq, Error)]
pub enum PipeFault {
    /// The input failed.
    #[error("the peer cannot be read from")]
    Input,
    /// The output failed.
    #[error("the peer cannot be written to")]
    Output,
    /// The input ended within the exchange.
    #[error("the peer ended the exchange")]
    Ended,
    /// The peer says that it failed.
    #[error("the peer failed")]
    Failed,
    /// The peer says that it takes no records.
    #[error("the peer takes no records")]
    Refused,
    /// The peer does not speak this version.
    #[error("the peer does not speak version 1 of the exchange")]
    Version,
    /// What the peer says cannot be so.
    #[error("the peer's message cannot be so")]
    Lied,
    /// More came than there is room for.
    #[error("more came than there is room for")]
    TooMuch,
    /// The own set did not answer.
    #[error("{0}")]
    Own(SetFault),
    /// An allocation failed.
    #[error("out of memory")]
    Memory,
}

impl PipeFault {
    /// What an exchange stops with.
    pub(crate) fn stopped(self) -> Stopped {
        match self {
            PipeFault::Lied => Stopped::Lied,
            PipeFault::TooMuch => Stopped::TooMuch,
            PipeFault::Memory => Stopped::Memory,
            PipeFault::Own(fault) => Stopped::Own(fault),
            _ => Stopped::Broken,
        }
    }

    /// Why records were not read.
    pub(crate) fn of_reading(stopped: Stopped) -> PipeFault {
        match stopped {
            Stopped::Memory => PipeFault::Memory,
            _ => PipeFault::Lied,
        }
    }
}

impl From<AllocError> for PipeFault {
    ghost use Rattle.std.specs.Prelude.{◌≡◌};
    ghost use Rattle.site_pipe.specs.declared.fault.PipeFault.TheVariants.{Memory};

    ghost from_gives = { λ _ fault. fault ≡ Memory };

    fn from(_: AllocError) -> PipeFault {
        PipeFault::Memory
    }
}

impl<T: Drop> From<AllocFailed<T>> for PipeFault {
    ghost use Rattle.std.specs.Prelude.{◌≡◌};
    ghost use Rattle.site_pipe.specs.declared.fault.PipeFault.TheVariants.{Memory};

    ghost from_gives = { λ _ fault. fault ≡ Memory };

    fn from(_: AllocFailed<T>) -> PipeFault {
        PipeFault::Memory
    }
}

impl From<SetFault> for PipeFault {
    ghost use Rattle.std.specs.Prelude.{◌≡◌};
    ghost use Rattle.site_pipe.specs.declared.fault.PipeFault.TheVariants.{Own};

    ghost from_gives = { λ fault own. own ≡ Own fault };

    fn from(fault: SetFault) -> PipeFault {
        PipeFault::Own(fault)
    }
}
