//! Why an exchange stopped.

use std::alloc::{AllocError, AllocFailed};
use thiserror::Error;

/// Why the own set did not answer.
#[derive(Clone, Copy, Debug, PartialEq, Eq, Error)]
pub enum SetFault {
    /// An allocation failed.
    #[error("out of memory")]
    Memory,
    /// What keeps the set failed.
    #[error("the set failed")]
    Failed,
}

/// Why an exchange stopped before its end.
#[derive(Clone, Copy, Debug, PartialEq, Eq, Error)]
pub enum Stopped {
    /// The connection failed.
    #[error("the connection failed")]
    Broken,
    /// What the peer answered cannot be so.
    #[error("the peer's answer cannot be so")]
    Lied,
    /// The own set did not answer.
    #[error("{0}")]
    Own(SetFault),
    /// As many turns were made as the plan allows.
    #[error("too many requests")]
    TooMany,
    /// More came than there is room for.
    #[error("more came than there is room for")]
    TooMuch,
    /// An allocation failed.
    #[error("out of memory")]
    Memory,
}

impl From<AllocError> for Stopped {
    ghost use Rattle.std.specs.Prelude.{◌≡◌};
    ghost use Rattle.reconcile.specs.declared.stopped.Stopped.TheVariants.{Memory};

    ghost from_gives = { λ _ stopped. stopped ≡ Memory };

    fn from(_: AllocError) -> Stopped {
        Stopped::Memory
    }
}

impl<T: Drop> From<AllocFailed<T>> for Stopped {
    ghost use Rattle.std.specs.Prelude.{◌≡◌};
    ghost use Rattle.reconcile.specs.declared.stopped.Stopped.TheVariants.{Memory};

    ghost from_gives = { λ _ stopped. stopped ≡ Memory };

    fn from(_: AllocFailed<T>) -> Stopped {
        Stopped::Memory
    }
}

impl From<SetFault> for Stopped {
    ghost use Rattle.std.specs.Prelude.{◌≡◌};
    ghost use Rattle.reconcile.specs.declared.stopped.Stopped.TheVariants.{Own};

    ghost from_gives = { λ fault stopped. stopped ≡ Own fault };

    fn from(fault: SetFault) -> Stopped {
        Stopped::Own(fault)
    }
}

impl From<AllocError> for SetFault {
    ghost use Rattle.std.specs.Prelude.{◌≡◌};
    ghost use Rattle.reconcile.specs.declared.stopped.SetFault.TheVariants.{Memory};

    ghost from_gives = { λ _ fault. fault ≡ Memory };

    fn from(_: AllocError) -> SetFault {
        SetFault::Memory
    }
}

impl<T: Drop> From<AllocFailed<T>> for SetFault {
    ghost use Rattle.std.specs.Prelude.{◌≡◌};
    ghost use Rattle.reconcile.specs.declared.stopped.SetFault.TheVariants.{Memory};

    ghost from_gives = { λ _ fault. fault ≡ Memory };

    fn from(_: AllocFailed<T>) -> SetFault {
        SetFault::Memory
    }
}
