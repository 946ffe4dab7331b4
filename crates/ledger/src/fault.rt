//! Why a ledger is not read.

use octet_devices::DeviceFault;
use std::alloc::AllocError;
use thiserror::Error;

/// Why a ledger is not read.
#[derive(Clone, Copy, Debug, PartialEq, Eq, Error)]
pub enum LedgerFault {
    /// What begins at this octet is no line, or does not continue the chain.
    #[error("the chain breaks at {at}")]
    Broken { at: u64 },
    /// The input failed.
    #[error("the reader failed")]
    Input(DeviceFault),
    /// An allocation failed.
    #[error("out of memory")]
    Memory,
}

impl From<AllocError> for LedgerFault {
    ghost use Rattle.std.specs.Prelude.{◌≡◌};
    ghost use Rattle.ledger.specs.declared.fault.LedgerFault.TheVariants.{Memory};

    ghost from_gives = { λ _ fault. fault ≡ Memory };

    fn from(_: AllocError) -> LedgerFault {
        LedgerFault::Memory
    }
}
