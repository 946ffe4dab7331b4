//! Why a server's sockets were not opened.

use std::alloc::AllocError;
use std::io;
use thiserror::Error;

/// Why a server's sockets were not opened.
#[derive(Debug, Drop, Error)]
pub enum OpenFault {
    /// One of the listeners cannot be opened: the one at this place in the list, from 0.
    #[error("listener {listener}: {cause}")]
    Listener { listener: usize, cause: io::Error },
    /// Standard input cannot be waited for, as a file or /dev/null.
    #[error("cannot wait for standard input: {0}")]
    Input(io::Error),
    /// The system gives no descriptor to wait on, or no time.
    #[error("{0}")]
    System(io::Error),
    /// An allocation failed.
    #[error("out of memory")]
    Memory,
}

impl From<AllocError> for OpenFault {
    ghost use Rattle.std.specs.Prelude.{◌≡◌};
    ghost use Rattle.socket_source.specs.declared.open_fault.OpenFault.TheVariants.{Memory};

    ghost from_gives = { λ _ fault. fault ≡ Memory };

    fn from(_: AllocError) -> OpenFault {
        OpenFault::Memory
    }
}
