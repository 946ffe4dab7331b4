//! Why a set was not kept or written.

use thiserror::Error;

/// Why a record was not added to a set, or a set was not written.
#[derive(Clone, Copy, Debug, PartialEq, Eq, Error)]
pub enum SpillFault {
    /// The canonical form of the record has more than `ENTRY_MAX` octets.
    #[error("the canonical record is too long for an archive")]
    TooLong,
    /// A run could not be made or written, or is not read back as it was written.
    #[error("the spill failed")]
    Spill,
    /// The output failed.
    #[error("the writer failed")]
    Output,
    /// An allocation failed.
    #[error("out of memory")]
    Memory,
}
