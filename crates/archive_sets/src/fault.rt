//! Why records were not all selected.

use archive_text::ArchiveFault;
use thiserror::Error;

/// Why the records of an archive were not all selected.
#[derive(Clone, Copy, Debug, PartialEq, Eq, Error)]
pub enum SelectFault {
    /// The input is no archive.
    #[error("{0}")]
    Archive(ArchiveFault),
    /// The reader failed.
    #[error("the reader failed")]
    Read,
    /// The reader was called `READER_CALLS` times without giving its end.
    #[error("the input has no end")]
    Endless,
    /// The writer failed after `sent` octets.
    #[error("the writer failed after {sent} octets")]
    Write { sent: u64 },
    /// The room could not be allocated.
    #[error("out of memory")]
    Memory,
}
