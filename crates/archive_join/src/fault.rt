//! Why archives were not joined.

use archive_text::ArchiveFault;
use thiserror::Error;

/// Why archives were not all joined. Inputs are numbered from 0, in the order in which they are
/// given.
#[derive(Clone, Copy, Debug, PartialEq, Eq, Error)]
pub enum JoinFault {
    /// An input is no archive.
    #[error("input {input}: {fault}")]
    Archive { input: usize, fault: ArchiveFault },
    /// A reader failed.
    #[error("the reader of input {input} failed")]
    Read { input: usize },
    /// A reader was called `READER_CALLS` times without giving its end.
    #[error("input {input} has no end")]
    Endless { input: usize },
    /// The writer failed after `sent` octets.
    #[error("the writer failed after {sent} octets")]
    Write { sent: u64 },
    /// The room could not be allocated.
    #[error("out of memory")]
    Memory,
}
