//! Why archives were not joined.

use archive_text::ArchiveFault;
use thiserror::Error;

/// Why no octets were read.
#[derive(Clone, Copy, Debug, PartialEq, Eq, Error)]
pub enum InputFault {
    /// The reader failed.
    #[error("the reader failed")]
    Device,
    /// It was called `READER_CALLS` times without giving its end.
    #[error("the input has no end")]
    Endless,
}

/// Why no entry was read.
#[derive(Clone, Copy, Debug, PartialEq, Eq, Error)]
pub enum SideFault {
    /// What follows is no entry of an archive.
    #[error("{0}")]
    Archive(ArchiveFault),
    /// No octets were read.
    #[error("{0}")]
    Input(InputFault),
}

/// One of two archives.
#[derive(Clone, Copy, Debug, PartialEq, Eq)]
pub enum Side {
    /// The left one.
    Left,
    /// The right one.
    Right,
}

/// Why two archives were not joined.
#[derive(Clone, Copy, Debug, PartialEq, Eq, Error)]
pub enum MergeFault {
    /// The left one is no archive.
    #[error("left: {0}")]
    Left(ArchiveFault),
    /// The right one is no archive.
    #[error("right: {0}")]
    Right(ArchiveFault),
    /// A reader failed.
    #[error("a reader failed")]
    Read(Side),
    /// A reader was called `READER_CALLS` times without giving its end.
    #[error("an input has no end")]
    Endless(Side),
    /// The writer failed after `sent` octets.
    #[error("the writer failed after {sent} octets")]
    Write { sent: u64 },
    /// The room could not be allocated.
    #[error("out of memory")]
    Memory,
}
