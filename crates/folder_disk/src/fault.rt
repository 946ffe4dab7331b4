//! What the errors of the system mean to a disk.
ghost use Rattle.folder_disk.specs.Faults.{IsFault};

use disk::{DiskFault, FileName};
use std::io::{Error, ErrorKind};

/// An error that the system reported, and for which file.
#[derive(Debug, Drop)]
pub struct FileError {
    /// The file's name in the folder; None if the error is of the folder itself, or if there was no
    /// memory for the name.
    pub name: Option<FileName>,
    /// What the system reported.
    pub error: Error,
}

/// What a call of the system is about.
#[derive(Clone, Copy, Debug, PartialEq, Eq)]
pub(crate) enum Target {
    /// A file that has to exist.
    File,
    /// A name that no file may have.
    FreeName,
    /// The folder itself.
    Folder,
}

/// What an error of this kind means to a disk.
pub(crate) fn fault_of(target: Target, kind: ErrorKind) -> DiskFault
    ensures { IsFault target kind result }
{
    match (target, kind) {
        (Target::File, ErrorKind::NotFound) => DiskFault::Missing,
        (Target::FreeName, ErrorKind::AlreadyExists) => DiskFault::Exists,
        (_, ErrorKind::StorageFull | ErrorKind::QuotaExceeded) => DiskFault::Full,
        (_, ErrorKind::OutOfMemory) => DiskFault::Memory,
        _ => DiskFault::Failed,
    }
}
