//! What becomes of the files of a store.

use disk::FileName;
use store_reading::FileFault;
use store_upkeep::DamagedFile;

/// A file that was copied.
#[derive(Debug, Drop)]
pub struct CopiedFile {
    /// Its name.
    pub name: FileName,
    /// How many octets the copy has; `u64::MAX` stands for more too.
    pub octets: u64,
}

/// What a backup has done.
#[derive(Debug, Drop)]
pub struct Backup {
    /// The files that were copied.
    pub copied: Vec<CopiedFile>,
    /// The files of the store that are damaged. They were not copied.
    pub damaged: Vec<DamagedFile>,
}

/// What became of a file that counts.
#[derive(Clone, Copy)]
pub(crate) enum Outcome {
    /// It was copied, and has so many octets.
    Copied { octets: u64 },
    /// It is damaged, and was not copied.
    Damaged(FileFault),
    /// It was gone when it was to be opened: what it held is elsewhere.
    Gone,
}
