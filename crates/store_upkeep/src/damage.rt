//! Files that are damaged.

use disk::FileName;
use store_reading::FileFault;

/// A file that is damaged.
#[derive(Debug, Drop)]
pub struct DamagedFile {
    /// Its name in the folder.
    pub name: FileName,
    /// What is wrong with it.
    pub damage: FileFault,
}
