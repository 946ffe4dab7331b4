//! The folder of a copy that is being made.

ghost use Rattle.std.specs.Prelude.{◌≡◌, ◌≤◌, IfOk, IsErr, IsTrue, length};
ghost use Rattle.folder_disk.specs.Folders.{untold};

use disk::{Disk, DiskFault, FileName};
use folder_disk::{FileError, FolderDisk};
use std::alloc::{AllocError, Global};
use std::fs;

/// The file that stands in a copy from before its first file until all of it is there.
pub const UNFINISHED: &str = "backup.unfinished";

/// Whether a folder holds a copy that was not finished.
pub fn is_unfinished(rt: &HostRuntime, dir: &str) -> bool {
    match format!(in rt.alloc(); "{dir}/{UNFINISHED}") {
        Ok(path) => fs::symlink_metadata(rt, path.as_str()).is_ok(),
        Err(_) => false,
    }
}

/// The folder of a copy, without the file that says that it is not finished.
#[derive(Drop)]
pub struct CopyDisk {
    disk: FolderDisk<HostRuntime>,
    has_failed: bool,
}

// The name of that file.
fn mark(alloc: Global) -> Result<FileName, DiskFault> {
    match FileName::new(alloc, UNFINISHED.as_bytes()) {
        Ok(Some(name)) => Ok(name),
        Ok(None) => Err(DiskFault::Failed),
        Err(_) => Err(DiskFault::Memory),
    }
}

// All names but that one.
fn unmarked(alloc: Global, names: Vec<FileName>) -> Result<Vec<FileName>, AllocError> {
    let mut others = Vec::new(alloc);
    for name in names {
        if name.as_octets() != UNFINISHED.as_bytes() {
            others.push(name)?;
        }
    }
    Ok(others)
}

impl CopyDisk {
    /// A folder in which a copy is to be made.
    pub fn new(disk: FolderDisk<HostRuntime>) -> CopyDisk {
        CopyDisk {
            disk,
            has_failed: false,
        }
    }

    /// Why a call last failed, as the system told it, if one did.
    pub fn last_error(&self) -> Option<&FileError> {
        self.disk.last_error()
    }

    /// Marks a folder without files as a copy that is not finished. One that has files is left as it is.
    pub fn begin(&mut self, alloc: Global) -> Result<(), DiskFault> {
        if !self.disk.names(alloc)?.is_empty() {
            return Ok(());
        }
        self.disk.create(&mark(alloc)?)?;
        self.disk.sync_names()
    }

    /// Takes the mark away.
    pub fn finish(&mut self, alloc: Global) -> Result<(), DiskFault> {
        self.disk.remove(&mark(alloc)?)?;
        self.disk.sync_names()
    }

    // Notes whether a call failed.
    fn noted<T: Drop>(&mut self, answer: Result<T, DiskFault>) -> Result<T, DiskFault>
        ensures same { result ≡ answer }
        ensures stays { IsTrue self.old.has_failed → IsTrue self.new.has_failed }
        ensures failed { IsErr result → IsTrue self.new.has_failed }
    {
        if answer.is_err() {
            self.has_failed = true;
        }
        answer
    }
}

impl Disk for CopyDisk {
    ghost state = { λ _. untold };

    ghost tells = { λ _. ⊥ };

    ghost has_failed = { λ d. IsTrue d.has_failed };

    ghost syncs = { λ _. 0 };

    fn names(&mut self, alloc: Global) -> Result<Vec<FileName>, DiskFault> {
        let answer = match self.disk.names(alloc) {
            Ok(names) => unmarked(alloc, names).map_err(|_: AllocError| DiskFault::Memory),
            Err(fault) => Err(fault),
        };
        self.noted(answer)
    }

    fn read(&mut self, name: &FileName, at: u64, buf: &mut [u8]) -> Result<usize, DiskFault> {
        let answer = self.disk.read(name, at, buf);
        self.noted(answer)
    }

    fn create(&mut self, name: &FileName) -> Result<(), DiskFault> {
        let answer = self.disk.create(name);
        self.noted(answer)
    }

    fn append(&mut self, name: &FileName, octets: &[u8]) -> Result<(), DiskFault> {
        let answer = self.disk.append(name, octets);
        self.noted(answer)
    }

    fn overwrite(&mut self, name: &FileName, at: u64, octet: u8) -> Result<(), DiskFault> {
        let answer = self.disk.overwrite(name, at, octet);
        self.noted(answer)
    }

    fn cut(&mut self, name: &FileName, len: u64) -> Result<(), DiskFault> {
        let answer = self.disk.cut(name, len);
        self.noted(answer)
    }

    fn sync(&mut self, name: &FileName) -> Result<(), DiskFault> {
        let answer = self.disk.sync(name);
        self.noted(answer)
    }

    fn rename(&mut self, from: &FileName, to: &FileName) -> Result<(), DiskFault> {
        let answer = self.disk.rename(from, to);
        self.noted(answer)
    }

    fn remove(&mut self, name: &FileName) -> Result<(), DiskFault> {
        let answer = self.disk.remove(name);
        self.noted(answer)
    }

    fn sync_names(&mut self) -> Result<(), DiskFault> {
        let answer = self.disk.sync_names();
        self.noted(answer)
    }
}
