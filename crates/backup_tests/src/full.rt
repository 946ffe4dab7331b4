//! A disk that has room for so much.

use disk::{Disk, DiskFault, FileName};
use std::alloc::Global;

/// A disk over another one, to whose files at most so many octets are written in all.
#[derive(Drop)]
pub(crate) struct FullDisk<D: Disk> {
    disk: D,
    room: usize,
}

impl<D: Disk> FullDisk<D> {
    pub(crate) fn new(disk: D, room: usize) -> FullDisk<D> {
        FullDisk { disk, room }
    }
}

impl<D: Disk> Disk for FullDisk<D> {
    ghost use Rattle.folder_disk.specs.Folders.{untold};

    ghost state = { λ _. untold };

    ghost tells = { λ _. ⊥ };

    ghost has_failed = { λ _. Unit {0} };

    ghost syncs = { λ _. 0 };

    fn names(&mut self, alloc: Global) -> Result<Vec<FileName>, DiskFault> {
        self.disk.names(alloc)
    }

    fn read(&mut self, name: &FileName, at: u64, buf: &mut [u8]) -> Result<usize, DiskFault> {
        self.disk.read(name, at, buf)
    }

    fn create(&mut self, name: &FileName) -> Result<(), DiskFault> {
        self.disk.create(name)
    }

    fn append(&mut self, name: &FileName, octets: &[u8]) -> Result<(), DiskFault> {
        if self.room < octets.len() {
            return Err(DiskFault::Full);
        }
        self.room -= octets.len();
        self.disk.append(name, octets)
    }

    fn overwrite(&mut self, name: &FileName, at: u64, octet: u8) -> Result<(), DiskFault> {
        self.disk.overwrite(name, at, octet)
    }

    fn cut(&mut self, name: &FileName, len: u64) -> Result<(), DiskFault> {
        self.disk.cut(name, len)
    }

    fn sync(&mut self, name: &FileName) -> Result<(), DiskFault> {
        self.disk.sync(name)
    }

    fn rename(&mut self, from: &FileName, to: &FileName) -> Result<(), DiskFault> {
        self.disk.rename(from, to)
    }

    fn remove(&mut self, name: &FileName) -> Result<(), DiskFault> {
        self.disk.remove(name)
    }

    fn sync_names(&mut self) -> Result<(), DiskFault> {
        self.disk.sync_names()
    }
}
