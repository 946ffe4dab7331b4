//! A disk that finds no room at some syncs.
ghost use Rattle.std.specs.Prelude.{◌≡◌, ◌⊎◌, IsErr, IsErrOf};

use disk::{Disk, DiskFault, FileName};
use std::alloc::Global;

/// A disk over another one. So many syncs, of files and of names, are passed on; so many of those behind them find
/// no room, and change nothing; all others are passed on again.
#[derive(Drop)]
pub(crate) struct CrampedDisk<D: Disk> {
    disk: D,
    before: u64,
    full: u64,
}

impl<D: Disk> CrampedDisk<D> {
    /// A disk on which the first `before` syncs are passed on to this one, and `full` syncs find no room then.
    pub(crate) fn new(disk: D, before: u64, full: u64) -> CrampedDisk<D> {
        CrampedDisk { disk, before, full }
    }

    /// The disk underneath.
    pub(crate) fn into_inner(self) -> D {
        let CrampedDisk {
            disk,
            before: _,
            full: _,
        } = self;
        disk
    }
}

// takes a sync from those that are passed on first, or from those that find no room
fn take_room(before: &mut u64, full: &mut u64) -> Result<(), DiskFault>
    ensures full { IsErr result → IsErrOf result DiskFault.Full }
    ensures behind { IsErr result → before.old ≡ 0 }
    ensures stays { before.old ≡ 0 → before.new ≡ 0 }
{
    if *before > 0 {
        *before -= 1;
        return Ok(());
    }
    if *full > 0 {
        *full -= 1;
        return Err(DiskFault::Full);
    }
    Ok(())
}

impl<D: Disk> Disk for CrampedDisk<D> {
    ghost state = { λ c. D.state c.disk };

    ghost tells = { λ c. D.tells c.disk };

    ghost has_failed = { λ c. (c.before ≡ 0) ⊎ D.has_failed c.disk };

    ghost syncs = { λ c. D.syncs c.disk };

    fn names(&mut self, alloc: Global) -> Result<Vec<FileName>, DiskFault> {
        self.disk.names(alloc)
    }

    fn read(&mut self, name: &FileName, at: u64, buf: &mut [u8]) -> Result<usize, DiskFault> {
        self.disk.read(name, at, buf)
    }

    fn create(&mut self, name: &FileName) -> Result<(), DiskFault> {
        self.disk.create(name)
    }

    fn append(&mut self, name: &FileName, octets: &[u8]) -> Result<(), DiskFault> {
        self.disk.append(name, octets)
    }

    fn overwrite(&mut self, name: &FileName, at: u64, octet: u8) -> Result<(), DiskFault> {
        self.disk.overwrite(name, at, octet)
    }

    fn cut(&mut self, name: &FileName, len: u64) -> Result<(), DiskFault> {
        self.disk.cut(name, len)
    }

    fn sync(&mut self, name: &FileName) -> Result<(), DiskFault> {
        take_room(&mut self.before, &mut self.full)?;
        self.disk.sync(name)
    }

    fn rename(&mut self, from: &FileName, to: &FileName) -> Result<(), DiskFault> {
        self.disk.rename(from, to)
    }

    fn remove(&mut self, name: &FileName) -> Result<(), DiskFault> {
        self.disk.remove(name)
    }

    fn sync_names(&mut self) -> Result<(), DiskFault> {
        take_room(&mut self.before, &mut self.full)?;
        self.disk.sync_names()
    }
}
