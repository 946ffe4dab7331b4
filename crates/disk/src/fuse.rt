//! A disk that stops at some call.
ghost use Rattle.std.specs.Prelude.{◌≡◌, ◌⊎◌, ◌-◌, ◌↔◌, ◌<◌, IsErr, IsErrOf};

use crate::{Disk, DiskFault, FileName};
use std::alloc::Global;

/// A disk over another one. It passes on a given number of calls; from then on every call fails and
/// changes nothing, as after a crash.
#[derive(Drop)]
pub struct Fuse<D: Disk> {
    disk: D,
    calls: u64,
}

impl<D: Disk> Fuse<D> {
    ghost use Rattle.disk.specs.Fuses.{calls_left, inner};

    /// A disk that passes the first `calls` calls on to this one.
    pub fn new(disk: D, calls: u64) -> Fuse<D>
        ensures inner { inner result ≡ disk }
        ensures calls { calls_left result ≡ calls }
    {
        Fuse { disk, calls }
    }

    /// The disk underneath.
    pub fn into_inner(self) -> D
        ensures { result ≡ inner self }
    {
        let Fuse { disk, calls: _ } = self;
        disk
    }
}

// takes one call from those that are left
fn spend(calls: &mut u64) -> Result<(), DiskFault>
    ensures stops { IsErr result ↔ (calls.old ≡ 0) }
    ensures failed { IsErr result → IsErrOf result DiskFault.Failed }
    ensures spent { calls.new ≡ calls.old - 1 }
{
    if *calls == 0 {
        return Err(DiskFault::Failed);
    }
    *calls -= 1;
    Ok(())
}

impl<D: Disk> Disk for Fuse<D> {
    ghost state = { λ f. D.state f.disk };

    ghost tells = { λ f. D.tells f.disk };

    ghost has_failed = { λ f. (f.calls ≡ 0) ⊎ D.has_failed f.disk };

    ghost syncs = { λ f. D.syncs f.disk };

    fn names(&mut self, alloc: Global) -> Result<Vec<FileName>, DiskFault> {
        spend(&mut self.calls)?;
        self.disk.names(alloc)
    }

    fn read(&mut self, name: &FileName, at: u64, buf: &mut [u8]) -> Result<usize, DiskFault> {
        spend(&mut self.calls)?;
        self.disk.read(name, at, buf)
    }

    fn create(&mut self, name: &FileName) -> Result<(), DiskFault> {
        spend(&mut self.calls)?;
        self.disk.create(name)
    }

    fn append(&mut self, name: &FileName, octets: &[u8]) -> Result<(), DiskFault> {
        spend(&mut self.calls)?;
        self.disk.append(name, octets)
    }

    fn overwrite(&mut self, name: &FileName, at: u64, octet: u8) -> Result<(), DiskFault> {
        spend(&mut self.calls)?;
        self.disk.overwrite(name, at, octet)
    }

    fn cut(&mut self, name: &FileName, len: u64) -> Result<(), DiskFault> {
        spend(&mut self.calls)?;
        self.disk.cut(name, len)
    }

    fn sync(&mut self, name: &FileName) -> Result<(), DiskFault> {
        spend(&mut self.calls)?;
        self.disk.sync(name)
    }

    fn rename(&mut self, from: &FileName, to: &FileName) -> Result<(), DiskFault> {
        spend(&mut self.calls)?;
        self.disk.rename(from, to)
    }

    fn remove(&mut self, name: &FileName) -> Result<(), DiskFault> {
        spend(&mut self.calls)?;
        self.disk.remove(name)
    }

    fn sync_names(&mut self) -> Result<(), DiskFault> {
        spend(&mut self.calls)?;
        self.disk.sync_names()
    }
}
