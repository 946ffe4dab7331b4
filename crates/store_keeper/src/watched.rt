//! Disks on which no sync has failed, and whether one has since.
ghost use Rattle.std.specs.Prelude.{◌≡◌, ◌⊎◌, IsErr, IsErrOf, false, true};

use disk::{Disk, DiskFault, FileName};
use std::alloc::Global;

/// A disk on which no sync has failed since the machine was started. No call can find that out: who
/// makes one of a disk says so.
#[derive(Drop)]
pub struct SoundDisk<D: Disk> {
    /// The disk.
    pub disk: D,
    pub ghost sound: { D.tells disk → (D.state disk).lost ≡ false },
}

/// A disk over another, which says whether a sync has failed on it. Once one has, for anything but want of
/// room on the disk or in memory, no later one promises anything until the machine is started anew.
#[derive(Drop)]
pub(crate) struct WatchedDisk<D: Disk> {
    disk: D,
    lost: bool,
    ghost sound: { lost ≡ false → D.tells disk → (D.state disk).lost ≡ false },
}

// Whether it may have lost something: a sync that failed for anything but want of room, on the disk or in
// memory.
fn may_lose(synced: &Result<(), DiskFault>) -> bool
    ensures { result ≡ false → IsErr synced.now
        → IsErrOf synced.now DiskFault.Full ⊎ IsErrOf synced.now DiskFault.Memory }
{
    match synced {
        Ok(()) | Err(DiskFault::Full | DiskFault::Memory) => false,
        Err(_) => true,
    }
}

impl<D: Disk> WatchedDisk<D> {
    ghost use Rattle.journal.specs.Journals.{IsSound};
    ghost use Rattle.store_keeper.specs.Watching.{watched};

    /// Over a disk on which no sync has failed.
    pub(crate) fn new(sound: SoundDisk<D>) -> WatchedDisk<D>
        ensures over { watched result ≡ sound.disk }
        ensures sound { D.tells (watched result) → IsSound (D.state (watched result)) }
    {
        let SoundDisk { disk } = sound;
        WatchedDisk { disk, lost: false }
    }

    /// Whether no sync has failed.
    pub(crate) fn is_sound(&self) -> bool
        ensures { result ≡ true → D.tells (watched self.now) → IsSound (D.state (watched self.now)) }
    {
        !self.lost
    }

    /// The disk below.
    pub(crate) fn inner(&self) -> &D
        ensures { result.now ≡ watched self.now }
    {
        &self.disk
    }

    /// The disk below.
    pub(crate) fn into_inner(self) -> D
        ensures { result ≡ watched self }
    {
        let WatchedDisk { disk, lost: _ } = self;
        disk
    }
}

impl<D: Disk> Disk for WatchedDisk<D> {
    ghost state = { λ w. D.state w.disk };

    ghost tells = { λ w. D.tells w.disk };

    ghost has_failed = { λ w. D.has_failed w.disk };

    ghost syncs = { λ w. D.syncs w.disk };

    fn names(&mut self, alloc: Global) -> Result<Vec<FileName>, DiskFault> {
        self.disk.names(alloc)
    }

    fn read(&mut self, name: &FileName, at: u64, buf: &mut [u8]) -> Result<usize, DiskFault> {
        self.disk.read(name, at, buf)
    }

    fn create(&mut self, name: &FileName) -> Result<(), DiskFault> {
        self.disk.create(name)
    }

    fn append(&mut self, name: &FileName, octets: &[u8]) -> Result<(), DiskFault> {
        self.disk.append(name, octets)
    }

    fn overwrite(&mut self, name: &FileName, at: u64, octet: u8) -> Result<(), DiskFault> {
        self.disk.overwrite(name, at, octet)
    }

    fn cut(&mut self, name: &FileName, len: u64) -> Result<(), DiskFault> {
        self.disk.cut(name, len)
    }

    fn sync(&mut self, name: &FileName) -> Result<(), DiskFault> {
        let synced = self.disk.sync(name);
        self.lost |= may_lose(&synced);
        synced
    }

    fn rename(&mut self, from: &FileName, to: &FileName) -> Result<(), DiskFault> {
        self.disk.rename(from, to)
    }

    fn remove(&mut self, name: &FileName) -> Result<(), DiskFault> {
        self.disk.remove(name)
    }

    fn sync_names(&mut self) -> Result<(), DiskFault> {
        let settled = self.disk.sync_names();
        self.lost |= may_lose(&settled);
        settled
    }
}
