//! A disk whose files are opened and written whole.
ghost use Rattle.std.specs.Prelude.{◌≡◌, IfOk, IsNone, IsSomeAnd, OnOk};
ghost use Rattle.disk.specs.Calls.{IsUnchanged};
ghost use Rattle.disk.specs.Files.{settled};
ghost use Rattle.journal.specs.Journals.{IsSound, KeepsOthers, Shows};
ghost use Rattle.store_upkeep.specs.Compaction.{shown};

use crate::stream_disk::StreamDisk;
use disk::{Disk, DiskFault, FileName};
use octet_devices::{FromRead, ToWrite};
use std::alloc::Global;
use std::io::Cursor;

// the most octets that a file may have to be opened
const OPENED_MAX: usize = 1 << 40;

// the most octets that are asked for in a call
const PIECE: usize = 16_384;

/// A disk over another one, whose files are read into memory as they are opened, and written from
/// memory as they are settled.
#[derive(Drop)]
pub struct WholeFiles<D: Disk> {
    alloc: Global,
    disk: D,
}

impl<D: Disk> WholeFiles<D> {
    ghost use Rattle.store_upkeep.specs.Compaction.{disk_of};

    /// A disk over this one.
    pub fn new(alloc: Global, disk: D) -> WholeFiles<D>
        ensures { disk_of result ≡ disk }
    {
        WholeFiles { alloc, disk }
    }

    /// The disk underneath.
    pub fn into_inner(self) -> D
        ensures { result ≡ disk_of self }
    {
        let WholeFiles { alloc: _, disk } = self;
        disk
    }
}

// Reads a file.
fn read_whole<D: Disk>(alloc: Global, disk: &mut D, name: &FileName) -> Result<Vec<u8>, DiskFault>
    ensures octets { IfOk result (λ v. D.tells disk.new → IsSound (D.state disk.old)
        → IsSomeAnd (shown (D.state disk.old) name.now) (λ file. v.items ≡ file)) }
    ensures same { D.tells disk.new → IsUnchanged (D.state disk.old) (D.state disk.new) }
    ensures told { D.tells disk.new → D.tells disk.old }
{
    let mut octets = Vec::new(alloc);
    let mut piece = [0u8; PIECE];
    while octets.len() < OPENED_MAX {
        let n = disk.read(name, octets.len() as u64, &mut piece)?;
        if n == 0 {
            return Ok(octets);
        }
        octets.extend_from_slice(&piece[..n])?;
    }
    Err(DiskFault::Memory)
}

// Removes a file, if there is one.
fn clear<D: Disk>(disk: &mut D, name: &FileName) -> Result<(), DiskFault>
    ensures gone { OnOk result (D.tells disk.new
        → IsNone ((D.state disk.new).entries name.now).now) }
    ensures others { D.tells disk.new → KeepsOthers (D.state disk.old) (D.state disk.new) name.now }
    ensures lost { D.tells disk.new → (D.state disk.new).lost ≡ (D.state disk.old).lost }
    ensures told { D.tells disk.new → D.tells disk.old }
{
    match disk.remove(name) {
        Err(DiskFault::Missing) => Ok(()),
        removed => removed,
    }
}

// Writes a file anew, to the disk.
fn write_whole<D: Disk>(disk: &mut D, name: &FileName, text: &[u8]) -> Result<(), DiskFault>
    ensures whole { OnOk result (D.tells disk.new → IsSound (D.state disk.old)
        → Shows (D.state disk.new) name.now (settled text.now)) }
    ensures others { D.tells disk.new → KeepsOthers (D.state disk.old) (D.state disk.new) name.now }
    ensures told { D.tells disk.new → D.tells disk.old }
{
    clear(disk, name)?;
    disk.create(name)?;
    disk.append(name, text)?;
    disk.sync(name)
}

impl<D: Disk> Disk for WholeFiles<D> {
    ghost state = { λ w. D.state w.disk };

    ghost tells = { λ w. D.tells w.disk };

    ghost has_failed = { λ w. D.has_failed w.disk };

    ghost syncs = { λ w. D.syncs w.disk };

    fn names(&mut self, alloc: Global) -> Result<Vec<FileName>, DiskFault> {
        self.disk.names(alloc)
    }

    fn read(&mut self, name: &FileName, at: u64, buf: &mut [u8]) -> Result<usize, DiskFault> {
        self.disk.read(name, at, buf)
    }

    fn create(&mut self, name: &FileName) -> Result<(), DiskFault> {
        self.disk.create(name)
    }

    fn append(&mut self, name: &FileName, octets: &[u8]) -> Result<(), DiskFault> {
        self.disk.append(name, octets)
    }

    fn overwrite(&mut self, name: &FileName, at: u64, octet: u8) -> Result<(), DiskFault> {
        self.disk.overwrite(name, at, octet)
    }

    fn cut(&mut self, name: &FileName, len: u64) -> Result<(), DiskFault> {
        self.disk.cut(name, len)
    }

    fn sync(&mut self, name: &FileName) -> Result<(), DiskFault> {
        self.disk.sync(name)
    }

    fn rename(&mut self, from: &FileName, to: &FileName) -> Result<(), DiskFault> {
        self.disk.rename(from, to)
    }

    fn remove(&mut self, name: &FileName) -> Result<(), DiskFault> {
        self.disk.remove(name)
    }

    fn sync_names(&mut self) -> Result<(), DiskFault> {
        self.disk.sync_names()
    }
}

impl<D: Disk> StreamDisk for WholeFiles<D> {
    type File = FromRead<Cursor<Vec<u8>>>;

    type Draft = ToWrite<Vec<u8>>;

    fn open(
        &mut self,
        alloc: Global,
        name: &FileName,
    ) -> Result<FromRead<Cursor<Vec<u8>>>, DiskFault> {
        let octets = read_whole(alloc, &mut self.disk, name)?;
        Ok(FromRead::new(Cursor::new(octets)))
    }

    fn begin(&mut self, name: &FileName) -> Result<ToWrite<Vec<u8>>, DiskFault> {
        clear(&mut self.disk, name)?;
        Ok(ToWrite::new(Vec::new(self.alloc)))
    }

    fn settle(&mut self, name: &FileName, draft: ToWrite<Vec<u8>>) -> Result<(), DiskFault> {
        let octets = draft.into_inner();
        write_whole(&mut self.disk, name, &octets)
    }
}
