//! The files of a store, whose octets a meter counts as they are read.

use crate::meter::{SharedMeter, file_octets};
use disk::{Disk, DiskFault, FileName};
use folder_disk::FolderPath;
use octet_devices::{DeviceFault, Input};
use std::alloc::Global;
use store_reading::{Folder, is_journal, segment_period};
use store_upkeep::StreamDisk;

/// An input whose octets a meter counts.
#[derive(Drop)]
pub struct MeteredInput<'m, 'r, D> {
    input: D,
    meter: SharedMeter<'m, 'r>,
}

impl<'m, 'r, D: Input> Input for MeteredInput<'m, 'r, D> {
    ghost state = { λ d. D.state d.input };

    ghost few_ends = { λ d. D.few_ends d.input };

    fn read(&mut self, buf: &mut [u8]) -> Result<usize, DeviceFault> {
        let result = self.input.read(buf);
        if let Ok(count) = result {
            self.meter.add(count);
        }
        result
    }
}

/// The folder or the disk of a store; a meter counts the octets that are read of its files.
#[derive(Drop)]
pub struct MeteredStore<'m, 'r, S> {
    pub store: S,
    pub meter: SharedMeter<'m, 'r>,
}

impl<'m, 'r, F: Folder> Folder for MeteredStore<'m, 'r, F> {
    type File = MeteredInput<'m, 'r, F::File>;

    ghost files = { λ s. F.files s.store };

    ghost tells = { λ s. F.tells s.store };

    ghost has_failed = { λ s. F.has_failed s.store };

    fn names(&mut self, alloc: Global) -> Result<Vec<FileName>, DiskFault> {
        self.store.names(alloc)
    }

    fn open(
        &mut self,
        alloc: Global,
        name: &FileName,
    ) -> Result<MeteredInput<'m, 'r, F::File>, DiskFault> {
        let input = self.store.open(alloc, name)?;
        let meter = self.meter;
        Ok(MeteredInput { input, meter })
    }
}

impl<'m, 'r, D: Disk> Disk for MeteredStore<'m, 'r, D> {
    ghost state = { λ s. D.state s.store };

    ghost tells = { λ s. D.tells s.store };

    ghost has_failed = { λ s. D.has_failed s.store };

    ghost syncs = { λ s. D.syncs s.store };

    fn names(&mut self, alloc: Global) -> Result<Vec<FileName>, DiskFault> {
        self.store.names(alloc)
    }

    fn read(&mut self, name: &FileName, at: u64, buf: &mut [u8]) -> Result<usize, DiskFault> {
        let result = self.store.read(name, at, buf);
        if let Ok(count) = result {
            self.meter.add(count);
        }
        result
    }

    fn create(&mut self, name: &FileName) -> Result<(), DiskFault> {
        self.store.create(name)
    }

    fn append(&mut self, name: &FileName, octets: &[u8]) -> Result<(), DiskFault> {
        self.store.append(name, octets)
    }

    fn overwrite(&mut self, name: &FileName, at: u64, octet: u8) -> Result<(), DiskFault> {
        self.store.overwrite(name, at, octet)
    }

    fn cut(&mut self, name: &FileName, len: u64) -> Result<(), DiskFault> {
        self.store.cut(name, len)
    }

    fn sync(&mut self, name: &FileName) -> Result<(), DiskFault> {
        self.store.sync(name)
    }

    fn rename(&mut self, from: &FileName, to: &FileName) -> Result<(), DiskFault> {
        self.store.rename(from, to)
    }

    fn remove(&mut self, name: &FileName) -> Result<(), DiskFault> {
        self.store.remove(name)
    }

    fn sync_names(&mut self) -> Result<(), DiskFault> {
        self.store.sync_names()
    }
}

impl<'m, 'r, D: StreamDisk> StreamDisk for MeteredStore<'m, 'r, D> {
    type File = MeteredInput<'m, 'r, D::File>;

    type Draft = D::Draft;

    fn open(
        &mut self,
        alloc: Global,
        name: &FileName,
    ) -> Result<MeteredInput<'m, 'r, D::File>, DiskFault> {
        let input = self.store.open(alloc, name)?;
        let meter = self.meter;
        Ok(MeteredInput { input, meter })
    }

    fn begin(&mut self, name: &FileName) -> Result<D::Draft, DiskFault> {
        self.store.begin(name)
    }

    fn settle(&mut self, name: &FileName, draft: D::Draft) -> Result<(), DiskFault> {
        self.store.settle(name, draft)
    }
}

// Whether a file has the name of a journal or of a segment.
fn has_records(name: &FileName) -> bool {
    is_journal(name.as_octets()) || segment_period(name.as_octets()).is_some()
}

/// How many octets the journals and the segments of a store have; None where the system does not tell it.
pub fn store_octets(rt: &HostRuntime, dir: &str) -> Option<u64> {
    let path = FolderPath::new(rt.alloc(), dir).ok()?;
    let names = path.names(rt, rt.alloc()).ok()?;
    let mut octets: u64 = 0;
    for name in names.iter() {
        if has_records(name) {
            let file = path.of_file(name).ok()?;
            octets = octets.saturating_add(file_octets(rt, file.as_str())?);
        }
    }
    Some(octets)
}
