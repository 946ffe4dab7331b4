//! A store's folder is read.
ghost use Rattle.std.specs.Prelude.{None};

use anyhow::{Context, Result, anyhow};
use archive_sets::InRange;
use disk::{Disk, DiskFault, FileName};
use folder_disk::FolderDisk;
use octet_devices::{FromRead, Output, ToWrite};
use std::alloc::Global;
use std::fs::File;
use std::io::{self, Read};
use std::{fs, str};
use store_reading::{Folder, ReadFault, read};

// every record
const ALL: InRange = InRange {
    from: None,
    to: None,
    undated: false,
};

/// A folder of the system, whose files are opened for reading.
#[derive(Drop)]
pub struct StoreFolder<'a> {
    rt: &'a HostRuntime,
    path: &'a str,
    disk: FolderDisk<HostRuntime>,
}

impl<'a> StoreFolder<'a> {
    /// A folder that exists. It fails if the system does not open it.
    pub fn open(rt: &'a HostRuntime, path: &'a str) -> io::Result<StoreFolder<'a>> {
        Ok(StoreFolder {
            rt,
            path,
            disk: FolderDisk::open(rt, path)?,
        })
    }
}

impl<'a> Folder for StoreFolder<'a> {
    type File = FromRead<File>;

    ghost files = { λ _ _. None };

    ghost tells = { λ _. ⊥ };

    ghost has_failed = { λ _. Unit {0} };

    fn names(&mut self, alloc: Global) -> Result<Vec<FileName>, DiskFault> {
        self.disk.names(alloc)
    }

    fn open(&mut self, alloc: Global, name: &FileName) -> Result<FromRead<File>, DiskFault> {
        let Ok(text) = str::from_utf8(name.as_octets()) else {
            return Err(DiskFault::Missing);
        };
        let folder = self.path;
        let path = format!(in alloc; "{folder}/{text}")?;
        match fs::open(self.rt, path.as_str()) {
            Ok(file) => Ok(FromRead::new(file)),
            Err(error) if error.kind() == io::ErrorKind::NotFound => Err(DiskFault::Missing),
            Err(_) => Err(DiskFault::Failed),
        }
    }
}

// Why a folder was not read, and at which file.
fn told(fault: ReadFault) -> anyhow::Error {
    match &fault {
        ReadFault::Open { name, .. }
        | ReadFault::Damaged { name, .. }
        | ReadFault::Read { name, .. } => match str::from_utf8(name.as_octets()) {
            Ok(name) => anyhow!("{name}: {fault}"),
            Err(_) => anyhow!("{fault}"),
        },
        _ => anyhow!("{fault}"),
    }
}

// Writes the archive of what the files of a folder hold.
fn write_archive<W: Output>(rt: &HostRuntime, path: &str, output: &mut W) -> Result<()> {
    let alloc = rt.alloc();
    let mut folder = StoreFolder::open(rt, path).with_context(|| path)?;
    match read(alloc, &mut folder, ALL, output) {
        Ok(()) => Ok(()),
        Err(fault) => Err(told(fault)),
    }
}

/// The archive of what the files of a folder hold. It fails if the folder cannot be read or memory
/// runs out.
pub fn archive_of(rt: &HostRuntime, path: &str) -> Result<Vec<u8>> {
    let mut text = ToWrite::new(Vec::new(rt.alloc()));
    write_archive(rt, path, &mut text)?;
    Ok(text.into_inner())
}

/// Writes the archive of what the files of a folder hold to standard output. It fails if the folder
/// cannot be read or nothing can be written.
pub fn print_archive(rt: &HostRuntime, path: &str) -> Result<()> {
    write_archive(rt, path, &mut ToWrite::new(rt.stdout()))
}
