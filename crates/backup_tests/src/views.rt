//! Folders in memory that are copied.

use backup_engine::backup_store;
use disk::{Disk, DiskFault, FileName, MemoryDisk};
use octet_devices::{FromRead, Fuse, Output, ToWrite};
use std::alloc::Global;
use std::io::Cursor;
use std::test::Fail;
use store_backup::{Backup, BackupFault, backup};
use store_reading::Folder;
use store_test_support::calls::{names_in, octets_of};

// Files, and what they have.
type Files = Vec<(FileName, Vec<u8>)>;

/// The files of a folder, opened whole. The first time that a file of a name is to be opened, these others may be
/// there in place of all of them, or it may be gone each time. A file that is opened may fail when so many octets of it
/// were read.
#[derive(Drop)]
pub(crate) struct View {
    files: Files,
    later: Option<Files>,
    leaving: Vec<u8>,
    is_gone: bool,
    pub(crate) octets: u64,
    pub(crate) listings: u64,
}

impl View {
    // the octets of a file
    fn find(&self, alloc: Global, name: &FileName) -> Result<Vec<u8>, DiskFault> {
        for (other, octets) in &self.files {
            if other.as_octets() == name.as_octets() {
                return Ok(octets.as_slice().to_vec(alloc)?);
            }
        }
        Err(DiskFault::Missing)
    }

    /// The other files come where this one is to be opened.
    pub(crate) fn change(&mut self, leaving: Vec<u8>, later: View) {
        let View { files, .. } = later;
        self.leaving = leaving;
        self.later = Some(files);
    }

    /// This file is gone whenever it is to be opened.
    pub(crate) fn lose(&mut self, leaving: Vec<u8>) {
        self.leaving = leaving;
        self.is_gone = true;
    }
}

impl Folder for View {
    ghost use Rattle.std.specs.Prelude.{None};

    type File = Fuse<FromRead<Cursor<Vec<u8>>>>;

    ghost files = { λ _ _. None };

    ghost tells = { λ _. ⊥ };

    ghost has_failed = { λ _. Unit {0} };

    fn names(&mut self, alloc: Global) -> Result<Vec<FileName>, DiskFault> {
        let mut names = Vec::new(alloc);
        for (name, _) in &self.files {
            names.push(name.copy(alloc)?)?;
        }
        self.listings = self.listings.saturating_add(1);
        Ok(names)
    }

    fn open(&mut self, alloc: Global, name: &FileName) -> Result<Self::File, DiskFault> {
        if name.as_octets() == self.leaving.as_slice() {
            if let Some(later) = self.later.take() {
                self.files = later;
            }
            if self.is_gone {
                return Err(DiskFault::Missing);
            }
        }
        let octets = self.find(alloc, name)?;
        Ok(Fuse::new(FromRead::new(Cursor::new(octets)), self.octets, u64::MAX))
    }
}

/// The view of what a disk shows, without faults.
pub(crate) fn view_of<D: Disk>(alloc: Global, disk: &mut D) -> Result<View, Fail> {
    let mut files = Vec::new(alloc);
    for name in names_in(alloc, disk)? {
        let octets = octets_of(alloc, disk, name.as_octets())?;
        files.push((name, octets))?;
    }
    Ok(View {
        files,
        later: None,
        leaving: Vec::new(alloc),
        is_gone: false,
        octets: u64::MAX,
        listings: 0,
    })
}

/// Copies a folder.
pub(crate) fn copied<F: Folder, D: Disk>(
    alloc: Global,
    folder: &mut F,
    target: &mut D,
) -> Result<Backup, BackupFault> {
    backup(alloc, folder, target)
}

fn run<F: Folder, D: Disk, N: Output>(
    alloc: Global,
    folder: &mut F,
    target: &mut D,
    diagnostics: &mut N,
) -> u8 {
    backup_store(alloc, folder, target, diagnostics)
}

/// What `backup` answers, and its lines.
pub(crate) fn ran<F: Folder, D: Disk>(
    alloc: Global,
    folder: &mut F,
    target: &mut D,
) -> (u8, Vec<u8>) {
    let mut diagnostics = ToWrite::new(Vec::new(alloc));
    let status = run(alloc, folder, target, &mut diagnostics);
    (status, diagnostics.into_inner())
}

/// Whether a folder has this file.
pub(crate) fn has_file<D: Disk>(
    alloc: Global,
    disk: &mut D,
    name: &[u8],
    octets: &[u8],
) -> Result<bool, Fail> {
    Ok(octets_of(alloc, disk, name)?.as_slice() == octets)
}

/// How many files a folder has.
pub(crate) fn count_in(alloc: Global, disk: &mut MemoryDisk) -> Result<usize, Fail> {
    Ok(names_in(alloc, disk)?.len())
}
