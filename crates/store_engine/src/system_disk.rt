//! A disk over a folder of the system's files, which are read and written as streams.
ghost use Rattle.std.specs.Prelude.{◌≤◌, IfOk, IsSome, length};
ghost use Rattle.folder_disk.specs.Folders.{last_error_of, untold};

use crate::lines::NoStore;
use crate::system::{SystemFolder, Uninterrupted};
use disk::{Disk, DiskFault, FileName};
use folder_disk::{
    FileError, FolderDisk, FolderFault, FolderLock, FolderPath, create_regular, remove_regular,
};
use octet_devices::{FromRead, ToWrite};
use std::alloc::Global;
use std::fs::OpenFile;
use std::io::{self, ErrorKind, Read, Write};
use std::rt::Files;
use store_reading::Folder;
use store_upkeep::StreamDisk;

/// A disk over a folder of the system's files, which are read and written as streams. No contract knows
/// what they have.
#[derive(Drop)]
pub struct SystemDisk<R: Files> {
    rt: R,
    path: FolderPath,
    disk: FolderDisk<R>,
    folder: SystemFolder<R>,
    last_error: Option<FileError>,
}

/// A file that is written. Its writes are made again where a signal interrupted them, and the error of
/// one that fails is kept.
#[derive(Drop)]
pub struct DraftFile<F> {
    file: F,
    error: Option<io::Error>,
}

impl<F: Write> DraftFile<F> {
    // a write of which no error is kept
    fn write_once(&mut self, buf: &[u8]) -> io::Result<usize>
        ensures { IfOk result (λ n. n ≤ length buf.now) }
    {
        for _ in 0..u64::MAX {
            match self.file.write(buf) {
                Err(error) if error.kind() == ErrorKind::Interrupted => {}
                answer => return answer,
            }
        }
        Err(ErrorKind::Interrupted.into())
    }
}

impl<F: Write> Write for DraftFile<F> {
    fn write(&mut self, buf: &[u8]) -> io::Result<usize> {
        match self.write_once(buf) {
            Ok(n) => Ok(n),
            Err(error) => {
                let kind = error.kind();
                self.error = Some(error);
                Err(kind.into())
            }
        }
    }

    fn flush(&mut self) -> io::Result<()> {
        self.file.flush()
    }
}

// What an error of this kind means where a file is written.
fn writing_fault(kind: ErrorKind) -> DiskFault {
    match kind {
        ErrorKind::StorageFull | ErrorKind::QuotaExceeded => DiskFault::Full,
        ErrorKind::OutOfMemory => DiskFault::Memory,
        _ => DiskFault::Failed,
    }
}

impl<R: Files + AllocGlobal + Clone + Drop> SystemDisk<R>
where
    R::File: Read + Write + OpenFile + Drop,
{
    // The disk, of whose folder this is.
    fn over(rt: &R, path: &str, folder: SystemFolder<R>) -> Result<SystemDisk<R>, FolderFault> {
        Ok(SystemDisk {
            rt: rt.clone()?,
            path: FolderPath::new(rt.alloc(), path)?,
            disk: FolderDisk::open(rt, path)?,
            folder,
            last_error: None,
        })
    }

    /// The disk of a store's folder, in which the caller may keep a store.
    ///
    /// # Errors
    /// That of the system if it cannot be opened, or lack of memory; that it is no store; or that the
    /// caller may change nothing in it.
    pub fn open(rt: &R, path: &str) -> Result<SystemDisk<R>, NoStore> {
        let folder = SystemFolder::open(rt, path)?;
        SystemDisk::over(rt, path, folder).map_err(NoStore::Refused)
    }

    /// Why a call last failed, as the system told it; none where none has.
    pub fn last_error(&self) -> Option<&FileError> {
        if let Some(error) = &self.last_error {
            return Some(error);
        }
        if let Some(error) = self.folder.last_error() {
            return Some(error);
        }
        self.disk.last_error()
    }

    /// Keeps a lock on the folder. Before each change the disk sees whether the lock still has its name,
    /// and the folder is the one that was opened.
    pub fn hold(&mut self, lock: FolderLock) {
        self.disk.hold(lock);
    }

    // The fault, where the system told this error of a file that is written. It is kept.
    fn failed(&mut self, name: &FileName, error: io::Error) -> DiskFault {
        let fault = writing_fault(error.kind());
        if !matches!(fault, DiskFault::Memory) {
            let name = name.copy(self.rt.alloc()).ok();
            self.last_error = Some(FileError { name, error });
        }
        fault
    }

    // Makes a file, for its owner alone, in place of one that is there.
    fn create_anew(&self, name: &FileName) -> io::Result<R::File> {
        let path = self.path.of_file(name)?;
        match remove_regular(&self.rt, path.as_str()) {
            Err(error) if error.kind() != ErrorKind::NotFound => return Err(error),
            _ => {}
        }
        Ok(create_regular(&self.rt, path.as_str())?.file)
    }
}

impl<R: Files + AllocGlobal + Clone + Drop> Disk for SystemDisk<R> {
    ghost state = { λ _. untold };

    ghost tells = { λ _. ⊥ };

    ghost has_failed = { λ d. IsSome (last_error_of d.disk) };

    ghost syncs = { λ _. 0 };

    fn names(&mut self, alloc: Global) -> Result<Vec<FileName>, DiskFault> {
        self.disk.names(alloc)
    }

    fn read(&mut self, name: &FileName, at: u64, buf: &mut [u8]) -> Result<usize, DiskFault> {
        self.disk.read(name, at, buf)
    }

    fn create(&mut self, name: &FileName) -> Result<(), DiskFault> {
        self.disk.create(name)
    }

    fn append(&mut self, name: &FileName, octets: &[u8]) -> Result<(), DiskFault> {
        self.disk.append(name, octets)
    }

    fn overwrite(&mut self, name: &FileName, at: u64, octet: u8) -> Result<(), DiskFault> {
        self.disk.overwrite(name, at, octet)
    }

    fn cut(&mut self, name: &FileName, len: u64) -> Result<(), DiskFault> {
        self.disk.cut(name, len)
    }

    fn sync(&mut self, name: &FileName) -> Result<(), DiskFault> {
        self.disk.sync(name)
    }

    fn rename(&mut self, from: &FileName, to: &FileName) -> Result<(), DiskFault> {
        self.disk.rename(from, to)
    }

    fn remove(&mut self, name: &FileName) -> Result<(), DiskFault> {
        self.disk.remove(name)
    }

    fn sync_names(&mut self) -> Result<(), DiskFault> {
        self.disk.sync_names()
    }
}

impl<R: Files + AllocGlobal + Clone + Drop> StreamDisk for SystemDisk<R>
where
    R::File: Read + Write + OpenFile + Drop,
{
    type File = FromRead<Uninterrupted<R::File>>;

    type Draft = ToWrite<DraftFile<R::File>>;

    fn open(
        &mut self,
        alloc: Global,
        name: &FileName,
    ) -> Result<FromRead<Uninterrupted<R::File>>, DiskFault> {
        Folder::open(&mut self.folder, alloc, name)
    }

    fn begin(&mut self, name: &FileName) -> Result<ToWrite<DraftFile<R::File>>, DiskFault> {
        match self.create_anew(name) {
            Ok(file) => Ok(ToWrite::new(DraftFile { file, error: None })),
            Err(error) => Err(self.failed(name, error)),
        }
    }

    fn settle(
        &mut self,
        name: &FileName,
        draft: ToWrite<DraftFile<R::File>>,
    ) -> Result<(), DiskFault> {
        let DraftFile { file, error } = draft.into_inner();
        if let Some(error) = error {
            return Err(self.failed(name, error));
        }
        match file.sync_all() {
            Ok(()) => Ok(()),
            Err(error) => Err(self.failed(name, error)),
        }
    }
}
