//! A folder of the system's files.
ghost use Rattle.std.specs.Prelude.{◌≡◌, ◌≢◌, IfOk, IsNone, IsSome, option_copied};
ghost use Rattle.store_engine.specs.Systems.{last_error_of};

use crate::lines::NoStore;
use disk::{DiskFault, FileName};
use folder_disk::{Access, FileError, FolderPath, LockFile, open_regular};
use octet_devices::FromRead;
use std::alloc::Global;
use std::fs;
use std::io::{self, ErrorKind, Read};
use std::rt::Files;
use store_reading::{Folder, is_journal, segment_period};

/// A folder of the system's files, which are only opened for reading. No contract knows what they
/// have.
#[derive(Drop)]
pub struct SystemFolder<R> {
    rt: R,
    path: FolderPath,
    last_error: Option<FileError>,
}

/// A file whose reads are made again if a signal interrupted them.
#[derive(Drop)]
pub struct Uninterrupted<F> {
    file: F,
}

impl<F: Read> Read for Uninterrupted<F> {
    fn read(&mut self, buf: &mut [u8]) -> io::Result<usize> {
        for _ in 0..u64::MAX {
            match self.file.read(buf) {
                Err(error) if error.kind() == ErrorKind::Interrupted => {}
                answer => return answer,
            }
        }
        Err(ErrorKind::Interrupted.into())
    }
}

// What an error of this kind means, where a file was to be opened.
fn opening_fault(kind: ErrorKind) -> DiskFault
    ensures { result ≢ DiskFault.Full }
{
    match kind {
        ErrorKind::NotFound => DiskFault::Missing,
        ErrorKind::OutOfMemory => DiskFault::Memory,
        _ => DiskFault::Failed,
    }
}

// Whether a file has the name of a journal, of a segment, or of the lock of an addition, which may have
// made the folder and had nothing to add.
fn is_of_store(name: &FileName) -> bool {
    let name = name.as_octets();
    is_journal(name)
        || segment_period(name).is_some()
        || name == LockFile::Addition.name().as_bytes()
}

// What it means where the names were to be read.
fn listing_fault(kind: ErrorKind) -> DiskFault
    ensures { result ≢ DiskFault.Full }
{
    match kind {
        ErrorKind::OutOfMemory => DiskFault::Memory,
        _ => DiskFault::Failed,
    }
}

impl<R: Files + AllocGlobal + Clone + Drop> SystemFolder<R> {
    // A folder that exists and may be read.
    fn open_folder(rt: &R, path: &str) -> io::Result<SystemFolder<R>>
        ensures { IfOk result (λ folder. IsNone (last_error_of folder)) }
    {
        let path = FolderPath::new(rt.alloc(), path)?;
        drop(fs::open(rt, path.as_str())?);
        Ok(SystemFolder {
            rt: rt.clone()?,
            path,
            last_error: None,
        })
    }

    /// A store: a folder that exists and may be read, in which there is a journal or a segment, or the lock
    /// of an addition.
    ///
    /// # Errors
    /// That of the system if it cannot be opened so, or lack of memory; or that it is no store.
    pub fn open(rt: &R, path: &str) -> Result<SystemFolder<R>, NoStore>
        ensures { IfOk result (λ folder. IsNone (last_error_of folder)) }
    {
        let folder = SystemFolder::open_folder(rt, path).map_err(NoStore::System)?;
        let names = folder.path.names(rt, rt.alloc()).map_err(NoStore::System)?;
        if names.iter().any(is_of_store) {
            return Ok(folder);
        }
        Err(NoStore::NoFiles)
    }

    /// Why a call last failed (`Failed`), as the system reported it; None if none has.
    pub fn last_error(&self) -> Option<&FileError>
        ensures { option_copied result ≡ last_error_of self.now }
    {
        self.last_error.as_ref()
    }

    // The fault, where the system told this error of a file, or of the folder. It is kept where the folder
    // failed.
    fn failed(&mut self, fault: DiskFault, name: Option<FileName>, error: io::Error) -> DiskFault
        ensures fault { result ≡ fault }
        ensures kept { fault ≡ DiskFault.Failed → IsSome (last_error_of self.new) }
        ensures stays { IsSome (last_error_of self.old) → IsSome (last_error_of self.new) }
    {
        if matches!(fault, DiskFault::Failed) {
            self.last_error = Some(FileError { name, error });
        }
        fault
    }

    fn open_file(&self, name: &FileName) -> io::Result<R::File> {
        let path = self.path.of_file(name)?;
        Ok(open_regular(&self.rt, path.as_str(), Access::Read)?.file)
    }
}

impl<R: Files + AllocGlobal + Clone + Drop> Folder for SystemFolder<R>
where
    R::File: Read + Drop,
{
    ghost use Rattle.std.specs.Prelude.{None};

    type File = FromRead<Uninterrupted<R::File>>;

    ghost files = { λ _ _. None };

    ghost tells = { λ _. ⊥ };

    ghost has_failed = { λ folder. IsSome folder.last_error };

    fn names(&mut self, alloc: Global) -> Result<Vec<FileName>, DiskFault> {
        match self.path.names(&self.rt, alloc) {
            Ok(names) => Ok(names),
            Err(error) => Err(self.failed(listing_fault(error.kind()), None, error)),
        }
    }

    fn open(
        &mut self,
        alloc: Global,
        name: &FileName,
    ) -> Result<FromRead<Uninterrupted<R::File>>, DiskFault> {
        match self.open_file(name) {
            Ok(file) => Ok(FromRead::new(Uninterrupted { file })),
            Err(error) => {
                Err(self.failed(opening_fault(error.kind()), name.copy(alloc).ok(), error))
            }
        }
    }
}
