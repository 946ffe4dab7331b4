//! Locks on a folder.
ghost use Rattle.std.specs.Prelude.{◌≡◌};
ghost use Rattle.std.specs.IoError.{error_kind};
ghost use Rattle.folder_disk.specs.Locks.{lock_name};

use crate::boot::{NOTE_MAX, boot_id, failed_note, sound_note, tells_of_boot};
use crate::path::FolderPath;
use crate::regular::{Access, RegularFile, open_or_create};
use crate::transfers::{cut_to, read_from, write_from};
use std::alloc::Global;
use std::fs::{File, TryLockError};
use std::io::{self, ErrorKind};
use std::rt::Files;
use thiserror::Error;

/// Which file is locked.
#[derive(Clone, Copy, Debug, PartialEq, Eq)]
pub enum LockFile {
    /// `lock`: held by the process that writes.
    Writing,
    /// `lock.compact`: held by the process that compacts or removes old records, beside a writer.
    Compaction,
    /// `lock.add`: held by the process that adds an archive, beside a writer.
    Addition,
    /// `lock.ledger`: held by the process that writes into the ledger, beside all others.
    Ledger,
}

impl LockFile {
    /// The file's name in the folder.
    pub fn name(self) -> &'static str
        ensures { result.now ≡ lock_name self }
    {
        match self {
            LockFile::Writing => "lock",
            LockFile::Compaction => "lock.compact",
            LockFile::Addition => "lock.add",
            LockFile::Ledger => "lock.ledger",
        }
    }
}

/// An error that the system reported of a lock's file.
#[derive(Debug, Drop, Error)]
#[error("{}: {error}", .lock.name())]
pub struct LockError {
    /// Which file.
    pub lock: LockFile,
    /// What the system reported.
    pub error: io::Error,
}

impl LockError {
    /// The kind of the error.
    pub fn kind(&self) -> ErrorKind
        ensures { result ≡ error_kind self.now.error }
    {
        self.error.kind()
    }
}

/// Why a lock was not taken.
#[derive(Debug, Drop, Error)]
pub enum LockFault {
    /// Another process holds it, or another value in this one.
    #[error("the lock is held by another process")]
    Held,
    /// The file could not be opened, made or locked.
    #[error("{0}")]
    Failed(LockError),
}

/// A lock on a folder, held until the value is dropped or the process ends. It keeps out only those
/// who take it too. Its file keeps a note of a sync that failed.
#[derive(Drop)]
pub struct FolderLock {
    opened: RegularFile<File>,
    path: String,
    // what the system calls its run; nothing where it does not tell
    boot: Vec<u8>,
    // the note of a run in which a sync has failed
    failed: Vec<u8>,
}

fn path_of(alloc: Global, folder: &str, lock: LockFile) -> io::Result<String> {
    if folder.is_empty() {
        return Err(ErrorKind::NotFound.into()); // the name of no folder, as it is to `FolderDisk`
    }
    let folder = FolderPath::new(alloc, folder)?;
    let mut path = String::from_str(alloc, folder.as_str())?;
    path.push_str(lock.name())?;
    Ok(path)
}

// The lock of a folder, which is not taken yet.
fn make_lock<R: Files<File = File> + AllocGlobal>(
    rt: &R,
    folder: &str,
    lock: LockFile,
) -> io::Result<FolderLock> {
    let path = path_of(rt.alloc(), folder, lock)?;
    let opened = open_or_create(rt, path.as_str(), Access::Write)?;
    opened.require_own()?;
    let boot = boot_id(rt, rt.alloc())?;
    let failed = failed_note(rt.alloc(), &boot)?;
    Ok(FolderLock {
        opened,
        path,
        boot,
        failed,
    })
}

// Writes a note over the one before.
fn put_note(file: &mut File, note: &[u8]) -> io::Result<()> {
    write_from(file, 0, note)?;
    cut_to(file, note.len() as u64)
}

impl FolderLock {
    /// Takes a lock on a folder that exists, if nobody holds it. It does not wait. It fails as the
    /// variants of [`LockFault`] say.
    pub fn take<R: Files<File = File> + AllocGlobal>(
        rt: &R,
        folder: &str,
        lock: LockFile,
    ) -> Result<FolderLock, LockFault> {
        let taken = match make_lock(rt, folder, lock) {
            Ok(taken) => taken,
            Err(error) => return Err(LockFault::Failed(LockError { lock, error })),
        };
        match taken.opened.file.try_lock() {
            Ok(()) => Ok(taken),
            Err(TryLockError::WouldBlock) => Err(LockFault::Held),
            Err(TryLockError::Error(error)) => Err(LockFault::Failed(LockError { lock, error })),
        }
    }

    /// Whether a run that had the lock has noted that a sync failed, since the machine was started. It
    /// is so too if the note cannot be understood, or if it says that a sync failed and the system does not
    /// tell which run this is.
    pub fn tells_of_failed_sync(&mut self) -> io::Result<bool> {
        let mut note = [0u8; NOTE_MAX];
        let count = read_from(&mut self.opened.file, 0, &mut note)?;
        Ok(tells_of_boot(&note[..count], &self.boot))
    }

    /// Notes that a sync has failed. There is room for it once `note_sound` has been called.
    pub fn note_failed_sync(&mut self) -> io::Result<()> {
        put_note(&mut self.opened.file, &self.failed)
    }

    /// Notes that no sync has failed, which makes room for the other note: it is as long. It fails where
    /// a full disk has no room for the first one.
    pub fn note_sound(&mut self, alloc: Global) -> io::Result<()> {
        let note = sound_note(alloc, &self.boot)?;
        put_note(&mut self.opened.file, &note)
    }

    /// Refuses a lock whose file no longer has its name, so that another process may have the folder,
    /// or the name stands for another folder.
    pub(crate) fn require_name<R: Files>(&self, rt: &R) -> io::Result<()> {
        self.opened.require_name(rt, self.path.as_str())
    }
}
