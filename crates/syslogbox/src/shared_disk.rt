//! A store's folder that several processes add to in turn.

ghost use Rattle.std.specs.Prelude.{◌≡◌, ◌≤◌, IfOk, IsErr, IsTrue};
ghost use Rattle.folder_disk.specs.Folders.{untold};

use crate::ledgers::SystemTurns;
use disk::{Disk, DiskFault, FileName};
use folder_disk::{FileError, FolderDisk, FolderFault, FolderLock, LockFault, LockFile};
use ledger_disk::{LedgerDisk, Purpose};
use libc::net::poll;
use std::alloc::Global;
use std::os::unix::fs::MetadataExt;
use std::{fs, io};

// For how long a process that adds to the store is waited for: so many times so many milliseconds.
const TRIES: usize = 600;

const TRY_MILLIS: i32 = 100;

/// Why nothing could be added.
#[derive(Drop)]
pub enum NoTurn {
    /// The folder is no store for the caller.
    Folder(FolderFault),
    /// The lock was not taken.
    Lock(LockFault),
}

/// The disk of a folder that several processes add to in turn. Its lock is taken before the first call, and given
/// back once the names of the folder are on the disk; so nobody waits longer than one addition takes. After a
/// fault it is kept. A folder that was moved, or exchanged for another one, is not written to.
#[derive(Drop)]
pub struct SharedDisk<'d> {
    rt: &'d HostRuntime,
    dir: &'d str,
    // which folder it is, as the system tells
    folder: Option<(u64, u64)>,
    turn: Option<LedgerDisk<FolderDisk<HostRuntime>, SystemTurns<'d>>>,
    refused: Option<NoTurn>,
    has_failed: bool,
}

// The device and the number of the folder of a path, where the system tells.
fn folder_at(rt: &HostRuntime, dir: &str) -> Option<(u64, u64)> {
    match fs::metadata(rt, dir) {
        Ok(found) => Some((found.dev(), found.ino())),
        Err(_) => None,
    }
}

// Takes the lock of those who add, for whom the others are waited for.
fn take_lock(rt: &HostRuntime, dir: &str) -> Result<FolderLock, LockFault> {
    for _try in 0..TRIES {
        match FolderLock::take(rt, dir, LockFile::Addition) {
            Err(LockFault::Held) => {
                let _ = poll(&mut [], TRY_MILLIS);
            }
            answer => return answer,
        }
    }
    Err(LockFault::Held)
}

/// Makes the folder of a store, if it is missing, and the lock in it by which it is one.
pub fn make_store(rt: &HostRuntime, dir: &str) -> Result<(), NoTurn> {
    if let Err(fault) = FolderDisk::create(rt, dir) {
        return Err(NoTurn::Folder(fault));
    }
    match FolderLock::take(rt, dir, LockFile::Addition) {
        Ok(_) | Err(LockFault::Held) => Ok(()),
        Err(fault) => Err(NoTurn::Lock(fault)),
    }
}

impl<'d> SharedDisk<'d> {
    /// Over a folder that is there. Nothing is locked yet.
    pub fn new(rt: &'d HostRuntime, dir: &'d str) -> SharedDisk<'d> {
        SharedDisk {
            rt,
            dir,
            folder: folder_at(rt, dir),
            turn: None,
            refused: None,
            has_failed: false,
        }
    }

    /// Why nothing could be added, if nothing could.
    pub fn refused(&mut self) -> Option<NoTurn> {
        self.refused.take()
    }

    /// Why a call last failed, as the system told it, if one did.
    pub fn last_error(&self) -> Option<&FileError> {
        match &self.turn {
            Some(disk) => disk.disk().last_error(),
            None => None,
        }
    }

    // The disk of the folder, whose lock is held.
    fn opened(&self) -> Result<LedgerDisk<FolderDisk<HostRuntime>, SystemTurns<'d>>, NoTurn> {
        let mut disk = FolderDisk::open(self.rt, self.dir).map_err(NoTurn::Folder)?;
        disk.hold(take_lock(self.rt, self.dir).map_err(NoTurn::Lock)?);
        if folder_at(self.rt, self.dir) != self.folder {
            let error = io::Error::other("it was moved or removed");
            return Err(NoTurn::Folder(FolderFault::System(error)));
        }
        let turns = SystemTurns::new(self.rt, self.dir);
        match LedgerDisk::new(self.rt.alloc(), disk, turns, Purpose::Serve) {
            Ok(disk) => Ok(disk),
            Err(_) => {
                let error = io::Error::from(io::ErrorKind::OutOfMemory);
                Err(NoTurn::Folder(FolderFault::System(error)))
            }
        }
    }

    // Begins a turn, if none is on.
    fn begin(&mut self) -> Result<(), DiskFault>
        ensures stays { IsTrue self.old.has_failed → IsTrue self.new.has_failed }
        ensures failed { IsErr result → IsTrue self.new.has_failed }
    {
        if self.turn.is_some() {
            return Ok(());
        }
        // who was refused once is not kept waiting again
        if self.refused.is_some() {
            self.has_failed = true;
            return Err(DiskFault::Failed);
        }
        match self.opened() {
            Ok(disk) => {
                self.turn = Some(disk);
                Ok(())
            }
            Err(refused) => {
                self.refused = Some(refused);
                self.has_failed = true;
                Err(DiskFault::Failed)
            }
        }
    }

    // Notes whether a call failed.
    fn noted<T: Drop>(&mut self, answer: Result<T, DiskFault>) -> Result<T, DiskFault>
        ensures same { result ≡ answer }
        ensures stays { IsTrue self.old.has_failed → IsTrue self.new.has_failed }
        ensures failed { IsErr result → IsTrue self.new.has_failed }
    {
        if answer.is_err() {
            self.has_failed = true;
        }
        answer
    }
}

impl<'d> Disk for SharedDisk<'d> {
    ghost state = { λ _. untold };

    ghost tells = { λ _. ⊥ };

    ghost has_failed = { λ d. IsTrue d.has_failed };

    ghost syncs = { λ _. 0 };

    fn names(&mut self, alloc: Global) -> Result<Vec<FileName>, DiskFault> {
        self.begin()?;
        let answer = match &mut self.turn {
            Some(disk) => disk.names(alloc),
            None => Err(DiskFault::Failed),
        };
        self.noted(answer)
    }

    fn read(&mut self, name: &FileName, at: u64, buf: &mut [u8]) -> Result<usize, DiskFault> {
        self.begin()?;
        let answer = match &mut self.turn {
            Some(disk) => disk.read(name, at, buf),
            None => Err(DiskFault::Failed),
        };
        self.noted(answer)
    }

    fn create(&mut self, name: &FileName) -> Result<(), DiskFault> {
        self.begin()?;
        let answer = match &mut self.turn {
            Some(disk) => disk.create(name),
            None => Err(DiskFault::Failed),
        };
        self.noted(answer)
    }

    fn append(&mut self, name: &FileName, octets: &[u8]) -> Result<(), DiskFault> {
        self.begin()?;
        let answer = match &mut self.turn {
            Some(disk) => disk.append(name, octets),
            None => Err(DiskFault::Failed),
        };
        self.noted(answer)
    }

    fn overwrite(&mut self, name: &FileName, at: u64, octet: u8) -> Result<(), DiskFault> {
        self.begin()?;
        let answer = match &mut self.turn {
            Some(disk) => disk.overwrite(name, at, octet),
            None => Err(DiskFault::Failed),
        };
        self.noted(answer)
    }

    fn cut(&mut self, name: &FileName, len: u64) -> Result<(), DiskFault> {
        self.begin()?;
        let answer = match &mut self.turn {
            Some(disk) => disk.cut(name, len),
            None => Err(DiskFault::Failed),
        };
        self.noted(answer)
    }

    fn sync(&mut self, name: &FileName) -> Result<(), DiskFault> {
        self.begin()?;
        let answer = match &mut self.turn {
            Some(disk) => disk.sync(name),
            None => Err(DiskFault::Failed),
        };
        self.noted(answer)
    }

    fn rename(&mut self, from: &FileName, to: &FileName) -> Result<(), DiskFault> {
        self.begin()?;
        let answer = match &mut self.turn {
            Some(disk) => disk.rename(from, to),
            None => Err(DiskFault::Failed),
        };
        self.noted(answer)
    }

    // a draft that is removed behind an addition is a turn of its own
    fn remove(&mut self, name: &FileName) -> Result<(), DiskFault> {
        let is_alone = self.turn.is_none();
        self.begin()?;
        let answer = match &mut self.turn {
            Some(disk) => disk.remove(name),
            None => Err(DiskFault::Failed),
        };
        if is_alone && matches!(answer, Ok(()) | Err(DiskFault::Missing)) {
            self.turn = None;
        }
        self.noted(answer)
    }

    fn sync_names(&mut self) -> Result<(), DiskFault> {
        self.begin()?;
        let answer = match &mut self.turn {
            Some(disk) => disk.sync_names(),
            None => Err(DiskFault::Failed),
        };
        if answer.is_ok() {
            self.turn = None;
        }
        self.noted(answer)
    }
}
