//! The disk over a folder.
ghost use Rattle.std.specs.Prelude.{◌≡◌, ◌≢◌, ◌↔◌, IfErr, IfOk, IsErr, IsErrAnd, IsNone, IsSome, IsTrue, option_copied};
ghost use Rattle.disk.specs.Calls.{HasCause};
ghost use Rattle.folder_disk.specs.Faults.{IsTold};
ghost use Rattle.folder_disk.specs.Folders.{HasFailedSync, untold, last_error_of};

use crate::fault::{Target, fault_of};
use crate::open_files::OpenFiles;
use crate::{FileError, FolderFault, FolderLock};
use disk::{Disk, DiskFault, FileName};
use std::alloc::Global;
use std::fs::OpenFile;
use std::os::unix::fs::DirBuilderExt;
use std::path::{AsPath, Path};
use std::rt::Files;
use std::{fs, io};

/// A disk over a folder of the system's files.
///
/// Where it holds a lock, nothing is changed or synced once the lock's file has lost its name, as where
/// the folder was moved or the file removed: another process may hold the folder by then. The disk has
/// failed in that case, and so it has where a file that is to be synced has lost its own name.
///
/// A file that was written stays open until it has been synced, and mostly longer: a commit opens
/// none. Nobody else may write, rename or remove the files that are written through it; others may
/// come and go, and one that was open when it was removed can still be read. Folders and links in
/// the folder have names too; a name that is not UTF-8 is passed over, and no call reaches its
/// file.
#[derive(Drop)]
pub struct FolderDisk<R: Files> {
    files: OpenFiles<R>,
    last_error: Option<FileError>,
    sync_failed: bool,
    // a sync had no room: it is noted as one that failed until what it was for is on the disk
    is_doubted: bool,
    are_names_doubtful: bool,
    // where a sync that fails is noted, and why it was not
    lock: Option<FolderLock>,
    note_error: Option<io::Error>,
}

// Makes a folder for its owner alone; whether it was missing.
fn make_folder<R: Files>(rt: &R, path: &str) -> Result<bool, FolderFault> {
    match fs::DirBuilder::new().mode(0o700).create(rt, path) {
        Ok(()) => Ok(true),
        Err(error) if error.kind() == io::ErrorKind::AlreadyExists => Ok(false),
        Err(error) => Err(FolderFault::System(error)),
    }
}

fn parent_fault(alloc: Global, parent: &str, error: io::Error) -> FolderFault {
    match String::from_str(alloc, parent) {
        Ok(parent) => FolderFault::Parent { parent, error },
        Err(error) => FolderFault::System(error.into()),
    }
}

// Brings the name of a folder to the disk. One that was there before may have a parent that the caller
// may pass and not read: who made it has seen to its name.
fn sync_name<R: Files + AllocGlobal>(rt: &R, path: &str, is_new: bool) -> Result<(), FolderFault> {
    let Some(parent) = Path::new(path).parent() else {
        return Ok(());
    };
    let parent = match parent.path_text() {
        "" => ".",
        text => text,
    };
    let synced = match fs::open(rt, parent) {
        Ok(folder) => folder.sync_all(),
        Err(error) if !is_new && error.kind() == io::ErrorKind::PermissionDenied => Ok(()),
        Err(error) => Err(error),
    };
    match synced {
        Ok(()) => Ok(()),
        Err(error) => Err(parent_fault(rt.alloc(), parent, error)),
    }
}

impl<R: Files + AllocGlobal + Clone + Drop> FolderDisk<R> {
    /// The disk of a folder that exists. It fails if the system does not open the folder, or if the
    /// caller may keep no store in it, as [`FolderFault`] says.
    pub fn open(rt: &R, path: &str) -> Result<FolderDisk<R>, FolderFault>
        ensures { IfOk result (λ disk. IsNone (last_error_of disk)) }
    {
        Ok(FolderDisk {
            files: OpenFiles::new(rt, path)?,
            last_error: None,
            sync_failed: false,
            is_doubted: false,
            are_names_doubtful: false,
            lock: None,
            note_error: None,
        })
    }

    /// The disk of a folder, which is made if it is missing, for its owner alone; its parent is not
    /// made. The parent is synced, so that the folder's name is on the disk; only if the folder was
    /// there, the parent need not be one that the caller may read. It fails if the system refuses one
    /// of these calls, or if the caller may keep no store in the folder, of which nothing is changed
    /// then.
    pub fn create(rt: &R, path: &str) -> Result<FolderDisk<R>, FolderFault>
        ensures { IfOk result (λ disk. IsNone (last_error_of disk)) }
    {
        let is_new = make_folder(rt, path)?;
        if let Err(fault) = sync_name(rt, path, is_new) {
            if is_new {
                let _ = fs::remove_dir(rt, path);
            }
            return Err(fault);
        }
        FolderDisk::open(rt, path)
    }

    /// Why the disk last failed (`Failed` or `Full`), as the system reported it; None if it never has.
    pub fn last_error(&self) -> Option<&FileError>
        ensures { option_copied result ≡ last_error_of self.now }
    {
        self.last_error.as_ref()
    }

    /// Whether a sync has failed for anything but want of room, on the disk or in memory: no later one
    /// promises anything until the machine is started anew.
    pub fn has_failed_sync(&self) -> bool
        ensures { IsTrue result ↔ HasFailedSync self.now }
    {
        self.sync_failed
    }

    /// Keeps a lock on the folder, in whose file the first sync that fails is noted, at once. One that
    /// had no room is noted until what it was for is on the disk.
    pub fn hold(&mut self, lock: FolderLock)
        ensures same { last_error_of self.new ≡ last_error_of self.old }
        ensures sync { HasFailedSync self.new ↔ HasFailedSync self.old }
    {
        self.lock = Some(lock);
    }

    /// Why a sync that failed could not be noted, if one could not.
    pub fn note_error(&self) -> Option<&io::Error> {
        self.note_error.as_ref()
    }

    // Writes to the lock's file that a sync has failed.
    fn write_failure(&mut self)
        ensures same { last_error_of self.new ≡ last_error_of self.old }
        ensures sync { self.new.sync_failed ≡ self.old.sync_failed }
    {
        if let Some(lock) = &mut self.lock {
            self.note_error = lock.note_failed_sync().err();
        }
    }

    // Notes that a sync has failed.
    fn note_failure(&mut self)
        ensures sync { HasFailedSync self.new }
        ensures same { last_error_of self.new ≡ last_error_of self.old }
    {
        if self.sync_failed {
            return;
        }
        self.write_failure();
        self.sync_failed = true;
    }

    // Notes that a sync had no room: until that is made good, a start has to take it for one that failed.
    fn note_doubt(&mut self)
        ensures same { last_error_of self.new ≡ last_error_of self.old }
        ensures sync { self.new.sync_failed ≡ self.old.sync_failed }
    {
        if self.sync_failed || self.is_doubted {
            return;
        }
        self.write_failure();
        self.is_doubted = true;
    }

    // Takes that back, once all is on the disk.
    fn clear_doubt(&mut self)
        ensures same { last_error_of self.new ≡ last_error_of self.old }
        ensures sync { self.new.sync_failed ≡ self.old.sync_failed }
    {
        if !self.is_doubted || self.sync_failed {
            return;
        }
        if self.are_names_doubtful || self.files.has_doubtful() {
            return;
        }
        let alloc = self.files.alloc();
        self.is_doubted = match &mut self.lock {
            Some(lock) => lock.note_sound(alloc).is_err(),
            None => false,
        };
    }

    // What the system's answer to a call means. Where it is that the disk failed, it is kept.
    fn told<T>(
        &mut self,
        target: Target,
        name: Option<&FileName>,
        answer: io::Result<T>,
    ) -> Result<T, DiskFault>
        ensures ok { IfOk answer (λ value. result ≡ Ok value) }
        ensures err { IfErr answer (λ error. IsErrAnd result (λ fault.
            IsTold target error fault self.new.last_error)) }
        ensures value { IfOk result (λ value. answer ≡ Ok value) }
        ensures sync { self.new.sync_failed ≡ self.old.sync_failed }
        ensures cause { HasCause (IsSome self.old.last_error) (IsSome self.new.last_error) result }
    {
        let error = match answer {
            Ok(value) => return Ok(value),
            Err(error) => error,
        };
        let fault = fault_of(target, error.kind());
        if matches!(fault, DiskFault::Failed | DiskFault::Full) {
            let name = match name {
                Some(name) => name.copy(self.files.alloc()).ok(),
                None => None,
            };
            self.last_error = Some(FileError { name, error });
        }
        Err(fault)
    }

    // Whether the lock, if it holds one, still has its name: otherwise the disk has failed.
    fn check_lock(&mut self) -> Result<(), DiskFault>
        ensures cause { HasCause (IsSome self.old.last_error) (IsSome self.new.last_error) result }
    {
        let answer = match &self.lock {
            Some(lock) => lock.require_name(self.files.rt()),
            None => Ok(()),
        };
        self.told(Target::Folder, None, answer)
    }

    // What the system's answer to a sync means. If it failed, that is noted.
    fn told_sync(
        &mut self,
        target: Target,
        name: Option<&FileName>,
        answer: io::Result<()>,
    ) -> Result<(), DiskFault>
        ensures noted { IfErr result (λ fault. fault ≢ DiskFault.Full → fault ≢ DiskFault.Memory
            → HasFailedSync self.new) }
        ensures cause { HasCause (IsSome self.old.last_error) (IsSome self.new.last_error) result }
    {
        let synced = self.told(target, name, answer);
        match &synced {
            Ok(()) => self.clear_doubt(),
            Err(DiskFault::Full | DiskFault::Memory) => self.note_doubt(),
            Err(_) => self.note_failure(),
        }
        synced
    }
}

impl<R: Files + AllocGlobal + Clone + Drop> Disk for FolderDisk<R> {
    ghost state = { λ _. untold };

    ghost tells = { λ _. ⊥ };

    ghost has_failed = { λ disk. IsSome disk.last_error };

    ghost syncs = { λ _. 0 };

    fn names(&mut self, alloc: Global) -> Result<Vec<FileName>, DiskFault> {
        let answer = self.files.names(alloc);
        self.told(Target::Folder, None, answer)
    }

    fn read(&mut self, name: &FileName, at: u64, buf: &mut [u8]) -> Result<usize, DiskFault> {
        let answer = self.files.read(name, at, buf);
        self.told(Target::File, Some(name), answer)
    }

    fn create(&mut self, name: &FileName) -> Result<(), DiskFault> {
        self.check_lock()?;
        let answer = self.files.create(name);
        self.told(Target::FreeName, Some(name), answer)
    }

    fn append(&mut self, name: &FileName, octets: &[u8]) -> Result<(), DiskFault> {
        self.check_lock()?;
        let answer = self.files.append(name, octets);
        self.told(Target::File, Some(name), answer)
    }

    fn overwrite(&mut self, name: &FileName, at: u64, octet: u8) -> Result<(), DiskFault> {
        self.check_lock()?;
        let answer = self.files.overwrite(name, at, octet);
        self.told(Target::File, Some(name), answer)
    }

    fn cut(&mut self, name: &FileName, len: u64) -> Result<(), DiskFault> {
        self.check_lock()?;
        let answer = self.files.cut(name, len);
        self.told(Target::File, Some(name), answer)
    }

    fn sync(&mut self, name: &FileName) -> Result<(), DiskFault> {
        self.check_lock()?;
        let named = self.files.require_name(name);
        self.told(Target::Folder, Some(name), named)?;
        let answer = self.files.sync(name);
        self.told_sync(Target::File, Some(name), answer)
    }

    fn rename(&mut self, from: &FileName, to: &FileName) -> Result<(), DiskFault> {
        self.check_lock()?;
        let answer = self.files.rename(from, to);
        self.told(Target::File, Some(from), answer)
    }

    fn remove(&mut self, name: &FileName) -> Result<(), DiskFault> {
        self.check_lock()?;
        let answer = self.files.remove(name);
        self.told(Target::File, Some(name), answer)
    }

    fn sync_names(&mut self) -> Result<(), DiskFault> {
        self.check_lock()?;
        let answer = self.files.sync_names();
        self.are_names_doubtful = answer.is_err();
        self.told_sync(Target::Folder, None, answer)
    }
}
