//! The folder of a store whose journals are followed.

ghost use Rattle.std.specs.Prelude.{◌≡◌, ◌≤◌, IfOk, IsErr, IsTrue, length};
ghost use Rattle.folder_disk.specs.Folders.{untold};

use disk::{Disk, DiskFault, FileName};
use folder_disk::{Access, FileError, FolderPath, open_regular};
use std::alloc::{AllocError, Global};
use std::fs::{self, File};
use std::io::{self, ErrorKind, Read, Seek, SeekFrom};
use std::os::unix::fs::MetadataExt;

// A file that is open, and which one it is, as the system tells.
#[derive(Drop)]
struct OpenFile {
    name: FileName,
    file: File,
    id: (u64, u64),
    // how its name stands to it
    named: Named,
}

// What the name of a file that is open stands for.
#[derive(Clone, Copy, PartialEq, Eq)]
enum Named {
    // That file, or none.
    Same,
    // Another file. There may be more to be read of the one that is open.
    Other,
    // Another file, and the one that is open was read to its end since that was seen.
    OtherAtEnd,
}

/// A folder that is read alone: nothing in it is made, changed or locked. A folder that is not there has no files
/// yet. The file that was read last stays open, so that it can be read to its end once its name is gone or another
/// file has it. From then on the name stands for a file without octets, as long as it is not read from its start:
/// what comes in the place of a file does not go on with it.
#[derive(Drop)]
pub struct FollowedFolder<'r> {
    rt: &'r HostRuntime,
    path: FolderPath,
    open: Option<OpenFile>,
    last_error: Option<FileError>,
    has_failed: bool,
}

// Reads octets of a file from an offset on.
fn read_from(file: &mut File, at: u64, buf: &mut [u8]) -> io::Result<usize>
    ensures { IfOk result (λ n. n ≤ length buf.new) }
{
    file.seek(SeekFrom::Start(at))?;
    file.read(buf)
}

// What an error means where a file is read.
fn fault_of(kind: ErrorKind) -> DiskFault {
    match kind {
        ErrorKind::OutOfMemory => DiskFault::Memory,
        ErrorKind::NotFound => DiskFault::Missing,
        _ => DiskFault::Failed,
    }
}

impl<'r> FollowedFolder<'r> {
    /// The folder of this path, which need not be there yet. It fails only when out of memory.
    pub fn new(
        rt: &'r HostRuntime,
        alloc: Global,
        dir: &str,
    ) -> Result<FollowedFolder<'r>, AllocError> {
        Ok(FollowedFolder {
            rt,
            path: FolderPath::new(alloc, dir)?,
            open: None,
            last_error: None,
            has_failed: false,
        })
    }

    /// Why a call last failed, as the system told it, if one did.
    pub fn last_error(&self) -> Option<&FileError> {
        self.last_error.as_ref()
    }

    // Notes that a call failed, and with which error, unless the fault is another one.
    fn failed(&mut self, fault: DiskFault, name: Option<FileName>, error: io::Error) -> DiskFault
        ensures fault { result ≡ fault }
        ensures failed { IsTrue self.new.has_failed }
    {
        self.has_failed = true;
        if matches!(fault, DiskFault::Failed) {
            self.last_error = Some(FileError { name, error });
        }
        fault
    }

    // A call that would change the folder, which none does.
    fn refused(&mut self) -> DiskFault
        ensures fault { result ≡ DiskFault.Failed }
        ensures failed { IsTrue self.new.has_failed }
    {
        self.failed(
            DiskFault::Failed,
            None,
            ErrorKind::ReadOnlyFilesystem.into(),
        )
    }

    // What a name stands for, if the file that was read last had it; none if that had another name.
    fn named(&self, name: &FileName, path: &str) -> io::Result<Option<Named>> {
        let Some(open) = &self.open else {
            return Ok(None);
        };
        if open.name.as_octets() != name.as_octets() {
            return Ok(None);
        }
        match fs::symlink_metadata(self.rt, path) {
            Ok(found) if (found.dev(), found.ino()) == open.id => Ok(Some(Named::Same)),
            Ok(_) if open.named == Named::Same => Ok(Some(Named::Other)),
            Ok(_) => Ok(Some(open.named)),
            Err(error) if error.kind() == ErrorKind::NotFound => Ok(Some(Named::Same)),
            Err(error) => Err(error),
        }
    }

    // Opens the file of a name.
    fn open_file(&mut self, name: &FileName, path: &str) -> io::Result<()>
        ensures stays { self.new.has_failed ≡ self.old.has_failed }
    {
        let file = open_regular(self.rt, path, Access::Read)?.file;
        let found = file.metadata()?;
        self.open = Some(OpenFile {
            name: name.copy(self.rt.alloc())?,
            file,
            id: (found.dev(), found.ino()),
            named: Named::Same,
        });
        Ok(())
    }

    // Reads octets of the file that is open from an offset on, and notes what its name stands for.
    fn read_open(&mut self, named: Named, at: u64, buf: &mut [u8]) -> io::Result<usize>
        ensures within { IfOk result (λ n. n ≤ length buf.new) }
        ensures stays { self.new.has_failed ≡ self.old.has_failed }
    {
        let Some(open) = &mut self.open else {
            return Err(ErrorKind::NotFound.into());
        };
        open.named = named;
        if named == Named::OtherAtEnd {
            return Ok(0);
        }
        let count = read_from(&mut open.file, at, buf)?;
        if named == Named::Other && count < buf.len() {
            open.named = Named::OtherAtEnd;
        }
        Ok(count)
    }

    // Reads octets of the file of a name from an offset on.
    fn read_file(&mut self, name: &FileName, at: u64, buf: &mut [u8]) -> io::Result<usize>
        ensures within { IfOk result (λ n. n ≤ length buf.new) }
        ensures stays { self.new.has_failed ≡ self.old.has_failed }
    {
        let path = self.path.of_file(name)?;
        match self.named(name, path.as_str())? {
            Some(named) if named != Named::OtherAtEnd || at > 0 => self.read_open(named, at, buf),
            _ => {
                self.open_file(name, path.as_str())?;
                self.read_open(Named::Same, at, buf)
            }
        }
    }
}

impl<'r> Disk for FollowedFolder<'r> {
    ghost state = { λ _. untold };

    ghost tells = { λ _. ⊥ };

    ghost has_failed = { λ d. IsTrue d.has_failed };

    ghost syncs = { λ _. 0 };

    fn names(&mut self, alloc: Global) -> Result<Vec<FileName>, DiskFault> {
        match self.path.names(self.rt, alloc) {
            Ok(names) => Ok(names),
            Err(error) if error.kind() == ErrorKind::NotFound => Ok(Vec::new(alloc)),
            Err(error) => Err(self.failed(fault_of(error.kind()), None, error)),
        }
    }

    fn read(&mut self, name: &FileName, at: u64, buf: &mut [u8]) -> Result<usize, DiskFault> {
        match self.read_file(name, at, buf) {
            Ok(count) => Ok(count),
            Err(error) => {
                let copy = name.copy(self.rt.alloc()).ok();
                Err(self.failed(fault_of(error.kind()), copy, error))
            }
        }
    }

    fn create(&mut self, _name: &FileName) -> Result<(), DiskFault> {
        Err(self.refused())
    }

    fn append(&mut self, _name: &FileName, _octets: &[u8]) -> Result<(), DiskFault> {
        Err(self.refused())
    }

    fn overwrite(&mut self, _name: &FileName, _at: u64, _octet: u8) -> Result<(), DiskFault> {
        Err(self.refused())
    }

    fn cut(&mut self, _name: &FileName, _len: u64) -> Result<(), DiskFault> {
        Err(self.refused())
    }

    fn sync(&mut self, _name: &FileName) -> Result<(), DiskFault> {
        Err(self.refused())
    }

    fn rename(&mut self, _from: &FileName, _to: &FileName) -> Result<(), DiskFault> {
        Err(self.refused())
    }

    fn remove(&mut self, _name: &FileName) -> Result<(), DiskFault> {
        Err(self.refused())
    }

    fn sync_names(&mut self) -> Result<(), DiskFault> {
        Err(self.refused())
    }
}
