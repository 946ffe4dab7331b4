//! Runs in files of a folder of the system.

ghost use Rattle.std.specs.Prelude.{◌≤◌, IfOk, length};

use crate::fault::SpillFault;
use crate::spill::Spill;
use octet_devices::{DeviceFault, FromRead, ToWrite};
use std::alloc::Global;
use std::fs::{self, OpenOptions};
use std::io::{self, ErrorKind, Read, Seek, SeekFrom, Write};
use std::os::unix::fs::OpenOptionsExt;
use std::rt::Files;

/// How many names are tried for a file, since others may be taken.
const NAMES_MAX: u64 = 65_536;

/// Runs in files of a folder. The name of each is removed as soon as it is open, and its room is
/// free again once it is closed; a file whose name cannot be removed stays. No contract knows its
/// octets.
#[derive(Drop)]
pub struct FolderSpill<R> {
    rt: R,
    // the folder's path with a slash at its end, and how the names of files begin
    front: String,
    // the number of the next name
    next: u64,
}

/// A file whose calls are made again if a signal interrupted them.
#[derive(Drop)]
pub struct Uninterrupted<F> {
    file: F,
}

impl<F: Read> Read for Uninterrupted<F> {
    fn read(&mut self, buf: &mut [u8]) -> io::Result<usize> {
        for _ in 0..u64::MAX {
            match self.file.read(buf) {
                Err(error) if error.kind() == ErrorKind::Interrupted => {}
                answer => return answer,
            }
        }
        Err(ErrorKind::Interrupted.into())
    }
}

impl<F: Write> Write for Uninterrupted<F> {
    fn write(&mut self, buf: &[u8]) -> io::Result<usize> {
        for _ in 0..u64::MAX {
            match self.file.write(buf) {
                Err(error) if error.kind() == ErrorKind::Interrupted => {}
                answer => return answer,
            }
        }
        Err(ErrorKind::Interrupted.into())
    }

    fn flush(&mut self) -> io::Result<()> {
        self.file.flush()
    }
}

impl<R: Files + AllocGlobal + Clone + Drop> FolderSpill<R> {
    /// Runs in a folder, which must be there by the time one is made. It fails only when out of memory.
    pub fn new(rt: &R, folder: &str) -> io::Result<FolderSpill<R>> {
        let mut front = String::from_str(rt.alloc(), folder)?;
        front.push_str("/syslogbox.run.")?;
        Ok(FolderSpill {
            rt: rt.clone()?,
            front,
            next: 0,
        })
    }

    // Makes a file that nothing else has open, under a name that was free, for its owner alone.
    fn create(&mut self) -> io::Result<R::File> {
        for _ in 0..NAMES_MAX {
            let front = self.front.as_str();
            let number = self.next;
            let path = format!(in self.rt.alloc(); "{front}{number}")?;
            self.next = self.next.saturating_add(1);
            let mut options = OpenOptions::new();
            options.read(true).write(true).create_new(true).mode(0o600);
            match options.open(&self.rt, path.as_str()) {
                Ok(file) => {
                    fs::remove_file(&self.rt, path.as_str())?;
                    return Ok(file);
                }
                Err(error) if error.kind() == ErrorKind::AlreadyExists => {}
                Err(error) => return Err(error),
            }
        }
        Err(ErrorKind::AlreadyExists.into())
    }
}

impl<R: Files + AllocGlobal + Clone + Drop> Spill for FolderSpill<R>
where
    R::File: Read + Write + Seek + Drop,
{
    type Written = ToWrite<Uninterrupted<R::File>>;

    type Run = FromRead<Uninterrupted<R::File>>;

    ghost tells = { λ _. ⊥ };

    fn make(&mut self) -> Result<ToWrite<Uninterrupted<R::File>>, SpillFault> {
        match self.create() {
            Ok(file) => Ok(ToWrite::new(Uninterrupted { file })),
            Err(error) if error.kind() == ErrorKind::OutOfMemory => Err(SpillFault::Memory),
            Err(_) => Err(SpillFault::Spill),
        }
    }

    fn reopen(
        &mut self,
        written: ToWrite<Uninterrupted<R::File>>,
    ) -> Result<FromRead<Uninterrupted<R::File>>, DeviceFault> {
        let mut device = written.into_inner();
        match device.file.seek(SeekFrom::Start(0)) {
            Ok(_) => Ok(FromRead::new(device)),
            Err(_) => Err(DeviceFault),
        }
    }
}
