//! A file that is open.
ghost use Rattle.std.specs.Prelude.{◌≤◌, IfOk, length};

use crate::regular::RegularFile;
use crate::transfers::{cut_to, end_of, read_from, write_from};
use crate::unsynced::Unsynced;
use disk::FileName;
use std::fs::OpenFile;
use std::io::{self, ErrorKind, Read, Seek, Write};

/// A file that is open. One with octets that have not been synced stays open: if it were closed
/// before, the system's report that these could not be written might be lost.
#[derive(Drop)]
pub(crate) struct OpenedFile<F> {
    pub(crate) name: FileName,
    pub(crate) file: RegularFile<F>,
    pub(crate) is_writable: bool,
    pub(crate) is_synced: bool,
    pub(crate) unsynced: Unsynced,
}

// Whether an error says that there is no room, on the disk or in memory.
fn is_short(error: &io::Error) -> bool {
    matches!(
        error.kind(),
        ErrorKind::StorageFull | ErrorKind::QuotaExceeded | ErrorKind::OutOfMemory
    )
}

impl<F: Read + Write + Seek + OpenFile> OpenedFile<F> {
    /// Writes again what a sync had no room for, if one had none.
    pub(crate) fn restore(&mut self) -> io::Result<()> {
        self.unsynced.restore(&mut self.file.file)
    }

    pub(crate) fn read(&mut self, at: u64, buf: &mut [u8]) -> io::Result<usize>
        ensures { IfOk result (λ n. n ≤ length buf.new) }
    {
        self.restore()?;
        read_from(&mut self.file.file, at, buf)
    }

    // Notes what is there of octets of which a write failed.
    fn note_part(&mut self, at: u64, octets: &[u8]) {
        match end_of(&mut self.file.file) {
            Ok(end) if end >= at && end - at <= octets.len() as u64 => {
                self.unsynced.wrote(at, &octets[..(end - at) as usize]);
            }
            _ => self.unsynced.pass_over(),
        }
    }

    /// Writes all octets at the end.
    pub(crate) fn append(&mut self, octets: &[u8]) -> io::Result<()> {
        self.restore()?;
        self.is_synced = false;
        let at = end_of(&mut self.file.file)?;
        match self.file.file.write_all(octets) {
            Ok(()) => {
                self.unsynced.wrote(at, octets);
                Ok(())
            }
            Err(error) => {
                self.note_part(at, octets);
                Err(error)
            }
        }
    }

    /// Overwrites the octet at an offset, if there is one.
    pub(crate) fn overwrite(&mut self, at: u64, octet: u8) -> io::Result<()> {
        self.restore()?;
        if at >= end_of(&mut self.file.file)? {
            return Ok(());
        }
        self.is_synced = false;
        match write_from(&mut self.file.file, at, &[octet]) {
            Ok(()) => {
                self.unsynced.wrote(at, &[octet]);
                Ok(())
            }
            Err(error) => {
                self.unsynced.pass_over();
                Err(error)
            }
        }
    }

    /// Cuts it to a length in octets, if it is longer.
    pub(crate) fn cut(&mut self, len: u64) -> io::Result<()> {
        self.restore()?;
        self.is_synced = false;
        self.unsynced.was_cut();
        cut_to(&mut self.file.file, len)
    }

    /// Brings it to the disk. Where that fails for want of room, what was written is kept.
    pub(crate) fn sync(&mut self) -> io::Result<()> {
        self.restore()?;
        match self.file.file.sync_data() {
            Ok(()) => {
                self.is_synced = true;
                self.unsynced.settle();
                Ok(())
            }
            Err(error) => {
                if is_short(&error) {
                    self.unsynced.doubt();
                }
                Err(error)
            }
        }
    }
}
