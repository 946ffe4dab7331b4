//! What a server tells of why it does not begin, or why it ends.

use crate::outputs::SharedNotes;
use driver::{FAULT, NO_MEMORY, report};
use folder_disk::{FileError, FolderDisk};
use octet_devices::ToWrite;
use std::fmt::Display;
use store_engine::line_on;

/// The system, and where a server tells.
#[derive(Clone, Copy)]
pub struct Teller<'r, 'n> {
    pub rt: &'r HostRuntime,
    pub notes: SharedNotes<'n>,
}

impl<'r, 'n> Teller<'r, 'n> {
    /// Tells why serving does not begin, or ends, and gives the status.
    pub fn refuse(&self, what: &str, why: impl Display + Drop) -> u8 {
        match line_on(self.rt.alloc(), what, why) {
            Ok(line) => report(&mut ToWrite::new(self.notes), line.as_bytes(), FAULT),
            Err(_) => self.out_of_memory(),
        }
    }

    /// Tells why serving does not begin, or ends, of a file in a folder, and gives the status.
    pub fn refuse_file(&self, dir: &str, name: &str, why: impl Display + Drop) -> u8 {
        match format!(in self.rt.alloc(); "{dir}/{name}") {
            Ok(path) => self.refuse(path.as_str(), why),
            Err(_) => self.out_of_memory(),
        }
    }

    /// Tells that memory ran out, and gives the status.
    pub fn out_of_memory(&self) -> u8 {
        report(
            &mut ToWrite::new(self.notes),
            b"want of memory\n",
            NO_MEMORY,
        )
    }

    /// Tells a line.
    pub fn tell(&self, line: &str) {
        let _status = report(&mut ToWrite::new(self.notes), line.as_bytes(), FAULT);
    }

    /// Tells the error by which the disk last failed, or else what the store says, and gives the status.
    pub fn refuse_disk(
        &self,
        dir: &str,
        disk: &FolderDisk<HostRuntime>,
        fault: impl Display + Drop,
    ) -> u8 {
        let Some(FileError { name, error }) = disk.last_error() else {
            return self.refuse(dir, fault);
        };
        let alloc = self.rt.alloc();
        let path = match name {
            Some(name) => match str::from_utf8(name.as_octets()) {
                Ok(name) => format!(in alloc; "{dir}/{name}"),
                Err(_) => String::from_str(alloc, dir),
            },
            None => String::from_str(alloc, dir),
        };
        match path {
            Ok(path) => self.refuse(path.as_str(), error),
            Err(_) => self.out_of_memory(),
        }
    }
}
