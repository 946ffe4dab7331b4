//! Where a server tells, and where it keeps what it refuses.

use crate::notes::Notes;
use crate::refused::RefusedFile;
use crate::service_manager::ServiceManager;
use std::cell::RefCell;
use std::io::{self, ErrorKind, Write};

/// The lines of a server, and the service manager, which is told those of counts too. Several may put
/// lines there.
#[derive(Clone, Copy)]
pub struct SharedNotes<'n> {
    pub notes: &'n RefCell<Notes>,
    pub manager: &'n RefCell<ServiceManager>,
}

// what a line of counts begins with
const COUNTS: &[u8] = b"received ";

/// The file of what is refused, which its owner flushes.
#[derive(Clone, Copy)]
pub struct SharedRefused<'f, 'r> {
    pub file: &'f RefCell<RefusedFile<'r>>,
}

fn in_use() -> io::Error {
    io::Error::from(ErrorKind::WouldBlock)
}

impl<'n> Write for SharedNotes<'n> {
    fn write(&mut self, buf: &[u8]) -> io::Result<usize> {
        let Ok(mut notes) = self.notes.try_borrow_mut() else {
            return Err(in_use());
        };
        notes.put(buf);
        if buf.starts_with(COUNTS) {
            self.tell_status(buf);
        }
        Ok(buf.len())
    }

    fn flush(&mut self) -> io::Result<()> {
        if let Ok(mut notes) = self.notes.try_borrow_mut() {
            notes.flush();
        }
        Ok(())
    }
}

impl<'n> SharedNotes<'n> {
    fn tell_status(&self, line: &[u8]) {
        if let Ok(manager) = self.manager.try_borrow() {
            manager.tell_status(line);
        }
    }

    /// Tells the service manager that the server listens.
    pub fn tell_ready(&self) {
        if let Ok(manager) = self.manager.try_borrow() {
            manager.tell_ready();
        }
    }

    /// Tells the service manager that the server ends.
    pub fn tell_stopping(&self) {
        if let Ok(manager) = self.manager.try_borrow() {
            manager.tell_stopping();
        }
    }

    /// Tells the service manager that the server is alive, as often as it wants that.
    pub fn tell_alive(&self, rt: &HostRuntime) {
        if let Ok(mut manager) = self.manager.try_borrow_mut() {
            manager.tell_alive(rt);
        }
    }

    /// Writes what waits at the end.
    pub fn finish(&self) {
        if let Ok(mut notes) = self.notes.try_borrow_mut() {
            notes.finish();
        }
    }
}

impl<'f, 'r> Write for SharedRefused<'f, 'r> {
    fn write(&mut self, buf: &[u8]) -> io::Result<usize> {
        let Ok(mut file) = self.file.try_borrow_mut() else {
            return Err(in_use());
        };
        file.write(buf)
    }

    fn flush(&mut self) -> io::Result<()> {
        if let Ok(mut file) = self.file.try_borrow_mut() {
            file.save();
        }
        Ok(())
    }
}

/// The two outputs of a server.
#[derive(Clone, Copy)]
pub struct Outputs<'n, 'f, 'r> {
    pub notes: SharedNotes<'n>,
    pub refused: SharedRefused<'f, 'r>,
}

impl<'n, 'f, 'r> Outputs<'n, 'f, 'r> {
    // Writes the entries that wait, and gives the line on those that were not kept: if this is the
    // last time, whenever the line before it was told.
    fn save(&self, last: bool) -> Option<String> {
        let Ok(mut file) = self.refused.file.try_borrow_mut() else {
            return None;
        };
        file.save();
        if last {
            file.last_line()
        } else {
            file.lost_line()
        }
    }

    fn tell_lost(&self, last: bool) {
        let mut notes = self.notes;
        if let Some(line) = self.save(last) {
            let _dropped = notes.write(line.as_bytes());
        }
    }

    /// Writes what waits, as far as it is taken at once.
    pub fn flush(&self) {
        let mut notes = self.notes;
        self.tell_lost(false);
        let _never = notes.flush();
    }

    /// Writes the entries that wait at the end, and tells those that were not kept.
    pub fn save_last(&self) {
        self.tell_lost(true);
    }
}
