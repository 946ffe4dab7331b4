//! The files of a folder, of which those that were used stay open.
ghost use Rattle.std.specs.Prelude.{◌<◌, ◌≤◌, IfOk, IfSome, length, vec_len};

use crate::opened_file::OpenedFile;
use crate::owner::{FolderFault, check_owner};
use crate::path::FolderPath;
use crate::regular::{Access, RegularFile, create_regular, open_regular, remove_regular};
use crate::unsynced::Unsynced;
use disk::FileName;
use std::alloc::Global;
use std::fs::OpenFile;
use std::rt::Files;
use std::{fs, io};

/// How many files are open at once, unless more have octets that have not been synced. A server leaves 32 descriptors to
/// its files, however many connections it has.
const OPEN_MAX: usize = 16;

/// A folder's path, and those of its files that are open.
#[derive(Drop)]
pub(crate) struct OpenFiles<R: Files> {
    rt: R,
    path: FolderPath,
    opened: Vec<OpenedFile<R::File>>,
}

impl<R: Files + AllocGlobal + Clone + Drop> OpenFiles<R> {
    /// The files of a folder that exists, that may be read, and in which the caller may keep a store.
    pub(crate) fn new(rt: &R, path: &str) -> Result<OpenFiles<R>, FolderFault> {
        let path = FolderPath::new(rt.alloc(), path)?;
        check_owner(rt, &path)?;
        drop(fs::open(rt, path.as_str())?);
        Ok(OpenFiles {
            rt: rt.clone()?,
            path,
            opened: Vec::new(rt.alloc()),
        })
    }

    pub(crate) fn alloc(&self) -> Global {
        self.rt.alloc()
    }

    pub(crate) fn rt(&self) -> &R {
        &self.rt
    }

    fn position(&self, name: &FileName) -> Option<usize>
        ensures { IfSome result (λ i. i < vec_len self.now.opened) }
    {
        self.opened
            .iter()
            .position(|opened| opened.name.as_octets() == name.as_octets())
    }

    fn close(&mut self, name: &FileName) {
        if let Some(i) = self.position(name) {
            drop(self.opened.swap_remove(i));
        }
    }

    // Closes a file that was open to be read, and returns what was written to it and not synced.
    fn take_unsynced(&mut self, name: &FileName) -> Unsynced {
        match self.position(name) {
            Some(i) => self.opened.swap_remove(i).unsynced,
            None => Unsynced::of_found(self.alloc()),
        }
    }

    // Where as many files are open as may be, one that is synced is closed.
    fn make_room(&mut self) {
        if self.opened.len() < OPEN_MAX {
            return;
        }
        if let Some(i) = self.opened.iter().position(|opened| opened.is_synced) {
            drop(self.opened.swap_remove(i));
        }
    }

    // Keeps a file open, and returns its place.
    fn keep(
        &mut self,
        name: &FileName,
        file: RegularFile<R::File>,
        is_writable: bool,
        unsynced: Unsynced,
    ) -> io::Result<usize>
        ensures { IfOk result (λ i. i < vec_len self.new.opened) }
    {
        self.make_room();
        let name = name.copy(self.alloc())?;
        let i = self.opened.len();
        self.opened.push(OpenedFile {
            name,
            file,
            is_writable,
            is_synced: true,
            unsynced,
        })?;
        Ok(i)
    }

    // The place of a file that is open to be read.
    fn open_to_read(&mut self, name: &FileName) -> io::Result<usize>
        ensures { IfOk result (λ i. i < vec_len self.new.opened) }
    {
        if let Some(i) = self.position(name) {
            return Ok(i);
        }
        let path = self.path.of_file(name)?;
        let file = open_regular(&self.rt, path.as_str(), Access::Read)?;
        self.keep(name, file, false, Unsynced::of_found(self.alloc()))
    }

    // The place of a file that is open to be written too.
    fn open_to_write(&mut self, name: &FileName) -> io::Result<usize>
        ensures { IfOk result (λ i. i < vec_len self.new.opened) }
    {
        if let Some(i) = self.position(name) {
            if self.opened[i].is_writable {
                return Ok(i);
            }
        }
        let path = self.path.of_file(name)?;
        let file = open_regular(&self.rt, path.as_str(), Access::Write)?;
        let unsynced = self.take_unsynced(name);
        self.keep(name, file, true, unsynced)
    }

    /// The names in the folder, except those that are not UTF-8 or that no `FileName` can hold.
    pub(crate) fn names(&self, alloc: Global) -> io::Result<Vec<FileName>> {
        self.path.names(&self.rt, alloc)
    }

    pub(crate) fn read(&mut self, name: &FileName, at: u64, buf: &mut [u8]) -> io::Result<usize>
        ensures { IfOk result (λ n. n ≤ length buf.new) }
    {
        let i = self.open_to_read(name)?;
        self.opened[i].read(at, buf)
    }

    pub(crate) fn create(&mut self, name: &FileName) -> io::Result<()> {
        let path = self.path.of_file(name)?;
        let file = create_regular(&self.rt, path.as_str())?;
        self.close(name);
        self.keep(name, file, true, Unsynced::of_new(self.alloc()))?;
        Ok(())
    }

    pub(crate) fn append(&mut self, name: &FileName, octets: &[u8]) -> io::Result<()> {
        let i = self.open_to_write(name)?;
        self.opened[i].append(octets)
    }

    pub(crate) fn overwrite(&mut self, name: &FileName, at: u64, octet: u8) -> io::Result<()> {
        let i = self.open_to_write(name)?;
        self.opened[i].overwrite(at, octet)
    }

    pub(crate) fn cut(&mut self, name: &FileName, len: u64) -> io::Result<()> {
        let i = self.open_to_write(name)?;
        self.opened[i].cut(len)
    }

    /// Refuses a file that is open and no longer has its name.
    pub(crate) fn require_name(&self, name: &FileName) -> io::Result<()> {
        let Some(i) = self.position(name) else {
            return Ok(());
        };
        let path = self.path.of_file(name)?;
        self.opened[i].file.require_name(&self.rt, path.as_str())
    }

    /// Brings a file to the disk. Where there was no room, a later call on the file writes again what was
    /// to be brought there; a file whose sync failed otherwise is closed, and opened anew by the next.
    pub(crate) fn sync(&mut self, name: &FileName) -> io::Result<()> {
        let i = self.open_to_read(name)?;
        let synced = self.opened[i].sync();
        if synced.is_err() && !self.opened[i].unsynced.is_doubtful() {
            drop(self.opened.swap_remove(i));
        }
        synced
    }

    /// Whether a sync of a file had no room, and what was written has not been brought to the disk since.
    pub(crate) fn has_doubtful(&self) -> bool {
        self.opened
            .iter()
            .any(|opened| opened.unsynced.is_doubtful())
    }

    /// Renames a file. One that is open and has been synced is closed: where another process removes
    /// it later, its room is free then. If it has not been synced, it stays open under its new name.
    pub(crate) fn rename(&mut self, from: &FileName, to: &FileName) -> io::Result<()> {
        let new_name = to.copy(self.alloc())?;
        let old_path = self.path.of_file(from)?;
        let new_path = self.path.of_file(to)?;
        if let Some(i) = self.position(from) {
            self.opened[i].restore()?;
        }
        fs::rename(&self.rt, old_path.as_str(), new_path.as_str())?;
        if from.as_octets() == to.as_octets() {
            return Ok(());
        }
        self.close(to);
        if let Some(i) = self.position(from) {
            if self.opened[i].is_synced {
                drop(self.opened.swap_remove(i));
            } else {
                self.opened[i].name = new_name;
            }
        }
        Ok(())
    }

    pub(crate) fn remove(&mut self, name: &FileName) -> io::Result<()> {
        let path = self.path.of_file(name)?;
        remove_regular(&self.rt, path.as_str())?;
        self.close(name);
        Ok(())
    }

    pub(crate) fn sync_names(&self) -> io::Result<()> {
        fs::open(&self.rt, self.path.as_str())?.sync_all()
    }
}
