//! Regular files, which are opened without following links and without waiting.
ghost use Rattle.std.specs.Prelude.{◌↔◌, IsOk};
ghost use Rattle.std.specs.Fs.{IsFile, file_type};
ghost use Rattle.folder_disk.specs.Owners.{MayWriteTo};

use std::fs;
use std::fs::{Metadata, OpenFile, OpenOptions};
use std::io::{self, ErrorKind};
use std::os::unix::fs::{MetadataExt, OpenOptionsExt};
use std::rt::Files;

// How often a file is opened whose name another one takes at the same moment.
const TRIES: usize = 16;

/// What an open file is for.
#[derive(Clone, Copy, Debug, PartialEq, Eq)]
pub enum Access {
    /// To be read.
    Read,
    /// To be read and written.
    Write,
    /// To be read, and written at its end, wherever that is.
    Append,
}

/// A regular file that is open, by what it says of itself.
#[derive(Drop)]
pub struct RegularFile<F> {
    /// The file.
    pub file: F,
    found: Metadata,
    ghost is_regular: { IsFile (file_type found) },
}

// Refuses what is no regular file.
fn require_regular(found: &Metadata) -> io::Result<()>
    ensures { IsOk result ↔ IsFile (file_type found.now) }
{
    if found.is_file() {
        return Ok(());
    }
    if found.is_dir() {
        return Err(io::Error::from_raw_os_error(libc::EISDIR));
    }
    Err(io::Error::new(ErrorKind::InvalidInput, "not a regular file"))
}

// Whether both are of one file.
fn are_same(one: &Metadata, other: &Metadata) -> bool {
    one.dev() == other.dev() && one.ino() == other.ino()
}

// The file that was opened, if it is a regular one.
fn checked<F: OpenFile + Drop>(file: F) -> io::Result<RegularFile<F>> {
    let found = file.metadata()?;
    require_regular(&found)?;
    Ok(RegularFile { file, found })
}

// The file of a name; none if another one took the name meanwhile.
fn open_once<R: Files>(
    rt: &R,
    path: &str,
    access: Access,
) -> io::Result<Option<RegularFile<R::File>>> {
    let named = fs::symlink_metadata(rt, path)?;
    require_regular(&named)?;
    let opened = OpenOptions::new()
        .read(true)
        .write(access == Access::Write)
        .append(access == Access::Append)
        .open(rt, path)?;
    let opened = checked(opened)?;
    if are_same(&named, &opened.found) {
        return Ok(Some(opened));
    }
    Ok(None)
}

/// Opens the regular file of a name, which exists. A link, a folder, a FIFO, a device or a socket is
/// told as what it is, and is not opened: nothing is waited for. Nothing of the file is changed. If
/// others may write to the folder, they may exchange what the name stands for after it was looked at;
/// what was opened then is closed again, and neither read nor written.
pub fn open_regular<R: Files>(
    rt: &R,
    path: &str,
    access: Access,
) -> io::Result<RegularFile<R::File>> {
    for _ in 0..TRIES {
        if let Some(opened) = open_once(rt, path, access)? {
            return Ok(opened);
        }
    }
    Err(io::Error::other("other files keep taking the name"))
}

/// Makes a file that is to be read and written, by its owner alone. The name has to be free: a link to
/// nothing takes it too.
pub fn create_regular<R: Files>(rt: &R, path: &str) -> io::Result<RegularFile<R::File>> {
    let made = OpenOptions::new()
        .read(true)
        .write(true)
        .create_new(true)
        .mode(0o600)
        .open(rt, path)?;
    checked(made)
}

/// Removes a regular file. What is none is told as what it is, and stays.
pub fn remove_regular<R: Files>(rt: &R, path: &str) -> io::Result<()> {
    require_regular(&fs::symlink_metadata(rt, path)?)?;
    fs::remove_file(rt, path)
}

// Refuses a file of this owner with so many names that the caller may not write to: another one's, or one
// that has a name somewhere else too.
fn require_own_file(caller: u32, owner: u32, names: u64) -> io::Result<()>
    ensures { IsOk result ↔ MayWriteTo caller owner names }
{
    if owner != caller && owner != 0 {
        return Err(io::Error::new(ErrorKind::PermissionDenied, "its owner is another user"));
    }
    if names > 1 {
        return Err(io::Error::new(ErrorKind::InvalidInput, "it has another name"));
    }
    Ok(())
}

impl<F> RegularFile<F> {
    /// Refuses a file that is not the caller's or root's, or that has more names than this one: what is
    /// written to it would be written to a file of somewhere else.
    pub fn require_own(&self) -> io::Result<()> {
        require_own_file(libc::geteuid(), self.found.uid(), self.found.nlink())
    }

    /// Refuses a file that no longer has this name: it, or its folder, was moved or removed.
    pub(crate) fn require_name<R: Files>(&self, rt: &R, path: &str) -> io::Result<()> {
        match fs::symlink_metadata(rt, path) {
            Ok(named) if are_same(&named, &self.found) => Ok(()),
            Err(error) if error.kind() != ErrorKind::NotFound => Err(error),
            _ => Err(io::Error::other("it was moved or removed")),
        }
    }
}

/// Opens a regular file, which is made if it is missing.
pub fn open_or_create<R: Files>(
    rt: &R,
    path: &str,
    access: Access,
) -> io::Result<RegularFile<R::File>> {
    for _ in 0..TRIES {
        match open_regular(rt, path, access) {
            Err(error) if error.kind() == ErrorKind::NotFound => {}
            answer => return answer,
        }
        match create_regular(rt, path) {
            Ok(made) => drop(made),
            Err(error) if error.kind() == ErrorKind::AlreadyExists => {}
            Err(error) => return Err(error),
        }
    }
    Err(ErrorKind::NotFound.into())
}
