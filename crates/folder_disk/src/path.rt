//! A folder's path, and those of its files.
ghost use Rattle.std.specs.Prelude.{◌≡◌, ◌++◌, IfOk, string_bytes};

use disk::FileName;
use std::alloc::{AllocError, Global};
use std::io::{self, ErrorKind};
use std::rt::Files;
use std::{fs, str};

/// A folder's path with a slash at its end, by which the system opens nothing but a folder.
#[derive(Drop)]
pub struct FolderPath {
    text: String,
}

// a name that the folder's listing has and no path can
fn is_no_text(error: &io::Error) -> bool {
    error.kind() == ErrorKind::InvalidFilename && error.raw_os_error().is_none()
}

impl FolderPath {
    /// The path of a folder by these words. It fails only when out of memory.
    pub fn new(alloc: Global, path: &str) -> Result<FolderPath, AllocError> {
        let mut text = String::from_str(alloc, path)?;
        if !path.is_empty() && !path.ends_with('/') {
            text.push('/')?;
        }
        Ok(FolderPath { text })
    }

    /// The text of the path.
    pub fn as_str(&self) -> &str {
        self.text.as_str()
    }

    /// The path of a file in the folder. A name that is not UTF-8 has none.
    pub fn of_file(&self, name: &FileName) -> io::Result<String>
        ensures { IfOk result (λ path. string_bytes path ≡ string_bytes self.now.text ++ name.now) }
    {
        let Ok(name) = str::from_utf8(name.as_octets()) else {
            return Err(ErrorKind::InvalidFilename.into());
        };
        let mut path = self.text.clone()?;
        path.push_str(name)?;
        Ok(path)
    }

    /// The names in the folder, except those that are not UTF-8 or that no `FileName` can hold.
    pub fn names<R: Files + AllocGlobal + Clone + Drop>(
        &self,
        rt: &R,
        alloc: Global,
    ) -> io::Result<Vec<FileName>> {
        let mut names = Vec::new(alloc);
        for entry in fs::read_dir(rt, self.as_str())? {
            let entry = match entry {
                Ok(entry) => entry,
                Err(error) if is_no_text(&error) => continue,
                Err(error) => return Err(error),
            };
            if let Some(name) = FileName::new(alloc, entry.file_name().as_bytes())? {
                names.push(name)?;
            }
        }
        Ok(names)
    }
}
