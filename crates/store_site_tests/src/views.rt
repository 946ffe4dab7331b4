//! Folders in memory that are read.

use disk::{Disk, DiskFault, FileName};
use octet_devices::FromRead;
use std::alloc::Global;
use std::io::Cursor;
use std::test::Fail;
use store_reading::Folder;
use store_test_support::calls::{names_in, octets_of};

/// The files of a folder, opened whole.
#[derive(Drop)]
pub(crate) struct View {
    files: Vec<(FileName, Vec<u8>)>,
}

impl Folder for View {
    ghost use Rattle.std.specs.Prelude.{None};

    type File = FromRead<Cursor<Vec<u8>>>;

    ghost files = { λ _ _. None };

    ghost tells = { λ _. ⊥ };

    ghost has_failed = { λ _. Unit {0} };

    fn names(&mut self, alloc: Global) -> Result<Vec<FileName>, DiskFault> {
        let mut names = Vec::new(alloc);
        for (name, _) in &self.files {
            names.push(name.copy(alloc)?)?;
        }
        Ok(names)
    }

    fn open(&mut self, alloc: Global, name: &FileName) -> Result<Self::File, DiskFault> {
        for (other, octets) in &self.files {
            if other.as_octets() == name.as_octets() {
                let copy = octets.as_slice().to_vec(alloc)?;
                return Ok(FromRead::new(Cursor::new(copy)));
            }
        }
        Err(DiskFault::Missing)
    }
}

/// The view of what a disk shows.
pub(crate) fn view_of<D: Disk>(alloc: Global, disk: &mut D) -> Result<View, Fail> {
    let mut files = Vec::new(alloc);
    for name in names_in(alloc, disk)? {
        let octets = octets_of(alloc, disk, name.as_octets())?;
        files.push((name, octets))?;
    }
    Ok(View { files })
}
