//! Folders in memory that are read.

use archive_sets::InRange;
use disk::{Disk, DiskFault, FileName};
use octet_devices::{FromRead, Fuse, Output, ToWrite};
use std::alloc::Global;
use std::io::Cursor;
use std::test::Fail;
use store_reading::{Folder, ReadFault, read};
use store_test_support::calls::{names_in, octets_of};

/// All times, and records without one.
pub(crate) const ALL: InRange = InRange {
    from: None,
    to: None,
    undated: false,
};

/// The files of a folder, opened whole. So many are gone at first; so many listings miss a name each; the
/// file that is opened as that of a number fails when so many octets of it were read; the first that is
/// opened may have had other octets.
#[derive(Drop)]
pub(crate) struct View {
    files: Vec<(FileName, Vec<u8>)>,
    pub(crate) gone: u64,
    pub(crate) missed: usize,
    opened: u64,
    pub(crate) failing: u64,
    pub(crate) octets: u64,
    pub(crate) early: Option<Vec<u8>>,
}

impl View {
    // the octets of a file
    fn find(&self, alloc: Global, name: &FileName) -> Result<Vec<u8>, DiskFault> {
        for (other, octets) in &self.files {
            if other.as_octets() == name.as_octets() {
                return Ok(octets.as_slice().to_vec(alloc)?);
            }
        }
        Err(DiskFault::Missing)
    }
}

impl Folder for View {
    ghost use Rattle.std.specs.Prelude.{None};

    type File = Fuse<FromRead<Cursor<Vec<u8>>>>;

    ghost files = { λ _ _. None };

    ghost tells = { λ _. ⊥ };

    ghost has_failed = { λ _. Unit {0} };

    fn names(&mut self, alloc: Global) -> Result<Vec<FileName>, DiskFault> {
        let mut names = Vec::new(alloc);
        for (name, _) in &self.files {
            names.push(name.copy(alloc)?)?;
        }
        if 0 < self.missed && self.missed <= names.len() {
            drop(names.swap_remove(self.missed - 1));
        }
        self.missed = self.missed.saturating_sub(1);
        Ok(names)
    }

    fn open(&mut self, alloc: Global, name: &FileName) -> Result<Self::File, DiskFault> {
        if self.gone > 0 {
            self.gone -= 1;
            return Err(DiskFault::Missing);
        }
        let mut octets = self.find(alloc, name)?;
        if let Some(early) = self.early.take() {
            octets = early;
        }
        let limit = if self.opened == self.failing {
            self.octets
        } else {
            u64::MAX
        };
        self.opened = self.opened.saturating_add(1);
        Ok(Fuse::new(FromRead::new(Cursor::new(octets)), limit, u64::MAX))
    }
}

/// The view of what a disk shows, without faults.
pub(crate) fn view_of<D: Disk>(alloc: Global, disk: &mut D) -> Result<View, Fail> {
    let mut files = Vec::new(alloc);
    for name in names_in(alloc, disk)? {
        let octets = octets_of(alloc, disk, name.as_octets())?;
        files.push((name, octets))?;
    }
    Ok(View {
        files,
        gone: 0,
        missed: 0,
        opened: 0,
        failing: u64::MAX,
        octets: 0,
        early: None,
    })
}

fn read_to<F: Folder, W: Output>(
    alloc: Global,
    folder: &mut F,
    range: InRange,
    output: &mut W,
) -> Result<(), ReadFault> {
    read(alloc, folder, range, output)
}

/// What is answered if a range of a folder is read, and what is written.
pub(crate) fn written(
    alloc: Global,
    view: &mut View,
    range: InRange,
) -> (Result<(), ReadFault>, Vec<u8>) {
    let mut output = ToWrite::new(Vec::new(alloc));
    let answer = read_to(alloc, view, range, &mut output);
    (answer, output.into_inner())
}
