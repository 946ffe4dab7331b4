//! A folder some of whose files are left out.

ghost use Rattle.std.specs.Prelude.{◌≡◌, ◌↔◌};
ghost use Rattle.read_engine.specs.LeftOut.{files_without};

use crate::folder_behind::FolderBehind;
use crate::left_out::LeftOut;
use disk::{DiskFault, FileName};
use std::alloc::Global;
use std::marker::PhantomData;
use store_reading::Folder;

/// A folder that shows the files of another one but for some, whose names it has not and which it does not open.
#[derive(Drop)]
pub(crate) struct WithoutFiles<'a, K: FolderBehind, F: Folder> {
    behind: PhantomData<K>,
    folder: &'a mut F,
    left_out: &'a LeftOut,
    ghost name: { folder.ghost_name ≡ K.name },
    ghost same: { F.tells folder.now → F.files folder.now ≡ K.files },
}

impl<'a, K: FolderBehind, F: Folder> WithoutFiles<'a, K, F> {
    /// The files of a folder but for those under these names.
    pub(crate) fn new(folder: &'a mut F, left_out: &'a LeftOut) -> WithoutFiles<'a, K, F>
        requires name { K.name ≡ folder.ghost_name }
        requires files { K.files ≡ F.files folder.old }
        ensures files { ⟦<WithoutFiles<'a, K, F> as Folder>⟧.files result
            ≡ files_without left_out.now.names.items (F.files folder.old) }
        ensures folder { result.folder.now ≡ folder.old }
    {
        WithoutFiles {
            behind: PhantomData,
            folder,
            left_out,
        }
    }

    /// The folder behind it.
    pub(crate) fn into_folder(self) -> &'a mut F
        ensures name { result.ghost_name ≡ K.name }
        ensures folder { result.now ≡ self.entry.folder.now }
        ensures same { F.tells result.now → F.files result.now ≡ K.files }
    {
        self.folder
    }
}

impl<'a, K: FolderBehind, F: Folder> Folder for WithoutFiles<'a, K, F> {
    type File = F::File;

    ghost files = { λ w. files_without w.left_out.now.names.items (F.files w.folder.now) };

    ghost tells = { λ w. F.tells w.folder.now };

    ghost has_failed = { λ w. F.has_failed w.folder.now };

    fn names(&mut self, alloc: Global) -> Result<Vec<FileName>, DiskFault> {
        let mut names = self.folder.names(alloc)?;
        let left_out = self.left_out;
        names.retain(|name| !left_out.has(name));
        Ok(names)
    }

    fn open(&mut self, alloc: Global, name: &FileName) -> Result<F::File, DiskFault> {
        if self.left_out.has(name) {
            return Err(DiskFault::Missing);
        }
        self.folder.open(alloc, name)
    }
}
