//! Files in memory, whose octets contracts know.

use crate::files::Files;
use octet_devices::FromRead;

/// A file in memory.
#[derive(Clone, Copy)]
pub struct MemoryFile<'a> {
    /// Its name.
    pub name: &'a str,
    /// What it holds.
    pub octets: &'a [u8],
}

/// Files in memory. Of two with the same name, the first counts.
#[derive(Drop)]
pub struct MemoryFiles<'a> {
    files: &'a [MemoryFile<'a>],
}

impl<'a> MemoryFiles<'a> {
    ghost use Rattle.std.specs.Prelude.{◌≡◌, Some};
    ghost use Rattle.commands.specs.Memory.{stored_in};

    /// These files, found by their names.
    pub fn new(files: &'a [MemoryFile<'a>]) -> MemoryFiles<'a>
        ensures { ⟦<MemoryFiles<'a> as Files>⟧.stored result
            ≡ Some (λ name. stored_in name files.entry.now) }
    {
        MemoryFiles { files }
    }
}

impl<'a> Files for MemoryFiles<'a> {
    ghost use Rattle.std.specs.Prelude.{Some};
    ghost use Rattle.commands.specs.Memory.{stored_in};

    type Reader = FromRead<&'a [u8]>;

    ghost stored = { λ f. Some (λ name. stored_in name f.files.now) };

    fn reader(&mut self, name: &str) -> Option<FromRead<&'a [u8]>> {
        for file in self.files {
            if file.name == name {
                return Some(FromRead::new(file.octets));
            }
        }
        None
    }
}
