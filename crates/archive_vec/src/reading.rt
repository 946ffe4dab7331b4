//! An archive is read from its text.

ghost use Rattle.std.specs.Prelude.{◌≡◌, ◌+◌, ◌<◌, ◌^◌, ◌++◌, ◌∷◌, [], length, IfErr, IfOk};
ghost use Rattle.archive_text.specs.Entries.{Entry};
ghost use Rattle.archive_text.specs.Text.{entry_text, text_of};
ghost use Rattle.archive_vec.specs.Reads.{IsFaultOn, IsReadFault};

use crate::entry_list::EntryList;
use archive_text::{ArchiveFault, ENTRY_MAX, read_entry};
use std::alloc::Global;
use thiserror::Error;

/// Why no archive was read.
#[derive(Clone, Copy, Debug, PartialEq, Eq, Error)]
pub enum ReadFault {
    /// The text is no archive, for this reason.
    #[error("{0}")]
    Bad(ArchiveFault),
    /// An allocation failed.
    #[error("out of memory")]
    Memory,
}

impl EntryList {
    // Puts the entry that a text begins with behind the others, and gives what follows it. The
    // text of the others has `offset` octets.
    fn push_read<'a>(&mut self, text: &'a [u8], offset: u64) -> Result<&'a [u8], ReadFault>
        requires offset { offset ≡ length (text_of self.old) }
        requires fits { offset + length text.now < 2 ^ 64 }
        ensures ok { IfOk result (λ rest. (e : Entry) × (text.now ≡ entry_text e ++ rest.now)
            × (self.new ≡ self.old ++ e ∷ [])) }
        ensures err { IfErr result (λ fault. IsFaultOn self.old text.now fault) }
    {
        let (entry, rest) = match read_entry(ENTRY_MAX as u64, text) {
            Ok(read) => read,
            Err(fault) => return Err(ReadFault::Bad(fault.later(offset))),
        };
        if !self.is_below(&entry) {
            return Err(ReadFault::Bad(ArchiveFault::NotAscending { at: offset }));
        }
        match self.push(&entry) {
            Ok(()) => Ok(rest),
            Err(_) => Err(ReadFault::Memory),
        }
    }

    /// Reads the entries of which this is the text. The refusals are those of [`ReadFault`].
    pub fn read(alloc: Global, text: &[u8]) -> Result<EntryList, ReadFault>
        ensures ok { IfOk result (λ list. text.now ≡ text_of list) }
        ensures err { IfErr result (IsReadFault text.now) }
    {
        let mut list = EntryList::new(alloc);
        let mut rest = text;
        while !rest.is_empty() {
            let _archive = list.len();
            rest = match list.push_read(rest, (text.len() - rest.len()) as u64) {
                Ok(behind) => behind,
                Err(fault) => return Err(fault),
            };
        }
        Ok(list)
    }
}
