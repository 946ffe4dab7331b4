//! The names of drafts.

use disk::FileName;
use std::alloc::{AllocError, Global};

/// What a segment is called until all of it is on the disk. Files of these names count for nothing.
#[derive(Clone, Copy, Debug, PartialEq, Eq)]
pub enum DraftName {
    /// `new.archive`, of a checkpoint.
    Checkpoint,
    /// `add.archive`, of an archive that is added beside a store's server.
    Addition,
}

impl DraftName {
    ghost use Rattle.std.specs.Prelude.{◌≡◌, IfOk};
    ghost use Rattle.durable_store.specs.Segments.{octets_of};

    // The name as that of a file.
    pub(crate) fn file_name(self, alloc: Global) -> Result<FileName, AllocError>
        ensures { IfOk result (λ file. file ≡ octets_of self) }
    {
        let found = match self {
            DraftName::Checkpoint => FileName::new(alloc, b"new.archive")?,
            DraftName::Addition => FileName::new(alloc, b"add.archive")?,
        };
        match found {
            Some(file) => Ok(file),
            None => unreachable!(),
        }
    }
}
