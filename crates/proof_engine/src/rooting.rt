//! The tree of an archive, as it is read.

ghost use Rattle.std.specs.Prelude.{◌≡◌, ◌∷◌, ◌++◌, [], ◌+◌, ◌^◌, ◌<◌, ℕ, List, IfOk, IsErrOf, MatchResult, length};
ghost use Rattle.archive_streams.specs.Entries.{current};
ghost use Rattle.archive_sets.specs.Failures.{ReadFailures};
ghost use Rattle.archive_tree.specs.Trees.{HasTaken};
ghost use Rattle.proof_engine.specs.Rooting.{Halted, HasRoot, IsFresh, IsUnrooted, ReadWhole};

use crate::reading::next_entry;
use archive_sets::SelectFault;
use archive_streams::ArchiveEntries;
use archive_tree::{TreeHead, TreeStream};
use octet_devices::Input;
use std::alloc::{AllocError, Global};

/// Reads an archive to its end, and gives the head of its Merkle tree (RFC 9162, section 2.1.1), whose leaves are the
/// canonical records without their counts.
///
/// # Errors
/// The first fault of the archive or of the reader; or lack of memory, before anything is read.
pub fn root_of<R: Input>(alloc: Global, reader: &mut R) -> Result<TreeHead, SelectFault>
    ensures outcome { MatchResult result
        (λ head. HasRoot head (R.state reader.old) (R.state reader.new))
        (λ fault. IsUnrooted fault (R.state reader.old) (R.state reader.new)) }
    ensures told { ReadFailures result (R.state reader.old).failures
        (R.state reader.new).failures }
    ensures memory { IsErrOf result SelectFault.Memory → reader.new ≡ reader.old }
{
    let Ok(mut rooting) = Rooting::new(alloc) else {
        return Err(SelectFault::Memory);
    };
    match rooting.read_all(reader) {
        Ok(()) => Ok(rooting.tree.finish(&mut [])),
        Err(fault) => Err(fault),
    }
}

/// The tree of an archive under way.
#[derive(Drop)]
pub struct Rooting {
    /// What was read of the archive.
    pub entries: ArchiveEntries,
    /// The tree of these entries.
    pub tree: TreeStream,
}

impl Rooting {
    /// A tree before the first entry. It fails only when out of memory.
    pub fn new(alloc: Global) -> Result<Rooting, AllocError>
        ensures { IfOk result IsFresh }
    {
        Ok(Rooting {
            entries: ArchiveEntries::new(alloc)?,
            tree: TreeStream::new(),
        })
    }

    // The entry that was read last goes into the tree.
    fn take(&mut self)
        ensures entries { self.new.entries ≡ self.old.entries }
        ensures taken { (xs : List (List ℕ)) → length xs + 1 < 2 ^ 64 → HasTaken self.old.tree xs
            → HasTaken self.new.tree (xs ++ (current self.old.entries).octets ∷ []) }
    {
        let entry = self.entries.entry();
        self.tree.push(entry.octets, &mut []);
    }

    /// Reads the archive to its end. It fails at the first fault that is met.
    pub fn read_all<R: Input>(&mut self, reader: &mut R) -> Result<(), SelectFault>
        requires { IsFresh self.old }
        ensures outcome { MatchResult result
            (λ _. ReadWhole self.new (R.state reader.old) (R.state reader.new))
            (λ fault. Halted fault (R.state reader.old) (R.state reader.new)) }
        ensures told { ReadFailures result (R.state reader.old).failures
            (R.state reader.new).failures }
    {
        'entries: while next_entry(&mut self.entries, reader)? {
            self.take();
        }
        Ok(())
    }
}
