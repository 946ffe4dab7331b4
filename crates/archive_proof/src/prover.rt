//! Proofs are made, as the entries of an archive come.

ghost use Rattle.std.specs.Prelude.{◌≡◌, [], ◌∷◌, ◌++◌, ◌+◌, ◌<◌, ◌≤◌, ◌^◌, ◌↔◌, List, IfOk, IsErrOf, OnOk};
ghost use Rattle.std.specs.Prelude.{length};
ghost use Rattle.archive_text.specs.Entries.{Entry};
ghost use Rattle.archive_text.specs.EntryViews.{entry_of};
ghost use Rattle.archive_text.specs.Text.{IsArchive};
ghost use Rattle.archive_text.specs.declared.limits.TheConstants.{ENTRY_MAX};
ghost use Rattle.archive_tree.specs.Archives.{IsRootOf};
ghost use Rattle.archive_proof.specs.Asking.{asked_entries};
ghost use Rattle.archive_proof.specs.Proving.{AreFresh, IsProving, IsTextOfProofs};

use crate::asked::AskedRecord;
use crate::made::put_all;
use crate::records::ASKED_MAX;
use crate::search::{Search, look_all};
use archive_text::EntryView;
use archive_tree::{AuditPath, TreeHead, TreeStream};
use std::alloc::{AllocError, Global};
use thiserror::Error;

/// Why proofs are not begun.
#[derive(Clone, Copy, Debug, PartialEq, Eq, Error)]
pub enum ProverFault {
    /// There are more than `ASKED_MAX` records.
    #[error("more than {ASKED_MAX} records")]
    TooMany,
    /// An allocation failed.
    #[error("out of memory")]
    Memory,
}

impl From<AllocError> for ProverFault {
    ghost use Rattle.std.specs.Prelude.{◌≡◌};
    ghost use Rattle.archive_proof.specs.declared.prover.ProverFault.TheVariants.{Memory};

    ghost from_gives = { λ _ fault. fault ≡ Memory };

    fn from(_: AllocError) -> ProverFault {
        ProverFault::Memory
    }
}

/// Proofs of some records under way. The entries of the archive come in its order, each once for all
/// of the records.
#[derive(Drop)]
pub struct Prover {
    /// The records that are asked for.
    pub asked: Vec<AskedRecord>,
    /// For each, where its place is.
    pub searches: Vec<Search>,
    /// For each, the audit paths of the entries right before its place and right behind it. Where it
    /// is one of the entries, the first is its own.
    pub paths: Vec<AuditPath>,
    /// The tree of the entries that came.
    pub tree: TreeStream,
}

// So many searches before the first entry.
fn fresh(alloc: Global, count: usize) -> Result<Vec<Search>, AllocError>
    ensures { IfOk result (λ searches. AreFresh count searches.items) }
{
    let mut searches = Vec::new(alloc);
    'searches: while searches.len() < count {
        searches.push(Search::new(alloc))?;
    }
    Ok(searches)
}

// So many paths.
fn new_paths(alloc: Global, count: usize) -> Result<Vec<AuditPath>, AllocError>
    ensures { IfOk result (λ paths. length paths.items ≡ count) }
{
    let mut paths = Vec::new(alloc);
    'paths: while paths.len() < count {
        paths.push(AuditPath::new(0))?;
    }
    Ok(paths)
}

impl Prover {
    /// Proofs of some records, at most `ASKED_MAX` of them, before the first entry. The refusals are
    /// those of [`ProverFault`].
    pub fn new(alloc: Global, asked: Vec<AskedRecord>) -> Result<Prover, ProverFault>
        ensures begun { IfOk result (λ prover. IsProving (asked_entries asked.items) prover []) }
        ensures few { IfOk result (λ _. length asked.items ≤ ASKED_MAX) }
        ensures too_many { IsErrOf result ProverFault.TooMany ↔ (ASKED_MAX < length asked.items) }
    {
        if asked.len() > ASKED_MAX {
            return Err(ProverFault::TooMany);
        }
        let searches = fresh(alloc, asked.len())?;
        let paths = new_paths(alloc, 2 * asked.len())?;
        Ok(Prover {
            asked,
            searches,
            paths,
            tree: TreeStream::new(),
        })
    }

    /// Takes the next entry of the archive. It fails only when out of memory, and is of no use then.
    pub fn push(&mut self, entry: &EntryView<'_>) -> Result<(), AllocError>
        ensures { OnOk result ((rs xs : List Entry) → length xs + 1 < 2 ^ 64
            → IsArchive ENTRY_MAX (xs ++ entry_of entry.now ∷ [])
            → IsProving rs self.old xs
            → IsProving rs self.new (xs ++ entry_of entry.now ∷ [])) }
    {
        look_all(
            self.asked.as_slice(),
            self.searches.as_mut_slice(),
            self.paths.as_mut_slice(),
            entry,
            self.tree.count,
        )?;
        self.tree.push(entry.octets, self.paths.as_mut_slice());
        Ok(())
    }

    /// The head of the archive's tree, and for each of the records, in their order, the text of the
    /// proof that it is in the archive, or that it is not. It fails only when out of memory.
    pub fn finish(mut self, alloc: Global) -> Result<(TreeHead, Vec<u8>), AllocError>
        ensures head { IfOk result (λ made. (rs xs : List Entry) → length xs < 2 ^ 64
            → IsProving rs self xs → IsRootOf made.0 xs) }
        ensures text { IfOk result (λ made. (rs xs : List Entry) → length xs < 2 ^ 64
            → IsProving rs self xs → IsTextOfProofs made.0 xs rs made.1.items) }
    {
        let head = self.tree.finish(self.paths.as_mut_slice());
        let mut text = Vec::new(alloc);
        put_all(&mut text, self.searches.as_slice(), self.paths.as_slice())?;
        Ok((head, text))
    }
}
