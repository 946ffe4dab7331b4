//! The proofs of records, as an archive is read.

ghost use Rattle.std.specs.Prelude.{◌≡◌, ◌∷◌, ◌++◌, [], ◌+◌, ◌^◌, ◌<◌, ◌≤◌, List, IfOk, MatchResult, OnOk, length};
ghost use Rattle.archive_text.specs.Entries.{Entry};
ghost use Rattle.archive_text.specs.Text.{IsArchive};
ghost use Rattle.archive_text.specs.declared.limits.TheConstants.{ENTRY_MAX};
ghost use Rattle.archive_streams.specs.Entries.{current, IsOpen};
ghost use Rattle.archive_sets.specs.Failures.{ReadFailures};
ghost use Rattle.archive_proof.specs.Asking.{asked_entries};
ghost use Rattle.archive_proof.specs.Proving.{IsProving};
ghost use Rattle.archive_proof.specs.declared.records.TheConstants.{ASKED_MAX};
ghost use Rattle.proof_engine.specs.Proving.{Halted, HasProofs, IsFresh, ReadWhole};

use crate::reading::next_entry;
use archive_proof::{AskedRecord, Prover};
use archive_sets::SelectFault;
use archive_streams::ArchiveEntries;
use octet_devices::Input;
use std::alloc::{AllocError, Global};

/// The proofs of records under way.
#[derive(Drop)]
pub struct Proving {
    /// What was read of the archive.
    pub entries: ArchiveEntries,
    /// The proofs, as far as these entries go.
    pub prover: Prover,
}

impl Proving {
    // Proofs of some records before the first entry. It fails when out of memory, and if they are more
    // than `ASKED_MAX`.
    fn new(alloc: Global, asked: Vec<AskedRecord>) -> Result<Proving, AllocError>
        ensures { IfOk result (IsFresh (asked_entries asked.items)) }
    {
        let entries = ArchiveEntries::new(alloc)?;
        match Prover::new(alloc, asked) {
            Ok(prover) => Ok(Proving { entries, prover }),
            Err(_) => Err(AllocError),
        }
    }

    // The proofs go on with the entry that was read last.
    fn take(&mut self) -> Result<(), AllocError>
        ensures entries { self.new.entries ≡ self.old.entries }
        ensures taken { OnOk result ((rs xs : List Entry) → length xs + 1 < 2 ^ 64
            → IsArchive ENTRY_MAX (xs ++ current self.old.entries ∷ [])
            → IsProving rs self.old.prover xs
            → IsProving rs self.new.prover (xs ++ current self.old.entries ∷ [])) }
    {
        let entry = self.entries.entry();
        self.prover.push(&entry)
    }

    // Reads the archive to its end. It fails at the first fault that is met.
    fn read_all<R: Input>(&mut self, reader: &mut R) -> Result<(), SelectFault>
        requires { IsOpen self.old.entries }
        ensures outcome { (rs : List Entry) → IsFresh rs self.old → MatchResult result
            (λ _. ReadWhole rs self.new (R.state reader.old) (R.state reader.new))
            (λ fault. Halted fault (R.state reader.old) (R.state reader.new)) }
        ensures told { ReadFailures result (R.state reader.old).failures
            (R.state reader.new).failures }
    {
        'entries: while next_entry(&mut self.entries, reader)? {
            if self.take().is_err() {
                return Err(SelectFault::Memory);
            }
        }
        Ok(())
    }
}

/// Reads an archive to its end, and answers the text of the proofs of some records, at most
/// `ASKED_MAX` of them. It fails at the first fault that is met.
pub(crate) fn prove_asked<R: Input>(
    alloc: Global,
    asked: Vec<AskedRecord>,
    reader: &mut R,
) -> Result<Vec<u8>, SelectFault>
    requires { length asked.items ≤ ASKED_MAX }
    ensures outcome { MatchResult result
        (λ text. HasProofs (asked_entries asked.items) (R.state reader.old) (R.state reader.new)
        text.items)
        (λ fault. Halted fault (R.state reader.old) (R.state reader.new)) }
    ensures told { ReadFailures result (R.state reader.old).failures
        (R.state reader.new).failures }
{
    let Ok(mut proving) = Proving::new(alloc, asked) else {
        return Err(SelectFault::Memory);
    };
    proving.read_all(reader)?;
    match proving.prover.finish(alloc) {
        Ok((_, text)) => Ok(text),
        Err(_) => Err(SelectFault::Memory),
    }
}
