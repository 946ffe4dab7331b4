//! What keeps records through crashes, as a server sees it.
ghost use Rattle.std.specs.Prelude.{◌≡◌, [], Bool, OnErr, OnOk, false, length, ℕ};
ghost use Rattle.serve_engine.specs.Counts.{no_taken, taken_both};
ghost use Rattle.serve_engine.specs.Keepings.{HandsOver, Kept, all_committed};
ghost use Rattle.serve_engine.specs.Syncs.{MakesAtMost, take_syncs};

use archive_text::Store;
use std::alloc::Global;
use thiserror::Error;

/// Why records were not kept.
#[derive(Clone, Copy, Debug, PartialEq, Eq, Error)]
pub enum KeepFault {
    /// The disk has no room left. What was not kept waits, and can be tried again.
    #[error("the disk is full")]
    Full,
    /// The disk failed.
    #[error("the disk failed")]
    Failed,
    /// An allocation failed.
    #[error("out of memory")]
    Memory,
}

/// What became of the records of a set that was handed over.
#[derive(Clone, Copy, Debug, PartialEq, Eq)]
pub struct Taken {
    /// How many had not been held since the last checkpoint.
    pub new: u64,
    /// How many had.
    pub held: u64,
}

impl Taken {
    // What became of no record.
    pub(crate) fn none() -> Taken
        ensures { result ≡ no_taken }
    {
        Taken { new: 0, held: 0 }
    }

    // What became of these records and more.
    pub(crate) fn and(self, more: Taken) -> Taken
        ensures { result ≡ taken_both self more }
    {
        Taken {
            new: self.new.saturating_add(more.new),
            held: self.held.saturating_add(more.held),
        }
    }
}

/// What keeps records through crashes: a store on a disk. It is handed sets of records, and commits
/// what it was handed.
pub trait Keeping<S: Store> {
    // it stands with what it holds, and with what of that every crash leaves
    ghost stands: { Self → Kept → Type 0 };

    // memory is short for what comes into a set
    ghost short: { S → Bool };

    /// How many syncs were made.
    ghost syncs: { Self → ℕ };

    /// How many syncs a call makes at most. To take a set may need as many for each of its records.
    ghost most_syncs: { ℕ };

    /// Whether memory is short, so that what a set holds is to be taken before more comes into it.
    fn is_short(&self, fresh: &S) -> bool
        ensures { result ≡ short fresh.now };

    /// Takes what a set holds, and leaves it empty, so that memory is not short for it. If it was, what
    /// was kept before may be moved to other files, as by `checkpoint`. After an error, what was not
    /// taken is still in the set, so that the next call goes on.
    fn take(&mut self, alloc: Global, fresh: &mut S) -> Result<Taken, KeepFault>
        ensures hands { (k : Kept) → stands self.old k → (j : Kept) × stands self.new j
            × HandsOver k j (S.entries fresh.old) (S.entries fresh.new) }
        ensures empty { OnOk result (S.entries fresh.new ≡ []) }
        ensures short { OnOk result (short fresh.new ≡ false) }
        ensures syncs { MakesAtMost (take_syncs most_syncs (length (S.entries fresh.old)))
            (syncs self.old) (syncs self.new) };

    /// Commits what it holds: once this has returned `Ok`, every crash leaves it. It fails as the
    /// variants of [`KeepFault`] say.
    fn commit(&mut self, alloc: Global) -> Result<(), KeepFault>
        ensures ok { OnOk result ((k : Kept) → stands self.old k → stands self.new (all_committed k)) }
        ensures err { OnErr result ((k : Kept) → stands self.old k → stands self.new k) }
        ensures syncs { MakesAtMost most_syncs (syncs self.old) (syncs self.new) };

    /// Opens the store again after a call on the disk has failed. What waits still waits.
    fn reopen(&mut self, alloc: Global) -> Result<(), KeepFault>
        ensures kept { (k : Kept) → stands self.old k → stands self.new k }
        ensures syncs { MakesAtMost most_syncs (syncs self.old) (syncs self.new) };

    /// Moves what it holds to other files, so that the journal is short again. It holds the same.
    fn checkpoint(&mut self, alloc: Global) -> Result<(), KeepFault>
        ensures kept { (k : Kept) → stands self.old k → stands self.new k }
        ensures syncs { MakesAtMost most_syncs (syncs self.old) (syncs self.new) };

    /// How many octets the batches of the journal take in its file.
    fn journal_len(&self) -> u64;
}

/// The time of a server.
pub trait Pause {
    /// Waits for a while, in which nothing is read.
    fn pause(&mut self);

    /// How many milliseconds have passed since the last call, or, at the first, since the server began.
    fn passed(&mut self) -> u32;
}
