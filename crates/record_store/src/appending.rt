//! Entries wait for a commit.
ghost use Rattle.std.specs.Prelude.{◌≡◌, ◌≤◌, ◌<◌, ◌+◌, ◌↔◌, ◌^◌, IsErrOf, IsTrue, List, OnErr, OnOk, length, take};
ghost use Rattle.disk.specs.States.{State};
ghost use Rattle.journal.specs.Batches.{batches_text};
ghost use Rattle.archive_text.specs.Entries.{Entry, IsEntry};
ghost use Rattle.archive_text.specs.EntryViews.{entry_of};
ghost use Rattle.record_store.specs.Stores.{IsBroken, IsReady, IsSameButBatch, Sets, Stands, batch_of};
ghost use Rattle.record_store.specs.Stores.{number_of, with_waiting};

use crate::RecordStore;
use crate::batch::put_entry;
use archive_text::{AddFault, ENTRY_MAX, EntryView};

// A batch of so many octets takes no entry more: with the longest one it would have more than a
// journal's batch may have.
const BATCH_MAX: usize = 4_294_000_000;

impl RecordStore {
    /// Adds an entry to the batch: one of `entry_of_octets`, `read_entry` or a set. It is not on
    /// the disk before the next commit. If a call has failed before, it waits until the store has
    /// been opened again.
    ///
    /// # Errors
    /// `TooLong`, or `Memory`, also for a batch of more than 4,294,000,000 octets. Nothing changes
    /// then.
    pub fn append_entry(&mut self, entry: &EntryView<'_>) -> Result<(), AddFault>
        ensures ok { OnOk result ((state : State) (sets : Sets) → Stands self.old state sets
            → IsEntry (entry_of entry.now)
            → Stands self.new state (with_waiting sets (entry_of entry.now))) }
        ensures err { OnErr result (batch_of self.new ≡ batch_of self.old) }
        ensures long { IsErrOf result AddFault.TooLong → ENTRY_MAX < length entry.now.octets.now }
        ensures behind { take (length (batch_of self.old)) (batch_of self.new) ≡ batch_of self.old }
        ensures same { IsSameButBatch self.old self.new }
    {
        if entry.octets.len() > ENTRY_MAX {
            return Err(AddFault::TooLong);
        }
        if self.batch.len() > BATCH_MAX {
            return Err(AddFault::Memory);
        }
        match put_entry(&mut self.batch, entry.octets) {
            Ok(()) => Ok(()),
            Err(_) => Err(AddFault::Memory),
        }
    }

    /// Takes back what was added to the batch behind its first octets, as many as `waiting` told
    /// before.
    pub fn take_back(&mut self, len: usize)
        ensures batch { batch_of self.new ≡ take len (batch_of self.old) }
        ensures same { IsSameButBatch self.old self.new }
    {
        self.batch.truncate(len);
    }

    /// How many octets wait for a commit.
    pub fn waiting(&self) -> usize
        ensures { result ≡ length (batch_of self.now) }
    {
        self.batch.len()
    }

    /// How many octets the batches of the journal take in its file.
    pub fn journal_len(&self) -> u64
        ensures { (state : State) (since : List Entry) → (ready : IsReady self.now state since)
            → result ≡ length (batches_text ready.bodies) }
    {
        self.journal.batches_len()
    }

    /// The number of its journal.
    pub fn number(&self) -> u64
        ensures { result ≡ number_of self.now }
    {
        self.number
    }

    /// Whether a call has failed, so that the store has to be opened again.
    pub fn is_broken(&self) -> bool
        ensures { IsTrue result ↔ IsBroken self.now }
    {
        self.broken
    }

    /// Breaks the store, like a call that fails: it has to be opened again.
    pub fn break_off(&mut self)
        ensures stands { (state : State) (sets : Sets) → Stands self.old state sets
            → Stands self.new state sets }
        ensures broken { IsBroken self.new }
        ensures batch { batch_of self.new ≡ batch_of self.old }
    {
        self.broken = true;
    }
}
