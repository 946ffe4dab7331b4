//! A durable store.
ghost use Rattle.std.specs.Prelude.{◌≡◌, ◌↔◌, [], List, IfErr, IfOk, IsErr, IsTrue, OnErr, OnOk, length};
ghost use Rattle.disk.specs.Calls.{AtMostSyncs, IsUnchanged};
ghost use Rattle.disk.specs.States.{State};
ghost use Rattle.journal.specs.Batches.{batches_text};
ghost use Rattle.journal.specs.Journals.{IsSound};
ghost use Rattle.journal.specs.declared.journal.TheConstants.{COMMIT_SYNCS};
ghost use Rattle.archive_text.specs.Entries.{Entry};
ghost use Rattle.record_store.specs.Causes.{IsCause, TellsNumber, commit_causes, opening_causes};
ghost use Rattle.record_store.specs.Crashes.{Keeps};
ghost use Rattle.record_store.specs.declared.opening.TheConstants.{OPEN_SYNCS};
ghost use Rattle.record_store.specs.Stores.{IsReady, Sets, all_committed, begun, number_of};
ghost use Rattle.durable_store.specs.Asides.{SetsTailsAside, asides_of};
ghost use Rattle.durable_store.specs.Causes.{IsDamage, IsOpeningCause};
ghost use Rattle.durable_store.specs.Durables.{IsBroken, Recovers, Stands, entries_of, journal_store, waiting_of};

use crate::aside::{SetAside, put_tails_aside};
use crate::fault::OpenFault;
use crate::recovery::recover;
use archive_pages::PagedArchive;
use disk::Disk;
use record_store::{RecordStore, StoreFault, open};
use std::alloc::Global;

/// A folder that holds a set of records through crashes, and in memory those of them that came
/// since the last checkpoint. What is added waits in memory until it is committed.
///
/// Once a call on the disk has failed, the store is broken: it still takes records, and every other
/// call says so until it is opened again (`reopen`).
#[derive(Drop)]
pub struct DurableStore {
    // those that came since the last checkpoint
    pub(crate) set: PagedArchive,
    // the journal, and the batch that waits
    pub(crate) store: RecordStore,
    // what was set aside when it was opened
    pub(crate) asides: Vec<SetAside>,
    // the canonical octets of the record that is added
    pub(crate) scratch: Vec<u8>,
}

impl DurableStore {
    /// Opens the store of a folder, after a restart of the machine or of the process alone. A
    /// folder without a journal gets one. The set in memory is that of all its journals, the oldest of
    /// which are read first: the newest, and those that a checkpoint left which was stopped. What is
    /// behind the batches of one, as after a commit that was cut short, stands for nothing and is cut
    /// off, but first set aside: it is written at the end of `damaged.journal.N` (`set_aside` tells).
    /// The store goes on with the newest journal, and its next checkpoints remove the others. It keeps
    /// what the folder keeps: whenever a crash comes, committed ⊆ S ⊆ received. It can say so only if no
    /// sync has failed since the machine was started.
    ///
    /// # Errors
    /// The disk's fault, lack of memory, or a journal that is too long or damaged. A damaged one is
    /// told, with its number, before anything is changed.
    pub fn open<D: Disk>(alloc: Global, disk: &mut D) -> Result<DurableStore, OpenFault>
        ensures opened { IfOk result (λ store. D.tells disk.new → IsSound (D.state disk.old)
            → (committed received : List Entry) → Keeps (D.state disk.old) committed received
            → Stands store (D.state disk.new) (begun committed received (entries_of store))) }
        ensures recovers { IfOk result (λ store. D.tells disk.new → IsSound (D.state disk.old)
            → Recovers store (D.state disk.old)) }
        ensures aside { IfOk result (λ store. D.tells disk.new → IsSound (D.state disk.old)
            → SetsTailsAside (D.state disk.old) (D.state disk.new) (asides_of store)) }

        // whatever the result is: so at every moment
        ensures any_moment { D.tells disk.new → IsSound (D.state disk.old)
            → (committed received : List Entry) → Keeps (D.state disk.old) committed received
            → Keeps (D.state disk.new) committed received }

        ensures whole { IfOk result (λ store. ¬ (IsBroken store)) }
        ensures damaged { IfErr result (λ fault. IsDamage fault → D.tells disk.new
            → IsUnchanged (D.state disk.old) (D.state disk.new)) }
        ensures told { D.tells disk.new → D.tells disk.old }
        ensures cause { IfErr result (IsOpeningCause (D.tells disk.new) (D.has_failed disk.new)
            (D.state disk.old)) }
    {
        let (set, tails) = recover(alloc, disk)?;
        let asides = put_tails_aside(alloc, disk, &tails)?;
        let (store, _batches) = open(alloc, disk)?;
        Ok(DurableStore {
            set,
            store,
            asides,
            scratch: Vec::new(alloc),
        })
    }

    /// What was set aside when the store was opened, the oldest journal first.
    pub fn set_aside(&self) -> &[SetAside]
        ensures { result.now ≡ asides_of self.now }
    {
        &self.asides
    }

    /// Commits what waits. Once it has returned `Ok`, every crash leaves its records; a crash at
    /// any moment leaves what is committed, and nothing that was not received. If nothing waits,
    /// nothing is asked of the disk.
    ///
    /// # Errors
    /// The disk's fault, or lack of memory. What waits is still there, and the store is broken:
    /// `reopen` it.
    pub fn commit<D: Disk>(&mut self, alloc: Global, disk: &mut D) -> Result<(), StoreFault>
        ensures committed { OnOk result (D.tells disk.new → (sets : Sets)
            → Stands self.old (D.state disk.old) sets
            → Stands self.new (D.state disk.new) (all_committed sets)) }
        ensures err { OnErr result (D.tells disk.new → (sets : Sets)
            → Stands self.old (D.state disk.old) sets → Stands self.new (D.state disk.new) sets) }

        // whatever the result is: so at every moment
        ensures any_moment { D.tells disk.new → (sets : Sets)
            → Stands self.old (D.state disk.old) sets
            → Keeps (D.state disk.new) sets.committed sets.received }

        ensures same { entries_of self.new ≡ entries_of self.old }
        ensures idle { waiting_of self.old ≡ [] → disk.new ≡ disk.old }
        ensures breaks { IsErr result ↔ IsBroken self.new }
        ensures syncs { AtMostSyncs COMMIT_SYNCS (D.syncs disk.old) (D.syncs disk.new) }
        ensures told { D.tells disk.new → D.tells disk.old }
        ensures cause { IfErr result (IsCause (commit_causes (D.tells disk.new) (D.has_failed disk.new)
            (journal_store self.old) (D.state disk.old))) }
        ensures number { IfErr result (TellsNumber (number_of (journal_store self.old))) }
    {
        self.store.commit(alloc, disk)
    }

    /// Opens the store again after a call has failed for a full disk or for lack of memory, a sync among
    /// them. What was added is still there, in memory and among what waits. Once a sync has failed for
    /// anything else, it can promise nothing until the machine is restarted.
    ///
    /// # Errors
    /// Those of `open`. The store is broken then, and may be opened again as it is.
    pub fn reopen<D: Disk>(&mut self, alloc: Global, disk: &mut D) -> Result<(), StoreFault>
        // whatever the result is: so at every moment
        ensures stands { D.tells disk.new → IsSound (D.state disk.old) → (sets : Sets)
            → Stands self.old (D.state disk.old) sets → Stands self.new (D.state disk.new) sets }

        ensures same { entries_of self.new ≡ entries_of self.old }
        ensures breaks { IsErr result ↔ IsBroken self.new }
        ensures syncs { AtMostSyncs OPEN_SYNCS (D.syncs disk.old) (D.syncs disk.new) }
        ensures told { D.tells disk.new → D.tells disk.old }
        ensures cause { IfErr result (IsCause
            (opening_causes (D.tells disk.new) (D.has_failed disk.new) (D.state disk.old))) }
    {
        self.store.reopen(alloc, disk)
    }

    /// How many octets wait for a commit.
    pub fn waiting(&self) -> usize
        ensures { result ≡ length (waiting_of self.now) }
    {
        self.store.waiting()
    }

    /// How many octets the batches of the journal take in its file.
    pub fn journal_len(&self) -> u64
        ensures { (state : State) (since : List Entry)
            → (ready : IsReady (journal_store self.now) state since)
            → result ≡ length (batches_text ready.bodies) }
    {
        self.store.journal_len()
    }

    /// Whether a call has failed, so that the store has to be opened again.
    pub fn is_broken(&self) -> bool
        ensures { IsTrue result ↔ IsBroken self.now }
    {
        self.store.is_broken()
    }
}
