//! A store that is written.
ghost use Rattle.std.specs.Prelude.{◌≡◌, ◌≢◌, ◌↔◌, ◌++◌, ◌∷◌, [], List, ℕ, IfErr, IfOk, IsErr, IsErrOf, OnErr, OnOk};
ghost use Rattle.disk.specs.Calls.{AtMostSyncs};
ghost use Rattle.disk.specs.States.{State};
ghost use Rattle.journal.specs.Journals.{IsSound, Stands as JournalStands};
ghost use Rattle.journal.specs.declared.journal.TheConstants.{COMMIT_SYNCS, CREATE_SYNCS};
ghost use Rattle.archive_text.specs.Entries.{Entry, IsEntry};
ghost use Rattle.record_store.specs.Asides.{KeepsOrSettlesFiles};
ghost use Rattle.record_store.specs.Causes.{IsCause, TellsNumber, commit_causes, first_causes};
ghost use Rattle.record_store.specs.Crashes.{Keeps};
ghost use Rattle.record_store.specs.Seals.{sealed};
ghost use Rattle.record_store.specs.Shown.{JournalsWithin, ShowsNoJournal, ShowsWithin};
ghost use Rattle.record_store.specs.Stores.{AreAmong, IsAppendFault, IsBroken, Sets, Stands};
ghost use Rattle.record_store.specs.Stores.{all_committed, batch_of, begun, journal_of, number_of};
ghost use Rattle.record_store.specs.Stores.{with_waiting};

use crate::batch::put_entry;
use crate::fault::{AppendFault, StoreFault};
use crate::names::name_of_journal;
use crate::sealing::put_seal;
use archive_text::{ENTRY_MAX, entry_of_octets};
use disk::Disk;
use journal::{Journal, JournalFault};
use std::alloc::Global;

/// A folder that holds a set of records. What is appended waits in memory until it is committed.
/// Once a call has failed on the disk, every later one answers `Broken`.
#[derive(Drop)]
pub struct RecordStore {
    pub(crate) journal: Journal,
    pub(crate) number: u64,
    pub(crate) batch: Vec<u8>,
    pub(crate) broken: bool,
}

impl RecordStore {
    // Makes the first journal, in a folder that has none.
    pub(crate) fn begin<D: Disk>(alloc: Global, disk: &mut D) -> Result<RecordStore, StoreFault>
        ensures made { IfOk result (λ store. D.tells disk.new → IsSound (D.state disk.old)
            → ShowsNoJournal (D.state disk.old) → (committed received since : List Entry)
            → Keeps (D.state disk.old) committed received → AreAmong since received
            → Stands store (D.state disk.new) (begun committed received since)) }
        ensures number { IfOk result (λ store. number_of store ≡ 1) }
        ensures sound { OnOk result (D.tells disk.new → IsSound (D.state disk.old) → IsSound (D.state disk.new)) }

        // whatever the result is: so at every moment
        ensures any_moment { D.tells disk.new → IsSound (D.state disk.old)
            → ShowsNoJournal (D.state disk.old) → (committed received : List Entry)
            → Keeps (D.state disk.old) committed received
            → Keeps (D.state disk.new) committed received }
        ensures shows { D.tells disk.new → ShowsNoJournal (D.state disk.old)
            → (since : List Entry) → ShowsWithin (D.state disk.new) since }
        ensures older { D.tells disk.new → ShowsNoJournal (D.state disk.old)
            → (since : List Entry) → JournalsWithin (D.state disk.new) since }
        ensures files { D.tells disk.new → KeepsOrSettlesFiles (D.state disk.old) (D.state disk.new) }

        ensures whole { IfOk result (λ store. ¬ (IsBroken store)) }
        ensures syncs { AtMostSyncs CREATE_SYNCS (D.syncs disk.old) (D.syncs disk.new) }
        ensures told { D.tells disk.new → D.tells disk.old }
        ensures cause { IfErr result (IsCause
            (first_causes (D.tells disk.new) (D.has_failed disk.new) (D.state disk.old))) }
    {
        let name = name_of_journal(alloc, 1)?;
        match Journal::create(disk, name) {
            Ok(journal) => Ok(RecordStore {
                journal,
                number: 1,
                batch: Vec::new(alloc),
                broken: false,
            }),
            Err(fault) => Err(StoreFault::Journal {
                number: 1,
                fault: JournalFault::Disk(fault),
            }),
        }
    }

    /// Adds the record with these canonical octets to the batch. It is not on the disk before the
    /// next commit. A refusal, as the variants of [`AppendFault`] say, changes nothing.
    pub fn append(&mut self, octets: &[u8]) -> Result<(), AppendFault>
        ensures ok { OnOk result ((state : State) (sets : Sets) → Stands self.old state sets
            → (e : Entry) × IsEntry e × (e.octets ≡ octets.now)
            × Stands self.new state (with_waiting sets e)) }
        ensures err { OnErr result ((state : State) (sets : Sets) → Stands self.old state sets
            → Stands self.new state sets) }
        ensures fault { IfErr result (IsAppendFault self.old octets.now) }
        ensures broken { IsBroken self.old → IsErrOf result AppendFault.Broken }
        ensures same { self.new.broken ≡ self.old.broken }
    {
        if self.broken {
            return Err(AppendFault::Broken);
        }
        if octets.len() > ENTRY_MAX {
            return Err(AppendFault::TooLong);
        }
        let entry = match entry_of_octets(octets) {
            Ok(entry) => entry,
            Err(fault) => return Err(AppendFault::Entry(fault)),
        };
        match put_entry(&mut self.batch, entry.octets) {
            Ok(()) => Ok(()),
            Err(_) => Err(AppendFault::Memory),
        }
    }

    /// Commits the batch. Once it has returned `Ok`, every crash leaves its records; a crash at any
    /// moment leaves what is committed, and nothing that was not received. If nothing waits,
    /// nothing is asked of the disk. It fails as the variants of [`StoreFault`] say, and the store
    /// is broken then.
    pub fn commit<D: Disk>(&mut self, alloc: Global, disk: &mut D) -> Result<(), StoreFault>
        ensures committed { OnOk result (D.tells disk.new → (sets : Sets)
            → Stands self.old (D.state disk.old) sets
            → Stands self.new (D.state disk.new) (all_committed sets)) }
        ensures err { OnErr result (D.tells disk.new → (sets : Sets)
            → Stands self.old (D.state disk.old) sets → Stands self.new (D.state disk.new) sets) }

        // whatever the result is: so at every moment
        ensures any_moment { D.tells disk.new → (sets : Sets)
            → Stands self.old (D.state disk.old) sets
            → Keeps (D.state disk.new) sets.committed sets.received }

        // with its seal
        ensures sealed { OnOk result (D.tells disk.new → (bodies : List (List ℕ))
            → JournalStands (journal_of self.old) (D.state disk.old) bodies
            → batch_of self.old ≢ [] → JournalStands (journal_of self.new) (D.state disk.new)
            (bodies ++ sealed (batch_of self.old) ∷ [])) }

        ensures idle { batch_of self.old ≡ [] → disk.new ≡ disk.old }
        ensures broken { IsErrOf result StoreFault.Broken ↔ IsBroken self.old }
        ensures breaks { IsErr result ↔ IsBroken self.new }
        ensures syncs { AtMostSyncs COMMIT_SYNCS (D.syncs disk.old) (D.syncs disk.new) }
        ensures told { D.tells disk.new → D.tells disk.old }
        ensures cause { IfErr result (IsCause
            (commit_causes (D.tells disk.new) (D.has_failed disk.new) self.old (D.state disk.old))) }
        ensures number { IfErr result (TellsNumber (number_of self.old)) }
    {
        if self.broken {
            return Err(StoreFault::Broken);
        }
        if self.batch.len() == 0 {
            return Ok(());
        }
        let len = self.batch.len();
        match put_seal(&mut self.batch) {
            Ok(()) => {}
            Err(_) => {
                self.broken = true;
                return Err(StoreFault::Memory);
            }
        }
        match self.journal.commit(alloc, disk, &self.batch) {
            Ok(()) => {
                self.batch.clear();
                Ok(())
            }
            Err(fault) => {
                self.batch.truncate(len);
                self.broken = true;
                Err(StoreFault::Journal {
                    number: self.number,
                    fault: JournalFault::Disk(fault),
                })
            }
        }
    }
}
