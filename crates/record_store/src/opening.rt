//! A store is opened.
ghost use Rattle.std.specs.Prelude.{◌≡◌, ◌↔◌, [], List, ℕ, Some, IfErr, IfOk, IsErr, OnOk};
ghost use Rattle.disk.specs.Calls.{AtMostSyncs};
ghost use Rattle.disk.specs.Memory.{shown_now};
ghost use Rattle.journal.specs.Journals.{IsSound, KeepsOrSettlesOthers, OpensOn, SettlesOthers, name_of};
ghost use Rattle.archive_text.specs.Entries.{Entry, Has};
ghost use Rattle.record_store.specs.Asides.{KeepsOrSettlesFiles};
ghost use Rattle.record_store.specs.Causes.{IsCause, IsJournalCause, newest_causes};
ghost use Rattle.record_store.specs.Causes.{opening_causes, shown_causes};
ghost use Rattle.record_store.specs.Crashes.{Keeps};
ghost use Rattle.record_store.specs.Holdings.{JournalHas};
ghost use Rattle.record_store.specs.Names.{IsJournal};
ghost use Rattle.record_store.specs.Shown.{GivesNewest, GivesShown, IsNewestShown, JournalsWithin, ShowsNoJournal};
ghost use Rattle.record_store.specs.Shown.{ShowsTheBatches, ShowsWithin};
ghost use Rattle.record_store.specs.Stores.{AreAmong, IsBroken, Stands, begun, number_of};

use crate::RecordStore;
use crate::fault::StoreFault;
use crate::names::{name_of_journal, newest};
use disk::{Disk, FileName};
use journal::{Journal, JournalFault, SETTLE_SYNCS};
use std::alloc::Global;

/// How many syncs the opening of a store makes at most: those that settle and open its newest journal. A
/// first journal takes fewer.
pub const OPEN_SYNCS: u64 = SETTLE_SYNCS + journal::OPEN_SYNCS;

// Opens the journal that a read shows under a name, once what is shown is on the disk.
pub(crate) fn open_shown<D: Disk>(
    alloc: Global,
    disk: &mut D,
    name: FileName,
) -> Result<(Journal, Vec<u8>), JournalFault>
    ensures opened { IfOk result (λ r. D.tells disk.new → IsSound (D.state disk.old)
        → (octets : List ℕ) → shown_now ((D.state disk.old).entries name) ≡ Some octets
        → OpensOn r.0 (D.state disk.new) octets r.1.items) }
    ensures settles { OnOk result (D.tells disk.new → IsSound (D.state disk.old)
        → SettlesOthers (D.state disk.old) (D.state disk.new) name) }
    ensures name { IfOk result (λ r. name_of r.0 ≡ name) }

    // whatever the result is: so at every moment
    ensures any_moment { D.tells disk.new → IsSound (D.state disk.old) → IsJournal name
        → (octets : List ℕ) → shown_now ((D.state disk.old).entries name) ≡ Some octets
        → (committed received : List Entry) → Keeps (D.state disk.old) committed received
        → Keeps (D.state disk.new) committed received }
    ensures shows { D.tells disk.new → IsSound (D.state disk.old)
        → (octets : List ℕ) → shown_now ((D.state disk.old).entries name) ≡ Some octets
        → ShowsTheBatches (D.state disk.old) (D.state disk.new) name }
    ensures others { D.tells disk.new → KeepsOrSettlesOthers (D.state disk.old) (D.state disk.new) name }

    ensures syncs { AtMostSyncs OPEN_SYNCS (D.syncs disk.old) (D.syncs disk.new) }
    ensures told { D.tells disk.new → D.tells disk.old }
    ensures cause { IfErr result (IsJournalCause
        (shown_causes (D.tells disk.new) (D.has_failed disk.new) (D.state disk.old) name)) }
{
    if let Err(fault) = journal::settle(disk, &name) {
        return Err(JournalFault::Disk(fault));
    }
    journal::open(alloc, disk, name)
}

// Opens the journal of a number.
fn open_journal<D: Disk>(
    alloc: Global,
    disk: &mut D,
    number: u64,
) -> Result<(RecordStore, Vec<u8>), StoreFault>
    ensures opened { IfOk result (λ r. D.tells disk.new → IsSound (D.state disk.old)
        → (octets : List ℕ) → IsNewestShown (D.state disk.old) number octets
        → (committed received since : List Entry) → Keeps (D.state disk.old) committed received
        → AreAmong since received → JournalsWithin (D.state disk.old) since
        → ((e : Entry) → JournalHas r.1.items e → Has since e)
        → Stands r.0 (D.state disk.new) (begun committed received since)) }
    ensures gives { IfOk result (λ r. D.tells disk.new → IsSound (D.state disk.old)
        → (octets : List ℕ) → IsNewestShown (D.state disk.old) number octets
        → GivesShown (D.state disk.old) (number_of r.0) r.1.items) }
    ensures sound { OnOk result (D.tells disk.new → IsSound (D.state disk.old)
        → (octets : List ℕ) → IsNewestShown (D.state disk.old) number octets → IsSound (D.state disk.new)) }

    // whatever the result is: so at every moment
    ensures any_moment { D.tells disk.new → IsSound (D.state disk.old)
        → (octets : List ℕ) → IsNewestShown (D.state disk.old) number octets
        → (committed received : List Entry) → Keeps (D.state disk.old) committed received
        → Keeps (D.state disk.new) committed received }
    ensures shows { D.tells disk.new → IsSound (D.state disk.old)
        → (octets : List ℕ) → IsNewestShown (D.state disk.old) number octets
        → (since : List Entry) → ShowsWithin (D.state disk.old) since
        → ShowsWithin (D.state disk.new) since }
    ensures older { D.tells disk.new → IsSound (D.state disk.old)
        → (octets : List ℕ) → IsNewestShown (D.state disk.old) number octets
        → (since : List Entry) → JournalsWithin (D.state disk.old) since
        → JournalsWithin (D.state disk.new) since }
    ensures files { D.tells disk.new → KeepsOrSettlesFiles (D.state disk.old) (D.state disk.new) }

    ensures whole { IfOk result (λ r. ¬ (IsBroken r.0)) }
    ensures syncs { AtMostSyncs OPEN_SYNCS (D.syncs disk.old) (D.syncs disk.new) }
    ensures told { D.tells disk.new → D.tells disk.old }
    ensures cause { IfErr result (IsCause
        (newest_causes (D.tells disk.new) (D.has_failed disk.new) (D.state disk.old) number)) }
{
    let name = name_of_journal(alloc, number)?;
    match open_shown(alloc, disk, name) {
        Ok((journal, batches)) => {
            let store = RecordStore {
                journal,
                number,
                batch: Vec::new(alloc),
                broken: false,
            };
            Ok((store, batches))
        }
        Err(fault) => Err(StoreFault::Journal { number, fault }),
    }
}

/// Opens the store of a folder, after a restart of the machine or of the process alone. It gives
/// the batches of the newest journal that a read shows, one behind the other as
/// `journal::batch_len` finds them; their entries came since the last checkpoint. They are on the
/// disk then, and what was behind them is cut off. A folder without a journal gets one. The store
/// keeps what the folder keeps: whenever a crash comes, committed ⊆ S ⊆ received. It can say so
/// only if no sync has failed since the machine was started.
///
/// # Errors
/// The disk's fault, lack of memory, or a journal that is too long to be opened.
pub fn open<D: Disk>(alloc: Global, disk: &mut D) -> Result<(RecordStore, Vec<u8>), StoreFault>
    ensures opened { IfOk result (λ r. D.tells disk.new → IsSound (D.state disk.old)
        → (committed received since : List Entry) → Keeps (D.state disk.old) committed received
        → AreAmong since received → JournalsWithin (D.state disk.old) since
        → ((e : Entry) → JournalHas r.1.items e → Has since e)
        → Stands r.0 (D.state disk.new) (begun committed received since)) }
    ensures newest { IfOk result (λ r. D.tells disk.new → IsSound (D.state disk.old)
        → GivesNewest (D.state disk.old) (number_of r.0) r.1.items) }
    ensures received { IfOk result (λ r. D.tells disk.new → IsSound (D.state disk.old)
        → (committed received : List Entry) → Keeps (D.state disk.old) committed received
        → (e : Entry) → JournalHas r.1.items e → Has received e) }
    ensures sound { OnOk result (D.tells disk.new → IsSound (D.state disk.old) → IsSound (D.state disk.new)) }

    // whatever the result is: so at every moment
    ensures any_moment { D.tells disk.new → IsSound (D.state disk.old)
        → (committed received : List Entry) → Keeps (D.state disk.old) committed received
        → Keeps (D.state disk.new) committed received }
    ensures shows { D.tells disk.new → IsSound (D.state disk.old)
        → (since : List Entry) → ShowsWithin (D.state disk.old) since
        → ShowsWithin (D.state disk.new) since }
    ensures older { D.tells disk.new → IsSound (D.state disk.old)
        → (since : List Entry) → JournalsWithin (D.state disk.old) since
        → JournalsWithin (D.state disk.new) since }
    ensures files { D.tells disk.new → KeepsOrSettlesFiles (D.state disk.old) (D.state disk.new) }

    ensures whole { IfOk result (λ r. ¬ (IsBroken r.0)) }
    ensures syncs { AtMostSyncs OPEN_SYNCS (D.syncs disk.old) (D.syncs disk.new) }
    ensures told { D.tells disk.new → D.tells disk.old }
    ensures cause { IfErr result (IsCause
        (opening_causes (D.tells disk.new) (D.has_failed disk.new) (D.state disk.old))) }
{
    let names = match disk.names(alloc) {
        Ok(names) => names,
        Err(fault) => return Err(StoreFault::Folder { fault }),
    };
    match newest(&names) {
        Some(number) => open_journal(alloc, disk, number),
        None => Ok((RecordStore::begin(alloc, disk)?, Vec::new(alloc))),
    }
}

impl RecordStore {
    ghost use Rattle.record_store.specs.Stores.{Sets};

    /// Opens the store again after a call has failed for a full disk or for lack of memory: its
    /// newest journal is brought to the disk and cut behind its batches. The batch that waits is
    /// still there, so the next commit writes it; if the journal has it already, having it twice is
    /// the same set. Once a sync has failed for anything but want of room, it can promise nothing until
    /// the machine is restarted.
    ///
    /// # Errors
    /// Those of `open`. The store is broken then, and may be opened again as it is.
    pub fn reopen<D: Disk>(&mut self, alloc: Global, disk: &mut D) -> Result<(), StoreFault>
        // whatever the result is: so at every moment
        ensures stands { D.tells disk.new → IsSound (D.state disk.old) → (sets : Sets)
            → Stands self.old (D.state disk.old) sets → Stands self.new (D.state disk.new) sets }

        ensures breaks { IsErr result ↔ IsBroken self.new }
        ensures syncs { AtMostSyncs OPEN_SYNCS (D.syncs disk.old) (D.syncs disk.new) }
        ensures told { D.tells disk.new → D.tells disk.old }
        ensures cause { IfErr result (IsCause
            (opening_causes (D.tells disk.new) (D.has_failed disk.new) (D.state disk.old))) }
    {
        match open(alloc, disk) {
            Ok((opened, _batches)) => {
                let RecordStore {
                    journal,
                    number,
                    batch: _,
                    broken: _,
                } = opened;
                self.journal = journal;
                self.number = number;
                self.broken = false;
                Ok(())
            }
            Err(fault) => {
                self.broken = true;
                Err(fault)
            }
        }
    }
}
