//! One journal after another.
ghost use Rattle.std.specs.Prelude.{◌≡◌, ◌⊎◌, ◌+◌, ◌↔◌, ◌^◌, ◌<◌, [], None, List, ℕ, Contains, IfErr, IfOk};
ghost use Rattle.std.specs.Prelude.{IsErr, OnErr, OnOk};
ghost use Rattle.disk.specs.Calls.{AtMostSyncs, IsUnchanged, RemovesFile};
ghost use Rattle.journal.specs.Journals.{IsSound, KeepsOrSettlesOthers, LeavesNoBatch, SettlesOthers};
ghost use Rattle.journal.specs.Journals.{ShowsNoBatch, Stands as JournalStands, name_of};
ghost use Rattle.archive_text.specs.Entries.{Entry};
ghost use Rattle.record_store.specs.Causes.{IsCause};
ghost use Rattle.record_store.specs.Crashes.{HeldApart, Keeps};
ghost use Rattle.record_store.specs.Names.{journal_name};
ghost use Rattle.record_store.specs.Segments.{SegmentsGrow};
ghost use Rattle.record_store.specs.Shown.{JournalsWithin, ShowsWithin, journal_shown};
ghost use Rattle.record_store.specs.Stores.{IsBroken, IsReady, IsWhole, Sets, Stands};
ghost use Rattle.record_store.specs.Stores.{journal_of, number_of};
ghost use Rattle.record_store.specs.Turns.{AreInSegments, LosesOnly, ShedsOldest, making_causes, removing_causes};
ghost use Rattle.record_store.specs.Turns.{shedding_causes, turn_causes, turned};

use crate::RecordStore;
use crate::fault::StoreFault;
use crate::listing::journals;
use crate::names::name_of_journal;
use disk::{Disk, DiskFault};
use journal::{CREATE_SYNCS, Journal, JournalFault};
use std::alloc::Global;

// the most journals that a turn removes
const SHED_MAX: usize = 64;

/// How many syncs a turn makes at most: those of the new journal.
pub const TURN_SYNCS: u64 = CREATE_SYNCS;

pub(crate) fn at_journal(number: u64, fault: DiskFault) -> StoreFault
    ensures { result ≡ StoreFault.Journal number (JournalFault.Disk fault) }
{
    StoreFault::Journal {
        number,
        fault: JournalFault::Disk(fault),
    }
}

// Makes the journal of a number.
fn make_journal<D: Disk>(alloc: Global, disk: &mut D, number: u64) -> Result<Journal, StoreFault>
    ensures made { IfOk result (λ journal. D.tells disk.new → IsSound (D.state disk.old)
        → JournalStands journal (D.state disk.new) []) }
    ensures name { IfOk result (λ journal. name_of journal ≡ journal_name number) }
    ensures settles { OnOk result (D.tells disk.new → IsSound (D.state disk.old)
        → SettlesOthers (D.state disk.old) (D.state disk.new) (journal_name number)) }

    // whatever the result is: so at every moment
    ensures any_moment { D.tells disk.new → IsSound (D.state disk.old)
        → LeavesNoBatch (D.state disk.old) (D.state disk.new) (journal_name number) }
    ensures others { D.tells disk.new
        → KeepsOrSettlesOthers (D.state disk.old) (D.state disk.new) (journal_name number) }
    ensures shows { D.tells disk.new → journal_shown (D.state disk.old) number ≡ None
        → ShowsNoBatch (D.state disk.new) (journal_name number) }

    ensures syncs { AtMostSyncs TURN_SYNCS (D.syncs disk.old) (D.syncs disk.new) }
    ensures told { D.tells disk.new → D.tells disk.old }
    ensures cause { IfErr result (IsCause
        (making_causes (D.tells disk.new) (D.has_failed disk.new) (D.state disk.old) number)) }
{
    let name = name_of_journal(alloc, number)?;
    match Journal::create(disk, name) {
        Ok(journal) => Ok(journal),
        Err(fault) => Err(at_journal(number, fault)),
    }
}

// Removes the journal of a number.
fn remove_journal<D: Disk>(alloc: Global, disk: &mut D, number: u64) -> Result<(), StoreFault>
    // whatever the result is: so at every moment
    ensures done { D.tells disk.new → IsUnchanged (D.state disk.old) (D.state disk.new)
        ⊎ RemovesFile (D.state disk.old) (D.state disk.new) (journal_name number) }
    ensures removed { OnOk result (D.tells disk.new
        → journal_shown (D.state disk.new) number ≡ None) }

    ensures syncs { AtMostSyncs 0 (D.syncs disk.old) (D.syncs disk.new) }
    ensures told { D.tells disk.new → D.tells disk.old }
    ensures cause { IfErr result (IsCause
        (removing_causes (D.tells disk.new) (D.has_failed disk.new) (D.state disk.old) number)) }
{
    let name = name_of_journal(alloc, number)?;
    match disk.remove(&name) {
        Ok(()) => Ok(()),
        Err(fault) => Err(at_journal(number, fault)),
    }
}

// Removes these journals, the first one first.
fn remove_journals<D: Disk>(alloc: Global, disk: &mut D, numbers: &[u64]) -> Result<(), StoreFault>
    ensures gone { OnOk result (D.tells disk.new → (n : ℕ) → Contains numbers.now n
        → journal_shown (D.state disk.new) n ≡ None) }

    // whatever the result is: so at every moment
    ensures any_moment { D.tells disk.new → AreInSegments (D.state disk.old) numbers.now
        → (committed received : List Entry) → Keeps (D.state disk.old) committed received
        → Keeps (D.state disk.new) committed received }
    ensures only { D.tells disk.new → LosesOnly (D.state disk.old) (D.state disk.new) numbers.now }
    ensures lost { D.tells disk.new → (D.state disk.new).lost ≡ (D.state disk.old).lost }

    ensures syncs { AtMostSyncs 0 (D.syncs disk.old) (D.syncs disk.new) }
    ensures told { D.tells disk.new → D.tells disk.old }
    ensures cause { IfErr result (IsCause (shedding_causes (D.tells disk.new) (D.has_failed disk.new)
        (D.state disk.old) numbers.now)) }
{
    for number in numbers {
        remove_journal(alloc, disk, *number)?;
    }
    Ok(())
}

// Makes the journal behind that of a number, and then removes the oldest of those up to it.
fn succeed<D: Disk>(alloc: Global, disk: &mut D, number: u64) -> Result<Journal, StoreFault>
    ensures ready { IfOk result (λ journal. D.tells disk.new → (store after : RecordStore)
        (since : List Entry) → IsReady store (D.state disk.old) since → number_of store ≡ number
        → journal_of after ≡ journal → number_of after ≡ number + 1
        → IsReady after (D.state disk.new) []) }

    // whatever the result is: so at every moment
    ensures any_moment { D.tells disk.new → (store : RecordStore) (since : List Entry)
        → IsReady store (D.state disk.old) since → number_of store ≡ number
        → JournalsWithin (D.state disk.old) since → HeldApart (D.state disk.old) since
        → (committed received : List Entry) → Keeps (D.state disk.old) committed received
        → Keeps (D.state disk.new) committed received }
    ensures apart { D.tells disk.new → (es : List Entry) → HeldApart (D.state disk.old) es
        → HeldApart (D.state disk.new) es }
    ensures shows { D.tells disk.new → (store : RecordStore) (since : List Entry)
        → IsReady store (D.state disk.old) since → number_of store ≡ number
        → ShowsWithin (D.state disk.new) since }
    ensures older { D.tells disk.new → (store : RecordStore) (since : List Entry)
        → IsReady store (D.state disk.old) since → number_of store ≡ number
        → JournalsWithin (D.state disk.old) since → JournalsWithin (D.state disk.new) since }
    ensures segments { D.tells disk.new → SegmentsGrow 0 (D.state disk.old) (D.state disk.new) }

    ensures fits { OnOk result (number + 1 < 2 ^ 64) }
    ensures sheds { OnOk result (D.tells disk.new → IsSound (D.state disk.old)
        → ShedsOldest 64 (D.state disk.old) (D.state disk.new) number) }
    ensures syncs { AtMostSyncs TURN_SYNCS (D.syncs disk.old) (D.syncs disk.new) }
    ensures told { D.tells disk.new → D.tells disk.old }
    ensures cause { (store : RecordStore) → IsWhole store → number_of store ≡ number → IfErr result (IsCause
        (turn_causes (D.tells disk.new) (D.has_failed disk.new) store (D.state disk.old))) }
{
    if number == u64::MAX {
        return Err(at_journal(number, DiskFault::Full));
    }
    let numbers = journals(alloc, disk, number)?;
    let journal = make_journal(alloc, disk, number + 1)?;
    let count = numbers.len().min(SHED_MAX);
    let (oldest, _) = numbers.split_at(count);
    remove_journals(alloc, disk, oldest)?;
    Ok(journal)
}

impl RecordStore {
    /// Begins the journal with the next number, on the disk, and only then removes those before it,
    /// the oldest first, at most 64: what is left of them the next turns remove. If segments hold
    /// each entry that came since the last checkpoint, whatever a crash leaves, then no entry has
    /// come since; those that waited are committed by these segments, and wait no more. If they do
    /// not, it promises nothing: write segments first (`add_segment`).
    ///
    /// # Errors
    /// The disk's fault, lack of memory, or `Full` if there is no greater number. The folder keeps
    /// what it kept, and the store is broken: `reopen` it.
    pub fn turn<D: Disk>(&mut self, alloc: Global, disk: &mut D) -> Result<(), StoreFault>
        ensures turned { OnOk result (D.tells disk.new → (sets : Sets)
            → Stands self.old (D.state disk.old) sets
            → HeldApart (D.state disk.old) sets.since
            → Stands self.new (D.state disk.new) (turned sets)) }
        ensures err { OnErr result (D.tells disk.new → (sets : Sets)
            → Stands self.old (D.state disk.old) sets
            → HeldApart (D.state disk.old) sets.since
            → Stands self.new (D.state disk.new) sets) }

        // whatever the result is: so at every moment
        ensures segments { D.tells disk.new → SegmentsGrow 0 (D.state disk.old) (D.state disk.new) }

        ensures number { OnOk result (number_of self.new ≡ number_of self.old + 1) }
        ensures sheds { OnOk result (D.tells disk.new → IsSound (D.state disk.old)
            → ShedsOldest 64 (D.state disk.old) (D.state disk.new) (number_of self.old)) }
        ensures breaks { IsErr result ↔ IsBroken self.new }
        ensures syncs { AtMostSyncs TURN_SYNCS (D.syncs disk.old) (D.syncs disk.new) }
        ensures told { D.tells disk.new → D.tells disk.old }
        ensures cause { IfErr result (IsCause
            (turn_causes (D.tells disk.new) (D.has_failed disk.new) self.old (D.state disk.old))) }
    {
        if self.broken {
            return Err(StoreFault::Broken);
        }
        match succeed(alloc, disk, self.number) {
            Ok(journal) => {
                self.journal = journal;
                self.number += 1;
                self.batch.clear();
                Ok(())
            }
            Err(fault) => {
                self.broken = true;
                Err(fault)
            }
        }
    }
}
