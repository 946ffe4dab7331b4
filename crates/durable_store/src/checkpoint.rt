//! A checkpoint.
ghost use Rattle.std.specs.Prelude.{◌≡◌, ◌↔◌, [], IfErr, IsErr, OnErr, OnOk};
ghost use Rattle.archive_pages.specs.Paged.{entries_in};
ghost use Rattle.disk.specs.Calls.{AtMostSyncs};
ghost use Rattle.record_store.specs.Stores.{AreAmong, IsBroken as IsStoreBroken, Sets};
ghost use Rattle.record_store.specs.Segments.{SegmentsGrow, SegmentsStay};
ghost use Rattle.record_store.specs.Stores.{Stands as JournalStands, number_of};
ghost use Rattle.record_store.specs.Turns.{ShedsOldest, turned};
ghost use Rattle.durable_store.specs.Causes.{IsCheckpointCause, StandsAtAll, StandsWith};
ghost use Rattle.durable_store.specs.Durables.{IsBroken, Stands, entries_of, journal_store};

use crate::DurableStore;
use crate::draft::DraftName;
use crate::fault::CheckpointFault;
use crate::mixed::{SET_SYNCS, write_segments};
use archive_pages::PagedArchive;
use disk::Disk;
use record_store::{RecordStore, StoreFault, TURN_SYNCS};
use std::alloc::Global;

/// How many syncs a checkpoint makes at most: those of its segments, and those of the new journal. They are 132.
pub const CHECKPOINT_SYNCS: u64 = SET_SYNCS + TURN_SYNCS;

// Writes the segments, and then begins a new journal.
fn write_out<D: Disk>(
    alloc: Global,
    disk: &mut D,
    store: &mut RecordStore,
    set: &PagedArchive,
) -> Result<(), CheckpointFault>
    ensures done { OnOk result (D.tells disk.new → (sets : Sets)
        → JournalStands store.old (D.state disk.old) sets → AreAmong (entries_in set.now) sets.received
        → AreAmong sets.since (entries_in set.now)
        → JournalStands store.new (D.state disk.new) (turned sets)) }
    ensures err { OnErr result (D.tells disk.new → (sets : Sets)
        → JournalStands store.old (D.state disk.old) sets → AreAmong (entries_in set.now) sets.received
        → AreAmong sets.since (entries_in set.now)
        → JournalStands store.new (D.state disk.new) sets) }
    ensures segments { D.tells disk.new → StandsWith store.old (D.state disk.old) (entries_in set.now)
        → SegmentsGrow 65 (D.state disk.old) (D.state disk.new) }
    ensures sheds { OnOk result (D.tells disk.new
        → StandsWith store.old (D.state disk.old) (entries_in set.now)
        → ShedsOldest 64 (D.state disk.old) (D.state disk.new) (number_of store.old)) }
    ensures whole { OnOk result (¬ (IsStoreBroken store.new)) }
    ensures syncs { AtMostSyncs CHECKPOINT_SYNCS (D.syncs disk.old) (D.syncs disk.new) }
    ensures told { D.tells disk.new → D.tells disk.old }
    ensures cause { IfErr result (IsCheckpointCause (D.tells disk.new) (D.has_failed disk.new)
        (StandsWith store.old (D.state disk.old) (entries_in set.now)) store.old (D.state disk.new)) }
{
    if store.is_broken() {
        return Err(CheckpointFault::Store(StoreFault::Broken));
    }
    if let Err(fault) = write_segments(alloc, disk, DraftName::Checkpoint, set) {
        store.break_off();
        return Err(CheckpointFault::Segment(fault));
    }
    store.turn(alloc, disk)?;
    Ok(())
}

impl DurableStore {
    /// Writes what is in memory as segments, and begins a new journal; those before it, the oldest
    /// first and at most 64, are removed only once these are on the disk. A day gets a segment of its own where it has at
    /// least a 64th of the octets; the others share one, so that at most 65 segments come whatever
    /// times the records have. The set in memory is empty then, and all that was received is
    /// committed. A crash at any moment leaves what is
    /// committed, and nothing that was not received; if one comes in between, records are there
    /// twice, which is the same set.
    ///
    /// # Errors
    /// The disk's fault, lack of memory, or a damaged file under the name of a segment, which
    /// stays. The set in memory is as it was, some segments may be there, the draft is removed where
    /// the disk lets it, and the store is broken: `reopen` it.
    pub fn checkpoint<D: Disk>(
        &mut self,
        alloc: Global,
        disk: &mut D,
    ) -> Result<(), CheckpointFault>
        ensures done { OnOk result (D.tells disk.new → (sets : Sets)
            → Stands self.old (D.state disk.old) sets
            → Stands self.new (D.state disk.new) (turned sets)) }
        ensures err { OnErr result (D.tells disk.new → (sets : Sets)
            → Stands self.old (D.state disk.old) sets → Stands self.new (D.state disk.new) sets) }

        // whatever the result is: so at every moment
        ensures segments { D.tells disk.new → StandsAtAll self.old (D.state disk.old)
            → SegmentsStay (D.state disk.old) (D.state disk.new) }
        ensures few { D.tells disk.new → StandsAtAll self.old (D.state disk.old)
            → SegmentsGrow 65 (D.state disk.old) (D.state disk.new) }

        // the oldest of the journals that were there are removed
        ensures sheds { OnOk result (D.tells disk.new → StandsAtAll self.old (D.state disk.old)
            → ShedsOldest 64 (D.state disk.old) (D.state disk.new) (number_of (journal_store self.old))) }

        ensures empty { OnOk result (entries_of self.new ≡ []) }
        ensures same { OnErr result (entries_of self.new ≡ entries_of self.old) }
        ensures breaks { IsErr result ↔ IsBroken self.new }
        ensures syncs { AtMostSyncs CHECKPOINT_SYNCS (D.syncs disk.old) (D.syncs disk.new) }
        ensures told { D.tells disk.new → D.tells disk.old }
        ensures cause { IfErr result (IsCheckpointCause (D.tells disk.new) (D.has_failed disk.new)
            (StandsAtAll self.old (D.state disk.old)) (journal_store self.old) (D.state disk.new)) }
    {
        match write_out(alloc, disk, &mut self.store, &self.set) {
            Ok(()) => {
                self.set = PagedArchive::new(alloc);
                Ok(())
            }
            Err(fault) => {
                self.store.break_off();
                Err(fault)
            }
        }
    }
}
