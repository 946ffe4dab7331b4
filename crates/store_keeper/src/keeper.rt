//! A durable store and its disk.

use crate::adding::add_from;
use crate::spared::SparedSet;
use crate::watched::{SoundDisk, WatchedDisk};
use archive_pages::Place;
use archive_text::Store;
use disk::{Disk, DiskFault};
use durable_store::{CheckpointFault, DurableStore, OpenFault, SetAside};
use journal::JournalFault;
use record_store::{KeepFault as SegmentFault, StoreFault};
use serve_engine::{KeepFault, Keeping, Taken};
use std::alloc::{AllocError, Global};

/// A durable store and the disk that it is on, as what keeps the records of a server.
#[derive(Drop)]
pub struct DiskKeeper<D: Disk> {
    store: DurableStore,
    disk: WatchedDisk<D>,
    // memory that is held back for checkpoints
    reserve: Vec<u8>,
}

// How many octets are held back for checkpoints: as many as pages take at once, so that they are found
// again once a checkpoint has freed the pages of the set.
const RESERVE: usize = 1 << 20;

// Holds them back, if there is room.
fn reserve(alloc: Global) -> Vec<u8> {
    match Vec::with_capacity(alloc, RESERVE) {
        Ok(reserve) => reserve,
        Err(_) => Vec::new(alloc),
    }
}

// Room for a batch's head and seal.
const SEAL_ROOM: usize = 64;

// Whether there is memory for a batch of so many octets: for the room into which it grows with its seal,
// and for its copy.
fn has_room(alloc: Global, waiting: usize) -> bool {
    let room: Result<Vec<u8>, AllocError> = Vec::with_capacity(
        alloc,
        waiting.saturating_mul(3).saturating_add(SEAL_ROOM),
    );
    room.is_ok()
}

// What a fault of the store means to a server.
fn fault_of(fault: StoreFault) -> KeepFault {
    match fault {
        StoreFault::Memory => KeepFault::Memory,
        StoreFault::Folder {
            fault: DiskFault::Memory,
        } => KeepFault::Memory,
        StoreFault::Journal {
            number: _,
            fault: JournalFault::Disk(DiskFault::Memory),
        } => KeepFault::Memory,
        fault if fault.is_full() => KeepFault::Full,
        _ => KeepFault::Failed,
    }
}

// What a fault of a checkpoint means to a server.
fn fault_of_checkpoint(fault: CheckpointFault) -> KeepFault {
    match fault {
        CheckpointFault::Store(fault) => fault_of(fault),
        CheckpointFault::Segment(SegmentFault::Disk(DiskFault::Full)) => KeepFault::Full,
        CheckpointFault::Segment(SegmentFault::Disk(DiskFault::Memory)) => KeepFault::Memory,
        CheckpointFault::Segment(_) => KeepFault::Failed,
    }
}

impl<D: Disk + Drop> DiskKeeper<D> {
    ghost use Rattle.std.specs.Prelude.{◌≡◌, ◌+◌, ◌*◌, List, IfErr, IfOk, OnOk, length};
    ghost use Rattle.archive_text.specs.Entries.{Entry};
    ghost use Rattle.disk.specs.Calls.{AtMostSyncs};
    ghost use Rattle.record_store.specs.Crashes.{Keeps};
    ghost use Rattle.record_store.specs.Stores.{AreAmong, begun};
    ghost use Rattle.durable_store.specs.Asides.{SetsTailsAside, asides_of};
    ghost use Rattle.durable_store.specs.Durables.{IsBroken, Stands, entries_of};
    ghost use Rattle.durable_store.specs.declared.checkpoint.TheConstants.{CHECKPOINT_SYNCS};
    ghost use Rattle.serve_engine.specs.Keepings.{Kept, all_committed};
    ghost use Rattle.store_keeper.specs.Keepers.{KeepsOn, disk_of, store_of};
    ghost use Rattle.store_keeper.specs.Keeping.{kept_whole, with_held};
    ghost use Rattle.store_keeper.specs.Spares.{pages_of, spared_entries};

    /// Opens the store on a disk. The disk comes back where that fails.
    ///
    /// Where every crash leaves the same records in the folder, these are held and committed. After a
    /// process that was killed more may be there than was committed: the store is between the two.
    pub fn open(alloc: Global, sound: SoundDisk<D>) -> Result<DiskKeeper<D>, (OpenFault, D)>
        ensures whole { IfOk result (λ keeper. (es : List Entry) → Keeps (D.state sound.disk) es es
            → KeepsOn keeper (kept_whole es)) }
        ensures between { IfOk result (λ keeper. D.tells (disk_of keeper)
            → (committed received : List Entry) → Keeps (D.state sound.disk) committed received
            → Stands (store_of keeper) (D.state (disk_of keeper))
            (begun committed received (entries_of (store_of keeper)))) }
        ensures aside { IfOk result (λ keeper. D.tells (disk_of keeper)
            → SetsTailsAside (D.state sound.disk) (D.state (disk_of keeper)) (asides_of (store_of keeper))) }
        ensures unbroken { IfOk result (λ keeper. ¬ (IsBroken (store_of keeper))) }
        ensures kept { IfErr result (λ r. D.tells r.1 → (committed received : List Entry)
            → Keeps (D.state sound.disk) committed received → Keeps (D.state r.1) committed received) }
    {
        let mut disk = WatchedDisk::new(sound);
        match DurableStore::open(alloc, &mut disk) {
            Ok(store) => Ok(DiskKeeper {
                store,
                disk,
                reserve: reserve(alloc),
            }),
            Err(fault) => Err((fault, disk.into_inner())),
        }
    }

    /// What was set aside when the store was opened, the oldest journal first.
    pub fn set_aside(&self) -> &[SetAside]
        ensures { result.now ≡ asides_of (store_of self.now) }
    {
        self.store.set_aside()
    }

    /// The disk. Whatever a crash leaves of it has all that is committed, and nothing that is not held.
    pub fn disk(&self) -> &D
        ensures same { result.now ≡ disk_of self.now }
        ensures keeps { D.tells result.now → (k : Kept) → KeepsOn self.now k
            → Keeps (D.state result.now) k.committed k.held }
    {
        self.disk.inner()
    }

    // Moves what is in memory to other files. All of it is committed then.
    fn write_out(&mut self, alloc: Global) -> Result<(), KeepFault>
        ensures kept { (k : Kept) → KeepsOn self.old k → KeepsOn self.new k }
        ensures done { OnOk result ((k : Kept) → KeepsOn self.old k → KeepsOn self.new (all_committed k)) }
        ensures syncs { AtMostSyncs CHECKPOINT_SYNCS (D.syncs (disk_of self.old))
            (D.syncs (disk_of self.new)) }
    {
        self.reserve = Vec::new(alloc);
        let done = self.store.checkpoint(alloc, &mut self.disk);
        self.reserve = reserve(alloc);
        match done {
            Ok(()) => Ok(()),
            Err(fault) => Err(fault_of_checkpoint(fault)),
        }
    }

    // Frees the memory of what is in memory, if anything is.
    fn free_memory(&mut self, alloc: Global) -> Result<(), KeepFault>
        ensures kept { (k : Kept) → KeepsOn self.old k → KeepsOn self.new k }
        ensures syncs { AtMostSyncs CHECKPOINT_SYNCS (D.syncs (disk_of self.old))
            (D.syncs (disk_of self.new)) }
    {
        if self.store.len() == 0 {
            return Ok(());
        }
        self.write_out(alloc)
    }

    // Frees memory if it is short.
    fn relieve(&mut self, alloc: Global, short: bool) -> Result<(), KeepFault>
        ensures kept { (k : Kept) → KeepsOn self.old k → KeepsOn self.new k }
        ensures syncs { AtMostSyncs CHECKPOINT_SYNCS (D.syncs (disk_of self.old))
            (D.syncs (disk_of self.new)) }
    {
        if !short {
            return Ok(());
        }
        self.free_memory(alloc)
    }

    // Adds all records of a set. Where there is no memory for one, that of those before it is freed, and
    // it goes on with that one, as long as there is any to be freed. Once that was done, the store is empty,
    // so a round in which it is done again has added a record: the rounds are never used up.
    fn add_set(&mut self, alloc: Global, fresh: &mut SparedSet) -> Result<Taken, KeepFault>
        ensures same { pages_of fresh.new ≡ pages_of fresh.old }
        ensures all { OnOk result ((k : Kept) → KeepsOn self.old k
            → KeepsOn self.new (with_held k (spared_entries fresh.old))) }
        ensures some { (k : Kept) → KeepsOn self.old k → (some : List Entry)
            × AreAmong some (spared_entries fresh.old) × KeepsOn self.new (with_held k some) }
        ensures syncs { AtMostSyncs (CHECKPOINT_SYNCS * (length (spared_entries fresh.old) + 1))
            (D.syncs (disk_of self.old)) (D.syncs (disk_of self.new)) }
    {
        let mut taken = Taken { new: 0, held: 0 };
        let mut place = Place::first();
        let rounds = fresh.len().saturating_add(1);
        for _round in 0..rounds {
            match add_from(
                alloc,
                &mut self.store,
                fresh.pages(),
                &mut place,
                &mut taken,
            ) {
                Ok(()) => return Ok(taken),
                Err(KeepFault::Memory) if self.store.len() > 0 || !fresh.has_given_up() => {
                    fresh.give_up();
                    self.free_memory(alloc)?;
                }
                Err(fault) => return Err(fault),
            }
        }
        Err(KeepFault::Memory)
    }
}

impl<D: Disk + Drop> Keeping<SparedSet> for DiskKeeper<D> {
    ghost use Rattle.std.specs.Prelude.{OnErr, OnOk};
    ghost use Rattle.disk.specs.Calls.{AtMostSyncs};
    ghost use Rattle.durable_store.specs.declared.checkpoint.TheConstants.{CHECKPOINT_SYNCS};
    ghost use Rattle.serve_engine.specs.Keepings.{Kept, all_committed};
    ghost use Rattle.store_keeper.specs.Keepers.{KeepsOn, disk_of};
    ghost use Rattle.store_keeper.specs.Spares.{is_short};

    ghost stands = { λ keeper k. KeepsOn keeper k };

    ghost short = { λ fresh. is_short fresh };

    ghost syncs = { λ keeper. D.syncs (disk_of keeper) };

    ghost most_syncs = { CHECKPOINT_SYNCS };

    fn is_short(&self, fresh: &SparedSet) -> bool {
        fresh.is_short()
    }

    fn take(&mut self, alloc: Global, fresh: &mut SparedSet) -> Result<Taken, KeepFault> {
        self.relieve(alloc, fresh.has_given_up())?;
        let taken = self.add_set(alloc, fresh)?;
        fresh.clear(alloc);
        Ok(taken)
    }

    // Where there is no memory for a batch, a checkpoint commits what it would have had.
    fn commit(&mut self, alloc: Global) -> Result<(), KeepFault>
        ensures ok { OnOk result ((k : Kept) → KeepsOn self.old k → KeepsOn self.new (all_committed k)) }
        ensures err { OnErr result ((k : Kept) → KeepsOn self.old k → KeepsOn self.new k) }
        ensures syncs { AtMostSyncs CHECKPOINT_SYNCS (D.syncs (disk_of self.old))
            (D.syncs (disk_of self.new)) }
    {
        if !has_room(alloc, self.store.waiting()) {
            return self.write_out(alloc);
        }
        match self.store.commit(alloc, &mut self.disk) {
            Ok(()) => Ok(()),
            Err(fault) => Err(fault_of(fault)),
        }
    }

    // Once a sync has failed for anything but want of room it opens nothing: what a read shows then is not
    // what the disk has.
    fn reopen(&mut self, alloc: Global) -> Result<(), KeepFault> {
        if !self.disk.is_sound() {
            return Err(KeepFault::Failed);
        }
        match self.store.reopen(alloc, &mut self.disk) {
            Ok(()) => Ok(()),
            Err(cause) => Err(fault_of(cause)),
        }
    }

    fn checkpoint(&mut self, alloc: Global) -> Result<(), KeepFault>
        ensures kept { (k : Kept) → KeepsOn self.old k → KeepsOn self.new k }
        ensures syncs { AtMostSyncs CHECKPOINT_SYNCS (D.syncs (disk_of self.old))
            (D.syncs (disk_of self.new)) }
    {
        self.write_out(alloc)
    }

    fn journal_len(&self) -> u64 {
        self.store.journal_len()
    }
}
