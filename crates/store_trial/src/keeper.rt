//! A store that is kept in a folder of the system.

use anyhow::{Context, Result, anyhow};
use archive_text::Store;
use durable_store::{CheckpointFault, DurableStore};
use folder_disk::{FolderDisk, FolderLock, LockFile};
use record_store::StoreFault;
use std::alloc::Global;
use std::fmt::Display;
use std::str;
use syslog_grammar::view;

// How often a call is made that finds no room.
const TRIES: usize = 8;

/// A durable store, its disk, and the lock on its folder.
#[derive(Drop)]
pub struct Keeper {
    alloc: Global,
    disk: FolderDisk<HostRuntime>,
    store: DurableStore,
    _lock: FolderLock,
}

// A fault of the disk, with what the system told of it.
fn told(disk: &FolderDisk<HostRuntime>, fault: impl Display + Drop) -> anyhow::Error {
    let Some(last) = disk.last_error() else {
        return anyhow!("{fault}");
    };
    let error = &last.error;
    let name = match &last.name {
        Some(name) => str::from_utf8(name.as_octets()).unwrap_or("a file"),
        None => "the folder",
    };
    anyhow!("{name}: {error} ({fault})")
}

impl Keeper {
    /// Opens the store of a folder, which is made if it is missing. It fails if another holds the
    /// lock, the disk fails or memory runs out.
    pub fn open(rt: &HostRuntime, path: &str) -> Result<Keeper> {
        let alloc = rt.alloc();
        let mut disk = FolderDisk::create(rt, path).with_context(|| path)?;
        let lock = FolderLock::take(rt, path, LockFile::Writing).context(format_args!(
            "{path}/lock"
        ))?;
        match DurableStore::open(alloc, &mut disk) {
            Ok(store) => Ok(Keeper {
                alloc,
                disk,
                store,
                _lock: lock,
            }),
            Err(fault) => Err(told(&disk, fault)),
        }
    }

    /// Adds the record with these octets. It waits until the next commit. It fails if they are none
    /// or memory runs out.
    pub fn add(&mut self, octets: &[u8]) -> Result<()> {
        let Ok(shown) = view(octets) else {
            return Err(anyhow!("no record"));
        };
        self.store.add_view(self.alloc, &shown)?;
        Ok(())
    }

    // Opens the store again, if a call has failed.
    fn mend(&mut self) -> Result<(), StoreFault> {
        if !self.store.is_broken() {
            return Ok(());
        }
        self.store.reopen(self.alloc, &mut self.disk)
    }

    fn try_commit(&mut self) -> Result<(), StoreFault> {
        self.mend()?;
        self.store.commit(self.alloc, &mut self.disk)
    }

    fn try_checkpoint(&mut self) -> Result<(), CheckpointFault> {
        self.mend()?;
        self.store.checkpoint(self.alloc, &mut self.disk)
    }

    /// Commits what was added. Where there is no room, it tries again a few times. It fails if the disk
    /// does or memory runs out.
    pub fn commit(&mut self) -> Result<()> {
        let mut answer = self.try_commit();
        for _ in 1..TRIES {
            if !matches!(&answer, Err(fault) if fault.is_full()) {
                break;
            }
            answer = self.try_commit();
        }
        match answer {
            Ok(()) => Ok(()),
            Err(fault) => Err(told(&self.disk, fault)),
        }
    }

    /// How many octets the journal has.
    pub fn journal_len(&self) -> u64 {
        self.store.journal_len()
    }

    /// Writes what came since the last checkpoint as segments, and begins the next journal. Where there
    /// is no room, it tries again a few times. It fails if the disk does or memory runs out.
    pub fn checkpoint(&mut self) -> Result<()> {
        let mut answer = self.try_checkpoint();
        for _ in 1..TRIES {
            if !matches!(&answer, Err(fault) if fault.is_full()) {
                break;
            }
            answer = self.try_checkpoint();
        }
        match answer {
            Ok(()) => Ok(()),
            Err(fault) => Err(told(&self.disk, fault)),
        }
    }
}
