//! A disk in memory.
ghost use Rattle.std.specs.Prelude.{◌≡◌, ◌↔◌, ◌<◌, [], length, slice_set, take};
ghost use Rattle.std.specs.Prelude.{None, true, IfNone, IfOk, IfSome, IsErrOf, IsSome, IsTrue, OnErr, OnOk};
ghost use Rattle.disk.specs.Files.{appended, cut_to, overwritten, settled};
ghost use Rattle.disk.specs.States.{kept, retired, MayBe, NameMayLeave};
ghost use Rattle.std.specs.Option.{option_map};
ghost use Rattle.std.specs.Prelude.{List, Option, ℕ};
ghost use Rattle.disk.specs.Memory.{entry_of, file_of, lookup, memory_state, state_of, syncs_of, IsAbsent};
ghost use Rattle.disk.specs.Memory.{AreKept, ChangesFileOf, IsFirst, MakesFile, NeverFails};
ghost use Rattle.disk.specs.Memory.{AreLeft, IsLeft, RemovesFileOf, shown_now};

use crate::memory_file::MemoryFile;
use crate::{Disk, DiskFault, FileName};
use std::alloc::{AllocError, Global};

/// A name, the file under it, and what was under it since the folder was synced.
#[derive(Drop)]
pub(crate) struct MemoryEntry {
    name: FileName,
    now: Option<MemoryFile>,
    past: Vec<Option<MemoryFile>>,
    moved: bool,
}

// the place of the first entry of a name
fn position(entries: &[MemoryEntry], name: &FileName) -> Option<usize>
    ensures found { IfSome result (λ i. IsFirst entries.now name.now i) }
    ensures none { IfNone result (IsAbsent name.now entries.now) }
{
    for (i, entry) in entries.iter().enumerate() {
        if entry.name.as_octets() == name.as_octets() {
            return Some(i);
        }
    }
    None
}

fn has_file(entries: &[MemoryEntry], name: &FileName) -> bool
    ensures { IsTrue result ↔ IsSome (lookup entries.now name.now).now }
{
    match position(entries, name) {
        Some(i) => entries[i].now.is_some(),
        None => false,
    }
}

// The place of the first entry of a name. Where there is none, one without a file is added.
fn place(
    alloc: Global,
    entries: &mut Vec<MemoryEntry>,
    name: &FileName,
) -> Result<usize, AllocError>
    ensures place { IfOk result (λ i. IsFirst entries.new.items name.now i) }
    ensures same { (other : _) → lookup entries.new.items other ≡ lookup entries.old.items other }
{
    if let Some(i) = position(entries, name) {
        return Ok(i);
    }
    let i = entries.len();
    entries.push(MemoryEntry {
        name: name.copy(alloc)?,
        now: None,
        past: Vec::new(alloc),
        moved: false,
    })?;
    Ok(i)
}

// What is now there becomes a part of the past.
fn retire(entry: &mut MemoryEntry) -> Result<(), AllocError>
    ensures name { entry.new.name ≡ entry.old.name }
    ensures ok { OnOk result (entry_of entry.new ≡ retired (entry_of entry.old)) }
    ensures err { OnErr result (entry_of entry.new ≡ entry_of entry.old) }
{
    match entry.past.push(entry.now.take()) {
        Ok(()) => Ok(()),
        Err(refused) => {
            entry.now = refused.value;
            Err(AllocError)
        }
    }
}

fn append_to(entry: &mut MemoryEntry, octets: &[u8]) -> Result<(), DiskFault>
    ensures name { entry.new.name ≡ entry.old.name }
    ensures done { ChangesFileOf (entry_of entry.old) (entry_of entry.new) (appended octets.now)
        result }
    ensures sound { NeverFails result }
{
    let Some(file) = &mut entry.now else {
        return Err(DiskFault::Missing);
    };
    file.append(octets)?;
    Ok(())
}

fn overwrite_in(entry: &mut MemoryEntry, at: u64, octet: u8) -> Result<(), DiskFault>
    ensures name { entry.new.name ≡ entry.old.name }
    ensures done { ChangesFileOf (entry_of entry.old) (entry_of entry.new) (overwritten at octet)
        result }
    ensures sound { NeverFails result }
{
    let Some(file) = &mut entry.now else {
        return Err(DiskFault::Missing);
    };
    file.overwrite(at, octet)?;
    Ok(())
}

fn cut_in(entry: &mut MemoryEntry, len: u64) -> Result<(), DiskFault>
    ensures name { entry.new.name ≡ entry.old.name }
    ensures done { ChangesFileOf (entry_of entry.old) (entry_of entry.new) (cut_to len) result }
    ensures sound { NeverFails result }
{
    let Some(file) = &mut entry.now else {
        return Err(DiskFault::Missing);
    };
    file.cut(len);
    Ok(())
}

fn sync_in(entry: &mut MemoryEntry) -> Result<(), DiskFault>
    ensures name { entry.new.name ≡ entry.old.name }
    ensures done { ChangesFileOf (entry_of entry.old) (entry_of entry.new)
        (λ file. settled file.shown) result }
    ensures sound { NeverFails result }
    ensures memory { ¬ (IsErrOf result DiskFault.Memory) }
{
    let Some(file) = &mut entry.now else {
        return Err(DiskFault::Missing);
    };
    file.sync();
    Ok(())
}

fn create_in(alloc: Global, entry: &mut MemoryEntry) -> Result<(), DiskFault>
    ensures name { entry.new.name ≡ entry.old.name }
    ensures done { MakesFile (entry_of entry.old) (entry_of entry.new) result }
    ensures sound { NeverFails result }
{
    if entry.now.is_some() {
        return Err(DiskFault::Exists);
    }
    retire(entry)?;
    entry.now = Some(MemoryFile::new(alloc));
    Ok(())
}

fn remove_in(entry: &mut MemoryEntry) -> Result<(), DiskFault>
    ensures name { entry.new.name ≡ entry.old.name }
    ensures done { RemovesFileOf (entry_of entry.old) (entry_of entry.new) result }
    ensures sound { NeverFails result }
{
    if entry.now.is_none() {
        return Err(DiskFault::Missing);
    }
    retire(entry)?;
    Ok(())
}

// Takes the file away, which gets another name.
fn take_away(entry: &mut MemoryEntry) -> Option<MemoryFile>
    ensures name { entry.new.name ≡ entry.old.name }
    ensures file { result ≡ entry.old.now }
    ensures entry { entry_of entry.new
        ≡ record (entry_of entry.old) { now = None; moved = true } }
{
    entry.moved = true;
    entry.now.take()
}

fn settle(entry: &mut MemoryEntry)
    ensures name { entry.new.name ≡ entry.old.name }
    ensures kept { entry_of entry.new ≡ kept (entry_of entry.old) }
{
    entry.past.clear();
    entry.moved = false;
}

fn settle_all(entries: &mut [MemoryEntry])
    ensures { AreKept entries.old entries.new }
{
    for entry in entries.iter_mut() {
        settle(entry);
    }
}

// Undoes what was done to the name since the folder was synced, if that is asked for.
fn undo(entry: &mut MemoryEntry, undone: bool)
    ensures name { entry.new.name ≡ entry.old.name }
    ensures chosen { (octets : Option (List ℕ)) → MayBe (entry_of entry.new).now octets
        → NameMayLeave (entry_of entry.old) octets }
{
    if undone && !entry.past.is_empty() {
        entry.now = entry.past.remove(0);
    }
}

// Leaves of the file what a crash leaves.
fn crash_file(entry: &mut MemoryEntry, kept: usize, octet: Option<u8>) -> Result<(), AllocError>
    ensures name { entry.new.name ≡ entry.old.name }
    ensures left { OnOk result (MayBe (entry_of entry.old).now (shown_now (entry_of entry.new))) }
    ensures settled { OnOk result (option_map file_of entry.new.now
        ≡ option_map settled (shown_now (entry_of entry.new))) }
{
    if let Some(file) = &mut entry.now {
        file.crash(kept, octet)?;
    }
    Ok(())
}

fn crash_in(
    entry: &mut MemoryEntry,
    kept: usize,
    octet: Option<u8>,
    undone: bool,
) -> Result<(), AllocError>
    ensures name { entry.new.name ≡ entry.old.name }
    ensures left { OnOk result (IsLeft (entry_of entry.old) (entry_of entry.new)) }
{
    undo(entry, undone);
    crash_file(entry, kept, octet)?;
    settle(entry);
    Ok(())
}

fn crash_all(
    entries: &mut [MemoryEntry],
    kept: usize,
    octet: Option<u8>,
    undone: bool,
) -> Result<(), AllocError>
    ensures { OnOk result (AreLeft entries.old entries.new) }
{
    for entry in entries.iter_mut() {
        crash_in(entry, kept, octet, undone)?;
    }
    Ok(())
}

/// A folder in memory. It keeps what a crash may leave. It never fails as a device does: no call
/// answers `Full` or `Failed`.
#[derive(Drop)]
pub struct MemoryDisk {
    alloc: Global,
    entries: Vec<MemoryEntry>,
    syncs: u64,
}

impl MemoryDisk {
    /// A folder with no files.
    pub fn new(alloc: Global) -> MemoryDisk
        ensures { memory_state result ≡ state_of [] }
    {
        MemoryDisk {
            alloc,
            entries: Vec::new(alloc),
            syncs: 0,
        }
    }

    /// How many syncs it was asked for, of files and of the folder; `u64::MAX` stands for more too.
    pub fn sync_count(&self) -> u64
        ensures { result ≡ syncs_of self.now }
    {
        self.syncs
    }

    /// The folder after a crash, all of it on the disk then. Of the octets of each file that were
    /// not on the disk, as many as `kept` are left; those that are unsure are as they were shown
    /// or, if one is given, all `octet`. If `undone`, each name is as it first was since the folder
    /// was synced. Whatever is asked for, it is something that a crash may leave. It fails only when
    /// out of memory.
    pub fn crash(
        self,
        kept: usize,
        octet: Option<u8>,
        undone: bool,
    ) -> Result<MemoryDisk, AllocError>
        ensures { IfOk result (λ disk. (name : List ℕ)
            → IsLeft ((memory_state self).entries name) ((memory_state disk).entries name)) }
    {
        let MemoryDisk {
            alloc,
            mut entries,
            syncs,
        } = self;
        crash_all(&mut entries, kept, octet, undone)?;
        Ok(MemoryDisk {
            alloc,
            entries,
            syncs,
        })
    }
}

impl Disk for MemoryDisk {
    ghost state = { memory_state };

    ghost tells = { λ _. Unit };

    ghost has_failed = { λ _. ⊥ };

    ghost syncs = { syncs_of };

    fn names(&mut self, alloc: Global) -> Result<Vec<FileName>, DiskFault> {
        let mut names = Vec::new(alloc);
        for entry in &self.entries {
            if has_file(&self.entries, &entry.name) {
                names.push(entry.name.copy(alloc)?)?;
            }
        }
        Ok(names)
    }

    fn read(&mut self, name: &FileName, at: u64, buf: &mut [u8]) -> Result<usize, DiskFault> {
        let Some(i) = position(&self.entries, name) else {
            return Err(DiskFault::Missing);
        };
        match &self.entries[i].now {
            Some(file) => Ok(file.read(at, buf)),
            None => Err(DiskFault::Missing),
        }
    }

    fn create(&mut self, name: &FileName) -> Result<(), DiskFault> {
        let i = place(self.alloc, &mut self.entries, name)?;
        create_in(self.alloc, &mut self.entries[i])
    }

    fn append(&mut self, name: &FileName, octets: &[u8]) -> Result<(), DiskFault> {
        let Some(i) = position(&self.entries, name) else {
            return Err(DiskFault::Missing);
        };
        append_to(&mut self.entries[i], octets)
    }

    fn overwrite(&mut self, name: &FileName, at: u64, octet: u8) -> Result<(), DiskFault> {
        let Some(i) = position(&self.entries, name) else {
            return Err(DiskFault::Missing);
        };
        overwrite_in(&mut self.entries[i], at, octet)
    }

    fn cut(&mut self, name: &FileName, len: u64) -> Result<(), DiskFault> {
        let Some(i) = position(&self.entries, name) else {
            return Err(DiskFault::Missing);
        };
        cut_in(&mut self.entries[i], len)
    }

    fn sync(&mut self, name: &FileName) -> Result<(), DiskFault> {
        self.syncs = self.syncs.saturating_add(1);
        let Some(i) = position(&self.entries, name) else {
            return Err(DiskFault::Missing);
        };
        sync_in(&mut self.entries[i])
    }

    fn rename(&mut self, from: &FileName, to: &FileName) -> Result<(), DiskFault> {
        let j = place(self.alloc, &mut self.entries, to)?;
        let Some(i) = position(&self.entries, from) else {
            return Err(DiskFault::Missing);
        };
        if self.entries[i].now.is_none() {
            return Err(DiskFault::Missing);
        }
        if i == j {
            return Ok(());
        }
        retire(&mut self.entries[j])?;
        let file = take_away(&mut self.entries[i]);
        self.entries[j].now = file;
        Ok(())
    }

    fn remove(&mut self, name: &FileName) -> Result<(), DiskFault> {
        let Some(i) = position(&self.entries, name) else {
            return Err(DiskFault::Missing);
        };
        remove_in(&mut self.entries[i])
    }

    fn sync_names(&mut self) -> Result<(), DiskFault> {
        self.syncs = self.syncs.saturating_add(1);
        settle_all(&mut self.entries);
        Ok(())
    }
}
