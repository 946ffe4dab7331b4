//! What a server opens in a store's folder.

use crate::ledgers::SystemTurns;
use crate::refused::{Behind, RefusedFile};
use crate::telling::Teller;
use disk::DiskFault;
use durable_store::{OpenFault, SetAside, check_journals};
use folder_disk::{Access, FolderDisk, FolderLock, LockFault, LockFile, open_regular};
use journal::JournalFault;
use ledger_disk::{LedgerDisk, Purpose};
use record_store::StoreFault;
use std::io;
use store_keeper::{DiskKeeper, SoundDisk};

// What a journal and a segment are called until all of them is on the disk.
const DRAFTS: [&str; 2] = ["new.journal", "new.archive"];

/// The exit status of a server that does not begin.
pub type Fault = u8;

/// The disk of a store, whose ledger takes the segments that are made.
pub type StoreDisk<'d> = LedgerDisk<FolderDisk<HostRuntime>, SystemTurns<'d>>;

/// The store of a folder.
pub type Keeper<'d> = DiskKeeper<StoreDisk<'d>>;

// Whether memory ran out while a store was opened.
fn wants_memory(fault: &OpenFault) -> bool {
    match fault {
        OpenFault::Memory | OpenFault::Store(StoreFault::Memory) => true,
        OpenFault::Store(StoreFault::Folder { fault }) => *fault == DiskFault::Memory,
        OpenFault::Store(StoreFault::Journal { number: _, fault }) => {
            *fault == JournalFault::Disk(DiskFault::Memory)
        }
        _ => false,
    }
}

// Why the store was not opened.
fn refuse_store(
    teller: Teller<'_, '_>,
    dir: &str,
    fault: OpenFault,
    disk: &FolderDisk<HostRuntime>,
) -> u8 {
    if wants_memory(&fault) {
        return teller.out_of_memory();
    }
    teller.refuse_disk(dir, disk, fault)
}

// Tells an error of the system on a file of the store. Want of memory is told as that.
fn refuse_file(teller: Teller<'_, '_>, dir: &str, name: &str, error: io::Error) -> u8 {
    if error.kind() == io::ErrorKind::OutOfMemory {
        return teller.out_of_memory();
    }
    teller.refuse_file(dir, name, error)
}

// Tells an error of the system on the file of the lock.
fn refuse_lock(teller: Teller<'_, '_>, dir: &str, error: io::Error) -> u8 {
    refuse_file(teller, dir, LockFile::Writing.name(), error)
}

// Writes the newest journal anew if a run before has ended by a sync that failed, since the machine was
// started: what a read shows of the journal may not be on the disk then, whatever a sync of it says. A
// journal that is damaged is told before.
fn renew(
    teller: Teller<'_, '_>,
    dir: &str,
    lock: &mut FolderLock,
    disk: &mut FolderDisk<HostRuntime>,
) -> Result<(), Fault> {
    let alloc = teller.rt.alloc();
    match lock.tells_of_failed_sync() {
        Ok(false) => return Ok(()),
        Ok(true) => {}
        Err(error) => return Err(refuse_lock(teller, dir, error)),
    }
    if let Err(fault) = check_journals(alloc, disk) {
        return Err(refuse_store(teller, dir, fault, disk));
    }
    teller.tell("a sync had failed: the newest journal is written anew\n");
    match record_store::renew(alloc, disk) {
        Ok(()) => Ok(()),
        Err(fault) => Err(refuse_store(teller, dir, OpenFault::Store(fault), disk)),
    }
}

/// Tells why a sync that failed could not be noted, if one could not.
pub fn tell_note_error(teller: Teller<'_, '_>, dir: &str, disk: &FolderDisk<HostRuntime>) {
    let Some(error) = disk.note_error() else {
        return;
    };
    let _status = teller.refuse_file(dir, LockFile::Writing.name(), error);
}

// Tells what was set aside when the store was opened.
fn tell_aside(teller: Teller<'_, '_>, aside: SetAside) -> Result<(), Fault> {
    let SetAside { number, octets } = aside;
    match format!(in teller.rt.alloc();
        "journal.{number}: {octets} octets behind the last batch set aside in damaged.journal.{number}\n"
    ) {
        Ok(line) => {
            teller.tell(line.as_str());
            Ok(())
        }
        Err(_) => Err(teller.out_of_memory()),
    }
}

// Refuses a folder in which something has the name of a draft that cannot be written: no journal and no segment could be made.
fn check_drafts(teller: Teller<'_, '_>, dir: &str) -> Result<(), Fault> {
    for name in DRAFTS {
        let Ok(path) = format!(in teller.rt.alloc(); "{dir}/{name}") else {
            return Err(teller.out_of_memory());
        };
        match open_regular(teller.rt, path.as_str(), Access::Write) {
            Err(error) if error.kind() != io::ErrorKind::NotFound => {
                return Err(refuse_file(teller, dir, name, error));
            }
            _ => {}
        }
    }
    Ok(())
}

// Opens the store on a disk.
fn open_keeper<'d>(
    teller: Teller<'d, 'd>,
    dir: &'d str,
    disk: FolderDisk<HostRuntime>,
) -> Result<Keeper<'d>, Fault> {
    let turns = SystemTurns::of_server(teller, dir);
    let Ok(disk) = LedgerDisk::new(teller.rt.alloc(), disk, turns, Purpose::Serve) else {
        return Err(teller.out_of_memory());
    };
    match DiskKeeper::open(teller.rt.alloc(), SoundDisk { disk }) {
        Ok(keeper) => {
            for aside in keeper.set_aside() {
                tell_aside(teller, *aside)?;
            }
            Ok(keeper)
        }
        Err((fault, disk)) => {
            tell_note_error(teller, dir, disk.disk());
            Err(refuse_store(teller, dir, fault, disk.disk()))
        }
    }
}

/// Opens the store in a folder, which is made where it is missing. Its lock is held as long as its disk.
pub fn open_store<'d>(teller: Teller<'d, 'd>, dir: &'d str) -> Result<Keeper<'d>, Fault> {
    let rt = teller.rt;
    let mut disk = match FolderDisk::create(rt, dir) {
        Ok(disk) => disk,
        Err(fault) if fault.kind() == io::ErrorKind::OutOfMemory => {
            return Err(teller.out_of_memory());
        }
        Err(fault) => return Err(teller.refuse(dir, fault)),
    };
    check_drafts(teller, dir)?;
    let mut lock = match FolderLock::take(rt, dir, LockFile::Writing) {
        Ok(lock) => lock,
        Err(LockFault::Held) => return Err(teller.refuse(dir, "another server has the store")),
        Err(LockFault::Failed(failed)) => return Err(refuse_lock(teller, dir, failed.error)),
    };
    renew(teller, dir, &mut lock, &mut disk)?;
    if let Err(error) = lock.note_sound(rt.alloc()) {
        return Err(refuse_lock(teller, dir, error));
    }
    disk.hold(lock);
    open_keeper(teller, dir, disk)
}

/// Opens the file of what is refused, and tells what was found behind its entries.
pub fn open_refused<'a>(teller: Teller<'a, '_>, dir: &str) -> Result<RefusedFile<'a>, Fault> {
    let file = match RefusedFile::open(teller.rt, dir) {
        Ok(file) => file,
        Err(error) => return Err(refuse_file(teller, dir, "refused", error)),
    };
    let alloc = teller.rt.alloc();
    let line = match file.behind() {
        Behind::Nothing => return Ok(file),
        Behind::Torn(cut) => format!(in alloc;
            "refused: {cut} octets behind the last whole entry cut off\n"
        ),
        Behind::Damage(at) => format!(in alloc;
            "refused: damaged at octet {at}: kept as refused.1, and begun anew\n"
        ),
    };
    match line {
        Ok(line) => {
            teller.tell(line.as_str());
            Ok(file)
        }
        Err(_) => Err(teller.out_of_memory()),
    }
}
