//! Folders of segments, and what is done to them. No function here has a clause, so that a test is proved
//! without the contracts of the calls.

use disk::{Disk, DiskFault, FileName, Fuse, MemoryDisk};
use ledger::{LedgerRead, read_ledger};
use ledger_disk::{LedgerDisk, ListFault, Purpose, TIME_LEN, Turns};
use octet_devices::FromRead;
use std::alloc::Global;
use std::test::Fail;

/// Names of segments.
pub(crate) const A: &[u8] =
    b"2026-11-25.0000000000000000000000000000000000000000000000000000000000000000.archive";

pub(crate) const B: &[u8] =
    b"mixed.00000000000000000000000000000000000000000000000000000000000000aa.archive";

pub(crate) const C: &[u8] =
    b"undated.00000000000000000000000000000000000000000000000000000000000000ff.archive";

/// Two entries.
pub(crate) const TWO: &[u8] = b"3 abc12 abcdefghijkl";

/// A root.
pub(crate) const ROOT: [u8; 64] = [b'e'; 64];

/// Turns in memory, and how many began that did not end. What was told last, and how often something was.
#[derive(Drop)]
pub(crate) struct Ticks {
    open: u64,
    pub(crate) unlisted_for: Option<ListFault>,
    pub(crate) told: u64,
}

impl Ticks {
    fn new() -> Ticks {
        Ticks {
            open: 0,
            unlisted_for: None,
            told: 0,
        }
    }
}

impl Turns for Ticks {
    fn begin(&mut self) -> Result<(), DiskFault> {
        if self.open > 0 {
            return Err(DiskFault::Failed);
        }
        self.open = 1;
        Ok(())
    }

    fn end(&mut self) {
        self.open = 0;
    }

    fn time(&mut self) -> [u8; TIME_LEN] {
        *b"2026-11-30T20:00:00.000000Z"
    }

    fn tell(&mut self, unlisted_for: Option<ListFault>) {
        self.unlisted_for = unlisted_for;
        self.told = self.told.saturating_add(1);
    }
}

/// What is done to a folder.
#[derive(Clone, Copy)]
pub(crate) enum Step<'a> {
    /// The ledger is read, and what it does not list is listed.
    CatchUp,
    /// A draft with these octets gets this name, and the names are synced.
    Place(&'a [u8], &'a [u8]),
    /// A file is removed.
    Remove(&'a [u8]),
    /// A segment is sealed.
    Seal(&'a [u8]),
}

/// The name of a file.
pub(crate) fn named(alloc: Global, octets: &[u8]) -> Result<FileName, Fail> {
    Ok(FileName::new(alloc, octets)?.ok_or("no name")?)
}

/// Makes a file with these octets.
pub(crate) fn put<D: Disk + Drop>(
    alloc: Global,
    disk: &mut D,
    name: &[u8],
    octets: &[u8],
) -> Result<(), Fail> {
    let name = named(alloc, name)?;
    disk.create(&name)?;
    disk.append(&name, octets)?;
    disk.sync(&name)?;
    Ok(disk.sync_names()?)
}

/// A folder with these segments, of two entries each.
pub(crate) fn folder(alloc: Global, names: &[&[u8]]) -> Result<MemoryDisk, Fail> {
    let mut disk = MemoryDisk::new(alloc);
    for name in names {
        put(alloc, &mut disk, name, TWO)?;
    }
    Ok(disk)
}

/// A disk that keeps a ledger.
pub(crate) fn keeping<D: Disk + Drop>(
    alloc: Global,
    disk: D,
    purpose: Purpose,
) -> Result<LedgerDisk<D, Ticks>, Fail> {
    Ok(LedgerDisk::new(alloc, disk, Ticks::new(), purpose)?)
}

// Gives a file with these octets a name.
fn place<D: Disk + Drop>(
    alloc: Global,
    disk: &mut D,
    name: &FileName,
    octets: &[u8],
) -> Result<(), ListFault> {
    let Some(draft) = FileName::new(alloc, b"draft")? else {
        return Err(ListFault::Unlisted);
    };
    let _ = disk.remove(&draft);
    disk.create(&draft)?;
    disk.append(&draft, octets)?;
    disk.sync(&draft)?;
    disk.rename(&draft, name)?;
    Ok(disk.sync_names()?)
}

/// Takes a step.
pub(crate) fn take_step<D: Disk + Drop>(
    alloc: Global,
    disk: &mut LedgerDisk<D, Ticks>,
    step: Step<'_>,
) -> Result<Result<(), ListFault>, Fail> {
    Ok(match step {
        Step::CatchUp => disk.catch_up(),
        Step::Place(name, octets) => place(alloc, disk, &named(alloc, name)?, octets),
        Step::Remove(name) => disk
            .remove(&named(alloc, name)?)
            .map_err(|fault| ListFault::Disk(fault)),
        Step::Seal(name) => disk.list_seal(&named(alloc, name)?, &ROOT),
    })
}

/// Takes steps up to the first that fails. Whether none did.
pub(crate) fn steps<D: Disk + Drop>(
    alloc: Global,
    disk: &mut LedgerDisk<D, Ticks>,
    all: &[Step<'_>],
) -> Result<bool, Fail> {
    for one in all {
        if take_step(alloc, disk, *one)?.is_err() {
            return Ok(false);
        }
    }
    Ok(true)
}

/// A folder after these steps, all of which are done.
pub(crate) fn stepped(
    alloc: Global,
    disk: MemoryDisk,
    purpose: Purpose,
    all: &[Step<'_>],
) -> Result<MemoryDisk, Fail> {
    let mut disk = keeping(alloc, disk, purpose)?;
    if !steps(alloc, &mut disk, all)? {
        return Err(Fail::new("a step failed"));
    }
    Ok(disk.into_inner())
}

/// A folder after these steps, on a disk that stops after so many calls.
pub(crate) fn stopped(
    alloc: Global,
    disk: MemoryDisk,
    calls: u64,
    purpose: Purpose,
    all: &[Step<'_>],
) -> Result<MemoryDisk, Fail> {
    let mut disk = keeping(alloc, Fuse::new(disk, calls), purpose)?;
    let _done = steps(alloc, &mut disk, all)?;
    Ok(disk.into_inner().into_inner())
}

/// The octets of a file of at most 256 KiB; none where there is none.
pub(crate) fn octets_of(
    alloc: Global,
    disk: &mut MemoryDisk,
    name: &[u8],
) -> Result<Option<Vec<u8>>, Fail> {
    let mut piece = vec![in alloc; 0u8; 1 << 18]?;
    match disk.read(&named(alloc, name)?, 0, &mut piece) {
        Ok(n) => {
            piece.truncate(n);
            Ok(Some(piece))
        }
        Err(_) => Ok(None),
    }
}

/// What the ledger of a folder says, read whole.
pub(crate) fn read(alloc: Global, disk: &mut MemoryDisk) -> Result<LedgerRead, Fail> {
    let octets = octets_of(alloc, disk, b"ledger")?.unwrap_or(Vec::new(alloc));
    Ok(read_ledger(alloc, &mut FromRead::new(octets.as_slice()), None)?)
}

/// Whether what is in the lines of a ledger, but for their times and chains, are these texts.
pub(crate) fn says(alloc: Global, disk: &mut MemoryDisk, lines: &[&[u8]]) -> Result<bool, Fail> {
    let ledger = octets_of(alloc, disk, b"ledger")?.unwrap_or(Vec::new(alloc));
    let mut rest = ledger.as_slice();
    for line in lines {
        let Some(at) = rest.iter().position(|octet| *octet == b'\n') else {
            return Ok(false);
        };
        if !is_line_of(&rest[..at], line) {
            return Ok(false);
        }
        rest = &rest[at + 1..];
    }
    Ok(rest.is_empty() && read(alloc, disk)?.whole == ledger.len() as u64)
}

// Whether a line says this, from behind its time up to its chain.
fn is_line_of(line: &[u8], said: &[u8]) -> bool {
    if line.len() < 65 {
        return false;
    }
    let front = &line[..line.len() - 65];
    front.ends_with(said)
}
