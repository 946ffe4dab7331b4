//! What tests ask of a disk. No function here has a clause, so that a test is proved without the contracts of
//! the calls.

use disk::{Disk, DiskFault, FileName, Fuse, MemoryDisk};
use std::alloc::Global;
use std::test::Fail;

/// A call on a disk that changes it, with the names of files.
#[derive(Clone, Copy, Debug)]
pub enum Change<'a> {
    Create(&'a str),
    Append(&'a str, &'a str),
    Overwrite(&'a str, u64, u8),
    Cut(&'a str, u64),
    Sync(&'a str),
    Rename(&'a str, &'a str),
    Remove(&'a str),
    SyncNames,
}

/// The name of a file.
pub fn named(alloc: Global, octets: &[u8]) -> Result<FileName, Fail> {
    Ok(FileName::new(alloc, octets)?.ok_or("no name")?)
}

/// Changes a disk, and gives what it answers.
pub fn answer_to<D: Disk>(
    alloc: Global,
    disk: &mut D,
    change: Change<'_>,
) -> Result<Result<(), DiskFault>, Fail> {
    let name = |text: &str| named(alloc, text.as_bytes());
    Ok(match change {
        Change::Create(file) => disk.create(&name(file)?),
        Change::Append(file, text) => disk.append(&name(file)?, text.as_bytes()),
        Change::Overwrite(file, at, octet) => disk.overwrite(&name(file)?, at, octet),
        Change::Cut(file, len) => disk.cut(&name(file)?, len),
        Change::Sync(file) => disk.sync(&name(file)?),
        Change::Rename(from, to) => disk.rename(&name(from)?, &name(to)?),
        Change::Remove(file) => disk.remove(&name(file)?),
        Change::SyncNames => disk.sync_names(),
    })
}

/// Makes changes in their order. It fails with the first of them that does not give its answer.
pub fn change_all<D: Disk>(
    alloc: Global,
    disk: &mut D,
    rows: &[(Change<'_>, Result<(), DiskFault>)],
) -> Result<(), Fail> {
    for (row, answer) in rows {
        let found = answer_to(alloc, disk, *row)?;
        if found != *answer {
            return Err(Fail::new(format_args!("{row:?} gives {found:?}")));
        }
    }
    Ok(())
}

/// The octets of a small file from an offset on.
pub fn octets_from<D: Disk>(
    alloc: Global,
    disk: &mut D,
    name: &[u8],
    at: u64,
) -> Result<Vec<u8>, Fail> {
    let mut piece = vec![in alloc; 0u8; 4096]?;
    let n = disk.read(&named(alloc, name)?, at, &mut piece)?;
    piece.truncate(n);
    Ok(piece)
}

/// The octets of a small file.
pub fn octets_of<D: Disk>(alloc: Global, disk: &mut D, name: &[u8]) -> Result<Vec<u8>, Fail> {
    octets_from(alloc, disk, name, 0)
}

/// The names of all files.
pub fn names_in<D: Disk>(alloc: Global, disk: &mut D) -> Result<Vec<FileName>, DiskFault> {
    disk.names(alloc)
}

/// A new file with these texts, on the disk with its name.
pub fn put<D: Disk>(alloc: Global, disk: &mut D, name: &[u8], texts: &[&[u8]]) -> Result<(), Fail> {
    let name = named(alloc, name)?;
    disk.create(&name)?;
    for text in texts {
        disk.append(&name, text)?;
    }
    disk.sync(&name)?;
    disk.sync_names()?;
    Ok(())
}

/// Adds octets to a file.
pub fn append<D: Disk>(
    alloc: Global,
    disk: &mut D,
    name: &[u8],
    octets: &[u8],
) -> Result<(), Fail> {
    Ok(disk.append(&named(alloc, name)?, octets)?)
}

/// Overwrites an octet of a file.
pub fn overwrite<D: Disk>(
    alloc: Global,
    disk: &mut D,
    name: &[u8],
    at: u64,
    octet: u8,
) -> Result<(), Fail> {
    Ok(disk.overwrite(&named(alloc, name)?, at, octet)?)
}

/// What a crash leaves of a disk (see [`MemoryDisk::crash`]).
pub fn crash(
    disk: MemoryDisk,
    kept: usize,
    octet: Option<u8>,
    undone: bool,
) -> Result<MemoryDisk, Fail> {
    Ok(disk.crash(kept, octet, undone)?)
}

/// Where a run stops, and what a crash leaves then (see [`MemoryDisk::crash`]).
#[derive(Clone, Copy, Debug)]
pub struct Stop {
    pub calls: u64,
    pub kept: usize,
    pub octet: Option<u8>,
}

/// Stops behind each number of calls below this one, with each of these to be kept and each of these octets.
pub fn stops(
    alloc: Global,
    calls: u64,
    kept: &[usize],
    octets: &[Option<u8>],
) -> Result<Vec<Stop>, Fail> {
    let mut all = Vec::new(alloc);
    for octet in octets {
        add_stops(&mut all, calls, kept, *octet)?;
    }
    Ok(all)
}

// adds the stops with an octet
fn add_stops(
    all: &mut Vec<Stop>,
    calls: u64,
    kept: &[usize],
    octet: Option<u8>,
) -> Result<(), Fail> {
    for kept in kept {
        add_stops_keeping(all, calls, *kept, octet)?;
    }
    Ok(())
}

// adds the stops with an octet where so much is kept
fn add_stops_keeping(
    all: &mut Vec<Stop>,
    calls: u64,
    kept: usize,
    octet: Option<u8>,
) -> Result<(), Fail> {
    for calls in 0..calls {
        all.push(Stop { calls, kept, octet })?;
    }
    Ok(())
}

/// A disk that stops at the call after so many.
pub fn fused(disk: MemoryDisk, calls: u64) -> Fuse<MemoryDisk> {
    Fuse::new(disk, calls)
}

/// Whether octets are somewhere in a text.
pub fn has(text: &[u8], octets: &[u8]) -> bool {
    for at in 0..text.len() {
        if text[at..].starts_with(octets) {
            return true;
        }
    }
    false
}

/// Whether each of these is somewhere in a text.
pub fn has_all(text: &[u8], all: &[&[u8]]) -> bool {
    all.iter().all(|octets| has(text, octets))
}

/// Texts, one behind the other.
pub fn joined(alloc: Global, texts: &[&[u8]]) -> Result<Vec<u8>, Fail> {
    let mut all = Vec::new(alloc);
    for text in texts {
        all.extend_from_slice(text)?;
    }
    Ok(all)
}
