//! Folders of journals, and what a follower writes of them. No function here has a clause, so that a test
//! is proved without the contracts of the calls.

use crc32c::crc32c;
use disk::{Disk, FileName, MemoryDisk};
use octet_devices::ToWrite;
use std::alloc::Global;
use std::test::Fail;
use store_follow::{FollowFault, Follower};

/// Entries.
pub(crate) const A: &[u8] = b"19 <13>1 - h a - - - a";

pub(crate) const B: &[u8] = b"19 <13>1 - h a - - - b";

pub(crate) const C: &[u8] = b"45 <12>1 2024-02-29T23:00:00.000000Z h a - - - z";

/// The name of a file.
pub(crate) fn named(alloc: Global, octets: &[u8]) -> Result<FileName, Fail> {
    Ok(FileName::new(alloc, octets)?.ok_or("no name")?)
}

/// Octets behind octets.
pub(crate) fn joined(alloc: Global, parts: &[&[u8]]) -> Result<Vec<u8>, Fail> {
    let mut all = Vec::new(alloc);
    for part in parts {
        all.extend_from_slice(part)?;
    }
    Ok(all)
}

/// The octets of a batch of these entries, which begins with an octet, and whose checksum may be wrong.
pub(crate) fn batch_with(
    alloc: Global,
    gate: u8,
    text: &[u8],
    wrong: u32,
) -> Result<Vec<u8>, Fail> {
    let len = (text.len() as u64).wrapping_add(9).to_le_bytes();
    let size = (text.len() as u64).to_le_bytes();
    let sum = (crc32c(text) ^ wrong).to_le_bytes();
    joined(
        alloc,
        &[&[gate], &len[..4], text, b"#", &size[..4], sum.as_slice()],
    )
}

/// The octets of an open batch of these entries.
pub(crate) fn batch(alloc: Global, text: &[u8]) -> Result<Vec<u8>, Fail> {
    batch_with(alloc, 1, text, 0)
}

/// The octets of open batches, one for each of these entries, and a closed octet behind them.
pub(crate) fn batches(alloc: Global, texts: &[&[u8]]) -> Result<Vec<u8>, Fail> {
    let mut all = Vec::new(alloc);
    for text in texts {
        all.extend_from_slice(&batch(alloc, text)?)?;
    }
    all.push(254)?;
    Ok(all)
}

/// Makes a file in place of the one that has the name.
pub(crate) fn put<D: Disk>(
    alloc: Global,
    disk: &mut D,
    name: &[u8],
    octets: &[u8],
) -> Result<(), Fail> {
    let name = named(alloc, name)?;
    let _ = disk.remove(&name);
    disk.create(&name)?;
    Ok(disk.append(&name, octets)?)
}

/// Removes a file.
pub(crate) fn remove<D: Disk>(alloc: Global, disk: &mut D, name: &[u8]) -> Result<(), Fail> {
    Ok(disk.remove(&named(alloc, name)?)?)
}

/// A folder of one journal with a batch for each of these entries.
pub(crate) fn stored(alloc: Global, texts: &[&[u8]]) -> Result<MemoryDisk, Fail> {
    let mut disk = MemoryDisk::new(alloc);
    put(alloc, &mut disk, b"journal.1", &batches(alloc, texts)?)?;
    Ok(disk)
}

/// What a look answers, whether there is more, and what it writes.
pub(crate) fn look<D: Disk>(
    alloc: Global,
    follower: &mut Follower,
    disk: &mut D,
) -> (Result<bool, FollowFault>, Vec<u8>) {
    let mut output = ToWrite::new(Vec::new(alloc));
    let answer = match follower.look(alloc, disk, &mut output) {
        Ok(looked) => Ok(looked.more),
        Err(fault) => Err(fault),
    };
    (answer, output.into_inner())
}

/// Whether a look answers so and writes these texts.
pub(crate) fn looks<D: Disk>(
    alloc: Global,
    follower: &mut Follower,
    disk: &mut D,
    answer: Result<bool, FollowFault>,
    texts: &[&[u8]],
) -> Result<(), Fail> {
    let (found, written) = look(alloc, follower, disk);
    if found != answer {
        return Err(Fail::new(format_args!("a look answers {found:?} in place of {answer:?}")));
    }
    if written != joined(alloc, texts)? {
        return Err(Fail::new(format_args!("a look that answers {answer:?} writes otherwise")));
    }
    Ok(())
}
