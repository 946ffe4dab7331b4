//! Folders in memory are verified and compacted.

mod compacting;
mod expiring;
mod fitting;

use crate::views::view_of;
use archive_text::ArchiveFault;
use disk::{Disk, MemoryDisk};
use record_store::JournalDamage;
use sha2::{Digest, Sha256};
use std::alloc::{AllocError, Global};
use std::ops::RangeInclusive;
use std::test::Fail;
use store_reading::{FileFault, Folder, ReadFault};
use store_test_support::calls::{joined, overwrite, put};
use store_upkeep::{DamagedFile, verify};

// entries, in their order
const UNDATED: &[u8] = b"19 <13>1 - h a - - - x";

const LATE: &[u8] = b"45 <14>1 2024-03-01T00:00:00.000000Z h a - - - w";

const DAY: &[u8] = b"2024-02-29";

// `DAY.HEX.archive`
fn segment_name(alloc: Global, day: &[u8], octets: &[u8]) -> Result<Vec<u8>, AllocError> {
    let mut hasher = Sha256::new();
    hasher.update(octets);
    let mut hex = [0u8; 64];
    let _ = hex::encode_to_slice(hasher.finalize(), &mut hex);
    let mut name = day.to_vec(alloc)?;
    name.push(b'.')?;
    name.extend_from_slice(&hex)?;
    name.extend_from_slice(b".archive")?;
    Ok(name)
}

fn put_segment<D: Disk>(
    alloc: Global,
    disk: &mut D,
    day: &[u8],
    octets: &[u8],
) -> Result<(), Fail> {
    let name = segment_name(alloc, day, octets)?;
    put(alloc, disk, &name, &[octets])
}

// the entry of a letter
fn entry(alloc: Global, letter: u8) -> Result<Vec<u8>, AllocError> {
    let mut text = b"45 <14>1 2024-02-29T23:30:00.000000Z h a - - - ".to_vec(alloc)?;
    text.push(letter)?;
    Ok(text)
}

// the entries of these letters
fn entries(alloc: Global, letters: RangeInclusive<u8>) -> Result<Vec<u8>, AllocError> {
    let mut text = Vec::new(alloc);
    for letter in letters {
        text.extend_from_slice(&entry(alloc, letter)?)?;
    }
    Ok(text)
}

// A folder of so many segments of a day, each with two entries, one of them that of the next; of
// segments of other days; and of a journal with two batches and an end that is torn.
fn stored(alloc: Global, segments: u8) -> Result<MemoryDisk, Fail> {
    let mut disk = MemoryDisk::new(alloc);
    for letter in b'a'..b'a'.saturating_add(segments) {
        let text = entries(alloc, letter..=letter.saturating_add(1))?;
        put_segment(alloc, &mut disk, DAY, &text)?;
    }
    put_segment(alloc, &mut disk, b"2024-03-01", LATE)?;
    put_segment(alloc, &mut disk, b"undated", UNDATED)?;
    put(alloc, &mut disk, b"refused", &[b"x"])?;
    let batches = [b"\x01\x16\0\0\0", UNDATED, b"\x01\0\0\0\0\xfe\x09\0\0\0x"];
    put(alloc, &mut disk, b"journal.7", &batches)?;
    Ok(disk)
}

fn verify_all<F: Folder>(
    alloc: Global,
    folder: &mut F,
    damaged: &mut Vec<DamagedFile>,
) -> Result<(), ReadFault> {
    verify(alloc, folder, damaged)
}

// what is answered if a folder is verified, and the files that are told
fn damage_in(
    alloc: Global,
    disk: &mut MemoryDisk,
) -> Result<(Result<(), ReadFault>, Vec<DamagedFile>), Fail> {
    let mut damaged = Vec::new(alloc);
    let answer = verify_all(alloc, &mut view_of(alloc, disk)?, &mut damaged);
    Ok((answer, damaged))
}

// whether this is the one file that is damaged
fn is_only(damaged: &[DamagedFile], name: &[u8], damage: FileFault) -> bool {
    match damaged {
        [one] => one.name.as_octets() == name && one.damage == damage,
        _ => false,
    }
}

#[test]
fn a_whole_folder_has_no_damage(rt: HostRuntime) -> Result<(), Fail> {
    let alloc = rt.alloc();
    let (answer, damaged) = damage_in(alloc, &mut stored(alloc, 3)?)?;
    assert!(rt; answer.is_ok());
    assert!(rt; damaged.is_empty());
    Ok(())
}

// whether a segment of a day, with the name of these octets and other ones in it, is the one that is told
fn is_told(
    alloc: Global,
    day: &[u8],
    octets: &[u8],
    within: &[u8],
    damage: FileFault,
) -> Result<bool, Fail> {
    let mut disk = stored(alloc, 0)?;
    let name = segment_name(alloc, day, octets)?;
    put(alloc, &mut disk, &name, &[within])?;
    let (answer, damaged) = damage_in(alloc, &mut disk)?;
    Ok(answer.is_ok() && is_only(&damaged, &name, damage))
}

#[test]
fn each_kind_of_damage_is_told(rt: HostRuntime) -> Result<(), Fail> {
    let alloc = rt.alloc();
    let one = entry(alloc, b'a')?;
    assert!(rt; is_told(alloc, DAY, b"", &one, FileFault::Digest)?);
    let days = joined(alloc, &[&one, LATE])?;
    assert!(rt; is_told(alloc, DAY, &days, &days, FileFault::OtherDay { at: 48 })?);
    let torn = joined(alloc, &[UNDATED, b"4"])?;
    let fault = FileFault::Archive(ArchiveFault::BadFrame { at: 23 });
    assert!(rt; is_told(alloc, b"undated", &days, &torn, fault)?);
    Ok(())
}

#[test]
fn a_batch_that_is_damaged_is_told(rt: HostRuntime) -> Result<(), Fail> {
    let alloc = rt.alloc();
    let mut disk = stored(alloc, 0)?;
    overwrite(alloc, &mut disk, b"journal.7", 8, b'!')?;
    let (answer, damaged) = damage_in(alloc, &mut disk)?;
    assert!(rt; answer.is_ok());
    assert!(rt;
        matches!(
            damaged.as_slice(),
            [DamagedFile {
                name: _,
                damage: FileFault::Journal(JournalDamage::Archive(ArchiveFault::BadEntry {
                    at: 5,
                    ..
                })),
            }]
        )
    );
    Ok(())
}
