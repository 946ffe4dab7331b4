//! Folders with several journals, as turns leave them that are stopped.

use disk::MemoryDisk;
use durable_store::{DurableStore, OpenFault, SetAside, check_journals};
use record_store::{JournalDamage, journals};
use std::alloc::Global;
use std::test::Fail;
use store_test_support::calls::{crash, fused, has, joined, names_in, octets_of, put, stops};
use store_test_support::stores::{checkpoint, count, opened, text_of};

// the text of the record of a journal, as its number is
fn record(alloc: Global, number: u64) -> Result<Vec<u8>, Fail> {
    let text = format!(in alloc; "<14>1 2024-02-29T23:30:00.000000Z h a - - - {number}")?;
    Ok(text.as_bytes().to_vec(alloc)?)
}

// a journal with the record of its number in a batch, as older programs wrote it, and octets behind it
fn journal(alloc: Global, number: u64, behind: &[u8]) -> Result<Vec<u8>, Fail> {
    let octets = record(alloc, number)?;
    let front = format!(in alloc; "{} ", octets.len())?;
    let entry = joined(alloc, &[front.as_bytes(), &octets])?;
    let len = u32::try_from(entry.len()).ok().ok_or("too long")?;
    joined(alloc, &[&[1], &len.to_le_bytes(), &entry, behind])
}

// puts a journal on a disk
fn put_journal(
    alloc: Global,
    disk: &mut MemoryDisk,
    number: u64,
    octets: &[u8],
) -> Result<(), Fail> {
    let name = format!(in alloc; "journal.{number}")?;
    put(alloc, disk, name.as_bytes(), &[octets])
}

// a folder with the journals of these numbers
fn with_journals(alloc: Global, numbers: &[u64]) -> Result<MemoryDisk, Fail> {
    let mut disk = MemoryDisk::new(alloc);
    for number in numbers {
        put_journal(
            alloc,
            &mut disk,
            *number,
            &journal(alloc, *number, b"\xfe")?,
        )?;
    }
    Ok(disk)
}

// whether the records of the journals with these numbers are in memory
fn holds_all(alloc: Global, store: &DurableStore, numbers: &[u64]) -> Result<bool, Fail> {
    let text = text_of(alloc, store)?;
    for number in numbers {
        if !has(&text, &record(alloc, *number)?) {
            return Ok(false);
        }
    }
    Ok(true)
}

// whether a file of this name counts
fn counts(name: &[u8]) -> bool {
    name.starts_with(b"journal.")
        || name.ends_with(b".archive") && name != b"new.archive".as_slice()
}

// how many files count that have the record of a number
fn copies(alloc: Global, disk: &mut MemoryDisk, number: u64) -> Result<usize, Fail> {
    let record = record(alloc, number)?;
    let mut copies = 0usize;
    for name in names_in(alloc, disk)? {
        let octets = name.as_octets();
        if counts(octets) && has(&octets_of(alloc, disk, octets)?, &record) {
            copies = copies.saturating_add(1);
        }
    }
    Ok(copies)
}

// whether each of these numbers has its record in a file that counts, and in one alone if asked for
fn are_kept(
    alloc: Global,
    disk: &mut MemoryDisk,
    numbers: &[u64],
    once: bool,
) -> Result<bool, Fail> {
    for number in numbers {
        let copies = copies(alloc, disk, *number)?;
        if copies == 0 || once && copies > 1 {
            return Ok(false);
        }
    }
    Ok(true)
}

// the numbers of the journals of a folder, up to the last one
fn numbers_to(alloc: Global, disk: &mut MemoryDisk, last: u64) -> Result<Vec<u64>, Fail> {
    Ok(journals(alloc, disk, last)?)
}

// whether these are the numbers of all journals
fn are_numbers(alloc: Global, disk: &mut MemoryDisk, numbers: &[u64]) -> Result<bool, Fail> {
    Ok(numbers_to(alloc, disk, u64::MAX)?.as_slice() == numbers)
}

#[test]
fn journals_are_told_from_the_oldest_to_the_newest(rt: HostRuntime) -> Result<(), Fail> {
    let alloc = rt.alloc();
    let mut disk = with_journals(alloc, &[10, 9, 200, 3])?;
    for name in [
        b"journal.".as_slice(),
        b"journal.01",
        b"damaged.journal.4",
        b"journal.5x",
    ] {
        put(alloc, &mut disk, name, &[b"\xfe"])?;
    }
    let rows: [(u64, &[u64]); 3] = [(u64::MAX, &[3, 9, 10, 200]), (9, &[3, 9]), (2, &[])];
    for (last, numbers) in rows {
        assert!(rt;
            numbers_to(alloc, &mut disk, last)?.as_slice() == numbers,
            "{last}"
        );
    }
    Ok(())
}

#[test]
fn all_journals_are_read_and_the_older_ones_go(rt: HostRuntime) -> Result<(), Fail> {
    let alloc = rt.alloc();
    let rows: [(&[u64], u64); 3] = [(&[1, 2], 3), (&[7, 9, 10], 11), (&[2, 100, 31], 101)];
    for (row, next) in rows {
        let mut disk = with_journals(alloc, row)?;
        let mut store = opened(alloc, &mut disk)?;
        assert_eq!(rt; count(&store), row.len());
        assert!(rt; holds_all(alloc, &store, row)?);
        assert_eq!(rt; store.set_aside().len(), 0);
        assert_eq!(rt; numbers_to(alloc, &mut disk, u64::MAX)?.len(), row.len());
        checkpoint(alloc, &mut store, &mut disk)?;
        assert!(rt; are_numbers(alloc, &mut disk, &[next])?);
        assert!(rt; are_kept(alloc, &mut disk, row, true)?);
        assert_eq!(rt; count(&opened(alloc, &mut disk)?), 0);
    }
    Ok(())
}

// A turn removes 64 journals, the oldest first, and the next one goes on.
#[test]
fn at_most_64_journals_go_at_a_time(rt: HostRuntime) -> Result<(), Fail> {
    let alloc = rt.alloc();
    let mut row = Vec::new(alloc);
    for number in 1..=70 {
        row.push(number)?;
    }
    let mut disk = with_journals(alloc, &row)?;
    let mut store = opened(alloc, &mut disk)?;
    assert_eq!(rt; count(&store), 70);
    checkpoint(alloc, &mut store, &mut disk)?;
    assert!(rt; are_numbers(alloc, &mut disk, &[65, 66, 67, 68, 69, 70, 71])?);
    assert_eq!(rt; count(&opened(alloc, &mut disk)?), 6);
    checkpoint(alloc, &mut store, &mut disk)?;
    assert!(rt; are_numbers(alloc, &mut disk, &[72])?);
    assert!(rt; are_kept(alloc, &mut disk, &row, true)?);
    Ok(())
}

// the first three journals, torn, and one of them with another octet at its front
fn torn(alloc: Global, damaged: u64) -> Result<Vec<Vec<u8>>, Fail> {
    let mut all = Vec::new(alloc);
    for number in 1..=3 {
        let mut octets = journal(alloc, number, b"\xfetorn")?;
        if number == damaged {
            *octets.first_mut().ok_or("no octet")? = 3;
        }
        all.push(octets)?;
    }
    Ok(all)
}

// the number of the journal at a place
fn number_at(place: usize) -> u64 {
    (place as u64).saturating_add(1)
}

// a folder with the first journals
fn with_octets(alloc: Global, journals: &[Vec<u8>]) -> Result<MemoryDisk, Fail> {
    let mut disk = MemoryDisk::new(alloc);
    for (place, octets) in journals.iter().enumerate() {
        put_journal(alloc, &mut disk, number_at(place), octets)?;
    }
    Ok(disk)
}

// whether the files of a folder are the first journals, and have these octets
fn are_files(alloc: Global, disk: &mut MemoryDisk, journals: &[Vec<u8>]) -> Result<bool, Fail> {
    for (place, octets) in journals.iter().enumerate() {
        let name = format!(in alloc; "journal.{}", number_at(place))?;
        if !is_file(alloc, disk, name.as_bytes(), octets)? {
            return Ok(false);
        }
    }
    Ok(names_in(alloc, disk)?.len() == journals.len())
}

// whether a file has these octets
fn is_file(alloc: Global, disk: &mut MemoryDisk, name: &[u8], octets: &[u8]) -> Result<bool, Fail> {
    Ok(octets_of(alloc, disk, name)?.as_slice() == octets)
}

// what is told if the journals of a folder are checked
fn checked(alloc: Global, disk: &mut MemoryDisk) -> Option<OpenFault> {
    check_journals(alloc, disk).err()
}

// Damage of any journal is told before anything is changed.
#[test]
fn a_damaged_older_journal_is_told_first(rt: HostRuntime) -> Result<(), Fail> {
    let alloc = rt.alloc();
    for number in 1..=3 {
        let journals = torn(alloc, number)?;
        let mut disk = with_octets(alloc, &journals)?;
        let fault = JournalDamage::Hidden { at: 0 };
        let want = Some(OpenFault::Damaged { number, fault });
        assert!(rt; checked(alloc, &mut disk) == want, "{number}");
        assert!(rt; opened(alloc, &mut disk).err() == want, "{number}");
        assert!(rt; are_files(alloc, &mut disk, &journals)?, "{number}");
    }
    Ok(())
}

// What is behind the batches of an older journal is set aside too, once.
#[test]
fn an_older_journal_that_is_torn_is_read_up_to_there(rt: HostRuntime) -> Result<(), Fail> {
    let alloc = rt.alloc();
    let mut disk = MemoryDisk::new(alloc);
    let rows: [(u64, &[u8]); 3] = [(4, b"\xfetorn"), (5, b"\xfe"), (6, b"\xfecut")];
    for (number, behind) in rows {
        put_journal(alloc, &mut disk, number, &journal(alloc, number, behind)?)?;
    }
    let mut store = opened(alloc, &mut disk)?;
    let want = [
        SetAside {
            number: 4,
            octets: 5,
        },
        SetAside {
            number: 6,
            octets: 4,
        },
    ];
    assert!(rt; store.set_aside() == want.as_slice());
    assert!(rt; holds_all(alloc, &store, &[4, 5, 6])?);
    for _ in 0..2 {
        assert!(rt; is_file(alloc, &mut disk, b"damaged.journal.4", b"\xfetorn")?);
        assert!(rt; is_file(alloc, &mut disk, b"damaged.journal.6", b"\xfecut")?);
        assert_eq!(rt; opened(alloc, &mut disk)?.set_aside().len(), 0);
    }
    checkpoint(alloc, &mut store, &mut disk)?;
    assert!(rt; are_numbers(alloc, &mut disk, &[7])?);
    Ok(())
}

// the disk of a folder whose opening and checkpoint stop after so many calls
fn stopped(alloc: Global, disk: MemoryDisk, calls: u64) -> MemoryDisk {
    let mut fuse = fused(disk, calls);
    if let Ok(mut store) = opened(alloc, &mut fuse) {
        let _done = checkpoint(alloc, &mut store, &mut fuse);
    }
    fuse.into_inner()
}

// The opening and the checkpoint are stopped at each of their calls, with a crash whatever it leaves: each
// record is held.
#[test]
fn a_kill_at_any_call_loses_nothing(rt: HostRuntime) -> Result<(), Fail> {
    let alloc = rt.alloc();
    let row = [3, 4, 8];
    for stop in &stops(alloc, 60, &[0], &[None, Some(0), Some(1)])? {
        let disk = stopped(alloc, with_journals(alloc, &row)?, stop.calls);
        let mut disk = crash(
            disk,
            (stop.calls % 3) as usize,
            stop.octet,
            stop.calls % 2 == 0,
        )?;
        let mut store = opened(alloc, &mut disk)?;
        assert!(rt; are_kept(alloc, &mut disk, &row, false)?, "at {stop:?}");
        checkpoint(alloc, &mut store, &mut disk)?;
        assert_eq!(rt;
            numbers_to(alloc, &mut disk, u64::MAX)?.len(),
            1,
            "at {stop:?}"
        );
        assert!(rt; are_kept(alloc, &mut disk, &row, false)?, "at {stop:?}");
    }
    Ok(())
}
