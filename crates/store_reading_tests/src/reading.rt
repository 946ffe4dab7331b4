use crate::views::{ALL, View, view_of, written};
use archive_sets::InRange;
use archive_text::{ArchiveFault, ENTRY_MAX, read_entry};
use disk::MemoryDisk;
use record_store::JournalDamage;
use std::alloc::Global;
use std::test::Fail;
use store_reading::{FileFault, ReadFault};
use store_test_support::calls::{joined, overwrite, put};
use syslog_value::Instant;

// names of segments: that of B, that of B and C, that of D, and one that is no archive
const FIRST: &[u8] =
    b"2024-02-29.143260abab3d41d3e9860999c599619802b3353737d9e846bc1d40c266256871.archive";

const ALSO: &[u8] =
    b"2024-02-29.3b7f5f5ea6ffaba736858dbcd3dbdc58db65625c0e79aa6f318e353cf66244e0.archive";

const LATER: &[u8] =
    b"2024-03-01.b1cd91380b71e440fc0789dd005e092c64be3876abe66744b9b05105f75f863a.archive";

const DAMAGED: &[u8] =
    b"2024-03-02.4444444444444444444444444444444444444444444444444444444444444444.archive";

const JOURNAL: &[u8] = b"journal.1";

// the texts of entries, in their order
const A: &[u8] = b"19 <13>1 - h a - - - x";

const B: &[u8] = b"45 <12>1 2024-02-29T23:00:00.000000Z h a - - - z";

const C: &[u8] = b"45 <14>1 2024-02-29T23:30:00.000000Z h a - - - y";

const D: &[u8] = b"45 <14>1 2024-03-01T00:00:00.000000Z h a - - - w";

// the seals of batches of A and of D
const SEAL_A: &[u8] = &[35, 22, 0, 0, 0, 208, 198, 139, 87];

const SEAL_D: &[u8] = &[35, 48, 0, 0, 0, 232, 132, 159, 219];

// a folder of segments, and of a journal with a batch of two entries and one that was not opened
fn stored(alloc: Global) -> Result<MemoryDisk, Fail> {
    let mut disk = MemoryDisk::new(alloc);
    put(alloc, &mut disk, LATER, &[D])?;
    put(alloc, &mut disk, FIRST, &[B])?;
    put(alloc, &mut disk, ALSO, &[B, C])?;
    put(alloc, &mut disk, b"refused", &[b"x"])?;
    put(
        alloc,
        &mut disk,
        JOURNAL,
        &[&[1, 70, 0, 0, 0], D, A, &[0, 3, 0, 0, 0, 1, 2, 3]],
    )?;
    Ok(disk)
}

// a view of that folder
fn stored_view(alloc: Global) -> Result<View, Fail> {
    view_of(alloc, &mut stored(alloc)?)
}

// whether a range is read without a fault, and these texts are written
fn writes(alloc: Global, view: &mut View, range: InRange, texts: &[&[u8]]) -> Result<bool, Fail> {
    let (answer, text) = written(alloc, view, range);
    Ok(answer.is_ok() && text == joined(alloc, texts)?)
}

#[test]
fn what_a_folder_holds_is_written_once_and_in_order(rt: HostRuntime) -> Result<(), Fail> {
    let alloc = rt.alloc();
    assert!(rt; writes(alloc, &mut stored_view(alloc)?, ALL, &[A, B, C, D])?);
    let mut empty = view_of(alloc, &mut MemoryDisk::new(alloc))?;
    assert!(rt; writes(alloc, &mut empty, ALL, &[])?);
    Ok(())
}

// the instant of an entry, by its text
fn instant_of(text: &[u8]) -> Option<Instant> {
    match read_entry(ENTRY_MAX as u64, text) {
        Ok((entry, _)) => entry.instant,
        Err(_) => None,
    }
}

#[test]
fn a_range_is_half_open(rt: HostRuntime) -> Result<(), Fail> {
    let alloc = rt.alloc();
    let rows: [(bool, &[&[u8]]); 2] = [(false, &[C]), (true, &[A, C])];
    for (undated, texts) in rows {
        let range = InRange {
            from: instant_of(C),
            to: instant_of(D),
            undated,
        };
        assert!(rt;
            writes(alloc, &mut stored_view(alloc)?, range, texts)?,
            "{undated}"
        );
    }
    Ok(())
}

// what is answered if what is before an instant is read, and what is written
fn written_before(
    alloc: Global,
    view: &mut View,
    micros: i64,
) -> Result<(Result<(), ReadFault>, Vec<u8>), Fail> {
    let instant = Instant::from_micros(micros).ok_or("no instant")?;
    let range = InRange {
        from: None,
        to: Some(instant),
        undated: true,
    };
    Ok(written(alloc, view, range))
}

// A range that ends where a day begins opens no segment of it; nor does one that ends before all
// instants. One that has an instant of it does.
#[test]
fn a_range_leaves_damaged_days_alone(rt: HostRuntime) -> Result<(), Fail> {
    let alloc = rt.alloc();
    let mut disk = stored(alloc)?;
    put(alloc, &mut disk, DAMAGED, &[b"no archive"])?;
    let mut view = view_of(alloc, &mut disk)?;
    let all = joined(alloc, &[A, B, C, D])?;
    let (answer, text) = written_before(alloc, &mut view, 1_709_337_600_000_000)?;
    assert!(rt; answer.is_ok() && text == all);
    let (answer, text) = written_before(alloc, &mut view, -62_167_219_200_000_000)?;
    assert!(rt; answer.is_ok() && text.as_slice() == A);
    let (answer, text) = written_before(alloc, &mut view, 1_709_337_600_000_001)?;
    assert!(rt; matches!(&answer, Err(ReadFault::Damaged { .. })));
    assert!(rt; text == all);
    Ok(())
}

// whether a prefix is written, and the fault is told, where a file fails behind so many octets
fn writes_prefix(alloc: Global, failing: u64, octets: u64) -> Result<bool, Fail> {
    let mut view = stored_view(alloc)?;
    view.failing = failing;
    view.octets = octets;
    let (answer, text) = written(alloc, &mut view, ALL);
    let is_prefix = joined(alloc, &[A, B, C, D])?.starts_with(&text);
    Ok(is_prefix && matches!(&answer, Err(ReadFault::Read { .. })))
}

// Each file that is opened fails in turn, at its first octet and behind some: what is written is a
// prefix.
#[test]
fn a_failing_read_leaves_a_prefix(rt: HostRuntime) -> Result<(), Fail> {
    let alloc = rt.alloc();
    for failing in 0..7 {
        assert!(rt; writes_prefix(alloc, failing, 0)?, "{failing}");
        assert!(rt; writes_prefix(alloc, failing, 20)?, "{failing}");
    }
    Ok(())
}

#[test]
fn files_that_are_gone_are_listed_again(rt: HostRuntime) -> Result<(), Fail> {
    let alloc = rt.alloc();
    let mut view = stored_view(alloc)?;
    view.gone = 3;
    assert!(rt; writes(alloc, &mut view, ALL, &[A, B, C, D])?);
    view.gone = u64::MAX;
    let (answer, text) = written(alloc, &mut view, ALL);
    assert!(rt; matches!(&answer, Err(ReadFault::Gone)));
    assert!(rt; text.is_empty());
    Ok(())
}

#[test]
fn files_that_a_listing_misses_are_read(rt: HostRuntime) -> Result<(), Fail> {
    let alloc = rt.alloc();
    let mut view = stored_view(alloc)?;
    view.missed = 5;
    assert!(rt; writes(alloc, &mut view, ALL, &[A, B, C, D])?);
    Ok(())
}

// How a folder with a changed octet reads.
#[derive(Clone, Copy, Debug, PartialEq, Eq)]
enum Reads {
    // as if nothing was changed
    Same,
    // the damage is told, and only what is before it is written
    Told,
    Else,
}

// how the folder of `stored` reads if an octet of ALSO is another one
fn with_changed_segment(alloc: Global, at: u64) -> Result<Reads, Fail> {
    let mut disk = stored(alloc)?;
    overwrite(alloc, &mut disk, ALSO, at, b'9')?;
    let (answer, text) = written(alloc, &mut view_of(alloc, &mut disk)?, ALL);
    let (is_right, reads) = match &answer {
        Ok(()) => (text == joined(alloc, &[A, B, C, D])?, Reads::Same),
        Err(ReadFault::Damaged { name, fault: _ }) => (
            name.as_octets() == ALSO && text.as_slice() == A,
            Reads::Told,
        ),
        Err(_) => (false, Reads::Else),
    };
    Ok(if is_right { reads } else { Reads::Else })
}

// An octet of a segment is another one: that segment is told, even if it is still an archive of its day,
// and only the days before it were written. Two octets stay the same.
#[test]
fn a_damaged_segment_is_told(rt: HostRuntime) -> Result<(), Fail> {
    let alloc = rt.alloc();
    let mut same = 0_u32;
    for at in 0..96 {
        let reads = with_changed_segment(alloc, at)?;
        assert!(rt; reads != Reads::Else, "{at}");
        if reads == Reads::Same {
            same = same.saturating_add(1);
        }
    }
    assert_eq!(rt; same, 2);
    Ok(())
}

#[test]
fn an_entry_of_another_day_is_told(rt: HostRuntime) -> Result<(), Fail> {
    let alloc = rt.alloc();
    let mut disk = MemoryDisk::new(alloc);
    put(alloc, &mut disk, FIRST, &[B, C, D])?;
    let (answer, text) = written(alloc, &mut view_of(alloc, &mut disk)?, ALL);
    let fault = FileFault::OtherDay { at: 96 };
    assert!(rt;
        matches!(&answer, Err(ReadFault::Damaged { name: _, fault: found }) if *found == fault)
    );
    assert!(rt; text.is_empty());
    Ok(())
}

// a journal of two batches that are sealed
fn sealed(alloc: Global) -> Result<Vec<u8>, Fail> {
    let first = joined(alloc, &[&[1, 31, 0, 0, 0], A, SEAL_A])?;
    let second = joined(alloc, &[&[1, 57, 0, 0, 0], D, SEAL_D])?;
    joined(alloc, &[&first, &second, &[254]])
}

// that journal with bits of an octet changed
fn sealed_but(alloc: Global, at: usize, bits: u8) -> Result<Vec<u8>, Fail> {
    let mut octets = sealed(alloc)?;
    if let Some(octet) = octets.get_mut(at) {
        *octet ^= bits;
    }
    Ok(octets)
}

// the view of a folder with a journal of these octets
fn journal_view(alloc: Global, octets: &[u8]) -> Result<View, Fail> {
    let mut disk = MemoryDisk::new(alloc);
    put(alloc, &mut disk, JOURNAL, &[octets])?;
    view_of(alloc, &mut disk)
}

// how a folder reads with a journal of these octets
fn with_changed_journal(alloc: Global, octets: &[u8]) -> Result<Reads, Fail> {
    let (answer, text) = written(alloc, &mut journal_view(alloc, octets)?, ALL);
    let (is_right, reads) = match &answer {
        Ok(()) => (text == joined(alloc, &[A, D])?, Reads::Same),
        Err(
            ReadFault::Damaged {
                name: _,
                fault: FileFault::Journal(_),
            },
        ) => (text.is_empty(), Reads::Told),
        Err(_) => (false, Reads::Else),
    };
    Ok(if is_right { reads } else { Reads::Else })
}

// How many bits of an octet of a journal may change as if nothing was changed. There is no such number if a change
// is neither so nor told.
fn unseen_bits(alloc: Global, at: usize) -> Result<Option<u32>, Fail> {
    let mut unseen = 0_u32;
    for bit in [1_u8, 2, 4, 8, 16, 32, 64, 128] {
        match with_changed_journal(alloc, &sealed_but(alloc, at, bit)?)? {
            Reads::Same => unseen = unseen.saturating_add(1),
            Reads::Told => {}
            Reads::Else => return Ok(None),
        }
    }
    Ok(Some(unseen))
}

// Each bit of a journal is changed: it is told, but where it is one of the octet before no batch.
#[test]
fn each_bit_of_a_journal_counts(rt: HostRuntime) -> Result<(), Fail> {
    let alloc = rt.alloc();
    let last = sealed(alloc)?.len().saturating_sub(1);
    for at in 0..last {
        assert_eq!(rt; unseen_bits(alloc, at)?, Some(0), "{at}");
    }
    assert_eq!(rt; unseen_bits(alloc, last)?, Some(8));
    Ok(())
}

// what is told of a journal with these octets
fn told(alloc: Global, octets: &[u8]) -> Result<Option<JournalDamage>, Fail> {
    match written(alloc, &mut journal_view(alloc, octets)?, ALL).0 {
        Err(
            ReadFault::Damaged {
                name: _,
                fault: FileFault::Journal(damage),
            },
        ) => Ok(Some(damage)),
        _ => Ok(None),
    }
}

#[test]
fn damage_of_a_journal_is_told_where_it_is(rt: HostRuntime) -> Result<(), Fail> {
    let alloc = rt.alloc();
    let rows = [
        (35, 64, JournalDamage::Checksum { at: 27 }),
        (26, 64, JournalDamage::Checksum { at: 27 }),
        (0, 64, JournalDamage::Hidden { at: 0 }),
        (0, 255, JournalDamage::Hidden { at: 0 }),
        (1, 64, JournalDamage::Hidden { at: 0 }),
        (36, 64, JournalDamage::Hidden { at: 36 }),
        (
            5,
            64,
            JournalDamage::Archive(ArchiveFault::BadFrame { at: 5 }),
        ),
    ];
    for (at, bits, right) in rows {
        let octets = sealed_but(alloc, at, bits)?;
        assert!(rt; told(alloc, &octets)? == Some(right), "{at} {bits}");
    }
    let plain = joined(alloc, &[&[1, 22, 0, 0, 0], A])?;
    let mut behind = sealed(alloc)?;
    behind.pop();
    behind.extend_from_slice(&plain)?;
    let at = behind.len() as u64;
    assert!(rt; told(alloc, &behind)? == Some(JournalDamage::Checksum { at }));
    assert!(rt; told(alloc, &joined(alloc, &[&plain, &sealed(alloc)?])?)?.is_none());
    Ok(())
}

// A journal whose last batch is not open at first, as where a server opens it meanwhile, is read again.
#[test]
fn a_batch_that_is_opened_meanwhile_is_no_damage(rt: HostRuntime) -> Result<(), Fail> {
    let alloc = rt.alloc();
    let mut view = journal_view(alloc, &sealed(alloc)?)?;
    view.early = Some(sealed_but(alloc, 0, 255)?);
    assert!(rt; writes(alloc, &mut view, ALL, &[A, D])?);
    Ok(())
}
