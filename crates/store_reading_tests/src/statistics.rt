//! What the files of folders in memory have is told.

use crate::views::view_of;
use disk::MemoryDisk;
use octet_devices::{Output, ToWrite};
use std::alloc::Global;
use std::test::Fail;
use store_reading::Folder;
use store_statistics::stat_store;
use store_test_support::calls::{joined, put};

// a segment, whose octets are not those of the digest in its name
const SEGMENT: &[u8] =
    b"2024-02-29.5555555555555555555555555555555555555555555555555555555555555555.archive";

const UNDATED: &[u8] = b"19 <13>1 - h a - - - x";

const EARLY: &[u8] = b"45 <12>1 2024-02-29T08:00:00.000000Z h a - - - z";

const LATE: &[u8] = b"45 <12>1 2024-02-29T23:00:00.000000Z h a - - - z";

// a batch of two entries, as older programs wrote it, which came in another order than that of their times
const BATCH: &[u8] = &[1, 96, 0, 0, 0];

// a batch of an entry
const SHORT: &[u8] = &[1, 22, 0, 0, 0];

// a folder of a segment and of two journals
fn stored(alloc: Global) -> Result<MemoryDisk, Fail> {
    let mut disk = MemoryDisk::new(alloc);
    put(alloc, &mut disk, b"journal.1", &[SHORT, UNDATED])?;
    put(alloc, &mut disk, SEGMENT, &[EARLY, LATE])?;
    put(
        alloc,
        &mut disk,
        b"journal.10",
        &[BATCH, LATE, EARLY, b"\xfe"],
    )?;
    put(alloc, &mut disk, b"refused", &[b"x"])?;
    Ok(disk)
}

// The status of a command, and what it writes to its output and to its diagnostics.
type Ran = (u8, Vec<u8>, Vec<u8>);

fn stat_to<F: Folder, W: Output, N: Output>(
    alloc: Global,
    folder: &mut F,
    output: &mut W,
    diagnostics: &mut N,
) -> u8 {
    stat_store(alloc, folder, output, diagnostics)
}

fn stat_of<F: Folder>(alloc: Global, folder: &mut F) -> Ran {
    let mut output = ToWrite::new(Vec::new(alloc));
    let mut diagnostics = ToWrite::new(Vec::new(alloc));
    let status = stat_to(alloc, folder, &mut output, &mut diagnostics);
    (status, output.into_inner(), diagnostics.into_inner())
}

// whether a command ended so
fn is(
    alloc: Global,
    ran: &Ran,
    status: u8,
    output: &[&[u8]],
    diagnostics: &[u8],
) -> Result<bool, Fail> {
    let (found, written, told) = ran;
    let same = *written == joined(alloc, output)? && told.as_slice() == diagnostics;
    Ok(*found == status && same)
}

const SEGMENT_LINE: &[u8] =
    b"2 96 2024-02-29T08:00:00.000000Z 2024-02-29T23:00:00.000000Z 2024-02-29.5555555555555555555555555555555555555555555555555555555555555555.archive\n";

#[test]
fn each_file_has_a_line(rt: HostRuntime) -> Result<(), Fail> {
    let alloc = rt.alloc();
    let ran = stat_of(alloc, &mut view_of(alloc, &mut stored(alloc)?)?);
    let lines = [
        SEGMENT_LINE,
        b"1 27 - - journal.1\n",
        b"2 102 2024-02-29T08:00:00.000000Z 2024-02-29T23:00:00.000000Z journal.10\n",
        b"5 225 2024-02-29T08:00:00.000000Z 2024-02-29T23:00:00.000000Z\n",
    ];
    assert!(rt; is(alloc, &ran, 0, &lines, b"")?, "{ran:?}");
    Ok(())
}

#[test]
fn a_damaged_file_is_told_beside_the_others(rt: HostRuntime) -> Result<(), Fail> {
    let alloc = rt.alloc();
    let mut disk = MemoryDisk::new(alloc);
    put(alloc, &mut disk, SEGMENT, &[EARLY, LATE])?;
    put(alloc, &mut disk, b"journal.2", &[&[9, 9]])?;
    let ran = stat_of(alloc, &mut view_of(alloc, &mut disk)?);
    let lines = [
        SEGMENT_LINE,
        b"2 96 2024-02-29T08:00:00.000000Z 2024-02-29T23:00:00.000000Z\n",
    ];
    assert!(rt;
        is(alloc, &ran, 1, &lines, b"journal.2 hidden 0\n")?,
        "{ran:?}"
    );
    Ok(())
}

// the first file that is opened fails behind seven octets
#[test]
fn a_file_that_fails_ends_it(rt: HostRuntime) -> Result<(), Fail> {
    let alloc = rt.alloc();
    let mut view = view_of(alloc, &mut stored(alloc)?)?;
    view.failing = 1;
    view.octets = 7;
    let ran = stat_of(alloc, &mut view);
    assert!(rt;
        is(alloc, &ran, 2, &[SEGMENT_LINE], b"journal.1 read fault\n")?,
        "{ran:?}"
    );
    Ok(())
}
