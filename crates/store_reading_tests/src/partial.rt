//! A store is read without its damaged files.

use crate::views::{View, view_of};
use archive_sets::Conditions;
use disk::MemoryDisk;
use octet_devices::ToWrite;
use read_engine::{ReadForm, ReadOptions, read_records};
use std::alloc::Global;
use std::test::Fail;
use store_test_support::calls::{joined, overwrite, put};

// names of segments: that of B, and that of D; and of a mixed one that is damaged
const FIRST: &[u8] =
    b"2024-02-29.143260abab3d41d3e9860999c599619802b3353737d9e846bc1d40c266256871.archive";

const LATER: &[u8] =
    b"2024-03-01.b1cd91380b71e440fc0789dd005e092c64be3876abe66744b9b05105f75f863a.archive";

const MIXED: &[u8] =
    b"mixed.5555555555555555555555555555555555555555555555555555555555555555.archive";

// the texts of entries, in their order
const A: &[u8] = b"19 <13>1 - h a - - - x";

const B: &[u8] = b"45 <12>1 2024-02-29T23:00:00.000000Z h a - - - z";

const D: &[u8] = b"45 <14>1 2024-03-01T00:00:00.000000Z h a - - - w";

// a batch of an entry, as older programs wrote it
const BATCH: &[u8] = &[1, 22, 0, 0, 0];

// the lines on the files, where an octet of each is another one
const FIRST_LINE: [&[u8]; 2] = [FIRST, b" bad-entry 0 syntax priority 2\n"];

const LATER_LINE: [&[u8]; 2] = [LATER, b" bad-entry 0 syntax priority 2\n"];

const MIXED_LINE: [&[u8]; 2] = [MIXED, b" digest\n"];

// a folder of two segments and of a journal
fn stored(alloc: Global) -> Result<MemoryDisk, Fail> {
    let mut disk = MemoryDisk::new(alloc);
    put(alloc, &mut disk, FIRST, &[B])?;
    put(alloc, &mut disk, b"journal.1", &[BATCH, A])?;
    put(alloc, &mut disk, LATER, &[D])?;
    Ok(disk)
}

// The status of a reading, and what it writes to its output and to its diagnostics.
type Ran = (u8, Vec<u8>, Vec<u8>);

fn read_of(alloc: Global, view: &mut View, options: &ReadOptions<'_>) -> Ran {
    let mut output = ToWrite::new(Vec::new(alloc));
    let mut diagnostics = ToWrite::new(Vec::new(alloc));
    let status = read_records(alloc, view, options, &mut output, &mut diagnostics);
    (status, output.into_inner(), diagnostics.into_inner())
}

// all records, without those of damaged files
fn partial<'a>(alloc: Global, last: Option<u32>) -> ReadOptions<'a> {
    ReadOptions {
        conditions: Conditions::all(alloc),
        last,
        form: ReadForm::Archive,
        partial: true,
    }
}

// whether a reading of the folder of a disk ends so
fn reads(
    alloc: Global,
    disk: &mut MemoryDisk,
    last: Option<u32>,
    status: u8,
    output: &[&[u8]],
    lines: &[&[u8]],
) -> Result<bool, Fail> {
    let mut view = view_of(alloc, disk)?;
    let (found, written, told) = read_of(alloc, &mut view, &partial(alloc, last));
    let same = written == joined(alloc, output)? && told == joined(alloc, lines)?;
    Ok(found == status && same)
}

#[test]
fn a_whole_store_is_read(rt: HostRuntime) -> Result<(), Fail> {
    let alloc = rt.alloc();
    assert!(rt; reads(alloc, &mut stored(alloc)?, None, 0, &[A, B, D], &[])?);
    assert!(rt; reads(alloc, &mut stored(alloc)?, Some(1), 0, &[D], &[])?);
    assert!(rt; reads(alloc, &mut MemoryDisk::new(alloc), None, 0, &[], &[])?);
    Ok(())
}

#[test]
fn a_damaged_segment_hides_no_other_file(rt: HostRuntime) -> Result<(), Fail> {
    let alloc = rt.alloc();
    let mut disk = stored(alloc)?;
    overwrite(alloc, &mut disk, FIRST, 5, b'!')?;
    assert!(rt; reads(alloc, &mut disk, None, 1, &[A, D], &FIRST_LINE)?);
    assert!(rt; reads(alloc, &mut disk, Some(1), 1, &[D], &FIRST_LINE)?);
    assert!(rt; reads(alloc, &mut disk, Some(9), 1, &[A, D], &FIRST_LINE)?);
    Ok(())
}

#[test]
fn a_damaged_journal_hides_no_other_file(rt: HostRuntime) -> Result<(), Fail> {
    let alloc = rt.alloc();
    let mut disk = stored(alloc)?;
    put(alloc, &mut disk, b"journal.2", &[&[9, 9]])?;
    let line: [&[u8]; 1] = [b"journal.2 hidden 0\n"];
    assert!(rt; reads(alloc, &mut disk, None, 1, &[A, B, D], &line)?);
    Ok(())
}

#[test]
fn a_damaged_mixed_segment_hides_no_other_file(rt: HostRuntime) -> Result<(), Fail> {
    let alloc = rt.alloc();
    let mut disk = stored(alloc)?;
    put(alloc, &mut disk, MIXED, &[A, B])?;
    assert!(rt; reads(alloc, &mut disk, None, 1, &[A, B, D], &MIXED_LINE)?);
    Ok(())
}

#[test]
fn each_damaged_file_is_told_once(rt: HostRuntime) -> Result<(), Fail> {
    let alloc = rt.alloc();
    let mut disk = stored(alloc)?;
    overwrite(alloc, &mut disk, FIRST, 5, b'!')?;
    overwrite(alloc, &mut disk, LATER, 5, b'!')?;
    overwrite(alloc, &mut disk, b"journal.1", 9, b'!')?;
    let mut view = view_of(alloc, &mut disk)?;
    let (status, written, told) = read_of(alloc, &mut view, &partial(alloc, None));
    assert_eq!(rt; status, 1);
    assert!(rt; written.is_empty());
    let lines = joined(alloc, &[&FIRST_LINE[..], &LATER_LINE[..]].concat(alloc)?)?;
    assert!(rt; told.starts_with(&lines), "{told:?}");
    assert!(rt; told[lines.len()..].starts_with(b"journal.1 "));
    Ok(())
}

// a file that cannot be read ends it, whichever it is
#[test]
fn a_device_that_fails_ends_the_reading(rt: HostRuntime) -> Result<(), Fail> {
    let alloc = rt.alloc();
    for failing in 0..3 {
        let mut disk = stored(alloc)?;
        overwrite(alloc, &mut disk, FIRST, 5, b'!')?;
        let mut view = view_of(alloc, &mut disk)?;
        view.failing = failing;
        view.octets = 3;
        let (status, written, told) = read_of(alloc, &mut view, &partial(alloc, None));
        assert_eq!(rt; status, 2);
        assert!(rt;
            written.is_empty() && told.ends_with(b" read fault\n"),
            "{told:?}"
        );
    }
    Ok(())
}

// without `partial` the first damaged file ends the reading
#[test]
fn damaged_files_are_left_out_only_where_that_is_asked_for(rt: HostRuntime) -> Result<(), Fail> {
    let alloc = rt.alloc();
    let mut disk = stored(alloc)?;
    overwrite(alloc, &mut disk, FIRST, 5, b'!')?;
    let mut options = partial(alloc, None);
    options.partial = false;
    let (status, written, told) = read_of(alloc, &mut view_of(alloc, &mut disk)?, &options);
    assert_eq!(rt; status, 1);
    assert!(rt; written.as_slice() == A && told == joined(alloc, &FIRST_LINE)?);
    Ok(())
}
