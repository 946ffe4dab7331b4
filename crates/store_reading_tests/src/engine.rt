use crate::views::{ALL, view_of};
use disk::{DiskFault, FileName, MemoryDisk};
use octet_devices::{Output, ToWrite};
use std::alloc::Global;
use std::test::Fail;
use std::{env, fs, io, process};
use store_engine::{NoStore, SystemFolder, read_store, report_no_store, verify_store};
use store_reading::Folder;
use store_test_support::calls::{joined, named, overwrite, put};

// the name of a segment, and that of another; their octets are B
const FIRST: &[u8] =
    b"2024-02-29.143260abab3d41d3e9860999c599619802b3353737d9e846bc1d40c266256871.archive";

const OTHER: &[u8] =
    b"2024-02-29.5555555555555555555555555555555555555555555555555555555555555555.archive";

const A: &[u8] = b"19 <13>1 - h a - - - x";

const B: &[u8] = b"45 <12>1 2024-02-29T23:00:00.000000Z h a - - - z";

// a batch of an entry, as older programs wrote it
const BATCH: &[u8] = &[1, 22, 0, 0, 0];

// a folder of a segment and of a journal
fn stored(alloc: Global) -> Result<MemoryDisk, Fail> {
    let mut disk = MemoryDisk::new(alloc);
    put(alloc, &mut disk, FIRST, &[B])?;
    put(alloc, &mut disk, b"journal.1", &[BATCH, A])?;
    Ok(disk)
}

// The status of a command, and what it writes to its output and to its diagnostics.
type Ran = (u8, Vec<u8>, Vec<u8>);

fn read_to<F: Folder, W: Output, N: Output>(
    alloc: Global,
    folder: &mut F,
    output: &mut W,
    diagnostics: &mut N,
) -> u8 {
    read_store(alloc, folder, ALL, output, diagnostics)
}

fn verify_to<F: Folder, W: Output, N: Output>(
    alloc: Global,
    folder: &mut F,
    output: &mut W,
    diagnostics: &mut N,
) -> u8 {
    verify_store(alloc, folder, output, diagnostics)
}

fn read_of<F: Folder>(alloc: Global, folder: &mut F) -> Ran {
    let mut output = ToWrite::new(Vec::new(alloc));
    let mut diagnostics = ToWrite::new(Vec::new(alloc));
    let status = read_to(alloc, folder, &mut output, &mut diagnostics);
    (status, output.into_inner(), diagnostics.into_inner())
}

fn verify_of<F: Folder>(alloc: Global, folder: &mut F) -> Ran {
    let mut output = ToWrite::new(Vec::new(alloc));
    let mut diagnostics = ToWrite::new(Vec::new(alloc));
    let status = verify_to(alloc, folder, &mut output, &mut diagnostics);
    (status, output.into_inner(), diagnostics.into_inner())
}

// what `read` does on the folder of a disk
fn read_disk(alloc: Global, disk: &mut MemoryDisk) -> Result<Ran, Fail> {
    Ok(read_of(alloc, &mut view_of(alloc, disk)?))
}

// what `verify` does on the folder of a disk
fn verify_disk(alloc: Global, disk: &mut MemoryDisk) -> Result<Ran, Fail> {
    Ok(verify_of(alloc, &mut view_of(alloc, disk)?))
}

// whether a command ended so
fn is(
    alloc: Global,
    ran: &Ran,
    status: u8,
    output: &[&[u8]],
    diagnostics: &[&[u8]],
) -> Result<bool, Fail> {
    let (found, written, told) = ran;
    let same = *written == joined(alloc, output)? && *told == joined(alloc, diagnostics)?;
    Ok(*found == status && same)
}

#[test]
fn a_store_is_read(rt: HostRuntime) -> Result<(), Fail> {
    let alloc = rt.alloc();
    let ran = read_disk(alloc, &mut stored(alloc)?)?;
    assert!(rt; is(alloc, &ran, 0, &[A, B], &[])?, "{ran:?}");
    Ok(())
}

#[test]
fn a_damaged_file_is_told_with_its_name(rt: HostRuntime) -> Result<(), Fail> {
    let alloc = rt.alloc();
    let mut disk = stored(alloc)?;
    overwrite(alloc, &mut disk, FIRST, 5, b'!')?;
    let ran = read_disk(alloc, &mut disk)?;
    let line = [FIRST, b" bad-entry 0 syntax priority 2\n"];
    assert!(rt; is(alloc, &ran, 1, &[A], &line)?, "{ran:?}");
    Ok(())
}

#[test]
fn a_segment_with_the_name_of_another_is_told(rt: HostRuntime) -> Result<(), Fail> {
    let alloc = rt.alloc();
    let mut disk = stored(alloc)?;
    put(alloc, &mut disk, OTHER, &[B])?;
    let ran = read_disk(alloc, &mut disk)?;
    assert!(rt;
        is(alloc, &ran, 1, &[A], &[OTHER, b" digest\n"])?,
        "{ran:?}"
    );
    Ok(())
}

#[test]
fn each_damaged_file_has_a_line(rt: HostRuntime) -> Result<(), Fail> {
    let alloc = rt.alloc();
    let ran = verify_disk(alloc, &mut stored(alloc)?)?;
    assert!(rt; is(alloc, &ran, 0, &[], &[])?, "{ran:?}");
    let mut disk = stored(alloc)?;
    put(alloc, &mut disk, OTHER, &[B])?;
    let unsealed = [&[1, 31, 0, 0, 0], A, b"#12345678"];
    put(alloc, &mut disk, b"journal.2", &unsealed)?;
    put(alloc, &mut disk, b"journal.3", &[&[9, 9]])?;
    let ran = verify_disk(alloc, &mut disk)?;
    let lines = [
        OTHER,
        b" digest\njournal.2 checksum 27\njournal.3 hidden 0\n",
    ];
    assert!(rt; is(alloc, &ran, 1, &lines, &[])?, "{ran:?}");
    Ok(())
}

// the first file that is opened fails behind seven octets
#[test]
fn a_file_that_fails_is_told_with_its_name(rt: HostRuntime) -> Result<(), Fail> {
    let alloc = rt.alloc();
    let mut view = view_of(alloc, &mut stored(alloc)?)?;
    view.failing = 0;
    view.octets = 7;
    let ran = read_of(alloc, &mut view);
    assert!(rt;
        is(alloc, &ran, 2, &[], &[b"journal.1 read fault\n"])?,
        "{ran:?}"
    );
    let mut view = view_of(alloc, &mut stored(alloc)?)?;
    view.failing = 0;
    view.octets = 7;
    let ran = verify_of(alloc, &mut view);
    assert!(rt;
        is(alloc, &ran, 2, &[], &[FIRST, b" read fault\n"])?,
        "{ran:?}"
    );
    Ok(())
}

// A path in the system's temporary folder, where nothing is.
fn unused_path(rt: &HostRuntime, test: &str) -> io::Result<String> {
    let id = process::id(rt.process());
    let temporary = env::temp_dir(rt)?;
    let folder = temporary.as_str();
    let path = format!(in rt.alloc(); "{folder}/store_engine.{test}.{id}")?;
    let _ = fs::remove_dir_all(rt, path.as_str());
    Ok(path)
}

fn opened(rt: &HostRuntime, path: &str) -> Result<SystemFolder<HostRuntime>, NoStore> {
    SystemFolder::open(rt, path)
}

// what is told of a folder that has no store
fn no_store(alloc: Global, path: &str, why: &NoStore) -> (u8, Vec<u8>) {
    let mut diagnostics = ToWrite::new(Vec::new(alloc));
    let status = report_no_store(alloc, path, why, &mut diagnostics);
    (status, diagnostics.into_inner())
}

#[test]
fn a_folder_without_a_store_is_told(rt: HostRuntime) -> Result<(), Fail> {
    let alloc = rt.alloc();
    let path = unused_path(&rt, "none")?;
    let missing = opened(&rt, path.as_str()).err().ok_or("a folder")?;
    let (status, line) = no_store(alloc, path.as_str(), &missing);
    assert_eq!(rt; status, 2);
    assert!(rt; line.starts_with(path.as_bytes()));
    fs::create_dir(&rt, path.as_str())?;
    assert!(rt; matches!(opened(&rt, path.as_str()), Err(NoStore::NoFiles)));
    fs::remove_dir_all(&rt, path.as_str())?;
    assert!(rt; opened(&rt, "").is_err());
    Ok(())
}

// why a file is not opened
fn fault_of_open<F: Folder>(alloc: Global, folder: &mut F, name: &FileName) -> Option<DiskFault> {
    folder.open(alloc, name).err()
}

// whether a folder tells the names of its files
fn lists<F: Folder>(alloc: Global, folder: &mut F) -> bool {
    folder.names(alloc).is_ok()
}

// a folder of the system with a journal
fn system_folder(rt: &HostRuntime, path: &str) -> Result<SystemFolder<HostRuntime>, Fail> {
    let alloc = rt.alloc();
    fs::create_dir(rt, path)?;
    let file = format!(in alloc; "{path}/journal.1")?;
    fs::write(rt, file.as_str(), joined(alloc, &[BATCH, A])?.as_slice())?;
    Ok(opened(rt, path).ok().ok_or("no store")?)
}

#[test]
fn a_folder_of_the_system_is_read(rt: HostRuntime) -> Result<(), Fail> {
    let alloc = rt.alloc();
    let path = unused_path(&rt, "read")?;
    let mut folder = system_folder(&rt, path.as_str())?;
    let ran = read_of(alloc, &mut folder);
    assert!(rt; is(alloc, &ran, 0, &[A], &[])?, "{ran:?}");
    let fault = fault_of_open(alloc, &mut folder, &named(alloc, b"journal.2")?);
    assert_eq!(rt; fault, Some(DiskFault::Missing));
    assert!(rt; folder.last_error().is_none());
    fs::remove_dir_all(&rt, path.as_str())?;
    assert!(rt; !lists(alloc, &mut folder));
    assert!(rt; folder.last_error().is_some());
    Ok(())
}
