use disk::{Disk, DiskFault, FileName};
use folder_disk::{FolderDisk, FolderFault, FolderLock, LockFault, LockFile};
use std::alloc::Global;
use std::io::{self, ErrorKind};
use std::os::unix::fs::{MetadataExt, PermissionsExt, symlink};
use std::test::Fail;
use std::{env, fs, process};
use store_test_support::calls::{Change, change_all, named, names_in, octets_from};

// A path in the system's temporary folder, where nothing is.
fn unused_path(rt: &HostRuntime, test: &str) -> io::Result<String> {
    let id = process::id(rt.process());
    let temporary = env::temp_dir(rt)?;
    let folder = temporary.as_str();
    let path = format!(in rt.alloc(); "{folder}/folder_disk.{test}.{id}")?;
    let _ = fs::remove_dir_all(rt, path.as_str());
    Ok(path)
}

fn created(rt: &HostRuntime, path: &str) -> Result<FolderDisk<HostRuntime>, FolderFault> {
    FolderDisk::create(rt, path)
}

fn opened(rt: &HostRuntime, path: &str) -> Result<FolderDisk<HostRuntime>, FolderFault> {
    FolderDisk::open(rt, path)
}

// whether a file has these octets from an offset on
fn shows(
    alloc: Global,
    disk: &mut FolderDisk<HostRuntime>,
    name: &[u8],
    at: u64,
    octets: &[u8],
) -> Result<bool, Fail> {
    Ok(octets_from(alloc, disk, name, at)?.as_slice() == octets)
}

#[test]
fn a_file_is_written_cut_renamed_and_removed(rt: HostRuntime) -> Result<(), Fail> {
    let alloc = rt.alloc();
    let path = unused_path(&rt, "calls")?;
    let mut disk = created(&rt, path.as_str())?;
    let written = [
        (Change::Create("one"), Ok(())),
        (Change::Create("one"), Err(DiskFault::Exists)),
        (Change::Append("one", "abc"), Ok(())),
        (Change::Append("one", "def"), Ok(())),
        (Change::Sync("one"), Ok(())),
        (Change::Overwrite("one", 1, b'x'), Ok(())),
        (Change::Overwrite("one", 6, b'y'), Ok(())),
        (Change::Cut("one", 9), Ok(())),
        (Change::Sync("one"), Ok(())),
    ];
    change_all(alloc, &mut disk, &written)?;
    assert!(rt; shows(alloc, &mut disk, b"one", 0, b"axcdef")?);
    let cut = [
        (Change::Cut("one", 4), Ok(())),
        (Change::Append("one", "z"), Ok(())),
    ];
    change_all(alloc, &mut disk, &cut)?;
    for (at, rest) in [
        (1, b"xcdz".as_slice()),
        (5, b"".as_slice()),
        (u64::MAX, b"".as_slice()),
    ] {
        assert!(rt; shows(alloc, &mut disk, b"one", at, rest)?, "at {at}");
    }
    let renamed = [
        (Change::Create("two"), Ok(())),
        (Change::Rename("one", "two"), Ok(())),
        (Change::Rename("two", "two"), Ok(())),
        (Change::SyncNames, Ok(())),
    ];
    change_all(alloc, &mut disk, &renamed)?;
    let mut again = opened(&rt, path.as_str())?;
    assert!(rt; shows(alloc, &mut again, b"two", 0, b"axcdz")?);
    change_all(alloc, &mut again, &[(Change::Append("two", "!"), Ok(()))])?;
    assert!(rt; shows(alloc, &mut disk, b"two", 4, b"z!")?);
    assert_eq!(rt; names_in(alloc, &mut disk)?.len(), 1);
    change_all(alloc, &mut disk, &[(Change::Remove("two"), Ok(()))])?;
    assert_eq!(rt; names_in(alloc, &mut disk)?.len(), 0);
    assert!(rt; shows(alloc, &mut again, b"two", 4, b"z!")?);
    assert!(rt; disk.last_error().is_none());
    fs::remove_dir_all(&rt, path.as_str())?;
    Ok(())
}

fn create<D: Disk>(disk: &mut D, name: &FileName) -> Result<(), DiskFault> {
    disk.create(name)
}

// why a file is not read
fn fault_of_read<D: Disk>(disk: &mut D, name: &FileName) -> Option<DiskFault> {
    disk.read(name, 0, &mut [0u8; 4]).err()
}

#[test]
fn a_missing_file_is_missing_to_each_call(rt: HostRuntime) -> Result<(), Fail> {
    let alloc = rt.alloc();
    let path = unused_path(&rt, "missing")?;
    let mut disk = created(&rt, path.as_str())?;
    let missing = Err(DiskFault::Missing);
    let fault = fault_of_read(&mut disk, &named(alloc, b"one")?);
    assert_eq!(rt; fault, Some(DiskFault::Missing));
    let rows = [
        (Change::Append("one", "a"), missing),
        (Change::Overwrite("one", 0, b'a'), missing),
        (Change::Cut("one", 0), missing),
        (Change::Sync("one"), missing),
        (Change::Rename("one", "two"), missing),
        (Change::Remove("one"), missing),
    ];
    change_all(alloc, &mut disk, &rows)?;
    assert!(rt; disk.last_error().is_none());
    fs::remove_dir_all(&rt, path.as_str())?;
    Ok(())
}

#[test]
fn a_folder_that_is_gone_fails(rt: HostRuntime) -> Result<(), Fail> {
    let alloc = rt.alloc();
    let path = unused_path(&rt, "gone")?;
    let mut disk = created(&rt, path.as_str())?;
    fs::remove_dir_all(&rt, path.as_str())?;
    let failed = Err(DiskFault::Failed);
    change_all(alloc, &mut disk, &[(Change::Create("one"), failed)])?;
    assert!(rt; names_in(alloc, &mut disk).is_err());
    change_all(alloc, &mut disk, &[(Change::SyncNames, failed)])?;
    let told = disk.last_error().ok_or("no error")?;
    assert_eq!(rt; told.error.kind(), ErrorKind::NotFound);
    assert!(rt; told.name.is_none());
    Ok(())
}

// Whether the disk last failed by an error of this kind on this file.
fn is_told(disk: &FolderDisk<HostRuntime>, name: &[u8], kind: ErrorKind) -> bool {
    let Some(told) = disk.last_error() else {
        return false;
    };
    match &told.name {
        Some(found) => told.error.kind() == kind && found.as_octets() == name,
        None => false,
    }
}

#[test]
fn a_failure_is_told_with_the_file_and_the_cause(rt: HostRuntime) -> Result<(), Fail> {
    let alloc = rt.alloc();
    let path = unused_path(&rt, "failures")?;
    let mut disk = created(&rt, path.as_str())?;
    let failed = Err(DiskFault::Failed);
    let link = format!(in alloc; "{path}/link")?;
    symlink(&rt, "/dev/full", link.as_str())?;
    let rows = [
        (Change::Create("link"), Err(DiskFault::Exists)),
        (Change::Append("link", "abc"), failed),
    ];
    change_all(alloc, &mut disk, &rows)?;
    assert!(rt; is_told(&disk, b"link", ErrorKind::InvalidInput));
    let folder = format!(in alloc; "{path}/folder")?;
    fs::create_dir(&rt, folder.as_str())?;
    change_all(
        alloc,
        &mut disk,
        &[(Change::Append("folder", "abc"), failed)],
    )?;
    assert!(rt; is_told(&disk, b"folder", ErrorKind::IsADirectory));
    assert_eq!(rt; create(&mut disk, &named(alloc, b"\xff")?), failed);
    assert!(rt; is_told(&disk, b"\xff", ErrorKind::InvalidFilename));
    fs::remove_dir_all(&rt, path.as_str())?;
    Ok(())
}

#[test]
fn a_folder_that_may_not_be_written_is_told(rt: HostRuntime) -> Result<(), Fail> {
    let alloc = rt.alloc();
    let path = unused_path(&rt, "protected")?;
    let mut disk = created(&rt, path.as_str())?;
    // whom the system lets do anything has no folder that may not be written
    if fs::metadata(&rt, path.as_str())?.uid() != 0 {
        fs::set_permissions(&rt, path.as_str(), fs::Permissions::from_mode(0o500))?;
        let row = (Change::Create("one"), Err(DiskFault::Failed));
        change_all(alloc, &mut disk, &[row])?;
        assert!(rt; is_told(&disk, b"one", ErrorKind::PermissionDenied));
        fs::set_permissions(&rt, path.as_str(), fs::Permissions::from_mode(0o700))?;
    }
    fs::remove_dir_all(&rt, path.as_str())?;
    Ok(())
}

// the kind of the error if a folder is not opened
fn refusal(rt: &HostRuntime, path: &str) -> Option<ErrorKind> {
    opened(rt, path).err().map(|fault| fault.kind())
}

// the kind of the error if a folder is not made
fn refusal_to_create(rt: &HostRuntime, path: &str) -> Option<ErrorKind> {
    created(rt, path).err().map(|fault| fault.kind())
}

#[test]
fn a_folder_is_made_without_its_parent(rt: HostRuntime) -> Result<(), Fail> {
    let alloc = rt.alloc();
    let path = unused_path(&rt, "folders")?;
    let below = format!(in alloc; "{path}/store/")?;
    for missing in [path.as_str(), below.as_str(), ""] {
        assert_eq!(rt; refusal(&rt, missing), Some(ErrorKind::NotFound));
    }
    assert_eq!(rt;
        refusal_to_create(&rt, below.as_str()),
        Some(ErrorKind::NotFound)
    );
    for made in [path.as_str(), below.as_str(), below.as_str(), "/", "."] {
        assert_eq!(rt; refusal_to_create(&rt, made), None, "{made}");
    }
    let file = format!(in alloc; "{path}/file")?;
    fs::write(&rt, file.as_str(), b"a".as_slice())?;
    let no_folder = Some(ErrorKind::NotADirectory);
    assert_eq!(rt; refusal(&rt, file.as_str()), no_folder);
    assert_eq!(rt; refusal_to_create(&rt, file.as_str()), no_folder);
    fs::remove_dir_all(&rt, path.as_str())?;
    Ok(())
}

#[test]
fn as_many_files_as_there_are_can_be_used(rt: HostRuntime) -> Result<(), Fail> {
    let alloc = rt.alloc();
    let path = unused_path(&rt, "many")?;
    let mut disk = created(&rt, path.as_str())?;
    for i in 0..520u16 {
        let name = format!(in alloc; "file.{i}")?;
        change_all(alloc, &mut disk, &[(Change::Create(name.as_str()), Ok(()))])?;
    }
    for i in 0..520u16 {
        let name = format!(in alloc; "file.{i}")?;
        assert!(rt; shows(alloc, &mut disk, name.as_bytes(), 0, b"")?);
    }
    assert_eq!(rt; names_in(alloc, &mut disk)?.len(), 520);
    fs::remove_dir_all(&rt, path.as_str())?;
    Ok(())
}

fn taken(rt: &HostRuntime, path: &str, lock: LockFile) -> Result<FolderLock, LockFault> {
    FolderLock::take(rt, path, lock)
}

#[test]
fn a_lock_is_held_by_one_value(rt: HostRuntime) -> Result<(), Fail> {
    let path = unused_path(&rt, "locks")?;
    for missing in ["", path.as_str()] {
        let found = taken(&rt, missing, LockFile::Writing);
        assert!(rt;
            matches!(found, Err(LockFault::Failed(error)) if error.kind() == ErrorKind::NotFound)
        );
    }
    drop(created(&rt, path.as_str())?);
    let writing = taken(&rt, path.as_str(), LockFile::Writing)?;
    let compaction = taken(&rt, path.as_str(), LockFile::Compaction)?;
    let addition = taken(&rt, path.as_str(), LockFile::Addition)?;
    for lock in [LockFile::Writing, LockFile::Compaction, LockFile::Addition] {
        let found = taken(&rt, path.as_str(), lock);
        assert!(rt; matches!(found, Err(LockFault::Held)), "at {lock:?}");
    }
    drop(writing);
    drop(taken(&rt, path.as_str(), LockFile::Writing)?);
    drop(compaction);
    drop(addition);
    fs::remove_dir_all(&rt, path.as_str())?;
    Ok(())
}
