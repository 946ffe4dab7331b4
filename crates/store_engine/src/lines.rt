//! The lines on a store's files.
ghost use Rattle.std.specs.Prelude.{◌≡◌, ◌++◌, ◌⊎◌, ◌↔◌, IfErr, IfOk, IsTrue, codes};
ghost use Rattle.driver.specs.Devices.{Reports};
ghost use Rattle.archive_reports.specs.FaultLines.{fault_line};
ghost use Rattle.driver.specs.Ended.{TellsLine};
ghost use Rattle.store_engine.specs.Lines.{damage_line, file_line, position_line};
ghost use Rattle.store_engine.specs.NoStores.{IsOfMemory};

use crate::printed::line_on;
use archive_reports::report_archive_fault;
use archive_text::ArchiveFault;
use driver::{FAULT, NO_MEMORY, REFUSED, report};
use folder_disk::{FileError, FolderFault, FolderPath};
use itoa::Buffer;
use octet_devices::{Output, ToWrite};
use record_store::JournalDamage;
use std::alloc::{AllocError, Global};
use std::fmt::Display;
use std::io::{self, ErrorKind};
use store_reading::FileFault;
use store_upkeep::DamagedFile;
use thiserror::Error;

/// A name and words behind it.
pub(crate) fn words_on(alloc: Global, name: &[u8], words: &[u8]) -> Result<Vec<u8>, AllocError>
    ensures { IfOk result (λ line. line.items ≡ name.now ++ words.now) }
{
    let mut line = Vec::new(alloc);
    line.extend_from_slice(name)?;
    line.extend_from_slice(words)?;
    Ok(line)
}

// The line on a file that is no archive.
fn archive_line(alloc: Global, name: &[u8], fault: ArchiveFault) -> Result<Vec<u8>, AllocError>
    ensures { IfOk result (λ line. line.items ≡ fault_line name.now fault) }
{
    let words = words_on(alloc, name, b" ")?;
    let mut line = ToWrite::new(Vec::new(alloc));
    let status = report_archive_fault(alloc, &words, fault, REFUSED, &mut line);
    if status == REFUSED {
        return Ok(line.into_inner());
    }
    Err(AllocError)
}

// The line on what begins at a position of a file, by these words behind its name.
fn line_at(alloc: Global, name: &[u8], words: &[u8], at: u64) -> Result<Vec<u8>, AllocError>
    ensures { IfOk result (λ line. line.items ≡ position_line name.now words.now at) }
{
    let mut line = words_on(alloc, name, words)?;
    line.extend_from_slice(Buffer::new().format(at).as_bytes())?;
    line.extend_from_slice(b"\n")?;
    Ok(line)
}

// The line on a journal that is damaged.
fn journal_line(alloc: Global, name: &[u8], damage: JournalDamage) -> Result<Vec<u8>, AllocError>
    ensures { IfOk result (λ line. line.items ≡ damage_line name.now damage) }
{
    match damage {
        JournalDamage::Archive(fault) => archive_line(alloc, name, fault),
        JournalDamage::Checksum { at } => line_at(alloc, name, b" checksum ", at),
        JournalDamage::Hidden { at } => line_at(alloc, name, b" hidden ", at),
    }
}

/// The line on a file that is damaged.
pub(crate) fn damaged_line(
    alloc: Global,
    name: &[u8],
    fault: FileFault,
) -> Result<Vec<u8>, AllocError>
    ensures { IfOk result (λ line. line.items ≡ file_line name.now fault) }
{
    match fault {
        FileFault::Archive(fault) => archive_line(alloc, name, fault),
        FileFault::OtherDay { at } => line_at(alloc, name, b" day ", at),
        FileFault::Digest => words_on(alloc, name, b" digest\n"),
        FileFault::Journal(damage) => journal_line(alloc, name, damage),
    }
}

/// Reports a line on a file, for which memory may have run out, and returns this exit status;
/// `NO_MEMORY` if it has, and `FAULT` if the line cannot be written.
pub(crate) fn report_line<N: Output>(
    line: Result<Vec<u8>, AllocError>,
    status: u8,
    diagnostics: &mut N,
) -> u8
    ensures told { IfOk line (λ text. Reports text.items status (N.state diagnostics.old)
        (N.state diagnostics.new) result) }
    ensures memory { IfErr line (λ _. Reports (codes "want of memory\n") NO_MEMORY
        (N.state diagnostics.old) (N.state diagnostics.new) result) }
{
    match line {
        Ok(line) => report(diagnostics, line.as_slice(), status),
        Err(_) => report(diagnostics, b"want of memory\n", NO_MEMORY),
    }
}

/// Reports that a file is damaged, and returns `REFUSED`; or `NO_MEMORY` if memory runs out for the line,
/// and `FAULT` if it cannot be written.
pub fn report_damaged_file<N: Output>(alloc: Global, file: &DamagedFile, diagnostics: &mut N) -> u8
    ensures { TellsLine (file_line file.now.name file.now.damage) REFUSED
        (N.state diagnostics.old) (N.state diagnostics.new) result }
{
    report_line(
        damaged_line(alloc, file.name.as_octets(), file.damage),
        REFUSED,
        diagnostics,
    )
}

/// Why a folder is no store, or none for the caller.
#[derive(Debug, Drop, Error)]
pub enum NoStore {
    /// It cannot be read, as the system reported it.
    #[error("{0}")]
    System(io::Error),
    /// It has neither a journal nor a segment.
    #[error("not a store: it has neither a journal nor a segment")]
    NoFiles,
    /// The caller may change nothing in it.
    #[error("{0}")]
    Refused(FolderFault),
}

// Whether memory ran out.
fn is_of_memory(why: &NoStore) -> bool
    ensures { IsTrue result ↔ IsOfMemory why.now }
{
    match why {
        NoStore::System(error) => error.kind() == ErrorKind::OutOfMemory,
        NoStore::Refused(fault) => fault.kind() == ErrorKind::OutOfMemory,
        NoStore::NoFiles => false,
    }
}

// Reports what failed, and why, and returns `FAULT`; or `NO_MEMORY` if memory runs out for the line.
fn report_why<N: Output>(
    alloc: Global,
    what: &str,
    why: impl Display + Drop,
    diagnostics: &mut N,
) -> u8
    ensures { (result ≡ FAULT) ⊎ (result ≡ NO_MEMORY) }
{
    match line_on(alloc, what, why) {
        Ok(line) => report(diagnostics, line.as_bytes(), FAULT),
        Err(_) => report(diagnostics, b"want of memory\n", NO_MEMORY),
    }
}

/// Reports an error of the system, of a file in a folder or of the folder, and returns `FAULT`; or
/// `NO_MEMORY` if memory runs out for the line.
pub fn report_file_error<N: Output>(
    alloc: Global,
    dir: &str,
    error: &FileError,
    diagnostics: &mut N,
) -> u8
    ensures { (result ≡ FAULT) ⊎ (result ≡ NO_MEMORY) }
{
    let FileError { name, error } = error;
    let Some(name) = name else {
        return report_why(alloc, dir, error, diagnostics);
    };
    let Ok(folder) = FolderPath::new(alloc, dir) else {
        return report(diagnostics, b"want of memory\n", NO_MEMORY);
    };
    match folder.of_file(name) {
        Ok(path) => report_why(alloc, path.as_str(), error, diagnostics),
        Err(_) => report_why(alloc, dir, error, diagnostics),
    }
}

/// Reports why the folder of this name is no store for the caller, and returns `FAULT`; or `NO_MEMORY` if
/// memory ran out, or runs out for the line.
pub fn report_no_store<N: Output>(
    alloc: Global,
    dir: &str,
    why: &NoStore,
    diagnostics: &mut N,
) -> u8
    ensures known { (result ≡ FAULT) ⊎ (result ≡ NO_MEMORY) }
    ensures memory { IsOfMemory why.now → Reports (codes "want of memory\n") NO_MEMORY
        (N.state diagnostics.old) (N.state diagnostics.new) result }
{
    if is_of_memory(why) {
        return report(diagnostics, b"want of memory\n", NO_MEMORY);
    }
    report_why(alloc, dir, why, diagnostics)
}
