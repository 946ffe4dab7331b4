//! All files of a store's folder are read.
ghost use Rattle.std.specs.Prelude.{◌≡◌, Contains, IfErr, IfOk, IsTrue, List, ℕ, OnOk};
ghost use Rattle.record_store.specs.Names.{IsJournal, IsSegment};
ghost use Rattle.store_reading.specs.Causes.{IsCause, open_causes};
ghost use Rattle.store_reading.specs.Days.{IsPeriodText};
ghost use Rattle.store_upkeep.specs.Causes.{IsCounted, IsCountedFile, IsListedFile, check_causes};
ghost use Rattle.store_upkeep.specs.Damages.{AddsTo, AreAsTold, AreDamaged, IsFoundBy, IsVerdict, IsWholeOrListed};
ghost use Rattle.store_upkeep.specs.Damages.{OpensOrNone, ReadsOrNone};

use crate::damage::DamagedFile;
use disk::FileName;
use std::alloc::Global;
use store_reading::{
    CheckFault, FileFault, Folder, JournalFile, Period, ReadFault, check_journal, check_segment,
    is_journal, list, open_file, read_journal, segment_period,
};

// how often a file is opened that is there and gone
const OPENINGS: usize = 64;

// Whether a name is among others.
fn is_among(names: &[FileName], name: &FileName) -> bool
    ensures { Contains names.now name.now → IsTrue result }
{
    names
        .iter()
        .any(|other| other.as_octets() == name.as_octets())
}

// Opens a file; none where it is gone: a checkpoint or a compaction has put its records elsewhere.
fn open_listed<F: Folder>(
    alloc: Global,
    folder: &mut F,
    name: &FileName,
) -> Result<Option<F::File>, ReadFault>
    ensures opened { F.tells folder.new → IfOk result (λ found.
        OpensOrNone F.File.state found (F.files folder.old) name.now) }
    ensures same { F.tells folder.new → F.files folder.new ≡ F.files folder.old }
    ensures told { F.tells folder.new → F.tells folder.old }
    ensures cause { IfErr result (IsCause (open_causes (F.has_failed folder.new) name.now)) }
{
    'openings: for _ in 0..OPENINGS {
        match open_file(alloc, folder, name) {
            Ok(file) => return Ok(Some(file)),
            Err(ReadFault::Gone) => {}
            Err(fault) => return Err(fault),
        }
        let names = list(alloc, folder)?;
        if !is_among(&names, name) {
            return Ok(None);
        }
    }
    Err(ReadFault::Gone)
}

// Reads a journal; none where it is gone: a checkpoint has put its records elsewhere.
fn read_listed<F: Folder>(
    alloc: Global,
    folder: &mut F,
    name: &FileName,
) -> Result<Option<JournalFile>, ReadFault>
    ensures read { F.tells folder.new → IfOk result (λ found.
        ReadsOrNone found (F.files folder.old name.now)) }
    ensures same { F.tells folder.new → F.files folder.new ≡ F.files folder.old }
    ensures told { F.tells folder.new → F.tells folder.old }
    ensures cause { IfErr result (IsCause (open_causes (F.has_failed folder.new) name.now)) }
{
    'openings: for _ in 0..OPENINGS {
        match read_journal(alloc, folder, name) {
            Ok(journal) => return Ok(Some(journal)),
            Err(ReadFault::Gone) => {}
            Err(fault) => return Err(fault),
        }
        let names = list(alloc, folder)?;
        if !is_among(&names, name) {
            return Ok(None);
        }
    }
    Err(ReadFault::Gone)
}

// What the check of a file found, or why the file was not read.
fn found_by(
    alloc: Global,
    name: &FileName,
    fault: CheckFault,
) -> Result<Option<FileFault>, ReadFault>
    ensures found { IfOk result (IsFoundBy fault) }
    ensures cause { IfErr result (IsCause (open_causes ⊥ name.now)) }
{
    match fault {
        CheckFault::Damaged(damage) => Ok(Some(damage)),
        CheckFault::Input(fault) => Err(ReadFault::Read {
            name: name.copy(alloc)?,
            fault,
        }),
        CheckFault::Memory => Err(ReadFault::Memory),
    }
}

// What is wrong with a segment.
fn check_segment_file<F: Folder>(
    alloc: Global,
    folder: &mut F,
    name: &FileName,
    period: &Period,
) -> Result<Option<FileFault>, ReadFault>
    ensures verdict { F.tells folder.new → IsPeriodText period.now → IsSegment period.now name.now →
        IfOk result (λ found. IsVerdict found (F.files folder.old) name.now) }
    ensures same { F.tells folder.new → F.files folder.new ≡ F.files folder.old }
    ensures told { F.tells folder.new → F.tells folder.old }
    ensures cause { IfErr result (IsCause (open_causes (F.has_failed folder.new) name.now)) }
{
    let Some(mut file) = open_listed(alloc, folder, name)? else {
        return Ok(None);
    };
    match check_segment(alloc, name.as_octets(), period, &mut file) {
        Ok(()) => Ok(None),
        Err(fault) => found_by(alloc, name, fault),
    }
}

// What is wrong with a journal.
fn check_journal_file<F: Folder>(
    alloc: Global,
    folder: &mut F,
    name: &FileName,
) -> Result<Option<FileFault>, ReadFault>
    ensures verdict { F.tells folder.new → IsJournal name.now →
        IfOk result (λ found. IsVerdict found (F.files folder.old) name.now) }
    ensures same { F.tells folder.new → F.files folder.new ≡ F.files folder.old }
    ensures told { F.tells folder.new → F.tells folder.old }
    ensures cause { IfErr result (IsCause (open_causes (F.has_failed folder.new) name.now)) }
{
    let Some(journal) = read_listed(alloc, folder, name)? else {
        return Ok(None);
    };
    match check_journal(alloc, &journal) {
        Ok(()) => Ok(None),
        Err(fault) => found_by(alloc, name, fault),
    }
}

// What is wrong with the file of a name, where that counts.
fn check_file<F: Folder>(
    alloc: Global,
    folder: &mut F,
    name: &FileName,
) -> Result<Option<FileFault>, ReadFault>
    ensures verdict { F.tells folder.new →
        IfOk result (λ found. IsVerdict found (F.files folder.old) name.now) }
    ensures same { F.tells folder.new → F.files folder.new ≡ F.files folder.old }
    ensures told { F.tells folder.new → F.tells folder.old }
    ensures cause { IfErr result (IsCause (check_causes (F.has_failed folder.new)
        (λ (n : List ℕ). (n ≡ name.now) × IsCounted n))) }
{
    if let Some(period) = segment_period(name.as_octets()) {
        return check_segment_file(alloc, folder, name, &period);
    }
    if is_journal(name.as_octets()) {
        return check_journal_file(alloc, folder, name);
    }
    Ok(None)
}

// Adds the file of a name to those that are damaged, where it is.
fn verify_file<F: Folder>(
    alloc: Global,
    folder: &mut F,
    name: &FileName,
    damaged: &mut Vec<DamagedFile>,
) -> Result<(), ReadFault>
    ensures damaged { F.tells folder.new → AreDamaged (F.files folder.old) damaged.old.items
        → AreDamaged (F.files folder.old) damaged.new.items }
    ensures as_told { F.tells folder.new → AreAsTold (F.files folder.old) damaged.old.items
        → AreAsTold (F.files folder.old) damaged.new.items }
    ensures listed { OnOk result (F.tells folder.new
        → IsWholeOrListed (F.files folder.old) damaged.new.items name.now) }
    ensures added { AddsTo damaged.old.items damaged.new.items }
    ensures same { F.tells folder.new → F.files folder.new ≡ F.files folder.old }
    ensures told { F.tells folder.new → F.tells folder.old }
    ensures cause { IfErr result (IsCause (check_causes (F.has_failed folder.new)
        (λ (n : List ℕ). (n ≡ name.now) × IsCounted n))) }
{
    let Some(damage) = check_file(alloc, folder, name)? else {
        return Ok(());
    };
    let name = name.copy(alloc)?;
    damaged.push(DamagedFile { name, damage })?;
    Ok(())
}

// Adds the files of these names to those that are damaged, where they are.
fn verify_files<F: Folder>(
    alloc: Global,
    folder: &mut F,
    names: &[FileName],
    damaged: &mut Vec<DamagedFile>,
) -> Result<(), ReadFault>
    ensures damaged { F.tells folder.new → AreDamaged (F.files folder.old) damaged.old.items
        → AreDamaged (F.files folder.old) damaged.new.items }
    ensures as_told { F.tells folder.new → AreAsTold (F.files folder.old) damaged.old.items
        → AreAsTold (F.files folder.old) damaged.new.items }
    ensures listed { OnOk result (F.tells folder.new → (name : List ℕ) → Contains names.now name
        → IsWholeOrListed (F.files folder.old) damaged.new.items name) }
    ensures added { AddsTo damaged.old.items damaged.new.items }
    ensures same { F.tells folder.new → F.files folder.new ≡ F.files folder.old }
    ensures told { F.tells folder.new → F.tells folder.old }
    ensures cause { IfErr result (IsCause (check_causes (F.has_failed folder.new)
        (IsListedFile names.now))) }
{
    'names: for name in names {
        verify_file(alloc, folder, name, damaged)?;
    }
    Ok(())
}

/// Reads the journals and the segments of a folder, in the order of their names, and adds those
/// that are damaged to a list: a segment that is no archive of entries of its period, or whose
/// SHA-256 is not the one in its name; a journal with a batch that is no sequence of entries or has
/// another checksum, or behind whose batches others are hidden. What a crash leaves behind the last
/// batch of a journal is no damage, nor is a file that is gone when it is to be opened.
///
/// # Errors
/// The first fault for which a file or the names could not be read, or lack of memory. The files
/// before it were read, and those of them that are damaged were added.
pub fn verify<F: Folder>(
    alloc: Global,
    folder: &mut F,
    damaged: &mut Vec<DamagedFile>,
) -> Result<(), ReadFault>
    // each that is added is damaged
    ensures damaged { F.tells folder.new → AreDamaged (F.files folder.old) damaged.old.items
        → AreDamaged (F.files folder.old) damaged.new.items }

    // and as it is told
    ensures as_told { F.tells folder.new → AreAsTold (F.files folder.old) damaged.old.items
        → AreAsTold (F.files folder.old) damaged.new.items }

    // each that is damaged is there
    ensures listed { OnOk result (F.tells folder.new → (name : List ℕ)
        → IsWholeOrListed (F.files folder.old) damaged.new.items name) }

    // what was in the list stays, and what is added stands behind it
    ensures added { AddsTo damaged.old.items damaged.new.items }

    // a fault is told only of a file that is read, the folder's only where it failed, and never
    // damage
    ensures cause { IfErr result (IsCause (check_causes (F.has_failed folder.new)
        (IsCountedFile (F.tells folder.new) (F.files folder.old)))) }

    ensures same { F.tells folder.new → F.files folder.new ≡ F.files folder.old }
    ensures told { F.tells folder.new → F.tells folder.old }
{
    let names = list(alloc, folder)?;
    verify_files(alloc, folder, &names, damaged)?;
    Ok(())
}
