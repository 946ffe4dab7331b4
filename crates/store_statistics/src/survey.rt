//! The files of a folder are looked at, one after the other.
ghost use Rattle.std.specs.Prelude.{◌≡◌, Contains, IfErr, List, ℕ, OnOk};
ghost use Rattle.std.specs.Cmp.Lexicographic.{slice_cmp};
ghost use Rattle.std.specs.List.Sorted.{IsStrictlySortedBy};
ghost use Rattle.std.specs.Ordering.{nat_cmp};
ghost use Rattle.store_reading.specs.Causes.{IsCause};
ghost use Rattle.store_upkeep.specs.Causes.{IsCounted, IsCountedFile, IsListedFile, check_causes};
ghost use Rattle.store_statistics.specs.Statistics.{AddsFile, AreAllTold, AreInOrder, AreToldOf, IsEmpty};
ghost use Rattle.store_statistics.specs.Statistics.{IsRight};

use crate::figures::FileFigures;
use crate::look::{Look, look_at};
use crate::names::settle;
use disk::FileName;
use std::alloc::Global;
use store_reading::{Folder, ReadFault, list};
use store_upkeep::DamagedFile;

// How often the files are looked at, where one of them is gone meanwhile.
const SURVEYS: usize = 4;

/// What was found of a folder's files.
#[derive(Drop)]
pub struct Survey {
    /// What is told of those that are whole.
    pub files: Vec<FileFigures>,
    /// Those that are damaged.
    pub damaged: Vec<DamagedFile>,
}

impl Survey {
    /// Of no files.
    pub fn new(alloc: Global) -> Survey
        ensures { IsEmpty result }
    {
        Survey {
            files: Vec::new(alloc),
            damaged: Vec::new(alloc),
        }
    }
}

// Looks at the file of a name, and adds what it has, where it counts.
fn add_file<F: Folder>(
    alloc: Global,
    folder: &mut F,
    name: &FileName,
    survey: &mut Survey,
) -> Result<(), ReadFault>
    ensures added { AddsFile (F.tells folder.new) (F.files folder.old) name.now survey.old survey.new }
    ensures listed { OnOk result (F.tells folder.new
        → AreToldOf (F.files folder.old) (λ (n : List ℕ). n ≡ name.now) survey.new.files.items
        survey.new.damaged.items) }
    ensures same { F.tells folder.new → F.files folder.new ≡ F.files folder.old }
    ensures told { F.tells folder.new → F.tells folder.old }
    ensures cause { IfErr result (IsCause (check_causes (F.has_failed folder.new)
        (λ (n : List ℕ). (n ≡ name.now) × IsCounted n))) }
{
    match look_at(alloc, folder, name)? {
        Look::Nothing => Ok(()),
        Look::Figures(figures) => {
            let name = name.copy(alloc)?;
            survey.files.push(FileFigures { name, figures })?;
            Ok(())
        }
        Look::Damaged(damage) => {
            let name = name.copy(alloc)?;
            survey.damaged.push(DamagedFile { name, damage })?;
            Ok(())
        }
    }
}

// Looks at the files of these names.
fn add_files<F: Folder>(
    alloc: Global,
    folder: &mut F,
    names: &[FileName],
    survey: &mut Survey,
) -> Result<(), ReadFault>
    ensures order { IsEmpty survey.old → IsStrictlySortedBy (slice_cmp nat_cmp) names.now
        → AreInOrder survey.new.files.items }
    ensures right { IsEmpty survey.old → F.tells folder.new
        → IsRight (F.files folder.old) survey.new }
    ensures listed { OnOk result (F.tells folder.new
        → AreToldOf (F.files folder.old) (Contains names.now) survey.new.files.items
        survey.new.damaged.items) }
    ensures same { F.tells folder.new → F.files folder.new ≡ F.files folder.old }
    ensures told { F.tells folder.new → F.tells folder.old }
    ensures cause { IfErr result (IsCause (check_causes (F.has_failed folder.new)
        (IsListedFile names.now))) }
{
    'names: for name in names {
        add_file(alloc, folder, name, survey)?;
    }
    Ok(())
}

// Looks at the journals and the segments of a folder, in the order of their names, and adds what they
// have, or that they are damaged. It fails as the next call does, and at the first file that is gone when
// it is to be opened.
fn survey_once<F: Folder>(
    alloc: Global,
    folder: &mut F,
    survey: &mut Survey,
) -> Result<(), ReadFault>
    ensures order { IsEmpty survey.old → AreInOrder survey.new.files.items }
    ensures right { IsEmpty survey.old → F.tells folder.new
        → IsRight (F.files folder.old) survey.new }
    ensures listed { OnOk result (F.tells folder.new → AreAllTold (F.files folder.old)
        survey.new.files.items survey.new.damaged.items) }
    ensures cause { IfErr result (IsCause (check_causes (F.has_failed folder.new)
        (IsCountedFile (F.tells folder.new) (F.files folder.old)))) }
    ensures same { F.tells folder.new → F.files folder.new ≡ F.files folder.old }
    ensures told { F.tells folder.new → F.tells folder.old }
{
    let mut names = list(alloc, folder)?;
    settle(&mut names);
    add_files(alloc, folder, &names, survey)
}

/// Looks at the journals and the segments of a folder, in the order of their names, and adds what they
/// have, or that they are damaged. Where one is gone when it is to be opened, a checkpoint or a compaction
/// has put its records elsewhere: then it begins anew.
///
/// # Errors
/// The first fault for which a file or the names could not be read, or lack of memory. The files before
/// it were added. `Gone` if a file went each time.
pub fn survey_files<F: Folder>(
    alloc: Global,
    folder: &mut F,
    survey: &mut Survey,
) -> Result<(), ReadFault>
    ensures order { IsEmpty survey.old → AreInOrder survey.new.files.items }
    ensures right { IsEmpty survey.old → F.tells folder.new
        → IsRight (F.files folder.old) survey.new }
    ensures listed { OnOk result (F.tells folder.new → AreAllTold (F.files folder.old)
        survey.new.files.items survey.new.damaged.items) }
    ensures cause { IfErr result (IsCause (check_causes (F.has_failed folder.new)
        (IsCountedFile (F.tells folder.new) (F.files folder.old)))) }
    ensures same { F.tells folder.new → F.files folder.new ≡ F.files folder.old }
    ensures told { F.tells folder.new → F.tells folder.old }
{
    'surveys: for _ in 0..SURVEYS {
        match survey_once(alloc, folder, survey) {
            Err(ReadFault::Gone) => {}
            surveyed => return surveyed,
        }
        *survey = Survey::new(alloc);
    }
    Err(ReadFault::Gone)
}
