//! A file of a folder is looked at.
ghost use Rattle.std.specs.Prelude.{◌≡◌, IfErr, IfOk, List, ℕ};
ghost use Rattle.record_store.specs.Names.{IsJournal, IsSegment};
ghost use Rattle.store_reading.specs.Causes.{IsCause, open_causes};
ghost use Rattle.store_reading.specs.Days.{IsPeriodText};
ghost use Rattle.store_upkeep.specs.Causes.{IsCounted, check_causes};
ghost use Rattle.store_statistics.specs.Looks.{IsSeenAt, IsSeenBy};

use crate::batches::count_journal;
use crate::figures::Figures;
use crate::segment::count_segment;
use disk::FileName;
use std::alloc::Global;
use store_reading::{
    CheckFault, FileFault, Folder, Period, ReadFault, is_journal, open_file, read_journal,
    segment_period,
};

/// What a file is found to be.
#[derive(Clone, Copy, Debug)]
pub enum Look {
    /// It does not count.
    Nothing,
    /// It has these figures.
    Figures(Figures),
    /// It is damaged.
    Damaged(FileFault),
}

// What was counted of a file, or why the file was not read.
fn seen_by(
    alloc: Global,
    name: &FileName,
    counted: Result<Figures, CheckFault>,
) -> Result<Look, ReadFault>
    ensures seen { IfOk result (IsSeenBy counted) }
    ensures cause { IfErr result (IsCause (open_causes ⊥ name.now)) }
{
    match counted {
        Ok(figures) => Ok(Look::Figures(figures)),
        Err(CheckFault::Damaged(damage)) => Ok(Look::Damaged(damage)),
        Err(CheckFault::Input(fault)) => Err(ReadFault::Read {
            name: name.copy(alloc)?,
            fault,
        }),
        Err(CheckFault::Memory) => Err(ReadFault::Memory),
    }
}

// Looks at a segment.
fn look_at_segment<F: Folder>(
    alloc: Global,
    folder: &mut F,
    name: &FileName,
    period: &Period,
) -> Result<Look, ReadFault>
    ensures seen { F.tells folder.new → IsPeriodText period.now → IsSegment period.now name.now →
        IfOk result (λ look. IsSeenAt look (F.files folder.old) name.now) }
    ensures same { F.tells folder.new → F.files folder.new ≡ F.files folder.old }
    ensures told { F.tells folder.new → F.tells folder.old }
    ensures cause { IfErr result (IsCause (open_causes (F.has_failed folder.new) name.now)) }
{
    let mut file = open_file(alloc, folder, name)?;
    seen_by(alloc, name, count_segment(alloc, period, &mut file))
}

// Looks at a journal.
fn look_at_journal<F: Folder>(
    alloc: Global,
    folder: &mut F,
    name: &FileName,
) -> Result<Look, ReadFault>
    ensures seen { F.tells folder.new → IsJournal name.now →
        IfOk result (λ look. IsSeenAt look (F.files folder.old) name.now) }
    ensures same { F.tells folder.new → F.files folder.new ≡ F.files folder.old }
    ensures told { F.tells folder.new → F.tells folder.old }
    ensures cause { IfErr result (IsCause (open_causes (F.has_failed folder.new) name.now)) }
{
    let journal = read_journal(alloc, folder, name)?;
    seen_by(alloc, name, count_journal(alloc, &journal))
}

/// Looks at the file of a name, where that counts.
pub fn look_at<F: Folder>(alloc: Global, folder: &mut F, name: &FileName) -> Result<Look, ReadFault>
    ensures seen { F.tells folder.new →
        IfOk result (λ look. IsSeenAt look (F.files folder.old) name.now) }
    ensures same { F.tells folder.new → F.files folder.new ≡ F.files folder.old }
    ensures told { F.tells folder.new → F.tells folder.old }
    ensures cause { IfErr result (IsCause (check_causes (F.has_failed folder.new)
        (λ (n : List ℕ). (n ≡ name.now) × IsCounted n))) }
{
    if let Some(period) = segment_period(name.as_octets()) {
        return look_at_segment(alloc, folder, name, &period);
    }
    if is_journal(name.as_octets()) {
        return look_at_journal(alloc, folder, name);
    }
    Ok(Look::Nothing)
}
