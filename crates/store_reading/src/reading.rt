//! The archive of what a folder holds is written.
ghost use Rattle.std.specs.Prelude.{◌≡◌, IfErr, IfOk, MatchResult, OnOk, map};
ghost use Rattle.store_reading.specs.Causes.{IsCause, IsListedSegment, WriterFailures, file_causes, reading_causes};
ghost use Rattle.store_reading.specs.Damages.{IsDamagedSegment};
ghost use Rattle.store_reading.specs.Faults.{IsFaultOfInput, IsJoinFault};
ghost use Rattle.store_reading.specs.Folders.{AreNamesOf};
ghost use Rattle.store_reading.specs.Journals.{IsOfMemory};
ghost use Rattle.store_reading.specs.Sets.{AreInputsOf, DayOutcome, IsArchiveText, WritesPart, WritesSet};
ghost use Rattle.store_reading.specs.Sources.{source_state};
ghost use Rattle.store_reading.specs.Whole.{DaysAreWhole, IsWholeIn, MeetsRange, SegmentsAreWhole};

use crate::day::Day;
use crate::days::{day_len, is_outside, next_day};
use crate::fault::{CheckFault, FileFault, ReadFault};
use crate::folder::Folder;
use crate::listing::list_in_order;
use crate::memory::read_memory;
use crate::name_order::Names;
use crate::of_range::OfRange;
use crate::opening::{is_segment_of, open_period};
use crate::period::Period;
use crate::source::Source;
use archive_join::{JoinFault, join_streams};
use archive_sets::InRange;
use archive_streams::InputFault;
use disk::FileName;
use octet_devices::{FromRead, Output};
use std::alloc::Global;

/// The most days of a folder that is read: more than those of the years 0 to 9999.
pub const DAYS_MAX: usize = 4_000_000;

// The fault of the input of this number, which is that of a segment of the period.
fn fault_at(
    alloc: Global,
    names: &[FileName],
    period: &Period,
    input: usize,
    fault: CheckFault,
) -> ReadFault
    ensures { IsFaultOfInput period.now names.now input fault result }
{
    let mut at: usize = 0;
    'names: for name in names {
        if is_segment_of(name.as_octets(), period) {
            if at == input {
                return match name.copy(alloc) {
                    Ok(name) => fault.of(name),
                    Err(_) => ReadFault::Memory,
                };
            }
            at = at.saturating_add(1);
        }
    }
    ReadFault::Gone
}

/// Why the segments of a period among these names were not joined, from the fault of joining them.
pub fn join_fault(alloc: Global, names: &[FileName], period: &Period, fault: JoinFault) -> ReadFault
    ensures { IsJoinFault period.now names.now fault result }
{
    match fault {
        JoinFault::Archive { input, fault } => fault_at(
            alloc,
            names,
            period,
            input,
            CheckFault::Damaged(FileFault::Archive(fault)),
        ),
        JoinFault::Read { input } => {
            fault_at(
                alloc,
                names,
                period,
                input,
                CheckFault::Input(InputFault::Device),
            )
        }
        JoinFault::Endless { input } => {
            fault_at(
                alloc,
                names,
                period,
                input,
                CheckFault::Input(InputFault::Endless),
            )
        }
        JoinFault::Write { sent: _ } => ReadFault::Write,
        JoinFault::Memory => ReadFault::Memory,
    }
}

// The inputs of a day: its segments, and its entries in memory, of which this is the text.
fn day_inputs<'a, F: Folder>(
    alloc: Global,
    folder: &mut F,
    names: &mut Names,
    day: &Day,
    text: &'a [u8],
) -> Result<Vec<Source<'a, F::File>>, ReadFault>
    ensures inputs { IfOk result (λ v. F.tells folder.new
        → AreNamesOf (F.files folder.old) names.old
        → AreInputsOf (F.files folder.old) day.now text.now (map (source_state F.File.state) v.items)) }
    ensures whole { OnOk result (F.tells folder.new → AreNamesOf (F.files folder.old) names.old
        → SegmentsAreWhole (F.files folder.old) day.now) }
    ensures names { F.tells folder.new → AreNamesOf (F.files folder.old) names.old
        → AreNamesOf (F.files folder.old) names.new }
    ensures same { F.tells folder.new → F.files folder.new ≡ F.files folder.old }
    ensures told { F.tells folder.new → F.tells folder.old }
    ensures cause { IfErr result (IsCause (file_causes (F.tells folder.new) (F.has_failed folder.new)
        (F.files folder.old) (IsListedSegment names.new day.now)
        (IsDamagedSegment day.now))) }
{
    let mut inputs = open_period(alloc, folder, names, &Period::of(day))?;
    inputs.push(Source::Octets(FromRead::new(text)))?;
    Ok(inputs)
}

// Writes what a day has in the range: what its segments have, and its entries in memory, of which
// this is the text.
fn read_day<F: Folder, W: Output>(
    alloc: Global,
    folder: &mut F,
    names: &mut Names,
    day: &Day,
    text: &[u8],
    kept: &OfRange,
    writer: &mut W,
) -> Result<(), ReadFault>
    ensures outcome { F.tells folder.new → AreNamesOf (F.files folder.old) names.old
        → DayOutcome result (F.files folder.old) kept.now.range day.now text.now
        (W.state writer.old).taken (W.state writer.new).taken }
    ensures whole { OnOk result (F.tells folder.new → AreNamesOf (F.files folder.old) names.old
        → MeetsRange kept.now.range day.now → SegmentsAreWhole (F.files folder.old) day.now) }
    ensures names { F.tells folder.new → AreNamesOf (F.files folder.old) names.old
        → AreNamesOf (F.files folder.old) names.new }
    ensures same { F.tells folder.new → F.files folder.new ≡ F.files folder.old }
    ensures told { F.tells folder.new → F.tells folder.old }
    ensures cause { IfErr result (IsCause (reading_causes
        (F.tells folder.new × AreNamesOf (F.files folder.old) names.old × IsArchiveText text.now)
        (F.has_failed folder.new) (F.files folder.old) kept.now.range)) }
    ensures writer { WriterFailures result (W.state writer.old).failures
        (W.state writer.new).failures }
{
    if is_outside(&kept.range, day) {
        return Ok(());
    }
    let mut inputs = day_inputs(alloc, folder, names, day, text)?;
    match join_streams(alloc, kept, inputs.as_mut_slice(), writer) {
        Ok(_) => Ok(()),
        Err(fault) => Err(join_fault(alloc, names.as_slice(), &Period::of(day), fault)),
    }
}

// Writes all days, with the entries in memory, of which this is the text.
fn read_days<F: Folder, W: Output>(
    alloc: Global,
    folder: &mut F,
    names: &mut Names,
    text: &[u8],
    kept: &OfRange,
    writer: &mut W,
) -> Result<(), ReadFault>
    ensures outcome { F.tells folder.new → AreNamesOf (F.files folder.old) names.old
        → IsOfMemory (F.files folder.old) kept.now.range text.now
        → MatchResult result
        (λ _. WritesSet (F.files folder.old) kept.now.range (W.state writer.old).taken
        (W.state writer.new).taken)
        (λ _. WritesPart (F.files folder.old) kept.now.range (W.state writer.old).taken
        (W.state writer.new).taken) }
    ensures whole { OnOk result (F.tells folder.new → AreNamesOf (F.files folder.old) names.old
        → DaysAreWhole (F.files folder.old) kept.now.range) }
    ensures same { F.tells folder.new → F.files folder.new ≡ F.files folder.old }
    ensures told { F.tells folder.new → F.tells folder.old }
    ensures cause { IfErr result (IsCause (reading_causes
        (F.tells folder.new × AreNamesOf (F.files folder.old) names.old
        × IsOfMemory (F.files folder.old) kept.now.range text.now)
        (F.has_failed folder.new) (F.files folder.old) kept.now.range)) }
    ensures writer { WriterFailures result (W.state writer.old).failures
        (W.state writer.new).failures }
{
    let mut rest = text;
    let mut last: Option<Day> = None;
    'days: for _ in 0..DAYS_MAX {
        let Some(day) = next_day(names, rest, last.as_ref()) else {
            return Ok(());
        };
        let (of_day, behind) = rest.split_at(day_len(rest, &day));
        read_day(alloc, folder, names, &day, of_day, kept, writer)?;
        rest = behind;
        last = Some(day);
    }
    Err(ReadFault::TooManyDays)
}

/// Writes the archive of the records in a range of time that a folder holds.
///
/// The journals are read first, into memory, and of the mixed segments what is in the range; then
/// the segments of days, day by day, each once to see that it is an archive of entries of its day,
/// and once as it is joined. Days that have no instant in the range are not opened. If a file is
/// gone that was listed, the names are listed again.
///
/// # Errors
/// The first fault that is met, and for which file. What was written by then is a prefix of the
/// archive.
pub fn read<F: Folder, W: Output>(
    alloc: Global,
    folder: &mut F,
    range: InRange,
    writer: &mut W,
) -> Result<(), ReadFault>
    // the whole archive, or a prefix of it
    ensures outcome { F.tells folder.new → MatchResult result
        (λ _. WritesSet (F.files folder.old) range (W.state writer.old).taken
        (W.state writer.new).taken)
        (λ _. WritesPart (F.files folder.old) range (W.state writer.old).taken
        (W.state writer.new).taken) }

    // no damaged file is passed over
    ensures whole { OnOk result (F.tells folder.new → IsWholeIn (F.files folder.old) range) }

    // a fault is told only of a file that is read, and damage as it is; of the folder's fault, only
    // where it failed
    ensures cause { IfErr result (IsCause (reading_causes (F.tells folder.new)
        (F.has_failed folder.new) (F.files folder.old) range)) }

    // the writer's fault just where the writer failed
    ensures writer { WriterFailures result (W.state writer.old).failures
        (W.state writer.new).failures }

    ensures same { F.tells folder.new → F.files folder.new ≡ F.files folder.old }
    ensures told { F.tells folder.new → F.tells folder.old }
{
    let text = read_memory(alloc, folder, &range)?;
    let mut names = list_in_order(alloc, folder)?;
    read_days(alloc, folder, &mut names, &text, &OfRange { range }, writer)
}
