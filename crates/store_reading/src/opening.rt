//! The segments of a period are opened.
ghost use Rattle.std.specs.Prelude.{◌≡◌, ◌↔◌, IfErr, IfOk, IsTrue, List, ℕ, OnOk, map};
ghost use Rattle.record_store.specs.Names.{IsSegment};
ghost use Rattle.store_reading.specs.Causes.{IsCause, IsListedSegment, file_causes};
ghost use Rattle.store_reading.specs.Damages.{IsDamagedSegment};
ghost use Rattle.store_reading.specs.Folders.{AreNamesOf};
ghost use Rattle.store_reading.specs.Segments.{AddsSegment, AreSegmentsOf};
ghost use Rattle.store_reading.specs.Sources.{source_state};
ghost use Rattle.store_reading.specs.Whole.{IsWholeSegmentAt, NamedSegmentsAreWhole};

use crate::fault::ReadFault;
use crate::folder::Folder;
use crate::listing::{LISTINGS, list_in_order};
use crate::name_order::Names;
use crate::names::segment_period;
use crate::period::Period;
use crate::segment::open_segment;
use crate::source::Source;
use disk::FileName;
use std::alloc::Global;

/// Whether a name is that of a segment of this period.
pub fn is_segment_of(name: &[u8], period: &Period) -> bool
    ensures { IsTrue result ↔ IsSegment period.now name.now }
{
    let text = period.as_octets();
    match segment_period(name) {
        None => false,
        Some(found) => found.as_octets() == text,
    }
}

// Opens the file of a name, where that is a segment of the period.
fn open_named<F: Folder>(
    alloc: Global,
    folder: &mut F,
    name: &FileName,
    period: &Period,
    inputs: &mut Vec<Source<'_, F::File>>,
) -> Result<(), ReadFault>
    ensures opened { OnOk result (F.tells folder.new → AddsSegment (F.files folder.old) name.now period.now
        (map (source_state F.File.state) inputs.old.items)
        (map (source_state F.File.state) inputs.new.items)) }
    ensures whole { OnOk result (F.tells folder.new
        → IsWholeSegmentAt (F.files folder.old) period.now name.now) }
    ensures same { F.tells folder.new → F.files folder.new ≡ F.files folder.old }
    ensures told { F.tells folder.new → F.tells folder.old }
    ensures cause { IfErr result (IsCause (file_causes (F.tells folder.new) (F.has_failed folder.new)
        (F.files folder.old) (λ (n : List ℕ). (n ≡ name.now) × IsSegment period.now n)
        (IsDamagedSegment period.now))) }
{
    if !is_segment_of(name.as_octets(), period) {
        return Ok(());
    }
    let file = open_segment(alloc, folder, name, period)?;
    inputs.push(Source::File(file))?;
    Ok(())
}

/// Opens the segments of a period that are among these names, once each has been read to its end: it
/// is an archive of entries of the period.
///
/// # Errors
/// The first fault that is met, and for which file; `Gone` if one is gone that was listed.
pub fn open_segments<'a, F: Folder>(
    alloc: Global,
    folder: &mut F,
    names: &[FileName],
    period: &Period,
) -> Result<Vec<Source<'a, F::File>>, ReadFault>
    ensures opened { IfOk result (λ v. F.tells folder.new → AreSegmentsOf (F.files folder.old) names.now
        period.now (map (source_state F.File.state) v.items)) }
    ensures whole { OnOk result (F.tells folder.new
        → NamedSegmentsAreWhole (F.files folder.old) names.now period.now) }
    ensures same { F.tells folder.new → F.files folder.new ≡ F.files folder.old }
    ensures told { F.tells folder.new → F.tells folder.old }
    ensures cause { IfErr result (IsCause (file_causes (F.tells folder.new) (F.has_failed folder.new)
        (F.files folder.old) (IsListedSegment names.now period.now) (IsDamagedSegment period.now))) }
{
    let mut inputs = Vec::new(alloc);
    'names: for name in names {
        open_named(alloc, folder, name, period, &mut inputs)?;
    }
    Ok(inputs)
}

// Opens the segments of a period that are among these names.
fn open_listed<'a, F: Folder>(
    alloc: Global,
    folder: &mut F,
    names: &Names,
    period: &Period,
) -> Result<Vec<Source<'a, F::File>>, ReadFault>
    ensures opened { IfOk result (λ v. F.tells folder.new → AreSegmentsOf (F.files folder.old) names.now
        period.now (map (source_state F.File.state) v.items)) }
    ensures whole { OnOk result (F.tells folder.new
        → NamedSegmentsAreWhole (F.files folder.old) names.now period.now) }
    ensures same { F.tells folder.new → F.files folder.new ≡ F.files folder.old }
    ensures told { F.tells folder.new → F.tells folder.old }
    ensures cause { IfErr result (IsCause (file_causes (F.tells folder.new) (F.has_failed folder.new)
        (F.files folder.old) (IsListedSegment names.now period.now) (IsDamagedSegment period.now))) }
{
    open_segments(alloc, folder, names.of(period.as_octets()), period)
}

/// Opens the segments of a period. If one is gone that was listed, the names are listed again: a
/// compaction has joined them.
pub(crate) fn open_period<'a, F: Folder>(
    alloc: Global,
    folder: &mut F,
    names: &mut Names,
    period: &Period,
) -> Result<Vec<Source<'a, F::File>>, ReadFault>
    ensures opened { IfOk result (λ v. F.tells folder.new → AreSegmentsOf (F.files folder.old)
        names.new period.now (map (source_state F.File.state) v.items)) }
    ensures whole { OnOk result (F.tells folder.new
        → NamedSegmentsAreWhole (F.files folder.old) names.new period.now) }
    ensures names { F.tells folder.new → AreNamesOf (F.files folder.old) names.old
        → AreNamesOf (F.files folder.old) names.new }
    ensures same { F.tells folder.new → F.files folder.new ≡ F.files folder.old }
    ensures told { F.tells folder.new → F.tells folder.old }
    ensures cause { IfErr result (IsCause (file_causes (F.tells folder.new) (F.has_failed folder.new)
        (F.files folder.old) (IsListedSegment names.new period.now)
        (IsDamagedSegment period.now))) }
{
    'listings: for _ in 0..LISTINGS {
        match open_listed(alloc, folder, names, period) {
            Err(ReadFault::Gone) => *names = list_in_order(alloc, folder)?,
            opened => return opened,
        }
    }
    Err(ReadFault::Gone)
}
