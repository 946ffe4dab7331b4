//! The segments of a period, as they are joined.
ghost use Rattle.std.specs.Prelude.{◌≡◌, ◌++◌, ◌∷◌, [], Contains, IfOk, List, OnOk, Some, map, ℕ};
ghost use Rattle.disk.specs.Calls.{IsUnchanged};
ghost use Rattle.disk.specs.Files.{settled};
ghost use Rattle.journal.specs.Journals.{IsSound, KeepsOthers, Shows};
ghost use Rattle.record_store.specs.Names.{IsSegment};
ghost use Rattle.record_store.specs.Segments.{segment_name};
ghost use Rattle.store_reading.specs.Folders.{IsUnused, Opens};
ghost use Rattle.store_reading.specs.Segments.{AreSegmentsOf, IsSegmentInput};
ghost use Rattle.store_upkeep.specs.Compaction.{AreDayNames, AreListed, AreWholeAt, IsJoinOf, shown};
ghost use Rattle.store_upkeep.specs.Whole.{IsWholeAt};

use crate::compact_fault::{CompactFault, check_fault, open_fault, write_fault};
use crate::stream_disk::StreamDisk;
use archive_join::{JoinFault, Union, join_streams};
use disk::{Disk, DiskFault, FileName};
use std::alloc::{AllocError, Global};
use store_reading::{
    Names, Period, ReadFault, check_segment, hash_segment, is_segment_of, join_fault,
    segment_octets,
};

/// The names of all files, those of the segments of a period side by side, in the order of their
/// octets.
pub fn list<D: Disk>(alloc: Global, disk: &mut D) -> Result<Names, CompactFault>
    ensures names { IfOk result (λ names. D.tells disk.new → IsSound (D.state disk.old)
        → AreListed (D.state disk.new) names) }
    ensures same { D.tells disk.new → IsUnchanged (D.state disk.old) (D.state disk.new) }
    ensures told { D.tells disk.new → D.tells disk.old }
{
    match disk.names(alloc) {
        Ok(mut names) => {
            names.sort_by(|one, other| one.as_octets().cmp(other.as_octets()))?;
            let ordered = Names::new(names)?;
            Ok(ordered)
        }
        Err(fault) => Err(CompactFault::Read(ReadFault::Folder { fault })),
    }
}

// Adds a name to those of the segments of a period, where it is one.
fn add_segment(
    alloc: Global,
    name: &FileName,
    period: &Period,
    segments: &mut Vec<FileName>,
) -> Result<(), AllocError>
    ensures { OnOk result ((names : List (List ℕ))
        → AreDayNames names period.now segments.old.items
        → AreDayNames (names ++ name.now ∷ []) period.now segments.new.items) }
{
    if !is_segment_of(name.as_octets(), period) {
        return Ok(());
    }
    let copied = name.copy(alloc)?;
    segments.push(copied)?;
    Ok(())
}

// Those of some names that are segments of a period.
fn names_of_day(
    alloc: Global,
    names: &[FileName],
    period: &Period,
) -> Result<Vec<FileName>, AllocError>
    ensures { IfOk result (λ v. AreDayNames names.now period.now v.items) }
{
    let mut segments = Vec::new(alloc);
    'names: for name in names {
        add_segment(alloc, name, period, &mut segments)?;
    }
    Ok(segments)
}

/// Those of the names of a folder that are segments of a period.
pub fn names_of(alloc: Global, names: &Names, period: &Period) -> Result<Vec<FileName>, AllocError>
    ensures { IfOk result (λ v. AreDayNames names.now period.now v.items) }
{
    names_of_day(alloc, names.of(period.as_octets()), period)
}

/// Opens a file.
pub fn open<D: StreamDisk>(
    alloc: Global,
    disk: &mut D,
    name: &FileName,
) -> Result<D::File, CompactFault>
    ensures opened { D.tells disk.new → IsSound (D.state disk.old) → IfOk result (λ file.
        Opens (shown (D.state disk.old)) name.now (D.File.state file)) }
    ensures unused { IfOk result (λ file. IsUnused (D.File.state file)) }
    ensures same { D.tells disk.new → IsUnchanged (D.state disk.old) (D.state disk.new) }
    ensures told { D.tells disk.new → D.tells disk.old }
{
    match disk.open(alloc, name) {
        Ok(file) => Ok(file),
        Err(fault) => Err(open_fault(alloc, name, fault)),
    }
}

// Opens a segment of a period, once it was read to its end: it is an archive of entries of the period, and
// its name has the SHA-256 of its octets.
fn open_segment<D: StreamDisk>(
    alloc: Global,
    disk: &mut D,
    name: &FileName,
    period: &Period,
) -> Result<D::File, CompactFault>
    ensures input { D.tells disk.new → IsSound (D.state disk.old) → IfOk result (λ file.
        IsSegmentInput (shown (D.state disk.old)) name.now period.now (D.File.state file)) }
    ensures whole { OnOk result (D.tells disk.new → IsSound (D.state disk.old)
        → IsSegment period.now name.now → IsWholeAt (shown (D.state disk.old)) name.now) }
    ensures same { D.tells disk.new → IsUnchanged (D.state disk.old) (D.state disk.new) }
    ensures told { D.tells disk.new → D.tells disk.old }
{
    let mut file = open(alloc, disk, name)?;
    match check_segment(alloc, name.as_octets(), period, &mut file) {
        Ok(()) => open(alloc, disk, name),
        Err(fault) => Err(check_fault(alloc, name, fault)),
    }
}

// Opens the segments of a period.
fn open_segments<D: StreamDisk>(
    alloc: Global,
    disk: &mut D,
    segments: &[FileName],
    period: &Period,
) -> Result<Vec<D::File>, CompactFault>
    ensures opened { IfOk result (λ v. D.tells disk.new → IsSound (D.state disk.old)
        → ((name : List ℕ) → Contains segments.now name → IsSegment period.now name)
        → AreSegmentsOf (shown (D.state disk.old)) segments.now period.now
        (map D.File.state v.items)) }
    ensures whole { OnOk result (D.tells disk.new → IsSound (D.state disk.old)
        → ((name : List ℕ) → Contains segments.now name → IsSegment period.now name)
        → AreWholeAt (shown (D.state disk.old)) segments.now) }
    ensures same { D.tells disk.new → IsUnchanged (D.state disk.old) (D.state disk.new) }
    ensures told { D.tells disk.new → D.tells disk.old }
{
    let mut inputs = Vec::new(alloc);
    'segments: for segment in segments {
        let file = open_segment(alloc, disk, segment, period)?;
        inputs.push(file)?;
    }
    Ok(inputs)
}

/// Begins a draft.
pub fn begin<D: StreamDisk>(
    alloc: Global,
    disk: &mut D,
    draft: &FileName,
) -> Result<D::Draft, CompactFault>
    ensures empty { D.tells disk.new → IfOk result (λ writer.
        (D.Draft.state writer).taken ≡ Some []) }
    ensures others { D.tells disk.new
        → KeepsOthers (D.state disk.old) (D.state disk.new) draft.now }
    ensures lost { D.tells disk.new → (D.state disk.new).lost ≡ (D.state disk.old).lost }
    ensures told { D.tells disk.new → D.tells disk.old }
{
    match disk.begin(draft) {
        Ok(writer) => Ok(writer),
        Err(fault) => Err(write_fault(alloc, draft, fault)),
    }
}

/// Removes a draft that is not to be kept, as far as the disk lets it.
pub fn discard<D: Disk>(disk: &mut D, draft: &FileName)
    ensures others { D.tells disk.new
        → KeepsOthers (D.state disk.old) (D.state disk.new) draft.now }
    ensures told { D.tells disk.new → D.tells disk.old }
{
    let _ = disk.remove(draft);
}

/// Brings a draft to the disk. One that is not brought there is removed.
pub fn settle<D: StreamDisk>(
    alloc: Global,
    disk: &mut D,
    draft: &FileName,
    writer: D::Draft,
) -> Result<(), CompactFault>
    ensures settled { OnOk result (D.tells disk.new → (text : List ℕ)
        → (D.Draft.state writer).taken ≡ Some text → IsSound (D.state disk.old)
        → Shows (D.state disk.new) draft.now (settled text)) }
    ensures others { D.tells disk.new
        → KeepsOthers (D.state disk.old) (D.state disk.new) draft.now }
    ensures told { D.tells disk.new → D.tells disk.old }
{
    match disk.settle(draft, writer) {
        Ok(()) => Ok(()),
        Err(fault) => {
            discard(disk, draft);
            Err(write_fault(alloc, draft, fault))
        }
    }
}

// Why segments were not joined. Where the draft was not written, the disk says why as it is settled. The
// draft is removed.
fn fault_of<D: StreamDisk>(
    alloc: Global,
    disk: &mut D,
    segments: &[FileName],
    period: &Period,
    draft: &FileName,
    writer: D::Draft,
    fault: JoinFault,
) -> CompactFault
    ensures others { D.tells disk.new
        → KeepsOthers (D.state disk.old) (D.state disk.new) draft.now }
    ensures told { D.tells disk.new → D.tells disk.old }
{
    if !matches!(fault, JoinFault::Write { .. }) {
        discard(disk, draft);
        return CompactFault::from(join_fault(alloc, segments, period, fault));
    }
    match settle(alloc, disk, draft, writer) {
        Ok(()) => {
            discard(disk, draft);
            write_fault(alloc, draft, DiskFault::Failed)
        }
        Err(fault) => fault,
    }
}

/// Writes the union of the segments of a period as a draft, and brings it to the disk. Where that fails,
/// the draft is removed.
pub(crate) fn join_segments<D: StreamDisk>(
    alloc: Global,
    disk: &mut D,
    segments: &[FileName],
    period: &Period,
    draft: &FileName,
) -> Result<(), CompactFault>
    ensures joined { OnOk result (D.tells disk.new → IsSound (D.state disk.old)
        → ((name : List ℕ) → Contains segments.now name → IsSegment period.now name)
        → IsJoinOf (D.state disk.old) (D.state disk.new) draft.now period.now segments.now) }
    ensures whole { OnOk result (D.tells disk.new → IsSound (D.state disk.old)
        → ((name : List ℕ) → Contains segments.now name → IsSegment period.now name)
        → AreWholeAt (shown (D.state disk.old)) segments.now) }
    ensures others { D.tells disk.new
        → KeepsOthers (D.state disk.old) (D.state disk.new) draft.now }
    ensures told { D.tells disk.new → D.tells disk.old }
{
    let mut inputs = open_segments(alloc, disk, segments, period)?;
    let mut writer = begin(alloc, disk, draft)?;
    if let Err(fault) = join_streams(alloc, &Union, inputs.as_mut_slice(), &mut writer) {
        return Err(fault_of(alloc, disk, segments, period, draft, writer, fault));
    }
    settle(alloc, disk, draft, writer)?;
    Ok(())
}

/// What a draft is called as the segment of a period, by the SHA-256 of its octets, once it was read to its
/// end.
pub fn name_of_draft<D: StreamDisk>(
    alloc: Global,
    disk: &mut D,
    draft: &FileName,
    period: &Period,
) -> Result<FileName, CompactFault>
    ensures name { IfOk result (λ name. D.tells disk.new → IsSound (D.state disk.old)
        → (text : List ℕ) → shown (D.state disk.old) draft.now ≡ Some text
        → name ≡ segment_name period.now text) }
    ensures segment { IfOk result (λ name. IsSegment period.now name) }
    ensures same { D.tells disk.new → IsUnchanged (D.state disk.old) (D.state disk.new) }
    ensures told { D.tells disk.new → D.tells disk.old }
{
    let mut file = open(alloc, disk, draft)?;
    let hex = match hash_segment(alloc, period, &mut file) {
        Ok(hex) => hex,
        Err(fault) => return Err(check_fault(alloc, draft, fault)),
    };
    let octets = segment_octets(alloc, period.as_octets(), &hex)?;
    if !is_segment_of(&octets, period) {
        return Err(CompactFault::Day);
    }
    match FileName::new(alloc, &octets)? {
        Some(name) => Ok(name),
        None => Err(CompactFault::Day),
    }
}
