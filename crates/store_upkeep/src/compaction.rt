//! The segments of a period are joined into one.
ghost use Rattle.std.specs.Prelude.{◌≡◌, ◌≢◌, ◌≤◌, ◌↔◌, Contains, IfOk, IsTrue, List, None, OnOk, Some, ℕ};
ghost use Rattle.journal.specs.Journals.{IsOnDisk, IsSound};
ghost use Rattle.archive_text.specs.Entries.{Entry};
ghost use Rattle.record_store.specs.Names.{Counts, IsSegment};
ghost use Rattle.record_store.specs.Puts.{KeepsOrSettlesApart};
ghost use Rattle.store_reading.specs.Days.{IsPeriodText};
ghost use Rattle.store_upkeep.specs.Compaction.{AreDayNames, AreListed, EachHasAtMost, GoesOn, HasAll};
ghost use Rattle.store_upkeep.specs.Compaction.{HasAtMost, IsSameApart, KeepsDamagedDays, KeepsOtherFiles};
ghost use Rattle.store_upkeep.specs.Compaction.{KeepsSet, KeepsUnlessDayIsWhole, MayBePlaced};
ghost use Rattle.store_upkeep.specs.Compaction.{RemovesOther, ShowsLess, compact_draft, shown};

use crate::compact_fault::{CompactFault, write_fault};
use crate::segments::{join_segments, list, name_of_draft, names_of};
use crate::stream_disk::StreamDisk;
use disk::{Disk, DiskFault, FileName};
use std::alloc::{AllocError, Global};
use store_reading::{Names, Period, segment_period};

/// The most segments that a day has once it is compacted, and the most that are mixed.
pub const SEGMENTS_MAX: usize = 8;

// what a joined segment is called until all of it is on the disk
fn draft_name(alloc: Global) -> Result<FileName, AllocError>
    ensures named { IfOk result (λ name. name ≡ compact_draft) }
    ensures apart { IfOk result (λ name. ¬ (Counts name)) }
{
    match FileName::new(alloc, b"compact.archive")? {
        Some(name) => Ok(name),
        None => unreachable!(),
    }
}

// Gives a draft that is on the disk its name, in place of what is there.
fn place<D: Disk>(disk: &mut D, draft: &FileName, name: &FileName) -> Result<(), DiskFault>
    ensures placed { OnOk result (D.tells disk.new → (day text : List ℕ) (es : List Entry)
        → MayBePlaced (D.state disk.old) draft.now name.now day text es
        → IsOnDisk (D.state disk.new) name.now text) }

    // whatever the result is: so at every moment
    ensures set { D.tells disk.new → (day text : List ℕ) (es : List Entry)
        → MayBePlaced (D.state disk.old) draft.now name.now day text es
        → KeepsSet (D.state disk.old) (D.state disk.new) }
    ensures others { D.tells disk.new → KeepsOrSettlesApart (D.state disk.old) (D.state disk.new)
        draft.now name.now }

    ensures told { D.tells disk.new → D.tells disk.old }
{
    disk.rename(draft, name)?;
    disk.sync_names()?;
    Ok(())
}

// Whether two names are the same.
fn is_same(one: &FileName, other: &FileName) -> bool
    ensures { IsTrue result ↔ (one.now ≡ other.now) }
{
    one.as_octets() == other.as_octets()
}

// Removes a segment, if it is there, unless it is the one that others are joined in.
fn remove_other<D: Disk>(
    disk: &mut D,
    segment: &FileName,
    joined: &FileName,
) -> Result<(), DiskFault>
    // whatever the result is: so at every moment
    ensures done { D.tells disk.new
        → RemovesOther (D.state disk.old) (D.state disk.new) segment.now joined.now }

    ensures gone { OnOk result (D.tells disk.new → segment.now ≢ joined.now
        → shown (D.state disk.new) segment.now ≡ None) }
    ensures told { D.tells disk.new → D.tells disk.old }
{
    if is_same(segment, joined) {
        return Ok(());
    }
    match disk.remove(segment) {
        Err(DiskFault::Missing) => Ok(()),
        removed => removed,
    }
}

// Removes the segments of a period that were joined, but not the one that they are joined in.
fn remove_joined<D: Disk>(
    alloc: Global,
    disk: &mut D,
    segments: &[FileName],
    joined: &FileName,
) -> Result<(), CompactFault>
    ensures gone { OnOk result (D.tells disk.new → (name : List ℕ) → Contains segments.now name
        → name ≢ joined.now → shown (D.state disk.new) name ≡ None) }

    // whatever the result is: so at every moment
    ensures set { D.tells disk.new → (day text : List ℕ) (es : List Entry)
        → HasAll (D.state disk.old) segments.now joined.now day text es
        → KeepsSet (D.state disk.old) (D.state disk.new) }
    ensures others { D.tells disk.new → (name : List ℕ) → ¬ (Contains segments.now name)
        → shown (D.state disk.new) name ≡ shown (D.state disk.old) name }
    ensures less { D.tells disk.new → ShowsLess (D.state disk.old) (D.state disk.new) }
    ensures lost { D.tells disk.new → (D.state disk.new).lost ≡ (D.state disk.old).lost }

    ensures told { D.tells disk.new → D.tells disk.old }
{
    'segments: for segment in segments {
        if let Err(fault) = remove_other(disk, segment, joined) {
            return Err(write_fault(alloc, segment, fault));
        }
    }
    Ok(())
}

// Joins the segments of a period, and removes those that were joined.
fn join_day<D: StreamDisk>(
    alloc: Global,
    disk: &mut D,
    segments: &[FileName],
    period: &Period,
) -> Result<(), CompactFault>
    ensures few { OnOk result (D.tells disk.new → IsSound (D.state disk.old)
        → (names : List (List ℕ)) → AreListed (D.state disk.old) names
        → AreDayNames names period.now segments.now
        → (most : ℕ) → 1 ≤ most → HasAtMost most (D.state disk.new) period.now) }
    ensures sound { OnOk result (D.tells disk.new → IsSound (D.state disk.old)
        → (names : List (List ℕ)) → AreListed (D.state disk.old) names
        → AreDayNames names period.now segments.now → IsSound (D.state disk.new)) }

    // whatever the result is: so at every moment
    ensures set { D.tells disk.new → IsSound (D.state disk.old)
        → (names : List (List ℕ)) → AreListed (D.state disk.old) names
        → AreDayNames names period.now segments.now
        → KeepsSet (D.state disk.old) (D.state disk.new) }
    ensures others { D.tells disk.new
        → (names : List (List ℕ)) → AreDayNames names period.now segments.now
        → IsSameApart period.now (D.state disk.old) (D.state disk.new) }
    ensures whole { D.tells disk.new → IsSound (D.state disk.old)
        → (names : List (List ℕ)) → AreListed (D.state disk.old) names
        → AreDayNames names period.now segments.now
        → KeepsUnlessDayIsWhole period.now (D.state disk.old) (D.state disk.new) }

    ensures told { D.tells disk.new → D.tells disk.old }
{
    let draft = draft_name(alloc)?;
    join_segments(alloc, disk, segments, period, &draft)?;
    let joined = name_of_draft(alloc, disk, &draft, period)?;
    if let Err(fault) = place(disk, &draft, &joined) {
        return Err(write_fault(alloc, &joined, fault));
    }
    remove_joined(alloc, disk, segments, &joined)?;
    Ok(())
}

// Joins the segments of a period where it has more than so many.
fn compact_day<D: StreamDisk>(
    alloc: Global,
    disk: &mut D,
    period: &Period,
    most: usize,
) -> Result<(), CompactFault>
    ensures few { OnOk result (D.tells disk.new → IsSound (D.state disk.old)
        → 1 ≤ most → HasAtMost most (D.state disk.new) period.now) }
    ensures sound { OnOk result (D.tells disk.new → IsSound (D.state disk.old)
        → IsSound (D.state disk.new)) }

    // whatever the result is: so at every moment
    ensures set { D.tells disk.new → IsSound (D.state disk.old)
        → KeepsSet (D.state disk.old) (D.state disk.new) }
    ensures others { D.tells disk.new → IsSameApart period.now (D.state disk.old) (D.state disk.new) }
    ensures whole { D.tells disk.new → IsSound (D.state disk.old)
        → KeepsUnlessDayIsWhole period.now (D.state disk.old) (D.state disk.new) }

    ensures told { D.tells disk.new → D.tells disk.old }
{
    let names = list(alloc, disk)?;
    let segments = names_of(alloc, &names, period)?;
    if segments.len() <= most {
        return Ok(());
    }
    join_day(alloc, disk, &segments, period)?;
    Ok(())
}

/// Joins the segments of a period into one, and then removes those that were joined, in the way of [`compact`].
///
/// # Errors
/// As of [`compact`].
pub fn join_period<D: StreamDisk>(
    alloc: Global,
    disk: &mut D,
    period: &Period,
) -> Result<(), CompactFault>
    ensures few { OnOk result (D.tells disk.new → IsSound (D.state disk.old)
        → HasAtMost 1 (D.state disk.new) period.now) }

    // whatever the result is, the set is the same: so at every moment
    ensures set { D.tells disk.new → IsSound (D.state disk.old)
        → KeepsSet (D.state disk.old) (D.state disk.new) }

    // whatever the result is, all that is no segment of the period shows what it showed
    ensures others { D.tells disk.new → IsSameApart period.now (D.state disk.old) (D.state disk.new) }

    // and so do those of the period, if one is damaged
    ensures whole { D.tells disk.new → IsSound (D.state disk.old)
        → KeepsUnlessDayIsWhole period.now (D.state disk.old) (D.state disk.new) }

    ensures told { D.tells disk.new → D.tells disk.old }
{
    compact_day(alloc, disk, period, 1)
}

// Whether a period is the last one.
fn is_last(last: &Option<Period>, period: &Period) -> bool
    ensures { IsTrue result → last.now ≡ Some period.now }
{
    match last {
        None => false,
        Some(last) => last.is(period),
    }
}

// Compacts the period of the segment that has a name, where that is another than the last one. Gives the
// period.
fn compact_day_of<D: StreamDisk>(
    alloc: Global,
    disk: &mut D,
    names: &Names,
    name: &FileName,
    last: Option<Period>,
) -> Result<Option<Period>, CompactFault>
    ensures goes_on { IfOk result (λ next. D.tells disk.new
        → GoesOn SEGMENTS_MAX (D.state disk.old) names.now last
        → GoesOn SEGMENTS_MAX (D.state disk.new) names.now next) }
    ensures few { OnOk result (D.tells disk.new
        → GoesOn SEGMENTS_MAX (D.state disk.old) names.now last → (day : List ℕ)
        → IsPeriodText day → IsSegment day name.now → HasAtMost SEGMENTS_MAX (D.state disk.new) day) }
    ensures still { OnOk result (D.tells disk.new
        → GoesOn SEGMENTS_MAX (D.state disk.old) names.now last → (day : List ℕ)
        → HasAtMost SEGMENTS_MAX (D.state disk.old) day
        → HasAtMost SEGMENTS_MAX (D.state disk.new) day) }

    // whatever the result is: so at every moment
    ensures set { D.tells disk.new → IsSound (D.state disk.old)
        → KeepsSet (D.state disk.old) (D.state disk.new) }
    ensures others { D.tells disk.new → KeepsOtherFiles (D.state disk.old) (D.state disk.new) }
    ensures damaged { D.tells disk.new → IsSound (D.state disk.old)
        → KeepsDamagedDays (D.state disk.old) (D.state disk.new) }

    ensures told { D.tells disk.new → D.tells disk.old }
{
    let Some(period) = segment_period(name.as_octets()) else {
        return Ok(last);
    };
    if is_last(&last, &period) {
        return Ok(last);
    }
    let listed = names_of(alloc, names, &period)?;
    if listed.len() <= SEGMENTS_MAX {
        return Ok(Some(period));
    }
    compact_day(alloc, disk, &period, SEGMENTS_MAX)?;
    Ok(Some(period))
}

// Compacts the periods of the segments that are among these names, each of which is given.
fn compact_days<D: StreamDisk>(
    alloc: Global,
    disk: &mut D,
    names: &Names,
    each: &[FileName],
) -> Result<(), CompactFault>
    requires all { each.now ≡ names.now }
    ensures few { OnOk result (D.tells disk.new → IsSound (D.state disk.old)
        → AreListed (D.state disk.old) names.now
        → EachHasAtMost SEGMENTS_MAX (D.state disk.new)) }

    // whatever the result is: so at every moment
    ensures set { D.tells disk.new → IsSound (D.state disk.old)
        → AreListed (D.state disk.old) names.now
        → KeepsSet (D.state disk.old) (D.state disk.new) }
    ensures others { D.tells disk.new → KeepsOtherFiles (D.state disk.old) (D.state disk.new) }
    ensures damaged { D.tells disk.new → IsSound (D.state disk.old)
        → AreListed (D.state disk.old) names.now
        → KeepsDamagedDays (D.state disk.old) (D.state disk.new) }

    ensures told { D.tells disk.new → D.tells disk.old }
{
    let mut last = None;
    'names: for name in each {
        last = compact_day_of(alloc, disk, names, name, last)?;
    }
    Ok(())
}

/// Joins the segments of each day that has more than `SEGMENTS_MAX` into one, and the mixed segments
/// where there are more, and then removes those that were joined. The joined segment is on the disk under its name before one of them is removed.
///
/// Each segment is read twice: once to see that it is an archive of entries of its period, and that its
/// name has the SHA-256 of its octets, and once as it is joined. What was written is read again before
/// it gets its name.
///
/// # Errors
/// The first fault, and at which file. Nothing is removed of a period of which a segment is damaged
/// or cannot be read. Whatever the fault is, the disk holds the same set.
pub fn compact<D: StreamDisk>(alloc: Global, disk: &mut D) -> Result<(), CompactFault>
    // each day has so few segments, and so few are mixed
    ensures few { OnOk result (D.tells disk.new → IsSound (D.state disk.old)
        → EachHasAtMost SEGMENTS_MAX (D.state disk.new)) }

    // whatever the result is, the set is the same: so at every moment
    ensures set { D.tells disk.new → IsSound (D.state disk.old)
        → KeepsSet (D.state disk.old) (D.state disk.new) }

    // whatever the result is, journals and names that do not count show what they showed
    ensures others { D.tells disk.new → KeepsOtherFiles (D.state disk.old) (D.state disk.new) }

    // and so do the segments of a period of which one is damaged
    ensures damaged { D.tells disk.new → IsSound (D.state disk.old)
        → KeepsDamagedDays (D.state disk.old) (D.state disk.new) }

    ensures told { D.tells disk.new → D.tells disk.old }
{
    let names = list(alloc, disk)?;
    compact_days(alloc, disk, &names, names.as_slice())?;
    Ok(())
}
