//! The segment of the days that have none of their own.
ghost use Rattle.std.specs.Prelude.{◌≡◌, ◌∷◌, [], IfErr, IfOk, List, ℕ, OnOk};
ghost use Rattle.archive_pages.specs.Paged.{entries_from, entries_in};
ghost use Rattle.archive_text.specs.EntryViews.{entry_of};
ghost use Rattle.disk.specs.Calls.{AtMostSyncs};
ghost use Rattle.journal.specs.Journals.{IsSound};
ghost use Rattle.record_store.specs.Crashes.{HeldApart};
ghost use Rattle.record_store.specs.Segments.{Drafts, GrowsBeside, draft_of};
ghost use Rattle.record_store.specs.declared.segment.TheConstants.{SEGMENT_SYNCS};
ghost use Rattle.durable_store.specs.Causes.{IsKeepingCause};
ghost use Rattle.durable_store.specs.Segments.{DraftsMixed, GainsOnly, KeepsAside, MixesDay, PutsMixed};
ghost use Rattle.durable_store.specs.Segments.{WritesMixed, octets_of};

use crate::draft::DraftName;
use crate::segments::{put_entries, write_days};
use crate::shares::{day_len, day_of, is_share, set_len};
use archive_pages::{PagedArchive, Place};
use archive_text::EntryView;
use disk::Disk;
use record_store::{KeepFault, SEGMENT_SYNCS, SegmentDraft};
use std::alloc::Global;

// what the name of the segment of several days begins with
const MIXED: &[u8] = b"mixed";

/// How many syncs the segments of a set take at most: those of 65.
pub const SET_SYNCS: u64 = 65 * SEGMENT_SYNCS;

// Puts the day of an entry into a draft, or holds some back, unless the day has its share of all
// octets. Gives the place behind the day.
fn mix_day<D: Disk>(
    alloc: Global,
    disk: &mut D,
    draft: &mut SegmentDraft,
    buffer: &mut Vec<u8>,
    set: &PagedArchive,
    total: u64,
    first: &EntryView<'_>,
    behind: Place,
) -> Result<Place, KeepFault>
    ensures put { IfOk result (λ place. MixesDay (D.tells disk.new) total draft.old (D.state disk.old)
        buffer.old.items draft.new (D.state disk.new) buffer.new.items
        (entry_of first.now ∷ entries_from set.now behind) (entries_from set.now place)) }
    ensures aside { D.tells disk.new
        → KeepsAside (D.state disk.old) (D.state disk.new) (draft_of draft.old) }
    ensures name { draft_of draft.new ≡ draft_of draft.old }
    ensures syncs { AtMostSyncs 0 (D.syncs disk.old) (D.syncs disk.new) }
    ensures told { D.tells disk.new → D.tells disk.old }
    ensures cause { IfErr result (IsKeepingCause (D.tells disk.new) (D.has_failed disk.new)
        ((text : List ℕ) × Drafts draft.old (D.state disk.old) text) (D.state disk.new)) }
{
    let day = day_of(alloc, first.instant)?;
    let (len, next) = day_len(set, first, behind, &day);
    if is_share(total, len) {
        return Ok(next);
    }
    put_entries(disk, draft, buffer, set, first, behind, &day)
}

// Puts each day of a set that does not have its share of all octets into a draft.
fn put_mixed<D: Disk>(
    alloc: Global,
    disk: &mut D,
    draft: &mut SegmentDraft,
    set: &PagedArchive,
    total: u64,
) -> Result<(), KeepFault>
    ensures put { OnOk result (PutsMixed (D.tells disk.new) total draft.old (D.state disk.old) draft.new
        (D.state disk.new) (entries_in set.now)) }
    ensures aside { D.tells disk.new
        → KeepsAside (D.state disk.old) (D.state disk.new) (draft_of draft.old) }
    ensures name { draft_of draft.new ≡ draft_of draft.old }
    ensures syncs { AtMostSyncs 0 (D.syncs disk.old) (D.syncs disk.new) }
    ensures told { D.tells disk.new → D.tells disk.old }
    ensures cause { IfErr result (IsKeepingCause (D.tells disk.new) (D.has_failed disk.new)
        (Drafts draft.old (D.state disk.old) []) (D.state disk.new)) }
{
    let mut buffer = Vec::new(alloc);
    let mut place = Place::first();
    'days: while let Some((entry, behind)) = set.next(place) {
        place = mix_day(alloc, disk, draft, &mut buffer, set, total, &entry, behind)?;
    }
    draft.push(disk, &buffer)?;
    Ok(())
}

// Drafts one segment of the days of a set that do not have their share of all octets.
fn draft_mixed<D: Disk>(
    alloc: Global,
    disk: &mut D,
    name: DraftName,
    set: &PagedArchive,
    total: u64,
) -> Result<SegmentDraft, KeepFault>
    ensures drafted { IfOk result (λ draft. DraftsMixed (D.tells disk.new) total (D.state disk.old)
        (D.state disk.new) (octets_of name) draft (entries_in set.now)) }
    ensures aside { D.tells disk.new
        → KeepsAside (D.state disk.old) (D.state disk.new) (octets_of name) }
    ensures syncs { AtMostSyncs 0 (D.syncs disk.old) (D.syncs disk.new) }
    ensures told { D.tells disk.new → D.tells disk.old }
    ensures cause { IfErr result (IsKeepingCause (D.tells disk.new) (D.has_failed disk.new)
        (IsSound (D.state disk.old)) (D.state disk.new)) }
{
    let mut draft = SegmentDraft::begin(disk, name.file_name(alloc)?)?;
    put_mixed(alloc, disk, &mut draft, set, total)?;
    Ok(draft)
}

// Writes one segment of the days of a set that do not have their share of all octets.
fn write_mixed<D: Disk>(
    alloc: Global,
    disk: &mut D,
    name: DraftName,
    set: &PagedArchive,
    total: u64,
) -> Result<(), KeepFault>
    ensures wrote { OnOk result (WritesMixed (D.tells disk.new) total (D.state disk.old)
        (D.state disk.new) (entries_in set.now)) }

    // whatever the result is: so at every moment
    ensures gains { D.tells disk.new → IsSound (D.state disk.old)
        → GainsOnly (D.state disk.old) (D.state disk.new) (octets_of name) (entries_in set.now) }
    ensures segments { D.tells disk.new → IsSound (D.state disk.old)
        → GrowsBeside 1 (D.state disk.old) (D.state disk.new) }

    ensures syncs { AtMostSyncs SEGMENT_SYNCS (D.syncs disk.old) (D.syncs disk.new) }
    ensures told { D.tells disk.new → D.tells disk.old }
    ensures cause { IfErr result (IsKeepingCause (D.tells disk.new) (D.has_failed disk.new)
        (IsSound (D.state disk.old)) (D.state disk.new)) }
{
    draft_mixed(alloc, disk, name, set, total)?.keep(alloc, disk, MIXED)
}

// Writes the days that have their share, and then the others.
fn write_both<D: Disk>(
    alloc: Global,
    disk: &mut D,
    name: DraftName,
    set: &PagedArchive,
) -> Result<(), KeepFault>
    ensures held { OnOk result (D.tells disk.new → IsSound (D.state disk.old)
        → HeldApart (D.state disk.new) (entries_in set.now)) }
    ensures sound { OnOk result (D.tells disk.new → IsSound (D.state disk.old)
        → IsSound (D.state disk.new)) }

    // whatever the result is: so at every moment
    ensures gains { D.tells disk.new → IsSound (D.state disk.old)
        → GainsOnly (D.state disk.old) (D.state disk.new) (octets_of name) (entries_in set.now) }
    ensures segments { D.tells disk.new → IsSound (D.state disk.old)
        → GrowsBeside 65 (D.state disk.old) (D.state disk.new) }

    ensures syncs { AtMostSyncs SET_SYNCS (D.syncs disk.old) (D.syncs disk.new) }
    ensures told { D.tells disk.new → D.tells disk.old }
    ensures cause { IfErr result (IsKeepingCause (D.tells disk.new) (D.has_failed disk.new)
        (IsSound (D.state disk.old)) (D.state disk.new)) }
{
    let total = set_len(set);
    if write_days(alloc, disk, name, set, total)? {
        return write_mixed(alloc, disk, name, set, total);
    }
    Ok(())
}

// Removes what is left of a draft, where the disk lets it.
fn drop_draft<D: Disk>(alloc: Global, disk: &mut D, name: DraftName)
    ensures aside { D.tells disk.new
        → KeepsAside (D.state disk.old) (D.state disk.new) (octets_of name) }
    ensures syncs { AtMostSyncs 0 (D.syncs disk.old) (D.syncs disk.new) }
    ensures told { D.tells disk.new → D.tells disk.old }
    ensures failed { D.has_failed disk.old → D.has_failed disk.new }
{
    let Ok(file) = name.file_name(alloc) else {
        return;
    };
    let _ = disk.remove(&file);
}

/// Writes the entries of a set as segments: one of each day that has at least a 64th of the octets of
/// the set's archive, and one, `mixed`, of all other days, so that at most 65 come. Each is a draft of
/// this name first; what is left of one is removed if the disk lets it, so that it takes no room. A
/// crash at any moment leaves what the folder kept, and nothing else but entries of the set; once it
/// has returned `Ok`, segments hold each of them, whatever a crash leaves. It can say so only if no sync
/// has failed since the machine was started.
///
/// # Errors
/// The disk's fault, lack of memory, or a damaged file under the name of a segment, which stays. Some
/// segments may be there.
pub fn write_segments<D: Disk>(
    alloc: Global,
    disk: &mut D,
    name: DraftName,
    set: &PagedArchive,
) -> Result<(), KeepFault>
    ensures held { OnOk result (D.tells disk.new → IsSound (D.state disk.old)
        → HeldApart (D.state disk.new) (entries_in set.now)) }
    ensures sound { OnOk result (D.tells disk.new → IsSound (D.state disk.old)
        → IsSound (D.state disk.new)) }

    // whatever the result is: so at every moment
    ensures gains { D.tells disk.new → IsSound (D.state disk.old)
        → GainsOnly (D.state disk.old) (D.state disk.new) (octets_of name) (entries_in set.now) }
    ensures segments { D.tells disk.new → IsSound (D.state disk.old)
        → GrowsBeside 65 (D.state disk.old) (D.state disk.new) }

    ensures syncs { AtMostSyncs SET_SYNCS (D.syncs disk.old) (D.syncs disk.new) }
    ensures told { D.tells disk.new → D.tells disk.old }
    ensures cause { IfErr result (IsKeepingCause (D.tells disk.new) (D.has_failed disk.new)
        (IsSound (D.state disk.old)) (D.state disk.new)) }
{
    let written = write_both(alloc, disk, name, set);
    drop_draft(alloc, disk, name);
    written
}
