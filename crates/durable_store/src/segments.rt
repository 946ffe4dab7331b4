//! The segments of a checkpoint.
ghost use Rattle.std.specs.Prelude.{◌≡◌, ◌⊎◌, ◌↔◌, ◌++◌, ◌∷◌, [], false, IfErr, IfOk, IsTrue, List};
ghost use Rattle.std.specs.Prelude.{ℕ, length, OnOk};
ghost use Rattle.syslog_frame.specs.Frames.{framed};
ghost use Rattle.syslog_frame.specs.declared.framing.Framing.TheVariants.{Counted};
ghost use Rattle.archive_text.specs.Periods.{IsIn};
ghost use Rattle.archive_text.specs.declared.period.Period.TheVariants.{Day as day_Period};
ghost use Rattle.archive_pages.specs.Paged.{entries_from, entries_in};
ghost use Rattle.archive_text.specs.EntryViews.{entry_of};
ghost use Rattle.archive_text.specs.Text.{text_of};
ghost use Rattle.disk.specs.Calls.{AtMostSyncs};
ghost use Rattle.journal.specs.Journals.{IsSound};
ghost use Rattle.record_store.specs.Segments.{Drafts, GrowsBeside, draft_of};
ghost use Rattle.record_store.specs.declared.segment.TheConstants.{SEGMENT_SYNCS};
ghost use Rattle.durable_store.specs.Causes.{IsKeepingCause};
ghost use Rattle.durable_store.specs.Segments.{DraftsDay, GainsAmong, GainsOnly, KeepsAside, Puts, PutsDay};
ghost use Rattle.durable_store.specs.Segments.{PutsEntries, WritesDay, WritesDays, WritesShare, octets_of};
ghost use Rattle.durable_store.specs.Shares.{GrowsBy, SyncsAlong};

use crate::draft::DraftName;
use crate::shares::{day_len, day_of, is_share, next_of};
use archive_pages::{PagedArchive, Place};
use archive_text::EntryView;
use disk::Disk;
use itoa::Buffer;
use record_store::{KeepFault, SegmentDraft};
use std::alloc::{AllocError, Global};

// a piece of so many octets is written
const PIECE: usize = 262_144;

// Puts the text of an entry behind what is held back.
fn hold_back(buffer: &mut Vec<u8>, octets: &[u8]) -> Result<(), AllocError>
    ensures { OnOk result (buffer.new.items ≡ buffer.old.items ++ framed Counted octets.now) }
{
    buffer.extend_from_slice(Buffer::new().format(octets.len()).as_bytes())?;
    buffer.push(b' ')?;
    buffer.extend_from_slice(octets)?;
    Ok(())
}

// Puts an entry into a draft, or holds it back.
fn put_entry<D: Disk>(
    disk: &mut D,
    draft: &mut SegmentDraft,
    buffer: &mut Vec<u8>,
    octets: &[u8],
) -> Result<(), KeepFault>
    ensures put { OnOk result (Puts (D.tells disk.new) draft.old (D.state disk.old) buffer.old.items
        draft.new (D.state disk.new) buffer.new.items (framed Counted octets.now)) }
    ensures aside { D.tells disk.new
        → KeepsAside (D.state disk.old) (D.state disk.new) (draft_of draft.old) }
    ensures name { draft_of draft.new ≡ draft_of draft.old }
    ensures syncs { AtMostSyncs 0 (D.syncs disk.old) (D.syncs disk.new) }
    ensures told { D.tells disk.new → D.tells disk.old }
    ensures cause { IfErr result (IsKeepingCause (D.tells disk.new) (D.has_failed disk.new)
        ((text : List ℕ) × Drafts draft.old (D.state disk.old) text) (D.state disk.new)) }
{
    hold_back(buffer, octets)?;
    if buffer.len() >= PIECE {
        draft.push(disk, buffer)?;
        buffer.clear();
    }
    Ok(())
}

// Puts an entry of a day and those of the day that follow it into a draft, or holds some back, and
// gives the place behind them.
pub(crate) fn put_entries<D: Disk>(
    disk: &mut D,
    draft: &mut SegmentDraft,
    buffer: &mut Vec<u8>,
    set: &PagedArchive,
    first: &EntryView<'_>,
    behind: Place,
    day: &[u8],
) -> Result<Place, KeepFault>
    ensures put { IfOk result (λ place. PutsEntries (D.tells disk.new) draft.old (D.state disk.old)
        buffer.old.items draft.new (D.state disk.new) buffer.new.items day.now (entry_of first.now)
        (entries_from set.now behind) (entries_from set.now place)) }
    ensures aside { D.tells disk.new
        → KeepsAside (D.state disk.old) (D.state disk.new) (draft_of draft.old) }
    ensures name { draft_of draft.new ≡ draft_of draft.old }
    ensures syncs { AtMostSyncs 0 (D.syncs disk.old) (D.syncs disk.new) }
    ensures told { D.tells disk.new → D.tells disk.old }
    ensures cause { IfErr result (IsKeepingCause (D.tells disk.new) (D.has_failed disk.new)
        ((text : List ℕ) × Drafts draft.old (D.state disk.old) text) (D.state disk.new)) }
{
    put_entry(disk, draft, buffer, first.octets)?;
    let mut place = behind;
    'entries: while let Some((entry, next)) = next_of(set, place, day) {
        put_entry(disk, draft, buffer, entry.octets)?;
        place = next;
    }
    Ok(place)
}

// Puts an entry of a day and those of the day that follow it into a draft, and gives the place behind
// them.
fn put_day<D: Disk>(
    alloc: Global,
    disk: &mut D,
    draft: &mut SegmentDraft,
    set: &PagedArchive,
    first: &EntryView<'_>,
    behind: Place,
    day: &[u8],
) -> Result<Place, KeepFault>
    ensures put { IfOk result (λ place. PutsDay (D.tells disk.new) draft.old (D.state disk.old) draft.new
        (D.state disk.new) day.now (entry_of first.now) (entries_from set.now behind)
        (entries_from set.now place)) }
    ensures aside { D.tells disk.new
        → KeepsAside (D.state disk.old) (D.state disk.new) (draft_of draft.old) }
    ensures name { draft_of draft.new ≡ draft_of draft.old }
    ensures syncs { AtMostSyncs 0 (D.syncs disk.old) (D.syncs disk.new) }
    ensures told { D.tells disk.new → D.tells disk.old }
    ensures cause { IfErr result (IsKeepingCause (D.tells disk.new) (D.has_failed disk.new)
        (Drafts draft.old (D.state disk.old) []) (D.state disk.new)) }
{
    let mut buffer = Vec::new(alloc);
    let place = put_entries(disk, draft, &mut buffer, set, first, behind, day)?;
    draft.push(disk, &buffer)?;
    Ok(place)
}

// Drafts the segment of the day of an entry: that entry and those of the day that follow it. Gives the
// draft, and the place behind them.
fn draft_day<D: Disk>(
    alloc: Global,
    disk: &mut D,
    name: DraftName,
    set: &PagedArchive,
    first: &EntryView<'_>,
    behind: Place,
    day: &[u8],
) -> Result<(SegmentDraft, Place), KeepFault>
    requires { IsIn day_Period day.now (entry_of first.now) }
    ensures drafted { IfOk result (λ r. DraftsDay (D.tells disk.new) (D.state disk.old) (D.state disk.new)
        (octets_of name) r.0 day.now (entry_of first.now ∷ entries_from set.now behind)
        (entries_from set.now r.1)) }
    ensures aside { D.tells disk.new
        → KeepsAside (D.state disk.old) (D.state disk.new) (octets_of name) }
    ensures syncs { AtMostSyncs 0 (D.syncs disk.old) (D.syncs disk.new) }
    ensures told { D.tells disk.new → D.tells disk.old }
    ensures cause { IfErr result (IsKeepingCause (D.tells disk.new) (D.has_failed disk.new)
        (IsSound (D.state disk.old)) (D.state disk.new)) }
{
    let mut draft = SegmentDraft::begin(disk, name.file_name(alloc)?)?;
    let place = put_day(alloc, disk, &mut draft, set, first, behind, day)?;
    Ok((draft, place))
}

// Writes the segment of the day of an entry: that entry and those of the day that follow it. Gives the
// place behind them.
fn write_day<D: Disk>(
    alloc: Global,
    disk: &mut D,
    name: DraftName,
    set: &PagedArchive,
    first: &EntryView<'_>,
    behind: Place,
    day: &[u8],
) -> Result<Place, KeepFault>
    requires { IsIn day_Period day.now (entry_of first.now) }
    ensures wrote { IfOk result (λ place. WritesDay (D.tells disk.new) (D.state disk.old)
        (D.state disk.new) (entry_of first.now ∷ entries_from set.now behind)
        (entries_from set.now place)) }

    // whatever the result is: so at every moment
    ensures gains { GainsAmong (D.tells disk.new) (D.state disk.old) (D.state disk.new) (octets_of name)
        (entry_of first.now ∷ entries_from set.now behind) }
    ensures segments { D.tells disk.new → IsSound (D.state disk.old)
        → GrowsBeside 1 (D.state disk.old) (D.state disk.new) }

    ensures syncs { AtMostSyncs SEGMENT_SYNCS (D.syncs disk.old) (D.syncs disk.new) }
    ensures told { D.tells disk.new → D.tells disk.old }
    ensures cause { IfErr result (IsKeepingCause (D.tells disk.new) (D.has_failed disk.new)
        (IsSound (D.state disk.old)) (D.state disk.new)) }
{
    let (draft, place) = draft_day(alloc, disk, name, set, first, behind, day)?;
    draft.keep(alloc, disk, day)?;
    Ok(place)
}

// Writes the segment of the day of an entry, if the day has its share of all octets. Gives whether it
// was, and the place behind the day.
fn write_share<D: Disk>(
    alloc: Global,
    disk: &mut D,
    name: DraftName,
    set: &PagedArchive,
    total: u64,
    first: &EntryView<'_>,
    behind: Place,
) -> Result<(bool, Place), KeepFault>
    ensures wrote { IfOk result (λ r. WritesShare (D.tells disk.new) total (D.state disk.old)
        (D.state disk.new) r.0 (entry_of first.now ∷ entries_from set.now behind)
        (entries_from set.now r.1)) }

    // whatever the result is: so at every moment
    ensures gains { GainsAmong (D.tells disk.new) (D.state disk.old) (D.state disk.new) (octets_of name)
        (entry_of first.now ∷ entries_from set.now behind) }
    ensures grows { D.tells disk.new → IsSound (D.state disk.old) → GrowsBy total
        (length (text_of (entry_of first.now ∷ entries_from set.now behind)))
        (D.state disk.old) (D.state disk.new) }

    ensures syncs { SyncsAlong total (entry_of first.now ∷ entries_from set.now behind) []
        (D.syncs disk.old) (D.syncs disk.new) }
    ensures along { IfOk result (λ r. SyncsAlong total (entry_of first.now ∷ entries_from set.now behind)
        (entries_from set.now r.1) (D.syncs disk.old) (D.syncs disk.new)) }
    ensures told { D.tells disk.new → D.tells disk.old }
    ensures cause { IfErr result (IsKeepingCause (D.tells disk.new) (D.has_failed disk.new)
        (IsSound (D.state disk.old)) (D.state disk.new)) }
{
    let day = day_of(alloc, first.instant)?;
    let (len, next) = day_len(set, first, behind, &day);
    if !is_share(total, len) {
        return Ok((false, next));
    }
    let place = write_day(alloc, disk, name, set, first, behind, &day)?;
    Ok((true, place))
}

// Whether a day was skipped before, or is now.
fn is_skipped(before: bool, wrote: bool) -> bool
    ensures { IsTrue result ↔ (IsTrue before ⊎ (wrote ≡ false)) }
{
    before || !wrote
}

// Writes the segment of each day of a set that has its share of all octets. Gives whether one has not.
pub(crate) fn write_days<D: Disk>(
    alloc: Global,
    disk: &mut D,
    name: DraftName,
    set: &PagedArchive,
    total: u64,
) -> Result<bool, KeepFault>
    ensures wrote { IfOk result (λ skipped. WritesDays (D.tells disk.new) total (D.state disk.old)
        (D.state disk.new) skipped (entries_in set.now) []) }

    // whatever the result is: so at every moment
    ensures gains { D.tells disk.new → IsSound (D.state disk.old)
        → GainsOnly (D.state disk.old) (D.state disk.new) (octets_of name) (entries_in set.now) }
    ensures grows { D.tells disk.new → IsSound (D.state disk.old) → GrowsBy total
        (length (text_of (entries_in set.now))) (D.state disk.old) (D.state disk.new) }

    ensures syncs { SyncsAlong total (entries_in set.now) [] (D.syncs disk.old) (D.syncs disk.new) }
    ensures told { D.tells disk.new → D.tells disk.old }
    ensures cause { IfErr result (IsKeepingCause (D.tells disk.new) (D.has_failed disk.new)
        (IsSound (D.state disk.old)) (D.state disk.new)) }
{
    let mut skipped = false;
    let mut place = Place::first();
    'days: while let Some((entry, behind)) = set.next(place) {
        let (wrote, next) = write_share(alloc, disk, name, set, total, &entry, behind)?;
        skipped = is_skipped(skipped, wrote);
        place = next;
    }
    Ok(skipped)
}
