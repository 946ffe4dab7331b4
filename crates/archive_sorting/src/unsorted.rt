//! Records before they are sorted.

ghost use Rattle.std.specs.Prelude.{◌≡◌, ◌<◌, ◌≤◌, ◌++◌, ◌∷◌, [], List, ℕ, ℤ, length, vec_len};
ghost use Rattle.std.specs.Prelude.{IsErrOf, OnErr, OnOk};
ghost use Rattle.archive_text.specs.EntryViews.{entry_of};
ghost use Rattle.archive_text.specs.Entries.{IsEntry};
ghost use Rattle.archive_text.specs.declared.limits.TheConstants.{ENTRY_MAX};
ghost use Rattle.archive_sorting.specs.Settled.{HaveSame};
ghost use Rattle.archive_sorting.specs.Spans.{blocks_of, entries_at};
ghost use Rattle.archive_sorting.specs.Within.{IsFit, LieWithin, LieWithin-prop, ShowFit, ShowFit-prop};
ghost use Rattle.archive_sorting.specs.declared.unsorted.TheConstants.{RECORDS_MAX};

use crate::arena::{Arena, Span};
use crate::copying::copied;
use crate::rank::rank_of;
use crate::record_set::RecordSet;
use crate::settling::{settle, shed};
use crate::sorted::SortedArchive;
use archive_text::{AddFault, ENTRY_MAX, EntryView};
use std::alloc::{AllocError, Global};
use syslog_grammar::{RecordView, canon, write_canonical_view};
use syslog_value::Record;

/// More records than any memory holds.
pub const RECORDS_MAX: usize = 1_099_511_627_776;

// how many blocks are filled, beside an eighth of those that were left, before repeats are let go of
const BLOCKS_FILLED: usize = 16;

/// Records as they came, made for millions of them: the canonical octets of each, in blocks of 1 MiB,
/// and where they lie. A record takes its canonical octets and some 20 to 36 more. One that comes
/// again does too, until some 16 MiB came and an eighth of the set. More than 2^40 records, or 2^32
/// blocks, are answered as out of memory.
#[derive(Debug, Drop)]
pub struct UnsortedRecords {
    arena: Arena,
    spans: Vec<Span>,
    // how many blocks there are when repeats are let go of next
    limit: usize,
    // how many records were let go of whose octets are in the arena
    repeats: usize,
    // the canonical octets of the view that is added
    scratch: Vec<u8>,
    ghost within: { LieWithin arena spans } by { LieWithin-prop arena spans },
    ghost fit: { ShowFit arena spans } by { ShowFit-prop arena spans },
    ghost few: { vec_len spans ≤ RECORDS_MAX },
}

// Lets go of entries that came more than once, and of the octets of all such where they are more than an
// eighth; as far as there is memory for that.
fn shed_repeats(alloc: Global, arena: &mut Arena, spans: &mut Vec<Span>, repeats: &mut usize)
    requires within { LieWithin arena.old spans.old }
    requires fit { ShowFit arena.old spans.old }
    requires few { vec_len spans.old ≤ RECORDS_MAX }
    ensures within { LieWithin arena.new spans.new }
    ensures fit { ShowFit arena.new spans.new }
    ensures few { vec_len spans.new ≤ RECORDS_MAX }
    ensures same { HaveSame (entries_at (blocks_of arena.old) spans.old.items)
        (entries_at (blocks_of arena.new) spans.new.items) }
{
    let count = spans.len();
    shed(arena, spans);
    *repeats = repeats.saturating_add(count.saturating_sub(spans.len()));
    if *repeats <= spans.len() / 8 {
        return;
    }
    match copied(alloc, arena, spans) {
        Ok((copy, places)) => {
            *arena = copy;
            *spans = places;
            *repeats = 0;
        }
        Err(AllocError) => {}
    }
}

// Keeps one more entry, behind the others. It fails only when out of memory.
fn push_entry(
    alloc: Global,
    arena: &mut Arena,
    spans: &mut Vec<Span>,
    entry: &EntryView<'_>,
) -> Result<(), AllocError>
    requires within { LieWithin arena.old spans.old }
    requires fit { ShowFit arena.old spans.old }
    requires few { vec_len spans.old < RECORDS_MAX }
    requires entry { IsFit ENTRY_MAX (entry_of entry.now) }
    ensures within { LieWithin arena.new spans.new }
    ensures fit { ShowFit arena.new spans.new }
    ensures few { vec_len spans.new ≤ RECORDS_MAX }
    ensures ok { OnOk result (entries_at (blocks_of arena.new) spans.new.items
        ≡ entries_at (blocks_of arena.old) spans.old.items ++ entry_of entry.now ∷ []) }
    ensures err { OnErr result (entries_at (blocks_of arena.new) spans.new.items
        ≡ entries_at (blocks_of arena.old) spans.old.items) }
{
    let span = arena.push(alloc, rank_of(entry.instant), entry.octets)?;
    spans.push(span)?;
    Ok(())
}

// Adds an entry, if it fits an archive.
fn add_entry(
    alloc: Global,
    arena: &mut Arena,
    spans: &mut Vec<Span>,
    entry: &EntryView<'_>,
) -> Result<(), AddFault>
    requires within { LieWithin arena.old spans.old }
    requires fit { ShowFit arena.old spans.old }
    requires few { vec_len spans.old ≤ RECORDS_MAX }
    requires entry { IsEntry (entry_of entry.now) }
    ensures within { LieWithin arena.new spans.new }
    ensures fit { ShowFit arena.new spans.new }
    ensures few { vec_len spans.new ≤ RECORDS_MAX }
    ensures ok { OnOk result (entries_at (blocks_of arena.new) spans.new.items
        ≡ entries_at (blocks_of arena.old) spans.old.items ++ entry_of entry.now ∷ []) }
    ensures err { OnErr result (entries_at (blocks_of arena.new) spans.new.items
        ≡ entries_at (blocks_of arena.old) spans.old.items) }
    ensures long { IsErrOf result AddFault.TooLong → ENTRY_MAX < length entry.now.octets.now }
{
    if entry.octets.len() > ENTRY_MAX {
        return Err(AddFault::TooLong);
    }
    if spans.len() >= RECORDS_MAX {
        return Err(AddFault::Memory);
    }
    match push_entry(alloc, arena, spans, entry) {
        Ok(()) => Ok(()),
        Err(AllocError) => Err(AddFault::Memory),
    }
}

impl UnsortedRecords {
    ghost use Rattle.archive_sorting.specs.Records.{entries_in, entries_kept};

    /// No records. They take no memory.
    pub fn new(alloc: Global) -> UnsortedRecords
        ensures { entries_kept result ≡ [] }
    {
        UnsortedRecords {
            arena: Arena::new(alloc),
            spans: Vec::new(alloc),
            limit: BLOCKS_FILLED,
            repeats: 0,
            scratch: Vec::new(alloc),
        }
    }

    // Lets go of records that came more than once, where many came since that was last done.
    fn shed(&mut self, alloc: Global)
        ensures { HaveSame (entries_kept self.old) (entries_kept self.new) }
    {
        if self.arena.len() < self.limit {
            return;
        }
        shed_repeats(alloc, &mut self.arena, &mut self.spans, &mut self.repeats);
        let filled = self.arena.len();
        self.limit = filled
            .saturating_add(filled / 8)
            .saturating_add(BLOCKS_FILLED);
    }

    /// The archive of the records: each once, in order. It cannot fail: memory, if there is some, saves
    /// time alone.
    pub fn settle(self) -> SortedArchive
        ensures { HaveSame (entries_kept self) (entries_in result) }
    {
        let mut spans = self.spans;
        // those that were sorted before are not sorted again
        shed(&self.arena, &mut spans);
        settle(&self.arena, &mut spans);
        SortedArchive {
            arena: self.arena,
            spans,
        }
    }
}

impl RecordSet for UnsortedRecords {
    ghost use Rattle.archive_text.specs.Entries.{Entry, Has, IsEntryOf};
    ghost use Rattle.archive_sorting.specs.Records.{entries_kept};
    ghost use Rattle.syslog_value.specs.Parts.{Parts};
    ghost use Rattle.syslog_reading.specs.ViewParts.{IsViewOf, view_parts};
    ghost use Rattle.syslog_reading.specs.WellFormed.{WellFormed};

    type Fault = AddFault;

    ghost holds = { λ s es. HaveSame (entries_kept s) es };

    ghost alike = { λ s es fs same h. λ x. (λ k. (h x).0 ((same x).0 k), λ k. (same x).1 ((h x).1 k)) };

    /// Adds a record, whether it was there or not. A refusal, as the variants of [`AddFault`] say,
    /// leaves the set as it was.
    fn add(&mut self, alloc: Global, record: &Record) -> Result<(), AddFault>
        ensures ok { OnOk result ((es : List Entry) → HaveSame (entries_kept self.old) es
            → (e : Entry) × IsEntryOf record.now e × HaveSame (entries_kept self.new) (e ∷ es)) }
        ensures err { OnErr result (HaveSame (entries_kept self.old) (entries_kept self.new)) }
        ensures long { IsErrOf result AddFault.TooLong →
            (e : Entry) → IsEntryOf record.now e → ENTRY_MAX < length e.octets }
    {
        self.shed(alloc);
        let octets = match canon(alloc, record) {
            Ok(octets) => octets,
            Err(AllocError) => return Err(AddFault::Memory),
        };
        let _ = record.priority();
        let entry = EntryView {
            instant: record.instant(),
            octets: octets.as_slice(),
        };
        add_entry(alloc, &mut self.arena, &mut self.spans, &entry)
    }

    /// Adds the record that a view shows, as `add` does, without a copy of its parts.
    fn add_view(&mut self, alloc: Global, view: &RecordView<'_>) -> Result<(), AddFault>
        ensures ok { OnOk result ((b : List ℕ) → IsViewOf b (view_parts view.now)
            → (es : List Entry) → HaveSame (entries_kept self.old) es
            → (r : Parts ℤ) × (e : Entry) × WellFormed r b × IsEntryOf r e
            × HaveSame (entries_kept self.new) (e ∷ es)) }
        ensures err { OnErr result (HaveSame (entries_kept self.old) (entries_kept self.new)) }
        ensures long { IsErrOf result AddFault.TooLong →
            (b : List ℕ) → IsViewOf b (view_parts view.now) →
            (r : Parts ℤ) (e : Entry) → WellFormed r b → IsEntryOf r e
            → ENTRY_MAX < length e.octets }
    {
        self.shed(alloc);
        self.scratch.clear();
        if write_canonical_view(alloc, view, &mut self.scratch).is_err() {
            return Err(AddFault::Memory);
        }
        let entry = EntryView {
            instant: view.instant(),
            octets: &self.scratch,
        };
        add_entry(alloc, &mut self.arena, &mut self.spans, &entry)
    }
}
