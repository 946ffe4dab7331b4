//! Archives of pages.

ghost use Rattle.std.specs.Prelude.{◌≡◌, ◌<◌, ◌≤◌, ℕ, [], length, IfOk, OnErr, IsErrOf};
ghost use Rattle.archive_text.specs.Entries.{IsEntry};
ghost use Rattle.archive_text.specs.EntryViews.{entry_of};
ghost use Rattle.archive_text.specs.Stores.{AddsEntry};
ghost use Rattle.archive_pages.specs.Spans.{blocks_of, lists_of};
ghost use Rattle.archive_pages.specs.Pages.{ArePaged, HoldArchive, entries_of, joined};
ghost use Rattle.archive_pages.specs.Props.{HoldArchive-prop};
ghost use Rattle.archive_pages.specs.declared.paged.TheConstants.{RECORDS_MAX};

use crate::arena::{Arena, Span};
use crate::index::{add_entry, holds_entry};
use crate::rank::instant_of;
use crate::ranks::Ranks;
use crate::reading::{Place, span_from};
use crate::writing::write_pages;
use archive_text::{AddFault, Added, ENTRY_MAX, EntryView, Store};
use octet_devices::{Output, WriteFault};
use std::alloc::{AllocError, Global};
use syslog_grammar::{RecordView, canon, write_canonical_view};
use syslog_value::Record;

// more records than any memory holds
const RECORDS_MAX: usize = 1_099_511_627_776;

// the octets of a page and of its place in the index
const PAGE_ROOM: usize = 4128;

/// A set of records in memory, made for millions of them. Its entries lie in pages of at most 256,
/// in ascending order, under an ordered index; their octets lie in blocks of 1 MiB.
///
/// An entry takes its canonical octets and some 20 to 36 more. One that is above all others is
/// placed after a single comparison; any other after comparing some thirty instants and the octets
/// of at most some twenty entries with the same instant. More than 2^40 records, or 2^32 blocks,
/// are answered as out of memory.
#[derive(Debug, Drop)]
pub struct PagedArchive {
    arena: Arena,
    pages: Vec<Vec<Span>>,
    ranks: Ranks,
    count: usize,
    // the canonical octets of the view that is added
    scratch: Vec<u8>,
    ghost paged: { HoldArchive arena pages } by { HoldArchive-prop arena pages },
    ghost counted: { count ≡ length (joined (lists_of pages.items)) },
    ghost few: { count ≤ RECORDS_MAX },
}

impl PagedArchive {
    ghost use Rattle.std.specs.Prelude.{◌∷◌, IfNone, IfSome};
    ghost use Rattle.archive_pages.specs.Paged.{entries_from, room_of};

    /// An empty set, which takes no memory.
    pub fn new(alloc: Global) -> PagedArchive
        ensures { ⟦<PagedArchive as Store>⟧.entries result ≡ [] }
    {
        PagedArchive {
            arena: Arena::new(alloc),
            pages: Vec::new(alloc),
            ranks: Ranks::new(alloc),
            count: 0,
            scratch: Vec::new(alloc),
        }
    }

    /// How many octets the set takes in memory: those of its entries, of the pages that they lie
    /// in, and of the index. An empty set takes none.
    pub fn room(&self) -> usize
        ensures { result ≡ room_of self.now }
    {
        let pages = self.pages.len().saturating_mul(PAGE_ROOM);
        self.arena.room().saturating_add(pages)
    }

    /// The entry behind a place, and the place behind that entry; `None` if there is no further
    /// one. From `Place::first` on, all entries come in their order.
    pub fn next(&self, place: Place) -> Option<(EntryView<'_>, Place)>
        ensures some { IfSome result (λ r. entries_from self.now place
            ≡ entry_of r.0 ∷ entries_from self.now r.1) }
        ensures none { IfNone result (entries_from self.now place ≡ []) }
    {
        let (span, behind) = span_from(&self.pages, place)?;
        let entry = EntryView {
            instant: instant_of(span.rank),
            octets: self.arena.octets(span),
        };
        Some((entry, behind))
    }
}

// Adds an entry, and counts it where it is new.
fn add_counted(
    alloc: Global,
    arena: &mut Arena,
    pages: &mut Vec<Vec<Span>>,
    ranks: &mut Ranks,
    count: &mut usize,
    entry: &EntryView<'_>,
) -> Result<Added, AddFault>
    requires paged { ArePaged (blocks_of arena.old) (lists_of pages.old.items) }
    requires counted { count.old ≡ length (joined (lists_of pages.old.items)) }
    requires few { count.old ≤ RECORDS_MAX }
    requires entry { IsEntry (entry_of entry.now) }
    ensures paged { ArePaged (blocks_of arena.new) (lists_of pages.new.items) }
    ensures counted { count.new ≡ length (joined (lists_of pages.new.items)) }
    ensures few { count.new ≤ RECORDS_MAX }
    ensures ok { IfOk result (AddsEntry (entry_of entry.now)
        (entries_of (blocks_of arena.old) (lists_of pages.old.items))
        (entries_of (blocks_of arena.new) (lists_of pages.new.items))) }
    ensures err { OnErr result (entries_of (blocks_of arena.new) (lists_of pages.new.items)
        ≡ entries_of (blocks_of arena.old) (lists_of pages.old.items)) }
    ensures long { IsErrOf result AddFault.TooLong → ENTRY_MAX < length entry.now.octets.now }
{
    if entry.octets.len() > ENTRY_MAX {
        return Err(AddFault::TooLong);
    }
    if *count >= RECORDS_MAX {
        return Err(AddFault::Memory);
    }
    match add_entry(alloc, arena, pages, ranks, entry) {
        Ok(Added::New) => {
            *count += 1;
            Ok(Added::New)
        }
        Ok(Added::Held) => Ok(Added::Held),
        Err(AllocError) => Err(AddFault::Memory),
    }
}

impl Store for PagedArchive {
    ghost entries = { λ s. entries_of (blocks_of s.arena) (lists_of s.pages.items) };

    ghost archive = { λ s. s.paged.archive };

    fn add(&mut self, alloc: Global, record: &Record) -> Result<Added, AddFault> {
        let octets = match canon(alloc, record) {
            Ok(octets) => octets,
            Err(AllocError) => return Err(AddFault::Memory),
        };
        let _ = record.priority();
        let entry = EntryView {
            instant: record.instant(),
            octets: octets.as_slice(),
        };
        add_counted(
            alloc,
            &mut self.arena,
            &mut self.pages,
            &mut self.ranks,
            &mut self.count,
            &entry,
        )
    }

    fn add_view(&mut self, alloc: Global, view: &RecordView<'_>) -> Result<Added, AddFault> {
        self.scratch.clear();
        if write_canonical_view(alloc, view, &mut self.scratch).is_err() {
            return Err(AddFault::Memory);
        }
        let entry = EntryView {
            instant: view.instant(),
            octets: &self.scratch,
        };
        add_counted(
            alloc,
            &mut self.arena,
            &mut self.pages,
            &mut self.ranks,
            &mut self.count,
            &entry,
        )
    }

    fn holds(&self, alloc: Global, record: &Record) -> Result<bool, AllocError> {
        let octets = canon(alloc, record)?;
        let entry = EntryView {
            instant: record.instant(),
            octets: octets.as_slice(),
        };
        Ok(holds_entry(&self.arena, &self.pages, &self.ranks, &entry))
    }

    fn len(&self) -> usize {
        self.count
    }

    fn write<W: Output>(&self, writer: &mut W) -> Result<(), WriteFault> {
        write_pages(writer, &self.arena, &self.pages)
    }
}
