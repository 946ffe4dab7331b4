//! A set of records, and memory that is held back for it.
ghost use Rattle.std.specs.Prelude.{◌≡◌, [], List, false, true};
ghost use Rattle.archive_pages.specs.Paged.{entries_in};
ghost use Rattle.archive_text.specs.Entries.{Entry};
ghost use Rattle.store_keeper.specs.Spares.{is_short, pages_of, spared_entries};

use archive_pages::PagedArchive;
use archive_text::{AddFault, Added, Store};
use octet_devices::{Output, WriteFault};
use std::alloc::{AllocError, Global};
use syslog_grammar::RecordView;
use syslog_value::Record;

// Memory is held back in so many parts, each as large as what pages take at once: so it is found again
// where it was given up.
const PARTS: usize = 4;

// How many octets each has.
const PART: usize = 1 << 20;

// From how many octets of memory on a set is to be handed over: so what senders bring between two commits takes no more
// than this and a turn's share, however fast they are.
const ROOM_MAX: usize = 32 << 20;

/// A set of records, and memory that is held back for it, as far as there was some. Where a record has
/// no room, what is held back is given up, and it is tried once more. Memory is short then, until the
/// set is emptied. It is said to be short, too, where the set takes 32 MiB.
#[derive(Drop)]
pub struct SparedSet {
    pages: PagedArchive,
    spare: Vec<Vec<u8>>,
    short: bool,
    // whether what was held back is given up
    given_up: bool,
}

// Holds back what is missing, as far as there is some.
fn hold_back(alloc: Global, spare: &mut Vec<Vec<u8>>) {
    for _part in spare.len()..PARTS {
        let Ok(part) = Vec::with_capacity(alloc, PART) else {
            return;
        };
        if spare.push(part).is_err() {
            return;
        }
    }
}

impl SparedSet {
    /// An empty set. Memory is not short.
    pub fn new(alloc: Global) -> SparedSet
        ensures empty { spared_entries result ≡ [] }
        ensures short { is_short result ≡ false }
    {
        let mut spare = Vec::new(alloc);
        hold_back(alloc, &mut spare);
        SparedSet {
            pages: PagedArchive::new(alloc),
            spare,
            short: false,
            given_up: false,
        }
    }

    /// Its records.
    pub(crate) fn pages(&self) -> &PagedArchive
        ensures { result.now ≡ pages_of self.now }
    {
        &self.pages
    }

    /// Whether memory is short.
    pub(crate) fn is_short(&self) -> bool
        ensures { result ≡ is_short self.now }
    {
        self.short
    }

    /// Whether there was no room for a record.
    pub(crate) fn has_given_up(&self) -> bool {
        self.given_up
    }

    // Has the set handed over where it takes much memory.
    fn note_room(&mut self)
        ensures pages { pages_of self.new ≡ pages_of self.old }
    {
        if self.pages.room() >= ROOM_MAX {
            self.short = true;
        }
    }

    /// Gives up what is held back.
    pub(crate) fn give_up(&mut self)
        ensures pages { pages_of self.new ≡ pages_of self.old }
        ensures short { is_short self.new ≡ true }
    {
        self.spare.clear();
        self.short = true;
        self.given_up = true;
    }

    /// Empties the set, and holds memory back again.
    pub(crate) fn clear(&mut self, alloc: Global)
        ensures empty { spared_entries self.new ≡ [] }
        ensures short { is_short self.new ≡ false }
    {
        self.pages = PagedArchive::new(alloc);
        hold_back(alloc, &mut self.spare);
        self.short = false;
        self.given_up = false;
    }
}

impl Store for SparedSet {
    ghost entries = { λ s. spared_entries s };

    ghost archive = { λ s. s.pages.paged.archive };

    fn add(&mut self, alloc: Global, record: &Record) -> Result<Added, AddFault> {
        self.note_room();
        match self.pages.add(alloc, record) {
            Err(AddFault::Memory) if !self.given_up => {
                self.give_up();
                self.pages.add(alloc, record)
            }
            added => added,
        }
    }

    fn add_view(&mut self, alloc: Global, view: &RecordView<'_>) -> Result<Added, AddFault> {
        self.note_room();
        match self.pages.add_view(alloc, view) {
            Err(AddFault::Memory) if !self.given_up => {
                self.give_up();
                self.pages.add_view(alloc, view)
            }
            added => added,
        }
    }

    fn holds(&self, alloc: Global, record: &Record) -> Result<bool, AllocError> {
        self.pages.holds(alloc, record)
    }

    fn len(&self) -> usize {
        self.pages.len()
    }

    fn write<W: Output>(&self, writer: &mut W) -> Result<(), WriteFault> {
        self.pages.write(writer)
    }
}
