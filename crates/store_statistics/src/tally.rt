//! Records are counted.
ghost use Rattle.std.specs.Prelude.{◌++◌, ◌∷◌, [], List};
ghost use Rattle.archive_text.specs.Entries.{Entry};
ghost use Rattle.archive_text.specs.EntryViews.{entry_of};
ghost use Rattle.store_statistics.specs.Tallies.{IsTallyOf};

use crate::times::{earlier, later};
use archive_text::EntryView;
use syslog_value::Instant;

/// How many records there are, and from when to when they are.
#[derive(Clone, Copy, Debug)]
pub struct Tally {
    /// How many there are, at most as many as a count of 64 bits tells.
    pub records: u64,
    /// The earliest time; None if no record has one.
    pub first: Option<Instant>,
    /// The latest time.
    pub last: Option<Instant>,
}

impl Tally {
    /// Of no records.
    pub fn new() -> Tally
        ensures { IsTallyOf result [] }
    {
        Tally {
            records: 0,
            first: None,
            last: None,
        }
    }

    /// One record more, in any order.
    pub fn add(&mut self, entry: &EntryView<'_>)
        ensures { (es : List Entry) → IsTallyOf self.old es
            → IsTallyOf self.new (es ++ entry_of entry.now ∷ []) }
    {
        self.records = self.records.saturating_add(1);
        self.first = earlier(self.first, entry.instant);
        self.last = later(self.last, entry.instant);
    }
}
