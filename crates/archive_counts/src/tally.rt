//! What is told of the entries under one key.

ghost use Rattle.std.specs.Prelude.{◌≡◌, ◌++◌, ◌∷◌, ◌<◌, ◌^◌, [], List, length};
ghost use Rattle.archive_text.specs.Entries.{Entry, IsAscending};
ghost use Rattle.archive_text.specs.EntryViews.{entry_of};
ghost use Rattle.archive_text.specs.Text.{text_of};
ghost use Rattle.syslog_frame.specs.Frames.{framed};
ghost use Rattle.syslog_frame.specs.declared.framing.Framing.TheVariants.{Counted};
ghost use Rattle.archive_counts.specs.Tallies.{IsTallyOf};

use archive_text::EntryView;
use itoa::Buffer;
use syslog_value::Instant;

/// How many entries there are, how many octets their text has, and their earliest and latest
/// instants.
#[derive(Clone, Copy, Debug)]
pub struct Tally {
    /// How many entries there are.
    pub records: u64,
    /// How many octets their text has.
    pub octets: u64,
    /// The earliest instant; None if no entry has one.
    pub first: Option<Instant>,
    /// The latest instant.
    pub last: Option<Instant>,
}

// How many octets the text of an entry has.
fn entry_len(octets: &[u8]) -> u64
    ensures { length (framed Counted octets.now) < 2 ^ 64
        → result ≡ length (framed Counted octets.now) }
{
    let digits = Buffer::new().format(octets.len()).len();
    (octets.len() as u64).saturating_add(digits as u64 + 1)
}

impl Tally {
    /// The tally of no entries.
    pub fn new() -> Tally
        ensures { IsTallyOf result [] }
    {
        Tally {
            records: 0,
            octets: 0,
            first: None,
            last: None,
        }
    }

    /// Adds an entry, which stands behind the others in an archive.
    pub fn add(&mut self, entry: &EntryView<'_>)
        ensures { (es : List Entry) → IsAscending (es ++ entry_of entry.now ∷ [])
            → length (text_of (es ++ entry_of entry.now ∷ [])) < 2 ^ 64 → IsTallyOf self.old es
            → IsTallyOf self.new (es ++ entry_of entry.now ∷ []) }
    {
        self.records = self.records.saturating_add(1);
        self.octets = self.octets.saturating_add(entry_len(entry.octets));
        self.first = self.first.or(entry.instant);
        self.last = entry.instant.or(self.last);
    }
}
