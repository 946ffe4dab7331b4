//! Room for an entry.

ghost use Rattle.std.specs.Prelude.{◌≡◌, ◌≤◌, ◌↔◌, [], vec_capacity, vec_len, IfOk, IsTrue};

use archive_text::{ENTRY_MAX, EntryView, compare};
use std::alloc::{AllocError, Global};
use std::cmp::Ordering;
use syslog_value::Instant;

/// The most octets that a length and its space have.
pub const COUNT_TEXT: usize = 11;

/// The most octets that the text of an entry has: its length, a space and the entry.
pub const TEXT_MAX: usize = ENTRY_MAX + COUNT_TEXT;

/// The text of an entry, and its instant. An empty text is no entry.
#[derive(Drop)]
pub struct EntryText {
    /// Its length, a space and its octets; its room is for `TEXT_MAX` octets.
    pub text: Vec<u8>,
    /// The offset of its octets in the text.
    pub start: usize,
    /// Its instant, if it has one.
    pub instant: Option<Instant>,
}

impl EntryText {
    ghost use Rattle.archive_text.specs.EntryViews.{entry_of};
    ghost use Rattle.archive_streams.specs.EntryTexts.{entry_in, IsAbove};

    /// Room for an entry, and none yet. It fails only when out of memory.
    pub fn new(alloc: Global) -> Result<EntryText, AllocError>
        ensures room { IfOk result (λ e. TEXT_MAX ≤ vec_capacity e.text) }
        ensures empty { IfOk result (λ e. e.text.items ≡ []) }
        ensures start { IfOk result (λ e. e.start ≡ 0) }
    {
        Ok(EntryText {
            text: Vec::with_capacity(alloc, TEXT_MAX)?,
            start: 0,
            instant: None,
        })
    }

    /// The entry, lent from its text.
    pub fn view(&self) -> EntryView<'_>
        requires { self.now.start ≤ vec_len self.now.text }
        ensures { entry_of result ≡ entry_in self.now }
    {
        let (_, octets) = self.text.split_at(self.start);
        EntryView {
            instant: self.instant,
            octets,
        }
    }

    /// Whether the entry is above another one, or that one is no entry.
    pub fn is_above(&self, last: &EntryText) -> bool
        requires within { self.now.start ≤ vec_len self.now.text }
        requires last { last.now.start ≤ vec_len last.now.text }
        ensures { IsTrue result ↔ IsAbove last.now (entry_in self.now) }
    {
        if last.text.is_empty() {
            return true;
        }
        match compare(&last.view(), &self.view()) {
            Ordering::Less => true,
            Ordering::Equal => false,
            Ordering::Greater => false,
        }
    }
}
