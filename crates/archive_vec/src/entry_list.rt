//! Entries in order, their octets in one vector.

ghost use Rattle.std.specs.Prelude.{◌≡◌, ◌<◌, ◌≤◌, ◌↔◌, ◌++◌, ◌∷◌, [], drop, length, slice_get, take, IfOk, IsErrOf};
ghost use Rattle.std.specs.Prelude.{IsTrue, OnOk, OnErr, Some};
ghost use Rattle.std.specs.List.{AllByRecursion, insert};
ghost use Rattle.archive_text.specs.Entries.{IsBelow, IsEntry};
ghost use Rattle.archive_text.specs.EntryViews.{entry_of};
ghost use Rattle.archive_text.specs.Stores.{AddsEntry};
ghost use Rattle.archive_text.specs.Text.{IsArchive};
ghost use Rattle.archive_vec.specs.Positions.{IsFound, IsGap};

use crate::span::{ENTRIES_MAX, EntrySpan};
use archive_text::{AddFault, Added, ENTRY_MAX, EntryView, compare};
use std::alloc::{AllocError, Global};
use std::cmp::Ordering;
use std::marker::Model;

/// Entries of records, strictly ascending, none of more than `ENTRY_MAX` octets.
#[derive(Drop)]
pub struct EntryList {
    octets: Vec<u8>,
    spans: Vec<EntrySpan>,
}

impl Model for EntryList {
    ghost use Rattle.std.specs.Prelude.{List};
    ghost use Rattle.archive_text.specs.Entries.{Entry};

    ghost Value = { List Entry };

    ghost use Rattle.archive_vec.specs.Layout.{IsLaidOut, entries_of};

    ghost view = { λ l. entries_of l.octets.items l.spans.items };

    ghost invariant = { λ l. IsLaidOut l.octets.items l.spans.items };
}

impl EntryList {
    /// A list without entries.
    pub fn new(alloc: Global) -> EntryList
        ensures { result ≡ [] }
    {
        EntryList {
            octets: Vec::new(alloc),
            spans: Vec::new(alloc),
        }
    }

    /// How many entries there are.
    pub fn len(&self) -> usize
        ensures value { result ≡ length self.now }
        ensures archive { IsArchive ENTRY_MAX self.now }
        ensures few { length self.now ≤ ENTRIES_MAX }
    {
        self.spans.len()
    }

    /// The entry at an index, which is how many entries are below it.
    pub fn at(&self, index: usize) -> EntryView<'_>
        requires { index < length self.now }
        ensures { slice_get self.now index ≡ Some (entry_of result) }
    {
        let span = &self.spans[index];
        EntryView {
            instant: span.instant,
            octets: &self.octets[span.start..span.start + span.len],
        }
    }

    // The index of an entry among those from `low` on and before `high`, or where it goes.
    fn find_between(
        &self,
        entry: &EntryView<'_>,
        mut low: usize,
        mut high: usize,
    ) -> Result<usize, usize>
        requires ordered { low ≤ high }
        requires within { high ≤ length self.now }
        requires below { AllByRecursion (λ x. IsBelow x (entry_of entry.now)) (take low self.now) }
        requires above { AllByRecursion (IsBelow (entry_of entry.now)) (drop high self.now) }
        ensures { IsFound self.now (entry_of entry.now) result }
    {
        let _ascending = self.len();
        while low < high {
            let middle = low + (high - low) / 2;
            match compare(&self.at(middle), entry) {
                Ordering::Less => low = middle + 1,
                Ordering::Equal => return Ok(middle),
                Ordering::Greater => high = middle,
            }
        }
        Err(low)
    }

    /// The index of an entry, or else where it belongs. An entry above all others is found by one
    /// comparison.
    pub fn find(&self, entry: &EntryView<'_>) -> Result<usize, usize>
        ensures { IsFound self.now (entry_of entry.now) result }
    {
        let len = self.len();
        if len == 0 {
            return Err(0);
        }
        match compare(&self.at(len - 1), entry) {
            Ordering::Less => Err(len),
            Ordering::Equal => Ok(len - 1),
            Ordering::Greater => self.find_between(entry, 0, len - 1),
        }
    }

    /// Inserts an entry at the index where it belongs. If an allocation fails, nothing changes.
    pub fn insert(&mut self, index: usize, entry: &EntryView<'_>) -> Result<(), AllocError>
        requires gap { IsGap self.old (entry_of entry.now) index }
        requires entry { IsEntry (entry_of entry.now) }
        requires fits { length entry.now.octets.now ≤ ENTRY_MAX }
        ensures ok { OnOk result (self.new ≡ insert self.old index (entry_of entry.now)) }
        ensures err { OnErr result (self.new ≡ self.old) }
    {
        if self.spans.len() >= ENTRIES_MAX {
            return Err(AllocError);
        }
        let span = EntrySpan {
            instant: entry.instant,
            start: self.octets.len(),
            len: entry.octets.len(),
        };
        self.spans.reserve(1)?;
        self.octets.extend_from_slice(entry.octets)?;
        self.spans.insert(index, span)?;
        Ok(())
    }

    // Adds an entry, or finds it.
    fn add_entry(&mut self, entry: &EntryView<'_>) -> Result<Added, AddFault>
        requires { IsEntry (entry_of entry.now) }
        ensures ok { IfOk result (λ added. AddsEntry (entry_of entry.now) self.old self.new added) }
        ensures err { OnErr result (self.new ≡ self.old) }
        ensures long { IsErrOf result AddFault.TooLong →
            ENTRY_MAX < length entry.now.octets.now }
    {
        if entry.octets.len() > ENTRY_MAX {
            return Err(AddFault::TooLong);
        }
        let Err(index) = self.find(entry) else {
            return Ok(Added::Held);
        };
        match self.insert(index, entry) {
            Ok(()) => Ok(Added::New),
            Err(AllocError) => Err(AddFault::Memory),
        }
    }

    /// Adds an entry, unless it is there already. A refusal changes nothing.
    pub fn add(&mut self, entry: &EntryView<'_>) -> Result<Added, AddFault>
        requires { IsEntry (entry_of entry.now) }
        ensures ok { IfOk result (λ added. AddsEntry (entry_of entry.now) self.old self.new added) }
        ensures err { OnErr result (self.new ≡ self.old) }
        ensures long { IsErrOf result AddFault.TooLong →
            ENTRY_MAX < length entry.now.octets.now }
        ensures archive { IsArchive ENTRY_MAX self.new }
    {
        let added = self.add_entry(entry);
        let _archive = self.len();
        added
    }

    /// Whether an entry is above all others.
    pub fn is_below(&self, entry: &EntryView<'_>) -> bool
        ensures { IsTrue result ↔ AllByRecursion (λ x. IsBelow x (entry_of entry.now)) self.now }
    {
        let len = self.len();
        if len == 0 {
            return true;
        }
        match compare(&self.at(len - 1), entry) {
            Ordering::Less => true,
            _ => false,
        }
    }

    /// Puts an entry behind the others. If an allocation fails, nothing changes.
    pub fn push(&mut self, entry: &EntryView<'_>) -> Result<(), AllocError>
        requires below { AllByRecursion (λ x. IsBelow x (entry_of entry.now)) self.old }
        requires entry { IsEntry (entry_of entry.now) }
        requires fits { length entry.now.octets.now ≤ ENTRY_MAX }
        ensures ok { OnOk result (self.new ≡ self.old ++ entry_of entry.now ∷ []) }
        ensures err { OnErr result (self.new ≡ self.old) }
    {
        let len = self.len();
        self.insert(len, entry)
    }
}
