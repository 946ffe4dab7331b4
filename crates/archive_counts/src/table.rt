//! A tally for each of the words under which entries are counted.

ghost use Rattle.archive_text.specs.EntryViews.{entry_of};

use crate::key::CountKey;
use crate::rows::Row;
use crate::tally::Tally;
use archive_text::EntryView;
use std::alloc::{AllocError, Global};
use std::collections::BTreeMap;

/// A tally for each of the words under which entries are counted.
#[derive(Drop)]
pub struct Table {
    rows: BTreeMap<Vec<u8>, Tally>,
    alloc: Global,
}

impl Table {
    ghost use Rattle.std.specs.Prelude.{[], IfOk, OnOk};
    ghost use Rattle.archive_counts.specs.Rows.{AreRowsOf};
    ghost use Rattle.archive_counts.specs.Tables.{AddsTo, IsTableOf};

    /// The table of no entries. Without keys it has one tally from the start.
    pub fn new(alloc: Global, keys: &[CountKey]) -> Result<Table, AllocError>
        ensures { IfOk result (λ table. IsTableOf keys.now table []) }
    {
        let mut rows = BTreeMap::new(alloc);
        if !keys.is_empty() {
            return Ok(Table { rows, alloc });
        }
        rows.insert(Vec::new(alloc), Tally::new())?;
        Ok(Table { rows, alloc })
    }

    /// Adds an entry, which stands behind the others in an archive, under its words.
    pub fn add(&mut self, words: &[u8], entry: &EntryView<'_>) -> Result<(), AllocError>
        ensures { OnOk result (AddsTo self.old self.new words.now (entry_of entry.now)) }
    {
        if let Some(tally) = self.rows.get_mut(words) {
            tally.add(entry);
            return Ok(());
        }
        let mut tally = Tally::new();
        tally.add(entry);
        self.rows
            .insert(Vec::from_slice(self.alloc, words)?, tally)?;
        Ok(())
    }

    /// The tallies and their words.
    pub fn into_rows(self) -> Result<Vec<Row>, AllocError>
        ensures { IfOk result (λ rows. AreRowsOf self rows.items) }
    {
        let Table { rows, alloc } = self;
        rows.into_iter()
            .map(|(words, tally)| Row { words, tally })
            .collect(alloc)
    }
}
