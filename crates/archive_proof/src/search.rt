//! Where the place of a record is, among the entries that came.

ghost use Rattle.std.specs.Prelude.{◌≡◌, [], ◌∷◌, ◌++◌, List, OnOk, length};
ghost use Rattle.archive_text.specs.Entries.{Entry};
ghost use Rattle.archive_text.specs.EntryViews.{entry_of};
ghost use Rattle.archive_tree.specs.Archives.{texts_of};
ghost use Rattle.archive_tree.specs.Trees.{HasTaken};
ghost use Rattle.archive_tree.specs.declared.stream.TreeStream.{TreeStream};
ghost use Rattle.archive_proof.specs.Asking.{asked_entry};
ghost use Rattle.archive_proof.specs.Proving.{ArePlaced, IsFresh, IsPlaced};

use crate::asked::AskedRecord;
use archive_text::{EntryView, compare};
use archive_tree::AuditPath;
use std::alloc::{AllocError, Global};
use std::cmp::Ordering;

/// Where the place of a record is, as far as entries came.
#[derive(Clone, Copy, Debug, PartialEq, Eq)]
pub enum Place {
    /// Behind all of them.
    Ahead,
    /// It is one of them.
    Found,
    /// Before one of them, and it is none.
    Passed,
}

/// The search for the place of a record.
#[derive(Drop)]
pub struct Search {
    /// Where the place of the record is.
    pub place: Place,
    /// The octets of the entry right before the place.
    pub before: Vec<u8>,
    /// The octets of the entry right behind the place.
    pub behind: Vec<u8>,
}

// Keeps octets in place of those that were kept.
fn keep(kept: &mut Vec<u8>, octets: &[u8]) -> Result<(), AllocError>
    ensures { OnOk result (kept.new.items ≡ octets.now) }
{
    kept.clear();
    kept.extend_from_slice(octets)
}

impl Search {
    // A search before the first entry.
    pub(crate) fn new(alloc: Global) -> Search
        ensures { IsFresh result }
    {
        Search {
            place: Place::Ahead,
            before: Vec::new(alloc),
            behind: Vec::new(alloc),
        }
    }

    // Compares the next entry, behind so many others, with the record, of which the place is ahead so far.
    fn seek(
        &mut self,
        sought: &AskedRecord,
        entry: &EntryView<'_>,
        index: u64,
        before: &mut AuditPath,
        behind: &mut AuditPath,
    ) -> Result<(), AllocError>
        ensures { OnOk result ((t : TreeStream) (xs : List Entry) → HasTaken t (texts_of xs)
            → t.count ≡ index → self.old.place ≡ Place.Ahead
            → IsPlaced self.old.place (asked_entry sought.now) t self.old before.old behind.old xs xs
            → IsPlaced self.new.place (asked_entry sought.now) t self.new before.new behind.new
            (xs ++ entry_of entry.now ∷ []) xs) }
    {
        let path = AuditPath::new(index);
        match compare(entry, &sought.entry()) {
            Ordering::Less => {
                keep(&mut self.before, entry.octets)?;
                *before = path;
                Ok(())
            }
            Ordering::Equal => {
                *before = path;
                self.place = Place::Found;
                Ok(())
            }
            Ordering::Greater => {
                keep(&mut self.behind, entry.octets)?;
                *behind = path;
                self.place = Place::Passed;
                Ok(())
            }
        }
    }

    // Looks at the next entry, behind so many others.
    fn look(
        &mut self,
        sought: &AskedRecord,
        entry: &EntryView<'_>,
        index: u64,
        before: &mut AuditPath,
        behind: &mut AuditPath,
    ) -> Result<(), AllocError>
        ensures { OnOk result ((t : TreeStream) (xs : List Entry) → HasTaken t (texts_of xs)
            → t.count ≡ index
            → IsPlaced self.old.place (asked_entry sought.now) t self.old before.old behind.old xs xs
            → IsPlaced self.new.place (asked_entry sought.now) t self.new before.new behind.new
            (xs ++ entry_of entry.now ∷ []) xs) }
    {
        match self.place {
            Place::Ahead => self.seek(sought, entry, index, before, behind),
            _ => Ok(()),
        }
    }
}

/// Looks at the next entry, behind so many others, before it comes into the tree. Each search has
/// two paths: that of the entry right before the place, or of the record's own, and that of the
/// entry right behind it.
pub(crate) fn look_all(
    asked: &[AskedRecord],
    searches: &mut [Search],
    paths: &mut [AuditPath],
    entry: &EntryView<'_>,
    index: u64,
) -> Result<(), AllocError>
    ensures { OnOk result ((t : TreeStream) (xs : List Entry) → HasTaken t (texts_of xs)
        → t.count ≡ index
        → ArePlaced t xs xs asked.now searches.old paths.old
        → ArePlaced t (xs ++ entry_of entry.now ∷ []) xs asked.now searches.new paths.new) }
{
    let Some((sought, asked)) = asked.split_first() else {
        return Ok(());
    };
    let Some((search, searches)) = searches.split_first_mut() else {
        return Ok(());
    };
    let Some((before, paths)) = paths.split_first_mut() else {
        return Ok(());
    };
    let Some((behind, paths)) = paths.split_first_mut() else {
        return Ok(());
    };
    search.look(sought, entry, index, before, behind)?;
    look_all(asked, searches, paths, entry, index)
}
