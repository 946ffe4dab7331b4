//! Records are read from the text of their archive.

ghost use Rattle.std.specs.Prelude.{◌≡◌, ◌↔◌, ◌++◌, ◌∷◌, [], IfErr, IfOk, IsTrue, OnErr};
ghost use Rattle.std.specs.List.{AllByRecursion};
ghost use Rattle.archive_text.specs.Entries.{Entry, IsAscending, IsBelow};
ghost use Rattle.archive_text.specs.EntryViews.{entry_of};
ghost use Rattle.archive_text.specs.Text.{IsArchive, entry_text, text_of};
ghost use Rattle.archive_text.specs.declared.limits.TheConstants.{ENTRY_MAX};
ghost use Rattle.reconcile.specs.Texts.{IsReadingFault, IsTextFault};

use crate::place::Place;
use crate::records::Records;
use crate::stopped::Stopped;
use archive_text::{ENTRY_MAX, EntryView, compare, read_entry};
use std::alloc::Global;
use std::cmp::Ordering;

// Whether an entry is above all of some ascending places.
fn is_above(places: &[Place], entry: &EntryView<'_>) -> bool
    ensures { IsAscending places.now → (IsTrue result
        ↔ AllByRecursion (λ x. IsBelow x (entry_of entry.now)) places.now) }
{
    match places {
        [] => true,
        [.., last] => match compare(&last.view(), entry) {
            Ordering::Less => true,
            _ => false,
        },
    }
}

/// Puts the entry that a text begins with behind others, and gives what follows it.
pub fn push_read<'a>(
    alloc: Global,
    places: &mut Vec<Place>,
    text: &'a [u8],
) -> Result<&'a [u8], Stopped>
    requires { IsArchive ENTRY_MAX places.old.items }
    ensures archive { IsArchive ENTRY_MAX places.new.items }
    ensures ok { IfOk result (λ rest. (e : Entry) × (text.now ≡ entry_text e ++ rest.now)
        × (places.new.items ≡ places.old.items ++ e ∷ [])) }
    ensures err { OnErr result (places.new.items ≡ places.old.items) }
    ensures cause { IfErr result (IsReadingFault (text_of places.old.items) text.now) }
{
    let Ok((entry, rest)) = read_entry(ENTRY_MAX as u64, text) else {
        return Err(Stopped::Lied);
    };
    if !is_above(places.as_slice(), &entry) {
        return Err(Stopped::Lied);
    }
    let place = Place::of(alloc, &entry)?;
    places.push(place)?;
    Ok(rest)
}

/// Reads records from the text of their archive.
///
/// # Errors
/// `Lied`: it is no archive; `Memory`.
pub fn read_records(alloc: Global, text: &[u8]) -> Result<Records, Stopped>
    ensures ok { IfOk result (λ records. text.now ≡ text_of records) }
    ensures err { IfErr result (IsTextFault text.now) }
{
    let mut places = Vec::new(alloc);
    let mut rest = text;
    'reading: while !rest.is_empty() {
        rest = push_read(alloc, &mut places, rest)?;
    }
    Ok(Records::of(places))
}
