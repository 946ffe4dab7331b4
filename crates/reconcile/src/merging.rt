//! Ascending places are merged.

ghost use Rattle.std.specs.Prelude.{◌≡◌, ◌+◌, ◌<◌, ◌≤◌, ◌++◌, ◌∷◌, [], IfOk, MatchOption, OnErr, OnOk, length};
ghost use Rattle.std.specs.Vec.{vec_capacity, vec_len};
ghost use Rattle.archive_text.specs.Entries.{IsAscending};
ghost use Rattle.archive_text.specs.Text.{IsArchive};
ghost use Rattle.archive_text.specs.declared.limits.TheConstants.{ENTRY_MAX};
ghost use Rattle.reconcile.specs.Merging.{IsLastOrder, TakesLast};
ghost use Rattle.reconcile.specs.Unions.{IsJoined};

use crate::place::Place;
use archive_text::compare;
use std::alloc::{AllocError, Global};
use std::cmp::Ordering;

// Which of two ascending lists ends with the greater place: `Less`, where the second does.
fn compare_last(a: &[Place], b: &[Place]) -> Ordering
    requires a { IsAscending a.now }
    requires b { IsAscending b.now }
    ensures { IsLastOrder result a.now b.now }
{
    match a {
        [] => Ordering::Less,
        [.., x] => match b {
            [] => Ordering::Greater,
            [.., y] => compare(&x.view(), &y.view()),
        },
    }
}

// Takes the greatest place of two ascending lists from both.
fn pop_last(a: &mut Vec<Place>, b: &mut Vec<Place>) -> Option<Place>
    requires a { IsAscending a.old.items }
    requires b { IsAscending b.old.items }
    ensures { MatchOption result ((a.old.items ≡ []) × (b.old.items ≡ []))
        (TakesLast a.old.items b.old.items a.new.items b.new.items) }
{
    match compare_last(a.as_slice(), b.as_slice()) {
        Ordering::Less => b.pop(),
        Ordering::Greater => a.pop(),
        Ordering::Equal => {
            let _same = b.pop();
            a.pop()
        }
    }
}

// Puts a place behind others, for which there is room.
fn push_within(places: &mut Vec<Place>, place: Place)
    requires { vec_len places.old < vec_capacity places.old }
    ensures items { places.new.items ≡ places.old.items ++ place ∷ [] }
    ensures len { vec_len places.new ≡ vec_len places.old + 1 }
    ensures capacity { vec_capacity places.old ≤ vec_capacity places.new }
{
    match places.push(place) {
        Ok(()) => {}
        Err(_) => unreachable!(),
    }
}

/// Merges others into places. When out of memory these stay as they were.
pub fn merge(
    alloc: Global,
    places: &mut Vec<Place>,
    mut others: Vec<Place>,
) -> Result<(), AllocError>
    requires places { IsArchive ENTRY_MAX places.old.items }
    requires others { IsArchive ENTRY_MAX others.items }
    ensures ok { OnOk result (IsJoined places.old.items others.items places.new.items) }
    ensures err { OnErr result (places.new.items ≡ places.old.items) }
{
    let Some(size) = places.len().checked_add(others.len()) else {
        return Err(AllocError);
    };
    let mut whole = Vec::with_capacity(alloc, size)?;
    'merging: while let Some(place) = pop_last(places, &mut others) {
        push_within(&mut whole, place);
    }
    whole.reverse();
    *places = whole;
    Ok(())
}

/// Copies of places.
pub fn copies_of(alloc: Global, places: &[Place]) -> Result<Vec<Place>, AllocError>
    ensures { IfOk result (λ copies. copies.items ≡ places.now) }
{
    let mut copies = Vec::with_capacity(alloc, places.len())?;
    'copying: for place in places {
        copies.push(place.copy(alloc)?)?;
    }
    Ok(copies)
}
