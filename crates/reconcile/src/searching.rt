//! Places are sought among ascending ones, and inserted.

ghost use Rattle.std.specs.Prelude.{◌≡◌, ◌↔◌, ◌≤◌, ◌∷◌, [], IsTrue, drop, length, take};
ghost use Rattle.std.specs.List.{AllByRecursion};
ghost use Rattle.archive_text.specs.Entries.{Has, IsAscending, IsBelow, IsEntry};
ghost use Rattle.archive_text.specs.Text.{IsArchive};
ghost use Rattle.archive_text.specs.declared.limits.TheConstants.{ENTRY_MAX};
ghost use Rattle.reconcile.specs.Unions.{Joins};

use crate::place::Place;
use crate::stopped::SetFault;
use std::alloc::Global;

/// How many of ascending places are below one.
pub fn count_below(places: &[Place], place: &Place) -> usize
    requires { IsAscending places.now }
    ensures within { result ≤ length places.now }
    ensures below { AllByRecursion (λ x. IsBelow x place.now) (take result places.now) }
    ensures above { AllByRecursion (λ x. ¬ (IsBelow x place.now)) (drop result places.now) }
{
    let mut low = 0;
    let mut high = places.len();
    'halving: while low < high {
        let middle = low + (high - low) / 2;
        let entry = &places[middle];
        if entry.is_below(place) {
            low = middle + 1;
        } else {
            high = middle;
        }
    }
    low
}

// Whether the first of some places is this one.
fn begins_with(places: &[Place], place: &Place) -> bool
    ensures held { IsTrue result → Has places.now place.now }
    ensures none { IsAscending places.now → AllByRecursion (λ x. ¬ (IsBelow x place.now)) places.now
        → Has places.now place.now → IsTrue result }
{
    match places {
        [] => false,
        [first, ..] => first.is(place),
    }
}

/// Whether a place is one of ascending ones.
pub fn has_place(places: &[Place], place: &Place) -> bool
    requires { IsAscending places.now }
    ensures { IsTrue result ↔ Has places.now place.now }
{
    let (_, rest) = places.split_at(count_below(places, place));
    begins_with(rest, place)
}

/// Inserts an entry, unless it is there.
pub fn insert_place(alloc: Global, places: &mut Vec<Place>, place: &Place) -> Result<(), SetFault>
    requires archive { IsArchive ENTRY_MAX places.old.items }
    requires entry { IsEntry place.now }
    requires fits { length place.now.octets ≤ ENTRY_MAX }
    ensures { Joins places.old.items (place.now ∷ []) places.new.items result }
{
    let at = count_below(places.as_slice(), place);
    let (_, rest) = places.as_slice().split_at(at);
    if begins_with(rest, place) {
        return Ok(());
    }
    let copy = place.copy(alloc)?;
    places.insert(at, copy)?;
    Ok(())
}
