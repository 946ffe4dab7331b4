//! A set in memory.

ghost use Rattle.std.specs.Prelude.{◌≡◌, ◌↔◌, ◌∷◌, [], IfOk, IsTrue, OnErr, length};
ghost use Rattle.archive_text.specs.Entries.{Entry, Has, IsAscending, IsEntry};
ghost use Rattle.archive_text.specs.Text.{IsArchive};
ghost use Rattle.archive_text.specs.declared.limits.TheConstants.{ENTRY_MAX};
ghost use Rattle.archive_laws.specs.Props.{archive_prop};
ghost use Rattle.reconcile.specs.Ascending.{DoAscend};
ghost use Rattle.reconcile.specs.Ranges.{AreThose, Covers, IsInside};
ghost use Rattle.reconcile.specs.Unions.{IsJoined, Joins};

use crate::ascending::do_ascend;
use crate::checking::is_covered;
use crate::cutting::parts_of;
use crate::merging::{copies_of, merge};
use crate::part::Part;
use crate::place::Place;
use crate::range::Range;
use crate::ranged_set::RangedSet;
use crate::records::Records;
use crate::searching::{count_below, has_place, insert_place};
use crate::stopped::SetFault;
use crate::sum::Sum;
use crate::summing::sum_of;
use archive_text::{ENTRY_MAX, entry_of_octets};
use std::alloc::Global;

/// A set of records in memory.
#[derive(Drop)]
pub struct MemorySet {
    alloc: Global,
    places: Vec<Place>,
    ghost archive: { IsArchive ENTRY_MAX places.items } by { archive_prop ENTRY_MAX places.items },
}

// The entries of a set in a range.
fn entries_in<'a>(places: &'a [Place], range: &Range) -> &'a [Place]
    requires { IsAscending places.now }
    ensures { AreThose (IsInside range.now) places.now result.now }
{
    let (_, rest) = places.split_at(count_below(places, &range.low));
    match &range.high {
        None => rest,
        Some(high) => {
            let (front, _) = rest.split_at(count_below(rest, high));
            front
        }
    }
}

// Those of some entries that are not among others.
fn missing(alloc: Global, entries: &[Place], others: &[Place]) -> Result<Vec<Place>, SetFault>
    requires entries { IsAscending entries.now }
    requires others { IsAscending others.now }
    ensures { IfOk result (λ those. AreThose (λ x. ¬ (Has others.now x)) entries.now those.items) }
{
    let mut those = Vec::new(alloc);
    'entries: for entry in entries {
        if has_place(others, entry) {
            continue;
        }
        those.push(entry.copy(alloc)?)?;
    }
    Ok(those)
}

// Whether a place is in the range of one of the parts, and not among others.
fn is_lacking(place: &Place, parts: &[Part], others: &[Place]) -> bool
    requires { IsAscending others.now }
    ensures { IsTrue result ↔ (Covers parts.now place.now × ¬ (Has others.now place.now)) }
{
    is_covered(place, parts) && !has_place(others, place)
}

// Those entries of a set that are in the ranges of some parts, and not among others. Each entry is
// looked at for each part.
fn lacking_one_by_one(
    alloc: Global,
    places: &[Place],
    parts: &[Part],
    others: &[Place],
) -> Result<Vec<Place>, SetFault>
    requires places { IsAscending places.now }
    requires others { IsAscending others.now }
    ensures { IfOk result (λ those. AreThose (λ x. Covers parts.now x × ¬ (Has others.now x))
        places.now those.items) }
{
    let mut those = Vec::new(alloc);
    'places: for place in places {
        if !is_lacking(place, parts, others) {
            continue;
        }
        those.push(place.copy(alloc)?)?;
    }
    Ok(those)
}

// The same, where the parts ascend. Each is sought, and only the entries in its range are looked at.
fn lacking_part_by_part(
    alloc: Global,
    places: &[Place],
    parts: &[Part],
    others: &[Place],
) -> Result<Vec<Place>, SetFault>
    requires places { IsAscending places.now }
    requires others { IsAscending others.now }
    requires parts { DoAscend parts.now }
    ensures { IfOk result (λ those. AreThose (λ x. Covers parts.now x × ¬ (Has others.now x))
        places.now those.items) }
{
    let mut those = Vec::new(alloc);
    'parts: for part in parts {
        let mut more = missing(alloc, entries_in(places, &part.range), others)?;
        those.append(&mut more)?;
    }
    Ok(those)
}

// The same. Where the parts ascend, as they do between two sites, the work is a search for each
// part and one for each entry in their ranges; else it is the number of entries times that of parts.
fn lacking(
    alloc: Global,
    places: &[Place],
    parts: &[Part],
    others: &[Place],
) -> Result<Vec<Place>, SetFault>
    requires places { IsAscending places.now }
    requires others { IsAscending others.now }
    ensures { IfOk result (λ those. AreThose (λ x. Covers parts.now x × ¬ (Has others.now x))
        places.now those.items) }
{
    if do_ascend(parts) {
        return lacking_part_by_part(alloc, places, parts, others);
    }
    lacking_one_by_one(alloc, places, parts, others)
}

impl MemorySet {
    /// A set without records.
    pub fn new(alloc: Global) -> MemorySet
        ensures { ⟦<MemorySet as RangedSet>⟧.entries result ≡ [] }
    {
        MemorySet {
            alloc,
            places: Vec::new(alloc),
        }
    }

    /// The set of some records.
    pub fn of(alloc: Global, records: Records) -> MemorySet
        ensures { ⟦<MemorySet as RangedSet>⟧.entries result ≡ records }
    {
        MemorySet {
            alloc,
            places: records.into_entries(),
        }
    }

    /// Adds the record of which these are the canonical octets.
    ///
    /// # Errors
    /// `Failed`: they are the canonical form of no record, or more than `ENTRY_MAX`; `Memory`.
    pub fn insert(&mut self, octets: &[u8]) -> Result<(), SetFault>
        ensures { IfOk result (λ _. (e : Entry) × IsEntry e × (e.octets ≡ octets.now)
            × IsJoined (⟦<MemorySet as RangedSet>⟧.entries self.old) (e ∷ [])
            (⟦<MemorySet as RangedSet>⟧.entries self.new)) }
    {
        let Ok(entry) = entry_of_octets(octets) else {
            return Err(SetFault::Failed);
        };
        if octets.len() > ENTRY_MAX {
            return Err(SetFault::Failed);
        }
        let place = Place::of(self.alloc, &entry)?;
        insert_place(self.alloc, &mut self.places, &place)
    }

    /// Those of some records that the set does not have. It fails only when out of memory.
    pub fn missing(&self, records: &Records) -> Result<Records, SetFault>
        ensures { IfOk result (AreThose (λ x.
            ¬ (Has (⟦<MemorySet as RangedSet>⟧.entries self.now) x)) records.now) }
    {
        let those = missing(self.alloc, records.entries(), self.places.as_slice())?;
        Ok(Records::of(those))
    }

    /// The canonical octets of the record at an index; None behind the last.
    pub fn get(&self, index: usize) -> Option<&[u8]> {
        self.places.get(index).map(|place| place.view().octets)
    }

    /// How many records there are.
    pub fn len(&self) -> usize
        ensures { result ≡ length (⟦<MemorySet as RangedSet>⟧.entries self.now) }
    {
        self.places.len()
    }
}

impl RangedSet for MemorySet {
    ghost entries = { λ s. s.places.items };

    fn sum(&mut self, range: &Range) -> Result<Sum, SetFault> {
        sum_of(entries_in(self.places.as_slice(), range))
    }

    fn parts(&mut self, range: &Range, most: u64) -> Result<Vec<Part>, SetFault> {
        let entries = entries_in(self.places.as_slice(), range);
        parts_of(self.alloc, entries, range, most)
    }

    fn within(&mut self, parts: &[Part]) -> Result<Records, SetFault> {
        let none = Records::new(self.alloc);
        self.lacking(parts, &none)
    }

    fn lacking(&mut self, parts: &[Part], got: &Records) -> Result<Records, SetFault> {
        let those = lacking(self.alloc, self.places.as_slice(), parts, got.entries())?;
        Ok(Records::of(those))
    }

    // after a fault the set is as it was
    fn add(&mut self, records: &Records) -> Result<(), SetFault>
        ensures joins { Joins self.old.places.items records.now self.new.places.items result }
        ensures err { OnErr result (self.new.places.items ≡ self.old.places.items) }
    {
        let others = copies_of(self.alloc, records.entries())?;
        merge(self.alloc, &mut self.places, others)?;
        Ok(())
    }

    ghost archive = { λ s. s.archive };
}
