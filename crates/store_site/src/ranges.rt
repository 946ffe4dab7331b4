//! The places of a range of time.

ghost use Rattle.std.specs.Prelude.{◌≡◌, ◌↔◌, ◌⊎◌, ℤ, [], None, Some, true, IfOk, IfSome, OnOk};
ghost use Rattle.archive_text.specs.Entries.{Entry, IsEntry};
ghost use Rattle.archive_join.specs.Ranges.{IsOfRange};
ghost use Rattle.reconcile.specs.Ranges.{IsInside, IsProper};
ghost use Rattle.store_site.specs.Ranges.{AreAllProper, IsBetween, IsInSome, StartsAt};

use archive_sets::InRange;
use archive_text::EntryView;
use reconcile::{Place, Range};
use std::alloc::{AllocError, Global};
use syslog_value::Instant;

// The first instant of all, 0000-01-01T00:00:00Z.
const FIRST_MICROS: i64 = -62_167_219_200_000_000;

// The first place of an instant, or of none.
fn first_of(alloc: Global, instant: Option<Instant>) -> Result<Place, AllocError>
    ensures { IfOk result (λ place. place ≡ record { instant = instant; octets = [] }) }
{
    Place::of(
        alloc,
        &EntryView {
            instant,
            octets: b"".as_slice(),
        },
    )
}

// The range of records without a time.
fn undated_range(alloc: Global) -> Result<Range, AllocError>
    ensures proper { IfOk result IsProper }
    ensures places { IfOk result (λ range. (e : Entry) → IsEntry e
        → (IsInside range e ↔ (e.instant ≡ None))) }
{
    Ok(Range {
        low: Place::first(alloc),
        high: Some(first_of(alloc, Instant::from_micros(FIRST_MICROS))?),
    })
}

// The first place of an instant, if there is one.
fn bound_at(alloc: Global, instant: Option<Instant>) -> Result<Option<Place>, AllocError>
    ensures none { instant ≡ None → IfOk result (λ place. place ≡ None) }
    ensures some { IfSome instant (λ (i : ℤ). IfOk result (λ place.
        place ≡ Some (record { instant = Some i; octets = [] }))) }
{
    match instant {
        None => Ok(None),
        Some(_) => Ok(Some(first_of(alloc, instant)?)),
    }
}

// An instant, or the first of all.
fn or_first(from: Option<Instant>) -> Option<Instant>
    ensures { StartsAt from result }
{
    match from {
        Some(_) => from,
        None => Instant::from_micros(FIRST_MICROS),
    }
}

// The range of records with a time from one instant on and before another.
fn dated_range(
    alloc: Global,
    from: Option<Instant>,
    to: Option<Instant>,
) -> Result<Range, AllocError>
    ensures { IfOk result (λ range. (e : Entry) → IsEntry e
        → (IsInside range e ↔ IsBetween from to e.instant)) }
{
    let low = first_of(alloc, or_first(from))?;
    let high = bound_at(alloc, to)?;
    Ok(Range { low, high })
}

// Puts the range of records without a time behind no others, if they are meant.
fn push_undated(alloc: Global, ranges: &mut Vec<Range>, undated: bool) -> Result<(), AllocError>
    requires { ranges.old.items ≡ [] }
    ensures proper { OnOk result (AreAllProper ranges.new.items) }
    ensures places { OnOk result ((e : Entry) → IsEntry e
        → (IsInSome ranges.new.items e ↔ ((undated ≡ true) × (e.instant ≡ None)))) }
{
    if undated {
        let range = undated_range(alloc)?;
        ranges.push(range)?;
    }
    Ok(())
}

// Puts the range of records with a time from one instant on and before another behind others, unless it
// is empty.
fn push_dated(
    alloc: Global,
    ranges: &mut Vec<Range>,
    from: Option<Instant>,
    to: Option<Instant>,
) -> Result<(), AllocError>
    ensures proper { OnOk result (AreAllProper ranges.old.items → AreAllProper ranges.new.items) }
    ensures places { OnOk result ((e : Entry) → IsEntry e → (IsInSome ranges.new.items e
        ↔ (IsInSome ranges.old.items e ⊎ IsBetween from to e.instant))) }
{
    let range = dated_range(alloc, from, to)?;
    if range.is_proper() {
        ranges.push(range)?;
    }
    Ok(())
}

// The range of all places.
fn whole(alloc: Global) -> Range
    ensures proper { IsProper result }
    ensures places { (e : Entry) → IsInside result e }
{
    Range {
        low: Place::first(alloc),
        high: None,
    }
}

/// The ranges of places of the records in a range of time: none of them empty, in their order.
pub fn ranges_of(alloc: Global, range: &InRange) -> Result<Vec<Range>, AllocError>
    ensures proper { IfOk result (λ ranges. AreAllProper ranges.items) }
    ensures places { IfOk result (λ ranges. (e : Entry) → IsEntry e
        → (IsInSome ranges.items e ↔ IsOfRange range.now e)) }
{
    let mut ranges = Vec::new(alloc);
    if range.from.is_none() && range.to.is_none() {
        ranges.push(whole(alloc))?;
        return Ok(ranges);
    }
    push_undated(alloc, &mut ranges, range.undated)?;
    push_dated(alloc, &mut ranges, range.from, range.to)?;
    Ok(ranges)
}
