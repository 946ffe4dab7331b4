//! Which files come first.
ghost use Rattle.std.specs.Prelude.{◌≡◌, ◌↔◌, ◌+◌, ◌++◌, ◌∷◌, ◌<◌, [], Contains, IfOk, IsTrue, List, OnOk};
ghost use Rattle.std.specs.Prelude.{false, length, slice_index_or, take, ℕ};
ghost use Rattle.std.specs.List.Sorted.{IsSortedBy};
ghost use Rattle.store_reading.specs.Order.{compare_periods, is_period_below};
ghost use Rattle.store_expiry.specs.Lines.{AreApart};
ghost use Rattle.store_expiry.specs.Turns.{AreOnce, ArePartedIn};

use disk::FileName;
use std::alloc::{AllocError, Global};
use std::cmp::Ordering;
use store_reading::segment_day;

// Which of two names comes first: the shorter one, as that of a segment without a day.
pub fn compare(one: &[u8], other: &[u8]) -> Ordering
    ensures { result ≡ compare_periods one.now other.now }
{
    one.len().cmp(&other.len()).then(one.cmp(other))
}

// Copies names behind others.
fn put_behind(
    alloc: Global,
    names: &[FileName],
    front: &mut Vec<FileName>,
) -> Result<(), AllocError>
    ensures { OnOk result (front.new.items ≡ front.old.items ++ names.now) }
{
    'names: for name in names {
        front.push(name.copy(alloc)?)?;
    }
    Ok(())
}

// Copies of names, in their order.
fn in_order(alloc: Global, names: &[FileName]) -> Result<Vec<FileName>, AllocError>
    ensures order { IfOk result (λ sorted. IsSortedBy is_period_below sorted.items) }
    ensures all { IfOk result (λ sorted. (name : List ℕ) → Contains names.now name
        → Contains sorted.items name) }
{
    let mut sorted = Vec::new(alloc);
    put_behind(alloc, names, &mut sorted)?;
    sorted.sort_by(|one, other| compare(one.as_octets(), other.as_octets()))?;
    Ok(sorted)
}

// Whether two names are the same.
fn is_same(one: &FileName, other: &FileName) -> bool
    ensures { IsTrue result ↔ (one.now ≡ other.now) }
{
    one.as_octets() == other.as_octets()
}

// Whether a name of a list is the same as the one before it.
fn is_repeated(names: &[FileName], at: usize) -> bool
    requires { at < length names.now }
    ensures same { IsTrue result
        → Contains (take at names.now) (slice_index_or names.now at []) }
    ensures other { result ≡ false → IsSortedBy is_period_below names.now
        → ¬ (Contains (take at names.now) (slice_index_or names.now at [])) }
{
    if at == 0 {
        return false;
    }
    is_same(&names[at - 1], &names[at])
}

// Copies a name of a list behind others, unless it is the same as the one before it.
fn put_once(
    alloc: Global,
    names: &[FileName],
    at: usize,
    each: &mut Vec<FileName>,
) -> Result<(), AllocError>
    requires { at < length names.now }
    ensures { OnOk result (IsSortedBy is_period_below names.now
        → AreOnce (take at names.now) each.old.items
        → AreOnce (take (at + 1) names.now) each.new.items) }
{
    if is_repeated(names, at) {
        return Ok(());
    }
    each.push(names[at].copy(alloc)?)?;
    Ok(())
}

// Copies of names in their order, each of them once.
fn once(alloc: Global, names: &[FileName]) -> Result<Vec<FileName>, AllocError>
    ensures { IfOk result (λ each. IsSortedBy is_period_below names.now → AreOnce names.now each.items) }
{
    let mut each = Vec::new(alloc);
    'names: for at in 0..names.len() {
        put_once(alloc, names, at, &mut each)?;
    }
    Ok(each)
}

// Puts a name behind those of the segments of days, or behind the others.
fn put(
    name: FileName,
    is_day: bool,
    days: &mut Vec<FileName>,
    others: &mut Vec<FileName>,
) -> Result<(), AllocError>
    ensures { OnOk result ((names : List (List ℕ)) → ¬ (Contains names name)
        → ArePartedIn names days.old.items others.old.items
        → ArePartedIn (names ++ name ∷ []) days.new.items others.new.items) }
{
    if is_day {
        days.push(name)?;
        return Ok(());
    }
    others.push(name)?;
    Ok(())
}

// Copies names, each of which is there once: those of the segments of days, and the others.
fn sort_out(
    alloc: Global,
    names: &[FileName],
    days: &mut Vec<FileName>,
    others: &mut Vec<FileName>,
) -> Result<(), AllocError>
    ensures { OnOk result (AreApart names.now → ArePartedIn [] days.old.items others.old.items
        → ArePartedIn names.now days.new.items others.new.items) }
{
    'names: for name in names {
        let is_day = segment_day(name.as_octets()).is_some();
        put(name.copy(alloc)?, is_day, days, others)?;
    }
    Ok(())
}

/// Each of these names once: undated segments, those of days in their order, and then the others. So days
/// that go whole make room for what is left of mixed segments. It fails only when out of memory.
pub fn days_first(alloc: Global, names: &[FileName]) -> Result<Vec<FileName>, AllocError>
    ensures all { IfOk result (λ turns. (name : List ℕ) → Contains names.now name
        → Contains turns.items name) }
    ensures apart { IfOk result (λ turns. AreApart turns.items) }
{
    let sorted = in_order(alloc, names)?;
    let each = once(alloc, &sorted)?;
    let mut days = Vec::new(alloc);
    let mut others = Vec::new(alloc);
    sort_out(alloc, &each, &mut days, &mut others)?;
    put_behind(alloc, &others, &mut days)?;
    Ok(days)
}
