//! Names in an order in which the segments of a period stand side by side.
ghost use Rattle.std.specs.Prelude.{◌≡◌, ◌↔◌, Contains, IfOk, List, not, ℕ};
ghost use Rattle.store_reading.specs.Days.{IsDayBelow};
ghost use Rattle.store_reading.specs.Order.{AreInOrder, compare_periods, is_period_below, period_of};
ghost use Rattle.record_store.specs.Names.{IsSegment};

use disk::FileName;
use std::alloc::AllocError;
use std::cmp::Ordering;
use std::marker::Model;

// the octets of a segment's name behind its period: a dot, 64 digits and `.archive`
const BEHIND_PERIOD: usize = 73;

// What stands in a name where a segment has its period.
fn period_in(name: &FileName) -> &[u8]
    ensures { result.now ≡ period_of name.now }
{
    let octets = name.as_octets();
    &octets[..octets.len().saturating_sub(BEHIND_PERIOD)]
}

// Which of two periods comes first.
fn compare(one: &[u8], other: &[u8]) -> Ordering
    ensures { result ≡ compare_periods one.now other.now }
{
    one.len().cmp(&other.len()).then(one.cmp(other))
}

// Whether a name stands before those of a period.
fn is_before(name: &FileName, period: &[u8]) -> bool
    ensures { result ≡ is_period_below (period_of name.now) period.now }
{
    compare(period_in(name), period).is_lt()
}

// Whether a name stands behind those of a period.
fn is_behind(name: &FileName, period: &[u8]) -> bool
    ensures { result ≡ is_period_below period.now (period_of name.now) }
{
    compare(period, period_in(name)).is_lt()
}

// The names that do not stand before those of a period.
fn from_period<'a>(names: &'a [FileName], period: &[u8]) -> &'a [FileName]
    requires order { AreInOrder names.now }
    ensures order { AreInOrder result.now }
    ensures within { (name : List ℕ) → Contains result.now name → Contains names.now name }
    ensures all { (name : List ℕ) → Contains names.now name
        → ¬ (IsDayBelow (period_of name) period.now)
        → Contains result.now name }
{
    let at = names.partition_point(|name| is_before(name, period));
    names.split_at(at).1
}

// The names up to those of a period, and those that stand behind.
fn part_behind<'a>(names: &'a [FileName], period: &[u8]) -> (&'a [FileName], &'a [FileName])
    requires order { AreInOrder names.now }
    ensures order { AreInOrder result.1.now }
    ensures front { (name : List ℕ) → Contains result.0.now name → Contains names.now name }
    ensures back { (name : List ℕ) → Contains result.1.now name → Contains names.now name
        × IsDayBelow period.now (period_of name) }
    ensures up_to { (name : List ℕ) → Contains names.now name
        → ¬ (IsDayBelow period.now (period_of name))
        → Contains result.0.now name }
    ensures behind { (name : List ℕ) → Contains names.now name
        → IsDayBelow period.now (period_of name)
        → Contains result.1.now name }
{
    let at = names.partition_point(|name| !is_behind(name, period));
    names.split_at(at)
}

/// The names of files. Those of the segments of a period stand side by side, and the periods in
/// their order.
#[derive(Debug, Drop)]
pub struct Names {
    names: Vec<FileName>,
}

impl Model for Names {
    ghost use Rattle.std.specs.Prelude.{ℕ, List};
    ghost use Rattle.store_reading.specs.Order.{AreInOrder};

    ghost Value = { List (List ℕ) };

    ghost view = { λ n. n.names.items };

    ghost invariant = { λ n. AreInOrder n.names.items };
}

impl Names {
    /// These names, in their order.
    pub fn new(mut names: Vec<FileName>) -> Result<Names, AllocError>
        ensures { IfOk result (λ ordered. (name : List ℕ) → Contains ordered name
            ↔ Contains names.items name) }
    {
        names.sort_by(|one, other| compare(period_in(one), period_in(other)))?;
        Ok(Names { names })
    }

    /// All of them.
    pub fn as_slice(&self) -> &[FileName]
        ensures names { result.now ≡ self.now }
        ensures order { AreInOrder result.now }
    {
        &self.names
    }

    /// Those that may be segments of a period: all that are, and few others.
    pub fn of(&self, period: &[u8]) -> &[FileName]
        ensures within { (name : List ℕ) → Contains result.now name → Contains self.now name }
        ensures all { (name : List ℕ) → Contains self.now name → IsSegment period.now name
            → Contains result.now name }
    {
        part_behind(from_period(self.as_slice(), period), period).0
    }

    /// Those that stand behind the segments of a period.
    pub(crate) fn behind(&self, period: &[u8]) -> &[FileName]
        ensures order { AreInOrder result.now }
        ensures within { (name : List ℕ) → Contains result.now name → Contains self.now name
            × IsDayBelow period.now (period_of name) }
        ensures all { (name : List ℕ) → Contains self.now name
            → IsDayBelow period.now (period_of name)
            → Contains result.now name }
    {
        part_behind(self.as_slice(), period).1
    }
}
