//! Names are put in order.
ghost use Rattle.std.specs.Prelude.{◌≡◌, ◌↔◌, Contains, List, ℕ};
ghost use Rattle.std.specs.Cmp.Lexicographic.{slice_cmp};
ghost use Rattle.std.specs.List.{dedup};
ghost use Rattle.std.specs.List.Sorted.{IsPermutation, IsSorted, IsStrictlySortedBy};
ghost use Rattle.std.specs.Ordering.{eq_by_cmp, nat_cmp};

use disk::FileName;
use std::cmp::Ordering;

fn compare(one: &FileName, other: &FileName) -> Ordering
    ensures { result ≡ slice_cmp nat_cmp one.now other.now }
{
    one.as_octets().cmp(other.as_octets())
}

fn are_same(one: &FileName, other: &FileName) -> bool
    ensures { result ≡ eq_by_cmp (slice_cmp nat_cmp) one.now other.now }
{
    compare(one, other) == Ordering::Equal
}

// Sorts names by their octets.
fn sort(names: &mut Vec<FileName>)
    ensures moved { IsPermutation names.old.items names.new.items }
    ensures sorted { IsSorted (slice_cmp nat_cmp) names.new.items }
{
    names.sort_unstable_by(|one, other| compare(one, other));
}

// Leaves the first of names in a row that are the same.
fn drop_repeats(names: &mut Vec<FileName>)
    ensures { names.new.items ≡ dedup (eq_by_cmp (slice_cmp nat_cmp)) names.old.items }
{
    names.dedup_by(|one, other| are_same(one, other));
}

/// Puts names in the order of their octets, each once.
pub fn settle(names: &mut Vec<FileName>)
    ensures order { IsStrictlySortedBy (slice_cmp nat_cmp) names.new.items }
    ensures same { (name : List ℕ) → Contains names.new.items name ↔ Contains names.old.items name }
{
    sort(names);
    drop_repeats(names);
}
