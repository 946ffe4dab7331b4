//! What a proof shows.

ghost use Rattle.std.specs.Prelude.{◌≡◌, ◌↔◌, ◌⊎◌, ℕ, ◌+◌, List, IsTrue, length};
ghost use Rattle.archive_text.specs.Entries.{Entry, Has, IsBelow, IsEntry};
ghost use Rattle.archive_text.specs.EntryViews.{entry_of};
ghost use Rattle.archive_text.specs.Text.{IsArchive};
ghost use Rattle.archive_tree.specs.Archives.{IsRootOf};
ghost use Rattle.archive_proof.specs.Showing.{Collides, Leads, Parts, ShowsAbsent, ShowsPresent, StandsBefore};
ghost use Rattle.archive_proof.specs.Showing.{StandsBehind};

use crate::climb::climb_from;
use crate::proof::{Answer, Neighbour, Proof};
use archive_text::{EntryView, compare, entry_of_octets};
use archive_tree::{AuditPath, TreeHead, hash_leaf, hash_nothing};
use std::cmp::Ordering;

// Whether the path leads from an entry of these octets to the root.
fn leads(head: &TreeHead, octets: &[u8], path: &AuditPath) -> bool
    ensures { IsTrue result ↔ Leads head.now octets.now path.now }
{
    if path.index >= head.size {
        return false;
    }
    match climb_from(
        64,
        head.size,
        path.index,
        &hash_leaf(octets),
        path.hashes.as_slice(),
    ) {
        None => false,
        Some(found) => found == head.hash,
    }
}

fn is_below(entry: &EntryView<'_>, other: &EntryView<'_>) -> bool
    ensures { IsTrue result ↔ IsBelow (entry_of entry.now) (entry_of other.now) }
{
    match compare(entry, other) {
        Ordering::Less => true,
        _ => false,
    }
}

// Whether the neighbour is an entry of the tree that comes before this one.
fn stands_before(head: &TreeHead, neighbour: &Neighbour, entry: &EntryView<'_>) -> bool
    ensures { IsTrue result ↔ StandsBefore head.now neighbour.now (entry_of entry.now) }
{
    match entry_of_octets(neighbour.octets.as_slice()) {
        Ok(own) => is_below(&own, entry) && leads(head, own.octets, &neighbour.path),
        Err(_) => false,
    }
}

// Whether the neighbour is an entry of the tree that comes behind this one.
fn stands_behind(head: &TreeHead, neighbour: &Neighbour, entry: &EntryView<'_>) -> bool
    ensures { IsTrue result ↔ StandsBehind head.now neighbour.now (entry_of entry.now) }
{
    match entry_of_octets(neighbour.octets.as_slice()) {
        Ok(own) => is_below(entry, &own) && leads(head, own.octets, &neighbour.path),
        Err(_) => false,
    }
}

// Whether an index comes right before the other.
fn is_next(index: u64, next: u64) -> bool
    ensures { IsTrue result ↔ (index + 1 ≡ next) }
{
    index < next && next - index == 1
}

// Whether the neighbours leave no room for the entry.
fn parts(
    head: &TreeHead,
    entry: &EntryView<'_>,
    before: &Option<Neighbour>,
    behind: &Option<Neighbour>,
) -> bool
    ensures { IsTrue result ↔ Parts head.now (entry_of entry.now) before.now behind.now }
{
    match (before, behind) {
        (None, None) => head.size == 0 && head.hash == hash_nothing(),
        (None, Some(first)) => first.path.index == 0 && stands_behind(head, first, entry),
        (Some(last), None) => {
            is_next(last.path.index, head.size) && stands_before(head, last, entry)
        }
        (Some(last), Some(next)) => {
            is_next(last.path.index, next.path.index)
                && stands_before(head, last, entry)
                && stands_behind(head, next, entry)
        }
    }
}

/// What a proof shows of an entry, to someone who has the head of an archive's tree: how many
/// entries there are, and their Merkle tree hash (RFC 9162, section 2.1.1). It is answered for every
/// proof, however it was made.
pub fn confirm(head: &TreeHead, entry: &EntryView<'_>, proof: &Proof) -> Answer
    ensures present { (result ≡ Answer.Present) ↔ ShowsPresent head.now (entry_of entry.now) proof.now }
    ensures absent { (result ≡ Answer.Absent) ↔ ShowsAbsent head.now (entry_of entry.now) proof.now }

    // one that is present is in every archive with this head, and one that is absent is in none; or a text that the
    // tree of the archive hashes and another, which the proof hashes, have one SHA-256
    ensures is_in { result ≡ Answer.Present → IsEntry (entry_of entry.now) → (most : ℕ)
        (xs : List Entry) → IsArchive most xs → IsRootOf head.now xs
        → Has xs (entry_of entry.now) ⊎ Collides xs entry.now.octets.now proof.now }
    ensures is_not_in { result ≡ Answer.Absent → (most : ℕ) (xs : List Entry)
        → IsArchive most xs → IsRootOf head.now xs
        → (¬ (Has xs (entry_of entry.now))) ⊎ Collides xs entry.now.octets.now proof.now }
{
    let _size = head.size;
    match proof {
        Proof::Present(path) => {
            if leads(head, entry.octets, path) {
                Answer::Present
            } else {
                Answer::NotShown
            }
        }
        Proof::Absent(before, behind) => {
            if parts(head, entry, before, behind) {
                Answer::Absent
            } else {
                Answer::NotShown
            }
        }
    }
}
