//! Laws of selections. Each function does nothing, and its contract is the law.

ghost use Rattle.std.specs.Prelude.{◌≡◌, ◌++◌, ℕ, List};
ghost use Rattle.archive_text.specs.Entries.{Entry, IsAscending};
ghost use Rattle.archive_text.specs.Faults.{IsLongestArchive};
ghost use Rattle.archive_text.specs.Sets.{IsUnionOfEntries};
ghost use Rattle.archive_text.specs.Text.{IsArchive, text_of};
ghost use Rattle.archive_text.specs.declared.limits.TheConstants.{ENTRY_MAX};
ghost use Rattle.archive_sets.specs.Selections.{IsSelection};

use crate::condition::Condition;

/// What is selected of an archive is a single list of entries, and an archive.
pub fn selections_are_archives<C: Condition>(condition: &C)
    ensures one { (xs ys zs : List Entry) → IsSelection (C.meets condition.now) xs ys
        → IsSelection (C.meets condition.now) xs zs → ys ≡ zs }
    ensures archive { (most : ℕ) (xs ys : List Entry) → IsArchive most xs
        → IsSelection (C.meets condition.now) xs ys → IsArchive most ys }
{}

/// Selecting twice is selecting once.
pub fn selecting_is_idempotent<C: Condition>(condition: &C)
    ensures { (xs ys zs : List Entry) → IsSelection (C.meets condition.now) xs ys
        → IsSelection (C.meets condition.now) ys zs → zs ≡ ys }
{}

/// Selecting by one condition, and from that by another, is selecting by both.
pub fn selecting_by_both_is_selecting_by_each<A: Condition, B: Condition>(first: &A, second: &B)
    ensures { (xs ys zs : List Entry) → IsSelection (A.meets first.now) xs ys
        → IsSelection (B.meets second.now) ys zs
        → IsSelection (λ e. A.meets first.now e × B.meets second.now e) xs zs }
{}

/// What is selected of a union is the union of what is selected of its parts.
pub fn selecting_distributes_over_union<C: Condition>(condition: &C)
    ensures union { (xs ys zs ps qs rs : List Entry) → IsUnionOfEntries xs ys zs
        → IsSelection (C.meets condition.now) xs ps → IsSelection (C.meets condition.now) ys qs
        → IsSelection (C.meets condition.now) zs rs → IsUnionOfEntries ps qs rs }
    ensures selection { (xs ys zs ps qs rs : List Entry) → IsUnionOfEntries xs ys zs
        → IsSelection (C.meets condition.now) xs ps → IsSelection (C.meets condition.now) ys qs
        → IsAscending rs → IsUnionOfEntries ps qs rs
        → IsSelection (C.meets condition.now) zs rs }
{}

/// What is selected of an archive that a text begins with begins what is selected of the longest
/// such archive.
pub fn selections_of_one_text_begin_alike<C: Condition>(condition: &C)
    ensures { (given r s : List ℕ) (xs fs ys gs : List Entry) → IsArchive ENTRY_MAX xs
        → given ≡ text_of xs ++ r → IsLongestArchive ENTRY_MAX given fs s
        → IsSelection (C.meets condition.now) xs ys → IsSelection (C.meets condition.now) fs gs
        → (more : List ℕ) × (text_of gs ≡ text_of ys ++ more) }
{}
