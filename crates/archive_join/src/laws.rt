//! Laws of what is kept of archives. Each function does nothing, and its contract is the law.

ghost use Rattle.std.specs.Prelude.{◌≡◌, ◌↔◌, ◌++◌, ℕ, List, [], ◌∷◌};
ghost use Rattle.std.specs.List.{AllByRecursion, flat_map};
ghost use Rattle.archive_text.specs.Entries.{Entry, Has, IsAscending};
ghost use Rattle.archive_text.specs.Text.{IsArchive, text_of};
ghost use Rattle.archive_streams.specs.Joining.{IsUnion};
ghost use Rattle.archive_sets.specs.Selections.{IsSelection};
ghost use Rattle.archive_sets.specs.declared.range.InRange.{InRange};
ghost use Rattle.archive_join.specs.Holders.{AreKept, AreKeptUpTo, IsHeld, kept_text};
ghost use Rattle.archive_join.specs.Ranges.{AreInTurn, AreOfRanges};

use crate::common::Common;
use crate::diff::Diff;
use crate::kept::Kept;
use crate::minus::Minus;
use crate::union::Union;
use archive_sets::Condition;

/// What is kept of archives is a single list of entries, and an archive.
pub fn kept_entries_are_archives<K: Kept>(kept: &K)
    ensures one { (xss : List (List Entry)) (ys zs : List Entry) → AreKept (K.keeps kept.now) xss ys
        → AreKept (K.keeps kept.now) xss zs → ys ≡ zs }
    ensures archive { (most : ℕ) (xss : List (List Entry)) (ys : List Entry)
        → AllByRecursion (IsArchive most) xss → AreKept (K.keeps kept.now) xss ys
        → IsArchive most ys }
{}

/// What is written of the entries that are kept up to some entry begins what is written of all.
pub fn kept_texts_begin_alike<K: Kept>(kept: &K)
    ensures { (xss : List (List Entry)) (bound ys zs : List Entry)
        → AreKeptUpTo (K.keeps kept.now) xss bound ys → AreKept (K.keeps kept.now) xss zs
        → (more : List ℕ) × (kept_text (K.text kept.now) xss zs
        ≡ kept_text (K.text kept.now) xss ys ++ more) }
{}

/// The union of two archives is what merging them gives.
pub fn union_of_two_is_what_merging_gives(kept: &Union)
    ensures entries { (xs ys zs : List Entry)
        → AreKept (⟦<Union as Kept>⟧.keeps kept.now) (xs ∷ ys ∷ []) zs ↔ IsUnion xs ys zs }
    ensures text { (xss : List (List Entry)) (zs : List Entry)
        → kept_text (⟦<Union as Kept>⟧.text kept.now) xss zs ≡ text_of zs }
{}

/// A union is that of all the sets, whatever their order and grouping.
pub fn union_is_that_of_all_sets(kept: &Union)
    ensures same { (xss yss : List (List Entry)) (zs ws : List Entry)
        → ((e : Entry) → IsHeld xss e ↔ IsHeld yss e)
        → AreKept (⟦<Union as Kept>⟧.keeps kept.now) xss zs
        → AreKept (⟦<Union as Kept>⟧.keeps kept.now) yss ws → zs ≡ ws }
    ensures order { (xss yss : List (List Entry)) (zs ws : List Entry)
        → AreKept (⟦<Union as Kept>⟧.keeps kept.now) (xss ++ yss) zs
        → AreKept (⟦<Union as Kept>⟧.keeps kept.now) (yss ++ xss) ws → zs ≡ ws }
    ensures grouping { (xss yss : List (List Entry)) (ps qs zs ws : List Entry)
        → AreKept (⟦<Union as Kept>⟧.keeps kept.now) xss ps
        → AreKept (⟦<Union as Kept>⟧.keeps kept.now) yss qs
        → AreKept (⟦<Union as Kept>⟧.keeps kept.now) (ps ∷ qs ∷ []) zs
        → AreKept (⟦<Union as Kept>⟧.keeps kept.now) (xss ++ yss) ws → zs ≡ ws }
{}

/// Archives of half-open ranges of instants that do not overlap, in ascending order and with the
/// records without a time in the first, may be concatenated: that is the archive of their union.
pub fn archives_of_ranges_are_concatenated(kept: &Union)
    ensures { (most : ℕ) (ranges : List InRange) (xss : List (List Entry)) → AreInTurn ranges
        → AreOfRanges most ranges xss
        → (zs : List Entry) × IsArchive most zs
        × AreKept (⟦<Union as Kept>⟧.keeps kept.now) xss zs
        × (text_of zs ≡ flat_map text_of xss) }
{}

/// What an archive has in common with another, and what only it has, are disjoint, and their union
/// is the archive.
pub fn common_and_minus_part_an_archive(common: &Common, minus: &Minus)
    ensures disjoint { (xs ys cs ms : List Entry) (e : Entry)
        → AreKept (⟦<Common as Kept>⟧.keeps common.now) (xs ∷ ys ∷ []) cs
        → AreKept (⟦<Minus as Kept>⟧.keeps minus.now) (xs ∷ ys ∷ []) ms
        → Has cs e → ¬ (Has ms e) }
    ensures union { (xs ys cs ms : List Entry) → IsAscending xs
        → AreKept (⟦<Common as Kept>⟧.keeps common.now) (xs ∷ ys ∷ []) cs
        → AreKept (⟦<Minus as Kept>⟧.keeps minus.now) (xs ∷ ys ∷ []) ms → IsUnion cs ms xs }
{}

/// Two archives are equal exactly if neither has what the other lacks, and exactly if they do not
/// differ.
pub fn equal_archives_do_not_differ(minus: &Minus, diff: &Diff)
    ensures minus { (xs ys : List Entry) → IsAscending xs → IsAscending ys
        → (AreKept (⟦<Minus as Kept>⟧.keeps minus.now) (xs ∷ ys ∷ []) []
        × AreKept (⟦<Minus as Kept>⟧.keeps minus.now) (ys ∷ xs ∷ []) []) ↔ (xs ≡ ys) }
    ensures diff { (xs ys : List Entry) → IsAscending xs → IsAscending ys
        → AreKept (⟦<Diff as Kept>⟧.keeps diff.now) (xs ∷ ys ∷ []) [] ↔ (xs ≡ ys) }
{}

/// What is selected of what two archives have in common, or of what only one has, is what those
/// selected of each have in common, or what only one of these has.
pub fn selecting_distributes_over_common_and_minus<C: Condition>(
    condition: &C,
    common: &Common,
    minus: &Minus,
)
    ensures common { (xs ys zs ps qs rs : List Entry)
        → AreKept (⟦<Common as Kept>⟧.keeps common.now) (xs ∷ ys ∷ []) zs
        → IsSelection (C.meets condition.now) xs ps → IsSelection (C.meets condition.now) ys qs
        → IsSelection (C.meets condition.now) zs rs
        → AreKept (⟦<Common as Kept>⟧.keeps common.now) (ps ∷ qs ∷ []) rs }
    ensures minus { (xs ys zs ps qs rs : List Entry)
        → AreKept (⟦<Minus as Kept>⟧.keeps minus.now) (xs ∷ ys ∷ []) zs
        → IsSelection (C.meets condition.now) xs ps → IsSelection (C.meets condition.now) ys qs
        → IsSelection (C.meets condition.now) zs rs
        → AreKept (⟦<Minus as Kept>⟧.keeps minus.now) (ps ∷ qs ∷ []) rs }
{}
