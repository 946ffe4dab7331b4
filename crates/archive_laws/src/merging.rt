//! The union of sets, seen on their texts.

ghost use Rattle.std.specs.Prelude.{◌≡◌, ◌≤◌, ◌++◌, ℕ, ℤ, List};
ghost use Rattle.syslog_frame.specs.declared.limits.TheConstants.{COUNT_MAX};
ghost use Rattle.syslog_value.specs.Parts.{Parts};
ghost use Rattle.archive_text.specs.Entries.{Entry, IsAscending};
ghost use Rattle.archive_text.specs.Sets.{ArchiveText, IsUnionOfEntries};
ghost use Rattle.archive_text.specs.Text.{IsArchive, text_of};
ghost use Rattle.archive_laws.specs.Unions.{IsUnion};

/// Two texts have one union: the text of the union of their sets. The entries of both archives, in
/// order and once each, are its entries.
pub fn merging_is_union()
    ensures some { (most : ℕ) (rs qs : List (Parts ℤ)) (t u : List ℕ) → ArchiveText most rs t
        → ArchiveText most qs u → (v : List ℕ) × IsUnion most t u v }
    ensures one { (most : ℕ) (t u v w : List ℕ) → most ≤ COUNT_MAX
        → IsUnion most t u v → IsUnion most t u w → v ≡ w }
    ensures sets { (most : ℕ) (rs qs : List (Parts ℤ)) (t u v : List ℕ) → most ≤ COUNT_MAX
        → ArchiveText most rs t → ArchiveText most qs u → IsUnion most t u v
        → ArchiveText most (rs ++ qs) v }
    ensures entries { (most : ℕ) (xs ys zs : List Entry) → IsArchive most xs → IsArchive most ys
        → IsAscending zs → IsUnionOfEntries xs ys zs
        → IsUnion most (text_of xs) (text_of ys) (text_of zs) }
{}

/// The order of two texts does not matter.
pub fn merging_is_commutative()
    ensures { (most : ℕ) (t u v w : List ℕ) → most ≤ COUNT_MAX
        → IsUnion most t u v → IsUnion most u t w → v ≡ w }
{}

/// The grouping of three texts does not matter.
pub fn merging_is_associative()
    ensures { (most : ℕ) (t u v tu uv x y : List ℕ) → most ≤ COUNT_MAX
        → IsUnion most t u tu → IsUnion most tu v x → IsUnion most u v uv → IsUnion most t uv y
        → x ≡ y }
{}

/// A text merged with itself is itself.
pub fn merging_is_idempotent()
    ensures { (most : ℕ) (t v : List ℕ) → most ≤ COUNT_MAX → IsUnion most t t v → v ≡ t }
{}
