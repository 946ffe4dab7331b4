//! Sets of records and their texts.

ghost use Rattle.std.specs.Prelude.{◌≡◌, ◌≤◌, ℕ, ℤ, List, length};
ghost use Rattle.std.specs.List.{AllByRecursion};
ghost use Rattle.syslog_frame.specs.declared.limits.TheConstants.{COUNT_MAX};
ghost use Rattle.syslog_value.specs.Parts.{IsRecord, Parts};
ghost use Rattle.syslog_fields.specs.Canonical.{Canonical};
ghost use Rattle.archive_text.specs.Sets.{ArchiveText, AreSame};

/// One set has at most one text.
pub fn one_set_has_one_text()
    ensures { (most : ℕ) (rs qs : List (Parts ℤ)) (t u : List ℕ) → AreSame rs qs
        → ArchiveText most rs t → ArchiveText most qs u → t ≡ u }
{}

/// One text is that of at most one set.
pub fn one_text_has_one_set()
    ensures { (most : ℕ) (rs qs : List (Parts ℤ)) (t : List ℕ) → most ≤ COUNT_MAX
        → ArchiveText most rs t → ArchiveText most qs t → AreSame rs qs }
{}

/// Every record has canonical octets.
pub fn records_have_canonical_octets()
    ensures { (r : Parts ℤ) → IsRecord r → (b : List ℕ) × Canonical r b }
{}

/// A finite set has a text if the canonical octets of each of its records fit.
pub fn sets_that_fit_have_a_text()
    ensures { (most : ℕ) (rs : List (Parts ℤ)) → AllByRecursion IsRecord rs
        → AllByRecursion (λ r. (b : List ℕ) → Canonical r b → length b ≤ most) rs
        → (t : List ℕ) × ArchiveText most rs t }
{}

/// An archive under one limit is one under each larger limit, of the same set.
pub fn larger_limits_keep_archives()
    ensures { (most more : ℕ) (rs : List (Parts ℤ)) (t : List ℕ) → most ≤ more
        → ArchiveText most rs t → ArchiveText more rs t }
{}
