//! Laws of migration, each the contract of a function that does nothing.

ghost use Rattle.std.specs.Prelude.{◌≡◌, ◌↔◌, ◌++◌, ◌≤◌, [], List, ℕ, ℤ, length};
ghost use Rattle.syslog_frame.specs.declared.limits.TheConstants.{COUNT_MAX};
ghost use Rattle.syslog_value.specs.Parts.{IsRecord, Parts};
ghost use Rattle.syslog_fields.specs.Canonical.{Canonical};
ghost use Rattle.syslog_grammar.specs.Unsorted.{IsUnsortedRecord};
ghost use Rattle.archive_text.specs.Entries.{Entry, IsAscending};
ghost use Rattle.archive_text.specs.Sets.{ArchiveText, AreEntriesOf, AreSame};
ghost use Rattle.archive_text.specs.Text.{text_of};
ghost use Rattle.archive_text.specs.declared.fault.ArchiveFault.{ArchiveFault};
ghost use Rattle.archive_text.specs.declared.limits.TheConstants.{ENTRY_MAX};
ghost use Rattle.archive_migration.specs.Migration.{IsMigration, IsNewForm, Migrates};
ghost use Rattle.archive_migration.specs.OldFaults.{IsOldArchiveFault};
ghost use Rattle.archive_migration.specs.OldTexts.{OldText};

/// Each record whose elements are in any order has one new form, which is a record.
pub fn records_have_one_new_form()
    ensures some { (r : Parts ℤ) → IsUnsortedRecord r → (q : Parts ℤ) × IsNewForm r q }
    ensures one { (r q p : Parts ℤ) → IsNewForm r q → IsNewForm r p → q ≡ p }
    ensures valid { (r q : Parts ℤ) → IsUnsortedRecord r → IsNewForm r q → IsRecord q }
{}

/// The canonical octets of a new form are as many as those of the old one.
pub fn migrated_octets_are_as_many()
    ensures { (r q : Parts ℤ) (b c : List ℕ) → Canonical r b → IsNewForm r q → Canonical q c
        → length c ≡ length b }
{}

/// What is migrated of a union is the union of what is migrated of each set.
pub fn migrating_a_union_is_the_union()
    ensures some { (rs qs news more : List (Parts ℤ)) → IsMigration rs news → IsMigration qs more
        → IsMigration (rs ++ qs) (news ++ more) }
    ensures one { (rs news more : List (Parts ℤ)) → IsMigration rs news → IsMigration rs more
        → AreSame news more }
{}

/// The text of an old archive whose elements stand by id in every entry is that of the same set.
pub fn sets_by_id_are_migrated_already()
    ensures { (most : ℕ) (rs qs : List (Parts ℤ)) (t : List ℕ) → most ≤ COUNT_MAX
        → OldText most rs t → ArchiveText most qs t → AreSame rs qs × IsMigration rs qs }
{}

/// An old text that is migrated gives the entries of the migrated set, without a fault.
pub fn old_texts_give_the_migrated_set()
    ensures set { (rs qs : List (Parts ℤ)) (t : List ℕ) (es : List Entry) → OldText ENTRY_MAX rs t
        → IsMigration rs qs → Migrates t [] es → AreEntriesOf qs es }
    ensures no_fault { (most : ℕ) (rs : List (Parts ℤ)) (t : List ℕ) (fault : ArchiveFault)
        → OldText most rs t → ¬ (IsOldArchiveFault most t fault) }
    ensures unchanged { (rs : List (Parts ℤ)) (t : List ℕ) (es : List Entry) → IsAscending es
        → ArchiveText ENTRY_MAX rs t → Migrates t [] es → t ≡ text_of es }
{}
