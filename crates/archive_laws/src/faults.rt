//! Texts that are no archive.

ghost use Rattle.std.specs.Prelude.{◌≡◌, ◌≤◌, ℕ, ℤ, List};
ghost use Rattle.syslog_frame.specs.declared.limits.TheConstants.{COUNT_MAX};
ghost use Rattle.syslog_value.specs.Parts.{Parts};
ghost use Rattle.archive_text.specs.Faults.{IsArchiveFault};
ghost use Rattle.archive_text.specs.Sets.{ArchiveText};
ghost use Rattle.archive_text.specs.declared.fault.ArchiveFault.{ArchiveFault};
ghost use Rattle.archive_text.specs.declared.fault.ArchiveFault.TheVariants.{EntryTooLong};

/// The text of a set has no fault.
pub fn archives_have_no_fault()
    ensures { (most : ℕ) (rs : List (Parts ℤ)) (t : List ℕ) (fault : ArchiveFault)
        → ArchiveText most rs t → ¬ (IsArchiveFault most t fault) }
{}

/// A fault under one limit, except that of an entry too long, is one under each larger limit.
pub fn larger_limits_keep_faults()
    ensures { (most more : ℕ) (t : List ℕ) (fault : ArchiveFault) → most ≤ more → more ≤ COUNT_MAX
        → ((at : ℕ) → ¬ (fault ≡ EntryTooLong at)) → IsArchiveFault most t fault
        → IsArchiveFault more t fault }
{}

/// A text has at most one fault.
pub fn texts_have_one_fault()
    ensures { (most : ℕ) (t : List ℕ) (f g : ArchiveFault) → most ≤ COUNT_MAX
        → IsArchiveFault most t f → IsArchiveFault most t g → f ≡ g }
{}
