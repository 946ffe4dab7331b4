//! The order of entries.

ghost use Rattle.std.specs.Prelude.{◌≡◌, ℤ, ◌⊎◌};
ghost use Rattle.syslog_value.specs.Parts.{Parts};
ghost use Rattle.archive_text.specs.Entries.{Entry, IsBelow, IsEntryOf};

/// The order is strict, and of the entries of two different records exactly one is below the other.
pub fn entry_order_is_total()
    ensures irreflexive { (e : Entry) → ¬ (IsBelow e e) }
    ensures transitive { (e f g : Entry) → IsBelow e f → IsBelow f g → IsBelow e g }
    ensures total { (r q : Parts ℤ) (e f : Entry) → IsEntryOf r e → IsEntryOf q f → ¬ (r ≡ q)
        → (IsBelow e f × ¬ (IsBelow f e)) ⊎ (IsBelow f e × ¬ (IsBelow e f)) }
{}
