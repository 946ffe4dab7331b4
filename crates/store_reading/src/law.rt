//! The law of what is read, as the contract of a function that does nothing.
ghost use Rattle.std.specs.Prelude.{◌≡◌, ◌↔◌, [], ℕ, List, Some};
ghost use Rattle.disk.specs.States.{Files};
ghost use Rattle.archive_text.specs.Entries.{Entry};
ghost use Rattle.record_store.specs.Holdings.{Held};
ghost use Rattle.store_reading.specs.Sets.{IsSetOf, WritesSet};

use archive_sets::InRange;

/// Two folders that hold the same records give the same octets, whatever their journals and segments.
pub fn equal_sets_give_equal_octets(range: InRange)
    ensures set { (files other : Files) (es fs : List Entry)
        → ((e : Entry) → Held files e ↔ Held other e)
        → IsSetOf files range es → IsSetOf other range fs → es ≡ fs }
    ensures octets { (files other : Files) (one two : List ℕ)
        → ((e : Entry) → Held files e ↔ Held other e)
        → WritesSet files range (Some []) (Some one)
        → WritesSet other range (Some []) (Some two) → one ≡ two }
{}
