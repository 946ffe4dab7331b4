//! Laws of records and their octets, each the contract of a function that does nothing.

ghost use Rattle.std.specs.Prelude.{◌≡◌, ◌↔◌, ◌+◌, ◌*◌, ◌≤◌, ℤ, IsUtf8, List, ℕ, length};
ghost use Rattle.octet_language.specs.Language.{AnyOf};
ghost use Rattle.syslog_value.specs.Parts.{IsRecord, Parts};
ghost use Rattle.syslog_fields.specs.Canonical.{Canonical};
ghost use Rattle.syslog_reading.specs.Faults.{FaultOf};
ghost use Rattle.syslog_fields.specs.Utf8.{IsText};
ghost use Rattle.syslog_reading.specs.WellFormed.{WellFormed};
ghost use Rattle.syslog_reading.specs.declared.fault.Fault.{Fault};

/// Octets are at most one record.
pub fn octets_are_one_record()
    ensures { (r : Parts ℤ) (q : Parts ℤ) (b : List ℕ) → WellFormed r b → WellFormed q b → r ≡ q }
{}

/// What well-formed octets are is a record.
pub fn well_formed_is_a_record()
    ensures { (r : Parts ℤ) (b : List ℕ) → WellFormed r b → IsRecord r }
{}

/// The canonical octets of a record are well-formed, and are that record.
pub fn canonical_is_well_formed()
    ensures { (r : Parts ℤ) (b : List ℕ) → IsRecord r → Canonical r b → WellFormed r b }
{}

/// Two records are equal exactly if their canonical octets are.
pub fn canonical_is_injective()
    ensures { (r : Parts ℤ) (q : Parts ℤ) (b : List ℕ) (c : List ℕ) → IsRecord r → IsRecord q
        → Canonical r b → Canonical q c → (r ≡ q) ↔ (b ≡ c) }
{}

/// The canonical octets of a record are at most seven more than twice as many as any octets that
/// are the record: each backslash adds at most one octet, and a timestamp at most seven.
pub fn canonical_is_bounded()
    ensures { (r : Parts ℤ) (b : List ℕ) (c : List ℕ) (n : ℕ) → WellFormed r b → Canonical r c
        → length b ≤ n → length c ≤ 2 * n + 7 }
{}

/// Octets have at most one fault.
pub fn octets_have_one_fault()
    ensures { (b : List ℕ) (f : Fault) (g : Fault) → FaultOf b f → FaultOf b g → f ≡ g }
{}

/// Octets that have a fault are no record.
pub fn faulty_octets_are_no_record()
    ensures { (b : List ℕ) (f : Fault) → FaultOf b f → ¬ (AnyOf WellFormed b) }
{}

/// The octets that std takes for UTF-8 are those of the table in RFC 3629, section 4.
pub fn std_utf8_is_that_of_the_table()
    ensures { (b : List ℕ) → IsUtf8 b ↔ IsText b }
{}
