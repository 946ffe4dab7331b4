//! Laws of lines, each the contract of a function that does nothing.

ghost use Rattle.std.specs.Prelude.{◌≡◌, ◌≢◌, ◌↔◌, ◌∷◌, ◌++◌, [], ℕ, ℤ, List, Some};
ghost use Rattle.std.specs.List.{AllByRecursion};
ghost use Rattle.json.specs.Json.{Json, document};
ghost use Rattle.syslog_value.specs.Parts.{IsRecord, Parts};
ghost use Rattle.record_json.specs.Objects.{IsJsonOf, JsonLine};

/// Two records are equal exactly if their lines are.
pub fn lines_are_injective()
    ensures { (r q : Parts ℤ) (b c : List ℕ) → IsRecord r → IsRecord q
        → JsonLine r b → JsonLine q c → (r ≡ q) ↔ (b ≡ c) }
{}

/// A line without its line feed is a text of JSON, and what a reader finds in it is the object of
/// the record.
pub fn a_line_is_its_object()
    ensures { (r : Parts ℤ) (b : List ℕ) → IsRecord r → JsonLine r b
        → (text : List ℕ) × (j : Json) × (b ≡ text ++ 10 ∷ []) × IsJsonOf r j
        × (document text ≡ Some j) }
{}

/// A line has one line feed, at its end.
pub fn a_line_has_one_line_feed()
    ensures { (r : Parts ℤ) (b : List ℕ) → IsRecord r → JsonLine r b
        → (text : List ℕ) × (b ≡ text ++ 10 ∷ []) × AllByRecursion (λ x. x ≢ 10) text }
{}
