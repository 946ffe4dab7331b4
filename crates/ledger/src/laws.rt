//! What holds of ledgers. Each function does nothing, and its contract is the law.

ghost use Rattle.std.specs.Prelude.{List, ℕ};
ghost use Rattle.ledger.specs.Laws.{AgreeingLedgersAreEqual, GoesByItsLines, LedgersGoOn};
ghost use Rattle.ledger.specs.Laws.{LedgersMeetAtEqualLines, SealsStay};

/// Two ledgers that end with the same number and chain have the same lines, or two different texts, one
/// hashed for each of them at a line of the same number, have one SHA-256.
pub fn agreeing_ledgers_are_equal()
    ensures { AgreeingLedgersAreEqual }
{}

/// Two ledgers that have a line in common have the same lines before it, or two different texts, one hashed
/// for each of them at a line of the same number up to it, have one SHA-256.
pub fn ledgers_with_a_line_in_common_are_equal_before_it()
    ensures { LedgersMeetAtEqualLines }
{}

/// A ledger that has the last line of another one has the same lines before it, which say the same, and its others
/// continue the chain from there; or the two collide, as above.
pub fn ledgers_go_on_from_a_line_in_common()
    ensures { LedgersGoOn }
{}

/// What a ledger lists of a segment is what the last line on it leaves.
pub fn segments_go_by_their_lines()
    ensures { (name : List ℕ) → GoesByItsLines name }
{}

/// A segment that is listed as sealed is so behind any lines that follow, or one of these tells that it expired.
pub fn seals_stay()
    ensures { SealsStay }
{}
