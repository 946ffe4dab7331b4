//! Tests of the fields of a record.

ghost use Rattle.std.specs.Prelude.{◌↔◌, ℤ, List, ℕ, option_map, IsTrue, IsSomeAnd};
ghost use Rattle.std.specs.List.{AllByRecursion};
ghost use Rattle.syslog_value.specs.Parts.{Parts};
ghost use Rattle.syslog_reading.specs.ViewParts.{view_parts};
ghost use Rattle.syslog_reading.specs.WellFormed.{WellFormed};
ghost use Rattle.octet_patterns.specs.Globs.{IsLike};
ghost use Rattle.archive_sets.specs.Tests.{IsShownAs, Passes};
ghost use Rattle.archive_sets.specs.Together.{PassesOne};

use crate::element::has_id;
use crate::fields::{is_as_severe, is_of, is_same, word_of};
use crate::word_field::WordField;
use octet_patterns::{has_within, is_like};
use syslog_grammar::RecordView;
use syslog_value::{Facility, Severity};

/// What a record may have in its fields.
#[derive(Clone, Copy, Debug, PartialEq, Eq)]
pub enum FieldTest<'a> {
    /// It is as severe as this, or more severe (RFC 5424, section 6.2.1).
    AsSevereAs(Severity),
    /// It is of this facility (RFC 5424, section 6.2.1).
    OfFacility(Facility),
    /// A field of the header has this word, or NILVALUE if it is None.
    Word(WordField, Option<&'a [u8]>),
    /// A field of the header has a word that is like this pattern, in which `*` stands for any
    /// octets and `?` for any one octet. NILVALUE is like no pattern.
    WordLike(WordField, &'a [u8]),
    /// It has an element with this id (SD-ID, RFC 5424, section 6.3.2).
    Element(&'a [u8]),
    /// Its message has these octets somewhere, where a BOM is no part of the message.
    Message(&'a [u8]),
}

// Whether there is a word, and it is like a pattern.
fn is_word_like(word: Option<&[u8]>, pattern: &[u8]) -> bool
    ensures { IsTrue result ↔ IsSomeAnd (option_map (λ s. s.now) word.entry) (IsLike pattern.now) }
{
    match word {
        None => false,
        Some(word) => is_like(pattern, word),
    }
}

impl<'a> FieldTest<'a> {
    // Whether a record passes, as its view shows.
    fn passes(&self, shown: &RecordView<'_>) -> bool
        ensures { (r : Parts ℤ) → IsShownAs r (view_parts shown.now) → (IsTrue result ↔ Passes self.now r) }
    {
        match *self {
            FieldTest::AsSevereAs(severity) => is_as_severe(shown.priority(), severity),
            FieldTest::OfFacility(facility) => is_of(shown.priority(), facility),
            FieldTest::Word(field, word) => is_same(word_of(field, shown), word),
            FieldTest::WordLike(field, pattern) => is_word_like(word_of(field, shown), pattern),
            FieldTest::Element(id) => has_id(shown.elements(), id),
            FieldTest::Message(octets) => has_within(octets, shown.message()),
        }
    }

    // Whether a record with these octets may pass: only if none does, the answer is false.
    fn may_pass(&self, octets: &[u8]) -> bool
        ensures { (r : Parts ℤ) → WellFormed r octets.now → Passes self.now r → IsTrue result }
    {
        match *self {
            FieldTest::Message(text) => has_within(text, octets),
            _ => true,
        }
    }
}

/// Whether a record passes one of the tests, as its view shows.
pub fn passes_one(tests: &[FieldTest<'_>], shown: &RecordView<'_>) -> bool
    ensures { (r : Parts ℤ) → IsShownAs r (view_parts shown.now) → (IsTrue result ↔ PassesOne tests.now r) }
{
    'tests: for test in tests {
        if test.passes(shown) {
            return true;
        }
    }
    false
}

/// Whether a record passes one test of each of the lists, as its view shows.
pub fn passes_one_of_each(lists: &[Vec<FieldTest<'_>>], shown: &RecordView<'_>) -> bool
    ensures { (r : Parts ℤ) → IsShownAs r (view_parts shown.now)
        → (IsTrue result ↔ AllByRecursion (λ tests. PassesOne tests.items r) lists.now) }
{
    'lists: for tests in lists {
        if !passes_one(tests, shown) {
            return false;
        }
    }
    true
}

// Whether a record with these octets may pass one of the tests: only if none does, the answer is false.
fn may_pass_one(tests: &[FieldTest<'_>], octets: &[u8]) -> bool
    ensures { (r : Parts ℤ) → WellFormed r octets.now → PassesOne tests.now r → IsTrue result }
{
    'tests: for test in tests {
        if test.may_pass(octets) {
            return true;
        }
    }
    false
}

/// Whether a record with these octets may pass one test of each of the lists: only if none does, the
/// answer is false. It costs less than a view of the record.
pub fn may_pass_one_of_each(lists: &[Vec<FieldTest<'_>>], octets: &[u8]) -> bool
    ensures { (r : Parts ℤ) → WellFormed r octets.now
        → AllByRecursion (λ tests. PassesOne tests.items r) lists.now → IsTrue result }
{
    'lists: for tests in lists {
        if !may_pass_one(tests, octets) {
            return false;
        }
    }
    true
}
