//! Tests of fields, by the texts that ask for them. A text that no record can have asks for none.

ghost use Rattle.std.specs.Prelude.{◌≡◌, IfOk, option_map};
ghost use Rattle.condition_words.specs.Names.{facility_of, severity_of};
ghost use Rattle.condition_words.specs.Tests.{element_test, facility_test, like_test, message_test, severity_test};
ghost use Rattle.condition_words.specs.Tests.{test_asked, word_test};

use archive_sets::{FieldTest, WordField};
use option_values::PATTERN_MAX;
use std::alloc::{AllocError, Global};
use syslog_value::{Facility, SdName, Severity, Word, WordFault};

// The severity with this name; None for any other text.
fn severity(name: &str) -> Option<Severity>
    ensures { result ≡ severity_of name.now }
{
    Severity::from_name(name)
}

// The facility with this name; None for any other text.
fn facility(name: &str) -> Option<Facility>
    ensures { result ≡ facility_of name.now }
{
    Facility::from_name(name)
}

/// Records as severe as the severity with this name, or more severe; None for any other text.
pub(crate) fn severity_test(name: &str) -> Option<FieldTest<'static>>
    ensures { option_map test_asked result ≡ severity_test name.now }
{
    Some(FieldTest::AsSevereAs(severity(name)?))
}

/// Records of the facility with this name; None for any other text.
pub(crate) fn facility_test(name: &str) -> Option<FieldTest<'static>>
    ensures { option_map test_asked result ≡ facility_test name.now }
{
    Some(FieldTest::OfFacility(facility(name)?))
}

/// Records that have this word of at most N octets in a field, or NILVALUE for `-`; None for a text
/// that is no such word (RFC 5424, section 6).
pub(crate) fn word_test<'a, const N: usize>(
    alloc: Global,
    field: WordField,
    text: &'a str,
) -> Result<Option<FieldTest<'a>>, AllocError>
    ensures { IfOk result (λ r. option_map test_asked r ≡ word_test N field text.entry.now) }
{
    let octets = text.as_bytes();
    let fault = match Word::<N>::new(alloc, octets) {
        Ok(_) => return Ok(Some(FieldTest::Word(field, Some(octets)))),
        Err(fault) => fault,
    };
    match fault {
        WordFault::Nil => Ok(Some(FieldTest::Word(field, None))),
        WordFault::Memory => Err(AllocError),
        _ => Ok(None),
    }
}

/// Records whose word in a field is like this pattern; None for a text that is empty or longer than
/// [`PATTERN_MAX`] octets.
pub(crate) fn like_test<'a>(field: WordField, pattern: &'a str) -> Option<FieldTest<'a>>
    ensures { option_map test_asked result ≡ like_test field pattern.entry.now }
{
    if pattern.is_empty() || pattern.len() > PATTERN_MAX {
        return None;
    }
    Some(FieldTest::WordLike(field, pattern.as_bytes()))
}

/// Records that have an element with this id; None for a text that is no SD-ID (RFC 5424, section 6).
pub(crate) fn element_test<'a>(
    alloc: Global,
    id: &'a str,
) -> Result<Option<FieldTest<'a>>, AllocError>
    ensures { IfOk result (λ r. option_map test_asked r ≡ element_test id.entry.now) }
{
    let octets = id.as_bytes();
    match SdName::new(alloc, octets) {
        Ok(_) => Ok(Some(FieldTest::Element(octets))),
        Err(WordFault::Memory) => Err(AllocError),
        Err(_) => Ok(None),
    }
}

/// Records whose message has this text somewhere; None for an empty text, which every message has.
pub(crate) fn message_test<'a>(text: &'a str) -> Option<FieldTest<'a>>
    ensures { option_map test_asked result ≡ message_test text.entry.now }
{
    if text.is_empty() {
        return None;
    }
    Some(FieldTest::Message(text.as_bytes()))
}
