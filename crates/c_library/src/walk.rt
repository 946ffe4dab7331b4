//! Elements and parameters are walked by their number.

ghost use Rattle.std.specs.Prelude.{◌≡◌, ◌++◌, ℕ, List, MatchResult, length};
ghost use Rattle.octet_language.specs.Language.{Each};
ghost use Rattle.syslog_value.specs.Parts.{ElementParts, ParamParts};
ghost use Rattle.syslog_fields.specs.Grammar.{Element, Param, StructuredDataText};
ghost use Rattle.c_library.specs.Items.{IsFew, IsFrom};

use syslog_fields::reading::next;
use syslog_reading::first_element::{begins_with, first_element, first_param};

/// The octets of the elements of structured data: none if there are no elements.
pub fn elements_text(structured_data: &[u8]) -> &[u8]
    ensures elements { (es : List ElementParts) → StructuredDataText es structured_data.now
        → Each Element es result.now }
    ensures front { (behind : List ℕ) × (structured_data.now ≡ result.now ++ behind) }
{
    if begins_with(b'[', structured_data) {
        structured_data
    } else {
        structured_data.split_at(0).0
    }
}

/// How many elements the octets spell.
pub fn count_elements(text: &[u8]) -> usize
    ensures { (es : List ElementParts) → Each Element es text.now → result ≡ length es }
{
    let mut rest = text;
    let mut count = 0;
    while let Some((_first, _after)) = next(rest) {
        rest = first_element(rest).1;
        count += 1;
    }
    count
}

/// How many parameters the octets spell.
pub fn count_params(text: &[u8]) -> usize
    ensures { (ps : List ParamParts) → Each Param ps text.now → result ≡ length ps }
{
    let mut rest = text;
    let mut count = 0;
    while let Some((_first, _after)) = next(rest) {
        rest = first_param(rest).1;
        count += 1;
    }
    count
}

/// The octets from element number `n` on; or how many elements there are, if they are not more than
/// `n`.
pub fn from_element(text: &[u8], n: usize) -> Result<&[u8], usize>
    ensures { MatchResult result (λ rest. IsFrom Element n text.now rest.now)
        (IsFew Element n text.now) }
{
    let mut rest = text;
    let mut passed = 0;
    while let Some((_first, _after)) = next(rest) {
        if passed == n {
            return Ok(rest);
        }
        rest = first_element(rest).1;
        passed += 1;
    }
    Err(passed)
}

/// The octets from parameter number `n` on; or how many parameters there are, if they are not more
/// than `n`.
pub fn from_param(text: &[u8], n: usize) -> Result<&[u8], usize>
    ensures { MatchResult result (λ rest. IsFrom Param n text.now rest.now)
        (IsFew Param n text.now) }
{
    let mut rest = text;
    let mut passed = 0;
    while let Some((_first, _after)) = next(rest) {
        if passed == n {
            return Ok(rest);
        }
        rest = first_param(rest).1;
        passed += 1;
    }
    Err(passed)
}
