//! The first id of the structured data that repeats an earlier one (RFC 5424, 6.3.2).

ghost use Rattle.std.specs.Prelude.{◌≡◌, ◌≤◌, ◌↔◌, length, List, IsTrue, MatchOption, option_map};
ghost use Rattle.octet_language.specs.Language.{AnyOf, Each};
ghost use Rattle.syslog_value.specs.Parts.{ElementParts};
ghost use Rattle.syslog_value.specs.Structured.{HasId};
ghost use Rattle.syslog_fields.specs.Grammar.{StructuredDataText, Element};
ghost use Rattle.syslog_reading.specs.Ids.{HoldsDistinct, HoldsRepeated, IsAbove, IsAtMost, Known};

use crate::distinct::offset_of_repeated;
use crate::first_element::first_element;
use crate::id_table::behind_hashed;
use std::cmp::Ordering;
use syslog_fields::reading::next;

/// Whether one of these elements has the id.
fn holds_id(elements: &[u8], id: &[u8]) -> bool
    ensures { (es : List ElementParts) → Each Element es elements.now
        → (IsTrue result ↔ HasId id.now es) }
{
    let mut rest = elements;
    while let Some((_first, _after)) = next(rest) {
        let (found, behind) = first_element(rest);
        if found.id() == id {
            return true;
        }
        rest = behind;
    }
    false
}

/// Whether an id is above the greatest one before it.
pub fn is_above(id: &[u8], greatest: Option<&[u8]>) -> bool
    ensures above { IsTrue result → IsAbove id.now (option_map (λ s. s.now) greatest.entry) }
    ensures most { (IsTrue result → ⊥)
        → IsAtMost id.now (option_map (λ s. s.now) greatest.entry) }
{
    match greatest {
        None => true,
        Some(greatest) => match greatest.cmp(id) {
            Ordering::Less => true,
            Ordering::Equal => false,
            Ordering::Greater => false,
        },
    }
}

/// What follows elements at the start whose ids differ, found by sorting: the first that repeats an
/// id, or nothing, or what keys do not reach.
fn behind_sorted(structured_data: &[u8]) -> &[u8]
    requires { AnyOf StructuredDataText structured_data.now }
    ensures { Known structured_data.now result.now }
{
    let Some((first, _after)) = next(structured_data) else {
        return structured_data;
    };
    if first != b'[' {
        return structured_data;
    }
    let at = offset_of_repeated(structured_data);
    let (_, rest) = structured_data.split_at(at);
    rest
}

/// What follows elements at the start whose ids differ, after the table has told no more: the ids
/// are sorted, once.
fn left_behind<'a>(structured_data: &'a [u8], known: &'a [u8], is_sorted: bool) -> &'a [u8]
    requires data { AnyOf StructuredDataText structured_data.now }
    requires known { Known structured_data.now known.now }
    ensures known { Known structured_data.now result.now }
    ensures within { length result.now ≤ length known.now }
{
    if is_sorted {
        return known;
    }
    let rest = behind_sorted(structured_data);
    if rest.len() < known.len() {
        return rest;
    }
    known
}

/// The offset of the first id that repeats an earlier one.
///
/// It takes one pass with a table of hashes on the stack. The table only tells that ids differ: an
/// id that it seems to hold is compared with all those before it. If none of them is equal, the ids
/// are sorted.
pub fn first_repeated(structured_data: &[u8]) -> Option<usize>
    requires { AnyOf StructuredDataText structured_data.now }
    ensures { MatchOption result (HoldsDistinct structured_data.now)
        (HoldsRepeated structured_data.now) }
{
    let mut rest = behind_hashed(structured_data, 0x9E37_79B9_7F4A_7C15);
    let mut is_sorted = false;
    while let Some((first, _after)) = next(rest) {
        if first != b'[' {
            return None;
        }
        let (found, behind) = first_element(rest);
        let id = found.id();
        let (before, _) = structured_data.split_at(structured_data.len() - rest.len());
        if holds_id(before, id) {
            return Some(before.len() + 1);
        }
        rest = left_behind(structured_data, behind, is_sorted);
        is_sorted = true;
    }
    None
}
