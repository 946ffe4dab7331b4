//! The first of elements, and of parameters, that are known to be well-formed: where its parts end,
//! without a test.

ghost use Rattle.std.specs.Prelude.{◌≡◌, ◌≢◌, ◌≤◌, ◌<◌, ◌++◌, ◌∷◌, ℕ, List, IsTrue, length};
ghost use Rattle.octet_language.specs.Language.{IfFirst};
ghost use Rattle.syslog_fields.specs.FirstElements.{IsFirstId, IsIdLength, IsMarkedLength, IsNameLength};
ghost use Rattle.syslog_fields.specs.FirstElements.{SplitsElement, SplitsParam};
ghost use Rattle.syslog_reading.specs.Views.{element_span, param_span};

use crate::element::{ElementView, ParamView};
use syslog_fields::backslash::ends_taking;
use syslog_fields::near::{near_either, near_octet};
use syslog_fields::reading::behind_first;

/// How many octets come before the space or the bracket that ends an id.
#[inline(always)]
pub fn id_len(octets: &[u8]) -> usize
    ensures within { result ≤ length octets.now }
    ensures id { IsIdLength octets.now result }
{
    match near_either(b' ', b']', octets) {
        Some(offset) => offset,
        None => octets.len(),
    }
}

/// How many octets come before the `=` that ends a name.
#[inline(always)]
pub fn name_len(octets: &[u8]) -> usize
    ensures within { result ≤ length octets.now }
    ensures name { IsNameLength octets.now result }
{
    match near_octet(b'=', octets) {
        Some(offset) => offset,
        None => octets.len(),
    }
}

/// Whether this octet comes first.
#[inline(always)]
pub fn begins_with(mark: u8, octets: &[u8]) -> bool
    ensures mark { IsTrue result → (after : List ℕ) × (octets.now ≡ mark ∷ after) }
    ensures other { (IsTrue result → ⊥) → IfFirst (λ x. x ≢ mark) octets.now }
{
    match octets {
        [] => false,
        [first, ..] => *first == mark,
    }
}

/// How many octets come before a mark that no backslash takes.
#[inline(always)]
fn marked_len(mark: u8, octets: &[u8]) -> usize
    requires { mark ≢ 92 }
    ensures within { result ≤ length octets.now }
    ensures marked { IsMarkedLength mark octets.now result }
{
    if begins_with(mark, octets) {
        return 0;
    }
    let mut rest = octets;
    while let Some(offset) = near_octet(mark, rest) {
        let (_, found) = rest.split_at(offset);
        let (before, _) = octets.split_at(octets.len() - found.len());
        if !ends_taking(before) {
            return before.len();
        }
        rest = behind_first(found);
    }
    octets.len()
}

/// The id of the element that comes first.
#[inline(always)]
pub fn first_id(octets: &[u8]) -> &[u8]
    ensures { IsFirstId octets.now result.now }
{
    let behind = behind_first(octets);
    let (id, _rest) = behind.split_at(id_len(behind));
    id
}

/// The parameter that comes first in octets that begin with one, and what follows it.
#[inline]
pub fn first_param(octets: &[u8]) -> (ParamView<'_>, &[u8])
    ensures param { SplitsParam octets.now (param_span result.0) result.1.now }
    ensures less { 0 < length octets.now → length result.1.now < length octets.now }
{
    let behind = behind_first(octets);
    let (name, rest) = behind.split_at(name_len(behind));
    let marked = behind_first(rest);
    let value = behind_first(marked);
    let (raw, end) = value.split_at(marked_len(b'"', value));
    (ParamView { name, raw }, behind_first(end))
}

/// The element that comes first in octets that begin with one, and what follows it.
#[inline(always)]
pub fn first_element(octets: &[u8]) -> (ElementView<'_>, &[u8])
    ensures element { SplitsElement octets.now (element_span result.0) result.1.now }
    ensures suffix { (prefix : List ℕ) × (octets.now ≡ prefix ++ result.1.now) }
    ensures less { 0 < length octets.now → length result.1.now < length octets.now }
{
    let behind = behind_first(octets);
    let (id, rest) = behind.split_at(id_len(behind));
    let (params, end) = rest.split_at(marked_len(b']', rest));
    (ElementView { id, params }, behind_first(end))
}
