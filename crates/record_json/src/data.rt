//! The structured data as an object, from octets that spell it.

ghost use Rattle.std.specs.Prelude.{◌≤◌, ◌<◌, ◌∷◌, ◌++◌, [], IfOk, MatchResult, length};
ghost use Rattle.octet_language.specs.Language.{Only};
ghost use Rattle.syslog_fields.specs.Appending.{Adds, Anything, Puts};
ghost use Rattle.syslog_reading.specs.Views.{param_span};
ghost use Rattle.record_json.specs.Texts.{DataOf, ElementsOf, FirstElement, FirstParams, ParamOf, comma_if};

use crate::escapes::{put_escaped, put_value};
use std::alloc::AllocError;
use syslog_fields::appending::put;
use syslog_fields::reading::{behind_first, next};
use syslog_reading::ParamView;
use syslog_reading::first_element::{begins_with, first_param, id_len};

/// Appends a comma, if something stands before, and what opens a parameter.
#[inline(always)]
fn put_pair_opening(later: bool, out: &mut Vec<u8>) -> Result<(), AllocError>
    ensures { Puts (Only (comma_if later ++ 91 ∷ 34 ∷ [])) out.old.items out.new.items result }
{
    if later {
        return put(b",[\"", out);
    }
    put(b"[\"", out)
}

/// Appends a comma, if something stands before, and what opens an element.
#[inline(always)]
fn put_key_opening(later: bool, out: &mut Vec<u8>) -> Result<(), AllocError>
    ensures { Puts (Only (comma_if later ++ 34 ∷ [])) out.old.items out.new.items result }
{
    if later {
        return put(b",\"", out);
    }
    put(b"\"", out)
}

/// Appends a parameter as an array of its name and its value.
fn put_param(param: &ParamView<'_>, later: bool, out: &mut Vec<u8>) -> Result<(), AllocError>
    ensures { Puts (ParamOf later (param_span param.now)) out.old.items out.new.items result }
{
    put_pair_opening(later, out)?;
    put_escaped(param.name(), out)?;
    put(b"\",\"", out)?;
    put_value(param.raw(), out)?;
    put(b"\"]", out)
}

/// Appends the parameters that come first and the bracket that ends them, and gives what follows it.
fn put_params<'a>(octets: &'a [u8], out: &mut Vec<u8>) -> Result<&'a [u8], AllocError>
    ensures form { MatchResult result
        (λ rest. Adds (FirstParams octets.now rest.now) out.old.items out.new.items)
        (λ e. Adds Anything out.old.items out.new.items) }
    ensures most { IfOk result (λ rest. length rest.now ≤ length octets.now) }
{
    let mut rest = octets;
    let mut later = false;
    while begins_with(b' ', rest) {
        let (param, behind) = first_param(rest);
        put_param(&param, later, out)?;
        rest = behind;
        later = true;
    }
    put(b"]", out)?;
    Ok(behind_first(rest))
}

/// Appends the element that comes first under its id, and gives what follows it.
fn put_element<'a>(octets: &'a [u8], later: bool, out: &mut Vec<u8>) -> Result<&'a [u8], AllocError>
    ensures form { MatchResult result
        (λ rest. Adds (FirstElement later octets.now rest.now) out.old.items out.new.items)
        (λ e. Adds Anything out.old.items out.new.items) }
    ensures less { IfOk result (λ rest. 0 < length octets.now → length rest.now < length octets.now) }
{
    let behind = behind_first(octets);
    let (id, params) = behind.split_at(id_len(behind));
    put_key_opening(later, out)?;
    put_escaped(id, out)?;
    put(b"\":[", out)?;
    put_params(params, out)
}

/// Appends elements in their order, and the brace that ends them.
fn put_elements(elements: &[u8], out: &mut Vec<u8>) -> Result<(), AllocError>
    ensures { Puts (ElementsOf elements.now) out.old.items out.new.items result }
{
    let mut rest = elements;
    let mut later = false;
    while let Some((_first, _after)) = next(rest) {
        rest = put_element(rest, later, out)?;
        later = true;
    }
    put(b"}", out)
}

/// Appends the elements of structured data in their order, and the brace that ends them. If memory
/// is refused, a part may have been appended.
pub fn put_data(structured_data: &[u8], out: &mut Vec<u8>) -> Result<(), AllocError>
    ensures { Puts (DataOf structured_data.now) out.old.items out.new.items result }
{
    if begins_with(b'-', structured_data) {
        return put(b"}", out);
    }
    put_elements(structured_data, out)
}
