//! The canonical octets of structured data, from any octets that spell it: each part is written as its
//! end is found.

ghost use Rattle.std.specs.Prelude.{◌≤◌, ◌<◌, IfOk, IsTrue, MatchResult, length};
ghost use Rattle.octet_language.specs.Language.{Only};
ghost use Rattle.syslog_fields.specs.Appending.{Adds, Anything, Puts};
ghost use Rattle.syslog_grammar.specs.Reescaped.{ElementsOf, FirstElement, FirstParam, FirstParams, FirstValue};
ghost use Rattle.syslog_grammar.specs.Reescaped.{KeptTo, RunForm};

use std::alloc::AllocError;
use syslog_fields::appending::put;
use syslog_fields::backslash::behind_escapes;
use syslog_fields::near::near_either;
use syslog_fields::reading::{behind_first, next};
use syslog_fields::unescape::begins_special;
use syslog_reading::first_element::{begins_with, id_len, name_len};

/// What follows the octets that a canonical record has as they are, if a value and its quotation
/// mark come first: up to the mark, which ends them, or up to a backslash that is no escape. It
/// tells whether the mark ended them.
#[inline(always)]
fn behind_kept(octets: &[u8]) -> (&[u8], bool)
    ensures kept { KeptTo octets.now result.0.now result.1 }
    ensures most { length result.0.now ≤ length octets.now }
    ensures less { (IsTrue result.1 → ⊥) → length result.0.now < length octets.now }
{
    let mut rest = octets;
    while let Some(offset) = near_either(b'"', b'\\', rest) {
        let (_, marked) = rest.split_at(offset);
        let behind = behind_first(marked);
        if begins_with(b'"', marked) {
            return (behind, true);
        }
        if !begins_special(behind) {
            return (behind, false);
        }
        rest = behind_escapes(behind_first(behind));
    }
    (octets, true)
}

/// Appends octets, mostly one or two.
#[inline(always)]
fn put_few(octets: &[u8], out: &mut Vec<u8>) -> Result<(), AllocError>
    ensures { Puts (Only octets.now) out.old.items out.new.items result }
{
    match octets {
        [first] => out.push(*first)?,
        [first, second] => {
            out.push(*first)?;
            out.push(*second)?;
        }
        _ => put(octets, out)?,
    }
    Ok(())
}

/// Appends the octets up to where they are no longer those of a canonical record, and a backslash
/// if a second one is missing there.
#[inline(always)]
fn put_run(run: &[u8], is_last: bool, out: &mut Vec<u8>) -> Result<(), AllocError>
    ensures { Puts (RunForm is_last run.now) out.old.items out.new.items result }
{
    put_few(run, out)?;
    if is_last {
        return Ok(());
    }
    put_few(b"\\", out)
}

/// Appends the canonical spelling of the value that comes first and its quotation mark, and gives
/// what follows it: a backslash that is no escape is written twice.
fn put_value<'a>(octets: &'a [u8], out: &mut Vec<u8>) -> Result<&'a [u8], AllocError>
    ensures form { MatchResult result
        (λ rest. Adds (FirstValue octets.now rest.now) out.old.items out.new.items)
        (λ e. Adds Anything out.old.items out.new.items) }
    ensures most { IfOk result (λ rest. length rest.now ≤ length octets.now) }
{
    let mut rest = octets;
    let mut is_last = false;
    while !is_last {
        let (behind, ends) = behind_kept(rest);
        let (run, _) = rest.split_at(rest.len() - behind.len());
        put_run(run, ends, out)?;
        rest = behind;
        is_last = ends;
    }
    Ok(rest)
}

/// Appends the space and the parameter that come first, and gives what follows them.
fn put_param<'a>(octets: &'a [u8], out: &mut Vec<u8>) -> Result<&'a [u8], AllocError>
    ensures form { MatchResult result
        (λ rest. Adds (FirstParam octets.now rest.now) out.old.items out.new.items)
        (λ e. Adds Anything out.old.items out.new.items) }
    ensures less { IfOk result (λ rest. 0 < length octets.now → length rest.now < length octets.now) }
{
    let behind = behind_first(octets);
    let (_name, marked) = behind.split_at(name_len(behind));
    let value = behind_first(behind_first(marked));
    let (named, _) = octets.split_at(octets.len() - value.len());
    put(named, out)?;
    put_value(value, out)
}

/// Appends the parameters that come first and the bracket that ends them, and gives what follows it.
fn put_params<'a>(octets: &'a [u8], out: &mut Vec<u8>) -> Result<&'a [u8], AllocError>
    ensures form { MatchResult result
        (λ rest. Adds (FirstParams octets.now rest.now) out.old.items out.new.items)
        (λ e. Adds Anything out.old.items out.new.items) }
    ensures most { IfOk result (λ rest. length rest.now ≤ length octets.now) }
{
    let mut rest = octets;
    while begins_with(b' ', rest) {
        rest = put_param(rest, out)?;
    }
    put(b"]", out)?;
    Ok(behind_first(rest))
}

/// Appends the element that comes first, and gives what follows it. If memory is refused, a part
/// may have been appended.
pub fn put_element<'a>(octets: &'a [u8], out: &mut Vec<u8>) -> Result<&'a [u8], AllocError>
    ensures form { MatchResult result
        (λ rest. Adds (FirstElement octets.now rest.now) out.old.items out.new.items)
        (λ e. Adds Anything out.old.items out.new.items) }
    ensures less { IfOk result (λ rest. 0 < length octets.now → length rest.now < length octets.now) }
{
    let behind = behind_first(octets);
    let (_id, params) = behind.split_at(id_len(behind));
    let (head, _) = octets.split_at(octets.len() - params.len());
    put(head, out)?;
    put_params(params, out)
}

/// Appends elements. If memory is refused, a part may have been appended.
pub fn put_elements(elements: &[u8], out: &mut Vec<u8>) -> Result<(), AllocError>
    ensures { Puts (ElementsOf elements.now) out.old.items out.new.items result }
{
    let mut rest = elements;
    while let Some((_first, _after)) = next(rest) {
        rest = put_element(rest, out)?;
    }
    Ok(())
}
