//! The canonical octets of a few elements whose ids do not ascend: their texts are sorted on the stack.

ghost use Rattle.std.specs.Prelude.{◌≤◌, Bool, List, IfSome, length, take, ⊤};
ghost use Rattle.syslog_value.specs.Parts.{ElementParts};
ghost use Rattle.syslog_fields.specs.Appending.{Puts};
ghost use Rattle.syslog_grammar.specs.Reescaped.{PutsUnless};
ghost use Rattle.syslog_grammar.specs.Sorting.{AreElementsOf, AreTextsOf, SortedElementsOf, TextForm, TextsForm};

use crate::reescaped::put_element;
use std::alloc::AllocError;
use syslog_fields::appending::put;
use syslog_fields::reading::next;
use syslog_reading::first_element::{first_element, first_id};
use syslog_reading::repeated::is_above;

/// How many elements are few.
const FEW: usize = 8;

/// Puts the text of each element into the slice, if it has room for them.
#[inline(always)]
fn fill_texts<'a>(elements: &'a [u8], texts: &mut [&'a [u8]]) -> Option<usize>
    ensures { IfSome result (λ n. (n ≤ length texts.new)
        × ((a : Bool) (es : List ElementParts) → AreElementsOf a es elements.now
        → AreTextsOf a es (take n texts.new))) }
{
    let mut rest = elements;
    let mut count = 0;
    while let Some((_first, _after)) = next(rest) {
        let (_found, behind) = first_element(rest);
        if count >= texts.len() {
            return None;
        }
        let (text, _) = rest.split_at(rest.len() - behind.len());
        texts[count] = text;
        count += 1;
        rest = behind;
    }
    Some(count)
}

/// Appends the element of a text, as it lies if that is canonical.
#[inline(always)]
fn put_text(text: &[u8], is_form: bool, out: &mut Vec<u8>) -> Result<(), AllocError>
    ensures { Puts (TextForm is_form text.now) out.old.items out.new.items result }
{
    if is_form {
        return put(text, out);
    }
    put_element(text, out)?;
    Ok(())
}

/// Appends the elements of texts, up to one whose id is not above those before it.
#[inline(always)]
fn put_texts<'a>(texts: &[&'a [u8]], is_form: bool, out: &mut Vec<u8>) -> Result<bool, AllocError>
    ensures { PutsUnless (TextsForm is_form texts.now) ⊤ out.old.items out.new.items result }
{
    let mut greatest: Option<&'a [u8]> = None;
    for i in 0..texts.len() {
        let text = texts[i];
        let id = first_id(text);
        if !is_above(id, greatest) {
            return Ok(false);
        }
        put_text(text, is_form, out)?;
        greatest = Some(id);
    }
    Ok(true)
}

/// Appends elements in the order of their ids, if there are at most eight.
///
/// If there are more, the answer is false, and a part may have been appended. The same may happen
/// if an element has no parameters: its text may sort differently from its id, if another id begins
/// with that. It fails only when out of memory.
pub fn put_few(elements: &[u8], is_form: bool, out: &mut Vec<u8>) -> Result<bool, AllocError>
    ensures { PutsUnless (SortedElementsOf is_form elements.now) ⊤ out.old.items out.new.items result }
{
    let mut texts = [elements; FEW];
    let Some(count) = fill_texts(elements, &mut texts) else {
        return Ok(false);
    };
    let (found, _) = texts.split_at_mut(count);
    found.sort_unstable();
    put_texts(found, is_form, out)
}
