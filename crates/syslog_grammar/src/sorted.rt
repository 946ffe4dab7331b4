//! The canonical octets of structured data whose ids do not ascend: numbers that hold the fronts of
//! its ids and their offsets are sorted on the stack.

ghost use Rattle.std.specs.Prelude.{◌≡◌, ◌≤◌, ◌<◌, Bool, List, IfSome, length, take, ⊤};
ghost use Rattle.std.specs.List.Sorted.{IsPermutation};
ghost use Rattle.syslog_value.specs.Parts.{ElementParts};
ghost use Rattle.syslog_fields.specs.Appending.{Puts};
ghost use Rattle.syslog_grammar.specs.Reescaped.{PutsUnless};
ghost use Rattle.syslog_grammar.specs.Sorting.{AreElementsOf, AreKeysOf, FirstOf, KeysForm, SortedDataOf};
ghost use Rattle.syslog_grammar.specs.Sorting.{SortedElementsOf, offset_of};

use crate::few_elements::put_few;
use crate::reescaped::put_element;
use std::alloc::AllocError;
use syslog_fields::appending::put;
use syslog_fields::reading::next;
use syslog_reading::first_element::{first_element, first_id};
use syslog_reading::repeated::is_above;

/// The offset in the lower 24 bits of a key.
#[inline(always)]
fn offset_of(key: u64) -> usize
    ensures { result ≡ offset_of key }
{
    (key % 0x100_0000) as usize
}

/// The first five octets of an id, and zeros for those that it lacks.
#[inline(always)]
fn front_of(id: &[u8]) -> [u8; 8] {
    match id {
        [a, b, c, d, e, ..] => [*a, *b, *c, *d, *e, 0, 0, 0],
        [a, b, c, d] => [*a, *b, *c, *d, 0, 0, 0, 0],
        [a, b, c] => [*a, *b, *c, 0, 0, 0, 0, 0],
        [a, b] => [*a, *b, 0, 0, 0, 0, 0, 0],
        [a] => [*a, 0, 0, 0, 0, 0, 0, 0],
        [] => [0; 8],
    }
}

/// An id's first five octets and an offset, as one number.
#[inline(always)]
fn key_of(id: &[u8], offset: usize) -> u64
    requires { offset < 16777216 }
    ensures { offset_of result ≡ offset }
{
    u64::from_be_bytes(front_of(id)) / 0x100_0000 * 0x100_0000 + offset as u64
}

/// Puts a key for each element into the slice, if it has room for them.
fn fill_keys(elements: &[u8], keys: &mut [u64]) -> Option<usize>
    requires { length elements.now < 16777216 }
    ensures { IfSome result (λ n. (n ≤ length keys.new)
        × ((a : Bool) (es : List ElementParts) → AreElementsOf a es elements.now
        → AreKeysOf a elements.now es (take n keys.new))) }
{
    let mut rest = elements;
    let mut count = 0;
    while let Some((_first, _after)) = next(rest) {
        let (found, behind) = first_element(rest);
        if count >= keys.len() {
            return None;
        }
        keys[count] = key_of(found.id(), elements.len() - rest.len());
        count += 1;
        rest = behind;
    }
    Some(count)
}

/// Whether two neighbouring keys have the same front.
fn have_ties(keys: &[u64]) -> bool {
    for i in 1..keys.len() {
        if keys[i - 1] / 0x100_0000 == keys[i] / 0x100_0000 {
            return true;
        }
    }
    false
}

/// What begins at the offset of a key.
#[inline(always)]
fn text_at(elements: &[u8], key: u64) -> &[u8] {
    let (_, text) = elements.split_at(offset_of(key).min(elements.len()));
    text
}

/// Puts the keys of elements in the order of their ids.
fn sort_keys(elements: &[u8], keys: &mut [u64])
    ensures { IsPermutation keys.old keys.new }
{
    keys.sort_unstable();
    if have_ties(keys) {
        keys.sort_unstable_by(|left, right| {
            text_at(elements, *left).cmp(text_at(elements, *right))
        });
    }
}

/// Appends the element that comes first, as it lies if that is canonical.
fn put_first(octets: &[u8], is_form: bool, out: &mut Vec<u8>) -> Result<(), AllocError>
    ensures { Puts (FirstOf is_form octets.now) out.old.items out.new.items result }
{
    if is_form {
        let (_found, behind) = first_element(octets);
        let (text, _) = octets.split_at(octets.len() - behind.len());
        return put(text, out);
    }
    put_element(octets, out)?;
    Ok(())
}

/// Appends the elements at the offsets of keys, up to one whose id is not above those before it.
fn put_rising<'a>(
    elements: &'a [u8],
    keys: &[u64],
    is_form: bool,
    out: &mut Vec<u8>,
) -> Result<bool, AllocError>
    ensures { PutsUnless (KeysForm is_form elements.now keys.now) ⊤
        out.old.items out.new.items result }
{
    let mut greatest: Option<&'a [u8]> = None;
    for i in 0..keys.len() {
        let Some((_before, rest)) = elements.split_at_checked(offset_of(keys[i])) else {
            return Ok(false);
        };
        let id = first_id(rest);
        if !is_above(id, greatest) {
            return Ok(false);
        }
        put_first(rest, is_form, out)?;
        greatest = Some(id);
    }
    Ok(true)
}

/// Appends elements in the order of their ids, if the slice has room for their keys.
fn put_sorted_in(
    elements: &[u8],
    keys: &mut [u64],
    is_form: bool,
    out: &mut Vec<u8>,
) -> Result<bool, AllocError>
    requires { length elements.now < 16777216 }
    ensures { PutsUnless (SortedElementsOf is_form elements.now) ⊤ out.old.items out.new.items result }
{
    let Some(count) = fill_keys(elements, keys) else {
        return Ok(false);
    };
    let (found, _) = keys.split_at_mut(count);
    sort_keys(elements, found);
    put_rising(elements, found, is_form, out)
}

/// The same with room for so many keys on the stack.
#[inline(never)]
fn put_sorted_in_room<const N: usize>(
    elements: &[u8],
    is_form: bool,
    out: &mut Vec<u8>,
) -> Result<bool, AllocError>
    requires elements { length elements.now < 16777216 }
    requires room { N ≤ 131072 }
    ensures { PutsUnless (SortedElementsOf is_form elements.now) ⊤ out.old.items out.new.items result }
{
    let mut keys = [0; N];
    put_sorted_in(elements, &mut keys, is_form, out)
}

/// Appends elements in the order of their ids, by keys, in less than 1 MiB of stack.
///
/// An element has at least three octets. There are 91 ids of one octet and 8,281 of two, so that
/// 262,144 octets have fewer than 65,536 elements whose ids differ, and 524,295 octets fewer than
/// 106,752.
fn put_by_keys(elements: &[u8], is_form: bool, out: &mut Vec<u8>) -> Result<bool, AllocError>
    ensures { PutsUnless (SortedElementsOf is_form elements.now) ⊤ out.old.items out.new.items result }
{
    match elements.len() {
        0..=192 => put_sorted_in_room::<64>(elements, is_form, out),
        193..=768 => put_sorted_in_room::<256>(elements, is_form, out),
        769..=3072 => put_sorted_in_room::<1024>(elements, is_form, out),
        3073..=12_288 => put_sorted_in_room::<4096>(elements, is_form, out),
        12_289..=49_152 => put_sorted_in_room::<16_384>(elements, is_form, out),
        49_153..=262_144 => put_sorted_in_room::<65_536>(elements, is_form, out),
        262_145..=16_777_215 => put_sorted_in_room::<106_752>(elements, is_form, out),
        _ => Ok(false),
    }
}

/// Appends elements in the order of their ids.
fn put_elements(elements: &[u8], is_form: bool, out: &mut Vec<u8>) -> Result<bool, AllocError>
    ensures { PutsUnless (SortedElementsOf is_form elements.now) ⊤ out.old.items out.new.items result }
{
    let start = out.len();
    if put_few(elements, is_form, out)? {
        return Ok(true);
    }
    out.truncate(start);
    put_by_keys(elements, is_form, out)
}

/// Appends structured data with its elements in the order of their ids. Each is copied as it lies
/// if the data is canonical except for their order.
///
/// If there are too many elements for the stack, the answer is false, and a part may have been
/// appended. The same may happen if ids have the same first five octets: then texts are sorted, and
/// that of an element without parameters may sort differently from its id, if another id begins
/// with that. It fails only when out of memory.
pub fn put_sorted(
    structured_data: &[u8],
    is_form: bool,
    out: &mut Vec<u8>,
) -> Result<bool, AllocError>
    ensures { PutsUnless (SortedDataOf is_form structured_data.now) ⊤ out.old.items out.new.items result }
{
    let Some((first, _after)) = next(structured_data) else {
        return Ok(false);
    };
    if first != b'[' {
        return Ok(false);
    }
    put_elements(structured_data, is_form, out)
}
