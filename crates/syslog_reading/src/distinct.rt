//! Where the first id that was met before may stand: found by sorting, without memory, and in a time
//! that the choice of the ids does not change much.

ghost use Rattle.std.specs.Prelude.{◌≡◌, ◌≤◌, ◌+◌, ◌<◌, ◌⊎◌, ℕ, List, length, take};
ghost use Rattle.std.specs.List.{Contains};
ghost use Rattle.syslog_value.specs.Order.{OctetsBelow};
ghost use Rattle.syslog_reading.specs.IdKeys.{DifferUpTo, IsEnd, Offered, RepeatFrom, offsets};

use crate::first_element::first_element;
use crate::id_keys::{id_at, key_of, offset_of, sort_keys};
use std::cmp::Ordering;
use syslog_fields::reading::next;

/// Puts keys of elements into the slice, while there is room for them. It gives their number, and
/// the offset up to which elements have keys.
fn fill_keys(elements: &[u8], keys: &mut [u64]) -> (usize, usize)
    ensures count { result.0 ≤ length keys.new }
    ensures offered { (rest : List ℕ) × (result.1 + length rest ≡ length elements.now)
        × Offered elements.now rest (offsets (take result.0 keys.new)) }
{
    let mut rest = elements;
    let mut count = 0;
    while let Some((_first, _after)) = next(rest) {
        let offset = elements.len() - rest.len();
        if count >= keys.len() {
            return (count, offset);
        }
        if offset >= 0x1_0000_0000 {
            return (count, offset);
        }
        let (found, behind) = first_element(rest);
        keys[count] = key_of(found.id(), offset);
        count += 1;
        rest = behind;
    }
    (count, elements.len())
}

/// The lesser of two offsets.
#[inline(always)]
fn lesser(at: usize, offset: usize) -> usize
    ensures bounds { (result ≤ at) × (result ≤ offset) }
    ensures one { (result ≡ at) ⊎ (result ≡ offset) }
{
    if offset < at {
        return offset;
    }
    at
}

/// The least offset of an id that repeats the one before it: this one, or that of the next id. It
/// is zero if the next id is below the one before it, which no sort leaves.
#[inline(always)]
fn least_met(at: usize, last: &[u8], id: &[u8], offset: usize) -> usize
    ensures less { result ≤ at }
    ensures met { OctetsBelow last.now id.now
        ⊎ (((last.now ≡ id.now) × (result ≤ offset)) ⊎ (result ≡ 0)) }
    ensures one { (result ≡ at) ⊎ ((result ≡ offset) ⊎ (result ≡ 0)) }
{
    match last.cmp(id) {
        Ordering::Less => at,
        Ordering::Equal => lesser(at, offset),
        Ordering::Greater => 0,
    }
}

/// The least offset of an element whose id repeats an earlier one, if the keys are sorted; this one
/// if there is none.
fn first_met(elements: &[u8], keys: &[u64], reach: usize) -> usize
    ensures within { result ≤ reach }
    ensures met { RepeatFrom elements.now result (offsets keys.now) }
    ensures one { (result ≡ reach) ⊎ ((result ≡ 0) ⊎ Contains (offsets keys.now) result) }
{
    let mut at = reach;
    let (mut last, _) = elements.split_at(0);
    for i in 0..keys.len() {
        let offset = offset_of(keys[i]);
        let id = id_at(elements, offset);
        at = least_met(at, last, id, offset);
        last = id;
    }
    at
}

/// The offset up to which the ids of elements differ, as far as the slice has room for keys.
fn differ_up_to(elements: &[u8], keys: &mut [u64]) -> usize
    ensures differ { DifferUpTo elements.now result }
    ensures end { IsEnd elements.now result }
{
    let (count, reach) = fill_keys(elements, keys);
    let (found, _) = keys.split_at_mut(count);
    sort_keys(elements, found, 0);
    first_met(elements, found, reach)
}

/// The same with room for so many keys on the stack.
#[inline(never)]
fn differ_in_room<const ROOM: usize>(elements: &[u8]) -> usize
    requires { ROOM ≤ 131072 }
    ensures differ { DifferUpTo elements.now result }
    ensures end { IsEnd elements.now result }
{
    let mut keys = [0; ROOM];
    differ_up_to(elements, &mut keys)
}

/// The offset up to which the ids of elements differ: all of them, or up to the first that repeats
/// an earlier one, or as far as keys reach, in at most 1 MiB of stack.
///
/// An element has at least three octets. There are 91 ids of one octet and 8,281 of two, so that
/// 262,144 octets have fewer than 65,536 elements whose ids differ, and 524,295 octets fewer than
/// 106,752.
pub fn offset_of_repeated(elements: &[u8]) -> usize
    ensures differ { DifferUpTo elements.now result }
    ensures end { IsEnd elements.now result }
{
    match elements.len() {
        0..=192 => differ_in_room::<64>(elements),
        193..=768 => differ_in_room::<256>(elements),
        769..=3072 => differ_in_room::<1024>(elements),
        3073..=12_288 => differ_in_room::<4096>(elements),
        12_289..=49_152 => differ_in_room::<16_384>(elements),
        49_153..=262_144 => differ_in_room::<65_536>(elements),
        262_145..=524_295 => differ_in_room::<106_752>(elements),
        _ => differ_in_room::<128_000>(elements),
    }
}
