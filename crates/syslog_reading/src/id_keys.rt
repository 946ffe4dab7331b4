//! Keys that stand for elements, and are sorted by their ids: of eight octets each, the higher four
//! are octets of the id, and the lower four are the offset of the element.

ghost use Rattle.std.specs.Prelude.{◌≡◌, ◌≤◌, ◌<◌, length};
ghost use Rattle.std.specs.List.Sorted.{IsPermutation};
ghost use Rattle.std.specs.Prelude.{drop};
ghost use Rattle.syslog_fields.specs.FirstElements.{IsFirstId};
ghost use Rattle.syslog_reading.specs.IdKeys.{offset_of, offsets};

use crate::first_element::first_id;

/// What offsets in keys are below: they have four octets there.
const OFFSETS: u64 = 0x1_0000_0000;

/// Where the last four octets of the longest id begin, which has 32.
const LAST_DEPTH: usize = 28;

/// The offset of the element of a key.
#[inline(always)]
pub fn offset_of(key: u64) -> usize
    ensures offset { result ≡ offset_of key }
    ensures small { result < 4294967296 }
{
    (key % OFFSETS) as usize
}

/// The first four octets, and zeros for those that are missing.
#[inline(always)]
fn front_of(octets: &[u8]) -> [u8; 4] {
    match octets {
        [a, b, c, d, ..] => [*a, *b, *c, *d],
        [a, b, c] => [*a, *b, *c, 0],
        [a, b] => [*a, *b, 0, 0],
        [a] => [*a, 0, 0, 0],
        [] => [0; 4],
    }
}

/// The key of an element, with the first four of these octets of its id.
#[inline(always)]
pub fn key_of(octets: &[u8], offset: usize) -> u64
    requires { offset < 4294967296 }
    ensures { offset_of result ≡ offset }
{
    u64::from(u32::from_be_bytes(front_of(octets))) * OFFSETS + offset as u64
}

/// The id of the element that begins at an offset.
#[inline(always)]
pub fn id_at(elements: &[u8], offset: usize) -> &[u8]
    ensures { IsFirstId (drop offset elements.now) result.now }
{
    let (_, text) = elements.split_at(offset.min(elements.len()));
    first_id(text)
}

/// The octets of an id behind so many.
#[inline(always)]
fn behind_depth(id: &[u8], depth: usize) -> &[u8] {
    let (_, octets) = id.split_at(depth.min(id.len()));
    octets
}

/// Gives keys the octets of their ids behind so many.
fn set_fronts(elements: &[u8], keys: &mut [u64], depth: usize)
    ensures { offsets keys.new ≡ offsets keys.old }
{
    for i in 0..keys.len() {
        let offset = offset_of(keys[i]);
        let octets = behind_depth(id_at(elements, offset), depth);
        keys[i] = key_of(octets, offset);
    }
}

/// How many keys at the start have the same octets.
fn tied_len(keys: &[u64]) -> usize
    requires { 0 < length keys.now }
    ensures some { 0 < result }
    ensures within { result ≤ length keys.now }
{
    let front = keys[0] / OFFSETS;
    for i in 1..keys.len() {
        if keys[i] / OFFSETS != front {
            return i;
        }
    }
    keys.len()
}

/// Whether so many keys are more than one, and their ids may have further octets.
#[inline(always)]
fn may_go_on(key: u64, count: usize) -> bool {
    count > 1 && key / OFFSETS % 256 != 0
}

/// Puts the keys in the order of their ids, if these have the same octets up to the depth, which
/// are followed by those in the keys. Equal ids are in the order of their offsets.
pub fn sort_keys(elements: &[u8], keys: &mut [u64], depth: usize)
    ensures { IsPermutation (offsets keys.old) (offsets keys.new) }
{
    keys.sort_unstable();
    if depth >= LAST_DEPTH {
        return;
    }
    let mut start = 0;
    while start < keys.len() {
        let (_, rest) = keys.split_at(start);
        let count = tied_len(rest);
        if may_go_on(keys[start], count) {
            let tied = &mut keys[start..start + count];
            set_fronts(elements, tied, depth + 4);
            sort_keys(elements, tied, depth + 4);
        }
        start += count;
    }
}
