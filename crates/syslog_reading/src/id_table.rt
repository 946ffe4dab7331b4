//! A table of hashes, by which ids are known to differ from each other.

ghost use Rattle.std.specs.Prelude.{◌≡◌, ◌<◌, ◌≤◌, IsTrue};
ghost use Rattle.octet_language.specs.Language.{AnyOf};
ghost use Rattle.syslog_fields.specs.Grammar.{StructuredDataText};
ghost use Rattle.syslog_reading.specs.IdHashes.{TakesHash, place_of, tag_of};
ghost use Rattle.syslog_reading.specs.Ids.{Known};

use crate::first_element::first_element;
use crate::id_hash::id_hash;
use syslog_fields::reading::next;

/// How many slots are searched for a hash.
const WINDOW: usize = 128;

/// Where the search for a hash begins in a table of so many slots.
#[inline(always)]
fn place(hash: u64, room: usize) -> usize
    requires { 0 < room }
    ensures { result ≡ place_of room hash }
{
    (hash / 0x8000_0000_0000) as usize % room
}

/// What stands for a hash in a table.
#[inline(always)]
fn tag(hash: u64) -> u32
    ensures tag { result ≡ tag_of hash }
    ensures some { 0 < result }
{
    (hash / 0x1_0000 % 0x8000_0000) as u32 + 1
}

/// Puts a hash into a table. The answer is false if the table seems to hold it already, or if there
/// is no free slot near its place.
#[inline(always)]
fn put(slots: &mut [u32], room: usize, hash: u64) -> bool
    requires { 0 < room }
    ensures { IsTrue result → TakesHash room hash slots.old slots.new }
{
    let start = place(hash, room);
    let tag = tag(hash);
    for i in start..slots.len().min(start.saturating_add(WINDOW)) {
        if slots[i] == 0 {
            slots[i] = tag;
            return true;
        }
        if slots[i] == tag {
            return false;
        }
    }
    false
}

/// What follows elements at the start whose ids differ: all up to one whose hash was met before, or
/// finds no free slot near its place.
#[inline(always)]
fn behind_new<'a>(
    structured_data: &'a [u8],
    slots: &mut [u32],
    room: usize,
    multiplier: u64,
) -> &'a [u8]
    requires data { AnyOf StructuredDataText structured_data.now }
    requires room { 0 < room }
    ensures { Known structured_data.now result.now }
{
    let mut rest = structured_data;
    while let Some((first, _after)) = next(rest) {
        if first != b'[' {
            return rest;
        }
        let (found, behind) = first_element(rest);
        if !put(slots, room, id_hash(multiplier, found.id())) {
            return rest;
        }
        rest = behind;
    }
    rest
}

/// The same with a table of its own.
#[inline(never)]
fn behind_new_in<const SLOTS: usize>(structured_data: &[u8], multiplier: u64) -> &[u8]
    requires data { AnyOf StructuredDataText structured_data.now }
    requires least { WINDOW < SLOTS }
    requires most { SLOTS ≤ 262144 }
    ensures { Known structured_data.now result.now }
{
    let mut slots = [0; SLOTS];
    behind_new(structured_data, &mut slots, SLOTS - WINDOW, multiplier)
}

/// What follows elements at the start whose ids differ: all up to one whose hash, by an odd
/// multiplier, was met before or finds no free slot near its place. The table has a slot for every
/// two octets, up to 262,144 of them; beyond that it has 131,200 slots. An element has at least
/// three octets.
pub fn behind_hashed(structured_data: &[u8], multiplier: u64) -> &[u8]
    requires { AnyOf StructuredDataText structured_data.now }
    ensures { Known structured_data.now result.now }
{
    let len = structured_data.len();
    if len <= 256 {
        behind_new_in::<256>(structured_data, multiplier)
    } else if len <= 1024 {
        behind_new_in::<640>(structured_data, multiplier)
    } else if len <= 4096 {
        behind_new_in::<2176>(structured_data, multiplier)
    } else if len <= 16_384 {
        behind_new_in::<8320>(structured_data, multiplier)
    } else if len <= 65_536 {
        behind_new_in::<32_896>(structured_data, multiplier)
    } else {
        behind_new_in::<131_200>(structured_data, multiplier)
    }
}
