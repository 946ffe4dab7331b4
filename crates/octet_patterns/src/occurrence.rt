//! Octets that have others in them.

ghost use Rattle.std.specs.Prelude.{◌≡◌, ◌↔◌, ◌<◌, ◌≤◌, ◌+◌, ◌/◌, ◌%◌, ◌^◌, ℕ, IsTrue, length, slice_index};
ghost use Rattle.memchr.specs.Find.{OccursAt};
ghost use Rattle.octet_patterns.specs.Occurrences.{HasWithin};

use memchr::memmem;
use std::simd::prelude::*;

// How many places are looked at at once.
const LANES: usize = 16;

// A bit for each of sixteen places, the first one lowest: it is set where the octet stands.
#[inline(always)]
fn places_of(octet: u8, text: &[u8], from: usize) -> u64
    requires { from + LANES ≤ length text.now }
    ensures { (i : ℕ) → i < 16 → slice_index text.now (from + i) ≡ octet → result / 2 ^ i % 2 ≡ 1 }
{
    let lanes = u8x16::from_slice(&text[from..]);
    lanes.simd_eq(u8x16::splat(octet)).to_bitmask()
}

// Whether the octets may stand at one of sixteen places: only if they stand at none, the answer is
// false. It looks at the first, the middle and the last octet of each.
#[inline(always)]
fn may_stand(octets: &[u8], text: &[u8], from: usize) -> bool
    requires some { 0 < length octets.now }
    requires fits { from + LANES + length octets.now ≤ length text.now + 1 }
    ensures { (i : ℕ) → i < 16 → OccursAt text.now octets.now (from + i) → IsTrue result }
{
    let middle = octets.len() / 2;
    let last = octets.len() - 1;
    let firsts = places_of(octets[0], text, from);
    let middles = places_of(octets[middle], text, from + middle);
    let lasts = places_of(octets[last], text, from + last);
    (firsts & middles & lasts) != 0
}

// The same for each place of a text that has at least sixteen.
#[inline(always)]
fn may_have(octets: &[u8], text: &[u8]) -> bool
    requires some { 0 < length octets.now }
    requires fits { LANES + length octets.now ≤ length text.now + 1 }
    ensures { (k : ℕ) → OccursAt text.now octets.now k → IsTrue result }
{
    let places = text.len() - (octets.len() - 1);
    let mut from = 0;
    while places - from > LANES {
        if may_stand(octets, text, from) {
            return true;
        }
        from += LANES;
    }
    may_stand(octets, text, places - LANES)
}

/// Whether a text has these octets somewhere, one behind the other. Each text has none.
pub fn has_within(octets: &[u8], text: &[u8]) -> bool
    ensures { IsTrue result ↔ HasWithin octets.now text.now }
{
    if text.len() < octets.len() {
        return false;
    }
    // a search has to be prepared, which costs more than a look at a text as short as a record
    let many = text.len() - octets.len() >= LANES;
    if many && !octets.is_empty() && !may_have(octets, text) {
        return false;
    }
    memmem::find(text, octets).is_some()
}
