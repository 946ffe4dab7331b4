//! The first offset of an octet that is mostly near the start.

ghost use Rattle.std.specs.Prelude.{◌≡◌, ◌≤◌, length};
ghost use Rattle.memchr.specs.Find.{IsFirstByte, Nowhere, Passes, is_byte, is_byte2};

use crate::lanes::{LANES, run_before_either};

#[inline(always)]
fn is_either(first: u8, second: u8, octet: u8) -> bool
    ensures { result ≡ is_byte2 first second octet }
{
    octet == first || octet == second
}

/// The first offset of either octet; neither stands before `from`.
#[inline(always)]
fn either_from(first: u8, second: u8, octets: &[u8], from: usize) -> Option<usize>
    requires within { from ≤ length octets.now }
    requires none { Nowhere (Passes (is_byte2 first second) octets.now) 0 from }
    ensures { IsFirstByte (is_byte2 first second) octets.now result }
{
    for i in from..octets.len() {
        if is_either(first, second, octets[i]) {
            return Some(i);
        }
    }
    None
}

/// The first offset of either octet.
#[inline(always)]
pub fn near_either(first: u8, second: u8, octets: &[u8]) -> Option<usize>
    ensures { IsFirstByte (is_byte2 first second) octets.now result }
{
    let mut at = 0;
    while octets.len() - at >= LANES {
        let run = run_before_either(first, second, octets, at);
        at += run;
        if run < LANES {
            return Some(at);
        }
    }
    either_from(first, second, octets, at)
}

/// The first offset of an octet.
#[inline(always)]
pub fn near_octet(octet: u8, octets: &[u8]) -> Option<usize>
    ensures { IsFirstByte (is_byte octet) octets.now result }
{
    near_either(octet, octet, octets)
}
