//! The first octet that a JSON string can only have as an escape.

ghost use Rattle.std.specs.Prelude.{◌≡◌, ◌+◌, ◌≤◌, length};
ghost use Rattle.memchr.specs.Find.{IsFirstByte, Nowhere, Passes};
ghost use Rattle.syslog_fields.specs.Lanes.{IsRunOf};
ghost use Rattle.record_json.specs.Texts.{IsKept, is_escaped};

use std::simd::prelude::*;
use syslog_fields::lanes::{LANES, lanes_before};

/// How many of the sixteen octets at an offset come before the first that a string cannot have as
/// it is.
#[inline(always)]
fn kept_run(octets: &[u8], at: usize) -> usize
    requires { at + LANES ≤ length octets.now }
    ensures { IsRunOf IsKept octets.now at result }
{
    let lanes = u8x16::from_slice(&octets[at..]);
    let control = lanes.simd_lt(u8x16::splat(32));
    let marks = lanes.simd_eq(u8x16::splat(b'"')) | lanes.simd_eq(u8x16::splat(b'\\'));
    lanes_before((control | marks).to_bitmask())
}

#[inline(always)]
fn is_escaped(octet: u8) -> bool
    ensures { result ≡ is_escaped octet }
{
    octet < 32 || octet == b'"' || octet == b'\\'
}

/// The first offset of such an octet; none stands before `from`.
#[inline(always)]
fn escaped_from(octets: &[u8], from: usize) -> Option<usize>
    requires within { from ≤ length octets.now }
    requires none { Nowhere (Passes is_escaped octets.now) 0 from }
    ensures { IsFirstByte is_escaped octets.now result }
{
    for i in from..octets.len() {
        if is_escaped(octets[i]) {
            return Some(i);
        }
    }
    None
}

/// The first offset of an octet that a string can only have as an escape.
#[inline(always)]
pub fn near_escaped(octets: &[u8]) -> Option<usize>
    ensures { IsFirstByte is_escaped octets.now result }
{
    let mut at = 0;
    while octets.len() - at >= LANES {
        let run = kept_run(octets, at);
        at += run;
        if run < LANES {
            return Some(at);
        }
    }
    if octets.len() < LANES {
        return escaped_from(octets, at);
    }
    // the last sixteen octets, of which some may have been looked at
    let last = octets.len() - LANES;
    let run = kept_run(octets, last);
    if run < LANES {
        return Some(last + run);
    }
    None
}
