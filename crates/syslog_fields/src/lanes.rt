//! Sixteen octets at a time.

ghost use Rattle.std.specs.Prelude.{◌≡◌, ◌+◌, ◌≤◌, IsTrue, length};
ghost use Rattle.syslog_value.specs.Parts.{IsNameOctet, IsPrintable};
ghost use Rattle.syslog_fields.specs.Lanes.{IsNeither, IsRunOf, LiesBetween, first_set};
ghost use Rattle.syslog_fields.specs.Values.{IsPlainOctet};

use std::simd::prelude::*;

/// How many octets one load has.
pub const LANES: usize = 16;

/// How many lanes come before the first one that is set in a mask.
#[inline(always)]
pub fn lanes_before(mask: u64) -> usize
    ensures { result ≡ first_set mask }
{
    if mask == 0 {
        LANES
    } else {
        mask.trailing_zeros() as usize
    }
}

/// How many of the sixteen octets at an offset come before the first that is not printable.
#[inline(always)]
pub fn printable_run(octets: &[u8], at: usize) -> usize
    requires { at + LANES ≤ length octets.now }
    ensures { IsRunOf IsPrintable octets.now at result }
{
    let above_space = u8x16::from_slice(&octets[at..]) - u8x16::splat(33);
    lanes_before(above_space.simd_ge(u8x16::splat(94)).to_bitmask())
}

/// How many of the sixteen octets at an offset come before the first that cannot be part of a name.
#[inline(always)]
pub fn name_run(octets: &[u8], at: usize) -> usize
    requires { at + LANES ≤ length octets.now }
    ensures { IsRunOf IsNameOctet octets.now at result }
{
    let lanes = u8x16::from_slice(&octets[at..]);
    let outside = (lanes - u8x16::splat(33)).simd_ge(u8x16::splat(94));
    let brackets = lanes.simd_eq(u8x16::splat(b']')) | lanes.simd_eq(u8x16::splat(b'"'));
    let marks = brackets | lanes.simd_eq(u8x16::splat(b'='));
    lanes_before((outside | marks).to_bitmask())
}

/// How many of the sixteen octets at an offset come before the first that is no piece of a value
/// meaning itself.
#[inline(always)]
pub fn plain_run(octets: &[u8], at: usize) -> usize
    requires { at + LANES ≤ length octets.now }
    ensures { IsRunOf IsPlainOctet octets.now at result }
{
    let lanes = u8x16::from_slice(&octets[at..]);
    let high = lanes.simd_ge(u8x16::splat(128));
    let marks = lanes.simd_eq(u8x16::splat(b'"')) | lanes.simd_eq(u8x16::splat(b'\\'));
    let special = marks | lanes.simd_eq(u8x16::splat(b']'));
    lanes_before((high | special).to_bitmask())
}

/// How many of the sixteen octets at an offset come before the first that is either of two.
#[inline(always)]
pub fn run_before_either(first: u8, second: u8, octets: &[u8], at: usize) -> usize
    requires { at + LANES ≤ length octets.now }
    ensures { IsRunOf (IsNeither first second) octets.now at result }
{
    let lanes = u8x16::from_slice(&octets[at..]);
    let marks = lanes.simd_eq(u8x16::splat(first)) | lanes.simd_eq(u8x16::splat(second));
    lanes_before(marks.to_bitmask())
}

/// The least octet at each place of a date and a time of day up to the minutes.
const LEAST: [u8; LANES] = *b"0000-00-00T00:00";

/// The greatest octet at each place. It lets 19 pass as a month, which the caller refuses.
const MOST: [u8; LANES] = *b"9999-19-39T29:59";

/// Whether the first sixteen octets may be a date and a time of day up to the minutes.
#[inline(always)]
pub fn has_date_shape(octets: &[u8]) -> bool
    requires { LANES ≤ length octets.now }
    ensures { IsTrue result → LiesBetween LEAST MOST octets.now }
{
    let lanes = u8x16::from_slice(octets);
    let below = lanes.simd_lt(u8x16::from_array(LEAST));
    let above = lanes.simd_gt(u8x16::from_array(MOST));
    (below | above).to_bitmask() == 0
}
