//! A frame that lies whole in octets, lent from them.

ghost use Rattle.std.specs.Prelude.{◌≡◌, ◌<◌, ◌≤◌, ◌++◌, ◌∷◌, [], IfSome, decimal, length, take};
ghost use Rattle.syslog_frame.specs.FrameRefs.{IsFrameRef};
ghost use Rattle.syslog_frame.specs.declared.framing.Framing.TheVariants.{Counted, Lf};

use crate::count::{CountStep, count_on};
use crate::framing::Framing;
use crate::limits::{COUNT_MAX, FRAME_MAX};
use memchr::memchr;

/// How many octets a count of three digits and its space have.
const COUNT_LEN: usize = 4;

/// A frame that lies whole in octets of a stream.
#[derive(Clone, Copy, Debug, PartialEq, Eq)]
pub struct FrameRef<'a> {
    /// The frame.
    pub frame: &'a [u8],
    /// How many octets it takes on the stream, its count or its line feed included.
    pub used: usize,
}

/// The record of so many octets behind its count, which has the first `used` octets.
#[inline(always)]
fn counted_record(count: u64, used: usize, octets: &[u8]) -> Option<FrameRef<'_>>
    requires some { 0 < count }
    requires small { count ≤ COUNT_MAX }
    requires within { used ≤ length octets.now }
    requires digits { take used octets.now ≡ decimal count ++ 32 ∷ [] }
    ensures { IsFrameRef FRAME_MAX Counted octets.now result }
{
    let (_, behind) = octets.split_at(used);
    if count > FRAME_MAX as u64 {
        return None;
    }
    let len = count as usize;
    if len > behind.len() {
        return None;
    }
    let (frame, _) = behind.split_at(len);
    Some(FrameRef {
        frame,
        used: used + len,
    })
}

/// The count that comes first with its space, if it has three digits, as for most records: found at
/// one look.
#[inline(always)]
fn three_digits(octets: &[u8]) -> Option<u64>
    ensures count { IfSome result (λ count. (0 < count) × (count ≤ COUNT_MAX)) }
    ensures digits { IfSome result (λ count. (COUNT_LEN ≤ length octets.now)
        × (take COUNT_LEN octets.now ≡ decimal count ++ 32 ∷ [])) }
{
    match octets {
        [
            hundreds @ b'1'..=b'9',
            tens @ b'0'..=b'9',
            units @ b'0'..=b'9',
            b' ',
            ..
        ] => {
            let hundreds = u64::from(*hundreds - b'0');
            let tens = u64::from(*tens - b'0');
            Some(10 * (10 * hundreds + tens) + u64::from(*units - b'0'))
        }
        _ => None,
    }
}

/// The counted frame that comes first.
#[inline(always)]
fn counted_frame(octets: &[u8]) -> Option<FrameRef<'_>>
    ensures { IsFrameRef FRAME_MAX Counted octets.now result }
{
    if let Some(count) = three_digits(octets) {
        return counted_record(count, COUNT_LEN, octets);
    }
    match count_on(0, octets) {
        CountStep::Read { count, used } => counted_record(count, used, octets),
        CountStep::Unfinished { .. } => None,
        CountStep::Broken { .. } => None,
    }
}

/// The line that comes first.
#[inline(always)]
fn line(octets: &[u8]) -> Option<FrameRef<'_>>
    ensures { IsFrameRef FRAME_MAX Lf octets.now result }
{
    let Some(at) = memchr(b'\n', octets) else {
        return None;
    };
    if at > FRAME_MAX {
        return None;
    }
    let (frame, _) = octets.split_at(at);
    Some(FrameRef {
        frame,
        used: at + 1,
    })
}

/// The frame that comes first, if all of it is there and it has at most `FRAME_MAX` octets.
#[inline(always)]
pub fn borrowed_frame(framing: Framing, octets: &[u8]) -> Option<FrameRef<'_>>
    ensures { IsFrameRef FRAME_MAX framing octets.now result }
{
    match framing {
        Framing::Counted => counted_frame(octets),
        Framing::Lf => line(octets),
    }
}
