//! What files are called.
ghost use Rattle.std.specs.Prelude.{◌≡◌, ◌↔◌, ◌<◌, ◌^◌, All, IfNone, IfSome, IsTrue, List, ℕ, Some, codes};
ghost use Rattle.record_store.specs.Names.{IsHexadecimal, IsJournal, IsSegment, journal_name};
ghost use Rattle.store_reading.specs.Days.{IsDayText, IsPeriodText};
ghost use Rattle.store_reading.specs.Names.{IsDottedDigest};

use crate::day::Day;
use crate::period::Period;
use itoa::Buffer;

// a dot and the digest of a segment
const DIGEST_LEN: usize = 65;

fn are_hexadecimal(octets: &[u8]) -> bool
    ensures { IsTrue result ↔ All IsHexadecimal octets.now }
{
    octets.iter().all(|octet| (b'0' <= *octet && *octet <= b'9')
        || (b'a' <= *octet && *octet <= b'f'))
}

// Whether these are a dot and a digest.
fn is_dotted_digest(octets: &[u8]) -> bool
    ensures { IsTrue result ↔ IsDottedDigest octets.now }
{
    match octets {
        [b'.', digest @ ..] => digest.len() == DIGEST_LEN - 1 && are_hexadecimal(digest),
        _ => false,
    }
}

// The day of this name.
fn named_day(name: &[u8]) -> Option<Day>
    ensures some { IfSome result (λ day. IsDayText day × (day ≡ name.now)) }
    ensures all { IsDayText name.now → result ≡ Some name.now }
{
    if name == b"undated".as_slice() {
        return Some(Day::undated());
    }
    Day::dated(name)
}

// The period of this name.
fn named_period(name: &[u8]) -> Option<Period>
    ensures some { IfSome result (λ period. IsPeriodText period × (period ≡ name.now)) }
    ensures all { IsPeriodText name.now → result ≡ Some name.now }
{
    if name == b"mixed".as_slice() {
        return Some(Period::mixed());
    }
    match named_day(name) {
        None => None,
        Some(day) => Some(Period::of(&day)),
    }
}

/// The period of the segment with this name, if it is one of a segment.
pub fn segment_period(name: &[u8]) -> Option<Period>
    ensures some { IfSome result (λ period. IsPeriodText period × IsSegment period name.now) }
    ensures only { (period : List ℕ) → IsPeriodText period → IsSegment period name.now
        → result ≡ Some period }
{
    let front = name.strip_suffix(b".archive".as_slice())?;
    if front.len() < DIGEST_LEN {
        return None;
    }
    let (period, digest) = front.split_at(front.len() - DIGEST_LEN);
    if !is_dotted_digest(digest) {
        return None;
    }
    named_period(period)
}

/// The day of the segment with this name, if it is one of a segment of a day.
pub fn segment_day(name: &[u8]) -> Option<Day>
    ensures some { IfSome result (λ day. IsDayText day × IsSegment day name.now) }
    ensures only { (day : List ℕ) → IsDayText day → IsSegment day name.now → result ≡ Some day }
{
    match segment_period(name) {
        None => None,
        Some(period) => period.day(),
    }
}

/// Whether this is the name of a segment with records of any days.
pub fn is_mixed(name: &[u8]) -> bool
    ensures { IsTrue result ↔ IsSegment (codes "mixed") name.now }
{
    match segment_period(name) {
        None => false,
        Some(period) => period.is_mixed(),
    }
}

// The number of the journal that has this name.
fn journal_number(name: &[u8]) -> Option<u64>
    ensures some { IfSome result (λ number. name.now ≡ journal_name number) }
    ensures none { IfNone result (¬ (IsJournal name.now)) }
{
    let digits = name.strip_prefix(b"journal.".as_slice())?;
    let Ok(text) = str::from_utf8(digits) else {
        return None;
    };
    let Ok(number) = text.parse::<u64>() else {
        return None;
    };
    if Buffer::new().format(number).as_bytes() != digits {
        return None;
    }
    Some(number)
}

/// Whether this is the name of a journal.
pub fn is_journal(name: &[u8]) -> bool
    ensures { IsTrue result ↔ IsJournal name.now }
{
    match journal_number(name) {
        Some(_) => true,
        None => false,
    }
}
