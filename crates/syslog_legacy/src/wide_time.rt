//! TIMESTAMP of a packet in the wide dialect, as devices and programs spell it.

ghost use Rattle.std.specs.Prelude.{◌≤◌};
ghost use Rattle.std.specs.Prelude.{ℤ, IfSome, MatchOption};
ghost use Rattle.octet_language.specs.Language.{AnyOf, NoPrefix};
ghost use Rattle.octet_language.specs.Reading.{Follows};
ghost use Rattle.syslog_fields.specs.Dates.{Date};
ghost use Rattle.syslog_fields.specs.Time.{OffsetText, TimeText, Two, YearText, ZoneText};
ghost use Rattle.syslog_value.specs.Instants.{IsOffset};
ghost use Rattle.syslog_legacy.specs.Parts.{Lacks, Optional};
ghost use Rattle.syslog_legacy.specs.WideTimes.{BehindMark, NamedDate, NamedTime, Names, Point};
ghost use Rattle.syslog_legacy.specs.WideTimes.{SpacedYear, Stamp, WideTime};

use crate::clock::LegacyClock;
use crate::octets::{behind, without};
use crate::runs::digit_run;
use crate::timestamp::date;
use syslog_fields::reading::is_digit;
use syslog_fields::timestamp::micros;
use syslog_grammar::fields::{clock, last_day};
use syslog_value::{Civil, Instant};

/// A leap year, which has every day that some year has.
const LEAP_YEAR: u16 = 2000;

/// Reads a number from `low` to `high` in two digits.
#[inline(always)]
fn two(low: u8, high: u8, octets: &[u8]) -> Option<(u8, &[u8])>
    requires { high ≤ 99 }
    ensures { MatchOption result (NoPrefix (AnyOf (Two low high)) octets.now)
        (λ x. Follows (Two low high x.0) octets.now x.1.now) }
{
    let [tens, units, rest @ ..] = octets else {
        return None;
    };
    if !is_digit(*tens) || !is_digit(*units) {
        return None;
    }
    let value = 10 * (*tens - b'0') + (*units - b'0');
    if value < low || value > high {
        return None;
    }
    Some((value, rest))
}

/// Reads a year in four digits.
#[inline(always)]
fn year(octets: &[u8]) -> Option<(u16, &[u8])>
    ensures { MatchOption result (NoPrefix (AnyOf YearText) octets.now)
        (λ x. Follows (YearText x.0) octets.now x.1.now) }
{
    let (century, rest) = two(0, 99, octets)?;
    let (year, rest) = two(0, 99, rest)?;
    Some((100 * u16::from(century) + u16::from(year), rest))
}

/// Reads a year in four digits and a space.
#[inline(always)]
fn spaced_year(octets: &[u8]) -> Option<(u16, &[u8])>
    ensures { MatchOption result (NoPrefix (AnyOf SpacedYear) octets.now)
        (λ x. Follows (SpacedYear x.0) octets.now x.1.now) }
{
    let (year, rest) = year(octets)?;
    let rest = behind(b' ', rest)?;
    Some((year, rest))
}

/// Reads a date with the name of its month, and the space behind it. The year is that of the clock,
/// unless one comes before the month or behind the day.
fn named_date(clock_year: u16, octets: &[u8]) -> Option<((u16, u8, u8), &[u8])>
    ensures { MatchOption result (Lacks (NamedDate clock_year) octets.now)
        (λ x. NamedDate clock_year x.0 octets.now x.1.now) }
{
    if let Some((year, rest)) = spaced_year(octets) {
        let ((month, day), rest) = date(LEAP_YEAR, rest)?;
        return Some(((year, month, day), rest));
    }
    let ((month, day), rest) = date(LEAP_YEAR, octets)?;
    match spaced_year(rest) {
        Some((year, rest)) => Some(((year, month, day), rest)),
        None => Some(((clock_year, month, day), rest)),
    }
}

/// Reads a point and one to six digits, and gives the microseconds.
fn point(octets: &[u8]) -> Option<(u32, &[u8])>
    ensures { MatchOption result (Lacks Point octets.now)
        (λ x. Point x.0 octets.now x.1.now) }
{
    let digits = behind(b'.', octets)?;
    let (digits, rest) = digit_run(digits);
    if digits.is_empty() {
        return None;
    }
    if digits.len() > 6 {
        return None;
    }
    Some((micros(digits), rest))
}

/// Reads the fraction of a second, if there is one, and gives the microseconds.
#[inline(always)]
fn fraction(octets: &[u8]) -> (u32, &[u8])
    ensures { Optional Point 0 result.0 octets.now result.1.now }
{
    match point(octets) {
        Some(read) => read,
        None => (0, octets),
    }
}

/// Reads a time with the name of its month.
fn named_time(clock_year: u16, octets: &[u8]) -> Option<(Civil, &[u8])>
    ensures { MatchOption result (Lacks (NamedTime clock_year) octets.now)
        (λ x. NamedTime clock_year x.0 octets.now x.1.now) }
{
    let ((year, month, day), rest) = named_date(clock_year, octets)?;
    let Ok(((hour, minute, second), rest)) = clock(rest) else {
        return None;
    };
    let (micros, rest) = fraction(rest);
    let civil = Civil {
        year,
        month,
        day,
        hour,
        minute,
        second,
        micros,
    };
    Some((civil, rest))
}

/// Reads a date of RFC 5424.
#[inline(always)]
fn own_date(octets: &[u8]) -> Option<((u16, u8, u8), &[u8])>
    ensures { MatchOption result (NoPrefix (AnyOf Date) octets.now)
        (λ x. Follows (Date x.0) octets.now x.1.now) }
{
    let (year, rest) = year(octets)?;
    let rest = behind(b'-', rest)?;
    let (month, rest) = two(1, 12, rest)?;
    let rest = behind(b'-', rest)?;
    let (day, rest) = two(1, last_day(year, month), rest)?;
    Some(((year, month, day), rest))
}

/// Reads the hours and minutes of an offset, and gives it in minutes.
fn offset(octets: &[u8]) -> Option<(u16, &[u8])>
    ensures reads { MatchOption result (NoPrefix (AnyOf OffsetText) octets.now)
        (λ x. Follows (OffsetText x.0) octets.now x.1.now) }
    ensures range { IfSome result (λ x. x.0 ≤ 1439) }
{
    let (hour, rest) = two(0, 23, octets)?;
    let rest = behind(b':', rest)?;
    let (minute, rest) = two(0, 59, rest)?;
    Some((60 * u16::from(hour) + u16::from(minute), rest))
}

/// Reads the zone of a timestamp of RFC 5424: how many minutes its clock is ahead of UTC.
fn zone(octets: &[u8]) -> Option<(i16, &[u8])>
    ensures { MatchOption result (NoPrefix (AnyOf ZoneText) octets.now)
        (λ x. Follows (ZoneText x.0) octets.now x.1.now) }
{
    if let Some(rest) = behind(b'Z', octets) {
        return Some((0, rest));
    }
    if let Some(rest) = behind(b'+', octets) {
        let (minutes, rest) = offset(rest)?;
        return Some((minutes as i16, rest));
    }
    let rest = behind(b'-', octets)?;
    let (minutes, rest) = offset(rest)?;
    Some((-(minutes as i16), rest))
}

/// Reads a timestamp of RFC 5424 other than NILVALUE: the civil time and its offset.
fn own_time(octets: &[u8]) -> Option<((Civil, i16), &[u8])>
    ensures { MatchOption result (NoPrefix (AnyOf TimeText) octets.now)
        (λ x. Follows (TimeText record { civil = x.0.0; offset = x.0.1 }) octets.now x.1.now) }
{
    let ((year, month, day), rest) = own_date(octets)?;
    let rest = behind(b'T', rest)?;
    let Ok(((hour, minute, second), rest)) = clock(rest) else {
        return None;
    };
    let (micros, rest) = fraction(rest);
    let (offset_minutes, rest) = zone(rest)?;
    let civil = Civil {
        year,
        month,
        day,
        hour,
        minute,
        second,
        micros,
    };
    Some(((civil, offset_minutes), rest))
}

/// The instant that a civil time names, if it exists and the instant is in range.
#[inline(always)]
fn named(civil: Civil, offset_minutes: i16) -> Option<Instant>
    requires { IsOffset offset_minutes }
    ensures { MatchOption result ((i : ℤ) → Names civil offset_minutes i → ⊥)
        (λ i. Names civil offset_minutes i) }
{
    match Instant::from_civil(civil, offset_minutes) {
        Ok(instant) => Some(instant),
        Err(_) => None,
    }
}

/// Reads a time with its year and offset, or with those of a clock.
fn stamp<'a>(legacy_clock: &LegacyClock, octets: &'a [u8]) -> Option<(Instant, &'a [u8])>
    ensures { MatchOption result (Lacks (Stamp legacy_clock.now) octets.now)
        (λ x. Stamp legacy_clock.now x.0 octets.now x.1.now) }
{
    if let Some(((civil, offset_minutes), rest)) = own_time(octets) {
        let instant = named(civil, offset_minutes)?;
        return Some((instant, rest));
    }
    let (civil, rest) = named_time(legacy_clock.year(), octets)?;
    let instant = named(civil, legacy_clock.offset_minutes())?;
    Some((instant, rest))
}

/// What follows the star or the point, if one comes first; else all the octets.
#[inline(always)]
fn behind_mark(octets: &[u8]) -> &[u8]
    ensures { BehindMark octets.now result.now }
{
    match octets {
        [b'*', rest @ ..] => rest,
        [b'.', rest @ ..] => rest,
        _ => octets,
    }
}

/// Reads a time, with a mark before it and a colon behind it if they are there, and a space.
pub fn wide_timestamp<'a>(
    legacy_clock: &LegacyClock,
    octets: &'a [u8],
) -> Option<(Instant, &'a [u8])>
    ensures { MatchOption result (Lacks (WideTime legacy_clock.now) octets.now)
        (λ x. WideTime legacy_clock.now x.0 octets.now x.1.now) }
{
    let unmarked = behind_mark(octets);
    let Some((instant, rest)) = stamp(legacy_clock, unmarked) else {
        return None;
    };
    let rest = without(b':', rest);
    let rest = behind(b' ', rest)?;
    Some((instant, rest))
}
