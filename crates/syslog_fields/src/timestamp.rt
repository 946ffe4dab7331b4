//! TIMESTAMP (RFC 5424, 6.2.3).

ghost use Rattle.std.specs.Prelude.{◌≡◌, ◌≤◌, ◌<◌, ◌+◌, ◌-◌, ◌*◌, ◌∷◌, ◌++◌, ◌↔◌, [], length};
ghost use Rattle.std.specs.Prelude.{replicate, take, drop, slice_index, IsTrue, MatchResult};
ghost use Rattle.std.specs.Prelude.{option_map, IfOk, IfSome};
ghost use Rattle.std.specs.List.{AllByRecursion};
ghost use Rattle.octet_language.specs.Digits.{IsDigit, read_on};
ghost use Rattle.octet_language.specs.Language.{AnyOf, IfFirst};
ghost use Rattle.octet_language.specs.Reading.{Fails, Follows, Reads};
ghost use Rattle.syslog_value.specs.Calendar.{is_leap, month_length};
ghost use Rattle.syslog_fields.specs.Dates.{Clock, Date, DateClock, FractionZone, HourMinute, YearMonth};
ghost use Rattle.syslog_fields.specs.Dates.{time_of};
ghost use Rattle.syslog_fields.specs.Spans.{StopsInRun};
ghost use Rattle.syslog_fields.specs.Grammar.{Nilable, Spaced};
ghost use Rattle.syslog_fields.specs.Stops.{remaining_of};
ghost use Rattle.syslog_fields.specs.Time.{Decimals, OffsetText, TimeText, Two, YearText};
ghost use Rattle.syslog_fields.specs.Time.{ZoneText};

use crate::lanes::has_date_shape;
use crate::reading::{Stop, expect, is_digit, next};
use syslog_value::Civil;

/// How many octets a date and a time of day have, such as `2003-10-11T22:14:15`.
pub const STAMP_LEN: usize = 19;

/// How many octets a time of day has, such as `22:14:15`.
const CLOCK_LEN: usize = 8;

/// How many octets a fraction and a zone, such as `.003000-07:00`, and the octet after them have at
/// most.
const ZONE_LEN: usize = 14;

/// A civil time as it is spelled, and how many minutes it is ahead of UTC.
#[derive(Clone, Copy, Debug, PartialEq, Eq)]
pub struct Timestamp {
    /// The civil time, in the clock of its zone.
    pub civil: Civil,
    /// How many minutes that clock is ahead of UTC, -1,439 to 1,439.
    pub offset_minutes: i16,
}

/// Reads a number of two digits from `low` to `high`.
#[inline(always)]
fn two(low: u8, high: u8, octets: &[u8]) -> Result<(u8, &[u8]), Stop>
    requires some { low ≤ high }
    requires two_digits { high ≤ 99 }
    ensures { Reads remaining_of (Two low high) (λ x. (x.0, x.1.now)) octets.now result }
{
    let Some((tens, behind)) = next(octets) else {
        return Err(Stop {
            remaining: octets.len(),
        });
    };
    if tens < b'0' + low / 10 {
        return Err(Stop {
            remaining: octets.len(),
        });
    }
    if tens > b'0' + high / 10 {
        return Err(Stop {
            remaining: octets.len(),
        });
    }
    let Some((units, rest)) = next(behind) else {
        return Err(Stop {
            remaining: behind.len(),
        });
    };
    if !is_digit(units) {
        return Err(Stop {
            remaining: behind.len(),
        });
    }
    let value = 10 * (tens - b'0') + (units - b'0');
    if value < low {
        return Err(Stop {
            remaining: behind.len(),
        });
    }
    if value > high {
        return Err(Stop {
            remaining: behind.len(),
        });
    }
    Ok((value, rest))
}

/// Reads a year in four digits.
#[inline(always)]
fn year(octets: &[u8]) -> Result<(u16, &[u8]), Stop>
    ensures { Reads remaining_of YearText (λ x. (x.0, x.1.now)) octets.now result }
{
    let (century, rest) = two(0, 99, octets)?;
    let (year, rest) = two(0, 99, rest)?;
    Ok((100 * u16::from(century) + u16::from(year), rest))
}

#[inline(always)]
fn is_leap_year(year: u16) -> bool
    ensures { result ≡ is_leap year }
{
    (year % 4 == 0 && !(year % 100 == 0)) || year % 400 == 0
}

/// How many days a month of a year has.
#[inline(always)]
pub fn last_day(year: u16, month: u8) -> u8
    ensures value { result ≡ month_length year month }
    ensures range { (28 ≤ result) × (result ≤ 31) }
{
    if month == 2 {
        if is_leap_year(year) { 29 } else { 28 }
    } else if month == 4 || month == 6 || month == 9 || month == 11 {
        30
    } else {
        31
    }
}

/// Reads a year and a month.
#[inline(always)]
fn year_month(octets: &[u8]) -> Result<((u16, u8), &[u8]), Stop>
    ensures { Reads remaining_of YearMonth (λ x. (x.0, x.1.now)) octets.now result }
{
    let (year, rest) = year(octets)?;
    let rest = expect(b'-', rest)?;
    let (month, rest) = two(1, 12, rest)?;
    Ok(((year, month), rest))
}

/// Reads a date that the calendar has.
fn read_date(octets: &[u8]) -> Result<((u16, u8, u8), &[u8]), Stop>
    ensures { Reads remaining_of Date (λ x. (x.0, x.1.now)) octets.now result }
{
    let ((year, month), rest) = year_month(octets)?;
    let rest = expect(b'-', rest)?;
    let (day, rest) = two(1, last_day(year, month), rest)?;
    Ok(((year, month, day), rest))
}

/// Reads an hour and a minute.
#[inline(always)]
fn hour_minute(octets: &[u8]) -> Result<((u8, u8), &[u8]), Stop>
    ensures { Reads remaining_of HourMinute (λ x. (x.0, x.1.now)) octets.now result }
{
    let (hour, rest) = two(0, 23, octets)?;
    let rest = expect(b':', rest)?;
    let (minute, rest) = two(0, 59, rest)?;
    Ok(((hour, minute), rest))
}

/// Reads the time of a day.
#[inline(always)]
fn read_clock(octets: &[u8]) -> Result<((u8, u8, u8), &[u8]), Stop>
    ensures { Reads remaining_of Clock (λ x. (x.0, x.1.now)) octets.now result }
{
    let ((hour, minute), rest) = hour_minute(octets)?;
    let rest = expect(b':', rest)?;
    let (second, rest) = two(0, 59, rest)?;
    Ok(((hour, minute, second), rest))
}

/// The same if fewer octets are left.
#[cold]
#[inline(never)]
fn last_clock(octets: &[u8]) -> Result<((u8, u8, u8), &[u8]), Stop>
    ensures { Reads remaining_of Clock (λ x. (x.0, x.1.now)) octets.now result }
{
    read_clock(octets)
}

/// Reads the time of a day. If there are enough octets, the compiler leaves out the tests for the
/// end. The [`Stop`] is at the first octet with which it cannot go on.
#[inline(always)]
pub fn clock(octets: &[u8]) -> Result<((u8, u8, u8), &[u8]), Stop>
    ensures { Reads remaining_of Clock (λ x. (x.0, x.1.now)) octets.now result }
{
    if octets.len() < CLOCK_LEN {
        return last_clock(octets);
    }
    read_clock(octets)
}

/// The number that the two digits at an offset spell.
#[inline(always)]
fn number(octets: &[u8], at: usize) -> u8
    requires within { at + 2 ≤ length octets.now }
    requires tens { IsDigit (slice_index octets.now at) }
    requires units { IsDigit (slice_index octets.now (at + 1)) }
    ensures { result ≡ 10 * (slice_index octets.now at - 48)
        + (slice_index octets.now (at + 1) - 48) }
{
    10 * (octets[at] - b'0') + (octets[at + 1] - b'0')
}

/// Whether a colon and seconds, such as `:15`, follow the minutes.
#[inline(always)]
fn has_seconds(octets: &[u8]) -> bool
    requires { STAMP_LEN ≤ length octets.now }
    ensures { IsTrue result ↔ ((slice_index octets.now 16 ≡ 58) × (48 ≤ slice_index octets.now 17)
        × (slice_index octets.now 17 ≤ 53) × IsDigit (slice_index octets.now 18)) }
{
    octets[16] == b':' && octets[17] >= b'0' && octets[17] <= b'5' && is_digit(octets[18])
}

/// Reads a date, `T` and the time of a day, the first sixteen octets by one comparison. None if an
/// octet is missing or wrong: the readers of the parts then find where.
#[inline(always)]
fn quick_date_and_clock(octets: &[u8]) -> Option<(((u16, u8, u8), (u8, u8, u8)), &[u8])>
    ensures { IfSome result (λ x. DateClock x.0 octets.now x.1.now) }
{
    if octets.len() < STAMP_LEN || !has_date_shape(octets) || !has_seconds(octets) {
        return None;
    }
    let year = 100 * u16::from(number(octets, 0)) + u16::from(number(octets, 2));
    let month = number(octets, 5);
    if month < 1 || month > 12 {
        return None;
    }
    let day = number(octets, 8);
    if day < 1 || day > last_day(year, month) {
        return None;
    }
    let hour = number(octets, 11);
    if hour > 23 {
        return None;
    }
    let clock = (hour, number(octets, 14), number(octets, 17));
    let (_, rest) = octets.split_at(STAMP_LEN);
    Some((((year, month, day), clock), rest))
}

/// Reads a date, `T` and the time of a day, part by part.
#[cold]
#[inline(never)]
fn read_date_and_clock(octets: &[u8]) -> Result<(((u16, u8, u8), (u8, u8, u8)), &[u8]), Stop>
    ensures { MatchResult result (λ x. DateClock x.0 octets.now x.1.now)
        (λ e. Fails (AnyOf TimeText) octets.now e.remaining) }
{
    let (date, rest) = read_date(octets)?;
    let rest = expect(b'T', rest)?;
    let (clock, rest) = read_clock(rest)?;
    Ok(((date, clock), rest))
}

/// Reads a date, `T` and the time of a day.
#[inline(always)]
fn date_and_clock(octets: &[u8]) -> Result<(((u16, u8, u8), (u8, u8, u8)), &[u8]), Stop>
    ensures { MatchResult result (λ x. DateClock x.0 octets.now x.1.now)
        (λ e. Fails (AnyOf TimeText) octets.now e.remaining) }
{
    match quick_date_and_clock(octets) {
        Some(read) => Ok(read),
        None => read_date_and_clock(octets),
    }
}

/// How many digits come first, up to six.
#[inline(always)]
fn digits_len(octets: &[u8]) -> usize
    ensures most { result ≤ 6 }
    ensures within { result ≤ length octets.now }
    ensures digits { AllByRecursion IsDigit (take result octets.now) }
    ensures ends { result < 6 → IfFirst (λ x. IsDigit x → ⊥) (drop result octets.now) }
{
    let most = octets.len().min(6);
    for i in 0..most {
        if !is_digit(octets[i]) {
            return i;
        }
    }
    most
}

/// The digit at an offset after the point, or a zero on the right.
#[inline(always)]
fn digit_at(digits: &[u8], offset: usize) -> u32
    requires { AllByRecursion IsDigit digits.now }
    ensures value { result ≡ slice_index digits.now offset - 48 }
    ensures range { result ≤ 9 }
{
    if offset < digits.len() {
        u32::from(digits[offset] - b'0')
    } else {
        0
    }
}

/// The microseconds that the digits after the point stand for.
#[inline(always)]
pub fn micros(digits: &[u8]) -> u32
    requires most { length digits.now ≤ 6 }
    requires digits { AllByRecursion IsDigit digits.now }
    ensures value { result ≡ read_on 0 (digits.now ++ replicate (6 - length digits.now) 48) }
    ensures range { result ≤ 999_999 }
{
    let thousands = 100 * digit_at(digits, 0) + 10 * digit_at(digits, 1) + digit_at(digits, 2);
    let ones = 100 * digit_at(digits, 3) + 10 * digit_at(digits, 4) + digit_at(digits, 5);
    1000 * thousands + ones
}

/// Whether a digit comes first.
#[inline(always)]
fn goes_on(octets: &[u8]) -> bool
    ensures goes { IsTrue result → IfFirst IsDigit octets.now × (0 < length octets.now) }
    ensures ends { (IsTrue result → ⊥) → IfFirst (λ x. IsDigit x → ⊥) octets.now }
{
    match octets {
        [] => false,
        [octet, ..] => is_digit(*octet),
    }
}

/// Reads the digits after the point, and leaves what ends them.
#[inline(always)]
fn decimals(octets: &[u8]) -> Result<(u32, &[u8]), Stop>
    ensures { MatchResult result
        (λ x. Follows (Decimals x.0) octets.now x.1.now × IfFirst (λ y. IsDigit y → ⊥) x.1.now)
        (λ e. StopsInRun IsDigit 6 octets.now e.remaining) }
{
    let (digits, rest) = octets.split_at(digits_len(octets));
    if digits.is_empty() {
        return Err(Stop {
            remaining: octets.len(),
        });
    }
    if goes_on(rest) {
        return Err(Stop {
            remaining: rest.len(),
        });
    }
    Ok((micros(digits), rest))
}

/// Reads the hours and minutes of an offset, and gives it in minutes.
#[inline(always)]
fn offset(octets: &[u8]) -> Result<(u16, &[u8]), Stop>
    ensures reads { Reads remaining_of OffsetText (λ x. (x.0, x.1.now)) octets.now result }
    ensures range { IfOk result (λ x. x.0 ≤ 1439) }
{
    let ((hour, minute), rest) = hour_minute(octets)?;
    Ok((60 * u16::from(hour) + u16::from(minute), rest))
}

/// Reads the zone, and gives it in minutes ahead of UTC.
#[inline(always)]
fn zone(octets: &[u8]) -> Result<(i16, &[u8]), Stop>
    ensures { Reads remaining_of ZoneText (λ x. (x.0, x.1.now)) octets.now result }
{
    let Some((sign, rest)) = next(octets) else {
        return Err(Stop {
            remaining: octets.len(),
        });
    };
    if sign == b'Z' {
        return Ok((0, rest));
    }
    if sign == b'+' {
        let (minutes, rest) = offset(rest)?;
        return Ok((minutes as i16, rest));
    }
    if sign == b'-' {
        let (minutes, rest) = offset(rest)?;
        return Ok((-(minutes as i16), rest));
    }
    Err(Stop {
        remaining: octets.len(),
    })
}

/// Reads the fraction, if there is one, and the zone.
#[inline(always)]
fn read_fraction_and_zone(octets: &[u8]) -> Result<((u32, i16), &[u8]), Stop>
    ensures { Reads remaining_of FractionZone (λ x. (x.0, x.1.now)) octets.now result }
{
    let Some((first, behind)) = next(octets) else {
        return Err(Stop {
            remaining: octets.len(),
        });
    };
    if first == b'.' {
        let (micros, rest) = decimals(behind)?;
        let (offset, rest) = zone(rest)?;
        return Ok(((micros, offset), rest));
    }
    let (offset, rest) = zone(octets)?;
    Ok(((0, offset), rest))
}

/// The same if fewer octets are left.
#[cold]
#[inline(never)]
fn last_fraction_and_zone(octets: &[u8]) -> Result<((u32, i16), &[u8]), Stop>
    ensures { Reads remaining_of FractionZone (λ x. (x.0, x.1.now)) octets.now result }
{
    read_fraction_and_zone(octets)
}

/// Reads the fraction, if there is one, and the zone. It tests for the end as [`clock`] does.
#[inline(always)]
fn fraction_and_zone(octets: &[u8]) -> Result<((u32, i16), &[u8]), Stop>
    ensures { Reads remaining_of FractionZone (λ x. (x.0, x.1.now)) octets.now result }
{
    if octets.len() < ZONE_LEN {
        return last_fraction_and_zone(octets);
    }
    read_fraction_and_zone(octets)
}

/// Reads a time.
#[inline(always)]
fn time(octets: &[u8]) -> Result<(Timestamp, &[u8]), Stop>
    ensures { Reads remaining_of TimeText (λ x. (time_of x.0, x.1.now)) octets.now result }
{
    let (((year, month, day), (hour, minute, second)), rest) = date_and_clock(octets)?;
    let ((micros, offset_minutes), rest) = fraction_and_zone(rest)?;
    // made anew from its length: the slice would be copied through memory
    let (_, rest) = octets.split_at(octets.len() - rest.len());
    Ok((
        Timestamp {
            civil: Civil {
                year,
                month,
                day,
                hour,
                minute,
                second,
                micros,
            },
            offset_minutes,
        },
        rest,
    ))
}

/// Reads a time or NILVALUE, and the space that follows it. The [`Stop`] is at the first octet with
/// which these cannot go on.
#[inline(always)]
pub fn nilable_time(octets: &[u8]) -> Result<(Option<Timestamp>, &[u8]), Stop>
    ensures { Reads remaining_of (λ t. Spaced (Nilable TimeText t))
        (λ x. (option_map time_of x.0, x.1.now)) octets.now result }
{
    let Some((first, behind)) = next(octets) else {
        return Err(Stop {
            remaining: octets.len(),
        });
    };
    if first == b'-' {
        let rest = expect(b' ', behind)?;
        return Ok((None, rest));
    }
    let (time, rest) = time(octets)?;
    let rest = expect(b' ', rest)?;
    Ok((Some(time), rest))
}

/// Whether the year of a time, if there is one, is such that all its times name an instant in
/// range, whatever the zone.
#[inline(always)]
pub fn has_inner_year(time: Option<Timestamp>) -> bool
    ensures { IsTrue result → IfSome time (λ t. (1 ≤ t.civil.year) × (t.civil.year ≤ 9998)) }
{
    match time {
        None => true,
        Some(time) => time.civil.year >= 1 && time.civil.year <= 9998,
    }
}
