//! TIMESTAMP of a legacy packet (RFC 3164, section 4.1.2).

ghost use Rattle.std.specs.Prelude.{◌≤◌, ◌∷◌, [], ℕ, MatchOption};
ghost use Rattle.octet_language.specs.Language.{AnyOf, NoPrefix};
ghost use Rattle.octet_language.specs.Reading.{Follows};
ghost use Rattle.syslog_legacy.specs.Timestamps.{DateText, DayText, MonthText, TimestampText};

use crate::clock::LegacyClock;
use crate::octets::behind;
use syslog_grammar::fields::{clock, last_day};
use syslog_value::{Civil, Instant};

/// The month with this name of three letters.
fn month_of(name: &[u8]) -> Option<u8>
    ensures { MatchOption result ((m : ℕ) → MonthText m name.now → ⊥) (λ m. MonthText m name.now) }
{
    match name {
        b"Jan" => Some(1),
        b"Feb" => Some(2),
        b"Mar" => Some(3),
        b"Apr" => Some(4),
        b"May" => Some(5),
        b"Jun" => Some(6),
        b"Jul" => Some(7),
        b"Aug" => Some(8),
        b"Sep" => Some(9),
        b"Oct" => Some(10),
        b"Nov" => Some(11),
        b"Dec" => Some(12),
        _ => None,
    }
}

/// The day that two octets name, if it is not above the last.
fn day_of(last: u8, tens: u8, units: u8) -> Option<u8>
    requires { last ≤ 31 }
    ensures { MatchOption result ((d : ℕ) → DayText last d (tens ∷ units ∷ []) → ⊥)
        (λ d. DayText last d (tens ∷ units ∷ [])) }
{
    if units < b'0' || units > b'9' {
        return None;
    }
    let day = match tens {
        b' ' => units - b'0',
        b'0'..=b'3' => 10 * (tens - b'0') + (units - b'0'),
        _ => return None,
    };
    if day < 1 || day > last {
        return None;
    }
    Some(day)
}

/// Reads a month and a day that the year has, and the space behind the day.
pub fn date(year: u16, octets: &[u8]) -> Option<((u8, u8), &[u8])>
    ensures { MatchOption result (NoPrefix (AnyOf (DateText year)) octets.now)
        (λ x. Follows (DateText year x.0) octets.now x.1.now) }
{
    let [m1, m2, m3, b' ', tens, units, b' ', rest @ ..] = octets else {
        return None;
    };
    let month = month_of(&[*m1, *m2, *m3])?;
    let day = day_of(last_day(year, month), *tens, *units)?;
    Some(((month, day), rest))
}

/// Reads a timestamp and the space that follows it.
pub fn timestamp<'a>(legacy_clock: &LegacyClock, octets: &'a [u8]) -> Option<(Instant, &'a [u8])>
    ensures { MatchOption result (NoPrefix (AnyOf (TimestampText legacy_clock.now)) octets.now)
        (λ x. Follows (TimestampText legacy_clock.now x.0) octets.now x.1.now) }
{
    let year = legacy_clock.year();
    let ((month, day), rest) = date(year, octets)?;
    let Ok(((hour, minute, second), rest)) = clock(rest) else {
        return None;
    };
    let rest = behind(b' ', rest)?;
    let civil = Civil {
        year,
        month,
        day,
        hour,
        minute,
        second,
        micros: 0,
    };
    match Instant::from_civil(civil, legacy_clock.offset_minutes()) {
        Ok(instant) => Some((instant, rest)),
        Err(_) => unreachable!(),
    }
}
