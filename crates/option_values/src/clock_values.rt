//! The values of `--legacy`, `--zone` and `--dialect`.

ghost use Rattle.std.specs.Prelude.{◌≡◌, ◌≤◌, IfSome};
ghost use Rattle.std.specs.Result.{result_ok};
ghost use Rattle.clap.specs.Words.{found_of, rows_of};
ghost use Rattle.option_values.specs.Clocks.{clock_at, clock_by, clock_in, dialect_in, dialect_of, minutes_of};
ghost use Rattle.option_values.specs.Clocks.{offset_in, zone_of};

use crate::given::needed;
use crate::numbers::{optional_number, two_digits};
use crate::option_row::Refusal;
use crate::options::{DIALECT, LEGACY, ZONE};
use clap::ArgMatches;
use syslog_legacy::{Dialect, LegacyClock};

// Two digits of hours and two of minutes, in minutes.
fn minutes(digits: &[u8]) -> Option<u16>
    ensures { result ≡ minutes_of digits.now }
{
    let [a, b, c, d] = digits else {
        return None;
    };
    let hours = two_digits(*a, *b, 23)?;
    let minutes = two_digits(*c, *d, 59)?;
    Some(u16::from(hours) * 60 + u16::from(minutes))
}

// How many minutes a zone is ahead of UTC: E is ahead, W is behind, as in `E0130`. None if the text
// is no zone.
fn zone(text: &str) -> Option<i16>
    ensures { result ≡ zone_of text.now }
{
    match text.as_bytes() {
        [b'E', digits @ ..] => Some(minutes(digits)? as i16),
        [b'W', digits @ ..] => Some(-(minutes(digits)? as i16)),
        _ => None,
    }
}

// The clock of a year and an offset, where they are in range.
fn clock_at(year: u16, offset_minutes: i16) -> Option<LegacyClock>
    ensures { result ≡ clock_at year offset_minutes }
{
    LegacyClock::new(year, offset_minutes)
}

// The clock of a year, an offset and a dialect, where they are in range. Without a year there is none.
fn clock_by(year: Option<u32>, offset_minutes: i16, dialect: Dialect) -> Option<Option<LegacyClock>>
    requires { IfSome year (λ y. y ≤ 9998) }
    ensures { result ≡ clock_by year offset_minutes dialect }
{
    let Some(year) = year else {
        return Some(None);
    };
    let clock = clock_at(year as u16, offset_minutes)?;
    Some(Some(clock.with_dialect(dialect)))
}

// The offset by `--zone`.
fn offset_of_matches<'a>(matches: &ArgMatches<'a>) -> Result<i16, Refusal<'a>>
    ensures { result_ok result ≡ offset_in (rows_of (found_of matches.now)) }
{
    let text = needed(matches, &ZONE)?;
    match zone(text) {
        Some(offset) => Ok(offset),
        None => Err(ZONE.refuses(ZONE.kind, text)),
    }
}

// The dialect with this name, `bsd` or `wide`; None for any other text.
fn dialect(name: &str) -> Option<Dialect>
    ensures { result ≡ dialect_of name.now }
{
    match name {
        "bsd" => Some(Dialect::Bsd),
        "wide" => Some(Dialect::Wide),
        _ => None,
    }
}

// The dialect by `--dialect`.
fn dialect_of_matches<'a>(matches: &ArgMatches<'a>) -> Result<Dialect, Refusal<'a>>
    ensures { result_ok result ≡ dialect_in (rows_of (found_of matches.now)) }
{
    let name = needed(matches, &DIALECT)?;
    match dialect(name) {
        Some(dialect) => Ok(dialect),
        None => Err(DIALECT.refuses(DIALECT.kind, name)),
    }
}

/// The clock of legacy packets that the options ask for, if these are read at all. Without a year the
/// zone and the dialect are tested all the same.
pub fn clock_of_matches<'a>(matches: &ArgMatches<'a>) -> Result<Option<LegacyClock>, Refusal<'a>>
    ensures { result_ok result ≡ clock_in (rows_of (found_of matches.now)) }
{
    let year = optional_number(matches, &LEGACY)?;
    let offset = offset_of_matches(matches)?;
    let dialect = dialect_of_matches(matches)?;
    match clock_by(year, offset, dialect) {
        Some(clock) => Ok(clock),
        None => Err(Refusal::Missing),
    }
}
