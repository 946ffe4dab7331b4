//! Values that are timestamps.

ghost use Rattle.std.specs.Prelude.{◌≡◌, ◌+◌, ◌<◌, ◌++◌, ◌∷◌, [], List, ℕ, length, take};
ghost use Rattle.std.specs.Result.{result_ok};
ghost use Rattle.syslog_value.specs.Instants.{IsCivil, IsOffset};
ghost use Rattle.syslog_fields.specs.Dates.{time_of};
ghost use Rattle.syslog_fields.specs.Time.{instant};
ghost use Rattle.clap.specs.Walk.{first_of};
ghost use Rattle.clap.specs.Words.{found_of, rows_of};
ghost use Rattle.option_values.specs.Times.{asked_time, in_range, time_in};
ghost use Rattle.option_values.specs.Values.{optional};

use crate::given::value;
use crate::option_row::{OptionRow, Refusal};
use clap::ArgMatches;
use syslog_fields::timestamp::{Timestamp, nilable_time};
use syslog_value::Instant;

/// How many octets a timestamp, such as `2003-10-11T22:14:15.003000-07:00`, and a space have at most.
const SPACED_MAX: usize = 33;

// The instant that a time names, where it is in range.
fn instant_at(time: Timestamp) -> Option<Instant>
    requires { IsCivil time.civil × IsOffset time.offset_minutes }
    ensures { result ≡ in_range (instant (time_of time)) }
{
    match Instant::from_civil(time.civil, time.offset_minutes) {
        Ok(instant) => Some(instant),
        Err(_) => None,
    }
}

// The instant of a timestamp that a space follows, and nothing more.
fn spaced_instant(octets: &[u8]) -> Option<Instant>
    ensures { (text : List ℕ) → octets.now ≡ text ++ 32 ∷ [] → result ≡ time_in text }
{
    match nilable_time(octets) {
        Ok((Some(time), [])) => instant_at(time),
        Ok((Some(_), _)) => None,
        Ok((None, _)) => None,
        Err(_) => None,
    }
}

// Puts a text, its end and a space into the front of a slice.
fn put_spaced(text: &[u8], end: &[u8], buf: &mut [u8])
    requires { length text.now + length end.now < length buf.old }
    ensures { take (length text.now + length end.now + 1) buf.new ≡ (text.now ++ end.now) ++ 32 ∷ [] }
{
    let len = text.len() + end.len();
    buf[..text.len()].copy_from_slice(text);
    buf[text.len()..len].copy_from_slice(end);
    buf[len] = b' ';
}

// The instant of a timestamp (RFC 5424, section 6.2.3) whose last octets, `end`, are left out of the
// text, if it lies in the years from 0 to 9999; None for any other text, also for `-`.
fn completed(text: &[u8], end: &[u8]) -> Option<Instant>
    ensures { result ≡ time_in (text.now ++ end.now) }
{
    let mut buf = [0; SPACED_MAX];
    let len = text.len().saturating_add(end.len());
    if len >= SPACED_MAX {
        return None;
    }
    put_spaced(text, end, &mut buf);
    spaced_instant(&buf[..len + 1])
}

// The instant of a timestamp, whose zone, seconds or time of day may be left out.
fn instant(text: &str) -> Option<Instant>
    ensures { result ≡ asked_time text.now }
{
    let text = text.as_bytes();
    completed(text, b"")
        .or(completed(text, b"Z"))
        .or(completed(text, b":00Z"))
        .or(completed(text, b"T00:00:00Z"))
}

/// The instant that the value of an option names, if it is given: a timestamp, or a day, a minute or
/// a second of UTC without a zone.
pub fn optional_instant<'a>(
    matches: &ArgMatches<'a>,
    option: &OptionRow,
) -> Result<Option<Instant>, Refusal<'a>>
    ensures { result_ok result
        ≡ optional asked_time (first_of option.now.name.now (rows_of (found_of matches.now))) }
{
    let Some(text) = value(matches, option.name) else {
        return Ok(None);
    };
    match instant(text) {
        Some(instant) => Ok(Some(instant)),
        None => Err(option.refuses(option.kind, text)),
    }
}
