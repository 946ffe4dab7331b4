//! The words of `expire`.

ghost use Rattle.std.specs.Prelude.{◌≡◌, None, option_map};
ghost use Rattle.std.specs.Result.{result_ok};
ghost use Rattle.clap.specs.Words.{found_of, rows_of};
ghost use Rattle.command_line.specs.Expiries.{bound_by, bound_in, expire_in};
ghost use Rattle.command_line.specs.Requests.{asked_by, read_expire};

use crate::request::{ExpireBound, ExpireWords, Request};
use clap::ArgMatches;
use option_values::options::{BEFORE, DIR, DRY_RUN, EXPIRE_ROOM, EXPIRE_UNDATED, KEEP};
use option_values::{OptionRow, Refusal, is_given, needed, optional_instant, optional_number};
use syslog_value::Instant;

// The refusal of an option beside another one that says what is old.
fn excluded(option: OptionRow, other: OptionRow) -> Result<ExpireBound, Refusal<'static>>
    ensures { result_ok result ≡ None }
{
    Err(Refusal::Excluded { option, other })
}

// How old the records are, by three options, one of which has to be given and excludes the others.
fn bound_by(
    before: Option<Instant>,
    days: Option<u32>,
    room: Option<u32>,
) -> Result<ExpireBound, Refusal<'static>>
    ensures { result_ok result ≡ bound_by before days room }
{
    match (before, days, room) {
        (None, None, None) => Err(Refusal::NoBound),
        (Some(time), None, None) => Ok(ExpireBound::Before(time)),
        (None, Some(days), None) => Ok(ExpireBound::Keep { days }),
        (None, None, Some(mib)) => Ok(ExpireBound::Room { mib }),
        (Some(_), Some(_), _) => excluded(KEEP, BEFORE),
        (Some(_), None, Some(_)) => excluded(EXPIRE_ROOM, BEFORE),
        (None, Some(_), Some(_)) => excluded(EXPIRE_ROOM, KEEP),
    }
}

// How old the records are, by the values of the options.
fn bound<'a>(matches: &ArgMatches<'a>) -> Result<ExpireBound, Refusal<'a>>
    ensures { result_ok result ≡ bound_in (rows_of (found_of matches.now)) }
{
    let before = match optional_instant(matches, &BEFORE) {
        Ok(before) => before,
        Err(refusal) => return Err(refusal),
    };
    let days = match optional_number(matches, &KEEP) {
        Ok(days) => days,
        Err(refusal) => return Err(refusal),
    };
    let room = match optional_number(matches, &EXPIRE_ROOM) {
        Ok(room) => room,
        Err(refusal) => return Err(refusal),
    };
    bound_by(before, days, room)
}

// What is removed, by the values of the options.
fn words<'a>(matches: &ArgMatches<'a>) -> Result<ExpireWords, Refusal<'a>>
    ensures { result_ok result ≡ expire_in (rows_of (found_of matches.now)) }
{
    match bound(matches) {
        Ok(bound) => Ok(ExpireWords {
            bound,
            undated: is_given(matches, EXPIRE_UNDATED.name),
            dry_run: is_given(matches, DRY_RUN.name),
        }),
        Err(refusal) => Err(refusal),
    }
}

/// The request of `expire`.
pub(crate) fn read_expire_words<'a>(matches: &ArgMatches<'a>) -> Result<Request<'a>, Refusal<'a>>
    ensures { option_map asked_by (result_ok result) ≡ read_expire (rows_of (found_of matches.now)) }
{
    let dir = needed(matches, &DIR)?;
    match words(matches) {
        Ok(words) => Ok(Request::Expire { dir, words }),
        Err(refusal) => Err(refusal),
    }
}
