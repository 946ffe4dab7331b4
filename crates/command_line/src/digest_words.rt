//! The words of `digest`.

ghost use Rattle.std.specs.Prelude.{◌≡◌, option_map};
ghost use Rattle.std.specs.Result.{result_ok};
ghost use Rattle.clap.specs.Words.{found_of, rows_of};
ghost use Rattle.command_line.specs.Names.{period_of};
ghost use Rattle.command_line.specs.Requests.{asked_by, read_digest};

use crate::request::Request;
use archive_digest::Period;
use clap::ArgMatches;
use option_values::options::{PERIOD, ROOTS};
use option_values::{Refusal, is_given, needed};

// The period with this name; None for any other text.
fn period(name: &str) -> Option<Period>
    ensures { result ≡ period_of name.now }
{
    match name {
        "month" => Some(Period::Month),
        "day" => Some(Period::Day),
        "hour" => Some(Period::Hour),
        _ => None,
    }
}

/// The request of `digest`.
pub fn read_digest_words<'a>(matches: &ArgMatches<'a>) -> Result<Request<'a>, Refusal<'a>>
    ensures { option_map asked_by (result_ok result) ≡ read_digest (rows_of (found_of matches.now)) }
{
    let name = needed(matches, &PERIOD)?;
    match period(name) {
        Some(period) => Ok(Request::Digest {
            period,
            has_roots: is_given(matches, ROOTS.name),
        }),
        None => Err(PERIOD.refuses(PERIOD.kind, name)),
    }
}
