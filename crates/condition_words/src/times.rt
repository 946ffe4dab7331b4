//! Which times records may have, by the options that say it.

ghost use Rattle.std.specs.Prelude.{◌≡◌};
ghost use Rattle.std.specs.Result.{result_ok};
ghost use Rattle.clap.specs.Words.{found_of, rows_of};
ghost use Rattle.condition_words.specs.Conditions.{times_by, times_in};

use archive_sets::{InRange, Times};
use clap::ArgMatches;
use option_values::options::{FROM, ONLY_UNDATED, UNDATED, UNTIL};
use option_values::{OptionRow, Refusal, is_given, optional_instant};
use syslog_value::Instant;

// `--only-undated` was given beside a bound.
fn excludes(bound: OptionRow) -> Refusal<'static> {
    Refusal::Excluded {
        option: ONLY_UNDATED,
        other: bound,
    }
}

// The times by their bounds and the two flags.
fn times_by(
    from: Option<Instant>,
    to: Option<Instant>,
    undated: bool,
    only_undated: bool,
) -> Result<Times, Refusal<'static>>
    ensures { result_ok result ≡ times_by from to undated only_undated }
{
    if !only_undated {
        return Ok(Times::Range(InRange { from, to, undated }));
    }
    match (from, to) {
        (None, None) => Ok(Times::Undated),
        (Some(_), _) => Err(excludes(FROM)),
        (None, Some(_)) => Err(excludes(UNTIL)),
    }
}

/// Which times records may have: those of a range, or none at all, which a bound excludes.
pub(crate) fn times<'a>(matches: &ArgMatches<'a>) -> Result<Times, Refusal<'a>>
    ensures { result_ok result ≡ times_in (rows_of (found_of matches.now)) }
{
    let from = match optional_instant(matches, &FROM) {
        Ok(from) => from,
        Err(refusal) => return Err(refusal),
    };
    let to = match optional_instant(matches, &UNTIL) {
        Ok(to) => to,
        Err(refusal) => return Err(refusal),
    };
    let undated = is_given(matches, UNDATED.name);
    let only_undated = is_given(matches, ONLY_UNDATED.name);
    times_by(from, to, undated, only_undated)
}
