//! How frames are read, by `--trim` and the options of legacy packets.

ghost use Rattle.std.specs.Prelude.{◌≡◌};
ghost use Rattle.std.specs.Result.{result_ok};
ghost use Rattle.clap.specs.Words.{found_of, rows_of};
ghost use Rattle.option_values.specs.Readings.{reading_in};

use crate::clock_values::clock_of_matches;
use crate::given::is_given;
use crate::option_row::Refusal;
use crate::options::TRIM;
use clap::ArgMatches;
use syslog_legacy::FrameReading;

/// How frames are read, as the options ask.
pub fn reading_of_matches<'a>(matches: &ArgMatches<'a>) -> Result<FrameReading, Refusal<'a>>
    ensures { result_ok result ≡ reading_in (rows_of (found_of matches.now)) }
{
    let clock = clock_of_matches(matches)?;
    Ok(FrameReading {
        trim: is_given(matches, TRIM.name),
        clock,
    })
}
