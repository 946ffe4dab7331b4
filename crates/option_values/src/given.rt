//! Values by the name of their option.

ghost use Rattle.std.specs.Prelude.{◌≡◌, map, option_map};
ghost use Rattle.std.specs.Result.{result_ok};
ghost use Rattle.clap.specs.Walk.{all_of, first_of};
ghost use Rattle.clap.specs.Words.{found_of, rows_of};
ghost use Rattle.option_values.specs.Values.{is_given_in, says_given};

use crate::option_row::{OptionRow, Refusal};
use clap::ArgMatches;

/// The value of an option or a positional, if it was given or has a default.
pub fn value<'a>(matches: &ArgMatches<'a>, id: &str) -> Option<&'a str>
    ensures { option_map (λ s. s.now) result ≡ first_of id.now (rows_of (found_of matches.now)) }
{
    matches.get_str(id)
}

/// The value of an option that has a default, or of a positional.
pub fn needed<'a>(matches: &ArgMatches<'a>, option: &OptionRow) -> Result<&'a str, Refusal<'a>>
    ensures { option_map (λ s. s.now) (result_ok result)
        ≡ first_of option.now.name.now (rows_of (found_of matches.now)) }
{
    match value(matches, option.name) {
        Some(text) => Ok(text),
        None => Err(Refusal::Missing),
    }
}

/// The values of an argument that takes several, in the order in which they were given.
pub fn values<'a, 'm>(matches: &'m ArgMatches<'a>, id: &str) -> Option<&'m [&'a str]>
    ensures { option_map (λ s. map (λ v. v.now) s.now) result
        ≡ all_of id.now (rows_of (found_of matches.now)) }
{
    matches.get_strs(id)
}

// Whether the value of a flag says that it was given.
fn says_given(text: Option<&str>) -> bool
    ensures { result ≡ says_given (option_map (λ s. s.now) text.entry) }
{
    match text {
        None => false,
        Some(text) => text == "true",
    }
}

/// Whether a flag was given.
pub fn is_given(matches: &ArgMatches<'_>, id: &str) -> bool
    ensures { result ≡ is_given_in id.now (rows_of (found_of matches.now)) }
{
    says_given(value(matches, id))
}
