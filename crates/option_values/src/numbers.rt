//! Numbers in words: decimal digits alone.

ghost use Rattle.std.specs.Prelude.{◌≡◌, [], ◌∷◌, option_and_then};
ghost use Rattle.std.specs.Result.{result_ok};
ghost use Rattle.clap.specs.Walk.{first_of};
ghost use Rattle.clap.specs.Words.{found_of, rows_of};
ghost use Rattle.option_values.specs.Numbers.{number_by, number_in, size_in};
ghost use Rattle.option_values.specs.Values.{optional};

use crate::given::{needed, value};
use crate::option_row::{Kind, OptionRow, Refusal};
use clap::ArgMatches;

/// The number from `first` to `last` that the text spells in decimal digits alone; leading zeros
/// are accepted. None if it spells none.
pub(crate) fn number_from(text: &str, first: u32, last: u32) -> Option<u32>
    ensures { result ≡ number_in first last text.now }
{
    if text.starts_with('+') {
        return None;
    }
    match text.parse::<u32>() {
        Ok(number) if number >= first && number <= last => Some(number),
        _ => None,
    }
}

// The number that the text spells, in the range of a kind; None for a kind that is no number.
fn number_by(kind: Kind, text: &str) -> Option<u32>
    ensures { result ≡ number_by kind text.now }
{
    match kind {
        Kind::Number(first, last) | Kind::Year(first, last) => number_from(text, first, last),
        _ => None,
    }
}

/// The number that the value of an option is, in the range of a kind.
pub fn number_within<'a>(
    matches: &ArgMatches<'a>,
    option: &OptionRow,
    kind: Kind,
) -> Result<u32, Refusal<'a>>
    ensures { result_ok result
        ≡ option_and_then (number_by kind) (first_of option.now.name.now (rows_of (found_of matches.now))) }
{
    let text = needed(matches, option)?;
    match number_by(kind, text) {
        Some(number) => Ok(number),
        None => Err(option.refuses(kind, text)),
    }
}

/// The number that the value of an option is, in the range of its row.
pub fn number<'a>(matches: &ArgMatches<'a>, option: &OptionRow) -> Result<u32, Refusal<'a>>
    ensures { result_ok result ≡ option_and_then (number_by option.now.kind)
        (first_of option.now.name.now (rows_of (found_of matches.now))) }
{
    number_within(matches, option, option.kind)
}

/// The number that the value of an option is, in the range of its row, if it is given.
pub fn optional_number<'a>(
    matches: &ArgMatches<'a>,
    option: &OptionRow,
) -> Result<Option<u32>, Refusal<'a>>
    ensures { result_ok result ≡ optional (number_by option.now.kind)
        (first_of option.now.name.now (rows_of (found_of matches.now))) }
{
    let Some(text) = value(matches, option.name) else {
        return Ok(None);
    };
    match number_by(option.kind, text) {
        Some(number) => Ok(Some(number)),
        None => Err(option.refuses(option.kind, text)),
    }
}

// The number of 64 bits that the text spells in decimal digits alone; None if it spells none.
fn size_of(text: &str) -> Option<u64>
    ensures { result ≡ size_in text.now }
{
    if text.starts_with('+') {
        return None;
    }
    match text.parse::<u64>() {
        Ok(number) => Some(number),
        Err(_) => None,
    }
}

/// The number of 64 bits that the value of an option is.
pub fn size<'a>(matches: &ArgMatches<'a>, option: &OptionRow) -> Result<u64, Refusal<'a>>
    ensures { result_ok result
        ≡ option_and_then size_in (first_of option.now.name.now (rows_of (found_of matches.now))) }
{
    let text = needed(matches, option)?;
    match size_of(text) {
        Some(number) => Ok(number),
        None => Err(option.refuses(option.kind, text)),
    }
}

// The number up to `last` that two decimal digits write.
pub(crate) fn two_digits(tens: u8, ones: u8, last: u8) -> Option<u8>
    ensures { result ≡ number_in 0 last (tens ∷ ones ∷ []) }
{
    if !tens.is_ascii_digit() || !ones.is_ascii_digit() {
        return None;
    }
    let number = (tens - b'0') * 10 + (ones - b'0');
    if number > last {
        return None;
    }
    Some(number)
}
