//! The words of `count`.

ghost use Rattle.std.specs.Prelude.{◌≡◌, ◌==◌, IfOk, map, option_map};
ghost use Rattle.std.specs.List.{slice_split};
ghost use Rattle.std.specs.Result.{result_ok};
ghost use Rattle.clap.specs.Walk.{first_of};
ghost use Rattle.clap.specs.Words.{found_of, rows_of};
ghost use Rattle.command_line.specs.Counts.{form_by, key_of, keys_in, keys_of};
ghost use Rattle.command_line.specs.Requests.{asked_by, count_of, read_count};
ghost use Rattle.option_values.specs.Values.{all_given};

use crate::request::Request;
use archive_counts::{CountForm, CountKey, CountOptions};
use clap::ArgMatches;
use option_values::options::{BARS, COUNTS_JSON, KEYS, TOP};
use option_values::{Refusal, is_given, optional_number, value};
use std::alloc::{AllocError, Global};

// How many columns bars have where the terminal does not say.
const COLUMNS: u16 = 80;

// The key with this name; None for any other text.
fn key(name: &str) -> Option<CountKey>
    ensures { result ≡ key_of name.now }
{
    match name {
        "host" => Some(CountKey::Host),
        "app" => Some(CountKey::App),
        "proc" => Some(CountKey::Proc),
        "msgid" => Some(CountKey::Msgid),
        "facility" => Some(CountKey::Facility),
        "severity" => Some(CountKey::Severity),
        "day" => Some(CountKey::Day),
        "hour" => Some(CountKey::Hour),
        "minute" => Some(CountKey::Minute),
        _ => None,
    }
}

// The words of a text between its commas.
fn words(alloc: Global, text: &str) -> Result<Vec<&str>, AllocError>
    ensures { IfOk result (λ v. map (λ s. s.now) v.items ≡ slice_split (λ b. b == 44) text.now) }
{
    text.split(',').collect(alloc)
}

// The keys with these names, if each name is that of one.
fn keys_named(alloc: Global, names: &[&str]) -> Result<Option<Vec<CountKey>>, AllocError>
    ensures { IfOk result (λ r. option_map (λ v. v.items) r
        ≡ all_given (map (λ s. key_of s.now) names.now)) }
{
    let mut keys = Vec::new(alloc);
    for name in names {
        let Some(key) = key(name) else {
            return Ok(None);
        };
        keys.push(key)?;
    }
    Ok(Some(keys))
}

// The keys that a text names, with commas between them, if it does.
fn keys_of(alloc: Global, text: &str) -> Result<Option<Vec<CountKey>>, AllocError>
    ensures { IfOk result (λ r. option_map (λ v. v.items) r ≡ keys_of text.now) }
{
    let names = words(alloc, text)?;
    keys_named(alloc, &names)
}

// The keys by `--by`: none where it is not given.
fn keys<'a>(
    alloc: Global,
    matches: &ArgMatches<'a>,
) -> Result<Result<Vec<CountKey>, Refusal<'a>>, AllocError>
    ensures { IfOk result (λ r. option_map (λ v. v.items) (result_ok r)
        ≡ keys_in (rows_of (found_of matches.now))) }
{
    let Some(text) = value(matches, KEYS.name) else {
        return Ok(Ok(Vec::new(alloc)));
    };
    match keys_of(alloc, text)? {
        Some(keys) => Ok(Ok(keys)),
        None => Ok(Err(KEYS.refuses(KEYS.kind, text))),
    }
}

// How counts are written, by the two flags, which exclude each other.
fn form_by(json: bool, bars: bool) -> Result<CountForm, Refusal<'static>>
    ensures { result_ok result ≡ form_by json bars }
{
    match (json, bars) {
        (true, true) => Err(Refusal::Excluded {
            option: BARS,
            other: COUNTS_JSON,
        }),
        (true, false) => Ok(CountForm::Json),
        (false, true) => Ok(CountForm::Bars { columns: COLUMNS }),
        (false, false) => Ok(CountForm::Lines),
    }
}

// The request of `count` with these keys.
fn with_keys<'a>(keys: Vec<CountKey>, matches: &ArgMatches<'a>) -> Result<Request<'a>, Refusal<'a>>
    ensures { option_map asked_by (result_ok result)
        ≡ count_of keys.items (rows_of (found_of matches.now)) }
{
    let top = optional_number(matches, &TOP)?;
    let form = form_by(
        is_given(matches, COUNTS_JSON.name),
        is_given(matches, BARS.name),
    )?;
    Ok(Request::Count {
        options: CountOptions {
            keys,
            top: top.map(u64::from),
            form,
        },
    })
}

/// The request of `count`. It fails only when out of memory.
pub fn read_count_words<'a>(
    alloc: Global,
    matches: &ArgMatches<'a>,
) -> Result<Result<Request<'a>, Refusal<'a>>, AllocError>
    ensures { IfOk result (λ r.
        option_map asked_by (result_ok r) ≡ read_count (rows_of (found_of matches.now))) }
{
    match keys(alloc, matches)? {
        Ok(keys) => Ok(with_keys(keys, matches)),
        Err(refusal) => Ok(Err(refusal)),
    }
}
