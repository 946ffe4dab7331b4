//! The words of `read` and of `follow`, and those that say when records are colored.

ghost use Rattle.std.specs.Prelude.{◌≡◌, option_map, IfOk};
ghost use Rattle.std.specs.Result.{result_ok};
ghost use Rattle.clap.specs.Words.{found_of, rows_of};
ghost use Rattle.command_line.specs.Reads.{color_in, color_of, form_in, form_of, read_words_in};
ghost use Rattle.command_line.specs.Requests.{asked_by, follow_words_in, read_follow, read_read};

use crate::request::{ColorWhen, FollowWords, ReadForm, ReadWords, Request};
use clap::ArgMatches;
use condition_words::read_conditions;
use option_values::options::{COLOR, DIR, FROM_START, LAST, PARTIAL, READ_FORM, UNTIL_EOF};
use option_values::{Refusal, is_given, needed, optional_number};
use std::alloc::{AllocError, Global};

// When records are colored, by this name; None for any other text.
fn color(name: &str) -> Option<ColorWhen>
    ensures { result ≡ color_of name.now }
{
    match name {
        "auto" => Some(ColorWhen::Auto),
        "always" => Some(ColorWhen::Always),
        "never" => Some(ColorWhen::Never),
        _ => None,
    }
}

/// The value of `--color`.
pub(crate) fn color_of_matches<'a>(matches: &ArgMatches<'a>) -> Result<ColorWhen, Refusal<'a>>
    ensures { result_ok result ≡ color_in (rows_of (found_of matches.now)) }
{
    let name = needed(matches, &COLOR)?;
    match color(name) {
        Some(color) => Ok(color),
        None => Err(COLOR.refuses(COLOR.kind, name)),
    }
}

// What is written, by this name; None for any other text.
fn form(name: &str) -> Option<ReadForm>
    ensures { result ≡ form_of name.now }
{
    match name {
        "archive" => Some(ReadForm::Archive),
        "lines" => Some(ReadForm::Lines),
        "json" => Some(ReadForm::Json),
        "show" => Some(ReadForm::Show),
        _ => None,
    }
}

// The value of `--as`.
fn form_of_matches<'a>(matches: &ArgMatches<'a>) -> Result<ReadForm, Refusal<'a>>
    ensures { result_ok result ≡ form_in (rows_of (found_of matches.now)) }
{
    let name = needed(matches, &READ_FORM)?;
    match form(name) {
        Some(form) => Ok(form),
        None => Err(READ_FORM.refuses(READ_FORM.kind, name)),
    }
}

// Which of the records are written, and how.
fn words<'a>(matches: &ArgMatches<'a>) -> Result<ReadWords, Refusal<'a>>
    ensures { result_ok result ≡ read_words_in (rows_of (found_of matches.now)) }
{
    let last = match optional_number(matches, &LAST) {
        Ok(last) => last,
        Err(refusal) => return Err(refusal),
    };
    let form = match form_of_matches(matches) {
        Ok(form) => form,
        Err(refusal) => return Err(refusal),
    };
    match color_of_matches(matches) {
        Ok(color) => Ok(ReadWords {
            last,
            form,
            color,
            partial: is_given(matches, PARTIAL.name),
        }),
        Err(refusal) => Err(refusal),
    }
}

/// The request of `read`. It fails only when out of memory.
pub(crate) fn read_read_words<'a>(
    alloc: Global,
    matches: &ArgMatches<'a>,
) -> Result<Result<Request<'a>, Refusal<'a>>, AllocError>
    ensures { IfOk result (λ r.
        option_map asked_by (result_ok r) ≡ read_read (rows_of (found_of matches.now))) }
{
    let dir = match needed(matches, &DIR) {
        Ok(dir) => dir,
        Err(refusal) => return Ok(Err(refusal)),
    };
    let conditions = match read_conditions(alloc, matches)? {
        Ok(conditions) => conditions,
        Err(refusal) => return Ok(Err(refusal)),
    };
    match words(matches) {
        Ok(words) => Ok(Ok(Request::Read {
            dir,
            conditions,
            words,
        })),
        Err(refusal) => Ok(Err(refusal)),
    }
}

// Which records `follow` begins with, and what ends it.
fn follow_words(matches: &ArgMatches<'_>) -> FollowWords
    ensures { result ≡ follow_words_in (rows_of (found_of matches.now)) }
{
    FollowWords {
        from_start: is_given(matches, FROM_START.name),
        until_eof: is_given(matches, UNTIL_EOF.name),
    }
}

/// The request of `follow`. It fails only when out of memory.
pub(crate) fn read_follow_words<'a>(
    alloc: Global,
    matches: &ArgMatches<'a>,
) -> Result<Result<Request<'a>, Refusal<'a>>, AllocError>
    ensures { IfOk result (λ r.
        option_map asked_by (result_ok r) ≡ read_follow (rows_of (found_of matches.now))) }
{
    let dir = match needed(matches, &DIR) {
        Ok(dir) => dir,
        Err(refusal) => return Ok(Err(refusal)),
    };
    match read_conditions(alloc, matches)? {
        Ok(conditions) => Ok(Ok(Request::Follow {
            dir,
            conditions,
            words: follow_words(matches),
        })),
        Err(refusal) => Ok(Err(refusal)),
    }
}
