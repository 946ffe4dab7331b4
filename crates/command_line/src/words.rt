//! The request of the words of a command line: a function of the words alone.

ghost use Rattle.std.specs.Prelude.{◌≡◌, map, option_map, option_and_then, IfOk, IfErr, Some, None};
ghost use Rattle.std.specs.Result.{result_ok};
ghost use Rattle.clap.specs.Words.{found_of, rows_of, subcommand_rows_of};
ghost use Rattle.command_line.specs.Requests.{AnswersKind, AnswersWords, Collect, IsHelp, IsUsage, asked_by, is_dashed};
ghost use Rattle.command_line.specs.Requests.{names_command};
ghost use Rattle.command_line.specs.Requests.{parsed, read_collect, read_further, read_of};
ghost use Rattle.clap.specs.Values.{kind_of};
ghost use Rattle.command_line.specs.Requests.{quiet_asked, quiet_by, read_files, read_other};

use crate::collecting::read_collect_words;
use crate::count_words::read_count_words;
use crate::digest_words::read_digest_words;
use crate::file_words::{
    read_common_words, read_diff_words, read_merge_words, read_migrate_words, read_minus_words,
    read_union_words,
};
use crate::frame_words::{
    read_archive_words, read_check_words, read_convert_words, read_show_words,
};
use crate::line::whole_line;
use crate::proof_words::{read_confirm_words, read_prove_words};
use crate::reading::{read_follow_words, read_read_words};
use crate::request::{Invocation, Request};
use crate::select_words::read_select_words;
use crate::send_words::read_send_words;
use crate::serving::read_serve_request;
use crate::store_words::read_store_words;
use crate::tips::untipped;
use clap::ArgMatches;
use clap::error::ErrorKind;
use option_values::options::QUIET;
use option_values::{Refusal, is_given, refusal_text};
use std::alloc::{AllocError, Global};
use std::convert::AsStr;

/// Why words are no request.
#[derive(Debug, Drop)]
pub enum WordsFault {
    /// The words do not parse, or they ask for the program's help or version: the text to print.
    Usage(String),
    /// They ask for the help or the version of a command: the text to print.
    Help(String),
    /// An allocation failed.
    Memory,
}

impl From<AllocError> for WordsFault {
    ghost use Rattle.std.specs.Prelude.{◌≡◌};
    ghost use Rattle.command_line.specs.declared.words.WordsFault.TheVariants.{Memory};

    ghost from_gives = { λ _ fault. fault ≡ Memory };

    fn from(_: AllocError) -> WordsFault {
        WordsFault::Memory
    }
}

// `collect`, with its arguments.
fn read_collect_request<'a>(matches: &ArgMatches<'a>) -> Result<Request<'a>, Refusal<'a>>
    ensures { option_map asked_by (result_ok result)
        ≡ option_map (λ words. Collect words) (read_collect (rows_of (found_of matches.now))) }
{
    let words = read_collect_words(matches)?;
    Ok(Request::Collect { words })
}

// The request of a command that reads an archive as it comes, of `send`, or of one on a store, by its
// name.
fn read_further_words<'a>(name: &str, matches: &ArgMatches<'a>) -> Result<Request<'a>, Refusal<'a>>
    ensures { option_map asked_by (result_ok result)
        ≡ read_further name.now (rows_of (found_of matches.now)) }
{
    match name {
        "digest" => read_digest_words(matches),
        "root" => Ok(Request::Root),
        "prove" => read_prove_words(matches),
        "confirm" => read_confirm_words(matches),
        "send" => read_send_words(matches),
        _ => read_store_words(name, matches),
    }
}

// The request of a command on the archives of two files, of `migrate`, or of another that is none on
// frames, by its name.
#[tactic(auto, unfolding(crate::specs::Requests::read_files))]
fn read_files_words<'a>(name: &str, matches: &ArgMatches<'a>) -> Result<Request<'a>, Refusal<'a>>
    ensures { option_map asked_by (result_ok result)
        ≡ read_files name.now (rows_of (found_of matches.now)) }
{
    match name {
        "merge" => read_merge_words(matches),
        "migrate" => read_migrate_words(matches),
        "common" => read_common_words(matches),
        "minus" => read_minus_words(matches),
        "diff" => read_diff_words(matches),
        _ => read_further_words(name, matches),
    }
}

// The request of a command on frames, or of any other, by its name.
#[tactic(auto, unfolding(crate::specs::Requests::read_other))]
fn read_other_words<'a>(name: &str, matches: &ArgMatches<'a>) -> Result<Request<'a>, Refusal<'a>>
    ensures { option_map asked_by (result_ok result)
        ≡ read_other name.now (rows_of (found_of matches.now)) }
{
    match name {
        "check" => read_check_words(matches),
        "convert" => read_convert_words(matches),
        "show" => read_show_words(matches),
        "archive" => read_archive_words(matches),
        _ => read_files_words(name, matches),
    }
}

// The request of the command that was matched, by its name.
fn asked_for<'a>(
    alloc: Global,
    matches: &ArgMatches<'a>,
) -> Result<Result<Request<'a>, Refusal<'a>>, AllocError>
    ensures { IfOk result (λ r.
        option_map asked_by (result_ok r) ≡ option_and_then read_of (subcommand_rows_of matches.now)) }
{
    let Some((name, inner)) = matches.subcommand() else {
        return Ok(Err(Refusal::Missing));
    };
    match name {
        "collect" => Ok(read_collect_request(inner)),
        "union" => read_union_words(alloc, inner),
        "select" => read_select_words(alloc, inner),
        "count" => read_count_words(alloc, inner),
        "read" => read_read_words(alloc, inner),
        "follow" => read_follow_words(alloc, inner),
        "serve" => read_serve_request(alloc, inner),
        _ => Ok(read_other_words(name, inner)),
    }
}

// Whether the command that was matched was given `--quiet`.
fn is_quiet(matches: &ArgMatches<'_>) -> bool
    ensures { result ≡ quiet_by (subcommand_rows_of matches.now) }
{
    match matches.subcommand() {
        Some((_, inner)) => is_given(inner, QUIET.name),
        None => false,
    }
}

// The text of an error of `clap`, without a tip that misleads.
fn refused(alloc: Global, error: &clap::Error) -> WordsFault
    ensures { ¬ (IsHelp result) }
{
    match format!(in alloc; "{error}").and_then(|text| untipped(alloc, text)) {
        Ok(text) => WordsFault::Usage(text),
        Err(_) => WordsFault::Memory,
    }
}

// The text that words ask for.
fn help(alloc: Global, error: &clap::Error) -> WordsFault
    ensures { ¬ (IsUsage result) }
{
    match format!(in alloc; "{error}") {
        Ok(text) => WordsFault::Help(text),
        Err(_) => WordsFault::Memory,
    }
}

// The text for values that `clap` accepts and this program does not.
fn unknown(alloc: Global, refusal: Refusal<'_>) -> WordsFault
    ensures { ¬ (IsHelp result) }
{
    match refusal_text(alloc, refusal) {
        Ok(text) => WordsFault::Usage(text),
        Err(_) => WordsFault::Memory,
    }
}

// Whether a word begins with a dash.
fn is_dashed(word: &str) -> bool
    ensures { result ≡ is_dashed word.now }
{
    match word.as_bytes() {
        [first, ..] => *first == b'-',
        [] => false,
    }
}

// Whether the first word is neither an option nor `help`.
fn names_command<S: AsStr>(words: &[S]) -> bool
    ensures { result ≡ names_command (map S.text words.now) }
{
    match words {
        [] => false,
        [first, ..] => !is_dashed(first.as_str()) && first.as_str() != "help",
    }
}

// How words are answered that `clap` does not match.
fn unmatched<S: AsStr>(alloc: Global, words: &[S], error: &clap::Error) -> WordsFault
    ensures { AnswersKind (kind_of error.now) (map S.text words.now) result }
{
    match error.kind() {
        ErrorKind::OutOfMemory => WordsFault::Memory,
        ErrorKind::DisplayHelp | ErrorKind::DisplayVersion => {
            if names_command(words) {
                help(alloc, error)
            } else {
                refused(alloc, error)
            }
        }
        _ => refused(alloc, error),
    }
}

/// Reads the words of a command line, which do not begin with the program's name. It fails as the
/// variants of [`WordsFault`] say.
pub fn read_words<'a, S: AsStr>(alloc: Global, words: &'a [S]) -> Result<Invocation<'a>, WordsFault>
    ensures ok { IfOk result (λ i. parsed (map S.text words.entry.now) ≡ Some (asked_by i.request)) }
    ensures quiet { IfOk result (λ i. i.is_quiet ≡ quiet_asked (map S.text words.entry.now)) }
    ensures err { IfErr result (AnswersWords (map S.text words.entry.now)) }
{
    let line = whole_line(alloc)?;
    match line.try_get_matches_from(words) {
        Ok(matches) => match asked_for(alloc, &matches) {
            Ok(Ok(request)) => Ok(Invocation {
                request,
                is_quiet: is_quiet(&matches),
            }),
            Ok(Err(refusal)) => Err(unknown(alloc, refusal)),
            Err(_) => Err(WordsFault::Memory),
        },
        Err(error) => Err(unmatched(alloc, words, &error)),
    }
}
