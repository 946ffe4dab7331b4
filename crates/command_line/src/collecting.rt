//! The words of `collect`.

ghost use Rattle.std.specs.Prelude.{◌≡◌, ◌⊎◌, codes, map, option_and_then, IfErr, IfOk, IfSome, Err, None, Ok, Some};
ghost use Rattle.std.specs.Result.{result_ok};
ghost use Rattle.clap.specs.Walk.{first_of};
ghost use Rattle.clap.specs.Words.{found_of, rows_of, subcommand_rows_of};
ghost use Rattle.command_line.specs.Requests.{Collect, asked_by, collect_asked, collect_by, count_max, parsed};
ghost use Rattle.command_line.specs.Requests.{read_collect, transport_of};

use crate::line::whole_line;
use clap::ArgMatches;
use clap::error::ErrorKind;
use collect_engine::{CollectWords, Transport};
use driver::{FAULT, NO_MEMORY};
use option_values::options::{COUNT, PORT, TRANSPORT};
use option_values::{Kind, Refusal, needed, number, number_within, reading_of_matches};
use std::alloc::Global;
use std::convert::AsStr;

// The transport with this name; None for any other text.
fn transport(name: &str) -> Option<Transport>
    ensures { result ≡ transport_of name.now }
{
    match name {
        "udp" => Some(Transport::Udp),
        "counted" => Some(Transport::Counted),
        "lf" => Some(Transport::Lf),
        _ => None,
    }
}

// How many datagrams or connections may be asked for at most.
fn count_max(transport: Transport) -> u32
    ensures { result ≡ count_max transport }
{
    match transport {
        Transport::Udp => 1_000_000,
        Transport::Counted | Transport::Lf => 100_000,
    }
}

// The transport by its place.
fn transport_of_matches<'a>(matches: &ArgMatches<'a>) -> Result<Transport, Refusal<'a>>
    ensures { result_ok result
        ≡ option_and_then transport_of (first_of (codes "TRANSPORT") (rows_of (found_of matches.now))) }
{
    let name = needed(matches, &TRANSPORT)?;
    match transport(name) {
        Some(transport) => Ok(transport),
        None => Err(TRANSPORT.refuses(TRANSPORT.kind, name)),
    }
}

/// The arguments of `collect`.
pub fn read_collect_words<'a>(matches: &ArgMatches<'a>) -> Result<CollectWords, Refusal<'a>>
    ensures { result_ok result ≡ read_collect (rows_of (found_of matches.now)) }
{
    let transport = transport_of_matches(matches)?;
    let port = number(matches, &PORT)? as u16;
    let count = number_within(matches, &COUNT, Kind::Number(1, count_max(transport)))?;
    let reading = reading_of_matches(matches)?;
    Ok(CollectWords {
        transport,
        port,
        count,
        reading,
    })
}

// The arguments of `collect` where that is the command, by the words that were matched.
fn collect_of_matches(matches: &ArgMatches<'_>) -> Result<Option<CollectWords>, u8>
    ensures { result ≡ collect_by (subcommand_rows_of matches.now) }
{
    let Some((name, inner)) = matches.subcommand() else {
        return Err(FAULT);
    };
    match name {
        "collect" => match read_collect_words(inner) {
            Ok(words) => Ok(Some(words)),
            Err(_) => Err(FAULT),
        },
        _ => Ok(None),
    }
}

/// Reads the arguments of `collect` from the words of a command line, which do not begin with the
/// program's name. Words of another command give None, whatever its values. The error is the exit
/// status: 2 if the words do not parse or an argument of `collect` is refused, 3 if memory ran out.
pub fn collect_words<S: AsStr>(alloc: Global, words: &[S]) -> Result<Option<CollectWords>, u8>
    ensures ok { IfOk result (λ r. collect_asked (map S.text words.now) ≡ Ok r) }
    ensures err { IfErr result (λ status. (status ≡ 3)
        ⊎ ((status ≡ 2) × (collect_asked (map S.text words.now) ≡ Err 2))) }

    // what `read_words` says of the same words
    ensures asked { IfOk result (λ r. IfSome r (λ collect.
        parsed (map S.text words.now) ≡ Some (Collect collect))) }
    ensures refused { IfErr result (λ status.
        status ≡ 2 → parsed (map S.text words.now) ≡ None) }
{
    let Ok(line) = whole_line(alloc) else {
        return Err(NO_MEMORY);
    };
    match line.try_get_matches_from(words) {
        Ok(matches) => collect_of_matches(&matches),
        Err(error) => match error.kind() {
            ErrorKind::OutOfMemory => Err(NO_MEMORY),
            _ => Err(FAULT),
        },
    }
}
