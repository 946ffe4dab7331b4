//! The words of the commands on stores: `verify`, `stat`, `compact`, `add`, `expire` and `seal`, or those on two.

ghost use Rattle.std.specs.Prelude.{◌≡◌, option_map};
ghost use Rattle.std.specs.Result.{result_ok};
ghost use Rattle.clap.specs.Words.{found_of, rows_of};
ghost use Rattle.command_line.specs.Requests.{asked_by, read_add, read_compact, read_seal, read_stat};
ghost use Rattle.command_line.specs.Requests.{read_store, read_verify};

use crate::expire_words::read_expire_words;
use crate::request::Request;
use crate::site_words::read_site_words;
use clap::ArgMatches;
use option_values::options::{AGAINST, DIR, NEW_DIR, SEAL_BEFORE};
use option_values::{Refusal, needed, optional_instant, value};

// The request of `verify`.
fn read_verify_words<'a>(matches: &ArgMatches<'a>) -> Result<Request<'a>, Refusal<'a>>
    ensures { option_map asked_by (result_ok result) ≡ read_verify (rows_of (found_of matches.now)) }
{
    let dir = needed(matches, &DIR)?;
    Ok(Request::Verify {
        dir,
        against: value(matches, AGAINST.name),
    })
}

// The request of `stat`.
fn read_stat_words<'a>(matches: &ArgMatches<'a>) -> Result<Request<'a>, Refusal<'a>>
    ensures { option_map asked_by (result_ok result) ≡ read_stat (rows_of (found_of matches.now)) }
{
    let dir = needed(matches, &DIR)?;
    Ok(Request::Stat { dir })
}

// The request of `compact`.
fn read_compact_words<'a>(matches: &ArgMatches<'a>) -> Result<Request<'a>, Refusal<'a>>
    ensures { option_map asked_by (result_ok result) ≡ read_compact (rows_of (found_of matches.now)) }
{
    let dir = needed(matches, &DIR)?;
    Ok(Request::Compact { dir })
}

// The request of `add`.
fn read_add_words<'a>(matches: &ArgMatches<'a>) -> Result<Request<'a>, Refusal<'a>>
    ensures { option_map asked_by (result_ok result) ≡ read_add (rows_of (found_of matches.now)) }
{
    let dir = needed(matches, &NEW_DIR)?;
    Ok(Request::Add { dir })
}

// The request of `seal`.
fn read_seal_words<'a>(matches: &ArgMatches<'a>) -> Result<Request<'a>, Refusal<'a>>
    ensures { option_map asked_by (result_ok result) ≡ read_seal (rows_of (found_of matches.now)) }
{
    let dir = needed(matches, &DIR)?;
    match optional_instant(matches, &SEAL_BEFORE) {
        Ok(Some(before)) => Ok(Request::Seal { dir, before }),
        Ok(None) => Err(Refusal::NoSealTime),
        Err(refusal) => Err(refusal),
    }
}

/// The request of the command on stores with this name.
pub fn read_store_words<'a>(
    name: &str,
    matches: &ArgMatches<'a>,
) -> Result<Request<'a>, Refusal<'a>>
    ensures { option_map asked_by (result_ok result)
        ≡ read_store name.now (rows_of (found_of matches.now)) }
{
    match name {
        "verify" => read_verify_words(matches),
        "stat" => read_stat_words(matches),
        "compact" => read_compact_words(matches),
        "add" => read_add_words(matches),
        "expire" => read_expire_words(matches),
        "seal" => read_seal_words(matches),
        _ => read_site_words(name, matches),
    }
}
