//! The words of the commands on two stores: `reconcile`, `answer` and `backup`.

ghost use Rattle.std.specs.Prelude.{◌≡◌, option_map};
ghost use Rattle.std.specs.Result.{result_ok};
ghost use Rattle.clap.specs.Words.{found_of, rows_of};
ghost use Rattle.command_line.specs.Requests.{asked_by, read_answer, read_backup, read_reconcile, read_sites};
ghost use Rattle.command_line.specs.Sites.{answer_in, range_in, reconcile_in, way_by};

use crate::request::{AnswerWords, ReconcileWay, ReconcileWords, Request};
use archive_sets::InRange;
use clap::ArgMatches;
use option_values::options::{
    COMPARE_ALONE, COPY_DIR, DIR, FROM, PULL, PUSH, READ_ONLY, ROOM, TIMEOUT, UNDATED, UNTIL,
};
use option_values::{Refusal, is_given, needed, number, optional_instant};

// Which records are compared, by the values of the options.
fn range<'a>(matches: &ArgMatches<'a>) -> Result<InRange, Refusal<'a>>
    ensures { result_ok result ≡ range_in (rows_of (found_of matches.now)) }
{
    let from = match optional_instant(matches, &FROM) {
        Ok(from) => from,
        Err(refusal) => return Err(refusal),
    };
    let to = match optional_instant(matches, &UNTIL) {
        Ok(to) => to,
        Err(refusal) => return Err(refusal),
    };
    Ok(InRange {
        from,
        to,
        undated: is_given(matches, UNDATED.name),
    })
}

// Which way records cross, by the two flags: both of them say no more than neither.
fn way_by(pull: bool, push: bool) -> ReconcileWay
    ensures { result ≡ way_by pull push }
{
    match (pull, push) {
        (true, false) => ReconcileWay::Pull,
        (false, true) => ReconcileWay::Push,
        (true, true) | (false, false) => ReconcileWay::Both,
    }
}

// What is compared, and what is done then, by the values of the options.
fn reconcile_words<'a>(matches: &ArgMatches<'a>) -> Result<ReconcileWords, Refusal<'a>>
    ensures { result_ok result ≡ reconcile_in (rows_of (found_of matches.now)) }
{
    let range = match range(matches) {
        Ok(range) => range,
        Err(refusal) => return Err(refusal),
    };
    let room_mib = number(matches, &ROOM)?;
    let timeout_seconds = number(matches, &TIMEOUT)?;
    let way = way_by(is_given(matches, PULL.name), is_given(matches, PUSH.name));
    Ok(ReconcileWords {
        range,
        way,
        dry_run: is_given(matches, COMPARE_ALONE.name),
        room_mib,
        timeout_seconds,
    })
}

// What the other site is allowed, by the values of the options.
fn answer_words<'a>(matches: &ArgMatches<'a>) -> Result<AnswerWords, Refusal<'a>>
    ensures { result_ok result ≡ answer_in (rows_of (found_of matches.now)) }
{
    let room_mib = number(matches, &ROOM)?;
    let timeout_seconds = number(matches, &TIMEOUT)?;
    Ok(AnswerWords {
        read_only: is_given(matches, READ_ONLY.name),
        room_mib,
        timeout_seconds,
    })
}

// The request of `reconcile`.
fn read_reconcile_words<'a>(matches: &ArgMatches<'a>) -> Result<Request<'a>, Refusal<'a>>
    ensures { option_map asked_by (result_ok result) ≡ read_reconcile (rows_of (found_of matches.now)) }
{
    let dir = needed(matches, &DIR)?;
    match reconcile_words(matches) {
        Ok(words) => Ok(Request::Reconcile { dir, words }),
        Err(refusal) => Err(refusal),
    }
}

// The request of `answer`.
fn read_answer_words<'a>(matches: &ArgMatches<'a>) -> Result<Request<'a>, Refusal<'a>>
    ensures { option_map asked_by (result_ok result) ≡ read_answer (rows_of (found_of matches.now)) }
{
    let dir = needed(matches, &DIR)?;
    let words = answer_words(matches)?;
    Ok(Request::Answer { dir, words })
}

// The request of `backup`.
fn read_backup_words<'a>(matches: &ArgMatches<'a>) -> Result<Request<'a>, Refusal<'a>>
    ensures { option_map asked_by (result_ok result) ≡ read_backup (rows_of (found_of matches.now)) }
{
    let dir = needed(matches, &DIR)?;
    let to = needed(matches, &COPY_DIR)?;
    Ok(Request::Backup { dir, to })
}

/// The request of the command on two stores with this name.
pub(crate) fn read_site_words<'a>(
    name: &str,
    matches: &ArgMatches<'a>,
) -> Result<Request<'a>, Refusal<'a>>
    ensures { option_map asked_by (result_ok result)
        ≡ read_sites name.now (rows_of (found_of matches.now)) }
{
    match name {
        "reconcile" => read_reconcile_words(matches),
        "answer" => read_answer_words(matches),
        "backup" => read_backup_words(matches),
        _ => Err(Refusal::Missing),
    }
}
