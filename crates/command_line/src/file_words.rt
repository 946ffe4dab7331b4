//! The words of the commands on archives of files: `merge`, `migrate`, `union`, `common`, `minus` and
//! `diff`.

ghost use Rattle.std.specs.Prelude.{◌≡◌, map, option_map, IfOk};
ghost use Rattle.std.specs.Result.{result_ok};
ghost use Rattle.clap.specs.Words.{found_of, rows_of};
ghost use Rattle.command_line.specs.Requests.{asked_by, read_common, read_diff, read_merge, read_migrate};
ghost use Rattle.command_line.specs.Requests.{read_minus, read_union};

use crate::request::{FileRequest, Request};
use clap::ArgMatches;
use option_values::options::{FILES, LEFT, OLD_FILE, RIGHT};
use option_values::{Refusal, needed, values};
use std::alloc::{AllocError, Global};

/// The request of `merge`.
pub fn read_merge_words<'a>(matches: &ArgMatches<'a>) -> Result<Request<'a>, Refusal<'a>>
    ensures { option_map asked_by (result_ok result) ≡ read_merge (rows_of (found_of matches.now)) }
{
    let left = needed(matches, &LEFT)?;
    let right = needed(matches, &RIGHT)?;
    Ok(Request::Files(FileRequest::Merge { left, right }))
}

/// The request of `migrate`.
pub fn read_migrate_words<'a>(matches: &ArgMatches<'a>) -> Result<Request<'a>, Refusal<'a>>
    ensures { option_map asked_by (result_ok result) ≡ read_migrate (rows_of (found_of matches.now)) }
{
    let file = needed(matches, &OLD_FILE)?;
    Ok(Request::Files(FileRequest::Migrate { file }))
}

// The same names, in a list of their own.
fn copied<'a>(alloc: Global, names: &[&'a str]) -> Result<Vec<&'a str>, AllocError>
    ensures { IfOk result (λ r. map (λ v. v.now) r.items ≡ map (λ v. v.now) names.now) }
{
    names.to_vec(alloc)
}

/// The request of `union`. It fails only when out of memory.
pub fn read_union_words<'a>(
    alloc: Global,
    matches: &ArgMatches<'a>,
) -> Result<Result<Request<'a>, Refusal<'a>>, AllocError>
    ensures { IfOk result (λ r.
        option_map asked_by (result_ok r) ≡ read_union (rows_of (found_of matches.now))) }
{
    let Some(names) = values(matches, FILES.name) else {
        return Ok(Err(Refusal::Missing));
    };
    let files = copied(alloc, names)?;
    Ok(Ok(Request::Files(FileRequest::Union { files })))
}

/// The request of `common`.
pub fn read_common_words<'a>(matches: &ArgMatches<'a>) -> Result<Request<'a>, Refusal<'a>>
    ensures { option_map asked_by (result_ok result) ≡ read_common (rows_of (found_of matches.now)) }
{
    let left = needed(matches, &LEFT)?;
    let right = needed(matches, &RIGHT)?;
    Ok(Request::Files(FileRequest::Common { left, right }))
}

/// The request of `minus`.
pub fn read_minus_words<'a>(matches: &ArgMatches<'a>) -> Result<Request<'a>, Refusal<'a>>
    ensures { option_map asked_by (result_ok result) ≡ read_minus (rows_of (found_of matches.now)) }
{
    let left = needed(matches, &LEFT)?;
    let right = needed(matches, &RIGHT)?;
    Ok(Request::Files(FileRequest::Minus { left, right }))
}

/// The request of `diff`.
pub fn read_diff_words<'a>(matches: &ArgMatches<'a>) -> Result<Request<'a>, Refusal<'a>>
    ensures { option_map asked_by (result_ok result) ≡ read_diff (rows_of (found_of matches.now)) }
{
    let left = needed(matches, &LEFT)?;
    let right = needed(matches, &RIGHT)?;
    Ok(Request::Files(FileRequest::Diff { left, right }))
}
