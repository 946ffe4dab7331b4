//! The words of `select`.

ghost use Rattle.std.specs.Prelude.{◌≡◌, option_map, IfOk};
ghost use Rattle.std.specs.Result.{result_ok};
ghost use Rattle.clap.specs.Words.{found_of, rows_of};
ghost use Rattle.command_line.specs.Requests.{asked_by, read_select};

use crate::request::Request;
use clap::ArgMatches;
use condition_words::read_conditions;
use option_values::Refusal;
use std::alloc::{AllocError, Global};

/// The request of `select`. It fails only when out of memory.
pub fn read_select_words<'a>(
    alloc: Global,
    matches: &ArgMatches<'a>,
) -> Result<Result<Request<'a>, Refusal<'a>>, AllocError>
    ensures { IfOk result (λ r.
        option_map asked_by (result_ok r) ≡ read_select (rows_of (found_of matches.now))) }
{
    match read_conditions(alloc, matches)? {
        Ok(conditions) => Ok(Ok(Request::Select { conditions })),
        Err(refusal) => Ok(Err(refusal)),
    }
}
