//! The words of `serve`.

ghost use Rattle.std.specs.Prelude.{◌≡◌, option_map, IfOk};
ghost use Rattle.std.specs.Result.{result_ok};
ghost use Rattle.clap.specs.Words.{found_of, rows_of};
ghost use Rattle.command_line.specs.Requests.{asked_by, read_serve};

use crate::request::Request;
use clap::ArgMatches;
use option_values::Refusal;
use server_words::read_serve_words;
use std::alloc::{AllocError, Global};

/// The request of `serve`. It fails only when out of memory.
pub fn read_serve_request<'a>(
    alloc: Global,
    matches: &ArgMatches<'a>,
) -> Result<Result<Request<'a>, Refusal<'a>>, AllocError>
    ensures { IfOk result (λ r.
        option_map asked_by (result_ok r) ≡ read_serve (rows_of (found_of matches.now))) }
{
    match read_serve_words(alloc, matches)? {
        Ok(words) => Ok(Ok(Request::Serve { words })),
        Err(refusal) => Ok(Err(refusal)),
    }
}
