//! The words of `prove` and `confirm`.

ghost use Rattle.std.specs.Prelude.{◌≡◌, option_and_then, option_map};
ghost use Rattle.std.specs.Result.{result_ok};
ghost use Rattle.clap.specs.Walk.{first_of};
ghost use Rattle.clap.specs.Words.{found_of, rows_of};
ghost use Rattle.command_line.specs.Heads.{hash_in};
ghost use Rattle.command_line.specs.Requests.{asked_by, head_in, read_confirm, read_prove};

use crate::request::Request;
use archive_tree::{Hash, TreeHead};
use clap::ArgMatches;
use option_values::options::{HEAD_HASH, HEAD_SIZE, RECORDS};
use option_values::{Refusal, needed, size};

/// The request of `prove`.
pub fn read_prove_words<'a>(matches: &ArgMatches<'a>) -> Result<Request<'a>, Refusal<'a>>
    ensures { option_map asked_by (result_ok result) ≡ read_prove (rows_of (found_of matches.now)) }
{
    let records = needed(matches, &RECORDS)?;
    Ok(Request::Prove { records })
}

// The hash that 64 hexadecimal digits write; None for any other text.
fn hash_of(text: &str) -> Option<Hash>
    ensures { result ≡ hash_in text.now }
{
    let mut hash = [0; 32];
    match hex::decode_to_slice(text.as_bytes(), &mut hash) {
        Ok(()) => Some(hash),
        Err(_) => None,
    }
}

// The head of an archive, as `root` prints it.
fn head<'a>(matches: &ArgMatches<'a>) -> Result<TreeHead, Refusal<'a>>
    ensures { result_ok result ≡ head_in (rows_of (found_of matches.now)) }
{
    let size = size(matches, &HEAD_SIZE)?;
    let text = needed(matches, &HEAD_HASH)?;
    match hash_of(text) {
        Some(hash) => Ok(TreeHead { size, hash }),
        None => Err(HEAD_HASH.refuses(HEAD_HASH.kind, text)),
    }
}

/// The request of `confirm`.
pub fn read_confirm_words<'a>(matches: &ArgMatches<'a>) -> Result<Request<'a>, Refusal<'a>>
    ensures { option_map asked_by (result_ok result) ≡ read_confirm (rows_of (found_of matches.now)) }
{
    let head = head(matches)?;
    let records = needed(matches, &RECORDS)?;
    Ok(Request::Confirm { head, records })
}
