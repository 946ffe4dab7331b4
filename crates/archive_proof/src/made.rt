//! The proofs of searches that have ended, as texts.

ghost use Rattle.std.specs.Prelude.{◌≡◌, ◌++◌, OnOk};
ghost use Rattle.archive_proof.specs.Making.{made_side, made_text, made_texts};

use crate::search::{Place, Search};
use crate::writing::{put, put_neighbour, put_present};
use archive_tree::AuditPath;
use std::alloc::AllocError;

// Puts the word and the neighbour of these octets, if there are any: an entry has octets.
fn put_made_side(
    text: &mut Vec<u8>,
    word: &[u8],
    octets: &[u8],
    path: &AuditPath,
) -> Result<(), AllocError>
    ensures { OnOk result (text.new.items ≡ text.old.items ++ made_side word.now octets.now path.now) }
{
    if octets.is_empty() {
        return Ok(());
    }
    put(text, word)?;
    put_neighbour(text, octets, path)
}

// Puts the proof that a search has led to, where these are its paths.
fn put_made(
    text: &mut Vec<u8>,
    search: &Search,
    before: &AuditPath,
    behind: &AuditPath,
) -> Result<(), AllocError>
    ensures { OnOk result (text.new.items
        ≡ text.old.items ++ made_text search.now.place search.now before.now behind.now) }
{
    match search.place {
        Place::Found => put_present(text, before),
        _ => {
            put(text, b"absent\n")?;
            put_made_side(text, b"before ", search.before.as_slice(), before)?;
            put_made_side(text, b"behind ", search.behind.as_slice(), behind)?;
            put(text, b"\n")
        }
    }
}

/// Puts the proof that each search has led to. Each has two paths.
pub(crate) fn put_all(
    text: &mut Vec<u8>,
    searches: &[Search],
    paths: &[AuditPath],
) -> Result<(), AllocError>
    ensures { OnOk result (text.new.items ≡ text.old.items ++ made_texts searches.now paths.now) }
{
    let mut rest = paths;
    for search in searches {
        let [before, behind, others @ ..] = rest else {
            return Ok(());
        };
        put_made(text, search, before, behind)?;
        rest = others;
    }
    Ok(())
}
