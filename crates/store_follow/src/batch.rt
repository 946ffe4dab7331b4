//! The entries of a batch.
ghost use Rattle.std.specs.Prelude.{◌≡◌, ◌++◌, IfNone, IfSome};
ghost use Rattle.journal.specs.Batches.{IsBody, IsClosed, open_batch};
ghost use Rattle.store_follow.specs.Batches.{BatchText, BeginsWithText, HasEntriesBefore};

use archive_text::{ENTRY_MAX, read_entry};
use journal::batch_len;
use record_store::{has_entry, seals};

/// The octets before those of a batch.
pub(crate) const HEAD: usize = 5;

// The first batch of a journal's octets, and what is behind it; None if no batch there is open and
// whole.
fn first_batch(octets: &[u8]) -> Option<(&[u8], &[u8])>
    ensures some { IfSome result (λ r. IsBody r.0.now
        × (octets.now ≡ open_batch r.0.now ++ r.1.now)) }
    ensures none { IfNone result (IsClosed octets.now) }
{
    let len = batch_len(octets)?;
    let (_, behind) = octets.split_at(HEAD);
    Some(behind.split_at(len))
}

// What is behind the entries with which a batch begins.
fn behind_entries(body: &[u8]) -> Option<&[u8]>
    ensures { IfSome result (λ rest. HasEntriesBefore body.now rest.now) }
{
    let mut rest = body;
    'entries: while has_entry(rest) {
        match read_entry(ENTRY_MAX as u64, rest) {
            Ok((_, behind)) => rest = behind,
            Err(_) => return None,
        }
    }
    Some(rest)
}

// The text of a batch's entries, and whether their seal is behind it. None if the batch has anything
// else, or another seal.
fn entries_of(body: &[u8]) -> Option<(&[u8], bool)>
    ensures { IfSome result (λ r. BatchText body.now r.0.now) }
{
    let rest = behind_entries(body)?;
    let (text, behind) = body.split_at(body.len().saturating_sub(rest.len()));
    if !seals(text, behind) {
        return None;
    }
    Some((text, !behind.is_empty()))
}

/// A batch of entries.
#[derive(Clone, Copy, Debug)]
pub(crate) struct Batch<'a> {
    /// The text of its entries.
    pub(crate) text: &'a [u8],
    /// How many octets it takes in a journal.
    pub(crate) len: u64,
    /// Whether its seal is behind them.
    pub(crate) is_sealed: bool,
}

/// The batch that octets of a journal begin with. None if none is there, open and whole, or if it is not a
/// row of entries with their seal behind them. Where a batch before had a seal, it has to have one too.
pub(crate) fn batch_in(octets: &[u8], has_seals: bool) -> Option<Batch<'_>>
    ensures { IfSome result (λ b. BeginsWithText octets.now b.text.now b.len) }
{
    let (body, _) = first_batch(octets)?;
    let (text, is_sealed) = entries_of(body)?;
    if has_seals && !is_sealed {
        return None;
    }
    Some(Batch {
        text,
        len: (HEAD + body.len()) as u64,
        is_sealed,
    })
}
