//! The seals of batches: their lengths and checksums.
ghost use Rattle.std.specs.Prelude.{◌≡◌, ◌↔◌, ◌∷◌, ◌++◌, IfNone, IfSome, IsTrue, OnErr, OnOk};
ghost use Rattle.journal.specs.Batches.{BeginsWithBatch, IsClosed};
ghost use Rattle.record_store.specs.Seals.{BeginsSealed, HasMore, HidesBatches, IsSealed, Seals, seal_of};

use crc32c::crc32c;
use journal::batch_len;
use std::alloc::AllocError;

// what a seal begins with
const MARK: u8 = b'#';

// how many octets a seal has
const SEAL_LEN: usize = 9;

// the octet before a batch that is not open, and the one that older programs wrote
const CLOSED: u8 = 254;

const OLDER_CLOSED: u8 = 0;

// the octets of a batch's length
const LEN: usize = 4;

// the octets before those of a batch
const HEAD: usize = 5;

// the seal of a text
fn seal(text: &[u8]) -> [u8; SEAL_LEN]
    ensures { result ≡ seal_of text.now }
{
    let len = (text.len() as u64).to_le_bytes();
    let sum = crc32c(text).to_le_bytes();
    [
        MARK, len[0], len[1], len[2], len[3], sum[0], sum[1], sum[2], sum[3],
    ]
}

/// Puts the seal of a text behind it; out of memory, nothing.
pub(crate) fn put_seal(text: &mut Vec<u8>) -> Result<(), AllocError>
    ensures ok { OnOk result (text.new.items ≡ text.old.items ++ seal_of text.old.items) }
    ensures err { OnErr result (text.new.items ≡ text.old.items) }
{
    let behind = seal(text);
    let len = text.len();
    match text.extend_from_slice(&behind) {
        Ok(()) => Ok(()),
        Err(fault) => {
            text.truncate(len);
            Err(fault)
        }
    }
}

/// Whether something is left of a batch where an entry has to be: octets that do not begin as a
/// seal does.
pub fn has_entry(rest: &[u8]) -> bool
    ensures { IsTrue result ↔ HasMore rest.now }
{
    match rest.first() {
        Some(octet) => *octet != MARK,
        None => false,
    }
}

/// Whether what is behind the text of a batch's entries is their seal, or nothing, as in batches of
/// older programs.
pub fn seals(text: &[u8], behind: &[u8]) -> bool
    ensures { IsTrue result ↔ Seals text.now behind.now }
{
    behind.is_empty() || behind == seal(text).as_slice()
}

// Whether the body of a batch ends with its seal.
fn is_sealed(body: &[u8]) -> bool
    ensures { IsTrue result ↔ IsSealed body.now }
{
    if body.len() < SEAL_LEN {
        return false;
    }
    let (text, behind) = body.split_at(body.len() - SEAL_LEN);
    behind == seal(text).as_slice()
}

// How many octets the batch has whose length stands at the beginning, if it is whole.
fn told_len(octets: &[u8]) -> Option<usize>
    ensures found { IfSome result (λ len. BeginsWithBatch (1 ∷ octets.now) len) }
    ensures none { IfNone result (IsClosed (1 ∷ octets.now)) }
{
    if octets.len() < LEN {
        return None;
    }
    let len = u32::from_le_bytes([octets[0], octets[1], octets[2], octets[3]]) as usize;
    if len > octets.len() - LEN {
        return None;
    }
    Some(len)
}

// Whether a batch that is open, whole and sealed is at the beginning.
fn begins_sealed(octets: &[u8]) -> bool
    ensures { IsTrue result ↔ BeginsSealed octets.now }
{
    let Some(len) = batch_len(octets) else {
        return false;
    };
    let (_, behind) = octets.split_at(HEAD);
    let (body, _) = behind.split_at(len);
    is_sealed(body)
}

/// Whether what is behind the batches of a journal hides others: no crash leaves it so, and an octet
/// before a batch may have another value.
pub fn hides_batches(tail: &[u8]) -> bool
    ensures { IsTrue result ↔ HidesBatches tail.now }
{
    let Some((gate, behind)) = tail.split_first() else {
        return false;
    };
    if behind.is_empty() {
        return false;
    }
    if *gate != CLOSED && *gate != OLDER_CLOSED {
        return true;
    }
    let Some(len) = told_len(behind) else {
        return false;
    };
    let (_, octets) = behind.split_at(LEN);
    let (body, next) = octets.split_at(len);
    *gate == OLDER_CLOSED && is_sealed(body) || begins_sealed(next)
}
