//! Proofs are read.

ghost use Rattle.std.specs.Prelude.{◌≡◌, ◌≢◌, ◌++◌, ◌∷◌, [], ◌+◌, ◌^◌, ◌<◌, ◌≤◌, ℕ, List, Option, IfOk, IfSome};
ghost use Rattle.std.specs.Prelude.{MatchOption, decimal, length};
ghost use Rattle.std.specs.List.{AllByRecursion, flat_map};
ghost use Rattle.archive_proof.specs.Reading.{AreSame, AreSameSides, IsHash, IsNeighbour, IsOnlyProof, IsPath};
ghost use Rattle.archive_proof.specs.Reading.{IsProof, IsSide};
ghost use Rattle.archive_proof.specs.Texts.{hash_line, neighbour_text, path_text, proof_text, side_text};
ghost use Rattle.archive_tree.specs.declared.audit_path.AuditPath.{AuditPath as Path};
ghost use Rattle.archive_proof.specs.declared.proof.Neighbour.{Neighbour as Beside};
ghost use Rattle.archive_proof.specs.declared.proof.Proof.{Proof as Shown};

use crate::proof::{Neighbour, Proof};
use crate::writing::put_proof;
use archive_tree::{AuditPath, Hash};
use arrayvec::ArrayVec;
use memchr::memchr;
use std::alloc::{AllocError, Global};

// What comes before the first such octet, and what comes behind it.
fn cut(text: &[u8], octet: u8) -> Option<(&[u8], &[u8])>
    ensures { (front rest : List ℕ) → text.now ≡ front ++ octet ∷ rest
        → AllByRecursion (λ y. y ≢ octet) front
        → MatchOption result ⊥ (λ x. (x.0.now ≡ front) × (x.1.now ≡ rest)) }
{
    let end = memchr(octet, text)?;
    Some((&text[..end], &text[end + 1..]))
}

fn value(digits: &[u8]) -> Option<u64>
    ensures { (n : ℕ) → n < 2 ^ 64 → digits.now ≡ decimal n → result ≡ Some n }
{
    match std::str::from_utf8(digits) {
        Ok(text) => text.parse::<u64>().ok(),
        Err(_) => None,
    }
}

// The number that the text begins with, and what comes behind the octet behind it.
fn number(text: &[u8], end: u8) -> Option<(u64, &[u8])>
    ensures { (n : ℕ) (rest : List ℕ) → end < 48 → n < 2 ^ 64 → text.now ≡ decimal n ++ end ∷ rest
        → MatchOption result ⊥ (λ x. (x.0 ≡ n) × (x.1.now ≡ rest)) }
{
    let (digits, rest) = cut(text, end)?;
    let number = value(digits)?;
    Some((number, rest))
}

// The hash of the line that the text begins with, and what comes behind it.
fn hash(text: &[u8]) -> Option<(Hash, &[u8])>
    ensures { (h rest : List ℕ) → IsHash h → text.now ≡ hash_line h ++ rest
        → MatchOption result ⊥ (λ x. (x.0 ≡ h) × (x.1.now ≡ rest)) }
{
    if text.len() <= 64 {
        return None;
    }
    let (digits, rest) = text.split_at(64);
    let mut hash = [0; 32];
    match hex::decode_to_slice(digits, &mut hash) {
        Ok(()) => Some((hash, &rest[1..])),
        Err(_) => None,
    }
}

// Puts so many hashes that the text begins with, and answers what comes behind them.
fn push_hashes<'a>(hashes: &mut ArrayVec<Hash, 64>, number: u64, text: &'a [u8]) -> Option<&'a [u8]>
    ensures { (hs : List (List ℕ)) (rest : List ℕ) → length hs ≡ number
        → length hashes.old.items + length hs ≤ 64 → AllByRecursion IsHash hs
        → text.now ≡ flat_map hash_line hs ++ rest
        → MatchOption result ⊥
        (λ x. (hashes.new.items ≡ hashes.old.items ++ hs) × (x.now ≡ rest)) }
{
    if number == 0 {
        return Some(text);
    }
    let (next, rest) = hash(text)?;
    match hashes.try_push(next) {
        Ok(()) => push_hashes(hashes, number - 1, rest),
        Err(_) => None,
    }
}

// The path that the text begins with, and what comes behind it.
fn path(text: &[u8]) -> Option<(AuditPath, &[u8])>
    ensures { (p : Path) (rest : List ℕ) → IsPath p → text.now ≡ path_text p ++ rest
        → MatchOption result ⊥ (λ x. (x.0 ≡ p) × (x.1.now ≡ rest)) }
{
    let (index, rest) = number(text, b' ')?;
    let (count, rest) = number(rest, b'\n')?;
    let mut path = AuditPath::new(index);
    let rest = push_hashes(&mut path.hashes, count, rest)?;
    Some((path, rest))
}

// The octets and the path of the neighbour that the text begins with, and what comes behind it.
fn neighbour(text: &[u8]) -> Option<(&[u8], AuditPath, &[u8])>
    ensures { (n : Beside) (rest : List ℕ) → IsNeighbour n → text.now ≡ neighbour_text n ++ rest
        → MatchOption result ⊥
        (λ x. (x.0.now ≡ n.octets.items) × (x.1 ≡ n.path) × (x.2.now ≡ rest)) }
{
    let (len, rest) = number(text, b' ')?;
    if len >= rest.len() as u64 {
        return None;
    }
    let (octets, rest) = rest.split_at(len as usize);
    let Some((path, rest)) = path(&rest[1..]) else {
        return None;
    };
    Some((octets, path, rest))
}

fn owned(alloc: Global, octets: &[u8]) -> Result<Vec<u8>, AllocError>
    ensures { IfOk result (λ v. v.items ≡ octets.now) }
{
    let mut owned = Vec::new(alloc);
    owned.extend_from_slice(octets)?;
    Ok(owned)
}

// The neighbour behind the word, if the text begins with it, and what comes behind that.
fn side<'a>(
    alloc: Global,
    word: &[u8],
    text: &'a [u8],
) -> Result<Option<(Option<Neighbour>, &'a [u8])>, AllocError>
    ensures { IfOk result (λ found. (o : Option Beside) (rest : List ℕ) → IsSide o
        → text.now ≡ side_text word.now o ++ rest
        → (o ≡ None → (behind : List ℕ) → ¬ (rest ≡ word.now ++ behind))
        → MatchOption found ⊥ (λ x. AreSameSides x.0 o × (x.1.now ≡ rest))) }
{
    let Some(behind) = text.strip_prefix(word) else {
        return Ok(Some((None, text)));
    };
    let Some((octets, path, rest)) = neighbour(behind) else {
        return Ok(None);
    };
    let octets = owned(alloc, octets)?;
    Ok(Some((Some(Neighbour { octets, path }), rest)))
}

// What may be the proof that the text begins with.
fn draft(alloc: Global, text: &[u8]) -> Result<Option<Proof>, AllocError>
    ensures { IfOk result (λ found. (p : Shown) (rest : List ℕ) → IsProof p
        → text.now ≡ proof_text p ++ rest
        → MatchOption found ⊥ (λ q. AreSame q p)) }
{
    if let Some(rest) = text.strip_prefix(b"present ") {
        return Ok(match path(rest) {
            Some((path, _)) => Some(Proof::Present(path)),
            None => None,
        });
    }
    let Some(rest) = text.strip_prefix(b"absent\n") else {
        return Ok(None);
    };
    let Some((before, rest)) = side(alloc, b"before ", rest)? else {
        return Ok(None);
    };
    let Some((behind, _)) = side(alloc, b"behind ", rest)? else {
        return Ok(None);
    };
    Ok(Some(Proof::Absent(before, behind)))
}

/// Reads the proof that a text begins with, as docs/PROOF_FORMAT.md has it, and gives what follows
/// it. None if it begins with none. It fails only when out of memory.
pub fn read_proof(alloc: Global, text: &[u8]) -> Result<Option<(Proof, &[u8])>, AllocError>
    ensures begins { IfOk result (λ found. MatchOption found
        ((p : Shown) (rest : List ℕ) → IsProof p → ¬ (text.now ≡ proof_text p ++ rest))
        (λ x. text.now ≡ proof_text x.0 ++ x.1.now)) }
    ensures only { IfOk result (λ found. IfSome found (λ x. IsOnlyProof text.now x.0 x.1.now)) }
{
    let Some(proof) = draft(alloc, text)? else {
        return Ok(None);
    };
    let mut again = Vec::new(alloc);
    put_proof(&mut again, &proof)?;
    match text.strip_prefix(again.as_slice()) {
        Some(rest) => Ok(Some((proof, rest))),
        None => Ok(None),
    }
}
