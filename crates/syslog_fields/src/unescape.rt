//! What the spelling of a value means (RFC 5424, 6.3.3).

ghost use Rattle.std.specs.Prelude.{◌≡◌, ◌∷◌, ℕ, List, IfOk, IsTrue};
ghost use Rattle.octet_language.specs.Language.{IfFirst};
ghost use Rattle.syslog_fields.specs.Escapes.{BeginsSpecial, MeansFirst};
ghost use Rattle.syslog_fields.specs.Values.{IsSpecial, Spells};

use crate::appending::put;
use memchr::memchr;
use std::alloc::{AllocError, Global};

/// Whether a quotation mark, a backslash or a closing bracket comes first.
#[inline(always)]
pub fn begins_special(octets: &[u8]) -> bool
    ensures special { IsTrue result → BeginsSpecial octets.now }
    ensures other { (IsTrue result → ⊥) → IfFirst (λ x. ¬ (IsSpecial x)) octets.now }
{
    match octets {
        [] => false,
        [octet, ..] => *octet == b'"' || *octet == b'\\' || *octet == b']',
    }
}

/// What the piece that comes first means if a backslash begins it, and what follows the piece.
pub fn split_meaning(octets: &[u8]) -> (&[u8], &[u8])
    requires { (behind : List ℕ) × (octets.now ≡ 92 ∷ behind) }
    ensures { MeansFirst octets.now result.0.now result.1.now }
{
    let (backslash, behind) = octets.split_at(1);
    if begins_special(behind) {
        return behind.split_at(1);
    }
    (backslash, behind)
}

/// The text that a value means, from its spelling. It fails only when out of memory.
pub fn unescape(alloc: Global, raw: &[u8]) -> Result<Vec<u8>, AllocError>
    ensures { IfOk result (λ octets. (text : List ℕ) → Spells text raw.now → octets.items ≡ text) }
{
    let mut out = Vec::with_capacity(alloc, raw.len())?;
    let mut rest = raw;
    while let Some(offset) = memchr(b'\\', rest) {
        let (plain, escaped_rest) = rest.split_at(offset);
        let (octet, behind) = split_meaning(escaped_rest);
        put(plain, &mut out)?;
        put(octet, &mut out)?;
        rest = behind;
    }
    put(rest, &mut out)?;
    Ok(out)
}
