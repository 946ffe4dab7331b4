//! Texts in UTF-8, and the exact offset at which octets cease to be one.

ghost use Rattle.std.specs.Prelude.{◌≡◌, ◌↔◌, IsTrue, MatchResult};
ghost use Rattle.octet_language.specs.Language.{IsFaultOffset};
ghost use Rattle.octet_language.specs.Reading.{Misses};
ghost use Rattle.syslog_fields.specs.Utf8.{IsText};

use crate::character::behind_character;
use crate::reading::{Stop, next};

/// Reads characters up to the end.
#[cold]
fn characters(octets: &[u8]) -> Result<(), Stop>
    ensures { MatchResult result (λ _. IsText octets.now)
        (λ e. Misses IsText octets.now e.remaining) }
{
    let mut rest = octets;
    while let Some((_octet, _after)) = next(rest) {
        let behind = behind_character(rest)?;
        rest = behind;
    }
    Ok(())
}

/// Whether the octets are a text in UTF-8.
#[inline]
pub fn is_text(octets: &[u8]) -> bool
    ensures { IsTrue result ↔ IsText octets.now }
{
    match simdutf8::basic::from_utf8(octets) {
        Ok(_) => true,
        Err(_) => false,
    }
}

/// Reads a text up to the end. The [`Stop`] is at the first octet with which it cannot go on.
#[inline]
pub fn text(octets: &[u8]) -> Result<&str, Stop>
    ensures { MatchResult result (λ s. (s.now ≡ octets.now) × IsText octets.now)
        (λ e. Misses IsText octets.now e.remaining) }
{
    match simdutf8::basic::from_utf8(octets) {
        Ok(text) => Ok(text),
        Err(_) => match characters(octets) {
            Ok(()) => unreachable!(),
            Err(stop) => Err(stop),
        },
    }
}

/// The octets as a text in UTF-8 (RFC 3629, section 4).
///
/// If they are none, the answer is the length of their longest prefix that some text begins with:
/// the offset of the first octet that cannot continue a character, or the number of octets where
/// they end inside one. It takes no memory.
pub fn utf8(octets: &[u8]) -> Result<&str, usize>
    ensures { MatchResult result (λ s. (s.now ≡ octets.now) × IsText octets.now)
        (λ at. ¬ (IsText octets.now) × IsFaultOffset IsText octets.now at) }
{
    match text(octets) {
        Ok(text) => Ok(text),
        Err(stop) => Err(octets.len() - stop.remaining),
    }
}
