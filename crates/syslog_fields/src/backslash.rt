//! Which octets the backslashes in the spelling of a value take (RFC 5424, 6.3.3).

ghost use Rattle.std.specs.Prelude.{◌≡◌, ◌<◌, ◌∷◌, ℕ, IfSome, IsTrue, false, length};
ghost use Rattle.syslog_fields.specs.FirstElements.{takes_next};
ghost use Rattle.syslog_fields.specs.Forms.{HasLongerForm, IsOwnForm};
ghost use Rattle.syslog_fields.specs.Values.{IsSpecial, PassesEscapes};

use crate::near::near_octet;
use crate::reading::behind_first;
use crate::unescape::begins_special;

/// What follows the escape that comes first, if one does.
#[inline(always)]
fn behind_escape(octets: &[u8]) -> Option<&[u8]>
    ensures escape { IfSome result (λ rest. (x : ℕ) × IsSpecial x × (octets.now ≡ 92 ∷ x ∷ rest.now)) }
    ensures less { IfSome result (λ rest. length rest.now < length octets.now) }
{
    match octets {
        [b'\\', b'"' | b'\\' | b']', rest @ ..] => Some(rest),
        _ => None,
    }
}

/// What follows the escapes that come first.
#[inline(always)]
pub fn behind_escapes(octets: &[u8]) -> &[u8]
    ensures { PassesEscapes octets.now result.now }
{
    let mut rest = octets;
    while let Some(behind) = behind_escape(rest) {
        rest = behind;
    }
    rest
}

/// Whether the octets end with a backslash that takes the octet after them: they end with an odd
/// number of backslashes.
#[inline(always)]
pub fn ends_taking(octets: &[u8]) -> bool
    ensures { result ≡ takes_next false octets.now }
{
    let mut takes = false;
    for i in 0..octets.len() {
        if octets[octets.len() - 1 - i] != b'\\' {
            return takes;
        }
        takes = !takes;
    }
    takes
}

/// Whether the spelling of a value has a backslash that is no escape; the canonical form doubles
/// it.
#[inline(always)]
pub fn has_lone(raw: &[u8]) -> bool
    ensures lone { IsTrue result → HasLongerForm raw.now }
    ensures own { (IsTrue result → ⊥) → IsOwnForm raw.now }
{
    let mut rest = raw;
    while let Some(offset) = near_octet(b'\\', rest) {
        let (_plain, marked) = rest.split_at(offset);
        let behind = behind_first(marked);
        if !begins_special(behind) {
            return true;
        }
        rest = behind_escapes(behind_first(behind));
    }
    false
}
