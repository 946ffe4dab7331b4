//! Characters in UTF-8 (RFC 3629, section 4).

ghost use Rattle.std.specs.Prelude.{◌≡◌, ◌≤◌, ◌<◌, ◌∷◌, [], length};
ghost use Rattle.octet_language.specs.Language.{◌⋅◌, Each};
ghost use Rattle.octet_language.specs.Reading.{Passes, Reads};
ghost use Rattle.syslog_fields.specs.Stops.{remaining_of};
ghost use Rattle.syslog_fields.specs.Utf8.{Character, IsCharacter, Octet, from_to, tail};

use crate::reading::{Stop, next};

/// Reads an octet from `low` to `high`.
#[inline(always)]
fn octet(low: u8, high: u8, octets: &[u8]) -> Result<&[u8], Stop>
    requires { low ≤ high }
    ensures { Passes remaining_of (Octet (from_to low high)) (λ x. x.now) octets.now result }
{
    let Some((octet, rest)) = next(octets) else {
        return Err(Stop {
            remaining: octets.len(),
        });
    };
    if octet < low {
        return Err(Stop {
            remaining: octets.len(),
        });
    }
    if octet > high {
        return Err(Stop {
            remaining: octets.len(),
        });
    }
    Ok(rest)
}

/// Reads what follows the first octet of a character of two octets.
fn one_behind(octets: &[u8]) -> Result<&[u8], Stop>
    ensures { Passes remaining_of (Each Octet (tail ∷ [])) (λ x. x.now) octets.now result }
{
    octet(0x80, 0xbf, octets)
}

/// Reads what follows the first octet of a character of three octets.
fn two_behind(low: u8, high: u8, octets: &[u8]) -> Result<&[u8], Stop>
    requires { low ≤ high }
    ensures { Passes remaining_of (Each Octet (from_to low high ∷ tail ∷ []))
        (λ x. x.now) octets.now result }
{
    let rest = octet(low, high, octets)?;
    one_behind(rest)
}

/// Reads what follows the first octet of a character of four octets.
fn three_behind(low: u8, high: u8, octets: &[u8]) -> Result<&[u8], Stop>
    requires { low ≤ high }
    ensures { Passes remaining_of (Each Octet (from_to low high ∷ tail ∷ tail ∷ []))
        (λ x. x.now) octets.now result }
{
    let rest = octet(low, high, octets)?;
    two_behind(0x80, 0xbf, rest)
}

/// Reads one character, and gives what follows it. The [`Stop`] is at the first octet that cannot
/// go on with one.
#[inline]
pub fn behind_character(octets: &[u8]) -> Result<&[u8], Stop>
    ensures { Passes remaining_of IsCharacter (λ x. x.now) octets.now result }
{
    let Some((first, rest)) = next(octets) else {
        return Err(Stop {
            remaining: octets.len(),
        });
    };
    match first {
        0x00..=0x7f => Ok(rest),
        0xc2..=0xdf => one_behind(rest),
        0xe0 => two_behind(0xa0, 0xbf, rest),
        0xe1..=0xec => two_behind(0x80, 0xbf, rest),
        0xed => two_behind(0x80, 0x9f, rest),
        0xee..=0xef => two_behind(0x80, 0xbf, rest),
        0xf0 => three_behind(0x90, 0xbf, rest),
        0xf1..=0xf3 => three_behind(0x80, 0xbf, rest),
        0xf4 => three_behind(0x80, 0x8f, rest),
        _ => Err(Stop {
            remaining: octets.len(),
        }),
    }
}
