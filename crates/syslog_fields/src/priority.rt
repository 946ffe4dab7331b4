//! PRI and VERSION (RFC 5424, 6.2.1 and 6.2.2).

ghost use Rattle.std.specs.Prelude.{◌≡◌, ◌≤◌, ◌<◌, ◌+◌, ◌*◌, ◌-◌, ◌∷◌, ◌↔◌, [], IsTrue};
ghost use Rattle.octet_language.specs.Language.{◌⋅◌, Only};
ghost use Rattle.octet_language.specs.Reading.{Passes, Reads};
ghost use Rattle.syslog_fields.specs.Grammar.{Number, Priority, Spaced, Version};
ghost use Rattle.syslog_fields.specs.Stops.{remaining_of};

use crate::reading::{Stop, expect, is_digit, next};

/// Whether a value up to 191 can continue with this digit.
fn goes_on(value: u8, octet: u8) -> bool
    requires { value ≤ 191 }
    ensures { IsTrue result
        ↔ ((0 < value) × (48 ≤ octet) × (octet ≤ 57) × (10 * value + (octet - 48) ≤ 191)) }
{
    value > 0 && value <= 19 && is_digit(octet) && 10 * value + (octet - b'0') <= 191
}

/// Reads a number up to 191 and the bracket that follows it.
fn number(octets: &[u8]) -> Result<(u8, &[u8]), Stop>
    ensures { Reads remaining_of (λ v. Number v ⋅ Only (62 ∷ [])) (λ x. (x.0, x.1.now))
        octets.now result }
{
    let Some((first, behind)) = next(octets) else {
        return Err(Stop {
            remaining: octets.len(),
        });
    };
    if !is_digit(first) {
        return Err(Stop {
            remaining: octets.len(),
        });
    }
    let mut value = first - b'0';
    let mut rest = behind;
    while let Some((octet, after)) = next(rest) {
        if octet == b'>' {
            return Ok((value, after));
        }
        if !goes_on(value, octet) {
            return Err(Stop {
                remaining: rest.len(),
            });
        }
        value = 10 * value + (octet - b'0');
        rest = after;
    }
    Err(Stop {
        remaining: rest.len(),
    })
}

/// Reads PRI: `<`, PRIVAL from 0 to 191 without leading zeros, and `>`. The [`Stop`] is at the
/// first octet with which it cannot go on.
#[inline(always)]
pub fn priority(octets: &[u8]) -> Result<(u8, &[u8]), Stop>
    ensures { Reads remaining_of Priority (λ x. (x.0, x.1.now)) octets.now result }
{
    let behind = expect(b'<', octets)?;
    number(behind)
}

/// Reads the VERSION `1` and the space that follows it. The [`Stop`] is at the first octet that is
/// another one.
#[inline(always)]
pub fn version(octets: &[u8]) -> Result<&[u8], Stop>
    ensures { Passes remaining_of (Spaced Version) (λ x. x.now) octets.now result }
{
    let rest = expect(b'1', octets)?;
    expect(b' ', rest)
}
