//! What every reader builds on: where it stops, the next octet, an expected octet.

ghost use Rattle.std.specs.Prelude.{◌≡◌, ◌∷◌, ◌&&◌, ◌↔◌, [], IsTrue, MatchOption, drop};
ghost use Rattle.octet_language.specs.Digits.{IsDigit};
ghost use Rattle.octet_language.specs.Language.{Only};
ghost use Rattle.octet_language.specs.Reading.{Passes};
ghost use Rattle.syslog_fields.specs.Stops.{remaining_of};

/// Where no text can go on. It is told by how many octets are left there, since that number does
/// not depend on how many came before.
#[derive(Clone, Copy, Debug, PartialEq, Eq)]
pub struct Stop {
    /// How many octets are left, from the one that cannot go on.
    pub remaining: usize,
}

/// The first octet, and those after it.
#[inline(always)]
pub fn next(octets: &[u8]) -> Option<(u8, &[u8])>
    ensures { MatchOption result (octets.now ≡ []) (λ x. octets.now ≡ x.0 ∷ x.1.now) }
{
    match octets {
        [] => None,
        [first, rest @ ..] => Some((*first, rest)),
    }
}

/// What follows the first octet, if there is one.
#[inline(always)]
pub fn behind_first(octets: &[u8]) -> &[u8]
    ensures { result.now ≡ drop 1 octets.now }
{
    match octets {
        [] => octets,
        [_first, rest @ ..] => rest,
    }
}

/// Whether both are true.
#[inline(always)]
pub fn both(left: bool, right: bool) -> bool
    ensures { result ≡ (left && right) }
{
    left && right
}

/// Whether an octet is a digit of ASCII.
#[inline(always)]
pub fn is_digit(octet: u8) -> bool
    ensures { IsTrue result ↔ IsDigit octet }
{
    octet >= b'0' && octet <= b'9'
}

/// Reads one octet, which must be the expected one. Another one, or none, is a [`Stop`].
#[inline(always)]
pub fn expect(expected: u8, octets: &[u8]) -> Result<&[u8], Stop>
    ensures { Passes remaining_of (Only (expected ∷ [])) (λ x. x.now) octets.now result }
{
    let Some((octet, rest)) = next(octets) else {
        return Err(Stop {
            remaining: octets.len(),
        });
    };
    if octet != expected {
        return Err(Stop {
            remaining: octets.len(),
        });
    }
    Ok(rest)
}
