//! Expected octets.

ghost use Rattle.std.specs.Prelude.{◌≡◌, ◌≢◌, ◌∷◌, MatchOption};
ghost use Rattle.octet_language.specs.Language.{IfFirst};
ghost use Rattle.syslog_legacy.specs.Parts.{Without};
ghost use Rattle.syslog_legacy.specs.Tags.{BehindSpace};

/// What follows the expected octet, if that comes first.
#[inline(always)]
pub fn behind(expected: u8, octets: &[u8]) -> Option<&[u8]>
    ensures { MatchOption result (IfFirst (λ x. x ≢ expected) octets.now)
        (λ rest. octets.now ≡ expected ∷ rest.now) }
{
    match octets {
        [first, rest @ ..] if *first == expected => Some(rest),
        _ => None,
    }
}

/// What follows the octet if it comes first; else all the octets.
#[inline(always)]
pub fn without(octet: u8, octets: &[u8]) -> &[u8]
    ensures { Without octet octets.now result.now }
{
    match behind(octet, octets) {
        Some(rest) => rest,
        None => octets,
    }
}

/// What follows the space if one comes first; else all the octets.
#[inline(always)]
pub fn behind_space(octets: &[u8]) -> &[u8]
    ensures { BehindSpace octets.now result.now }
{
    without(b' ', octets)
}
