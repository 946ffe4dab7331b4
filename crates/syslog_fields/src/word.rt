//! The words of the header (RFC 5424, 6.2.4 to 6.2.7).

ghost use Rattle.std.specs.Prelude.{◌≡◌, ◌≤◌, ◌<◌, ◌*◌, ◌∷◌, ◌++◌, ◌↔◌, [], length, IsTrue, take, drop};
ghost use Rattle.std.specs.Prelude.{option_map};
ghost use Rattle.std.specs.List.{AllByRecursion};
ghost use Rattle.octet_language.specs.Language.{IfFirst};
ghost use Rattle.octet_language.specs.Reading.{Reads};
ghost use Rattle.syslog_value.specs.Parts.{IsPrintable};
ghost use Rattle.syslog_fields.specs.Grammar.{Nilable, Spaced, Word};
ghost use Rattle.syslog_fields.specs.Stops.{remaining_of};

use crate::lanes::{LANES, printable_run};
use crate::reading::{Stop, both, next};

/// The limit above this one is that of host names.
const HOSTNAME_FROM: usize = 128;

/// Whether an octet is a printable octet of ASCII that is no space.
#[inline(always)]
pub fn is_printable(octet: u8) -> bool
    ensures { IsTrue result ↔ IsPrintable octet }
{
    octet >= 33 && octet <= 126
}

/// Whether a word is NILVALUE. No branch depends on its first octet alone.
#[inline(always)]
fn is_nil(word: &[u8]) -> bool
    ensures { IsTrue result ↔ (word.now ≡ 45 ∷ []) }
{
    match word {
        [] => false,
        [first, rest @ ..] => both(*first == b'-', rest.is_empty()),
    }
}

/// An offset up to which all octets are printable, found sixteen at a time.
#[inline(always)]
fn printable_blocks(most: usize, octets: &[u8]) -> usize
    requires { most ≤ length octets.now }
    ensures within { result ≤ most }
    ensures printable { AllByRecursion IsPrintable (take result octets.now) }
{
    let mut at = 0;
    while most - at >= LANES {
        let run = printable_run(octets, at);
        at += run;
        if run < LANES {
            return at;
        }
    }
    at
}

/// How many octets at the start are printable, up to a limit.
#[inline(never)]
fn long_printable_len(limit: usize, octets: &[u8]) -> usize
    ensures most { result ≤ limit }
    ensures within { result ≤ length octets.now }
    ensures printable { AllByRecursion IsPrintable (take result octets.now) }
    ensures ends { result < limit → IfFirst (λ x. IsPrintable x → ⊥) (drop result octets.now) }
{
    let most = octets.len().min(limit);
    for i in printable_blocks(most, octets)..most {
        if !is_printable(octets[i]) {
            return i;
        }
    }
    most
}

/// How many printable octets come first, up to thirty-two. Both loads are always made, so that no
/// branch depends on which of them has the end.
#[inline(always)]
fn two_printable_runs(octets: &[u8]) -> usize
    requires { 2 * LANES ≤ length octets.now }
    ensures most { result ≤ 2 * LANES }
    ensures printable { AllByRecursion IsPrintable (take result octets.now) }
    ensures ends { result < 2 * LANES → IfFirst (λ x. IsPrintable x → ⊥) (drop result octets.now) }
{
    let first = printable_run(octets, 0);
    let second = printable_run(octets, LANES);
    if first < LANES { first } else { LANES + second }
}

/// How many octets at the start are printable, up to a limit: for short words by one load, and for
/// host names, which are often longer than sixteen octets, by two.
#[inline(always)]
fn printable_len(limit: usize, octets: &[u8]) -> usize
    ensures most { result ≤ limit }
    ensures within { result ≤ length octets.now }
    ensures printable { AllByRecursion IsPrintable (take result octets.now) }
    ensures ends { result < limit → IfFirst (λ x. IsPrintable x → ⊥) (drop result octets.now) }
{
    if limit > HOSTNAME_FROM && octets.len() >= 2 * LANES {
        let run = two_printable_runs(octets);
        if run < 2 * LANES {
            return run;
        }
    } else if limit >= LANES && octets.len() >= LANES {
        let run = printable_run(octets, 0);
        if run < LANES {
            return run;
        }
    }
    long_printable_len(limit, octets)
}

/// The printable octets at the start, up to a limit, and what follows them.
#[inline(always)]
fn printable_prefix(limit: usize, octets: &[u8]) -> (&[u8], &[u8])
    ensures parts { octets.now ≡ result.0.now ++ result.1.now }
    ensures most { length result.0.now ≤ limit }
    ensures printable { AllByRecursion IsPrintable result.0.now }
    ensures ends { length result.0.now < limit
        → IfFirst (λ x. IsPrintable x → ⊥) result.1.now }
{
    octets.split_at(printable_len(limit, octets))
}

/// Reads a word of at most `N` octets, or NILVALUE as None, and the space that follows it. The
/// [`Stop`] is at the first octet with which these cannot go on.
#[inline(always)]
pub fn word<const N: usize>(octets: &[u8]) -> Result<(Option<&[u8]>, &[u8]), Stop>
    requires { 0 < N }
    ensures { Reads remaining_of (λ w. Spaced (Nilable (Word N) w))
        (λ x. (option_map (λ s. s.now) x.0, x.1.now)) octets.now result }
{
    let (word, behind) = printable_prefix(N, octets);
    if word.is_empty() {
        return Err(Stop {
            remaining: octets.len(),
        });
    }
    let Some((octet, rest)) = next(behind) else {
        return Err(Stop {
            remaining: behind.len(),
        });
    };
    if octet != b' ' {
        return Err(Stop {
            remaining: behind.len(),
        });
    }
    if is_nil(word) {
        return Ok((None, rest));
    }
    Ok((Some(word), rest))
}
