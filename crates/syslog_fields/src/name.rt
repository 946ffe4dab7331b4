//! SD-NAME (RFC 5424, 6.3.2 and 6.3.3).

ghost use Rattle.std.specs.Prelude.{◌≤◌, ◌<◌, ◌↔◌, length, IsTrue, take, drop, MatchResult};
ghost use Rattle.std.specs.List.{AllByRecursion};
ghost use Rattle.octet_language.specs.Language.{IfFirst};
ghost use Rattle.octet_language.specs.Reading.{Follows};
ghost use Rattle.syslog_value.specs.Parts.{IsNameOctet};
ghost use Rattle.syslog_fields.specs.Grammar.{Name};
ghost use Rattle.syslog_fields.specs.Spans.{StopsInRun};

use crate::lanes::{LANES, name_run};
use crate::reading::Stop;

/// The most octets of a name.
const NAME_MAX: usize = 32;

#[inline(always)]
fn is_name_octet(octet: u8) -> bool
    ensures { IsTrue result ↔ IsNameOctet octet }
{
    octet >= 33 && octet <= 126 && octet != b'=' && octet != b']' && octet != b'"'
}

/// How many octets at the start may be part of a name, up to a limit, if the first `from` are known
/// to be.
#[inline(always)]
fn name_len_from(limit: usize, octets: &[u8], from: usize) -> usize
    requires limit { limit ≤ length octets.now }
    requires known { from ≤ limit }
    requires octets { AllByRecursion IsNameOctet (take from octets.now) }
    ensures most { result ≤ limit }
    ensures octets { AllByRecursion IsNameOctet (take result octets.now) }
    ensures ends { result < limit → IfFirst (λ x. IsNameOctet x → ⊥) (drop result octets.now) }
{
    for i in from..limit {
        if !is_name_octet(octets[i]) {
            return i;
        }
    }
    limit
}

/// How many octets at the start may be part of a name, up to the most that a name may have.
#[inline(always)]
fn name_len(octets: &[u8]) -> usize
    ensures most { result ≤ 32 }
    ensures within { result ≤ length octets.now }
    ensures octets { AllByRecursion IsNameOctet (take result octets.now) }
    ensures ends { result < 32 → IfFirst (λ x. IsNameOctet x → ⊥) (drop result octets.now) }
{
    let most = octets.len().min(NAME_MAX);
    let mut at = 0;
    while most - at >= LANES {
        let run = name_run(octets, at);
        at += run;
        if run < LANES {
            return at;
        }
    }
    name_len_from(most, octets, at)
}

/// Whether the first octet, if there is one, may be part of a name.
#[inline(always)]
fn goes_on(octets: &[u8]) -> bool
    ensures goes { IsTrue result → IfFirst IsNameOctet octets.now × (0 < length octets.now) }
    ensures ends { (IsTrue result → ⊥) → IfFirst (λ x. IsNameOctet x → ⊥) octets.now }
{
    match octets {
        [] => false,
        [octet, ..] => is_name_octet(*octet),
    }
}

/// Reads a name; what ends it is left. The [`Stop`] is where no name begins, or behind the first 32
/// octets of a longer one.
#[inline(always)]
pub fn name(octets: &[u8]) -> Result<(&[u8], &[u8]), Stop>
    ensures { MatchResult result
        (λ x. Follows (Name x.0.now) octets.now x.1.now × IfFirst (λ y. IsNameOctet y → ⊥) x.1.now)
        (λ e. StopsInRun IsNameOctet 32 octets.now e.remaining) }
{
    let (name, rest) = octets.split_at(name_len(octets));
    if name.is_empty() {
        return Err(Stop {
            remaining: octets.len(),
        });
    }
    if goes_on(rest) {
        return Err(Stop {
            remaining: rest.len(),
        });
    }
    Ok((name, rest))
}
