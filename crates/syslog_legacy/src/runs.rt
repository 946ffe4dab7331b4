//! Runs of octets of one class.

ghost use Rattle.std.specs.Prelude.{◌≡◌, ◌≢◌, ◌≤◌, ◌<◌, ◌∷◌, ◌++◌, ◌↔◌, [], length, IsTrue};
ghost use Rattle.std.specs.Prelude.{take, drop, option_map};
ghost use Rattle.std.specs.List.{AllByRecursion};
ghost use Rattle.octet_language.specs.Digits.{IsDigit};
ghost use Rattle.octet_language.specs.Language.{IfFirst};
ghost use Rattle.syslog_value.specs.Parts.{IsPrintable};
ghost use Rattle.syslog_legacy.specs.Hosts.{IsNilable, SplitsRun};
ghost use Rattle.syslog_legacy.specs.Runs.{IsOf};
ghost use Rattle.syslog_legacy.specs.Tags.{IsProcOctet, IsTagOctet};

use syslog_fields::reading::is_digit;
use syslog_fields::word::is_printable;

#[inline(always)]
fn is_tag_octet(octet: u8) -> bool
    ensures { IsTrue result ↔ IsTagOctet octet }
{
    matches!(octet, b'A'..=b'Z' | b'a'..=b'z' | b'0'..=b'9' | b'-' | b'_' | b'.' | b'/')
}

#[inline(always)]
fn is_proc_octet(octet: u8) -> bool
    ensures { IsTrue result ↔ IsProcOctet octet }
{
    is_printable(octet) && octet != b']'
}

/// A class of octets, of which runs are read.
#[derive(Clone, Copy)]
enum OctetClass {
    /// Those of a host.
    Host,
    /// Those of the name in a tag.
    Tag,
    /// Those of a process id.
    Proc,
    /// Digits.
    Digit,
}

#[inline(always)]
fn is_of(class: OctetClass, octet: u8) -> bool
    ensures { IsTrue result ↔ IsOf class octet }
{
    match class {
        OctetClass::Host => is_printable(octet),
        OctetClass::Tag => is_tag_octet(octet),
        OctetClass::Proc => is_proc_octet(octet),
        OctetClass::Digit => is_digit(octet),
    }
}

/// How many octets at the start are of a class, up to `most`.
#[inline(always)]
fn run_len(class: OctetClass, most: usize, octets: &[u8]) -> usize
    ensures most { result ≤ most }
    ensures within { result ≤ length octets.now }
    ensures run { AllByRecursion (IsOf class) (take result octets.now) }
    ensures ends { result < most → IfFirst (λ x. IsOf class x → ⊥) (drop result octets.now) }
{
    let end = octets.len().min(most);
    for i in 0..end {
        if !is_of(class, octets[i]) {
            return i;
        }
    }
    end
}

/// The printable octets at the start, up to 255, and what follows them.
pub fn host_run(octets: &[u8]) -> (&[u8], &[u8])
    ensures { SplitsRun IsPrintable 255 octets.now result.0.now result.1.now }
{
    octets.split_at(run_len(OctetClass::Host, 255, octets))
}

/// The octets at the start that may be part of the name in a tag, up to 48, and what follows them.
pub fn tag_run(octets: &[u8]) -> (&[u8], &[u8])
    ensures { SplitsRun IsTagOctet 48 octets.now result.0.now result.1.now }
{
    octets.split_at(run_len(OctetClass::Tag, 48, octets))
}

/// The octets at the start that may be part of a process id, up to 128, and what follows them.
pub fn proc_run(octets: &[u8]) -> (&[u8], &[u8])
    ensures { SplitsRun IsProcOctet 128 octets.now result.0.now result.1.now }
{
    octets.split_at(run_len(OctetClass::Proc, 128, octets))
}

/// The digits at the start, up to seven, and what follows them.
pub fn digit_run(octets: &[u8]) -> (&[u8], &[u8])
    ensures { SplitsRun IsDigit 7 octets.now result.0.now result.1.now }
{
    octets.split_at(run_len(OctetClass::Digit, 7, octets))
}

/// The octets, or None for the one octet "-".
#[inline]
pub fn nilable(octets: &[u8]) -> Option<&[u8]>
    ensures { IsNilable (option_map (λ s. s.now) result) octets.now }
{
    match octets {
        [b'-'] => None,
        _ => Some(octets),
    }
}
