//! Lines between the sequences of a color.

ghost use Rattle.std.specs.Prelude.{◌≡◌, ◌++◌, List, MatchOption, ℕ, OnOk};
ghost use Rattle.syslog_frame.specs.Frames.{IsLine};
ghost use Rattle.colored_show.specs.Painting.{IsPainted, ended_line, painted_line};

use crate::color::{end_of, start_of};
use memchr::memchr;
use std::alloc::AllocError;
use syslog_value::Severity;

fn put(octets: &[u8], out: &mut Vec<u8>) -> Result<(), AllocError>
    ensures ok { OnOk result (out.new.items ≡ out.old.items ++ octets.now) }
    ensures err { (part : List ℕ) × (out.new.items ≡ out.old.items ++ part) }
{
    out.extend_from_slice(octets)
}

// Appends a line between the sequences of a severity, and its line feed.
fn put_line(severity: Severity, line: &[u8], out: &mut Vec<u8>) -> Result<(), AllocError>
    ensures ok { OnOk result (out.new.items ≡ out.old.items ++ painted_line severity line.now) }
    ensures err { (part : List ℕ) × (out.new.items ≡ out.old.items ++ part) }
{
    put(start_of(severity), out)?;
    put(line, out)?;
    put(end_of(severity), out)?;
    put(b"\n", out)
}

// The first line of a text, without its line feed, and what follows it; None where no line feed is left.
fn split_line(text: &[u8]) -> Option<(&[u8], &[u8])>
    ensures { MatchOption result (IsLine text.now)
        (λ parts. IsLine parts.0.now × (text.now ≡ ended_line parts.0.now ++ parts.1.now)) }
{
    let at = memchr(b'\n', text)?;
    Some((&text[..at], &text[at + 1..]))
}

/// Appends a text, whose lines stand between the sequences of a severity; where memory runs out, possibly a
/// part of it.
pub(crate) fn put_painted(
    severity: Severity,
    text: &[u8],
    out: &mut Vec<u8>,
) -> Result<(), AllocError>
    ensures ok { OnOk result ((painted : List ℕ) × IsPainted severity text.now painted
        × (out.new.items ≡ out.old.items ++ painted)) }
    ensures err { (part : List ℕ) × (out.new.items ≡ out.old.items ++ part) }
{
    let mut rest = text;
    while let Some((line, behind)) = split_line(rest) {
        put_line(severity, line, out)?;
        rest = behind;
    }
    put(rest, out)
}
