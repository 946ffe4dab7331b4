//! The canonical octets of a record, from the octets that were read.

ghost use Rattle.std.specs.Prelude.{◌≡◌, ◌≤◌, ◌+◌, ◌∷◌, ◌++◌, [], ℕ, List, length, take, drop};
ghost use Rattle.std.specs.Prelude.{IfOk, IfSome, IsTrue, OnErr, option_map};
ghost use Rattle.octet_language.specs.Language.{◌⋅◌, Only};
ghost use Rattle.octet_language.specs.Reading.{Follows};
ghost use Rattle.syslog_value.specs.Instants.{IsCivil, IsOffset};
ghost use Rattle.syslog_fields.specs.Appending.{Puts};
ghost use Rattle.syslog_fields.specs.Canonical.{TimeForm};
ghost use Rattle.syslog_reading.specs.CanonicalOctets.{IsInUtc, PutsCanonical, shown_parts, utc_fraction};
ghost use Rattle.syslog_fields.specs.Dates.{time_of};
ghost use Rattle.syslog_fields.specs.Grammar.{Nilable, Spaced};
ghost use Rattle.syslog_reading.specs.Parsing.{IsParsed};
ghost use Rattle.syslog_fields.specs.Time.{TimeText, instant};
ghost use Rattle.syslog_grammar.specs.Verbatim.{HasOneMessageForm, VerbatimForm};
ghost use Rattle.syslog_reading.specs.Views.{message_parts};

use crate::canonical::put_time;
use crate::canonical_form::has_time_form;
use crate::canonical_view::{has_one_message_form, write_canonical_view};
use crate::civil_text::utc_fraction;
use std::alloc::{AllocError, Global};
use syslog_fields::appending::put;
use syslog_fields::reading::both;
use syslog_fields::timestamp::{STAMP_LEN, Timestamp, has_inner_year};
use syslog_reading::Fault;
use syslog_reading::syntax::{Parsed, parse};
use syslog_reading::whole::view_of;
use syslog_value::Instant;

/// Whether all that follows the timestamp is canonical as it lies in the octets, and the year of
/// the timestamp alone shows that its instant is in range.
#[inline(always)]
fn lies_canonical(parsed: Parsed<'_>) -> bool
    ensures inner { IsTrue result → IfSome parsed.entry.fields.time
        (λ t. (1 ≤ t.civil.year) × (t.civil.year ≤ 9998)) }
    ensures form { IsTrue result → IsTrue parsed.entry.is_form }
    ensures order { IsTrue result → IsTrue parsed.entry.ascends }
    ensures message { IsTrue result → HasOneMessageForm (message_parts parsed.entry.message) }
{
    has_inner_year(parsed.fields.time)
        && both(parsed.is_form, parsed.ascends)
        && has_one_message_form(&parsed.message)
}

/// The microseconds of a time in UTC. None if there is no time or it is in another zone.
#[inline(always)]
fn utc_micros(time: Option<Timestamp>) -> Option<u32>
    ensures { IfSome result (IsInUtc time) }
{
    let time = time?;
    if time.offset_minutes != 0 {
        return None;
    }
    Some(time.civil.micros)
}

/// Appends what comes before a timestamp in UTC, and its canonical form from its own digits.
#[inline(always)]
fn put_utc(octets: &[u8], at: usize, micros: u32, out: &mut Vec<u8>) -> Result<(), AllocError>
    requires within { at + STAMP_LEN ≤ length octets.now }
    requires digits { micros ≤ 999_999 }
    ensures { Puts (Only (take (at + STAMP_LEN) octets.now ++ utc_fraction micros))
        out.old.items out.new.items result }
{
    let (front, _) = octets.split_at(at + STAMP_LEN);
    put(front, out)?;
    put(&utc_fraction(micros), out)
}

/// The instant that a time names, if there is a time.
#[inline(always)]
fn instant_of(time: Option<Timestamp>) -> Option<Instant>
    requires exists { IfSome time (λ t. IsCivil t.civil × IsOffset t.offset_minutes) }
    requires inner { IfSome time (λ t. (1 ≤ t.civil.year) × (t.civil.year ≤ 9998)) }
    ensures { result ≡ option_map (λ t. instant (time_of t)) time }
{
    let time = time?;
    match Instant::from_civil(time.civil, time.offset_minutes) {
        Ok(instant) => Some(instant),
        Err(_) => unreachable!(),
    }
}

/// Appends what comes before a timestamp, and its canonical form by way of its instant.
#[inline(always)]
fn put_shifted(
    octets: &[u8],
    at: usize,
    time: Option<Timestamp>,
    out: &mut Vec<u8>,
) -> Result<(), AllocError>
    requires within { at ≤ length octets.now }
    requires exists { IfSome time (λ t. IsCivil t.civil × IsOffset t.offset_minutes) }
    requires inner { IfSome time (λ t. (1 ≤ t.civil.year) × (t.civil.year ≤ 9998)) }
    ensures { Puts (Only (take at octets.now)
        ⋅ TimeForm (option_map (λ t. instant (time_of t)) time))
        out.old.items out.new.items result }
{
    let (before, _) = octets.split_at(at);
    put(before, out)?;
    put_time(instant_of(time), out)
}

/// Appends what comes before a timestamp, and the canonical form of the timestamp.
#[inline(always)]
fn put_front(
    octets: &[u8],
    at: usize,
    time: Option<Timestamp>,
    out: &mut Vec<u8>,
) -> Result<(), AllocError>
    requires within { at ≤ length octets.now }
    requires time { (rest : List ℕ)
        × Follows (Spaced (Nilable TimeText (option_map time_of time))) (drop at octets.now) rest }
    requires inner { IfSome time (λ t. (1 ≤ t.civil.year) × (t.civil.year ≤ 9998)) }
    ensures { Puts (Only (take at octets.now)
        ⋅ TimeForm (option_map (λ t. instant (time_of t)) time))
        out.old.items out.new.items result }
{
    match utc_micros(time) {
        Some(micros) => put_utc(octets, at, micros, out),
        None => put_shifted(octets, at, time, out),
    }
}

/// Appends the canonical octets of a record, if all that follows the timestamp is canonical as it
/// lies in the octets.
#[inline(always)]
fn put_verbatim(octets: &[u8], parsed: Parsed<'_>, out: &mut Vec<u8>) -> Result<(), AllocError>
    requires parsed { IsParsed octets.now parsed }
    requires inner { IfSome parsed.fields.time
        (λ t. (1 ≤ t.civil.year) × (t.civil.year ≤ 9998)) }
    ensures { Puts (VerbatimForm (shown_parts parsed.entry
        (option_map (λ t. instant (time_of t)) parsed.entry.fields.time)))
        out.old.items out.new.items result }
{
    let at = octets.len() - parsed.fields.time_remaining;
    let behind = parsed.fields.behind_time;
    let (_, timed) = octets.split_at(at);
    if has_time_form(parsed.fields.time, timed, behind) {
        return put(octets, out);
    }
    put_front(octets, at, parsed.fields.time, out)?;
    let (_, spaced) = octets.split_at(octets.len() - behind.len() - 1);
    put(spaced, out)
}

/// Appends the canonical octets of a record by way of its view.
fn put_by_view(
    alloc: Global,
    octets: &[u8],
    parsed: Parsed<'_>,
    out: &mut Vec<u8>,
) -> Result<Option<Fault>, AllocError>
    requires { IsParsed octets.now parsed }
    ensures ok { IfOk result (PutsCanonical octets.now out.old.items out.new.items) }
    ensures err { OnErr result (out.new.items ≡ out.old.items) }
{
    match view_of(octets, parsed) {
        Ok(view) => {
            write_canonical_view(alloc, &view, out)?;
            Ok(None)
        }
        Err(fault) => Ok(Some(fault)),
    }
}

/// Appends the canonical octets of the record that the octets are: what [`view`](crate::view) and
/// [`write_canonical_view`] do together, and faster. If the octets are no record, nothing is
/// appended, and the answer is their fault.
///
/// If an allocation fails, the vector is unchanged. The allocator is used only if elements have to
/// be sorted and cannot be sorted on the stack.
pub fn write_canonical_octets(
    alloc: Global,
    octets: &[u8],
    out: &mut Vec<u8>,
) -> Result<Option<Fault>, AllocError>
    ensures ok { IfOk result (PutsCanonical octets.now out.old.items out.new.items) }
    ensures err { OnErr result (out.new.items ≡ out.old.items) }
{
    let parsed = match parse(octets) {
        Ok(parsed) => parsed,
        Err(fault) => return Ok(Some(fault)),
    };
    if !lies_canonical(parsed) {
        return put_by_view(alloc, octets, parsed, out);
    }
    let start = out.len();
    if let Err(refused) = put_verbatim(octets, parsed, out) {
        out.truncate(start);
        return Err(refused);
    }
    Ok(None)
}
