//! How a frame is read.

ghost use Rattle.std.specs.Prelude.{◌≡◌, ◌≤◌, ℤ, List, ℕ, IfErr, IfOk, MatchOption, OnErr, OnOk, Some, length};
ghost use Rattle.syslog_value.specs.Parts.{Parts};
ghost use Rattle.syslog_reading.specs.ViewParts.{IsViewOf, view_parts};
ghost use Rattle.syslog_reading.specs.Faults.{FaultOf};
ghost use Rattle.syslog_legacy.specs.ClockReadings.{IsReadAs};
ghost use Rattle.syslog_legacy.specs.declared.frame_reading.FrameReading.{FrameReading};
ghost use Rattle.syslog_legacy.specs.NewForm.{HasNewForm};
ghost use Rattle.frame_engine.specs.Readings.{IsNoRecord, IsReadNew, IsReadingIn, IsReadingOf, IsRecordOf};
ghost use Rattle.frame_engine.specs.Readings.{IsRefusedWith, PutsOctets, PutsReading};
ghost use Rattle.frame_engine.specs.declared.line.Line.TheVariants.{LegacyNotUtf8};

use crate::line::Line;
use std::alloc::{AllocError, Global};
use syslog_frame::FRAME_MAX;
use syslog_grammar::{RecordView, fault_of, view, write_canonical_octets};
use syslog_legacy::{
    FrameReading, LegacyClock, LegacyView, MessageNotUtf8, has_new_form, legacy_view,
    put_legacy_canonical,
};
use syslog_value::Record;

/// What a frame is read as. It lends its parts from the frame.
#[derive(Clone, Copy, Debug)]
pub enum Reading<'a> {
    /// A record of RFC 5424.
    Record(RecordView<'a>),
    /// A legacy packet (RFC 3164).
    Legacy(LegacyView<'a>),
}

/// The clock by which octets are read as a legacy packet, if they are: there is a clock, and the
/// octets do not have the front of RFC 5424.
#[inline(always)]
fn legacy_clock(clock: Option<LegacyClock>, octets: &[u8]) -> Option<LegacyClock>
    ensures { MatchOption result (IsReadNew clock octets.now)
        (λ k. (clock ≡ Some k) × ¬ (HasNewForm octets.now)) }
{
    let clock = clock?;
    if has_new_form(octets) {
        return None;
    }
    Some(clock)
}

/// The line on a legacy packet whose message is not UTF-8.
fn legacy_line(number: u64, fault: MessageNotUtf8) -> Line
    ensures { result ≡ LegacyNotUtf8 number fault.offset }
{
    Line::LegacyNotUtf8 {
        number,
        offset: fault.offset,
    }
}

/// Reads the octets of the frame with this number, under a clock if there is one.
#[inline(always)]
fn read_octets<'a>(
    clock: Option<LegacyClock>,
    number: u64,
    octets: &'a [u8],
) -> Result<Reading<'a>, Line>
    ensures some { OnOk result ((r : Parts ℤ) × IsReadAs clock r octets.now) }
    ensures reading { IfOk result (λ read. IsReadingIn clock octets.now read) }
    ensures refused { IfErr result (λ line. IsNoRecord clock number octets.now line) }
{
    if let Some(clock) = legacy_clock(clock, octets) {
        return match legacy_view(&clock, octets) {
            Ok(view) => Ok(Reading::Legacy(view)),
            Err(fault) => Err(legacy_line(number, fault)),
        };
    }
    match view(octets) {
        Ok(view) => Ok(Reading::Record(view)),
        Err(fault) => Err(Line::Refused { number, fault }),
    }
}

/// Reads the frame with this number. With a clock, a frame without the front of RFC 5424 is a
/// legacy packet. It takes no memory.
///
/// # Errors
/// The line that says why the frame is no record.
#[inline(always)]
pub fn read_frame<'a>(
    reading: FrameReading,
    number: u64,
    frame: &'a [u8],
) -> Result<Reading<'a>, Line>
    ensures some { OnOk result ((r : Parts ℤ) × IsRecordOf reading r frame.now) }
    ensures reading { IfOk result (λ read. IsReadingOf reading frame.now read) }
    ensures refused { IfErr result (λ line. IsRefusedWith reading number frame.now line) }
{
    if frame.len() > FRAME_MAX {
        return Err(Line::TooLong { number });
    }
    read_octets(reading.clock, number, reading.octets(frame))
}

/// Why the octets of the frame with this number are no record under a clock; None if they are one.
#[inline(always)]
fn octets_refusal(clock: Option<LegacyClock>, number: u64, octets: &[u8]) -> Option<Line>
    ensures { MatchOption result ((r : Parts ℤ) × IsReadAs clock r octets.now)
        (λ line. IsNoRecord clock number octets.now line) }
{
    if let Some(clock) = legacy_clock(clock, octets) {
        return match legacy_view(&clock, octets) {
            Ok(_view) => None,
            Err(fault) => Some(legacy_line(number, fault)),
        };
    }
    let fault = fault_of(octets)?;
    Some(Line::Refused { number, fault })
}

/// Why the frame with this number is no record; None if it is one. The line is the one that
/// [`read_frame`] answers, without what is read.
#[inline(always)]
pub fn refusal(reading: FrameReading, number: u64, frame: &[u8]) -> Option<Line>
    ensures { MatchOption result ((r : Parts ℤ) × IsRecordOf reading r frame.now)
        (λ line. IsRefusedWith reading number frame.now line) }
{
    if frame.len() > FRAME_MAX {
        return Some(Line::TooLong { number });
    }
    octets_refusal(reading.clock, number, reading.octets(frame))
}

impl<'a> Reading<'a> {
    /// The record that was read, with memory of its own.
    ///
    /// # Errors
    /// Out of memory.
    pub fn to_record(&self, alloc: Global) -> Result<Record, AllocError>
        ensures { IfOk result (λ r. (way : FrameReading) (f : List ℕ) → IsReadingOf way f self.now
            → IsRecordOf way r f) }
    {
        match self {
            Reading::Record(view) => view.to_record(alloc),
            Reading::Legacy(view) => view.to_record(alloc),
        }
    }
}

/// Appends the canonical octets of a legacy packet, or gives the line that says why it is no record.
#[inline(never)]
fn put_legacy(
    clock: &LegacyClock,
    number: u64,
    octets: &[u8],
    out: &mut Vec<u8>,
) -> Result<Option<Line>, AllocError>
    requires { ¬ (HasNewForm octets.now) }
    ensures ok { IfOk result (λ line. PutsOctets (Some clock.now) number octets.now
        out.old.items out.new.items line) }
    ensures err { OnErr result (out.new.items ≡ out.old.items) }
{
    match legacy_view(clock, octets) {
        Ok(view) => {
            put_legacy_canonical(&view, out)?;
            Ok(None)
        }
        Err(fault) => Ok(Some(legacy_line(number, fault))),
    }
}

/// Appends the canonical octets of the record as which the octets of a frame are read, under a
/// clock if there is one; or gives the line that says why there is none.
fn put_octets(
    clock: Option<LegacyClock>,
    number: u64,
    octets: &[u8],
    alloc: Global,
    out: &mut Vec<u8>,
) -> Result<Option<Line>, AllocError>
    ensures ok { IfOk result (λ line. PutsOctets clock number octets.now
        out.old.items out.new.items line) }
    ensures err { OnErr result (out.new.items ≡ out.old.items) }
{
    if let Some(clock) = legacy_clock(clock, octets) {
        return put_legacy(&clock, number, octets, out);
    }
    match write_canonical_octets(alloc, octets, out)? {
        None => Ok(None),
        Some(fault) => Ok(Some(Line::Refused { number, fault })),
    }
}

/// Appends the canonical octets of the record as which [`read_frame`] reads a frame: the frame as
/// it lies, if it is canonical. If the frame is no record, nothing is appended, and the answer is
/// the line that says why.
///
/// The allocator is used only if element ids do not ascend.
///
/// # Errors
/// Out of memory: nothing is appended.
pub fn put_reading(
    reading: FrameReading,
    number: u64,
    frame: &[u8],
    alloc: Global,
    out: &mut Vec<u8>,
) -> Result<Option<Line>, AllocError>
    ensures ok { IfOk result (λ line. PutsReading reading number frame.now
        out.old.items out.new.items line) }
    ensures err { OnErr result (out.new.items ≡ out.old.items) }
{
    if frame.len() > FRAME_MAX {
        return Ok(Some(Line::TooLong { number }));
    }
    put_octets(reading.clock, number, reading.octets(frame), alloc, out)
}
