//! The lines on frames and streams.

ghost use Rattle.std.specs.Prelude.{◌≡◌, ◌++◌, List, ℕ, OnOk, OnErr, codes, decimal};
ghost use Rattle.frame_engine.specs.Line.{fault_text, field_name, line_text};

use itoa::Buffer;
use std::alloc::AllocError;
use syslog_grammar::{Fault, Field};

/// A line on a frame or on a stream. Frames are numbered from 1; positions and offsets count octets
/// from 0.
#[derive(Clone, Copy, Debug, PartialEq, Eq)]
pub enum Line {
    /// The frame is a record.
    Accepted { number: u64 },
    /// The frame is no record, for this reason.
    Refused { number: u64, fault: Fault },
    /// The frame is a legacy packet whose message begins with the byte order mark and is not UTF-8
    /// at this offset.
    LegacyNotUtf8 { number: u64, offset: usize },
    /// The frame has more than `FRAME_MAX` octets.
    TooLong { number: u64 },
    /// No MSG-LEN can continue with the octet at this position.
    BadCount { number: u64, at: u64 },
    /// The canonical record contains a line feed, which a line cannot carry.
    HasLf { number: u64 },
    /// The canonical record has more than `FRAME_MAX` octets.
    CanonicalTooLong { number: u64 },
    /// The stream ends inside the frame that begins at this position.
    Unterminated { start: u64 },
}

pub(crate) fn put_number(out: &mut Vec<u8>, number: u64) -> Result<(), AllocError>
    ensures ok { OnOk result (out.new.items ≡ out.old.items ++ decimal number) }
    ensures err { OnErr result (out.new.items ≡ out.old.items) }
{
    out.extend_from_slice(Buffer::new().format(number).as_bytes())
}

pub(crate) fn put_text(out: &mut Vec<u8>, text: &[u8]) -> Result<(), AllocError>
    ensures ok { OnOk result (out.new.items ≡ out.old.items ++ text.now) }
    ensures err { OnErr result (out.new.items ≡ out.old.items) }
{
    out.extend_from_slice(text)
}

fn put_offset(out: &mut Vec<u8>, offset: usize) -> Result<(), AllocError>
    ensures ok { OnOk result (out.new.items ≡ out.old.items ++ decimal offset) }
    ensures err { OnErr result (out.new.items ≡ out.old.items) }
{
    out.extend_from_slice(Buffer::new().format(offset).as_bytes())
}

fn name_of(field: Field) -> &'static [u8]
    ensures { result.now ≡ field_name field }
{
    match field {
        Field::Priority => b"priority",
        Field::Version => b"version",
        Field::Timestamp => b"timestamp",
        Field::Hostname => b"hostname",
        Field::AppName => b"app-name",
        Field::ProcId => b"procid",
        Field::MsgId => b"msgid",
        Field::StructuredData => b"structured-data",
        Field::Message => b"message",
    }
}

// Appends a fault with its offset; where memory runs out, possibly a part of it.
fn append_fault(out: &mut Vec<u8>, fault: Fault) -> Result<(), AllocError>
    ensures ok { OnOk result (out.new.items ≡ out.old.items ++ fault_text fault) }
    ensures err { (part : List ℕ) × (out.new.items ≡ out.old.items ++ part) }
{
    match fault {
        Fault::Syntax { field, offset } => {
            put_text(out, b"syntax ")?;
            put_text(out, name_of(field))?;
            put_text(out, b" ")?;
            put_offset(out, offset)
        }
        Fault::InstantRange { offset } => {
            put_text(out, b"instant-range ")?;
            put_offset(out, offset)
        }
        Fault::RepeatedId { offset } => {
            put_text(out, b"repeated-id ")?;
            put_offset(out, offset)
        }
    }
}

// Appends the number of a frame and words; where memory runs out, possibly a part of it.
fn append_numbered(out: &mut Vec<u8>, number: u64, words: &[u8]) -> Result<(), AllocError>
    ensures ok { OnOk result (out.new.items ≡ out.old.items ++ (decimal number ++ words.now)) }
    ensures err { (part : List ℕ) × (out.new.items ≡ out.old.items ++ part) }
{
    put_number(out, number)?;
    put_text(out, words)
}

// Appends the number of a frame, words, a position and a line feed; where memory runs out, possibly
// a part of it.
fn append_at(out: &mut Vec<u8>, number: u64, words: &[u8], at: u64) -> Result<(), AllocError>
    ensures ok { OnOk result (out.new.items
        ≡ out.old.items ++ (decimal number ++ words.now ++ decimal at ++ codes "\n")) }
    ensures err { (part : List ℕ) × (out.new.items ≡ out.old.items ++ part) }
{
    put_number(out, number)?;
    put_text(out, words)?;
    put_number(out, at)?;
    put_text(out, b"\n")
}

// Appends a line; where memory runs out, possibly a part of it.
fn append_line(out: &mut Vec<u8>, line: Line) -> Result<(), AllocError>
    ensures ok { OnOk result (out.new.items ≡ out.old.items ++ line_text line) }
    ensures err { (part : List ℕ) × (out.new.items ≡ out.old.items ++ part) }
{
    match line {
        Line::Accepted { number } => append_numbered(out, number, b" ok\n"),
        Line::Refused { number, fault } => {
            put_number(out, number)?;
            put_text(out, b" ")?;
            append_fault(out, fault)?;
            put_text(out, b"\n")
        }
        Line::LegacyNotUtf8 { number, offset } => {
            append_at(out, number, b" legacy-not-utf8 ", offset as u64)
        }
        Line::TooLong { number } => append_numbered(out, number, b" too-long\n"),
        Line::BadCount { number, at } => append_at(out, number, b" bad-count ", at),
        Line::HasLf { number } => append_numbered(out, number, b" has-lf\n"),
        Line::CanonicalTooLong { number } => append_numbered(out, number, b" canonical-too-long\n"),
        Line::Unterminated { start } => {
            put_text(out, b"unterminated ")?;
            put_number(out, start)?;
            put_text(out, b"\n")
        }
    }
}

/// Appends a line, whole or not at all. It fails only when out of memory.
pub fn put_line(out: &mut Vec<u8>, line: Line) -> Result<(), AllocError>
    ensures ok { OnOk result (out.new.items ≡ out.old.items ++ line_text line) }
    ensures err { OnErr result (out.new.items ≡ out.old.items) }
{
    let before = out.len();
    let put = append_line(out, line);
    if put.is_err() {
        out.truncate(before);
    }
    put
}
