//! The whole of a record's octets (RFC 5424, section 6), and the offset at which they leave the
//! grammar.

ghost use Rattle.std.specs.Prelude.{◌≡◌, ◌-◌, ◌==◌, MatchResult, count_by, length};
ghost use Rattle.syslog_reading.specs.Parsing.{IsCounted, IsFaultBehind, IsParsed, IsSyntaxAt};
ghost use Rattle.syslog_reading.specs.Parsing.{IsSyntaxFault};

use crate::fault::{Fault, Field};
use crate::header::{HeaderFields, fields};
use crate::message::{MessageView, message_part};
use crate::structured_data::structured_data;

/// The parts of a record, as they lie in the octets.
#[derive(Clone, Copy, Debug, PartialEq, Eq)]
pub struct Parsed<'a> {
    /// The header (6.2).
    pub fields: HeaderFields<'a>,
    /// The octets of STRUCTURED-DATA (6.3).
    pub structured_data: &'a [u8],
    /// MSG (6.4).
    pub message: MessageView<'a>,
    /// How many octets are left where the structured data begins.
    pub structured_data_remaining: usize,
    /// Whether the structured data is canonical except for the order of its elements.
    pub is_form: bool,
    /// Whether the ids of the elements ascend.
    pub ascends: bool,
    /// Whether these ids are known to differ.
    pub differ: bool,
}

fn count(octet: u8, octets: &[u8]) -> usize
    ensures { result ≡ count_by (λ x. x == octet) octets.now }
{
    octets.iter().filter(|other| **other == octet).count()
}

/// The field that comes where a prefix of a record ends, before the message.
fn field_before(prefix: &[u8]) -> Field
    ensures { IsCounted prefix.now result }
{
    if count(b'>', prefix) == 0 {
        return Field::Priority;
    }
    match count(b' ', prefix) {
        0 => Field::Version,
        1 => Field::Timestamp,
        2 => Field::Hostname,
        3 => Field::AppName,
        4 => Field::ProcId,
        5 => Field::MsgId,
        _ => Field::StructuredData,
    }
}

/// The fault before the message, if so many octets are left at it.
#[cold]
fn fault_before(octets: &[u8], remaining: usize) -> Fault
    ensures { IsSyntaxAt octets.now remaining result }
{
    let (prefix, _) = octets.split_at(octets.len().saturating_sub(remaining));
    Fault::Syntax {
        field: field_before(prefix),
        offset: prefix.len(),
    }
}

/// The fault behind the structured data: a space is missing, or the message is faulty.
#[cold]
fn fault_behind(octets: &[u8], rest: &[u8], remaining: usize) -> Fault
    ensures { IsFaultBehind octets.now rest.now remaining result }
{
    let (prefix, _) = octets.split_at(octets.len().saturating_sub(remaining));
    let field = match rest {
        [b' ', ..] => Field::Message,
        _ => field_before(prefix),
    };
    Fault::Syntax {
        field,
        offset: prefix.len(),
    }
}

/// Reads a whole record. A fault is always one of the syntax.
#[inline(always)]
pub fn parse(octets: &[u8]) -> Result<Parsed<'_>, Fault>
    ensures { MatchResult result (IsParsed octets.now) (IsSyntaxFault octets.now) }
{
    let (fields, rest) = match fields(octets) {
        Ok(read) => read,
        Err(stop) => return Err(fault_before(octets, stop.remaining)),
    };
    let structured_data_remaining = rest.len();
    let (structured_data, rest, is_form, ascends, differ) = match structured_data(rest) {
        Ok(read) => read,
        Err(stop) => return Err(fault_before(octets, stop.remaining)),
    };
    match message_part(rest) {
        // taken apart, so that no padding is copied
        Ok(MessageView { octets, has_mark }) => Ok(Parsed {
            fields,
            structured_data,
            message: MessageView { octets, has_mark },
            structured_data_remaining,
            is_form,
            ascends,
            differ,
        }),
        Err(stop) => Err(fault_behind(octets, rest, stop.remaining)),
    }
}
