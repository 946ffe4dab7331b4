//! The line of a record whose parts are lent.

ghost use Rattle.std.specs.Prelude.{◌≡◌, ◌++◌, List, OnErr, OnOk, option_map};
ghost use Rattle.json.specs.Print.{escape, quoted};
ghost use Rattle.octet_language.specs.Language.{Only};
ghost use Rattle.syslog_value.specs.Parts.{AnyOctets, ElementParts};
ghost use Rattle.syslog_fields.specs.Appending.{Adds, Puts};
ghost use Rattle.syslog_fields.specs.Grammar.{StructuredDataText};
ghost use Rattle.syslog_reading.specs.Views.{message_parts};
ghost use Rattle.record_json.specs.Objects.{JsonLine};
ghost use Rattle.record_json.specs.Texts.{DataMember, LentLine, MessageText, PriorityText, TimeText};
ghost use Rattle.record_json.specs.Texts.{base64_text, marked_text, number_text, plain_text, priority_text};
ghost use Rattle.record_json.specs.Texts.{record_of, word_text, words_text};

use crate::data::put_data;
use crate::encoded::put_encoded;
use crate::escapes::{put_kept, put_string};
use itoa::Buffer;
use std::alloc::AllocError;
use syslog_fields::appending::put;
use syslog_grammar::canonical_timestamp;
use syslog_grammar::fields::{HeaderValues, MessageView};
use syslog_value::{Facility, Instant, Priority, Severity};

/// The parts of a record as its octets lend them.
#[derive(Clone, Copy)]
pub struct LentParts<'a> {
    /// The fields before the structured data.
    pub header: HeaderValues<'a>,
    /// The octets of the structured data: `-`, or elements.
    pub structured_data: &'a [u8],
    /// The message (RFC 5424, section 6.4).
    pub message: MessageView<'a>,
}

/// Appends the number of a priority behind its key.
fn put_number(value: u8, out: &mut Vec<u8>) -> Result<(), AllocError>
    ensures { Puts (Only (number_text value)) out.old.items out.new.items result }
{
    put(b"{\"priority\":", out)?;
    put(Buffer::new().format(value).as_bytes(), out)
}

/// Appends a name that needs no escape behind its key.
#[inline(always)]
fn put_name(key: &[u8], name: &str, out: &mut Vec<u8>) -> Result<(), AllocError>
    requires { escape name.now ≡ name.now }
    ensures { Puts (Only (key.now ++ quoted name.now)) out.old.items out.new.items result }
{
    put(key, out)?;
    put_kept(name.as_bytes(), out)
}

/// Appends PRIVAL, and the names of its facility and its severity.
fn put_names(
    value: u8,
    facility: Facility,
    severity: Severity,
    out: &mut Vec<u8>,
) -> Result<(), AllocError>
    ensures { Puts (Only (priority_text value facility severity))
        out.old.items out.new.items result }
{
    put_number(value, out)?;
    put_name(b",\"facility\":", facility.name(), out)?;
    put_name(b",\"severity\":", severity.name(), out)
}

fn put_priority(priority: Priority, out: &mut Vec<u8>) -> Result<(), AllocError>
    ensures { Puts (PriorityText priority) out.old.items out.new.items result }
{
    put_names(
        priority.value(),
        priority.facility(),
        priority.severity(),
        out,
    )
}

fn put_time(instant: Option<Instant>, out: &mut Vec<u8>) -> Result<(), AllocError>
    ensures { Puts (TimeText instant) out.old.items out.new.items result }
{
    match instant {
        None => put(b",\"time\":null", out),
        Some(instant) => {
            put(b",\"time\":", out)?;
            put_kept(&canonical_timestamp(instant), out)
        }
    }
}

/// Appends a word behind its key.
#[inline(always)]
fn put_word(key: &[u8], word: Option<&[u8]>, out: &mut Vec<u8>) -> Result<(), AllocError>
    ensures { Puts (Only (key.now ++ word_text (option_map (λ s. s.now) word.entry)))
        out.old.items out.new.items result }
{
    put(key, out)?;
    match word {
        None => put(b"null", out),
        Some(word) => put_string(word, out),
    }
}

fn put_words(header: &HeaderValues<'_>, out: &mut Vec<u8>) -> Result<(), AllocError>
    ensures { Puts (Only (words_text
        (option_map (λ s. s.now) header.now.hostname) (option_map (λ s. s.now) header.now.app_name)
        (option_map (λ s. s.now) header.now.proc_id) (option_map (λ s. s.now) header.now.msg_id)))
        out.old.items out.new.items result }
{
    put_word(b",\"host\":", header.hostname, out)?;
    put_word(b",\"app\":", header.app_name, out)?;
    put_word(b",\"proc\":", header.proc_id, out)?;
    put_word(b",\"msgid\":", header.msg_id, out)
}

/// Appends the structured data behind its key.
fn put_data_member(structured_data: &[u8], out: &mut Vec<u8>) -> Result<(), AllocError>
    ensures { Puts (DataMember structured_data.now) out.old.items out.new.items result }
{
    put(b",\"data\":{", out)?;
    put_data(structured_data, out)
}

/// Appends a text as the message, the note that it had a BOM, the brace that ends the object, and a
/// line feed.
fn put_marked(text: &[u8], out: &mut Vec<u8>) -> Result<(), AllocError>
    ensures { Puts (Only (marked_text text.now)) out.old.items out.new.items result }
{
    put(b",\"message\":", out)?;
    put_string(text, out)?;
    put(b",\"bom\":true}\n", out)
}

/// Appends octets in UTF-8 as the message, the brace and the line feed.
fn put_text(octets: &[u8], out: &mut Vec<u8>) -> Result<(), AllocError>
    ensures { Puts (Only (plain_text octets.now)) out.old.items out.new.items result }
{
    put(b",\"message\":", out)?;
    put_string(octets, out)?;
    put(b"}\n", out)
}

/// Appends the Base64 of octets as the message, the brace and the line feed.
#[cold]
fn put_base64(octets: &[u8], out: &mut Vec<u8>) -> Result<(), AllocError>
    ensures { Puts (Only (base64_text octets.now)) out.old.items out.new.items result }
{
    put(b",\"message_base64\":\"", out)?;
    put_encoded(octets, out)?;
    put(b"\"}\n", out)
}

/// Appends octets as the message, as text if they are UTF-8.
fn put_any(octets: &[u8], out: &mut Vec<u8>) -> Result<(), AllocError>
    ensures { Puts (MessageText (AnyOctets octets.now)) out.old.items out.new.items result }
{
    match simdutf8::basic::from_utf8(octets) {
        Ok(_text) => put_text(octets, out),
        Err(_) => put_base64(octets, out),
    }
}

/// Appends the message, the brace that ends the object, and a line feed.
#[inline(always)]
fn put_message(message: &MessageView<'_>, out: &mut Vec<u8>) -> Result<(), AllocError>
    ensures { Puts (MessageText (message_parts message.now)) out.old.items out.new.items result }
{
    if message.has_mark {
        return put_marked(message.octets, out);
    }
    put_any(message.octets, out)
}

/// Appends the line of the record of these parts; if memory is refused, possibly a part of it.
pub fn append_line(parts: &LentParts<'_>, out: &mut Vec<u8>) -> Result<(), AllocError>
    ensures { Puts (LentLine parts.now) out.old.items out.new.items result }
{
    put_priority(parts.header.priority, out)?;
    put_time(parts.header.instant, out)?;
    put_words(&parts.header, out)?;
    put_data_member(parts.structured_data, out)?;
    put_message(&parts.message, out)
}

/// Appends the record of these parts as one line of JSON, which a line feed ends. The elements come
/// in the order of the octets, so they should stand by id there.
///
/// No memory is taken but that of the vector. If an allocation fails, the vector is unchanged.
pub fn put_lent_line(parts: &LentParts<'_>, out: &mut Vec<u8>) -> Result<(), AllocError>
    ensures ok { (es : List ElementParts) → StructuredDataText es parts.now.structured_data.now
        → OnOk result (Adds (JsonLine (record_of parts.now es)) out.old.items out.new.items) }
    ensures err { OnErr result (out.new.items ≡ out.old.items) }
{
    let start = out.len();
    let put = append_line(parts, out);
    if put.is_err() {
        out.truncate(start);
    }
    put
}
