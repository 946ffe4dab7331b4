//! The fields of a record, one line each.

ghost use Rattle.std.specs.Prelude.{◌≡◌, ◌++◌, ◌<◌, List, ℕ, OnErr, OnOk, codes, decimal, option_map, if◌then◌else◌};
ghost use Rattle.std.specs.Prelude.{◌∷◌};
ghost use Rattle.syslog_value.specs.Parts.{AnyOctets, Utf8Text};
ghost use Rattle.std.specs.List.{flat_map};
ghost use Rattle.std.specs.Option.{option_copied};
ghost use Rattle.octet_language.specs.Language.{Only};
ghost use Rattle.syslog_fields.specs.Appending.{Adds, Anything, Puts};
ghost use Rattle.syslog_fields.specs.Canonical.{word_form};
ghost use Rattle.frame_engine.specs.Showing.{PriorityLine, RecordLines, TimeLine, element_lines};
ghost use Rattle.frame_engine.specs.Showing.{hex_digit, line_of, message_line, number_line, hex_escaped_octet};
ghost use Rattle.frame_engine.specs.Showing.{hex_escaped, param_lines, priority_line, quoted_line, word_lines};

use itoa::Buffer;
use std::alloc::AllocError;
use syslog_grammar::canonical_timestamp;
use syslog_value::{Element, Facility, Instant, Param, Priority, Record, Severity, Word};

fn put(octets: &[u8], out: &mut Vec<u8>) -> Result<(), AllocError>
    ensures { Puts (Only octets.now) out.old.items out.new.items result }
{
    out.extend_from_slice(octets)
}

// Appends a space and a text.
fn put_spaced(text: &[u8], out: &mut Vec<u8>) -> Result<(), AllocError>
    ensures { Puts (Only (32 ∷ text.now)) out.old.items out.new.items result }
{
    put(b" ", out)?;
    put(text, out)
}

// Appends a name, a space, a text and a line feed.
fn put_line_of(name: &[u8], text: &[u8], out: &mut Vec<u8>) -> Result<(), AllocError>
    ensures { Puts (Only (line_of name.now text.now)) out.old.items out.new.items result }
{
    put(name, out)?;
    put_spaced(text, out)?;
    put(b"\n", out)
}

fn hex_digit(digit: u8) -> u8
    requires { digit < 16 }
    ensures { result ≡ hex_digit digit }
{
    if digit < 10 {
        b'0' + digit
    } else {
        b'a' - 10 + digit
    }
}

// Appends an octet as it is shown: a printable octet of ASCII as itself, but for the quotation mark
// and the backslash, which are escaped as every other octet is.
fn put_octet(octet: u8, out: &mut Vec<u8>) -> Result<(), AllocError>
    ensures { Puts (Only (hex_escaped_octet octet)) out.old.items out.new.items result }
{
    match octet {
        b'"' | b'\\' => {}
        b' '..=b'~' => return put(&[octet], out),
        _ => {}
    }
    put(
        &[b'\\', b'x', hex_digit(octet / 16), hex_digit(octet % 16)],
        out,
    )
}

fn put_octets(octets: &[u8], out: &mut Vec<u8>) -> Result<(), AllocError>
    ensures { Puts (Only (hex_escaped octets.now)) out.old.items out.new.items result }
{
    for octet in octets {
        put_octet(*octet, out)?;
    }
    Ok(())
}

// Appends a name, a space, octets as they are shown between quotation marks, and a line feed.
fn put_quoted(name: &[u8], octets: &[u8], out: &mut Vec<u8>) -> Result<(), AllocError>
    ensures { Puts (Only (quoted_line name.now octets.now)) out.old.items out.new.items result }
{
    put(name, out)?;
    put(b" \"", out)?;
    put_octets(octets, out)?;
    put(b"\"\n", out)
}

fn put_param(param: &Param, out: &mut Vec<u8>) -> Result<(), AllocError>
    ensures { Puts (Only (param_lines param.now)) out.old.items out.new.items result }
{
    put(b"param ", out)?;
    put_quoted(param.name().bytes(), param.value().as_bytes(), out)
}

fn put_element(element: &Element, out: &mut Vec<u8>) -> Result<(), AllocError>
    ensures { Puts (Only (element_lines element.now)) out.old.items out.new.items result }
{
    put_line_of(b"element", element.id().bytes(), out)?;
    for param in element.params() {
        put_param(param, out)?;
    }
    Ok(())
}

fn put_elements(elements: &[Element], out: &mut Vec<u8>) -> Result<(), AllocError>
    ensures { Puts (Only (flat_map element_lines elements.now)) out.old.items out.new.items result }
{
    for element in elements {
        put_element(element, out)?;
    }
    Ok(())
}

fn put_message(octets: &[u8], has_mark: bool, out: &mut Vec<u8>) -> Result<(), AllocError>
    ensures { Puts (Only (message_line
        (if has_mark then Utf8Text octets.now else AnyOctets octets.now)))
        out.old.items out.new.items result }
{
    if has_mark {
        put_quoted(b"message utf8", octets, out)
    } else {
        put_quoted(b"message any", octets, out)
    }
}

fn put_number(number: u64, out: &mut Vec<u8>) -> Result<(), AllocError>
    ensures { Puts (Only (number_line number)) out.old.items out.new.items result }
{
    put_line_of(b"record", Buffer::new().format(number).as_bytes(), out)
}

// Appends PRIVAL with the names of its facility and its severity.
fn put_names(
    value: u8,
    facility: Facility,
    severity: Severity,
    out: &mut Vec<u8>,
) -> Result<(), AllocError>
    ensures { Puts (Only (priority_line value facility severity))
        out.old.items out.new.items result }
{
    put(b"priority", out)?;
    put_spaced(Buffer::new().format(value).as_bytes(), out)?;
    put_spaced(facility.name().as_bytes(), out)?;
    put_spaced(severity.name().as_bytes(), out)?;
    put(b"\n", out)
}

fn put_priority(priority: Priority, out: &mut Vec<u8>) -> Result<(), AllocError>
    ensures { Puts (PriorityLine priority) out.old.items out.new.items result }
{
    put_names(
        priority.value(),
        priority.facility(),
        priority.severity(),
        out,
    )
}

fn put_time(instant: Option<Instant>, out: &mut Vec<u8>) -> Result<(), AllocError>
    ensures { Puts (TimeLine instant) out.old.items out.new.items result }
{
    match instant {
        None => put(b"time -\n", out),
        Some(instant) => put_line_of(b"time", &canonical_timestamp(instant), out),
    }
}

fn put_word<const N: usize>(
    name: &[u8],
    word: Option<&Word<N>>,
    out: &mut Vec<u8>,
) -> Result<(), AllocError>
    ensures { Puts (Only (line_of name.now (word_form (option_copied word.entry))))
        out.old.items out.new.items result }
{
    match word {
        None => put_line_of(name, b"-", out),
        Some(word) => put_line_of(name, word.bytes(), out),
    }
}

fn put_words(record: &Record, out: &mut Vec<u8>) -> Result<(), AllocError>
    ensures { Puts (Only (word_lines record.now)) out.old.items out.new.items result }
{
    put_word(b"host", record.hostname(), out)?;
    put_word(b"app", record.app_name(), out)?;
    put_word(b"proc", record.proc_id(), out)?;
    put_word(b"msgid", record.msg_id(), out)
}

// Appends all lines of a record; where memory runs out, possibly a part of them.
fn append_record_lines(number: u64, record: &Record, out: &mut Vec<u8>) -> Result<(), AllocError>
    ensures { Puts (RecordLines number record.now) out.old.items out.new.items result }
{
    put_number(number, out)?;
    put_priority(record.priority(), out)?;
    put_time(record.instant(), out)?;
    put_words(record, out)?;
    put_elements(record.structured().elements(), out)?;
    put_message(record.message().octets(), record.message().has_mark(), out)
}

/// Appends the fields of the record with this number, whole or not at all. Elements come in
/// ascending order of their ids. In values and in the message, octets that are not printable ASCII,
/// quotation marks and backslashes are shown as `\x` and two hexadecimal digits. It fails only when
/// out of memory.
pub fn put_record_lines(number: u64, record: &Record, out: &mut Vec<u8>) -> Result<(), AllocError>
    ensures ok { OnOk result (Adds (RecordLines number record.now) out.old.items out.new.items) }
    ensures err { OnErr result (out.new.items ≡ out.old.items) }
{
    let before = out.len();
    let put = append_record_lines(number, record, out);
    if put.is_err() {
        out.truncate(before);
    }
    put
}
