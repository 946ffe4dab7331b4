//! The canonical octets of a record: its header and its message.

ghost use Rattle.std.specs.Prelude.{◌≡◌, ◌∷◌, [], IfOk, if◌then◌else◌, option_map};
ghost use Rattle.std.specs.Option.{option_copied};
ghost use Rattle.octet_language.specs.Language.{◌⋅◌, Only};
ghost use Rattle.syslog_value.specs.Instants.{IsCivil};
ghost use Rattle.syslog_value.specs.Parts.{AnyOctets, Utf8Text};
ghost use Rattle.syslog_fields.specs.Appending.{Puts};
ghost use Rattle.syslog_fields.specs.Canonical.{Canonical, HeaderForm, SpacedWord, TimeForm};
ghost use Rattle.syslog_fields.specs.Canonical.{priority_version_form, message_form};

use crate::canonical_data::put_elements;
use crate::canonical_len::canonical_len;
use crate::civil_text::civil_text;
use itoa::Buffer;
use std::alloc::{AllocError, Global};
use syslog_fields::appending::put;
use syslog_value::{Instant, Priority, Record, Word};

/// The fields before the structured data, as a record or its octets lend them; None for NILVALUE.
#[derive(Clone, Copy)]
pub struct HeaderValues<'a> {
    /// PRI (RFC 5424, 6.2.1).
    pub priority: Priority,
    /// TIMESTAMP (6.2.3).
    pub instant: Option<Instant>,
    /// HOSTNAME (6.2.4).
    pub hostname: Option<&'a [u8]>,
    /// APP-NAME (6.2.5).
    pub app_name: Option<&'a [u8]>,
    /// PROCID (6.2.6).
    pub proc_id: Option<&'a [u8]>,
    /// MSGID (6.2.7).
    pub msg_id: Option<&'a [u8]>,
}

/// Appends PRI, VERSION and a space. If memory is refused, a part may have been appended.
#[inline(always)]
pub fn put_priority_version(priority: Priority, out: &mut Vec<u8>) -> Result<(), AllocError>
    ensures { Puts (Only (priority_version_form priority)) out.old.items out.new.items result }
{
    let mut buffer = Buffer::new();
    put(b"<", out)?;
    put(buffer.format(priority.value()).as_bytes(), out)?;
    put(b">1 ", out)
}

/// Appends the canonical timestamp, or NILVALUE. If memory is refused, a part may have been
/// appended.
#[inline(always)]
pub fn put_time(instant: Option<Instant>, out: &mut Vec<u8>) -> Result<(), AllocError>
    ensures { Puts (TimeForm instant) out.old.items out.new.items result }
{
    match instant {
        None => put(b"-", out),
        Some(instant) => put(&civil_text(instant.civil()), out),
    }
}

/// Appends a word or NILVALUE, and a space.
#[inline(always)]
fn put_word(word: Option<&[u8]>, out: &mut Vec<u8>) -> Result<(), AllocError>
    ensures { Puts (SpacedWord (option_map (λ s. s.now) word.entry))
        out.old.items out.new.items result }
{
    match word {
        None => put(b"- ", out),
        Some(word) => {
            put(word, out)?;
            put(b" ", out)
        }
    }
}

/// Appends the header and the space that follows it. If memory is refused, a part may have been
/// appended.
pub fn put_header(fields: &HeaderValues<'_>, out: &mut Vec<u8>) -> Result<(), AllocError>
    ensures { Puts (HeaderForm fields.now.priority fields.now.instant
        (option_map (λ s. s.now) fields.now.hostname) (option_map (λ s. s.now) fields.now.app_name)
        (option_map (λ s. s.now) fields.now.proc_id) (option_map (λ s. s.now) fields.now.msg_id))
        out.old.items out.new.items result }
{
    put_priority_version(fields.priority, out)?;
    put_time(fields.instant, out)?;
    put(b" ", out)?;
    put_word(fields.hostname, out)?;
    put_word(fields.app_name, out)?;
    put_word(fields.proc_id, out)?;
    put_word(fields.msg_id, out)
}

/// Appends what follows the structured data: nothing, or a space and the message. If memory is
/// refused, a part may have been appended.
pub fn put_message_part(octets: &[u8], has_mark: bool, out: &mut Vec<u8>) -> Result<(), AllocError>
    ensures { Puts (Only (message_form
        (if has_mark then Utf8Text octets.now else AnyOctets octets.now)))
        out.old.items out.new.items result }
{
    if has_mark {
        put(b" \xef\xbb\xbf", out)?;
        return put(octets, out);
    }
    if octets.is_empty() {
        return Ok(());
    }
    put(b" ", out)?;
    put(octets, out)
}

/// The octets of a word, if there is one.
pub fn octets_of<const N: usize>(word: Option<&Word<N>>) -> Option<&[u8]>
    ensures { option_map (λ s. s.now) result ≡ option_copied word.entry }
{
    match word {
        None => None,
        Some(word) => Some(word.bytes()),
    }
}

/// Appends the canonical octets of a record; if memory is refused, possibly a part of them.
pub fn put_record(record: &Record, out: &mut Vec<u8>) -> Result<(), AllocError>
    ensures { Puts (Canonical record.now) out.old.items out.new.items result }
{
    let fields = HeaderValues {
        priority: record.priority(),
        instant: record.instant(),
        hostname: octets_of(record.hostname()),
        app_name: octets_of(record.app_name()),
        proc_id: octets_of(record.proc_id()),
        msg_id: octets_of(record.msg_id()),
    };
    put_header(&fields, out)?;
    put_elements(record.structured().elements(), out)?;
    put_message_part(record.message().octets(), record.message().has_mark(), out)
}

/// The canonical octets of a record. It fails only when out of memory.
pub fn canon(alloc: Global, record: &Record) -> Result<Vec<u8>, AllocError>
    ensures { IfOk result (λ octets. Canonical record.now octets.items) }
{
    let mut out = Vec::with_capacity(alloc, canonical_len(record))?;
    put_record(record, &mut out)?;
    Ok(out)
}
