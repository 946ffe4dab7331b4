//! The canonical octets of a record whose parts are lent.

ghost use Rattle.syslog_fields.specs.Appending.{Appends, Puts};
ghost use Rattle.syslog_fields.specs.Canonical.{Canonical};
ghost use Rattle.syslog_grammar.specs.RecordFields.{field_parts};

use crate::canonical::{HeaderValues, octets_of, put_header, put_message_part};
use crate::canonical_data::put_elements;
use std::alloc::AllocError;
use syslog_value::{Instant, Message, Priority, StructuredData, Word};

/// The parts of a record, each where its owner keeps it; None for NILVALUE.
#[derive(Clone, Copy, Debug)]
pub struct RecordFields<'a> {
    /// PRI (RFC 5424, 6.2.1).
    pub priority: Priority,
    /// TIMESTAMP (6.2.3).
    pub instant: Option<Instant>,
    /// HOSTNAME (6.2.4).
    pub hostname: Option<&'a Word<255>>,
    /// APP-NAME (6.2.5).
    pub app_name: Option<&'a Word<48>>,
    /// PROCID (6.2.6).
    pub proc_id: Option<&'a Word<128>>,
    /// MSGID (6.2.7).
    pub msg_id: Option<&'a Word<32>>,
    /// STRUCTURED-DATA (6.3).
    pub structured: &'a StructuredData,
    /// MSG (6.4).
    pub message: &'a Message,
}

fn put_parts(fields: &RecordFields<'_>, out: &mut Vec<u8>) -> Result<(), AllocError>
    ensures { Puts (Canonical (field_parts fields.now)) out.old.items out.new.items result }
{
    let header = HeaderValues {
        priority: fields.priority,
        instant: fields.instant,
        hostname: octets_of(fields.hostname),
        app_name: octets_of(fields.app_name),
        proc_id: octets_of(fields.proc_id),
        msg_id: octets_of(fields.msg_id),
    };
    put_header(&header, out)?;
    put_elements(fields.structured.elements(), out)?;
    put_message_part(fields.message.octets(), fields.message.has_mark(), out)
}

/// Appends the canonical octets of the record of these parts, none of which is copied first.
///
/// If an allocation fails, the vector is unchanged.
pub fn write_canonical_fields(
    fields: &RecordFields<'_>,
    out: &mut Vec<u8>,
) -> Result<(), AllocError>
    ensures { Appends (Canonical (field_parts fields.now)) out.old.items out.new.items result }
{
    let start = out.len();
    let put = put_parts(fields, out);
    if put.is_err() {
        out.truncate(start);
    }
    put
}
