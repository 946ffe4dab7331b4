//! Why octets are no well-formed record.

use thiserror::Error;

/// The field of a record in which a fault of the syntax lies.
#[derive(Clone, Copy, Debug, PartialEq, Eq)]
pub enum Field {
    /// PRI (RFC 5424, section 6.2.1).
    Priority,
    /// VERSION (6.2.2).
    Version,
    /// TIMESTAMP (6.2.3).
    Timestamp,
    /// HOSTNAME (6.2.4).
    Hostname,
    /// APP-NAME (6.2.5).
    AppName,
    /// PROCID (6.2.6).
    ProcId,
    /// MSGID (6.2.7).
    MsgId,
    /// STRUCTURED-DATA (6.3).
    StructuredData,
    /// MSG (6.4).
    Message,
}

/// Why octets are no well-formed record. Offsets count octets from the start of the record, from 0.
#[derive(Clone, Copy, Debug, PartialEq, Eq, Error)]
pub enum Fault {
    /// The octets are outside the grammar: some text of it (SYSLOG-MSG, RFC 5424, section 6) begins
    /// with the octets before the offset, and none begins with one octet more.
    #[error("a syntax error at octet {offset}")]
    Syntax { field: Field, offset: usize },
    /// The instant lies before the year 0 or after the year 9999. The offset is that of the
    /// timestamp.
    #[error("the instant at octet {offset} is out of range")]
    InstantRange { offset: usize },
    /// An id occurs twice in the structured data. The offset is that of the first id that repeats
    /// an earlier one.
    #[error("the id at octet {offset} is repeated")]
    RepeatedId { offset: usize },
}
