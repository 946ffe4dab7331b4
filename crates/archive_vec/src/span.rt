//! Where the entries of an archive lie.

use syslog_value::Instant;

/// The most entries: their text has fewer than 2^64 octets, and no memory holds more of them.
pub const ENTRIES_MAX: usize = 1 << 44;

/// Where the canonical octets of an entry lie, and the instant of its record.
#[derive(Clone, Copy, Debug)]
pub struct EntrySpan {
    /// The instant of the record, if it has one.
    pub instant: Option<Instant>,
    /// The offset of the first octet in the vector of all octets.
    pub start: usize,
    /// How many octets there are.
    pub len: usize,
}
