//! The two framings.

/// How records are framed on a stream (RFC 6587, 3.4).
#[derive(Clone, Copy, Debug, PartialEq, Eq)]
pub enum Framing {
    /// Octet counting (3.4.1): the record's length in decimal, a space, and the record.
    Counted,
    /// Non-transparent framing (3.4.2): the record and a line feed.
    Lf,
}
