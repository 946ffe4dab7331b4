//! Where in a frame a scanner is.

/// Where in a frame a scanner is.
#[derive(Clone, Copy, Debug, PartialEq, Eq)]
pub enum Phase {
    /// In the digits of a count, or before them.
    Counting,
    /// In the record.
    Inside,
    /// After a whole frame.
    Ended,
    /// Before an octet with which no count can continue.
    BadCount,
    /// After such a count, for good.
    Failed,
}
