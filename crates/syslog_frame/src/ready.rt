//! What a scanner has ready.

/// What a scanner has ready.
#[derive(Clone, Copy, Debug, PartialEq, Eq)]
pub enum Ready<'a> {
    /// The octets of a frame.
    Frame(&'a [u8]),
    /// A frame longer than `FRAME_MAX` has ended.
    TooLong,
    /// No MSG-LEN can continue with the octet at this position of the stream. That octet was not
    /// taken.
    BadCount { at: u64 },
}
