//! How much of an input a run reads.

/// How much of an input is read.
#[derive(Clone, Copy, Debug, PartialEq, Eq)]
pub enum ReadLimit {
    /// At most `READER_CALLS` calls of the reader, of `READ_MAX` octets each: 4 GiB.
    Standard,
    /// At most `ENDLESS_CALLS` calls, of `ENDLESS_READ_MAX` octets each: as long as an input may be.
    Unlimited,
}

/// How many octets are asked of a reader per call at most, where its input may have any length.
pub const ENDLESS_READ_MAX: usize = 262_144;

/// How often such a reader is called at most: for more octets than any input has.
pub const ENDLESS_CALLS: u64 = 17_592_186_044_416;

/// The most octets that a run gives to a session.
pub const INPUT_MAX: u64 = 4_611_686_018_427_387_904;
