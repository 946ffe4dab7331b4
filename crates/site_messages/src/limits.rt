//! The limits of a message.

/// The most octets of a line that begins a message, without its line feed.
pub const LINE_MAX: u8 = 64;

/// The most octets of a place: those of the longest record of an archive.
pub const PLACE_MAX: usize = 524_295;

/// The most octets of the line of a part, or of a range.
pub const PART_MAX: usize = 1_048_832;

/// The most ranges of a request.
pub const RANGES_MAX: u64 = 1024;

/// The fewest parts that a range may be cut into at most.
pub const MOST_MIN: u64 = 2;

/// The most parts that a range is cut into.
pub const MOST_MAX: u64 = 16;

/// The most parts of an answer.
pub const PARTS_MAX: u64 = 16_384;

/// The most octets of the records, ranges or parts of a message, unless it is one.
pub const PAYLOAD_MAX: u64 = 16_777_216;

/// The most puts of an exchange.
pub const PUTS_MAX: u64 = 512;

/// What a put costs of the room at least, however few records it has: each may make 65 files of a store, of a
/// page of the disk each.
pub const PUT_COST: u64 = 266_240;

/// The most octets of a request, or of an answer.
pub const MESSAGE_MAX: u64 = 67_108_864;
