//! The limits of frames and streams.

/// The most octets of a frame's record, in either framing.
pub const FRAME_MAX: usize = 262_144;

/// For how many octets of a record a growing scanner keeps room between two frames.
pub const ROOM_KEPT: usize = 4_096;

/// The greatest count that MSG-LEN can have: ten digits.
pub const COUNT_MAX: u64 = 9_999_999_999;

/// The last position in a stream, in octets: 2^62.
pub const POSITION_MAX: u64 = 4_611_686_018_427_387_904;
