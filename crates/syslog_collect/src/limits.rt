//! The limits of connections.

/// How many connections a collector can have open at a time if nothing else is asked for.
pub const CONNECTIONS_MAX: usize = 64;

/// The most connections for which a collector can be made.
pub const CONNECTIONS_LIMIT: usize = 16_384;
