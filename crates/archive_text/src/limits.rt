//! The limit of an archive.

/// The most octets of a canonical record in an archive: seven more than twice those of the longest
/// frame. The record of every frame fits.
pub const ENTRY_MAX: usize = 524_295;
