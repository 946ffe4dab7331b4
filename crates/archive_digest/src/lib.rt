//! The digest of an archive of syslog records: for each month, day or hour that has records, how
//! many they are, how many octets their archive has, and its SHA-256. Two sites compare a few
//! lines, and send each other only the periods that differ.
//!
//! [`digest_stream`] writes it as the archive is read from a device, [`digest_stream_with_roots`] with
//! the root of a Merkle tree at the end of each line.
#![tactic(auto)]

mod counting;
mod digest;
mod digesting;
mod laws;
mod line;
mod name;
mod roots;
mod sum;
mod tally;

pub use archive_sets::SelectFault as DigestFault;
pub use archive_text::Period;
pub use digest::{digest_stream, digest_stream_with_roots};
pub use laws::digests_are_one;
