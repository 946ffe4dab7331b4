//! Records from octets, with memory of their own.

ghost use Rattle.std.specs.Prelude.{MatchResult};
ghost use Rattle.syslog_reading.specs.DecodeFaults.{IsDecodeFault};
ghost use Rattle.syslog_reading.specs.WellFormed.{WellFormed};

use crate::fault::Fault;
use crate::whole::view;
use std::alloc::Global;
use syslog_value::Record;
use thiserror::Error;

/// Why no record was made from octets.
#[derive(Clone, Copy, Debug, PartialEq, Eq, Error)]
pub enum DecodeFault {
    /// The octets are no well-formed record.
    #[error("{0}")]
    Bad(Fault),
    /// An allocation failed. The octets are a well-formed record.
    #[error("out of memory")]
    Memory,
}

/// The record that all of the octets spell, with memory of its own (RFC 5424, section 6).
///
/// A fault of the octets is reported before a lack of memory.
pub fn decode(alloc: Global, octets: &[u8]) -> Result<Record, DecodeFault>
    ensures { MatchResult result (λ r. WellFormed r octets.now) (IsDecodeFault octets.now) }
{
    let seen = match view(octets) {
        Ok(seen) => seen,
        Err(fault) => return Err(DecodeFault::Bad(fault)),
    };
    match seen.to_record(alloc) {
        Ok(record) => Ok(record),
        Err(_) => Err(DecodeFault::Memory),
    }
}
