//! The public calls that many tests make, without their clauses: so the proof of a test does not read
//! what they promise.

use std::alloc::{AllocError, Global};
use std::test::Fail;
use syslog_grammar::{
    DecodeFault, Fault, RecordView, canon, decode, fault_of, is_canon, is_canon_unsorted, view,
};
use syslog_value::Record;

/// The view of a record, or the fault of the octets.
pub fn seen(octets: &[u8]) -> Result<RecordView<'_>, Fault> {
    view(octets)
}

/// The fault of the octets, without a view.
pub fn fault(octets: &[u8]) -> Option<Fault> {
    fault_of(octets)
}

/// The record that the octets are, by its view.
pub fn record_of(alloc: Global, octets: &[u8]) -> Result<Record, Fail> {
    let seen = seen(octets).ok().ok_or("a fault")?;
    Ok(seen.to_record(alloc)?)
}

/// The record that the octets are, or why there is none.
pub fn decoded(alloc: Global, octets: &[u8]) -> Result<Record, DecodeFault> {
    decode(alloc, octets)
}

/// The canonical octets of a record.
pub fn canonical_octets(alloc: Global, record: &Record) -> Result<Vec<u8>, AllocError> {
    canon(alloc, record)
}

/// Whether the octets are the canonical form of a record.
pub fn is_canonical(octets: &[u8]) -> bool {
    is_canon(octets)
}

/// Whether they are, except for the order of the elements.
pub fn is_canonical_unsorted(octets: &[u8]) -> bool {
    is_canon_unsorted(octets)
}
