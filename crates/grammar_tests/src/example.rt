//! The example of the README.

use std::alloc::{AllocError, Global};
use std::test::Fail;
use syslog_grammar::{Fault, view, write_canonical_view};

/// Appends the canonical form of a record to `out`. If the octets are no record, the answer is
/// their fault; out of memory, `out` is as it was.
fn normalize(alloc: Global, octets: &[u8], out: &mut Vec<u8>) -> Result<Option<Fault>, AllocError> {
    match view(octets) {
        Ok(record) => {
            write_canonical_view(alloc, &record, out)?;
            Ok(None)
        }
        Err(fault) => Ok(Some(fault)),
    }
}

#[test]
fn a_record_is_normalized(rt: HostRuntime) -> Result<(), Fail> {
    let mut out = Vec::new(rt.alloc());
    let text = b"<14>1 2024-03-01T00:30:00+01:00 h a - - -";
    assert_eq!(rt; normalize(rt.alloc(), text, &mut out)?, None);
    let canonical = b"<14>1 2024-02-29T23:30:00.000000Z h a - - -";
    assert_eq!(rt; out.as_slice(), canonical.as_slice());
    assert!(rt; normalize(rt.alloc(), b"<192>1", &mut out)?.is_some());
    Ok(())
}
