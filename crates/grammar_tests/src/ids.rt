//! Records with many ids, and ids that have the same hash.

use crate::calls::{is_canonical_unsorted, seen};
use std::alloc::{AllocError, Global};
use std::test::Fail;
use syslog_grammar::Fault;

/// The letter with this number.
fn letter(n: u32) -> u8 {
    b'A' + (n % 24) as u8
}

/// A record with so many ids of four letters, in no particular order: IQMP is the first.
fn scattered(alloc: Global, count: u32) -> Result<Vec<u8>, AllocError> {
    let mut out = b"<0>1 - - - - - ".to_vec(alloc)?;
    let mut n: u32 = 100;
    for _ in 0..count {
        n = n.wrapping_add(120_011) % 331_776;
        let id = [
            letter(n / 13_824),
            letter(n / 576),
            letter(n / 24),
            letter(n),
        ];
        out.extend_from_slice(b"[")?;
        out.extend_from_slice(&id)?;
        out.extend_from_slice(b"]")?;
    }
    Ok(out)
}

/// The offset of the id that is repeated.
fn repeated(octets: &[u8]) -> Option<usize> {
    match seen(octets) {
        Err(Fault::RepeatedId { offset }) => Some(offset),
        _ => None,
    }
}

#[test]
fn scattered_ids_differ_until_one_comes_again(rt: HostRuntime) -> Result<(), Fail> {
    for count in [2, 7, 8, 9, 16, 17, 40, 41, 200, 700, 3_000, 12_000, 40_000] {
        let mut octets = scattered(rt.alloc(), count)?;
        assert!(rt; seen(octets.as_slice()).is_ok());
        assert!(rt; is_canonical_unsorted(octets.as_slice()));
        let offset = octets.len().saturating_add(1);
        octets.extend_from_slice(b"[IQMP][z][z]")?;
        assert!(rt; repeated(octets.as_slice()) == Some(offset));
        assert!(rt; !is_canonical_unsorted(octets.as_slice()));
    }
    Ok(())
}

/// Both ids have the same hash under the first multiplier.
const SAME_HASH: [(&[u8], Option<usize>); 4] = [
    (b"<0>1 - - - - - [Oqg0060][AAAXZaf]", None),
    (b"<0>1 - - - - - [Oqg0060][AAAXZaf][c][b]", None),
    (b"<0>1 - - - - - [Oqg0060][AAAXZaf][Oqg0060]", Some(34)),
    (b"<0>1 - - - - - [Oqg0060][AAAXZaf][c][b][c]", Some(40)),
];

#[test]
fn ids_of_one_hash_are_told_apart(rt: HostRuntime) {
    for (octets, offset) in SAME_HASH {
        assert!(rt; seen(octets).is_ok() == offset.is_none());
        assert!(rt; repeated(octets) == offset);
    }
}
