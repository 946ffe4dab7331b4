use std::alloc::Global;
use std::test::Fail;
use syslog_value::{SdName, WordFault};

/// Why the octets are no name.
fn refused(alloc: Global, octets: &[u8]) -> Option<WordFault> {
    SdName::new(alloc, octets).err()
}

/// Whether the octets are a name that has them, and equals its copy.
fn is_name(alloc: Global, octets: &[u8]) -> Result<bool, Fail> {
    let name = SdName::new(alloc, octets)?;
    Ok(name.bytes() == octets && name.copy(alloc)? == name)
}

#[test]
fn a_name_is_refused_for_its_first_fault(rt: HostRuntime) -> Result<(), Fail> {
    let long = [b'a'; 33];
    for (octets, fault) in [
        (b"".as_slice(), WordFault::Empty),
        (&long, WordFault::TooLong),
        (b"a=b", WordFault::BadOctet { offset: 1 }),
        (b"ab]", WordFault::BadOctet { offset: 2 }),
        (b"\"", WordFault::BadOctet { offset: 0 }),
        (b"a b", WordFault::BadOctet { offset: 1 }),
    ] {
        assert_eq!(rt; refused(rt.alloc(), octets), Some(fault));
    }
    for octets in [b"-".as_slice(), b"a", b"a@32473", &long[..32]] {
        assert!(rt; is_name(rt.alloc(), octets)?, "{octets:?}");
    }
    Ok(())
}
