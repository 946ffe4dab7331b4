use std::alloc::Global;
use std::test::Fail;
use syslog_value::{Word, WordFault};

/// Why the octets are no word.
fn refused(alloc: Global, octets: &[u8]) -> Option<WordFault> {
    Word::<48>::new(alloc, octets).err()
}

/// Whether the octets are a word that has them, and equals its copy.
fn is_word(alloc: Global, octets: &[u8]) -> Result<bool, Fail> {
    let word = Word::<48>::new(alloc, octets)?;
    Ok(word.bytes() == octets && word.copy(alloc)? == word)
}

#[test]
fn a_word_is_refused_for_its_first_fault(rt: HostRuntime) -> Result<(), Fail> {
    let long = [b'a'; 49];
    for (octets, fault) in [
        (b"".as_slice(), WordFault::Empty),
        (b"-", WordFault::Nil),
        (&long, WordFault::TooLong),
        (b"a b", WordFault::BadOctet { offset: 1 }),
        (b"\x7f", WordFault::BadOctet { offset: 0 }),
        (b"ab\xc3\xa9", WordFault::BadOctet { offset: 2 }),
    ] {
        assert_eq!(rt; refused(rt.alloc(), octets), Some(fault));
    }
    for octets in [
        b"su".as_slice(),
        b"--",
        b"!",
        b"~",
        b"[a=\"b\"]",
        &long[..48],
    ] {
        assert!(rt; is_word(rt.alloc(), octets)?, "{octets:?}");
    }
    Ok(())
}
