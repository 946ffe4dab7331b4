//! What a set answers.

use crate::support::{answers_to, set_of};
use site_pipe::PipeFault;
use std::test::Fail;

// The parts of all places, the records of all places, a record that is put, and the end.
const ASKED: &[u8] =
    b"syslogbox reconcile 1\nparts 2\nrange - 0  open\nget 1\nrange - 0  open\nput 25\n22 <0>1 - - - - - - 00002end\n";

// The answers of a set with the record of 1, up to that to what is put.
const ANSWERED: &[u8] =
    b"parts 1\npart 1 25 724b9e2fcba1d161fa79522a7ed3986d25841d6d08fa4f2a5f163e79a1e6183e - 0  open\narchive 25\n22 <0>1 - - - - - - 00001";

// The text is the answers, between these lines.
fn expect(text: &[u8], first: &[u8], last: &[u8]) -> Result<(), Fail> {
    let answers = text.strip_prefix(first).ok_or("another first line")?;
    let end = answers.strip_prefix(ANSWERED).ok_or("another answer")?;
    if end != last {
        return Err("another last line".into());
    }
    Ok(())
}

#[test]
fn each_request_is_answered(rt: HostRuntime) -> Result<(), Fail> {
    let alloc = rt.alloc();
    for size in [1, 7, 4096] {
        let mut set = set_of(alloc, &[1])?;
        let (text, end) = answers_to(alloc, &mut set, false, 1_000_000, ASKED, size);
        assert!(rt; end.is_ok());
        assert_eq!(rt; set.len(), 2);
        expect(text.as_slice(), b"syslogbox answer 1\n", b"kept\n")?;
    }
    Ok(())
}

#[test]
fn a_set_that_is_read_only_stays(rt: HostRuntime) -> Result<(), Fail> {
    let alloc = rt.alloc();
    let mut set = set_of(alloc, &[1])?;
    let (text, end) = answers_to(alloc, &mut set, true, 1_000_000, ASKED, 4096);
    assert!(rt; end.is_ok());
    assert_eq!(rt; set.len(), 1);
    expect(
        text.as_slice(),
        b"syslogbox answer 1 read-only\n",
        b"refused\n",
    )
}

#[test]
fn what_may_not_be_asked_is_refused(rt: HostRuntime) -> Result<(), Fail> {
    let alloc = rt.alloc();
    for (request, fault) in [
        (b"parts 1\n".as_slice(), PipeFault::Lied),
        (b"parts 17\n", PipeFault::Lied),
        (b"parts 02\n", PipeFault::Lied),
        (b"parts 2\nrange - 0  - 1 a \n", PipeFault::Lied),
        (b"parts 2\nrange - 600000 ", PipeFault::Lied),
        (b"split 2 1025\n", PipeFault::Lied),
        (
            b"split 2 2\nrange - 0  - 1 b\nrange - 1 a open\n",
            PipeFault::Lied,
        ),
        (
            b"get 2\nrange - 0  open\nrange - 1 a open\n",
            PipeFault::Lied,
        ),
        (b"get 1\nrange - 1 b - 1 b\n", PipeFault::Lied),
        (b"put 16777217\n", PipeFault::Lied),
        (b"put 1000001\n", PipeFault::TooMuch),
        (b"put 6\n3 abc", PipeFault::Ended),
        (b"put 5\n3 abc", PipeFault::Lied),
        (b"syslogbox reconcile 1\n", PipeFault::Lied),
        (
            b"a line that is longer than any line that is a request of this version",
            PipeFault::Lied,
        ),
        (b"", PipeFault::Ended),
    ] {
        let mut set = set_of(alloc, &[1])?;
        let mut asked = Vec::from_slice(alloc, b"syslogbox reconcile 1\n")?;
        asked.extend_from_slice(request)?;
        let (text, end) = answers_to(alloc, &mut set, false, 1_000_000, asked.as_slice(), 1);
        assert_eq!(rt; text.as_slice(), b"syslogbox answer 1\nfailed\n".as_slice());
        assert!(rt; end == Err(fault));
    }
    Ok(())
}

#[test]
fn each_put_costs_room(rt: HostRuntime) -> Result<(), Fail> {
    let alloc = rt.alloc();
    let asked = b"syslogbox reconcile 1\nput 0\nput 0\nput 0\n";
    for (room, kept) in [(0, 0), (266_239, 0), (266_240, 1), (532_480, 2)] {
        let mut set = set_of(alloc, &[1])?;
        let (text, end) = answers_to(alloc, &mut set, false, room, asked, 4096);
        let lines = text.split(|octet| *octet == b'\n');
        assert_eq!(rt;
            lines.filter(|line| *line == b"kept".as_slice()).count(),
            kept
        );
        assert!(rt; end == Err(PipeFault::TooMuch));
    }
    Ok(())
}

#[test]
fn another_version_is_refused(rt: HostRuntime) -> Result<(), Fail> {
    let alloc = rt.alloc();
    let mut set = set_of(alloc, &[1])?;
    let (text, end) = answers_to(alloc, &mut set, false, 0, b"syslogbox reconcile 2\n", 4096);
    assert_eq!(rt; text.as_slice(), b"failed\n".as_slice());
    assert!(rt; end == Err(PipeFault::Version));
    Ok(())
}
