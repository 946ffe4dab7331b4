use std::alloc::Global;
use std::test::Fail;
use syslog_value::Message;

/// Whether the octets are refused as a message, and come back.
fn come_back(alloc: Global, octets: &[u8]) -> Result<bool, Fail> {
    let back = Message::any(octets.to_vec(alloc)?).err().ok_or("taken")?;
    Ok(back.as_slice() == octets)
}

/// Whether the octets are a message without the mark.
fn are_taken(alloc: Global, octets: &[u8]) -> Result<bool, Fail> {
    let message = Message::any(octets.to_vec(alloc)?).ok().ok_or("refused")?;
    Ok(message.octets() == octets && !message.has_mark())
}

#[test]
fn octets_behind_the_mark_come_back(rt: HostRuntime) -> Result<(), Fail> {
    for octets in [b"\xef\xbb\xbfA".as_slice(), b"\xef\xbb\xbf"] {
        assert!(rt; come_back(rt.alloc(), octets)?, "{octets:?}");
    }
    for octets in [b"".as_slice(), b"x", b"\xef", b"\xef\xbb", b"\xef\xbb\xbeA"] {
        assert!(rt; are_taken(rt.alloc(), octets)?, "{octets:?}");
    }
    Ok(())
}

/// Whether a message has these octets, behind the mark.
fn is_marked(message: &Message, octets: &[u8]) -> bool {
    message.has_mark() && message.octets() == octets
}

#[test]
fn a_text_stands_behind_the_mark(rt: HostRuntime) -> Result<(), Fail> {
    let message = Message::utf8(String::from_str(rt.alloc(), "caf\u{e9}")?);
    assert!(rt; is_marked(&message, b"caf\xc3\xa9"));
    assert!(rt; is_marked(&message.copy(rt.alloc())?, b"caf\xc3\xa9"));
    assert!(rt; !Message::empty(rt.alloc()).has_mark());
    Ok(())
}
