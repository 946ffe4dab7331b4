//! Lines are made, and followed.

use crate::ledgers::{FIRST, LINES, TIMES, entries, entry};
use ledger::{ChainHead, Event, LedgerEntry};
use std::test::Fail;

fn says_same(one: &LedgerEntry<'_>, other: &LedgerEntry<'_>) -> bool {
    one.event == other.event
        && one.name == other.name
        && one.count == other.count
        && one.octets == other.octets
}

#[test]
fn lines_are_made_and_followed(rt: HostRuntime) -> Result<(), Fail> {
    let mut head = ChainHead::start();
    for ((line, time), said) in LINES.iter().zip(TIMES).zip(entries()) {
        let made = head.next_line(rt.alloc(), time, &said)?.ok_or("no line")?;
        let (body, end) = made.split_at(line.len().min(made.len()));
        assert_eq!(rt; body, line.as_bytes());
        assert_eq!(rt; end, b"\n".as_slice());
        let (read, next) = head.follow(line.as_bytes()).ok_or("no line")?;
        assert!(rt; says_same(&read, &said));
        assert_eq!(rt; ChainHead::behind(line.as_bytes()), Some(next));
        head = next;
    }
    assert_eq!(rt; head.number(), 6);
    Ok(())
}

#[test]
fn what_is_no_word_makes_no_line(rt: HostRuntime) -> Result<(), Fail> {
    let head = ChainHead::start();
    let good = entry(Event::Added, FIRST, 0, 0);
    for time in [
        b"".as_slice(),
        b"a b",
        b"a\n",
        b"0123456789012345678901234567890123",
    ] {
        assert_eq!(rt; head.next_line(rt.alloc(), time, &good)?.is_none(), true);
    }
    for event in [Event::Sealed([b'g'; 64]), Event::Sealed([b'A'; 64])] {
        let line = head.next_line(rt.alloc(), b"now", &entry(event, FIRST, 0, 0))?;
        assert_eq!(rt; line.is_none(), true);
    }
    Ok(())
}

#[test]
fn the_last_number_has_no_next_line(rt: HostRuntime) -> Result<(), Fail> {
    let mut line = b"18446744073709551615 now add a 0 0 ".to_vec(rt.alloc())?;
    line.extend_from_slice(&[b'0'; 64])?;
    let head = ChainHead::behind(&line).ok_or("no line")?;
    let next = head.next_line(rt.alloc(), b"now", &entry(Event::Added, FIRST, 0, 0))?;
    assert_eq!(rt; next.is_none(), true);
    assert_eq!(rt; head.follow(&line).is_none(), true);
    Ok(())
}

#[test]
fn a_line_has_one_text(rt: HostRuntime) -> Result<(), Fail> {
    for body in [
        "0 now add a 0 0",
        "01 now add a 0 0",
        "1 now add a 0 00",
        "1  now add a 0 0",
        "1 now came a 0 0",
        "1 now add a 0 0 expired",
        "1 now gone a 0 0",
        "1 now gone a 0 0 joined",
        "1 now seal a 0 0 e3",
        "18446744073709551616 now add a 0 0",
    ] {
        let mut line = body.as_bytes().to_vec(rt.alloc())?;
        line.push(b' ')?;
        line.extend_from_slice(&[b'0'; 64])?;
        assert_eq!(rt; ChainHead::behind(&line).is_none(), true);
    }
    Ok(())
}
