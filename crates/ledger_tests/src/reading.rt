//! Ledgers are read whole.

use crate::ledgers::LINES;
use ledger::{ChainHead, LedgerFault, LedgerRead, read_ledger};
use octet_devices::{DeviceFault, FromRead, Fuse};
use std::alloc::{AllocError, Global};
use std::test::Fail;

// Some lines, each with its line feed.
fn text_of(alloc: Global, lines: &[&str]) -> Result<Vec<u8>, AllocError> {
    let mut text = Vec::new(alloc);
    for line in lines {
        text.extend_from_slice(line.as_bytes())?;
        text.extend_from_slice(b"\n")?;
    }
    Ok(text)
}

fn read(alloc: Global, text: &[u8]) -> Result<LedgerRead, LedgerFault> {
    read_ledger(alloc, &mut FromRead::new(text), None)
}

// How many octets the whole lines of a text have.
fn whole(text: &[u8]) -> usize {
    match text.iter().rposition(|octet| *octet == b'\n') {
        Some(at) => at + 1,
        None => 0,
    }
}

#[test]
fn a_ledger_is_read_to_its_last_line_feed(rt: HostRuntime) -> Result<(), Fail> {
    let text = text_of(rt.alloc(), &LINES)?;
    for end in 0..text.len() + 1 {
        let front = &text[..end];
        let found = read(rt.alloc(), front)?;
        assert_eq!(rt; found.whole, whole(front) as u64);
    }
    let found = read(rt.alloc(), &text)?;
    assert_eq!(rt; Some(found.head), ChainHead::behind(LINES[5].as_bytes()));
    Ok(())
}

#[test]
fn a_changed_octet_breaks_the_chain(rt: HostRuntime) -> Result<(), Fail> {
    let mut text = text_of(rt.alloc(), &LINES)?;
    let last = text.len().saturating_sub(1);
    for at in 0..last {
        let begin = whole(&text[..at]) as u64;
        text[at] ^= 1;
        let found = read(rt.alloc(), &text).err();
        assert_eq!(rt; found, Some(LedgerFault::Broken { at: begin }));
        text[at] ^= 1;
    }
    Ok(())
}

#[test]
fn a_line_that_is_left_out_breaks_the_chain(rt: HostRuntime) -> Result<(), Fail> {
    let text = text_of(rt.alloc(), &[LINES[0], LINES[2]])?;
    let at = LINES[0].len() as u64 + 1;
    assert_eq!(rt;
        read(rt.alloc(), &text).err(),
        Some(LedgerFault::Broken { at })
    );
    let text = text_of(rt.alloc(), &LINES[1..])?;
    assert_eq!(rt;
        read(rt.alloc(), &text).err(),
        Some(LedgerFault::Broken { at: 0 })
    );
    Ok(())
}

#[test]
fn a_text_that_is_too_long_is_no_line(rt: HostRuntime) -> Result<(), Fail> {
    for (len, fault) in [(511, None), (512, Some(LedgerFault::Broken { at: 0 }))] {
        let text = vec![in rt.alloc(); b'1'; len]?;
        assert_eq!(rt; read(rt.alloc(), &text).err(), fault);
    }
    Ok(())
}

#[test]
fn a_line_is_found(rt: HostRuntime) -> Result<(), Fail> {
    let text = text_of(rt.alloc(), &LINES[..4])?;
    for (line, found) in [
        (LINES[0], true),
        (LINES[3], true),
        (LINES[4], false),
        ("", false),
    ] {
        let read = read_ledger(
            rt.alloc(),
            &mut FromRead::new(text.as_slice()),
            Some(line.as_bytes()),
        )?;
        assert_eq!(rt; read.has_line, found);
    }
    Ok(())
}

#[test]
fn a_fault_of_the_input_is_told(rt: HostRuntime) -> Result<(), Fail> {
    let text = text_of(rt.alloc(), &LINES)?;
    let mut input = Fuse::new(FromRead::new(text.as_slice()), 300, u64::MAX);
    let fault = read_ledger(rt.alloc(), &mut input, None).err();
    assert_eq!(rt; fault, Some(LedgerFault::Input(DeviceFault)));
    Ok(())
}
