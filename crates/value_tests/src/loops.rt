//! Inputs that are read to their ends, and texts that are written.

use octet_devices::{FromRead, READ_MAX, READER_CALLS, ReadAllFault, ToWrite, read_all, write_all};
use std::alloc::Global;
use std::io::Read;
use std::test::Fail;

/// What is kept of a reader that is read to its end.
fn kept<R: Read + Drop>(alloc: Global, reader: R, limit: usize) -> Result<Vec<u8>, ReadAllFault> {
    read_all(alloc, &mut FromRead::new(reader), limit)
}

#[test]
fn an_input_is_read_to_its_end_and_its_prefix_is_kept(rt: HostRuntime) -> Result<(), Fail> {
    for (limit, prefix) in [(0, ""), (3, "hel"), (5, "hello"), (9, "hello")] {
        let kept = kept(rt.alloc(), b"hello".as_slice(), limit)?;
        assert_eq!(rt; kept.as_slice(), prefix.as_bytes());
    }
    Ok(())
}

#[test]
fn a_long_input_is_read_in_many_pieces(rt: HostRuntime) -> Result<(), Fail> {
    let long = vec![in rt.alloc(); 7u8; 20_000]?;
    assert!(rt; kept(rt.alloc(), long.as_slice(), 65_536)? == long);
    Ok(())
}

#[test]
fn an_input_without_an_end_is_told(rt: HostRuntime) {
    let found = kept(rt.alloc(), std::io::repeat(7), 5).err();
    assert_eq!(rt; found, Some(ReadAllFault::Endless));
}

#[test]
fn an_end_at_the_last_call_is_in_time(rt: HostRuntime) {
    let most = (READER_CALLS - 1) * READ_MAX as u64;
    for (octets, fault) in [(most, None), (most + 1, Some(ReadAllFault::Endless))] {
        let found = kept(rt.alloc(), std::io::repeat(7).take(octets), 5).err();
        assert_eq!(rt; found, fault);
    }
}

#[test]
fn a_whole_text_is_written(rt: HostRuntime) {
    let mut writer = ToWrite::new(Vec::new(rt.alloc()));
    for text in [b"hello".as_slice(), b""] {
        assert_eq!(rt; write_all(&mut writer, text), Ok(()));
    }
    assert_eq!(rt; writer.into_inner().as_slice(), b"hello".as_slice());
}
