//! Devices that fail, after so many octets or at a call.

use octet_devices::{
    DeviceFault, FromRead, Fuse, Input, Output, ReadAllFault, ToWrite, WriteFault, read_all,
    write_all,
};
use std::process::Abort;

/// The room of a read, its answer, and what is then in a buffer of three octets.
type Reading = (usize, Result<usize, DeviceFault>, [u8; 3]);

/// Fails at the first read that gives something else.
fn reads(rt: &impl Abort, octets: u64, calls: u64, readings: &[Reading]) {
    let mut fuse = Fuse::new(FromRead::new(b"abcdef".as_slice()), octets, calls);
    let mut buf = *b"---";
    for (room, answer, left) in readings {
        assert_eq!(rt; fuse.read(&mut buf[..*room.min(&3)]), *answer);
        assert_eq!(rt; buf, *left);
    }
}

#[test]
fn so_many_octets_pass_and_then_every_call_fails(rt: HostRuntime) {
    let readings = [
        (3, Ok(3), *b"abc"),
        (3, Ok(2), *b"dec"),
        (3, Err(DeviceFault), *b"dec"),
        (0, Err(DeviceFault), *b"dec"),
    ];
    reads(&rt, 5, 9, &readings);
}

#[test]
fn one_call_fails_and_the_later_ones_go_on(rt: HostRuntime) {
    let readings = [
        (2, Ok(2), *b"ab-"),
        (2, Err(DeviceFault), *b"ab-"),
        (2, Ok(2), *b"cd-"),
    ];
    reads(&rt, 9, 1, &readings);
}

#[test]
fn a_longer_write_passes_what_is_left(rt: HostRuntime) {
    let mut fuse = Fuse::new(ToWrite::new(Vec::new(rt.alloc())), 5, 9);
    let rows: [(&[u8], Result<usize, DeviceFault>); 3] = [
        (b"abc", Ok(3)),
        (b"defg", Ok(2)),
        (b"f", Err(DeviceFault)),
    ];
    for (octets, answer) in rows {
        assert_eq!(rt; fuse.write(octets), answer);
    }
    let taken = fuse.into_inner().into_inner();
    assert_eq!(rt; taken.as_slice(), b"abcde".as_slice());
}

#[test]
fn a_reader_that_fails_is_told(rt: HostRuntime) {
    let mut reader = Fuse::new(FromRead::new(b"abcdef".as_slice()), 9, 1);
    let found = read_all(rt.alloc(), &mut reader, 9).err();
    assert_eq!(rt; found, Some(ReadAllFault::Device));
}

#[test]
fn a_writer_that_fails_is_told(rt: HostRuntime) {
    let mut writer = Fuse::new(ToWrite::new(Vec::new(rt.alloc())), 5, 9);
    let written = write_all(&mut writer, b"abcdef");
    assert_eq!(rt; written, Err(WriteFault { sent: 5 }));
    let taken = writer.into_inner().into_inner();
    assert_eq!(rt; taken.as_slice(), b"abcde".as_slice());
}
