//! Devices that fail, each at some offset.

use super::{HELLO, Ran, status_of};
use driver::{DONE, FAULT};
use octet_devices::{FromRead, Fuse, ToWrite};
use std::test::Fail;

// two records, and a line between them that is none
const STREAM: &[u8] = b"<0>1 - - - - - -\nx\n<1>1 - - - - - -\n";

// words and an input; how many calls of the reader succeed, and how many octets the writer and the
// notes accept; the output and the notes
type Row<'a> = (&'a [&'a str], &'a [u8], (u64, u64, u64), &'a [u8], &'a [u8]);

// a run whose reader fails at a call, and whose writer and notes fail after so many octets
fn run_on_fuses(
    rt: &HostRuntime,
    words: &[&str],
    input: &[u8],
    reads: u64,
    writes: u64,
    lines: u64,
) -> Result<Ran, Fail> {
    let alloc = rt.alloc();
    let mut reader = Fuse::new(FromRead::new(input), u64::MAX, reads);
    let mut writer = Fuse::new(ToWrite::new(Vec::new(alloc)), writes, u64::MAX);
    let mut notes = Fuse::new(ToWrite::new(Vec::new(alloc)), lines, u64::MAX);
    let status = status_of(alloc, words, &mut reader, &mut writer, &mut notes, &[])?;
    Ok(Ran {
        status,
        output: writer.into_inner().into_inner(),
        notes: notes.into_inner().into_inner(),
    })
}

#[test]
fn a_device_that_fails_is_reported(rt: HostRuntime) -> Result<(), Fail> {
    let most = u64::MAX;
    let rows: [Row<'_>; 15] = [
        // the first or the second read fails, before any octet is written
        (&["convert"], HELLO, (0, most, most), b"", b"read fault\n"),
        (&["convert"], HELLO, (1, most, most), b"", b"read fault\n"),
        // the writer takes five octets, or none
        (
            &["convert"],
            HELLO,
            (most, 5, most),
            b"<165>",
            b"write fault\n",
        ),
        (&["check"], HELLO, (most, 0, most), b"", b"write fault\n"),
        // the notes take three octets or none, and nothing more is printed
        (&["convert"], b"", (most, most, 3), b"", b"1 s"),
        (&["convert"], HELLO, (0, most, 4), b"", b"read"),
        (&["convert"], HELLO, (most, 5, 0), b"<165>", b""),
        (&["konvert"], HELLO, (most, most, 0), b"", b""),
        // a stream: what was handled is written before the fault is reported
        (
            &["check", "--framing", "lf"],
            STREAM,
            (1, most, most),
            b"1 ok\n2 syntax priority 0\n3 ok\n",
            b"read fault\n",
        ),
        (
            &["convert", "--framing", "lf"],
            STREAM,
            (1, most, most),
            b"<0>1 - - - - - -\n<1>1 - - - - - -\n",
            b"2 syntax priority 0\nread fault\n",
        ),
        // an archive: lines met before are written before that on the fault, and no archive
        (
            &["archive", "--framing", "lf"],
            STREAM,
            (1, most, most),
            b"",
            b"2 syntax priority 0\nread fault\n",
        ),
        (
            &["archive", "--framing", "lf"],
            STREAM,
            (most, 5, most),
            b"16 <0",
            b"2 syntax priority 0\nwrite fault\n",
        ),
        (
            &["archive", "--framing", "lf"],
            STREAM,
            (most, most, 0),
            b"",
            b"",
        ),
        (&["archive"], HELLO, (0, most, most), b"", b"read fault\n"),
        // records are written though the lines on others cannot be
        (
            &["convert", "--framing", "lf"],
            STREAM,
            (most, most, 0),
            b"<0>1 - - - - - -\n<1>1 - - - - - -\n",
            b"",
        ),
    ];
    for (words, input, (reads, writes, lines), output, notes) in rows {
        let ran = run_on_fuses(&rt, words, input, reads, writes, lines)?;
        ran.expect(words, FAULT, output, notes)?;
    }
    let ran = run_on_fuses(&rt, &["convert"], HELLO, 2, most, most)?;
    ran.expect(&["convert"], DONE, HELLO, b"")
}
