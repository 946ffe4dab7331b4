//! Archives in files.

use super::{run_over, run_with};
use commands::MemoryFile;
use driver::{DONE, FAULT};
use std::test::Fail;

const BA: &[u8] = b"45 <14>1 2024-02-29T23:30:00.000000Z h a - - - y19 <13>1 - h a - - - x";

const ACB: &[u8] =
    b"19 <13>1 - h a - - - x45 <12>1 2024-02-29T23:00:00.000000Z h a - - - z45 <14>1 2024-02-29T23:30:00.000000Z h a - - - y";

#[test]
fn a_name_without_a_file_is_reported(rt: HostRuntime) -> Result<(), Fail> {
    let files = [MemoryFile {
        name: "a",
        octets: b"x",
    }];
    let rows: [(&[&str], &[u8]); 4] = [
        (&["merge", "b", "a"], b"left no file\n"),
        (&["merge", "a", "b"], b"right no file\n"),
        (&["merge", "b", "c"], b"left no file\n"),
        (&["migrate", "b"], b"old no file\n"),
    ];
    for (words, notes) in rows {
        let ran = run_with(&rt, words, b"", &files)?;
        ran.expect(words, FAULT, b"", notes)?;
    }
    Ok(())
}

#[test]
fn archives_of_two_routes_are_joined(rt: HostRuntime) -> Result<(), Fail> {
    let one = run_over(&rt, &["archive", "--framing", "counted"], BA)?;
    let line = b"<12>1 2024-02-29T23:00:00Z h a - - - z\n";
    let two = run_over(&rt, &["archive", "--framing", "lf"], line)?;
    let files = [
        MemoryFile {
            name: "one",
            octets: one.output.as_slice(),
        },
        MemoryFile {
            name: "two",
            octets: two.output.as_slice(),
        },
    ];
    let ran = run_with(&rt, &["merge", "one", "two"], b"", &files)?;
    ran.expect(&["merge"], DONE, ACB, b"")
}
