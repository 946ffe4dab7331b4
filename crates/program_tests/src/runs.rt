//! Runs over devices in memory.

mod archives;
mod devices;

use commands::{MemoryFile, MemoryFiles, run};
use driver::FAULT;
use octet_devices::{FromRead, Input, Output, ToWrite};
use std::alloc::Global;
use std::test::Fail;

const HELLO: &[u8] = b"<165>1 - - - - - - hello";

// what a run over memory returns and writes
#[derive(Drop)]
struct Ran {
    status: u8,
    output: Vec<u8>,
    notes: Vec<u8>,
}

impl Ran {
    // fails unless the run of these words had this status, output and notes
    fn expect(&self, words: &[&str], status: u8, output: &[u8], notes: &[u8]) -> Result<(), Fail> {
        if self.status == status
            && self.output.as_slice() == output
            && self.notes.as_slice() == notes
        {
            return Ok(());
        }
        Err(Fail::new(format_args!(
            "{words:?}: {}, {:?}, {:?}",
            self.status, self.output, self.notes
        )))
    }
}

// the status of a run over these devices and files
fn status_of<R: Input, W: Output, N: Output>(
    alloc: Global,
    words: &[&str],
    input: &mut R,
    output: &mut W,
    notes: &mut N,
    files: &[MemoryFile<'_>],
) -> Result<u8, Fail> {
    let mut owned = Vec::new(alloc);
    for word in words {
        owned.push(String::from_str(alloc, word)?)?;
    }
    let mut files = MemoryFiles::new(files);
    Ok(run(alloc, owned.as_slice(), input, output, notes, &mut files))
}

fn run_with(
    rt: &HostRuntime,
    words: &[&str],
    input: &[u8],
    files: &[MemoryFile<'_>],
) -> Result<Ran, Fail> {
    let alloc = rt.alloc();
    let mut reader = FromRead::new(input);
    let mut writer = ToWrite::new(Vec::new(alloc));
    let mut notes = ToWrite::new(Vec::new(alloc));
    let status = status_of(alloc, words, &mut reader, &mut writer, &mut notes, files)?;
    Ok(Ran {
        status,
        output: writer.into_inner(),
        notes: notes.into_inner(),
    })
}

fn run_over(rt: &HostRuntime, words: &[&str], input: &[u8]) -> Result<Ran, Fail> {
    let other = MemoryFile {
        name: "other",
        octets: input,
    };
    run_with(rt, words, input, &[other])
}

// words and an input, and the status, the output and the notes
type Row<'a> = (&'a [&'a str], &'a [u8], u8, &'a [u8], &'a [u8]);

// fails at the first row whose run has another status, output or notes
fn runs(rt: &HostRuntime, rows: &[Row<'_>]) -> Result<(), Fail> {
    for (words, input, status, output, notes) in rows {
        let ran = run_over(rt, words, input)?;
        ran.expect(words, *status, output, notes)?;
    }
    Ok(())
}

#[test]
fn what_only_a_program_has_is_a_fault(rt: HostRuntime) -> Result<(), Fail> {
    let rows: [(&[&str], &[u8]); 15] = [
        (&["archive", "--spill", "d"], b"spill fault\n"),
        (&["read", "d"], b"store fault\n"),
        (&["follow", "d"], b"store fault\n"),
        (&["verify", "d"], b"store fault\n"),
        (&["stat", "d"], b"store fault\n"),
        (&["compact", "d"], b"store fault\n"),
        (&["add", "d"], b"store fault\n"),
        (&["expire", "d", "--keep", "90"], b"store fault\n"),
        (&["seal", "d", "--before", "2026-11-25"], b"store fault\n"),
        (&["reconcile", "d"], b"store fault\n"),
        (&["answer", "d"], b"store fault\n"),
        (&["backup", "d", "e"], b"store fault\n"),
        (&["collect", "udp", "514", "1"], b"socket fault\n"),
        (&["collect", "udp", "5514", "2"], b"socket fault\n"),
        (&["serve", "d", "--unix", "s"], b"socket fault\n"),
    ];
    for (words, notes) in rows {
        runs(&rt, &[(words, HELLO, FAULT, b"", notes)])?;
    }
    Ok(())
}
