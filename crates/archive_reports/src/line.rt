//! The line on a text that is no archive.

ghost use Rattle.std.specs.Prelude.{◌≡◌, ◌++◌, ◌⊎◌, IfOk, OnOk, codes, decimal};
ghost use Rattle.driver.specs.Devices.{Reports};
ghost use Rattle.archive_reports.specs.FaultLines.{fault_words};

use archive_text::ArchiveFault;
use driver::{NO_MEMORY, report};
use frame_engine::{Line, put_line};
use itoa::Buffer;
use octet_devices::Output;
use std::alloc::{AllocError, Global};

// Appends words, a position and a line feed.
fn put_at(line: &mut Vec<u8>, words: &[u8], at: u64) -> Result<(), AllocError>
    ensures { OnOk result
        (line.new.items ≡ line.old.items ++ (words.now ++ decimal at ++ codes "\n")) }
{
    line.extend_from_slice(words)?;
    line.extend_from_slice(Buffer::new().format(at).as_bytes())?;
    line.extend_from_slice(b"\n")
}

// Appends a fault, where it is, and a line feed.
fn put_fault(line: &mut Vec<u8>, fault: ArchiveFault) -> Result<(), AllocError>
    ensures { OnOk result (line.new.items ≡ line.old.items ++ fault_words fault) }
{
    match fault {
        ArchiveFault::BadFrame { at } => put_at(line, b"bad-frame ", at),
        ArchiveFault::EntryTooLong { at } => put_at(line, b"entry-too-long ", at),
        ArchiveFault::BadEntry { at, fault } => {
            line.extend_from_slice(b"bad-entry ")?;
            put_line(line, Line::Refused { number: at, fault })
        }
        ArchiveFault::NotCanonical { at } => put_at(line, b"not-canonical ", at),
        ArchiveFault::NotAscending { at } => put_at(line, b"not-ascending ", at),
    }
}

// The line on a fault behind words.
fn line_on(alloc: Global, words: &[u8], fault: ArchiveFault) -> Result<Vec<u8>, AllocError>
    ensures { IfOk result (λ line. line.items ≡ words.now ++ fault_words fault) }
{
    let mut line = Vec::new(alloc);
    line.extend_from_slice(words)?;
    put_fault(&mut line, fault)?;
    Ok(line)
}

/// Reports why a text is no archive, behind words that say which text, and returns this exit
/// status; or `FAULT` if the line cannot be written, and `NO_MEMORY` if memory runs out for it.
pub fn report_archive_fault<N: Output>(
    alloc: Global,
    words: &[u8],
    fault: ArchiveFault,
    status: u8,
    diagnostics: &mut N,
) -> u8
    ensures { Reports (words.now ++ fault_words fault) status (N.state diagnostics.old)
        (N.state diagnostics.new) result
        ⊎ Reports (codes "want of memory\n") NO_MEMORY (N.state diagnostics.old)
        (N.state diagnostics.new) result }
{
    match line_on(alloc, words, fault) {
        Ok(line) => report(diagnostics, line.as_slice(), status),
        Err(_) => report(diagnostics, b"want of memory\n", NO_MEMORY),
    }
}
