//! The lines on what is wrong with a ledger.
ghost use Rattle.std.specs.Prelude.{◌≡◌, ◌++◌, ◌∷◌, [], IfOk, OnOk, codes, flat_map};
ghost use Rattle.ledger_engine.specs.Findings.{octets_of};
ghost use Rattle.ledger_engine.specs.Lines.{break_line, finding_text, is_plain, lack_line};
ghost use Rattle.ledger_engine.specs.Lines.{name_line, name_lines, printed};

use crate::findings::LedgerFindings;
use disk::FileName;
use itoa::Buffer;
use std::alloc::{AllocError, Global};

// Whether an octet is printed as itself.
fn is_printed(octet: u8) -> bool
    ensures { result ≡ is_plain octet }
{
    if octet < 32 || octet > 126 {
        return false;
    }
    octet != b'"' && octet != b'\\'
}

// Puts octets behind lines.
fn put(lines: &mut Vec<u8>, octets: &[u8]) -> Result<(), AllocError>
    ensures { OnOk result (lines.new.items ≡ lines.old.items ++ octets.now) }
{
    lines.extend_from_slice(octets)
}

// Puts an octet of a name, none of which reaches a terminal raw.
fn put_octet(lines: &mut Vec<u8>, octet: u8) -> Result<(), AllocError>
    ensures { OnOk result (lines.new.items ≡ lines.old.items ++ printed octet) }
{
    if is_printed(octet) {
        return put(lines, &[octet]);
    }
    let mut digits = [0; 2];
    let _ = hex::encode_to_slice(&[octet], &mut digits);
    put(lines, b"\\x")?;
    put(lines, &digits)
}

// Puts a name.
fn put_name(lines: &mut Vec<u8>, name: &[u8]) -> Result<(), AllocError>
    ensures { OnOk result (lines.new.items ≡ lines.old.items ++ flat_map printed name.now) }
{
    'octets: for octet in name {
        put_octet(lines, *octet)?;
    }
    Ok(())
}

// Puts the line on a file.
fn put_line(lines: &mut Vec<u8>, name: &[u8], words: &[u8]) -> Result<(), AllocError>
    ensures { OnOk result (lines.new.items ≡ lines.old.items ++ name_line words.now name.now) }
{
    put_name(lines, name)?;
    put(lines, words)
}

// Puts a line on each file.
fn put_lines(lines: &mut Vec<u8>, names: &[FileName], words: &[u8]) -> Result<(), AllocError>
    ensures { OnOk result (lines.new.items ≡ lines.old.items ++ name_lines words.now names.now) }
{
    'names: for name in names {
        put_line(lines, name.as_octets(), words)?;
    }
    Ok(())
}

// Puts a line on each segment that is missing.
fn put_missing(lines: &mut Vec<u8>, names: &[Vec<u8>]) -> Result<(), AllocError>
    ensures { OnOk result (lines.new.items
        ≡ lines.old.items ++ name_lines (codes " missing\n") (octets_of names.now)) }
{
    'names: for name in names {
        put_line(lines, name, b" missing\n")?;
    }
    Ok(())
}

// Puts the line on where a ledger breaks.
fn put_break(lines: &mut Vec<u8>, broken: Option<u64>) -> Result<(), AllocError>
    ensures { OnOk result (lines.new.items ≡ lines.old.items ++ break_line broken) }
{
    let Some(at) = broken else {
        return Ok(());
    };
    put(lines, b"ledger ")?;
    put(lines, Buffer::new().format(at).as_bytes())?;
    put(lines, b"\n")
}

// Puts the line on a line that a ledger lacks.
fn put_lack(lines: &mut Vec<u8>, lacks_line: bool) -> Result<(), AllocError>
    ensures { OnOk result (lines.new.items ≡ lines.old.items ++ lack_line lacks_line) }
{
    if !lacks_line {
        return Ok(());
    }
    put(lines, b"ledger lacks the line\n")
}

/// A line on each thing that is wrong: on the ledger itself, on segments that are missing, on those that are not listed,
/// and on files that no store has. It fails only when out of memory.
pub fn finding_lines(alloc: Global, findings: &LedgerFindings) -> Result<Vec<u8>, AllocError>
    ensures { IfOk result (λ lines. lines.items ≡ finding_text findings.now) }
{
    let mut lines = Vec::new(alloc);
    put_break(&mut lines, findings.broken)?;
    put_lack(&mut lines, findings.lacks_line)?;
    put_missing(&mut lines, &findings.missing)?;
    put_lines(&mut lines, &findings.unlisted, b" unlisted\n")?;
    put_lines(&mut lines, &findings.foreign, b" foreign\n")?;
    Ok(lines)
}
