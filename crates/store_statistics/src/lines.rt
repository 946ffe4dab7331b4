//! The lines of files.
ghost use Rattle.std.specs.Prelude.{◌≡◌, [], false, IfOk, IsTrue, decimal};
ghost use Rattle.octet_language.specs.Language.{Each, Only};
ghost use Rattle.syslog_fields.specs.Appending.{Puts};
ghost use Rattle.syslog_fields.specs.Canonical.{TimeForm};
ghost use Rattle.archive_counts.specs.Texts.{FrontOf};
ghost use Rattle.store_statistics.specs.Lines.{FiguresLine, FileLine, IsText};

use crate::figures::{Figures, FileFigures};
use crate::sums::sum_of;
use itoa::Buffer;
use std::alloc::{AllocError, Global};
use syslog_fields::appending::put;
use syslog_grammar::canonical_timestamp;
use syslog_value::Instant;

fn put_number(number: u64, out: &mut Vec<u8>) -> Result<(), AllocError>
    ensures { Puts (Only (decimal number)) out.old.items out.new.items result }
{
    put(Buffer::new().format(number).as_bytes(), out)
}

// Appends the canonical form of an instant, or NILVALUE.
fn put_time(instant: Option<Instant>, out: &mut Vec<u8>) -> Result<(), AllocError>
    ensures { Puts (TimeForm instant) out.old.items out.new.items result }
{
    match instant {
        None => put(b"-", out),
        Some(instant) => put(&canonical_timestamp(instant), out),
    }
}

// Appends COUNT OCTETS FIRST LAST.
fn put_front(figures: &Figures, out: &mut Vec<u8>) -> Result<(), AllocError>
    ensures { Puts (FrontOf figures.now.tally.records figures.now.octets figures.now.tally.first
        figures.now.tally.last) out.old.items out.new.items result }
{
    put_number(figures.tally.records, out)?;
    put(b" ", out)?;
    put_number(figures.octets, out)?;
    put(b" ", out)?;
    put_time(figures.tally.first, out)?;
    put(b" ", out)?;
    put_time(figures.tally.last, out)
}

// Appends the line of a file.
fn put_file(file: &FileFigures, out: &mut Vec<u8>) -> Result<(), AllocError>
    ensures { Puts (FileLine file.now) out.old.items out.new.items result }
{
    put_front(&file.figures, out)?;
    put(b" ", out)?;
    put(file.name.as_octets(), out)?;
    put(b"\n", out)
}

// Appends the line of each file.
fn put_files(files: &[FileFigures], out: &mut Vec<u8>) -> Result<(), AllocError>
    ensures { Puts (Each FileLine files.now) out.old.items out.new.items result }
{
    'files: for file in files {
        put_file(file, out)?;
    }
    Ok(())
}

// Appends the line of sums.
fn put_sums(sum: &Figures, out: &mut Vec<u8>) -> Result<(), AllocError>
    ensures { Puts (FiguresLine sum.now []) out.old.items out.new.items result }
{
    put_front(sum, out)?;
    put(b"\n", out)
}

/// The line of each file, and if they are all, that of their sums.
pub fn lines_of(alloc: Global, files: &[FileFigures], are_all: bool) -> Result<Vec<u8>, AllocError>
    ensures all { IfOk result (λ text. IsTrue are_all → IsText files.now text.items) }
    ensures some { IfOk result (λ text. are_all ≡ false → Each FileLine files.now text.items) }
{
    let mut out = Vec::new(alloc);
    put_files(files, &mut out)?;
    if !are_all {
        return Ok(out);
    }
    put_sums(&sum_of(files), &mut out)?;
    Ok(out)
}
