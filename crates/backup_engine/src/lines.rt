//! The lines of a backup.
ghost use Rattle.std.specs.Prelude.{◌≡◌, ◌++◌, IfOk, OnOk, decimal};
ghost use Rattle.store_engine.specs.Lines.{damage_lines, file_line};
ghost use Rattle.backup_engine.specs.Lines.{backup_lines, copied_line, octets_of};

use driver::REFUSED;
use itoa::Buffer;
use octet_devices::ToWrite;
use std::alloc::{AllocError, Global};
use store_backup::{Backup, CopiedFile};
use store_engine::report_damaged_file;
use store_upkeep::DamagedFile;

// The line on a damaged file.
fn damaged_line(alloc: Global, file: &DamagedFile) -> Result<Vec<u8>, AllocError>
    ensures { IfOk result (λ line. line.items ≡ file_line file.now.name file.now.damage) }
{
    let mut line = ToWrite::new(Vec::new(alloc));
    let status = report_damaged_file(alloc, file, &mut line);
    if status == REFUSED {
        return Ok(line.into_inner());
    }
    Err(AllocError)
}

// A line on each damaged file, in their order.
fn damaged_lines(alloc: Global, damaged: &[DamagedFile]) -> Result<Vec<u8>, AllocError>
    ensures { IfOk result (λ lines. lines.items ≡ damage_lines damaged.now) }
{
    let mut lines = Vec::new(alloc);
    'files: for file in damaged {
        lines.extend_from_slice(&damaged_line(alloc, file)?)?;
    }
    Ok(lines)
}

// How many octets copies have; `u64::MAX` stands for more too.
fn count_octets(copied: &[CopiedFile]) -> u64
    ensures { result ≡ octets_of copied.now }
{
    let mut octets: u64 = 0;
    'files: for file in copied {
        octets = octets.saturating_add(file.octets);
    }
    octets
}

fn put_number(out: &mut Vec<u8>, number: u64) -> Result<(), AllocError>
    ensures { OnOk result (out.new.items ≡ out.old.items ++ decimal number) }
{
    out.extend_from_slice(Buffer::new().format(number).as_bytes())
}

// Appends the line on what was copied.
fn put_copied(out: &mut Vec<u8>, copied: &[CopiedFile]) -> Result<(), AllocError>
    ensures { OnOk result (out.new.items ≡ out.old.items ++ copied_line copied.now) }
{
    out.extend_from_slice(b"copied ")?;
    put_number(out, copied.len() as u64)?;
    out.extend_from_slice(b" files ")?;
    put_number(out, count_octets(copied))?;
    out.extend_from_slice(b" octets\n")
}

/// The lines on a backup: one on each damaged file, and one on what was copied.
pub(crate) fn lines_on(alloc: Global, backup: &Backup) -> Result<Vec<u8>, AllocError>
    ensures { IfOk result (λ lines. lines.items ≡ backup_lines backup.now) }
{
    let mut lines = damaged_lines(alloc, &backup.damaged)?;
    put_copied(&mut lines, &backup.copied)?;
    Ok(lines)
}
