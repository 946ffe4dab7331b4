//! Damaged files are told.
ghost use Rattle.std.specs.Prelude.{◌≡◌, IfOk};
ghost use Rattle.store_engine.specs.Lines.{damage_lines, file_line};
ghost use Rattle.store_statistics.specs.Statistics.{TellsDamaged};

use driver::{DONE, NO_MEMORY, REFUSED, report};
use octet_devices::{Output, ToWrite};
use std::alloc::{AllocError, Global};
use store_engine::report_damaged_file;
use store_upkeep::DamagedFile;

// The line on a damaged file.
fn line_on(alloc: Global, file: &DamagedFile) -> Result<Vec<u8>, AllocError>
    ensures { IfOk result (λ line. line.items ≡ file_line file.now.name file.now.damage) }
{
    let mut line = ToWrite::new(Vec::new(alloc));
    let status = report_damaged_file(alloc, file, &mut line);
    if status == REFUSED {
        return Ok(line.into_inner());
    }
    Err(AllocError)
}

// A line on each damaged file, in their order.
fn lines_on(alloc: Global, damaged: &[DamagedFile]) -> Result<Vec<u8>, AllocError>
    ensures { IfOk result (λ lines. lines.items ≡ damage_lines damaged.now) }
{
    let mut lines = Vec::new(alloc);
    'files: for file in damaged {
        lines.extend_from_slice(&line_on(alloc, file)?)?;
    }
    Ok(lines)
}

/// Reports which files are damaged, a line on each, and returns `REFUSED`; or `DONE` if none is. It is
/// `NO_MEMORY` if memory runs out for the lines, and `FAULT` if they cannot be written.
pub fn tell_damaged<N: Output>(alloc: Global, damaged: &[DamagedFile], diagnostics: &mut N) -> u8
    ensures { TellsDamaged damaged.now (N.state diagnostics.old) (N.state diagnostics.new) result }
{
    if damaged.is_empty() {
        return DONE;
    }
    match lines_on(alloc, damaged) {
        Ok(lines) => report(diagnostics, lines.as_slice(), REFUSED),
        Err(_) => report(diagnostics, b"want of memory\n", NO_MEMORY),
    }
}
