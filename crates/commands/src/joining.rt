//! Files whose archives are joined.

ghost use Rattle.std.specs.Prelude.{◌≡◌, map, IfErr, IfOk};
ghost use Rattle.commands.specs.JoinedFiles.{AreOpened, FailsToOpen, RanJoinFiles};

use crate::files::Files;
use driver::{NO_MEMORY, report};
use octet_devices::Output;
use set_engine::{Combination, join_archives, report_on_input};
use std::alloc::Global;

// Opens the files with these names, or reports the first that is none and answers the exit status.
fn open_files<N: Output, F: Files>(
    alloc: Global,
    how: Combination,
    names: &[&str],
    diagnostics: &mut N,
    files: &mut F,
) -> Result<Vec<F::Reader>, u8>
    ensures opened { IfOk result (λ readers. AreOpened (F.stored files.old)
        (map (λ s. s.now) names.now) (map F.Reader.state readers.items)) }
    ensures untold { IfOk result (λ readers.
        N.state diagnostics.new ≡ N.state diagnostics.old) }
    ensures told { IfErr result (λ status.
        FailsToOpen how (F.stored files.old) (map (λ s. s.now) names.now)
        (N.state diagnostics.old) (N.state diagnostics.new) status) }
{
    let Ok(mut readers) = Vec::with_capacity(alloc, names.len()) else {
        return Err(report(diagnostics, b"want of memory\n", NO_MEMORY));
    };
    for (input, name) in names.iter().enumerate() {
        let Some(reader) = files.reader(name) else {
            return Err(report_on_input(alloc, how, input, b"no file\n", diagnostics));
        };
        if readers.push(reader).is_err() {
            return Err(report(diagnostics, b"want of memory\n", NO_MEMORY));
        }
    }
    Ok(readers)
}

/// Joins the archives of files, depending on who has a record. All files are opened before one is
/// read.
pub fn join_files<W: Output, N: Output, F: Files>(
    alloc: Global,
    how: Combination,
    names: &[&str],
    output: &mut W,
    diagnostics: &mut N,
    files: &mut F,
) -> u8
    ensures { RanJoinFiles how (F.stored files.old) (map (λ s. s.now) names.now)
        (W.state output.old) (W.state output.new) (N.state diagnostics.old)
        (N.state diagnostics.new) result }
{
    match open_files(alloc, how, names, diagnostics, files) {
        Ok(mut readers) => join_archives(alloc, how, &mut readers, output, diagnostics),
        Err(status) => status,
    }
}
