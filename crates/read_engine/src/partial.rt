//! What is whole of a store is read.

ghost use Rattle.std.specs.Prelude.{◌≡◌, IfErr, IfOk};
ghost use Rattle.store_reading.specs.Causes.{IsCause};
ghost use Rattle.store_upkeep.specs.Causes.{IsCountedFile, check_causes};
ghost use Rattle.store_upkeep.specs.Damages.{names_of as names_in};
ghost use Rattle.store_engine.specs.Reading.{RanRead};
ghost use Rattle.read_engine.specs.LeftOut.{files_without};
ghost use Rattle.read_engine.specs.Options.{IsPlain};
ghost use Rattle.read_engine.specs.Partial.{AreDamagedIn, LeavesOut, RanPartial, status_of};

use crate::damaged::{damaged_files, report_damaged_files};
use crate::folder_behind::FolderBehind;
use crate::left_out::LeftOut;
use crate::options::ReadOptions;
use crate::read::read_all;
use crate::without_files::WithoutFiles;
use archive_sets::InRange;
use disk::FileName;
use driver::{DONE, REFUSED};
use octet_devices::Output;
use std::alloc::{AllocError, Global};
use std::marker::Brand;
use store_engine::report_read_fault;
use store_reading::{Folder, ReadFault};
use store_upkeep::DamagedFile;

// The names of damaged files.
fn names_of(alloc: Global, damaged: &[DamagedFile]) -> Result<Vec<FileName>, AllocError>
    ensures { IfOk result (λ names. names.items ≡ names_in damaged.now) }
{
    let mut names = Vec::new(alloc);
    'files: for file in damaged {
        names.push(file.name.copy(alloc)?)?;
    }
    Ok(names)
}

// Reads the files of a store but for those under some names, at what is known of its folder.
fn read_at<'a, K: FolderBehind, F: Folder, W: Output, N: Output>(
    alloc: Global,
    folder: &'a mut F,
    left_out: &'a LeftOut,
    options: &ReadOptions<'_>,
    range: InRange,
    output: &mut W,
    diagnostics: &mut N,
) -> (u8, &'a mut F)
    requires name { K.name ≡ folder.ghost_name }
    requires files { K.files ≡ F.files folder.old }
    ensures plain { IsPlain options.now → RanRead (F.tells result.1.now) (F.has_failed result.1.now)
        (files_without left_out.now.names.items (F.files folder.entry.now)) range (W.state output.old)
        (W.state output.new) (N.state diagnostics.old) (N.state diagnostics.new) result.0 }
    ensures name { result.1.ghost_name ≡ folder.entry.ghost_name }
    ensures same { F.tells result.1.now → F.files result.1.now ≡ F.files folder.entry.now }
    ensures told { F.tells result.1.now → F.tells folder.entry.now }
{
    let mut others = WithoutFiles::<'a, K, F>::new(folder, left_out);
    let status = read_all(alloc, &mut others, options, range, output, diagnostics);
    (status, others.into_folder())
}

// Reads the files of a store but for those under some names.
fn read_without<F: Folder, W: Output, N: Output>(
    alloc: Global,
    folder: &mut F,
    left_out: &LeftOut,
    options: &ReadOptions<'_>,
    range: InRange,
    output: &mut W,
    diagnostics: &mut N,
) -> u8
    ensures plain { IsPlain options.now → RanRead (F.tells folder.new) (F.has_failed folder.new)
        (files_without left_out.now.names.items (F.files folder.old)) range (W.state output.old)
        (W.state output.new) (N.state diagnostics.old) (N.state diagnostics.new) result }
    ensures same { F.tells folder.new → F.files folder.new ≡ F.files folder.old }
    ensures told { F.tells folder.new → F.tells folder.old }
{
    let (status, _) = read_at::<Brand, F, W, N>(
        alloc,
        folder,
        left_out,
        options,
        range,
        output,
        diagnostics,
    );
    status
}

// The status of a reading; or where that is done, whether files were left out.
fn status_after(told: u8, read: u8) -> u8
    ensures { result ≡ status_of told read }
{
    if read == DONE { told } else { read }
}

// Reads the other files of a store, once these damaged ones have been told.
fn read_others<F: Folder, W: Output, N: Output>(
    alloc: Global,
    folder: &mut F,
    damaged: &[DamagedFile],
    left_out: &LeftOut,
    options: &ReadOptions<'_>,
    range: InRange,
    output: &mut W,
    diagnostics: &mut N,
) -> u8
    requires names { left_out.now.names.items ≡ names_in damaged.now }
    ensures same { F.tells folder.new → F.files folder.new ≡ F.files folder.old }
    ensures told { F.tells folder.new → F.tells folder.old }
    ensures left_out { (F.tells folder.new → AreDamagedIn (F.files folder.old) range damaged.now)
        → LeavesOut options.now (F.tells folder.new) (F.has_failed folder.new)
        (F.files folder.old) range (W.state output.old) (W.state output.new)
        (N.state diagnostics.old) (N.state diagnostics.new) result }
{
    let told = report_damaged_files(alloc, damaged, diagnostics);
    if told != DONE && told != REFUSED {
        return told;
    }
    let read = read_without(alloc, folder, left_out, options, range, output, diagnostics);
    status_after(told, read)
}

// The damaged files that are read for a range of time, and their names.
fn damaged_and_names<F: Folder>(
    alloc: Global,
    folder: &mut F,
    range: &InRange,
) -> Result<(Vec<DamagedFile>, LeftOut), ReadFault>
    ensures found { F.tells folder.new → IfOk result (λ r.
        AreDamagedIn (F.files folder.old) range.now r.0.items) }
    ensures names { IfOk result (λ r. r.1.names.items ≡ names_in r.0.items) }
    ensures same { F.tells folder.new → F.files folder.new ≡ F.files folder.old }
    ensures told { F.tells folder.new → F.tells folder.old }
    ensures cause { IfErr result (IsCause (check_causes (F.has_failed folder.new)
        (IsCountedFile (F.tells folder.new) (F.files folder.old)))) }
{
    let damaged = damaged_files(alloc, folder, range)?;
    let left_out = LeftOut::new(alloc, names_of(alloc, &damaged)?)?;
    Ok((damaged, left_out))
}

/// Tells the damaged files of a store, of those that are read for a range of time, and writes what the others hold as
/// if these were not there. Returns the exit status of that; or where it is `DONE` and files were left out, `REFUSED`.
/// A fault of a file or a device ends it, also while the damaged files are looked for.
pub(crate) fn read_partial<F: Folder, W: Output, N: Output>(
    alloc: Global,
    folder: &mut F,
    options: &ReadOptions<'_>,
    range: InRange,
    output: &mut W,
    diagnostics: &mut N,
) -> u8
    ensures same { F.tells folder.new → F.files folder.new ≡ F.files folder.old }
    ensures told { F.tells folder.new → F.tells folder.old }
    ensures ran { RanPartial options.now (F.tells folder.new) (F.has_failed folder.new)
        (F.files folder.old) range (W.state output.old) (W.state output.new)
        (N.state diagnostics.old) (N.state diagnostics.new) result }
{
    match damaged_and_names(alloc, folder, &range) {
        Ok((damaged, left_out)) => {
            read_others(
                alloc,
                folder,
                &damaged,
                &left_out,
                options,
                range,
                output,
                diagnostics,
            )
        }
        Err(fault) => report_read_fault(alloc, &fault, diagnostics),
    }
}
