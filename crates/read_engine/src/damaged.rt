//! The damaged files of a store are found, and told.

ghost use Rattle.std.specs.Prelude.{◌≡◌, ◌⊎◌, Contains, IfErr, IfOk, IsTrue, List, OnOk, ℕ, false};
ghost use Rattle.store_reading.specs.Causes.{IsCause};
ghost use Rattle.store_upkeep.specs.Causes.{IsCountedFile, check_causes};
ghost use Rattle.store_upkeep.specs.Damages.{AreAsTold, IsWholeOrListed};
ghost use Rattle.store_engine.specs.Lines.{damage_lines};
ghost use Rattle.read_engine.specs.LeftOut.{files_without};
ghost use Rattle.read_engine.specs.Partial.{AreDamagedIn, IsOutside, MayBeInside, TellsDamaged};

use crate::folder_behind::FolderBehind;
use crate::left_out::LeftOut;
use crate::without_files::WithoutFiles;
use archive_sets::InRange;
use disk::FileName;
use driver::{DONE, NO_MEMORY, REFUSED, report};
use octet_devices::{Output, ToWrite};
use std::alloc::{AllocError, Global};
use std::marker::Brand;
use store_engine::report_damaged_file;
use store_reading::{Folder, ReadFault, is_outside, list, segment_day};
use store_upkeep::{DamagedFile, verify};

// Whether a name is that of a segment of a day that has nothing in a range.
fn is_outside_name(name: &FileName, range: &InRange) -> bool
    ensures outside { IsTrue result → IsOutside range.now name.now }
    ensures inside { result ≡ false → MayBeInside range.now name.now }
{
    match segment_day(name.as_octets()) {
        Some(day) => is_outside(range, &day),
        None => false,
    }
}

// Of these names, those of the segments of days that have nothing in a range.
fn outside_of(
    alloc: Global,
    names: &[FileName],
    range: &InRange,
) -> Result<Vec<FileName>, AllocError>
    ensures outside { IfOk result (λ v. (name : List ℕ) → Contains v.items name
        → IsOutside range.now name) }
    ensures others { IfOk result (λ v. (name : List ℕ) → Contains names.now name
        → Contains v.items name ⊎ MayBeInside range.now name) }
{
    let mut outside = Vec::new(alloc);
    'names: for name in names {
        if is_outside_name(name, range) {
            outside.push(name.copy(alloc)?)?;
        }
    }
    Ok(outside)
}

// Adds the damaged files of a folder to a list, but for those under some names, at what is known of the folder.
fn verify_at<'a, K: FolderBehind, F: Folder>(
    alloc: Global,
    folder: &'a mut F,
    left_out: &'a LeftOut,
    damaged: &mut Vec<DamagedFile>,
) -> (Result<(), ReadFault>, &'a mut F)
    requires name { K.name ≡ folder.ghost_name }
    requires files { K.files ≡ F.files folder.old }
    ensures as_told { F.tells result.1.now
        → AreAsTold (files_without left_out.now.names.items (F.files folder.entry.now)) damaged.old.items
        → AreAsTold (files_without left_out.now.names.items (F.files folder.entry.now)) damaged.new.items }
    ensures listed { OnOk result.0 (F.tells result.1.now → (name : List ℕ)
        → IsWholeOrListed (files_without left_out.now.names.items (F.files folder.entry.now)) damaged.new.items
        name) }
    ensures cause { IfErr result.0 (IsCause (check_causes (F.has_failed result.1.now)
        (IsCountedFile (F.tells result.1.now)
        (files_without left_out.now.names.items (F.files folder.entry.now))))) }
    ensures name { result.1.ghost_name ≡ folder.entry.ghost_name }
    ensures same { F.tells result.1.now → F.files result.1.now ≡ F.files folder.entry.now }
    ensures told { F.tells result.1.now → F.tells folder.entry.now }
{
    let mut others = WithoutFiles::<'a, K, F>::new(folder, left_out);
    let verified = verify(alloc, &mut others, damaged);
    (verified, others.into_folder())
}

// Adds the damaged files of a folder to a list, but for those under some names.
fn verify_without<F: Folder>(
    alloc: Global,
    folder: &mut F,
    left_out: &LeftOut,
    damaged: &mut Vec<DamagedFile>,
) -> Result<(), ReadFault>
    ensures as_told { F.tells folder.new
        → AreAsTold (files_without left_out.now.names.items (F.files folder.old)) damaged.old.items
        → AreAsTold (files_without left_out.now.names.items (F.files folder.old)) damaged.new.items }
    ensures listed { OnOk result (F.tells folder.new → (name : List ℕ)
        → IsWholeOrListed (files_without left_out.now.names.items (F.files folder.old)) damaged.new.items name) }
    ensures same { F.tells folder.new → F.files folder.new ≡ F.files folder.old }
    ensures told { F.tells folder.new → F.tells folder.old }
    ensures cause { IfErr result (IsCause (check_causes (F.has_failed folder.new)
        (IsCountedFile (F.tells folder.new) (files_without left_out.now.names.items (F.files folder.old))))) }
{
    let (verified, _folder) = verify_at::<Brand, F>(alloc, folder, left_out, damaged);
    verified
}

/// The damaged files of a folder, in the order of their names, of those that are read for a range of time.
///
/// # Errors
/// Those of `store_upkeep::verify`.
pub(crate) fn damaged_files<F: Folder>(
    alloc: Global,
    folder: &mut F,
    range: &InRange,
) -> Result<Vec<DamagedFile>, ReadFault>
    ensures found { F.tells folder.new → IfOk result (λ v.
        AreDamagedIn (F.files folder.old) range.now v.items) }
    ensures same { F.tells folder.new → F.files folder.new ≡ F.files folder.old }
    ensures told { F.tells folder.new → F.tells folder.old }
    ensures cause { IfErr result (IsCause (check_causes (F.has_failed folder.new)
        (IsCountedFile (F.tells folder.new) (F.files folder.old)))) }
{
    let names = list(alloc, folder)?;
    let outside = LeftOut::new(alloc, outside_of(alloc, &names, range)?)?;
    let mut damaged = Vec::new(alloc);
    verify_without(alloc, folder, &outside, &mut damaged)?;
    Ok(damaged)
}

// A line on each damaged file, in their order.
fn lines_on(alloc: Global, damaged: &[DamagedFile]) -> Result<Vec<u8>, AllocError>
    ensures { IfOk result (λ lines. lines.items ≡ damage_lines damaged.now) }
{
    let mut lines = ToWrite::new(Vec::new(alloc));
    'files: for file in damaged {
        if report_damaged_file(alloc, file, &mut lines) != REFUSED {
            return Err(AllocError);
        }
    }
    Ok(lines.into_inner())
}

/// Reports each damaged file, and returns `REFUSED`, or `DONE` if there is none; `NO_MEMORY` if memory runs out
/// for the lines, and `FAULT` if they cannot be written.
pub(crate) fn report_damaged_files<N: Output>(
    alloc: Global,
    damaged: &[DamagedFile],
    diagnostics: &mut N,
) -> u8
    ensures { TellsDamaged damaged.now (N.state diagnostics.old) (N.state diagnostics.new) result }
{
    if damaged.is_empty() {
        return DONE;
    }
    match lines_on(alloc, damaged) {
        Ok(lines) => report(diagnostics, &lines, REFUSED),
        Err(_) => report(diagnostics, b"want of memory\n", NO_MEMORY),
    }
}
