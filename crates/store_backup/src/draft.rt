//! A file is written under the name of a draft, and gets its own name once all of it is on the disk.
ghost use Rattle.std.specs.Prelude.{◌≡◌, ◌++◌, [], IfOk, List, OnOk, ℕ};
ghost use Rattle.disk.specs.States.{Files};
ghost use Rattle.journal.specs.Journals.{IsSound, KeepsOthers};
ghost use Rattle.record_store.specs.Names.{Counts};
ghost use Rattle.store_backup.specs.Copies.{backup_draft};
ghost use Rattle.store_backup.specs.Drafts.{IsDrafted, IsFreeFor, IsSettled, Places};

use crate::fault::CopyFault;
use disk::{Disk, DiskFault, FileName};
use std::alloc::{AllocError, Global};
use store_reading::ReadFault;

/// What a copy is called until all of it is on the disk.
pub(crate) fn draft_name(alloc: Global) -> Result<FileName, AllocError>
    ensures named { IfOk result (λ name. name ≡ backup_draft) }
    ensures apart { IfOk result (λ name. ¬ (Counts name)) }
{
    match FileName::new(alloc, b"backup.archive")? {
        Some(name) => Ok(name),
        None => unreachable!(),
    }
}

// The fault of a file that could not be written or given its name.
fn write_fault(alloc: Global, name: &FileName, fault: DiskFault) -> CopyFault {
    match name.copy(alloc) {
        Ok(name) => CopyFault::Write { name, fault },
        Err(_) => CopyFault::Read(ReadFault::Memory),
    }
}

/// Begins a draft.
pub(crate) fn begin<D: Disk>(
    alloc: Global,
    target: &mut D,
    draft: &FileName,
) -> Result<(), CopyFault>
    ensures begun { OnOk result (D.tells target.new → IsSound (D.state target.old)
        → IsDrafted (D.state target.new) draft.now []) }
    ensures others { D.tells target.new
        → KeepsOthers (D.state target.old) (D.state target.new) draft.now }
    ensures told { D.tells target.new → D.tells target.old }
{
    match target.create(draft) {
        Ok(()) => Ok(()),
        Err(fault) => Err(write_fault(alloc, draft, fault)),
    }
}

/// Writes the next piece of a draft.
pub(crate) fn push<D: Disk>(
    alloc: Global,
    target: &mut D,
    draft: &FileName,
    piece: &[u8],
) -> Result<(), CopyFault>
    ensures pushed { OnOk result (D.tells target.new → (text : List ℕ)
        → IsDrafted (D.state target.old) draft.now text
        → IsDrafted (D.state target.new) draft.now (text ++ piece.now)) }
    ensures others { D.tells target.new
        → KeepsOthers (D.state target.old) (D.state target.new) draft.now }
    ensures told { D.tells target.new → D.tells target.old }
{
    match target.append(draft, piece) {
        Ok(()) => Ok(()),
        Err(fault) => Err(write_fault(alloc, draft, fault)),
    }
}

/// Removes a draft that is not to be kept.
pub(crate) fn discard<D: Disk>(
    alloc: Global,
    target: &mut D,
    draft: &FileName,
) -> Result<(), CopyFault>
    ensures sound { OnOk result (D.tells target.new → IsSound (D.state target.old)
        → IsSound (D.state target.new)) }
    ensures others { D.tells target.new
        → KeepsOthers (D.state target.old) (D.state target.new) draft.now }
    ensures told { D.tells target.new → D.tells target.old }
{
    match target.remove(draft) {
        Ok(()) => Ok(()),
        Err(fault) => Err(write_fault(alloc, draft, fault)),
    }
}

// Brings a draft to the disk.
fn settle<D: Disk>(alloc: Global, target: &mut D, draft: &FileName) -> Result<(), CopyFault>
    ensures settled { OnOk result (D.tells target.new → (text : List ℕ)
        → IsDrafted (D.state target.old) draft.now text
        → IsSettled (D.state target.new) draft.now text) }
    ensures others { D.tells target.new
        → KeepsOthers (D.state target.old) (D.state target.new) draft.now }
    ensures told { D.tells target.new → D.tells target.old }
{
    match target.sync(draft) {
        Ok(()) => Ok(()),
        Err(fault) => Err(write_fault(alloc, draft, fault)),
    }
}

// Gives a draft that is on the disk its name.
fn rename<D: Disk>(
    alloc: Global,
    target: &mut D,
    draft: &FileName,
    name: &FileName,
) -> Result<(), CopyFault>
    ensures placed { D.tells target.new → (files : Files) (text : List ℕ)
        → IsSettled (D.state target.old) draft.now text
        → IsFreeFor files (D.state target.old) draft.now name.now text
        → Places files (D.state target.old) (D.state target.new) draft.now name.now }
    ensures there { OnOk result (D.tells target.new → (files : Files) (text : List ℕ)
        → IsSettled (D.state target.old) draft.now text
        → IsFreeFor files (D.state target.old) draft.now name.now text
        → IsDrafted (D.state target.new) name.now text) }
    ensures told { D.tells target.new → D.tells target.old }
{
    match target.rename(draft, name) {
        Ok(()) => Ok(()),
        Err(fault) => Err(write_fault(alloc, name, fault)),
    }
}

/// Brings a draft to the disk, and gives it its name.
pub(crate) fn place<D: Disk>(
    alloc: Global,
    target: &mut D,
    draft: &FileName,
    name: &FileName,
) -> Result<(), CopyFault>
    ensures placed { D.tells target.new → (files : Files) (text : List ℕ)
        → IsDrafted (D.state target.old) draft.now text
        → IsFreeFor files (D.state target.old) draft.now name.now text
        → Places files (D.state target.old) (D.state target.new) draft.now name.now }
    ensures there { OnOk result (D.tells target.new → (files : Files) (text : List ℕ)
        → IsDrafted (D.state target.old) draft.now text
        → IsFreeFor files (D.state target.old) draft.now name.now text
        → IsDrafted (D.state target.new) name.now text) }
    ensures told { D.tells target.new → D.tells target.old }
{
    settle(alloc, target, draft)?;
    rename(alloc, target, draft, name)
}
