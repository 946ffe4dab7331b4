//! The files of a store are copied.
ghost use Rattle.std.specs.Prelude.{◌≡◌, ◌↔◌, Contains, IfNone, IfOk, IfSome, IsSome, IsTrue, List, OnOk, ℕ};
ghost use Rattle.disk.specs.Calls.{IsUnchanged};
ghost use Rattle.journal.specs.Journals.{IsSound};
ghost use Rattle.store_upkeep.specs.Compaction.{shown};
ghost use Rattle.store_backup.specs.Backups.{BacksUp, Becomes, IsDone, IsOfKind, IsOpenFor, Notes};
ghost use Rattle.store_backup.specs.Copies.{HasCopies, IsBacking};
ghost use Rattle.store_backup.specs.Drafts.{Places};

use crate::fault::CopyFault;
use crate::journals::copy_journal;
use crate::outcome::{Backup, CopiedFile, Outcome};
use crate::segments::copy_segment;
use disk::{Disk, DiskFault, FileName};
use std::alloc::{AllocError, Global};
use store_reading::{Folder, is_journal, segment_period};
use store_upkeep::DamagedFile;

/// Which files are copied.
#[derive(Clone, Copy)]
pub(crate) enum Kind {
    /// Journals.
    Journals,
    /// Segments.
    Segments,
}

// Whether there is a file under a name.
fn is_there<D: Disk>(target: &mut D, name: &FileName) -> Result<bool, CopyFault>
    ensures there { IfOk result (λ there. D.tells target.new → IsSound (D.state target.old)
        → (IsTrue there ↔ IsSome (shown (D.state target.old) name.now))) }
    ensures same { D.tells target.new → IsUnchanged (D.state target.old) (D.state target.new) }
    ensures told { D.tells target.new → D.tells target.old }
{
    match target.read(name, 0, &mut []) {
        Ok(_) => Ok(true),
        Err(DiskFault::Missing) => Ok(false),
        Err(fault) => Err(CopyFault::Folder { fault }),
    }
}

// Copies the file of a name, which is not taken, where it is of a kind.
fn copy_file<F: Folder, D: Disk>(
    alloc: Global,
    folder: &mut F,
    target: &mut D,
    draft: &FileName,
    kind: Kind,
    name: &FileName,
) -> Result<Option<Outcome>, CopyFault>
    ensures becomes { IfOk result (λ found. IfSome found (λ outcome. F.tells folder.new
        → D.tells target.new
        → IsOpenFor (F.files folder.old) (D.state target.old) draft.now name.now
        → Becomes (F.files folder.old) (D.state target.old) (D.state target.new) draft.now name.now
        outcome)) }
    ensures some { IfOk result (λ found. IfSome found (λ outcome. IsOfKind kind name.now)) }
    ensures none { IfOk result (λ found. IfNone found (¬ (IsOfKind kind name.now))) }
    ensures untouched { IfOk result (λ found. IfNone found (D.state target.new ≡ D.state target.old)) }

    // whatever the result is: so at every moment
    ensures places { F.tells folder.new → D.tells target.new
        → IsOpenFor (F.files folder.old) (D.state target.old) draft.now name.now
        → Places (F.files folder.old) (D.state target.old) (D.state target.new) draft.now name.now }

    ensures same { F.tells folder.new → F.files folder.new ≡ F.files folder.old }
    ensures told_source { F.tells folder.new → F.tells folder.old }
    ensures told { D.tells target.new → D.tells target.old }
{
    match kind {
        Kind::Journals => {
            if !is_journal(name.as_octets()) {
                return Ok(None);
            }
            let outcome = copy_journal(alloc, folder, target, draft, name)?;
            Ok(Some(outcome))
        }
        Kind::Segments => {
            let Some(period) = segment_period(name.as_octets()) else {
                return Ok(None);
            };
            let outcome = copy_segment(alloc, folder, target, draft, name, &period)?;
            Ok(Some(outcome))
        }
    }
}

// Notes what became of the file of a name. Gives whether it was there.
fn note(
    alloc: Global,
    name: &FileName,
    outcome: Outcome,
    backup: &mut Backup,
) -> Result<bool, AllocError>
    ensures { IfOk result (λ there. Notes name.now outcome backup.old backup.new there) }
{
    match outcome {
        Outcome::Copied { octets } => {
            let name = name.copy(alloc)?;
            backup.copied.push(CopiedFile { name, octets })?;
            Ok(true)
        }
        Outcome::Damaged(damage) => {
            let name = name.copy(alloc)?;
            backup.damaged.push(DamagedFile { name, damage })?;
            Ok(true)
        }
        Outcome::Gone => Ok(false),
    }
}

// Copies the file of a name, where it is of a kind and was not copied yet. Gives whether it was there.
fn copy_new<F: Folder, D: Disk>(
    alloc: Global,
    folder: &mut F,
    target: &mut D,
    draft: &FileName,
    kind: Kind,
    name: &FileName,
    backup: &mut Backup,
) -> Result<bool, CopyFault>
    ensures done { IfOk result (λ there. F.tells folder.new → D.tells target.new
        → IsBacking (F.files folder.old) (D.state target.old) draft.now
        → IsTrue there → IsOfKind kind name.now
        → IsDone (D.state target.new) backup.new.damaged.items name.now) }
    ensures backs { OnOk result (F.tells folder.new → D.tells target.new
        → IsBacking (F.files folder.old) (D.state target.old) draft.now
        → BacksUp (F.files folder.old) (D.state target.old) (D.state target.new) draft.now
        backup.old backup.new) }

    // whatever the result is: so at every moment
    ensures copies { F.tells folder.new → D.tells target.new
        → IsBacking (F.files folder.old) (D.state target.old) draft.now
        → HasCopies (F.files folder.old) (D.state target.new) draft.now }

    ensures same { F.tells folder.new → F.files folder.new ≡ F.files folder.old }
    ensures told_source { F.tells folder.new → F.tells folder.old }
    ensures told { D.tells target.new → D.tells target.old }
{
    if is_there(target, name)? {
        return Ok(true);
    }
    let Some(outcome) = copy_file(alloc, folder, target, draft, kind, name)? else {
        return Ok(true);
    };
    let there = note(alloc, name, outcome, backup)?;
    Ok(there)
}

/// Whether both are so.
pub(crate) fn both(one: bool, other: bool) -> bool
    ensures one { IsTrue result → IsTrue one }
    ensures other { IsTrue result → IsTrue other }
{
    one && other
}

/// Copies the files of these names that are of a kind and were not copied yet. Gives whether each was there.
pub(crate) fn copy_each<F: Folder, D: Disk>(
    alloc: Global,
    folder: &mut F,
    target: &mut D,
    draft: &FileName,
    kind: Kind,
    names: &[FileName],
    backup: &mut Backup,
) -> Result<bool, CopyFault>
    ensures done { IfOk result (λ there. F.tells folder.new → D.tells target.new
        → IsBacking (F.files folder.old) (D.state target.old) draft.now
        → IsTrue there → (name : List ℕ) → Contains names.now name → IsOfKind kind name
        → IsDone (D.state target.new) backup.new.damaged.items name) }
    ensures backs { OnOk result (F.tells folder.new → D.tells target.new
        → IsBacking (F.files folder.old) (D.state target.old) draft.now
        → BacksUp (F.files folder.old) (D.state target.old) (D.state target.new) draft.now
        backup.old backup.new) }

    // whatever the result is: so at every moment
    ensures copies { F.tells folder.new → D.tells target.new
        → IsBacking (F.files folder.old) (D.state target.old) draft.now
        → HasCopies (F.files folder.old) (D.state target.new) draft.now }

    ensures same { F.tells folder.new → F.files folder.new ≡ F.files folder.old }
    ensures told_source { F.tells folder.new → F.tells folder.old }
    ensures told { D.tells target.new → D.tells target.old }
{
    let mut all = true;
    'names: for name in names {
        let there = copy_new(alloc, folder, target, draft, kind, name, backup)?;
        all = both(all, there);
    }
    Ok(all)
}
