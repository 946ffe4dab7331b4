//! A journal is copied.
ghost use Rattle.std.specs.Prelude.{◌≡◌, ◌≤◌, IfOk, List, length, ℕ};
ghost use Rattle.disk.specs.States.{Files};
ghost use Rattle.journal.specs.Journals.{EndsAt};
ghost use Rattle.record_store.specs.Names.{IsJournal};
ghost use Rattle.store_backup.specs.Backups.{Becomes, IsJournalAt, IsOpenFor, IsReadAt};
ghost use Rattle.store_backup.specs.Drafts.{Places};

use crate::draft::{begin, place, push};
use crate::fault::CopyFault;
use crate::outcome::Outcome;
use disk::{Disk, FileName};
use journal::batch_len;
use record_store::JournalDamage;
use std::alloc::Global;
use store_reading::{
    CheckFault, FileFault, Folder, JournalFile, ReadFault, check_journal, read_journal,
};

// the octets before those of a batch
const HEAD: usize = 5;

// what stands behind the batches of a journal that is at rest
const CLOSED: u8 = 254;

// Where the batches of a journal end.
fn end_of_batches(file: &[u8]) -> usize
    ensures within { result ≤ length file.now }
    ensures ends { (bodies : List (List ℕ)) × EndsAt file.now bodies result }
{
    let mut end = 0;
    while let Some(len) = batch_len(&file[end..]) {
        end += HEAD + len;
    }
    end
}

// Writes the batches of the journal of a name, and a closed octet behind them.
fn write_journal<D: Disk>(
    alloc: Global,
    target: &mut D,
    draft: &FileName,
    name: &FileName,
    file: &[u8],
) -> Result<Outcome, CopyFault>
    ensures becomes { IfOk result (λ outcome. D.tells target.new → (files : Files)
        → IsOpenFor files (D.state target.old) draft.now name.now
        → IsJournalAt files name.now file.now
        → Becomes files (D.state target.old) (D.state target.new) draft.now name.now outcome) }

    // whatever the result is: so at every moment
    ensures places { D.tells target.new → (files : Files)
        → IsOpenFor files (D.state target.old) draft.now name.now
        → IsJournalAt files name.now file.now
        → Places files (D.state target.old) (D.state target.new) draft.now name.now }

    ensures told { D.tells target.new → D.tells target.old }
{
    let end = end_of_batches(file);
    begin(alloc, target, draft)?;
    push(alloc, target, draft, &file[..end])?;
    push(alloc, target, draft, &[CLOSED])?;
    place(alloc, target, draft, name)?;
    Ok(Outcome::Copied {
        octets: (end as u64).saturating_add(1),
    })
}

// Copies the journal of a name, which was read, unless it is damaged.
fn copy_read<D: Disk>(
    alloc: Global,
    target: &mut D,
    draft: &FileName,
    name: &FileName,
    journal: &JournalFile,
) -> Result<Outcome, CopyFault>
    ensures becomes { IfOk result (λ outcome. D.tells target.new → (files : Files)
        → IsOpenFor files (D.state target.old) draft.now name.now
        → IsReadAt files name.now journal.now
        → Becomes files (D.state target.old) (D.state target.new) draft.now name.now outcome) }

    // whatever the result is: so at every moment
    ensures places { D.tells target.new → (files : Files)
        → IsOpenFor files (D.state target.old) draft.now name.now
        → IsReadAt files name.now journal.now
        → Places files (D.state target.old) (D.state target.new) draft.now name.now }

    ensures told { D.tells target.new → D.tells target.old }
{
    match journal {
        JournalFile::Octets(octets) => match check_journal(alloc, journal) {
            Ok(()) => write_journal(alloc, target, draft, name, octets),
            Err(CheckFault::Damaged(damage)) => Ok(Outcome::Damaged(damage)),
            Err(fault) => Err(CopyFault::Read(fault.of(name.copy(alloc)?))),
        },
        JournalFile::Hidden { at } => Ok(Outcome::Damaged(FileFault::Journal(JournalDamage::Hidden {
            at: *at,
        }))),
    }
}

/// Copies a journal, whose name is not taken: its batches, and none of what a crash has left behind them, or a
/// server is writing there. A damaged one is not copied.
pub(crate) fn copy_journal<F: Folder, D: Disk>(
    alloc: Global,
    folder: &mut F,
    target: &mut D,
    draft: &FileName,
    name: &FileName,
) -> Result<Outcome, CopyFault>
    requires { IsJournal name.now }
    ensures becomes { IfOk result (λ outcome. F.tells folder.new → D.tells target.new
        → IsOpenFor (F.files folder.old) (D.state target.old) draft.now name.now
        → Becomes (F.files folder.old) (D.state target.old) (D.state target.new) draft.now name.now
        outcome) }

    // whatever the result is: so at every moment
    ensures places { F.tells folder.new → D.tells target.new
        → IsOpenFor (F.files folder.old) (D.state target.old) draft.now name.now
        → Places (F.files folder.old) (D.state target.old) (D.state target.new) draft.now name.now }

    ensures same { F.tells folder.new → F.files folder.new ≡ F.files folder.old }
    ensures told_source { F.tells folder.new → F.tells folder.old }
    ensures told { D.tells target.new → D.tells target.old }
{
    match read_journal(alloc, folder, name) {
        Ok(journal) => copy_read(alloc, target, draft, name, &journal),
        Err(ReadFault::Gone) => Ok(Outcome::Gone),
        Err(fault) => Err(CopyFault::Read(fault)),
    }
}
