//! What is left of a segment gets its name.
ghost use Rattle.std.specs.Prelude.{List, OnOk, ℕ};
ghost use Rattle.journal.specs.Journals.{IsOnDisk, IsSound};
ghost use Rattle.archive_text.specs.Entries.{Entry};
ghost use Rattle.store_upkeep.specs.Compaction.{MayBePlaced, shown};
ghost use Rattle.store_expiry.specs.Causes.{TellsCause};
ghost use Rattle.store_expiry.specs.Expiry.{IsSpared, NoneIsGone, Places, Sheds};
ghost use Rattle.store_expiry.specs.Surveys.{IsFoundAt};

use crate::expired::Expired;
use crate::fault::ExpireFault;
use crate::rest::prepare_rest;
use crate::survey::Found;
use disk::{Disk, DiskFault, FileName};
use std::alloc::Global;
use store_upkeep::{StreamDisk, discard_draft, write_fault};

// Gives a draft that is on the disk its name, in place of what is there.
fn place<D: Disk>(disk: &mut D, draft: &FileName, name: &FileName) -> Result<(), DiskFault>
    ensures placed { OnOk result (D.tells disk.new → (period text : List ℕ) (es : List Entry)
        → MayBePlaced (D.state disk.old) draft.now name.now period text es
        → IsOnDisk (D.state disk.new) name.now text) }

    // whatever the result is: so at every moment
    ensures places { D.tells disk.new → (period text : List ℕ) (es : List Entry)
        → MayBePlaced (D.state disk.old) draft.now name.now period text es
        → Places (D.state disk.old) (D.state disk.new) draft.now name.now text }

    ensures told { D.tells disk.new → D.tells disk.old }
{
    disk.rename(draft, name)?;
    disk.sync_names()?;
    Ok(())
}

/// Puts what is left of a segment, of which this was found, beside it. Where that fails, the draft is
/// removed.
pub fn keep_left<D: StreamDisk>(
    alloc: Global,
    disk: &mut D,
    expired: &Expired,
    name: &FileName,
    found: &Found,
) -> Result<(), ExpireFault>
    ensures spared { OnOk result (D.tells disk.new → IsSound (D.state disk.old)
        → IsFoundAt expired.now (shown (D.state disk.old)) name.now found.now
        → IsSpared expired.now (D.state disk.new) name.now) }
    ensures sound { OnOk result (D.tells disk.new → IsSound (D.state disk.old)
        → IsFoundAt expired.now (shown (D.state disk.old)) name.now found.now
        → IsSound (D.state disk.new)) }

    // whatever the result is: so at every moment
    ensures sheds { D.tells disk.new → IsSound (D.state disk.old)
        → IsFoundAt expired.now (shown (D.state disk.old)) name.now found.now
        → Sheds expired.now (D.state disk.old) (D.state disk.new) }
    ensures stay { D.tells disk.new → IsSound (D.state disk.old)
        → IsFoundAt expired.now (shown (D.state disk.old)) name.now found.now
        → NoneIsGone expired.now (D.state disk.old) (D.state disk.new) }

    ensures cause { D.tells disk.new → IsSound (D.state disk.old)
        → IsFoundAt expired.now (shown (D.state disk.old)) name.now found.now
        → (n : ℕ) → TellsCause expired.now (shown (D.state disk.new)) n n result }
    ensures told { D.tells disk.new → D.tells disk.old }
{
    if !found.survey.tally.left {
        return Ok(());
    }
    let rest = prepare_rest(alloc, disk, expired, name, &found.period)?;
    match place(disk, &rest.draft, &rest.name) {
        Ok(()) => Ok(()),
        Err(fault) => {
            discard_draft(disk, &rest.draft);
            Err(ExpireFault::Store(write_fault(alloc, &rest.name, fault)))
        }
    }
}
