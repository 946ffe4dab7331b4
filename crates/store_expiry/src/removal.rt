//! A segment is told and removed.
ghost use Rattle.std.specs.Prelude.{◌≡◌, ◌≢◌, IsTrue, List, None, OnOk, false, ℕ};
ghost use Rattle.disk.specs.Calls.{IsUnchanged};
ghost use Rattle.journal.specs.Journals.{IsSound};
ghost use Rattle.store_upkeep.specs.Compaction.{shown};
ghost use Rattle.store_expiry.specs.Causes.{TellsCause};
ghost use Rattle.store_expiry.specs.Expiry.{IsGone, IsSpared, KeepsOrSettles, Sheds};
ghost use Rattle.store_expiry.specs.Lines.{WritesLines};
ghost use Rattle.store_expiry.specs.Surveys.{IsFoundAt};
ghost use Rattle.store_expiry.specs.declared.expired.Expired.{Expired as expired_Expired};

use crate::expired::Expired;
use crate::fault::ExpireFault;
use crate::line::tell;
use crate::placing::keep_left;
use crate::survey::Found;
use disk::{Disk, FileName};
use octet_devices::Output;
use std::alloc::Global;
use store_reading::ReadFault;
use store_upkeep::{CompactFault, StreamDisk, write_fault};

// Removes a segment.
fn remove<D: Disk>(alloc: Global, disk: &mut D, name: &FileName) -> Result<(), CompactFault>
    ensures gone { OnOk result (D.tells disk.new → shown (D.state disk.new) name.now ≡ None) }

    // whatever the result is: so at every moment
    ensures sheds { D.tells disk.new → (x : expired_Expired) → IsSpared x (D.state disk.old) name.now
        → Sheds x (D.state disk.old) (D.state disk.new) }
    ensures others { D.tells disk.new → (other : List ℕ) → other ≢ name.now
        → shown (D.state disk.new) other ≡ shown (D.state disk.old) other }
    ensures lost { D.tells disk.new → (D.state disk.new).lost ≡ (D.state disk.old).lost }

    ensures told { D.tells disk.new → D.tells disk.old }
{
    match disk.remove(name) {
        Ok(()) => Ok(()),
        Err(fault) => Err(write_fault(alloc, name, fault)),
    }
}

/// Removes a segment, of which this was found, once what is left of it is on the disk beside it, and its
/// line was written.
pub fn shed<D: StreamDisk, W: Output>(
    alloc: Global,
    disk: &mut D,
    expired: &Expired,
    name: &FileName,
    found: &Found,
    output: &mut W,
) -> Result<(), ExpireFault>
    ensures gone { OnOk result (D.tells disk.new → shown (D.state disk.new) name.now ≡ None) }
    ensures sound { OnOk result (D.tells disk.new → IsSound (D.state disk.old)
        → IsFoundAt expired.now (shown (D.state disk.old)) name.now found.now
        → IsSound (D.state disk.new)) }

    // whatever the result is: so at every moment
    ensures sheds { D.tells disk.new → IsSound (D.state disk.old)
        → IsFoundAt expired.now (shown (D.state disk.old)) name.now found.now
        → Sheds expired.now (D.state disk.old) (D.state disk.new) }
    ensures lines { D.tells disk.new → IsSound (D.state disk.old)
        → IsFoundAt expired.now (shown (D.state disk.old)) name.now found.now
        → WritesLines expired.now (D.state disk.old) (D.state disk.new) (W.state output.old).taken
        (W.state output.new).taken (λ (n : List ℕ). n ≡ name.now) result }

    ensures cause { D.tells disk.new → IsSound (D.state disk.old)
        → IsFoundAt expired.now (shown (D.state disk.old)) name.now found.now
        → TellsCause expired.now (shown (D.state disk.new)) (W.state output.old).failures
        (W.state output.new).failures result }
    ensures told { D.tells disk.new → D.tells disk.old }
{
    keep_left(alloc, disk, expired, name, found)?;
    tell(alloc, found, output)?;
    remove(alloc, disk, name)?;
    Ok(())
}

/// Brings removals to the disk, if there were any.
pub fn settle_removals<D: Disk>(disk: &mut D, removed: bool) -> Result<(), CompactFault>
    ensures gone { OnOk result (D.tells disk.new → IsSound (D.state disk.old) → IsTrue removed
        → (name : List ℕ) → shown (D.state disk.new) name ≡ None → IsGone (D.state disk.new) name) }
    ensures same { D.tells disk.new → removed ≡ false
        → IsUnchanged (D.state disk.old) (D.state disk.new) }

    // whatever the result is: so at every moment
    ensures settles { D.tells disk.new → KeepsOrSettles (D.state disk.old) (D.state disk.new) }

    ensures told { D.tells disk.new → D.tells disk.old }
{
    if !removed {
        return Ok(());
    }
    match disk.sync_names() {
        Ok(()) => Ok(()),
        Err(fault) => Err(CompactFault::Read(ReadFault::Folder { fault })),
    }
}
