//! What is expired is removed from a store's folder.
ghost use Rattle.std.specs.Prelude.{◌≡◌, ◌↔◌, Contains, IfErr, IfOk, IfSome, IsNone, List, OnOk, ℕ};
ghost use Rattle.std.specs.Prelude.{⊤, false, true};
ghost use Rattle.disk.specs.Calls.{IsUnchanged};
ghost use Rattle.journal.specs.Journals.{IsSound};
ghost use Rattle.store_upkeep.specs.Compaction.{shown};
ghost use Rattle.store_expiry.specs.Causes.{IsExpireCause, TellsCause};
ghost use Rattle.store_expiry.specs.Expiry.{AreClear, AreWholeOrUnexpired, IsClear, RemovedAreGone, Sheds};
ghost use Rattle.store_expiry.specs.Lines.{AreApart, WritesLines};
ghost use Rattle.store_expiry.specs.Surveys.{IsFoundAt, IsWholeOrUnexpired};

use crate::expired::Expired;
use crate::fault::ExpireFault;
use crate::line::tell;
use crate::removal::{settle_removals, shed};
use crate::survey::{Found, survey_segment};
use crate::turns::days_first;
use disk::FileName;
use octet_devices::Output;
use std::alloc::Global;
use store_reading::segment_period;
use store_upkeep::{StreamDisk, list_names};

// What is found of the file of a name, where it is a segment that has an expired record. It is not read if
// the day in its name tells that it has none.
fn find<D: StreamDisk>(
    alloc: Global,
    disk: &mut D,
    expired: &Expired,
    name: &FileName,
) -> Result<Option<Found>, ExpireFault>
    ensures found { IfOk result (λ found. D.tells disk.new → IsSound (D.state disk.old)
        → IfSome found (IsFoundAt expired.now (shown (D.state disk.new)) name.now)) }
    ensures none { IfOk result (λ found. D.tells disk.new → IsSound (D.state disk.old)
        → IsNone found → IsClear expired.now (shown (D.state disk.new)) name.now) }
    ensures whole { OnOk result (D.tells disk.new → IsSound (D.state disk.old)
        → IsWholeOrUnexpired expired.now (shown (D.state disk.old)) name.now) }
    ensures cause { IfErr result (λ fault. D.tells disk.new → IsSound (D.state disk.old) → (n : ℕ)
        → IsExpireCause expired.now (shown (D.state disk.new)) n n fault) }
    ensures same { D.tells disk.new → IsUnchanged (D.state disk.old) (D.state disk.new) }
    ensures told { D.tells disk.new → D.tells disk.old }
{
    let Some(period) = segment_period(name.as_octets()) else {
        return Ok(None);
    };
    if expired.spares(name.as_octets()) {
        return Ok(None);
    }
    let survey = survey_segment(alloc, disk, expired, name, &period)?;
    if !survey.tally.expired {
        return Ok(None);
    }
    Ok(Some(Found { period, survey }))
}

// Removes what is expired of the file of a name, where that is a segment. Gives whether it removed one.
fn expire_file<D: StreamDisk, W: Output>(
    alloc: Global,
    disk: &mut D,
    expired: &Expired,
    dry_run: bool,
    name: &FileName,
    output: &mut W,
) -> Result<bool, ExpireFault>
    ensures clear { OnOk result (D.tells disk.new → IsSound (D.state disk.old) → dry_run ≡ false
        → IsClear expired.now (shown (D.state disk.new)) name.now) }
    ensures whole { OnOk result (D.tells disk.new → IsSound (D.state disk.old)
        → IsWholeOrUnexpired expired.now (shown (D.state disk.old)) name.now) }
    ensures removed { IfOk result (λ removed. D.tells disk.new → removed ≡ false
        → IsUnchanged (D.state disk.old) (D.state disk.new)) }
    ensures idle { IfOk result (λ removed. dry_run ≡ true → removed ≡ false) }
    ensures sound { OnOk result (D.tells disk.new → IsSound (D.state disk.old)
        → IsSound (D.state disk.new)) }

    // whatever the result is: so at every moment
    ensures sheds { D.tells disk.new → IsSound (D.state disk.old)
        → Sheds expired.now (D.state disk.old) (D.state disk.new) }
    ensures lines { D.tells disk.new → IsSound (D.state disk.old)
        → WritesLines expired.now (D.state disk.old) (D.state disk.new) (W.state output.old).taken
        (W.state output.new).taken (λ (n : List ℕ). n ≡ name.now) result }
    ensures dry { D.tells disk.new → dry_run ≡ true
        → IsUnchanged (D.state disk.old) (D.state disk.new) }

    ensures cause { D.tells disk.new → IsSound (D.state disk.old)
        → TellsCause expired.now (shown (D.state disk.new)) (W.state output.old).failures
        (W.state output.new).failures result }
    ensures told { D.tells disk.new → D.tells disk.old }
{
    let Some(found) = find(alloc, disk, expired, name)? else {
        return Ok(false);
    };
    if dry_run {
        tell(alloc, &found, output)?;
        return Ok(false);
    }
    shed(alloc, disk, expired, name, &found, output)?;
    Ok(true)
}

// Whether one of two is so.
fn either(one: bool, other: bool) -> bool
    ensures { (result ≡ false) ↔ ((one ≡ false) × (other ≡ false)) }
{
    one || other
}

// Removes what is expired of the files of these names, one behind the other. Gives whether it removed any.
fn expire_each<D: StreamDisk, W: Output>(
    alloc: Global,
    disk: &mut D,
    expired: &Expired,
    dry_run: bool,
    names: &[FileName],
    output: &mut W,
) -> Result<bool, ExpireFault>
    ensures clear { OnOk result (D.tells disk.new → IsSound (D.state disk.old) → dry_run ≡ false
        → (name : List ℕ) → Contains names.now name
        → IsClear expired.now (shown (D.state disk.new)) name) }
    ensures whole { OnOk result (D.tells disk.new → IsSound (D.state disk.old)
        → (name : List ℕ) → Contains names.now name
        → IsWholeOrUnexpired expired.now (shown (D.state disk.old)) name) }
    ensures removed { IfOk result (λ removed. D.tells disk.new → removed ≡ false
        → IsUnchanged (D.state disk.old) (D.state disk.new)) }
    ensures idle { IfOk result (λ removed. dry_run ≡ true → removed ≡ false) }
    ensures sound { OnOk result (D.tells disk.new → IsSound (D.state disk.old)
        → IsSound (D.state disk.new)) }

    // whatever the result is: so at every moment
    ensures sheds { D.tells disk.new → IsSound (D.state disk.old)
        → Sheds expired.now (D.state disk.old) (D.state disk.new) }
    ensures lines { D.tells disk.new → IsSound (D.state disk.old)
        → AreApart names.now
        → WritesLines expired.now (D.state disk.old) (D.state disk.new) (W.state output.old).taken
        (W.state output.new).taken (Contains names.now) result }
    ensures dry { D.tells disk.new → dry_run ≡ true
        → IsUnchanged (D.state disk.old) (D.state disk.new) }

    ensures cause { D.tells disk.new → IsSound (D.state disk.old)
        → TellsCause expired.now (shown (D.state disk.new)) (W.state output.old).failures
        (W.state output.new).failures result }
    ensures told { D.tells disk.new → D.tells disk.old }
{
    let mut removed = false;
    'names: for name in names {
        let gone = expire_file(alloc, disk, expired, dry_run, name, output)?;
        removed = either(removed, gone);
    }
    Ok(removed)
}

/// Removes what is expired from the segments of a store's folder. A segment that has only expired records
/// is removed; of another one that has some, those that are not expired are written as a segment first,
/// which is on the disk under its name before the old one is removed. One that has none stays, and is not
/// read if the day in its name tells so. Journals stay, and names that do not count.
///
/// Before a segment is removed its line is written: `PERIOD COUNT OCTETS SHA256`, what it was called after,
/// how many records and octets it had, and its SHA-256. Undated segments come first, then days in their
/// order, and then mixed segments. With `dry_run` the lines are written, and nothing is changed.
///
/// Each segment that is read is read to its end first: it must be an archive of entries of its period, and
/// its name must have the SHA-256 of its octets. What is written is read again before it gets its name. In
/// the end the removals are brought to the disk.
///
/// # Errors
/// The first fault, and at which file. A damaged segment stays as it is. Whatever the fault is, what is not
/// expired is held as before; the next call goes on.
pub fn expire<D: StreamDisk, W: Output>(
    alloc: Global,
    disk: &mut D,
    expired: Expired,
    dry_run: bool,
    output: &mut W,
) -> Result<(), ExpireFault>
    // no segment has an expired record
    ensures clear { OnOk result (D.tells disk.new → IsSound (D.state disk.old) → dry_run ≡ false
        → AreClear expired (shown (D.state disk.new))) }

    // each segment is whole, or the day in its name tells that it has no expired record
    ensures whole { OnOk result (D.tells disk.new → IsSound (D.state disk.old)
        → AreWholeOrUnexpired expired (shown (D.state disk.old))) }

    // what is gone is gone on the disk
    ensures gone { OnOk result (D.tells disk.new → IsSound (D.state disk.old)
        → RemovedAreGone (D.state disk.old) (D.state disk.new)) }

    // whatever the result is, what is not expired is held as before, and nothing else, and a damaged segment
    // is the same: so at every moment
    ensures sheds { D.tells disk.new → IsSound (D.state disk.old)
        → Sheds expired (D.state disk.old) (D.state disk.new) }

    // whatever the result is, each segment that is gone was told, once; and in the end each that had an
    // expired record
    ensures lines { D.tells disk.new → IsSound (D.state disk.old)
        → WritesLines expired (D.state disk.old) (D.state disk.new) (W.state output.old).taken
        (W.state output.new).taken (λ (n : List ℕ). ⊤) result }

    // nothing is changed if that is asked for
    ensures dry { D.tells disk.new → dry_run ≡ true
        → IsUnchanged (D.state disk.old) (D.state disk.new) }

    // a segment that is told as damaged is, a name that is told as taken is, and the output failed just
    // where that is told
    ensures cause { D.tells disk.new → IsSound (D.state disk.old)
        → TellsCause expired (shown (D.state disk.new)) (W.state output.old).failures
        (W.state output.new).failures result }

    ensures told { D.tells disk.new → D.tells disk.old }
{
    let names = list_names(alloc, disk)?;
    let turns = days_first(alloc, names.as_slice())?;
    let removed = expire_each(alloc, disk, &expired, dry_run, &turns, output)?;
    settle_removals(disk, removed)?;
    Ok(())
}
