//! Runs are joined.

ghost use Rattle.std.specs.Prelude.{◌≡◌, ◌≤◌, List, IfOk, drop, length, map, take};
ghost use Rattle.archive_text.specs.Entries.{Entry};
ghost use Rattle.archive_text.specs.Text.{IsArchive, text_of};
ghost use Rattle.archive_text.specs.declared.limits.TheConstants.{ENTRY_MAX};
ghost use Rattle.archive_pages.specs.Paged.{entries_in};
ghost use Rattle.archive_spill.specs.Faults.{fault_of};
ghost use Rattle.archive_spill.specs.Runs.{AreRunsOf, AreUnited, IsRunOf};
ghost use Rattle.archive_spill.specs.Writing.{IsOfRuns, WritesOut};

use crate::fault::SpillFault;
use crate::spill::Spill;
use archive_join::{JoinFault, Union, join_streams};
use archive_pages::PagedArchive;
use archive_text::Store;
use octet_devices::{Input, Output};
use std::alloc::Global;

// What a fault of a join is, where a fault of its output is this one. Each run is an archive that was
// written, so that one that is none was read otherwise.
fn fault_of(fault: JoinFault, told: SpillFault) -> SpillFault
    ensures { result ≡ fault_of fault told }
{
    match fault {
        JoinFault::Write { .. } => told,
        JoinFault::Memory => SpillFault::Memory,
        JoinFault::Archive { .. } | JoinFault::Read { .. } | JoinFault::Endless { .. } => {
            SpillFault::Spill
        }
    }
}

/// Writes the archive of pages as a run.
///
/// # Errors
/// `Spill`: the run could not be made or written; `Memory`.
pub fn write_run<P: Spill>(spill: &mut P, pages: &PagedArchive) -> Result<P::Run, SpillFault>
    ensures written { P.tells spill.old → IfOk result (λ run.
        IsRunOf (P.Run.state run) (entries_in pages.now)) }
    ensures tells { P.tells spill.old → P.tells spill.new }
    ensures fault { IsOfRuns result }
{
    let mut written = spill.make()?;
    if pages.write(&mut written).is_err() {
        return Err(SpillFault::Spill);
    }
    match spill.reopen(written) {
        Ok(run) => Ok(run),
        Err(_) => Err(SpillFault::Spill),
    }
}

/// Joins runs into one.
///
/// # Errors
/// `Spill` or `Memory`: some octets of the runs may have been read.
pub fn join_runs<P: Spill>(
    alloc: Global,
    spill: &mut P,
    runs: &mut [P::Run],
) -> Result<P::Run, SpillFault>
    ensures joins { P.tells spill.old → IfOk result (λ run. (xss : List (List Entry))
        → AreRunsOf (map P.Run.state runs.old) xss
        → (ys : List Entry) × IsRunOf (P.Run.state run) ys × AreUnited xss ys) }
    ensures tells { P.tells spill.old → P.tells spill.new }
    ensures size { length runs.new ≡ length runs.old }
    ensures fault { IsOfRuns result }
{
    let mut written = spill.make()?;
    if let Err(fault) = join_streams(alloc, &Union, runs, &mut written) {
        return Err(fault_of(fault, SpillFault::Spill));
    }
    match spill.reopen(written) {
        Ok(run) => Ok(run),
        Err(_) => Err(SpillFault::Spill),
    }
}

/// Joins the runs behind the first ones into one.
///
/// # Errors
/// As for [`join_runs`].
pub fn join_behind<P: Spill>(
    alloc: Global,
    spill: &mut P,
    runs: &mut [P::Run],
    first: usize,
) -> Result<P::Run, SpillFault>
    requires { first ≤ length runs.old }
    ensures joins { P.tells spill.old → IfOk result (λ run. (xss : List (List Entry))
        → AreRunsOf (map P.Run.state (drop first runs.old)) xss
        → (ys : List Entry) × IsRunOf (P.Run.state run) ys × AreUnited xss ys) }
    ensures tells { P.tells spill.old → P.tells spill.new }
    ensures front { take first runs.new ≡ take first runs.old }
    ensures size { length runs.new ≡ length runs.old }
    ensures fault { IsOfRuns result }
{
    let (_, last) = runs.split_at_mut(first);
    join_runs(alloc, spill, last)
}

/// Writes the archive of pages.
///
/// # Errors
/// `Output`: a prefix of the archive was written.
pub fn write_out<W: Output>(pages: &PagedArchive, output: &mut W) -> Result<(), SpillFault>
    ensures written { WritesOut (W.state output.old) (W.state output.new)
        (text_of (entries_in pages.now)) result }
    ensures archive { IsArchive ENTRY_MAX (entries_in pages.now) }
{
    match pages.write(output) {
        Ok(()) => Ok(()),
        Err(_) => Err(SpillFault::Output),
    }
}

/// Writes what runs hold, as one archive.
///
/// # Errors
/// `Output`, `Spill` or `Memory`: a prefix of the archive was written.
pub fn join_out<R: Input, W: Output>(
    alloc: Global,
    runs: &mut [R],
    output: &mut W,
) -> Result<(), SpillFault>
    ensures { (xss : List (List Entry)) (ys : List Entry) → AreRunsOf (map R.state runs.old) xss
        → IsArchive ENTRY_MAX ys → AreUnited xss ys
        → WritesOut (W.state output.old) (W.state output.new) (text_of ys) result }
{
    match join_streams(alloc, &Union, runs, output) {
        Ok(_) => Ok(()),
        Err(fault) => Err(fault_of(fault, SpillFault::Output)),
    }
}
