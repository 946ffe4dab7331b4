//! `stat`: what the files of a store have.
ghost use Rattle.std.specs.Prelude.{◌≡◌, IfErr, OnOk};
ghost use Rattle.driver.specs.Ended.{Tells};
ghost use Rattle.store_engine.specs.Reading.{read_telling};
ghost use Rattle.store_statistics.specs.Statistics.{RanStat};

use crate::lines::lines_of;
use crate::survey::{Survey, survey_files};
use crate::telling::tell_damaged;
use octet_devices::{Output, write_all};
use std::alloc::Global;
use store_engine::report_read_fault;
use store_reading::{Folder, ReadFault};

// Ends a survey: with the status of what was told, or by the fault that stopped it.
fn end<N: Output>(
    alloc: Global,
    surveyed: &Result<(), ReadFault>,
    told: u8,
    diagnostics: &mut N,
) -> u8
    ensures done { OnOk surveyed.now ((result ≡ told) × (N.state diagnostics.new ≡ N.state diagnostics.old)) }
    ensures fault { IfErr surveyed.now (λ fault. Tells read_telling fault (N.state diagnostics.old)
        (N.state diagnostics.new) result) }
{
    match surveyed {
        Ok(()) => told,
        Err(fault) => report_read_fault(alloc, fault, diagnostics),
    }
}

/// Writes a line for each journal and each segment of a store, in the order of their names, with what it
/// has: how many records and octets, and from when to when they are; then a line with the sums. A line on
/// the diagnostics tells each file that is damaged, which has no other. Returns the exit status: `DONE` if
/// none is, `REFUSED` if one is; `FAULT` if a file or a device failed, `NO_MEMORY` if memory ran out. The
/// digests in the names of segments are not compared.
pub fn stat_store<F: Folder, W: Output, N: Output>(
    alloc: Global,
    folder: &mut F,
    output: &mut W,
    diagnostics: &mut N,
) -> u8
    // a line on each file that counts, and the sums, or lines before a fault, which is told and has a cause
    ensures ran { RanStat (F.tells folder.new) (F.has_failed folder.new) (F.files folder.old)
        (W.state output.old) (W.state output.new) (N.state diagnostics.old)
        (N.state diagnostics.new) result }
    ensures same { F.tells folder.new → F.files folder.new ≡ F.files folder.old }
    ensures told { F.tells folder.new → F.tells folder.old }
{
    let mut survey = Survey::new(alloc);
    let surveyed = survey_files(alloc, folder, &mut survey);
    let told = tell_damaged(alloc, &survey.damaged, diagnostics);
    let Ok(lines) = lines_of(alloc, &survey.files, surveyed.is_ok()) else {
        return report_read_fault(alloc, &ReadFault::Memory, diagnostics);
    };
    if let Err(_) = write_all(output, &lines) {
        return report_read_fault(alloc, &ReadFault::Write, diagnostics);
    }
    end(alloc, &surveyed, told, diagnostics)
}
