//! A site answers.

ghost use Rattle.std.specs.Prelude.{◌≡◌};
ghost use Rattle.site_engine.specs.Lines.{answer_line};
ghost use Rattle.site_engine.specs.Telling.{TellsEnd};

use crate::fault::SiteFault;
use crate::outcome::{report_answer, report_fault};
use crate::summary::Summary;
use archive_sets::InRange;
use disk::Disk;
use octet_devices::{Input, Output};
use reconcile::RangedSet;
use site_pipe::{Traffic, answer};
use std::alloc::Global;
use store_reading::Folder;
use store_site::{StoreSite, read_set};

// every record
const ALL: InRange = InRange {
    from: None,
    to: None,
    undated: false,
};

// What crossed.
fn summary_of(traffic: Traffic) -> Summary {
    Summary {
        requests: traffic.requests,
        sent: traffic.sent,
        got: traffic.got,
        is_dry: false,
        not_taken: 0,
    }
}

// Answers from a set.
fn answer_from<S: RangedSet, R: Input + Drop, W: Output + Drop>(
    alloc: Global,
    set: &mut S,
    is_read_only: bool,
    room: u64,
    input: R,
    output: W,
) -> Result<Summary, SiteFault> {
    let traffic = answer(alloc, set, is_read_only, room, input, output)?;
    Ok(summary_of(traffic))
}

// Answers from a store, and adds what is put.
fn answer_adding<F: Folder, D: Disk, R: Input + Drop, W: Output + Drop>(
    alloc: Global,
    folder: &mut F,
    disk: &mut D,
    room: u64,
    input: R,
    output: W,
) -> Result<Summary, SiteFault>
    ensures same { F.tells folder.new → F.files folder.new ≡ F.files folder.old }
    ensures told { F.tells folder.new → F.tells folder.old }
{
    let set = read_set(alloc, folder, ALL, u64::MAX)?;
    let mut site = StoreSite::new(alloc, disk, set);
    match answer_from(alloc, &mut site, false, room, input, output) {
        Ok(summary) => Ok(summary),
        Err(fault) => Err(fault.of_store(site.into_fault())),
    }
}

// Answers from a store, and takes nothing.
fn answer_reading<F: Folder, R: Input + Drop, W: Output + Drop>(
    alloc: Global,
    folder: &mut F,
    input: R,
    output: W,
) -> Result<Summary, SiteFault>
    ensures same { F.tells folder.new → F.files folder.new ≡ F.files folder.old }
    ensures told { F.tells folder.new → F.tells folder.old }
{
    let mut set = read_set(alloc, folder, ALL, u64::MAX)?;
    answer_from(alloc, &mut set, true, u64::MAX, input, output)
}

/// Answers what the other site of an input and an output asks of a store. Records that it puts, of at
/// most `room` octets in all, are added to the folder of the disk, which is that of the store.
///
/// Returns the exit status: `DONE` where the other site ended the exchange; `NO_MEMORY` where memory ran
/// out; else `FAULT`. A line says what crossed, or what went wrong. What came before a fault stays.
pub fn answer_store<F: Folder, D: Disk, R: Input + Drop, W: Output + Drop, N: Output>(
    alloc: Global,
    folder: &mut F,
    disk: &mut D,
    room: u64,
    input: R,
    output: W,
    diagnostics: &mut N,
) -> u8
    ensures tells { TellsEnd answer_line (N.state diagnostics.old) (N.state diagnostics.new) result }

    ensures same { F.tells folder.new → F.files folder.new ≡ F.files folder.old }
    ensures told { F.tells folder.new → F.tells folder.old }
{
    match answer_adding(alloc, folder, disk, room, input, output) {
        Ok(summary) => report_answer(alloc, &summary, diagnostics),
        Err(fault) => report_fault(alloc, &fault, diagnostics),
    }
}

/// The same of a store that takes no records.
pub fn answer_read_only<F: Folder, R: Input + Drop, W: Output + Drop, N: Output>(
    alloc: Global,
    folder: &mut F,
    input: R,
    output: W,
    diagnostics: &mut N,
) -> u8
    ensures tells { TellsEnd answer_line (N.state diagnostics.old) (N.state diagnostics.new) result }

    ensures same { F.tells folder.new → F.files folder.new ≡ F.files folder.old }
    ensures told { F.tells folder.new → F.tells folder.old }
{
    match answer_reading(alloc, folder, input, output) {
        Ok(summary) => report_answer(alloc, &summary, diagnostics),
        Err(fault) => report_fault(alloc, &fault, diagnostics),
    }
}
