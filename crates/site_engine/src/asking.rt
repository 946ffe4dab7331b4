//! A site asks.

ghost use Rattle.std.specs.Prelude.{◌≡◌, ◌⊎◌, true};
ghost use Rattle.archive_join.specs.Ranges.{IsOfRange};
ghost use Rattle.store_site.specs.Ranges.{IsInSome};
ghost use Rattle.site_engine.specs.Exchanges.{Pulls};
ghost use Rattle.site_engine.specs.Growing.{GrowsBy};
ghost use Rattle.site_engine.specs.Lines.{summary_line};
ghost use Rattle.site_engine.specs.Telling.{TellsEnd};

use crate::directed::Directed;
use crate::exchange::Exchange;
use crate::fault::{SiteFault, cause_of};
use crate::outcome::{report_fault, report_summary};
use crate::summary::Summary;
use disk::Disk;
use octet_devices::{Input, Output};
use reconcile::{MemorySet, Peer, Place, Plan, Range, RangedSet, Stopped, reconcile};
use site_pipe::{Amount, PipePeer};
use std::alloc::Global;
use store_reading::Folder;
use store_site::{StoreSite, ranges_of, read_set};

// Reconciles a set with a peer in each of some ranges.
fn reconcile_ranges<S: RangedSet, P: Peer>(
    alloc: Global,
    own: &mut S,
    peer: &mut P,
    ranges: &[Range],
) -> Result<(), Stopped>
    ensures { GrowsBy (IsInSome ranges.now) (S.entries own.old) (S.entries own.new) }
{
    'reconciling: for range in ranges {
        reconcile(alloc, own, peer, range, Plan::standard())?;
    }
    Ok(())
}

// What crossed, and what the other site does not take.
fn summary_of<R: Input + Drop, W: Output + Drop>(
    peer: &Directed<PipePeer<R, W>>,
    exchange: &Exchange,
) -> Summary {
    let traffic = peer.peer.traffic();
    Summary {
        requests: traffic.requests,
        sent: traffic.sent,
        got: traffic.got,
        is_dry: false,
        not_taken: if exchange.does_push() {
            peer.held_back.records
        } else {
            0
        },
    }
}

// Asks the other site of an input and an output for what the own set lacks in the range, and puts what
// the other lacks, where the exchange says so and the other takes records.
fn ask<S: RangedSet, R: Input + Drop, W: Output + Drop>(
    alloc: Global,
    own: &mut S,
    exchange: &Exchange,
    input: R,
    output: W,
) -> Result<Directed<PipePeer<R, W>>, SiteFault>
    ensures { GrowsBy (IsOfRange exchange.now.range) (S.entries own.old) (S.entries own.new) }
{
    let ranges = ranges_of(alloc, &exchange.range)?;
    let mut pipe = PipePeer::new(alloc, input, output, exchange.room);
    pipe.greet()?;
    let takes = !pipe.is_read_only();
    let mut peer = Directed::new(pipe, takes && exchange.does_push() && !exchange.is_dry);
    match reconcile_ranges(alloc, own, &mut peer, ranges.as_slice()) {
        Ok(()) => {}
        Err(stopped) => return Err(cause_of(stopped, peer.peer.fault())),
    }
    peer.peer.finish()?;
    Ok(peer)
}

// How many records a set has, and how many octets their archive has.
fn amount_in(alloc: Global, set: &mut MemorySet) -> Result<Amount, SiteFault> {
    let whole = Range {
        low: Place::first(alloc),
        high: None,
    };
    match set.sum(&whole) {
        Ok(sum) => Ok(Amount {
            records: sum.records,
            octets: sum.octets,
        }),
        Err(fault) => Err(SiteFault::Stopped(Stopped::Own(fault))),
    }
}

// What came to be more.
fn difference(after: Amount, before: Amount) -> Amount {
    Amount {
        records: after.records.saturating_sub(before.records),
        octets: after.octets.saturating_sub(before.octets),
    }
}

// An amount, where it counts.
fn amount_if(counts: bool, amount: Amount) -> Amount {
    if counts {
        amount
    } else {
        difference(amount, amount)
    }
}

// Asks, but keeps nothing: what is got goes into the set in memory alone.
fn ask_in_memory<R: Input + Drop, W: Output + Drop>(
    alloc: Global,
    mut set: MemorySet,
    exchange: &Exchange,
    input: R,
    output: W,
) -> Result<Summary, SiteFault> {
    let before = amount_in(alloc, &mut set)?;
    let peer = ask(alloc, &mut set, exchange, input, output)?;
    let summary = summary_of(&peer, exchange);
    if !exchange.is_dry {
        return Ok(summary);
    }
    let after = amount_in(alloc, &mut set)?;
    let takes = !peer.peer.is_read_only();
    Ok(Summary {
        requests: summary.requests,
        sent: amount_if(takes && exchange.does_push(), peer.held_back),
        got: amount_if(exchange.does_pull(), difference(after, before)),
        is_dry: true,
        not_taken: if takes { 0 } else { summary.not_taken },
    })
}

// Asks, and adds what is got to a store.
fn ask_for_store<D: Disk, R: Input + Drop, W: Output + Drop>(
    alloc: Global,
    disk: &mut D,
    set: MemorySet,
    exchange: &Exchange,
    input: R,
    output: W,
) -> Result<Summary, SiteFault> {
    let mut site = StoreSite::new(alloc, disk, set);
    match ask(alloc, &mut site, exchange, input, output) {
        Ok(peer) => Ok(summary_of(&peer, exchange)),
        Err(fault) => Err(fault.of_store(site.into_fault())),
    }
}

// Asks with a store that nothing is added to.
fn compare<F: Folder, R: Input + Drop, W: Output + Drop>(
    alloc: Global,
    folder: &mut F,
    exchange: &Exchange,
    input: R,
    output: W,
) -> Result<Summary, SiteFault>
    ensures same { F.tells folder.new → F.files folder.new ≡ F.files folder.old }
    ensures told { F.tells folder.new → F.tells folder.old }
{
    let set = read_set(alloc, folder, exchange.range, u64::MAX)?;
    ask_in_memory(alloc, set, exchange, input, output)
}

// Asks with a store that what is got is added to, unless the exchange says otherwise.
fn exchange_records<F: Folder, D: Disk, R: Input + Drop, W: Output + Drop>(
    alloc: Global,
    folder: &mut F,
    disk: &mut D,
    exchange: &Exchange,
    input: R,
    output: W,
) -> Result<Summary, SiteFault>
    ensures same { F.tells folder.new → F.files folder.new ≡ F.files folder.old }
    ensures told { F.tells folder.new → F.tells folder.old }
    ensures untouched { (exchange.now.is_dry ≡ true) ⊎ ¬ (Pulls exchange.now)
        → D.state disk.new ≡ D.state disk.old }
{
    if exchange.is_dry || !exchange.does_pull() {
        return compare(alloc, folder, exchange, input, output);
    }
    let set = read_set(alloc, folder, exchange.range, u64::MAX)?;
    ask_for_store(alloc, disk, set, exchange, input, output)
}

/// Reconciles the records of a store, of a range of time, with those of the other site of an input and
/// an output. What is got is added to the folder of the disk, which is that of the store, as
/// [`add_archive`](store_addition::add_archive) adds; records are put, or got, or both, as the exchange
/// says. Where records are only put or counted the disk is not touched.
///
/// Returns the exit status: `DONE` where both hold what they are to hold; `REFUSED` where the other site
/// does not take what it lacks; `NO_MEMORY` where memory ran out; else `FAULT`. A line says what crossed,
/// or what went wrong. What came before a fault stays.
pub fn reconcile_store<F: Folder, D: Disk, R: Input + Drop, W: Output + Drop, N: Output>(
    alloc: Global,
    folder: &mut F,
    disk: &mut D,
    exchange: &Exchange,
    input: R,
    output: W,
    diagnostics: &mut N,
) -> u8
    ensures tells { TellsEnd summary_line (N.state diagnostics.old) (N.state diagnostics.new) result }

    // where records are only put or counted
    ensures untouched { (exchange.now.is_dry ≡ true) ⊎ ¬ (Pulls exchange.now)
        → D.state disk.new ≡ D.state disk.old }

    ensures same { F.tells folder.new → F.files folder.new ≡ F.files folder.old }
    ensures told { F.tells folder.new → F.tells folder.old }
{
    match exchange_records(alloc, folder, disk, exchange, input, output) {
        Ok(summary) => report_summary(alloc, &summary, diagnostics),
        Err(fault) => report_fault(alloc, &fault, diagnostics),
    }
}

/// The same, but nothing is added to the store, whatever is got: for an exchange that only puts or
/// counts.
pub fn compare_store<F: Folder, R: Input + Drop, W: Output + Drop, N: Output>(
    alloc: Global,
    folder: &mut F,
    exchange: &Exchange,
    input: R,
    output: W,
    diagnostics: &mut N,
) -> u8
    ensures tells { TellsEnd summary_line (N.state diagnostics.old) (N.state diagnostics.new) result }

    ensures same { F.tells folder.new → F.files folder.new ≡ F.files folder.old }
    ensures told { F.tells folder.new → F.tells folder.old }
{
    match compare(alloc, folder, exchange, input, output) {
        Ok(summary) => report_summary(alloc, &summary, diagnostics),
        Err(fault) => report_fault(alloc, &fault, diagnostics),
    }
}
