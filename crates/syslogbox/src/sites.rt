//! `reconcile` and `answer`, over a folder of the system and the standard streams.

use crate::adding::report_folder_fault;
use crate::shared_disk::{NoTurn, SharedDisk, make_store};
use crate::stores::{explained, report_lock_fault};
use crate::timed_pipe::{Patience, TimedInput, TimedOutput};
use command_line::{AnswerWords, ReconcileWords};
use driver::{FAULT, NO_MEMORY, report};
use folder_disk::LockFile;
use itoa::Buffer;
use octet_devices::{FromRead, Output, ToWrite};
use site_engine::{Exchange, answer_read_only, answer_store, compare_store, reconcile_store};
use std::alloc::{AllocError, Global};
use std::io::IsTerminal;
use store_engine::{SystemFolder, report_file_error, report_no_store};

const NO_SITE: &[u8] =
    b"standard input is a terminal, and not another site: connect reconcile and answer by a pipe\n";

// How many octets a MiB has.
const MIB: u64 = 1 << 20;

// Reports why nothing could be added to a store, and returns the exit status.
fn report_no_turn<N: Output>(alloc: Global, dir: &str, refused: NoTurn, diagnostics: &mut N) -> u8 {
    match refused {
        NoTurn::Folder(fault) => report_folder_fault(alloc, dir, fault, diagnostics),
        NoTurn::Lock(fault) => report_lock_fault(alloc, LockFile::Addition, fault, diagnostics),
    }
}

// The store in a folder, which is made if it is missing and something may be added to it; or reports why there is
// none, and gives the exit status.
fn open_store<N: Output>(
    rt: &HostRuntime,
    alloc: Global,
    dir: &str,
    may_add: bool,
    diagnostics: &mut N,
) -> Result<SystemFolder<HostRuntime>, u8> {
    if may_add && let Err(refused) = make_store(rt, dir) {
        return Err(report_no_turn(alloc, dir, refused, diagnostics));
    }
    match SystemFolder::open(rt, dir) {
        Ok(folder) => Ok(folder),
        Err(error) => Err(report_no_store(alloc, dir, &error, diagnostics)),
    }
}

// The line on another site that was silent for too long.
fn silence_line(alloc: Global, seconds: u32) -> Result<Vec<u8>, AllocError> {
    let mut line = Vec::new(alloc);
    line.extend_from_slice(b"the other site was silent for ")?;
    line.extend_from_slice(Buffer::new().format(seconds).as_bytes())?;
    line.extend_from_slice(b" seconds\n")?;
    Ok(line)
}

// Reports why an exchange failed, where the devices know, behind the line on its fault. Returns the exit status.
fn explain<N: Output>(
    alloc: Global,
    dir: &str,
    folder: &SystemFolder<HostRuntime>,
    disk: &mut SharedDisk<'_>,
    status: u8,
    diagnostics: &mut N,
) -> u8 {
    if status != FAULT {
        return status;
    }
    if let Some(refused) = disk.refused() {
        return report_no_turn(alloc, dir, refused, diagnostics);
    }
    match disk.last_error() {
        Some(error) => report_file_error(alloc, dir, error, diagnostics),
        None => explained(alloc, dir, folder, status, diagnostics),
    }
}

// Reports that the other site was silent for too long, where it was. Returns the exit status.
fn explain_silence<N: Output>(
    alloc: Global,
    patience: &Patience<'_>,
    seconds: u32,
    status: u8,
    diagnostics: &mut N,
) -> u8 {
    if !patience.has_ended() || status != FAULT {
        return status;
    }
    match silence_line(alloc, seconds) {
        Ok(line) => report(diagnostics, line.as_slice(), FAULT),
        Err(_) => report(diagnostics, b"want of memory\n", NO_MEMORY),
    }
}

// How many octets so many MiB are.
fn octets_of(mib: u32) -> u64 {
    u64::from(mib).saturating_mul(MIB)
}

// Standard input and output as the pipe to the other site.
fn pipe<'p>(
    rt: &HostRuntime,
    patience: &'p Patience<'p>,
) -> (FromRead<TimedInput<'p>>, ToWrite<TimedOutput<'p>>) {
    let input = TimedInput {
        stdin: rt.stdin(),
        patience,
    };
    let output = TimedOutput {
        stdout: rt.stdout(),
        patience,
    };
    (FromRead::new(input), ToWrite::new(output))
}

// Asks the other site, and adds what it has to the store, if that is wanted. Returns the exit status.
fn ask<N: Output>(
    rt: &HostRuntime,
    alloc: Global,
    dir: &str,
    exchange: &Exchange,
    patience: &Patience<'_>,
    diagnostics: &mut N,
) -> u8 {
    let adds = exchange.pulls && !exchange.is_dry;
    let mut folder = match open_store(rt, alloc, dir, adds, diagnostics) {
        Ok(folder) => folder,
        Err(status) => return status,
    };
    let mut disk = SharedDisk::new(rt, dir);
    let (input, output) = pipe(rt, patience);
    let status = if adds {
        reconcile_store(
            alloc,
            &mut folder,
            &mut disk,
            exchange,
            input,
            output,
            diagnostics,
        )
    } else {
        compare_store(alloc, &mut folder, exchange, input, output, diagnostics)
    };
    explain(alloc, dir, &folder, &mut disk, status, diagnostics)
}

/// Asks another site for the records that the store in a folder lacks, and hands it those that it lacks. Returns the
/// exit status: 0 where both have in the range what either had, as far as the words want it; 1 where the
/// other site takes no records and lacks some; else that of a fault.
pub fn reconcile(rt: &HostRuntime, alloc: Global, dir: &str, words: &ReconcileWords) -> u8 {
    let mut diagnostics = ToWrite::new(rt.stderr());
    let exchange = Exchange {
        range: words.range,
        pulls: words.way.pulls(),
        pushes: words.way.pushes(),
        is_dry: words.dry_run,
        room: octets_of(words.room_mib),
    };
    if rt.stdin().is_terminal() {
        return report(&mut diagnostics, NO_SITE, FAULT);
    }
    let patience = Patience::new(rt, words.timeout_seconds);
    let status = ask(rt, alloc, dir, &exchange, &patience, &mut diagnostics);
    explain_silence(
        alloc,
        &patience,
        words.timeout_seconds,
        status,
        &mut diagnostics,
    )
}

// Answers the other site, and adds to the store what that puts, if it may. Returns the exit status.
fn answer_on<N: Output>(
    rt: &HostRuntime,
    alloc: Global,
    dir: &str,
    words: &AnswerWords,
    patience: &Patience<'_>,
    diagnostics: &mut N,
) -> u8 {
    let mut folder = match open_store(rt, alloc, dir, !words.read_only, diagnostics) {
        Ok(folder) => folder,
        Err(status) => return status,
    };
    let mut disk = SharedDisk::new(rt, dir);
    let (input, output) = pipe(rt, patience);
    let status = if words.read_only {
        answer_read_only(alloc, &mut folder, input, output, diagnostics)
    } else {
        let room = octets_of(words.room_mib);
        answer_store(
            alloc,
            &mut folder,
            &mut disk,
            room,
            input,
            output,
            diagnostics,
        )
    };
    explain(alloc, dir, &folder, &mut disk, status, diagnostics)
}

/// Answers what another site asks of the store in a folder, and adds what it puts, if it may. Returns the exit status: 0
/// where the other site ended the exchange, else that of a fault.
pub fn answer(rt: &HostRuntime, alloc: Global, dir: &str, words: &AnswerWords) -> u8 {
    let mut diagnostics = ToWrite::new(rt.stderr());
    if rt.stdin().is_terminal() {
        return report(&mut diagnostics, NO_SITE, FAULT);
    }
    let patience = Patience::new(rt, words.timeout_seconds);
    let status = answer_on(rt, alloc, dir, words, &patience, &mut diagnostics);
    explain_silence(
        alloc,
        &patience,
        words.timeout_seconds,
        status,
        &mut diagnostics,
    )
}
