//! `read`, `verify`, `stat`, `compact`, `expire` and `seal`, over a folder of the system.

use crate::ago::days_ago;
use crate::colors;
use crate::copies::report_unfinished;
use crate::ledgers::{LookPause, SystemTurns, report_line, report_list_fault, report_turn_fault};
use crate::meter::{ClearedWriter, Meter, SharedMeter};
use crate::metered_store::{MeteredStore, store_octets};
use crate::rooms::{octets_in, segment_sizes};
use archive_sets::Conditions;
use command_line::{ColorWhen, ExpireBound, ExpireWords, ReadWords};
use disk::DiskFault;
use driver::{DONE, FAULT, NO_MEMORY, REFUSED, report};
use folder_disk::{FileError, FolderLock, LockFault, LockFile};
use ledger::ChainHead;
use ledger_disk::{LedgerDisk, Purpose};
use ledger_engine::{seal_days, verify_ledger};
use octet_devices::{Output, ToWrite};
use read_engine::{ReadForm, ReadOptions, read_records};
use std::alloc::Global;
use std::fmt::Display;
use std::io::{ErrorKind, IsTerminal, Stderr, Stdout};
use store_engine::{
    SystemDisk, SystemFolder, line_on, report_damaged_file, report_file_error, report_no_store,
    report_read_fault, verify_store,
};
use store_expiry::{ExpireFault, Expired, expired_for_room, octets_of, octets_without};
use store_reading::{FileFault, ReadFault};
use store_statistics::stat_store;
use store_upkeep::{CompactFault, DamagedFile};
use syslog_value::Instant;

/// Reports the error by which a call on the folder or a file failed, behind the line on the fault that it
/// is. Returns the exit status.
pub fn explained<N: Output>(
    alloc: Global,
    dir: &str,
    folder: &SystemFolder<HostRuntime>,
    status: u8,
    diagnostics: &mut N,
) -> u8 {
    match folder.last_error() {
        Some(error) if status == FAULT => report_file_error(alloc, dir, error, diagnostics),
        _ => status,
    }
}

/// What `read` writes, once it is known whether it is colored.
pub fn read_options<'a>(
    rt: &HostRuntime,
    conditions: Conditions<'a>,
    words: ReadWords,
) -> ReadOptions<'a> {
    let form = match words.form {
        command_line::ReadForm::Archive => ReadForm::Archive,
        command_line::ReadForm::Lines => ReadForm::Lines,
        command_line::ReadForm::Json => ReadForm::Json,
        command_line::ReadForm::Show => match colors::settled(rt, words.color) {
            ColorWhen::Always => ReadForm::ColoredShow,
            ColorWhen::Auto | ColorWhen::Never => ReadForm::Show,
        },
    };
    ReadOptions {
        conditions,
        last: words.last,
        form,
        partial: words.partial,
    }
}

/// Writes the records that a store holds and that meet conditions. Returns the exit status.
pub fn read<W: Output, N: Output>(
    rt: &HostRuntime,
    alloc: Global,
    dir: &str,
    options: &ReadOptions<'_>,
    output: &mut W,
    diagnostics: &mut N,
) -> u8 {
    let mut folder = match SystemFolder::open(rt, dir) {
        Ok(folder) => folder,
        Err(error) => return report_no_store(alloc, dir, &error, diagnostics),
    };
    let status = read_records(alloc, &mut folder, options, output, diagnostics);
    let status = report_unfinished(rt, alloc, dir, status, diagnostics);
    explained(alloc, dir, &folder, status, diagnostics)
}

// Standard output, before whose lines the line of a meter is cleared where both are on a terminal.
fn cleared_output<'m, 'r>(
    rt: &HostRuntime,
    meter: SharedMeter<'m, 'r>,
) -> ToWrite<ClearedWriter<'m, 'r, Stdout>> {
    let writer = rt.stdout();
    let meter = if writer.is_terminal() {
        meter
    } else {
        SharedMeter::new(None)
    };
    ToWrite::new(ClearedWriter { writer, meter })
}

// Standard error, before whose lines the line of a meter is cleared.
fn cleared_errors<'m, 'r>(
    rt: &HostRuntime,
    meter: SharedMeter<'m, 'r>,
) -> ToWrite<ClearedWriter<'m, 'r, Stderr>> {
    let writer = rt.stderr();
    ToWrite::new(ClearedWriter { writer, meter })
}

// Writes a line for each file of a store that is damaged, and then on what is wrong with its ledger; a meter counts
// the octets of all files.
fn verify_metered(
    rt: &HostRuntime,
    alloc: Global,
    dir: &str,
    against: Option<&[u8]>,
    meter: SharedMeter<'_, '_>,
) -> u8 {
    let mut output = cleared_output(rt, meter);
    let mut diagnostics = cleared_errors(rt, meter);
    let store = match SystemFolder::open(rt, dir) {
        Ok(store) => store,
        Err(error) => return report_no_store(alloc, dir, &error, &mut diagnostics),
    };
    let mut folder = MeteredStore { store, meter };
    let status = verify_store(alloc, &mut folder, &mut output, &mut diagnostics);
    let status = match status {
        DONE | REFUSED => verify_ledger(
            alloc,
            &mut folder.store,
            against,
            status,
            &mut LookPause,
            &mut output,
            &mut diagnostics,
        ),
        status => status,
    };
    meter.clear();
    let status = report_unfinished(rt, alloc, dir, status, &mut output);
    explained(alloc, dir, &folder.store, status, &mut diagnostics)
}

/// Writes a line for each file of a store that is damaged, missing, not listed by its ledger or no file of a store, and on
/// its ledger where that is damaged or lacks a line. Returns the exit status: 0 if nothing is wrong, 1 if something is,
/// else that of a fault.
pub fn verify(
    rt: &HostRuntime,
    alloc: Global,
    dir: &str,
    against: Option<&str>,
    is_quiet: bool,
) -> u8 {
    let against = against.map(|line| line.as_bytes());
    if against.is_some_and(|line| ChainHead::behind(line).is_none()) {
        let line =
            b"error: invalid value for --against: expected a line of a ledger, as seal prints it\n";
        return report(&mut ToWrite::new(rt.stderr()), line, FAULT);
    }
    let meter = Meter::of_files(rt, is_quiet);
    let shared = SharedMeter::new(meter.as_ref());
    if meter.is_some() {
        shared.expect_more(store_octets(rt, dir));
    }
    verify_metered(rt, alloc, dir, against, shared)
}

/// Writes a line for each file of a store, with what it has, and one for all of them. Returns the exit
/// status: 0 if no file is damaged, 1 if one is, else that of a fault.
pub fn stat<W: Output, N: Output>(
    rt: &HostRuntime,
    alloc: Global,
    dir: &str,
    output: &mut W,
    diagnostics: &mut N,
) -> u8 {
    let mut folder = match SystemFolder::open(rt, dir) {
        Ok(folder) => folder,
        Err(error) => return report_no_store(alloc, dir, &error, diagnostics),
    };
    let status = stat_store(alloc, &mut folder, output, diagnostics);
    explained(alloc, dir, &folder, status, diagnostics)
}

// Reports what failed, and why, and returns the exit status.
fn report_why<N: Output>(
    alloc: Global,
    what: &str,
    why: impl Display + Drop,
    diagnostics: &mut N,
) -> u8 {
    match line_on(alloc, what, why) {
        Ok(line) => report(diagnostics, line.as_bytes(), FAULT),
        Err(_) => report(diagnostics, b"want of memory\n", NO_MEMORY),
    }
}

// Reports that a call on a file or on the folder failed, by the error that the system last told.
fn report_disk_fault<N: Output>(
    alloc: Global,
    disk: &SystemDisk<HostRuntime>,
    what: &[u8],
    fault: DiskFault,
    diagnostics: &mut N,
) -> u8 {
    if matches!(fault, DiskFault::Memory) {
        return report(diagnostics, b"want of memory\n", NO_MEMORY);
    }
    let what = str::from_utf8(what).unwrap_or("?");
    match disk.last_error() {
        Some(FileError { name: _, error }) => report_why(alloc, what, error, diagnostics),
        None => report_why(alloc, what, fault, diagnostics),
    }
}

// Reports why the files of a store were not all changed as they were to be, and returns the exit status.
fn report_change_fault<N: Output>(
    alloc: Global,
    disk: &SystemDisk<HostRuntime>,
    dir: &str,
    fault: CompactFault,
    diagnostics: &mut N,
) -> u8 {
    match fault {
        CompactFault::Read(ReadFault::Folder { fault }) => {
            report_disk_fault(alloc, disk, dir.as_bytes(), fault, diagnostics)
        }
        CompactFault::Read(ReadFault::Open { name, fault }) => {
            report_disk_fault(alloc, disk, name.as_octets(), fault, diagnostics)
        }
        CompactFault::Read(fault) => report_read_fault(alloc, &fault, diagnostics),
        CompactFault::Damaged { name, damage } => {
            report_damaged_file(alloc, &DamagedFile { name, damage }, diagnostics)
        }
        CompactFault::Write { name, fault } => {
            report_disk_fault(alloc, disk, name.as_octets(), fault, diagnostics)
        }
        CompactFault::Day => report(diagnostics, b"the name of a segment has no day\n", FAULT),
    }
}

/// Reports why the lock of a file was not taken, and returns the exit status.
pub fn report_lock_fault<N: Output>(
    alloc: Global,
    lock: LockFile,
    fault: LockFault,
    diagnostics: &mut N,
) -> u8 {
    let what = lock.name();
    let held = match lock {
        LockFile::Compaction => "another process compacts or expires the store",
        LockFile::Writing | LockFile::Addition => "another process adds to the store",
        LockFile::Ledger => "another process writes into the ledger",
    };
    match fault {
        LockFault::Held => report_why(alloc, what, held, diagnostics),
        LockFault::Failed(error) if error.kind() == ErrorKind::OutOfMemory => {
            report(diagnostics, b"want of memory\n", NO_MEMORY)
        }
        LockFault::Failed(error) => report_why(alloc, what, error.error, diagnostics),
    }
}

// The disk of a store whose segments are joined or removed, whose ledger takes what is done.
type ListedStore<'m, 'r, 'd> = LedgerDisk<
    MeteredStore<'m, 'r, SystemDisk<HostRuntime>>,
    SystemTurns<'d>,
>;

// Opens a store whose segments are joined or removed, of whose files a meter counts what is read, and locks
// it against others who do; or reports why that is not done, and gives the exit status.
fn open_locked<'m, 'r, N: Output>(
    rt: &HostRuntime,
    alloc: Global,
    dir: &str,
    meter: SharedMeter<'m, 'r>,
    diagnostics: &mut N,
) -> Result<MeteredStore<'m, 'r, SystemDisk<HostRuntime>>, u8> {
    let mut disk = match SystemDisk::open(rt, dir) {
        Ok(disk) => disk,
        Err(error) => return Err(report_no_store(alloc, dir, &error, diagnostics)),
    };
    let lock = LockFile::Compaction;
    match FolderLock::take(rt, dir, lock) {
        Ok(taken) => disk.hold(taken),
        Err(fault) => return Err(report_lock_fault(alloc, lock, fault, diagnostics)),
    }
    Ok(MeteredStore { store: disk, meter })
}

// The same; its ledger lists the segments that are there then, unless nothing is to be changed.
fn open_listed<'m, 'r, 'd, N: Output>(
    rt: &'d HostRuntime,
    alloc: Global,
    dir: &'d str,
    purpose: Option<Purpose>,
    meter: SharedMeter<'m, 'r>,
    diagnostics: &mut N,
) -> Result<ListedStore<'m, 'r, 'd>, u8> {
    let disk = open_locked(rt, alloc, dir, meter, diagnostics)?;
    let turns = SystemTurns::new(rt, dir);
    let Ok(mut disk) = LedgerDisk::new(alloc, disk, turns, purpose.unwrap_or(Purpose::Expire))
    else {
        return Err(report(diagnostics, b"want of memory\n", NO_MEMORY));
    };
    if purpose.is_none() {
        return Ok(disk);
    }
    match disk.catch_up() {
        Ok(()) => Ok(disk),
        Err(fault) => {
            let error = disk.disk().store.last_error();
            Err(report_list_fault(alloc, fault, disk.turns(), error, diagnostics))
        }
    }
}

// Reports why segments were not joined or sealed, by why the lock of the ledger was not taken if that is why, and
// returns the exit status.
fn report_listed_fault<N: Output>(
    alloc: Global,
    disk: &ListedStore<'_, '_, '_>,
    dir: &str,
    fault: CompactFault,
    diagnostics: &mut N,
) -> u8 {
    match report_turn_fault(alloc, disk.turns(), diagnostics) {
        Some(status) => status,
        None => report_change_fault(alloc, &disk.disk().store, dir, fault, diagnostics),
    }
}

// The same as `compact`; a meter counts the octets that are read, of some files more than once.
fn compact_metered(rt: &HostRuntime, alloc: Global, dir: &str, meter: SharedMeter<'_, '_>) -> u8 {
    let mut diagnostics = cleared_errors(rt, meter);
    let purpose = Some(Purpose::Join);
    let mut disk = match open_listed(rt, alloc, dir, purpose, meter, &mut diagnostics) {
        Ok(disk) => disk,
        Err(status) => return status,
    };
    let compacted = store_upkeep::compact(alloc, &mut disk);
    meter.clear();
    match compacted {
        Ok(()) => DONE,
        Err(fault) => report_listed_fault(alloc, &disk, dir, fault, &mut diagnostics),
    }
}

/// Joins the segments of each day of a store that has more than eight. Returns the exit status: 0 where
/// each day has at most eight then, 1 where a segment is damaged.
pub fn compact(rt: &HostRuntime, alloc: Global, dir: &str, is_quiet: bool) -> u8 {
    let meter = Meter::of_files(rt, is_quiet);
    let meter = SharedMeter::new(meter.as_ref());
    meter.expect_more(None);
    compact_metered(rt, alloc, dir, meter)
}

// What is old: the days that have to go so that the segments fit in so many MiB, or why their lengths are not known.
fn expired_beyond<N: Output>(
    rt: &HostRuntime,
    alloc: Global,
    dir: &str,
    mib: u32,
    undated: bool,
    diagnostics: &mut N,
) -> Result<Expired, u8> {
    match segment_sizes(rt, alloc, dir) {
        Ok(segments) => Ok(expired_for_room(&segments, octets_in(mib), undated)),
        Err(error) => Err(report_why(alloc, dir, error, diagnostics)),
    }
}

// What is old, or why that is not known.
fn expired_by<N: Output>(
    rt: &HostRuntime,
    alloc: Global,
    dir: &str,
    words: &ExpireWords,
    diagnostics: &mut N,
) -> Result<Expired, u8> {
    let time = match words.bound {
        ExpireBound::Before(time) => Some(time),
        ExpireBound::Keep { days } => days_ago(rt, days),
        ExpireBound::Room { mib } => {
            return expired_beyond(rt, alloc, dir, mib, words.undated, diagnostics);
        }
    };
    match time {
        Some(time) => Ok(Expired::before(time, words.undated)),
        None => {
            let line = b"the system's clock does not tell the time\n";
            Err(report(diagnostics, line, FAULT))
        }
    }
}

// Says how much is left where the segments have more than they were to have. Returns the exit status.
fn report_left<N: Output>(
    rt: &HostRuntime,
    alloc: Global,
    dir: &str,
    words: &ExpireWords,
    expired: &Expired,
    diagnostics: &mut N,
) -> u8 {
    let ExpireBound::Room { mib } = words.bound else {
        return DONE;
    };
    let segments = match segment_sizes(rt, alloc, dir) {
        Ok(segments) => segments,
        Err(error) => return report_why(alloc, dir, error, diagnostics),
    };
    let left = if words.dry_run {
        octets_without(&segments, expired)
    } else {
        octets_of(&segments)
    };
    if left <= u128::from(octets_in(mib)) {
        return DONE;
    }
    let line = format!(in alloc;
        "{dir}: {left} octets of segments are left, more than {mib} MiB\n"
    );
    match line {
        Ok(line) => report(diagnostics, line.as_bytes(), DONE),
        Err(_) => report(diagnostics, b"want of memory\n", NO_MEMORY),
    }
}

// Reports why what is old was not all removed, and returns the exit status.
fn report_expire_fault<N: Output>(
    alloc: Global,
    disk: &SystemDisk<HostRuntime>,
    dir: &str,
    fault: ExpireFault,
    diagnostics: &mut N,
) -> u8 {
    match fault {
        ExpireFault::Damaged { name, damage } => {
            report_damaged_file(alloc, &DamagedFile { name, damage }, diagnostics)
        }
        ExpireFault::Taken { name } => {
            let damage = FileFault::Digest;
            report_damaged_file(alloc, &DamagedFile { name, damage }, diagnostics)
        }
        ExpireFault::Store(fault) => report_change_fault(alloc, disk, dir, fault, diagnostics),
        ExpireFault::Output => report(diagnostics, b"write fault\n", FAULT),
    }
}

// Removes what is old of a store; a meter counts the octets that are read, of some files more than once.
fn expire_metered(
    rt: &HostRuntime,
    alloc: Global,
    dir: &str,
    words: &ExpireWords,
    meter: SharedMeter<'_, '_>,
) -> u8 {
    let mut output = cleared_output(rt, meter);
    let mut diagnostics = cleared_errors(rt, meter);
    let purpose = (!words.dry_run).then_some(Purpose::Expire);
    let mut disk = match open_listed(rt, alloc, dir, purpose, meter, &mut diagnostics) {
        Ok(disk) => disk,
        Err(status) => return status,
    };
    let expired = match expired_by(rt, alloc, dir, words, &mut diagnostics) {
        Ok(expired) => expired,
        Err(status) => return status,
    };
    let ended = store_expiry::expire(alloc, &mut disk, expired, words.dry_run, &mut output);
    meter.clear();
    let Err(fault) = ended else {
        return report_left(rt, alloc, dir, words, &expired, &mut diagnostics);
    };
    match report_turn_fault(alloc, disk.turns(), &mut diagnostics) {
        Some(status) => status,
        None => report_expire_fault(alloc, &disk.disk().store, dir, fault, &mut diagnostics),
    }
}

/// Removes old records of a store, and writes a line for each file that goes, and one to standard error where the
/// segments have more than `--room` says still. Returns the exit status: 0 where no segment has an old record then, 1
/// where one is damaged.
pub fn expire(
    rt: &HostRuntime,
    alloc: Global,
    dir: &str,
    words: ExpireWords,
    is_quiet: bool,
) -> u8 {
    let meter = Meter::of_files(rt, is_quiet);
    let meter = SharedMeter::new(meter.as_ref());
    meter.expect_more(None);
    expire_metered(rt, alloc, dir, &words, meter)
}

// Seals the days of a store that ended by a time, and writes the last line of its ledger; a meter counts the octets that are
// read, of some files more than once.
fn seal_metered(
    rt: &HostRuntime,
    alloc: Global,
    dir: &str,
    before: Instant,
    meter: SharedMeter<'_, '_>,
) -> u8 {
    let mut output = cleared_output(rt, meter);
    let mut diagnostics = cleared_errors(rt, meter);
    let purpose = Some(Purpose::Seal);
    let mut disk = match open_listed(rt, alloc, dir, purpose, meter, &mut diagnostics) {
        Ok(disk) => disk,
        Err(status) => return status,
    };
    let sealed = seal_days(alloc, &mut disk, before);
    meter.clear();
    if let Err(fault) = sealed {
        return report_listed_fault(alloc, &disk, dir, fault, &mut diagnostics);
    }
    match disk.last_line() {
        Ok(line) => report_line(line, &mut output, &mut diagnostics),
        Err(fault) => {
            let error = disk.disk().store.last_error();
            report_list_fault(alloc, fault, disk.turns(), error, &mut diagnostics)
        }
    }
}

/// Seals the days of a store that ended by a time: each is one segment then, whose root its ledger has. Writes the last line
/// of the ledger. Returns the exit status: 0 where all of them are sealed, 1 where a segment or the ledger is damaged, else
/// that of a fault.
pub fn seal(rt: &HostRuntime, alloc: Global, dir: &str, before: Instant, is_quiet: bool) -> u8 {
    let meter = Meter::of_files(rt, is_quiet);
    let meter = SharedMeter::new(meter.as_ref());
    meter.expect_more(None);
    seal_metered(rt, alloc, dir, before, meter)
}
