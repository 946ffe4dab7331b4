//! The ledger of a store in a folder of the system: who writes into it in turn, `seal`, and what waits while `verify` looks at
//! it again.

use crate::ago::now_micros;
use crate::outputs::SharedNotes;
use crate::telling::Teller;
use disk::DiskFault;
use driver::{DONE, FAULT, NO_MEMORY, REFUSED, report};
use folder_disk::{FileError, FolderLock, LockFault, LockFile};
use ledger_disk::{ListFault, Turns};
use ledger_engine::Pause;
use libc::net::poll;
use octet_devices::{Output, write_all};
use std::alloc::{AllocError, Global};
use std::fmt::Display;
use std::io::ErrorKind;
use store_engine::line_on;
use syslog_grammar::canonical_timestamp;
use syslog_value::Instant;

// For how long another process that writes into the ledger is waited for: so many times so many milliseconds.
const TRIES: usize = 1_000;

const TRY_MILLIS: i32 = 10;

// How many times a server tries: its senders wait meanwhile.
const SERVER_TRIES: usize = 3;

// How many milliseconds lie between two looks at a ledger.
const LOOK_MILLIS: i32 = 100;

/// The turns of the processes that write into the ledger of a folder, by a lock.
#[derive(Drop)]
pub struct SystemTurns<'d> {
    rt: &'d HostRuntime,
    dir: &'d str,
    lock: Option<FolderLock>,
    // why the lock was last not taken
    fault: Option<LockFault>,
    // where a server tells that it does not list its segments
    notes: Option<SharedNotes<'d>>,
}

impl<'d> SystemTurns<'d> {
    /// The turns of a folder that is there.
    pub fn new(rt: &'d HostRuntime, dir: &'d str) -> SystemTurns<'d> {
        SystemTurns {
            rt,
            dir,
            lock: None,
            fault: None,
            notes: None,
        }
    }

    /// The turns of a server, which waits less, and tells.
    pub fn of_server(teller: Teller<'d, 'd>, dir: &'d str) -> SystemTurns<'d> {
        SystemTurns {
            rt: teller.rt,
            dir,
            lock: None,
            fault: None,
            notes: Some(teller.notes),
        }
    }

    /// Why a turn last did not come, if one did not.
    pub fn fault(&self) -> Option<&LockFault> {
        self.fault.as_ref()
    }
}

// The line by which a server tells why it does not list its segments.
fn unlisted_line(
    alloc: Global,
    lock: Option<&LockFault>,
    fault: ListFault,
) -> Result<String, AllocError> {
    let name = LockFile::Ledger.name();
    match (lock, fault) {
        (Some(LockFault::Failed(failed)), _) => {
            format!(in alloc; "{name}: {}: new segments are not listed\n", failed.error)
        }
        (Some(held), _) => format!(in alloc; "{name}: {held}: new segments are not listed\n"),
        (None, ListFault::Broken { at }) => {
            format!(in alloc; "ledger: damaged at octet {at}: new segments are not listed\n")
        }
        (None, fault) => format!(in alloc; "ledger: {fault}: new segments are not listed\n"),
    }
}

// What it means for who waits for a turn that a lock was not taken.
fn fault_of(fault: &LockFault) -> DiskFault {
    match fault {
        LockFault::Held => DiskFault::Failed,
        LockFault::Failed(error) => match error.kind() {
            ErrorKind::OutOfMemory => DiskFault::Memory,
            ErrorKind::StorageFull | ErrorKind::QuotaExceeded => DiskFault::Full,
            _ => DiskFault::Failed,
        },
    }
}

impl<'d> Turns for SystemTurns<'d> {
    fn begin(&mut self) -> Result<(), DiskFault> {
        let tries = if self.notes.is_some() {
            SERVER_TRIES
        } else {
            TRIES
        };
        'tries: for _ in 0..tries {
            match FolderLock::take(self.rt, self.dir, LockFile::Ledger) {
                Ok(lock) => {
                    self.lock = Some(lock);
                    self.fault = None;
                    return Ok(());
                }
                Err(LockFault::Held) => {
                    let _ = poll(&mut [], TRY_MILLIS);
                }
                Err(fault) => {
                    let answer = fault_of(&fault);
                    self.fault = Some(fault);
                    return Err(answer);
                }
            }
        }
        self.fault = Some(LockFault::Held);
        Err(DiskFault::Failed)
    }

    fn end(&mut self) {
        self.lock = None;
    }

    fn time(&mut self) -> [u8; 27] {
        let now = now_micros(self.rt).unwrap_or(0);
        match Instant::from_micros(now) {
            Some(instant) => canonical_timestamp(instant),
            None => *b"1970-01-01T00:00:00.000000Z",
        }
    }

    fn tell(&mut self, unlisted_for: Option<ListFault>) {
        let Some(notes) = self.notes else {
            return;
        };
        let teller = Teller { rt: self.rt, notes };
        let Some(fault) = unlisted_for else {
            return teller.tell("ledger: new segments are listed again\n");
        };
        match unlisted_line(self.rt.alloc(), self.fault(), fault) {
            Ok(line) => teller.tell(line.as_str()),
            Err(_) => teller.tell("ledger: new segments are not listed\n"),
        }
    }
}

/// Waits between two looks at a ledger.
#[derive(Drop)]
pub struct LookPause;

impl Pause for LookPause {
    fn pause(&mut self) {
        let _ = poll(&mut [], LOOK_MILLIS);
    }
}

// Reports which file failed, and why, and returns the exit status.
fn report_why<N: Output>(
    alloc: Global,
    name: &str,
    why: impl Display + Drop,
    diagnostics: &mut N,
) -> u8 {
    match line_on(alloc, name, why) {
        Ok(line) => report(diagnostics, line.as_bytes(), FAULT),
        Err(_) => report(diagnostics, b"want of memory\n", NO_MEMORY),
    }
}

/// Reports why the lock of a ledger was last not taken, if it was not, and returns the exit status then.
pub fn report_turn_fault<N: Output>(
    alloc: Global,
    turns: &SystemTurns<'_>,
    diagnostics: &mut N,
) -> Option<u8> {
    let lock = LockFile::Ledger.name();
    match turns.fault()? {
        LockFault::Failed(error) if error.kind() == ErrorKind::OutOfMemory => {
            Some(report(diagnostics, b"want of memory\n", NO_MEMORY))
        }
        LockFault::Failed(error) => Some(report_why(alloc, lock, &error.error, diagnostics)),
        held => Some(report_why(alloc, lock, held, diagnostics)),
    }
}

/// Reports why the ledger of a store was not read or written, by why its lock was not taken, or by the error that the system
/// last told, and returns the exit status.
pub fn report_list_fault<N: Output>(
    alloc: Global,
    fault: ListFault,
    turns: &SystemTurns<'_>,
    error: Option<&FileError>,
    diagnostics: &mut N,
) -> u8 {
    if let Some(status) = report_turn_fault(alloc, turns, diagnostics) {
        return status;
    }
    match (fault, error) {
        (ListFault::Broken { at }, _) => match format!(in alloc; "ledger {at}\n") {
            Ok(line) => report(diagnostics, line.as_bytes(), REFUSED),
            Err(_) => report(diagnostics, b"want of memory\n", NO_MEMORY),
        },
        (ListFault::Disk(DiskFault::Memory), _) => {
            report(diagnostics, b"want of memory\n", NO_MEMORY)
        }
        (_, Some(FileError { name: _, error })) => report_why(alloc, "ledger", error, diagnostics),
        (fault, None) => report_why(alloc, "ledger", fault, diagnostics),
    }
}

/// Writes the last line of a ledger, if it has one. Returns the exit status.
pub fn report_line<W: Output, N: Output>(
    line: Option<Vec<u8>>,
    output: &mut W,
    diagnostics: &mut N,
) -> u8 {
    let Some(mut line) = line else {
        return DONE;
    };
    if line.push(b'\n').is_err() {
        return report(diagnostics, b"want of memory\n", NO_MEMORY);
    }
    match write_all(output, line.as_slice()) {
        Ok(()) => DONE,
        Err(_) => report(diagnostics, b"write fault\n", FAULT),
    }
}
