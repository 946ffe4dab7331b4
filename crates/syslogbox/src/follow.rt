//! `follow`, over a folder of the system.

use crate::followed_folder::FollowedFolder;
use archive_sets::Conditions;
use command_line::FollowWords;
use disk::DiskFault;
use driver::{DONE, FAULT, NO_MEMORY, REFUSED, report};
use itoa::Buffer;
use libc::net::{POLLERR, POLLHUP, POLLIN, POLLNVAL, poll};
use libc::types::pollfd;
use libc::{STDIN_FILENO, STDOUT_FILENO};
use octet_devices::{Output, ToWrite};
use read_engine::write_wanted;
use std::alloc::{AllocError, Global};
use std::io::Read;
use store_engine::report_file_error;
use store_follow::{FollowFault, Follower};

// How long it waits where it has found nothing more: it looks ten times a second.
const LOOK_MILLIS: i32 = 100;

// In the place of a descriptor that is not waited for (POSIX.1-2017, poll).
const NO_FILE: i32 = -1;

// What came of a wait.
enum Waited {
    // The store is looked at again.
    GoesOn,
    // Standard input has ended.
    InputEnded,
    // Nobody reads standard output any more.
    ReaderGone,
}

// Whether standard input, which has something to read, has ended. What it gives is passed over.
fn has_input_ended(rt: &HostRuntime) -> bool {
    let mut octets = [0u8; 4096];
    match rt.stdin().read(&mut octets) {
        Ok(count) => count == 0,
        Err(_) => true,
    }
}

// Waits for the next look, or until something ends it.
fn wait(rt: &HostRuntime, until_eof: bool) -> Waited {
    let stdin = if until_eof { STDIN_FILENO } else { NO_FILE };
    let mut asked = [
        pollfd {
            fd: stdin,
            events: POLLIN,
            revents: 0,
        },
        pollfd {
            fd: STDOUT_FILENO,
            events: 0,
            revents: 0,
        },
    ];
    let _count = poll(&mut asked, LOOK_MILLIS);
    if asked[1].revents & (POLLERR | POLLHUP | POLLNVAL) != 0 {
        return Waited::ReaderGone;
    }
    if asked[0].revents != 0 && has_input_ended(rt) {
        return Waited::InputEnded;
    }
    Waited::GoesOn
}

// A line on the journal with this number.
fn journal_line(alloc: Global, number: u64, words: &[u8]) -> Result<Vec<u8>, AllocError> {
    let mut line = Vec::from_slice(alloc, b"journal.")?;
    line.extend_from_slice(Buffer::new().format(number).as_bytes())?;
    line.extend_from_slice(words)?;
    Ok(line)
}

// The line on a damaged batch of a journal, and where that begins.
fn damage_line(alloc: Global, number: u64, at: u64) -> Result<Vec<u8>, AllocError> {
    let mut line = journal_line(alloc, number, b" damaged ")?;
    line.extend_from_slice(Buffer::new().format(at).as_bytes())?;
    line.push(b'\n')?;
    Ok(line)
}

// Reports a line, for which memory may have run out, and returns the exit status.
fn report_line<N: Output>(
    line: Result<Vec<u8>, AllocError>,
    status: u8,
    diagnostics: &mut N,
) -> u8 {
    match line {
        Ok(line) => report(diagnostics, line.as_slice(), status),
        Err(_) => report(diagnostics, b"want of memory\n", NO_MEMORY),
    }
}

// A run of `follow`.
#[derive(Drop)]
struct Run<'r, 'c> {
    rt: &'r HostRuntime,
    alloc: Global,
    dir: &'c str,
    folder: FollowedFolder<'r>,
    follower: Follower,
    conditions: &'c Conditions<'c>,
}

impl<'r, 'c> Run<'r, 'c> {
    // Reports that the folder or a file failed, and why. Returns the exit status.
    fn report_folder<N: Output>(&self, fault: DiskFault, diagnostics: &mut N) -> u8 {
        if matches!(fault, DiskFault::Memory) {
            return report(diagnostics, b"want of memory\n", NO_MEMORY);
        }
        let status = report(diagnostics, b"store fault\n", FAULT);
        match self.folder.last_error() {
            Some(error) => report_file_error(self.alloc, self.dir, error, diagnostics),
            None => status,
        }
    }

    // Reports why the journals were not followed, and returns the exit status: `DONE` if they are followed on.
    fn report_fault<N: Output>(&self, fault: FollowFault, diagnostics: &mut N) -> u8 {
        match fault {
            FollowFault::Names { fault } | FollowFault::Read { number: _, fault } => {
                self.report_folder(fault, diagnostics)
            }
            FollowFault::Damaged { number, at } => {
                report_line(damage_line(self.alloc, number, at), REFUSED, diagnostics)
            }
            FollowFault::Gap { number } => {
                let line = journal_line(self.alloc, number, b" was removed before it was read\n");
                report_line(line, FAULT, diagnostics)
            }
            FollowFault::Replaced { number } => {
                let words = b" was replaced: all journals are read from their start\n";
                report_line(journal_line(self.alloc, number, words), DONE, diagnostics)
            }
            // what is found is held in memory
            FollowFault::Write | FollowFault::Memory => {
                report(diagnostics, b"want of memory\n", NO_MEMORY)
            }
        }
    }

    // Looks once, and writes what was committed and meets the conditions. Answers whether there is more to be read at
    // once, as where the journals begin again; or gives the exit status.
    fn look<W: Output, N: Output>(
        &mut self,
        output: &mut W,
        diagnostics: &mut N,
    ) -> Result<bool, u8> {
        let mut found = ToWrite::new(Vec::new(self.alloc));
        let looked = self.follower.look(self.alloc, &mut self.folder, &mut found);
        if matches!(looked, Err(FollowFault::Write)) {
            return Err(self.report_fault(FollowFault::Write, diagnostics));
        }
        let text = found.into_inner();
        match write_wanted(
            self.alloc,
            text.as_slice(),
            self.conditions,
            output,
            diagnostics,
        ) {
            DONE => {}
            status => return Err(status),
        }
        match looked {
            Ok(looked) => Ok(looked.more),
            Err(fault) => match self.report_fault(fault, diagnostics) {
                DONE => Ok(true),
                status => Err(status),
            },
        }
    }

    // Looks until something ends it, and returns the exit status.
    fn go_on<W: Output, N: Output>(
        &mut self,
        until_eof: bool,
        output: &mut W,
        diagnostics: &mut N,
    ) -> u8 {
        let mut is_last = false;
        'looks: for _look in 0..u64::MAX {
            match self.look(output, diagnostics) {
                Ok(true) => continue,
                Ok(false) => {}
                Err(status) => return status,
            }
            if is_last {
                return DONE;
            }
            match wait(self.rt, until_eof) {
                Waited::GoesOn => {}
                Waited::InputEnded => is_last = true,
                Waited::ReaderGone => return report(diagnostics, b"write fault\n", FAULT),
            }
        }
        DONE
    }
}

/// Writes the records that are committed to the store in a folder and that meet conditions, as they come. Returns the
/// exit status: 0 where standard input has ended, if that is to end it; 1 where a journal is damaged; else that of a
/// fault.
pub fn follow<'c, W: Output, N: Output>(
    rt: &HostRuntime,
    alloc: Global,
    dir: &'c str,
    conditions: &'c Conditions<'c>,
    words: FollowWords,
    output: &mut W,
    diagnostics: &mut N,
) -> u8 {
    let Ok(folder) = FollowedFolder::new(rt, alloc, dir) else {
        return report(diagnostics, b"want of memory\n", NO_MEMORY);
    };
    let mut run = Run {
        rt,
        alloc,
        dir,
        folder,
        follower: Follower::from_start(),
        conditions,
    };
    if !words.from_start {
        run.follower = match Follower::from_now(alloc, &mut run.folder) {
            Ok(follower) => follower,
            Err(fault) => return run.report_fault(fault, diagnostics),
        };
    }
    run.go_on(words.until_eof, output, diagnostics)
}
