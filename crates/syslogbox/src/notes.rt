//! Standard error of a server, which never waits for whoever reads it.

use libc::net::{POLLERR, POLLHUP, POLLNVAL, POLLOUT, poll};
use libc::types::pollfd;
use libc::{SEEK_CUR, STDERR_FILENO, isatty, lseek};
use std::alloc::{AllocError, Global};
use std::fs::{File, OpenOptions};
use std::io::{self, ErrorKind, Stderr, Write};
use std::os::fd::AsRawFd;

// How many octets of lines wait at most.
const ROOM: usize = 262_144;

// The most octets of a write to a pipe or a socket, Linux's PIPE_BUF: a pipe that can be written at
// all takes so many at once, and none of another process between them.
const PIPE_PIECE: usize = 4_096;

// The most octets of a write to a terminal, which may have less room.
const TERMINAL_PIECE: usize = 256;

// How many pieces are written at once at most; all that waits is fewer.
const PIECES_MAX: usize = 4_096;

// For how many milliseconds nothing may be taken at the end before what waits is given up, and how many are
// between two tries where the system says that something would be.
const LAST_MILLIS: i32 = 1_000;

const TRY_MILLIS: i32 = 10;

// Standard error, by a name under which it can be opened once more.
const STDERR_PATH: &str = "/proc/self/fd/2";

/// The lines of a server on their way to standard error. They wait until they are flushed, and where
/// standard error is a pipe, a socket or a terminal, only as much is written as it takes at once. A
/// line that finds no room is dropped whole, and counted; once there is room again, a line says how
/// many were.
#[derive(Drop)]
pub struct Notes {
    stderr: Stderr,
    terminal: Option<File>,
    // the most octets of a write, where the system is asked before each
    piece_max: Option<usize>,
    waiting: Vec<u8>,
    // whether the last try to write left something
    stalled: bool,
    dropped: u64,
    alloc: Global,
}

// The most octets of a write to standard error, if the system is to be asked before each. A file, in
// which a position can be set, waits for no reader.
fn piece_max() -> Option<usize> {
    if lseek(STDERR_FILENO, 0, SEEK_CUR) >= 0 {
        return None;
    }
    if isatty(STDERR_FILENO) == 1 {
        return Some(TERMINAL_PIECE);
    }
    Some(PIPE_PIECE)
}

// Whether standard error takes octets, or fails, within so many milliseconds.
fn is_ready(millis: i32) -> bool {
    let mut asked = [pollfd {
        fd: STDERR_FILENO,
        events: POLLOUT,
        revents: 0,
    }];
    let _count = poll(&mut asked, millis);
    asked[0].revents & (POLLOUT | POLLERR | POLLHUP | POLLNVAL) != 0
}

// How many lines end in these octets.
fn lines_in(octets: &[u8]) -> u64 {
    let mut count = 0u64;
    for octet in octets {
        if *octet == b'\n' {
            count = count.saturating_add(1);
        }
    }
    count
}

// The first whole lines that have at most so many octets; of a line that is longer, so many.
fn piece(octets: &[u8], most: usize) -> &[u8] {
    let Some(front) = octets.get(..most) else {
        return octets;
    };
    match front.iter().rposition(|octet| *octet == b'\n') {
        Some(at) => front.get(..=at).unwrap_or(front),
        None => front,
    }
}

// A terminal, opened once more, so that writes to it do not wait, and those of others do as before: a
// terminal may say that it can be written, and take less than the fewest octets.
fn open_terminal(rt: &HostRuntime) -> Option<File> {
    if isatty(STDERR_FILENO) != 1 {
        return None;
    }
    let terminal = OpenOptions::new().write(true).open(rt, STDERR_PATH).ok()?;
    if os::set_nonblocking(terminal.as_raw_fd(), true) < 0 {
        return None;
    }
    Some(terminal)
}

impl Notes {
    /// Standard error, and room for the lines that wait.
    pub fn new(rt: &HostRuntime) -> Result<Notes, AllocError> {
        let alloc = rt.alloc();
        Ok(Notes {
            stderr: rt.stderr(),
            terminal: open_terminal(rt),
            piece_max: piece_max(),
            waiting: Vec::with_capacity(alloc, ROOM)?,
            stalled: false,
            dropped: 0,
            alloc,
        })
    }

    fn room(&self) -> usize {
        ROOM.saturating_sub(self.waiting.len())
    }

    // Puts octets behind what waits, if there is room. Returns whether there was.
    fn hold(&mut self, octets: &[u8]) -> bool {
        octets.len() <= self.room() && self.waiting.extend_from_slice(octets).is_ok()
    }

    // Puts the line on those that were dropped, if any were, once there is room for more than it.
    // Returns whether none is left to tell.
    fn hold_dropped(&mut self) -> bool {
        if self.dropped == 0 {
            return true;
        }
        if self.room() < PIPE_PIECE {
            return false;
        }
        let count = self.dropped;
        let Ok(line) = format!(in self.alloc; "dropped {count} lines\n") else {
            return false;
        };
        let held = self.hold(line.as_bytes());
        if held {
            self.dropped = 0;
        }
        held
    }

    fn take(&mut self, lines: &[u8]) -> bool {
        self.hold_dropped() && self.hold(lines)
    }

    /// Puts lines behind what waits, or drops them. Where there is no room, what waits is written
    /// first, unless that was tried since the last flush.
    pub fn put(&mut self, lines: &[u8]) {
        if self.take(lines) {
            return;
        }
        if !self.stalled {
            self.send();
            if self.take(lines) {
                return;
            }
        }
        self.drop_lines(lines_in(lines));
    }

    fn drop_lines(&mut self, count: u64) {
        self.dropped = self.dropped.saturating_add(count);
    }

    // Drops what waits behind the first `sent` octets.
    fn drop_behind(&mut self, sent: usize) {
        let lost = match self.waiting.get(sent..) {
            Some(rest) => lines_in(rest),
            None => 0,
        };
        self.drop_lines(lost);
        self.waiting.truncate(sent);
    }

    // Writes what is taken at once of what waits behind the first `sent` octets. Returns how many
    // octets that were.
    fn write_piece(&mut self, sent: usize) -> io::Result<usize> {
        let rest = self.waiting.get(sent..).unwrap_or(&[]);
        match (self.piece_max, &mut self.terminal) {
            (None, _) => self.stderr.write(rest),
            (Some(_), _) if !is_ready(0) => Ok(0),
            (Some(most), Some(terminal)) => terminal.write(piece(rest, most)),
            (Some(most), None) => self.stderr.write(piece(rest, most)),
        }
    }

    // Writes what waits, as far as it is taken at once. What fails is dropped.
    fn send(&mut self) {
        let mut sent = 0usize;
        for _piece in 0..PIECES_MAX {
            if sent >= self.waiting.len() {
                break;
            }
            match self.write_piece(sent) {
                Ok(0) => break,
                Ok(count) => sent = sent.saturating_add(count),
                Err(error) if is_passing(&error) => break,
                Err(_) => {
                    self.drop_behind(sent);
                    break;
                }
            }
        }
        self.forget(sent);
        self.stalled = !self.waiting.is_empty();
    }

    // Takes octets away from the front of what waits.
    fn forget(&mut self, count: usize) {
        if count == 0 {
            return;
        }
        let count = count.min(self.waiting.len());
        let left = self.waiting.len().saturating_sub(count);
        self.waiting.copy_within(count.., 0);
        self.waiting.truncate(left);
    }

    /// Writes what waits, as far as it is taken at once.
    pub fn flush(&mut self) {
        self.send();
        if self.dropped > 0 && self.hold_dropped() {
            self.send();
        }
    }

    /// Writes what waits at the end. It waits for whoever reads it, unless nothing is taken for a second.
    pub fn finish(&mut self) {
        let mut idle = 0i32;
        for _piece in 0..PIECES_MAX {
            let waiting = self.waiting.len();
            self.flush();
            if self.waiting.is_empty() || idle >= LAST_MILLIS || !is_ready(LAST_MILLIS) {
                return;
            }
            if self.waiting.len() < waiting {
                idle = 0;
            } else {
                let _ = poll(&mut [], TRY_MILLIS);
                idle = idle.saturating_add(TRY_MILLIS);
            }
        }
    }
}

// Whether what an error is of can be tried again.
fn is_passing(error: &io::Error) -> bool {
    matches!(error.kind(), ErrorKind::WouldBlock | ErrorKind::Interrupted)
}
