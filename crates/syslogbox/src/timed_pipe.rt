//! Standard input and output as a pipe to another site, which is not waited for without end.

use libc::net::{POLLERR, POLLHUP, POLLIN, POLLNVAL, POLLOUT, poll};
use libc::types::pollfd;
use libc::{STDIN_FILENO, STDOUT_FILENO};
use std::cell::Cell;
use std::io::{self, ErrorKind, Read, Stdin, Stdout, Write};
use std::time::Instant;

// What a pipe takes at once where it can be written (POSIX.1-2017, write).
const PIECE_MAX: usize = 4096;

// How often a wait that a signal ended is begun anew.
const TRIES: usize = 1000;

// How many octets of a message pay for a second of waiting for the rest of it.
const OCTETS_A_SECOND: usize = 1000;

/// For how long the other site is waited for, and whether it was waited for in vain. A message may begin so late; what
/// comes or goes of it pays for the wait for the rest, so that one that drips comes to an end.
#[derive(Drop)]
pub struct Patience<'r> {
    rt: &'r HostRuntime,
    millis: i32,
    // what is left of that for the message that comes, and for the one that goes
    to_read: Cell<i32>,
    to_write: Cell<i32>,
    has_ended: Cell<bool>,
}

// How many milliseconds have passed since; none where the system does not tell.
fn millis_since(rt: &HostRuntime, begun: Option<Instant>) -> i32 {
    match (begun, Instant::now(rt)) {
        (Some(begun), Ok(now)) => {
            let passed = now.saturating_duration_since(begun).as_millis();
            i32::try_from(passed).unwrap_or(i32::MAX)
        }
        _ => 0,
    }
}

impl<'r> Patience<'r> {
    /// So many seconds; what has no room is as long as can be waited.
    pub fn new(rt: &'r HostRuntime, seconds: u32) -> Patience<'r> {
        let millis = i32::try_from(seconds.saturating_mul(1000)).unwrap_or(i32::MAX);
        Patience {
            rt,
            millis,
            to_read: Cell::new(millis),
            to_write: Cell::new(millis),
            has_ended: Cell::new(false),
        }
    }

    /// Whether the other site said nothing, or took nothing, for so long, or too little.
    pub fn has_ended(&self) -> bool {
        self.has_ended.get()
    }

    // Waits until one of these happens on a descriptor, or it fails.
    fn wait_for(&self, fd: i32, events: i16, millis: i32) -> io::Result<()> {
        let mut asked = [pollfd {
            fd,
            events,
            revents: 0,
        }];
        for _try in 0..TRIES {
            let count = poll(&mut asked, millis);
            if count == 0 {
                break;
            }
            if asked[0].revents & (events | POLLERR | POLLHUP | POLLNVAL) != 0 {
                return Ok(());
            }
        }
        self.has_ended.set(true);
        Err(io::Error::new(ErrorKind::TimedOut, "the other site is silent"))
    }

    // Waits for a descriptor for as long as is left of a time, which the wait takes from it.
    fn wait_within(&self, fd: i32, events: i16, left: &Cell<i32>) -> io::Result<()> {
        let begun = Instant::now(self.rt).ok();
        self.wait_for(fd, events, left.get())?;
        let passed = millis_since(self.rt, begun);
        left.set(left.get().saturating_sub(passed).max(0));
        Ok(())
    }

    // Waits for octets of the message that comes. What is said behind it is another message.
    fn wait_to_read(&self) -> io::Result<()> {
        self.to_write.set(self.millis);
        self.wait_within(STDIN_FILENO, POLLIN, &self.to_read)
    }

    // Waits until octets of the message that goes can be written. What comes behind it is another message.
    fn wait_to_write(&self) -> io::Result<()> {
        self.to_read.set(self.millis);
        self.wait_within(STDOUT_FILENO, POLLOUT, &self.to_write)
    }

    // So many octets of a message have come or gone, which pays for the wait for the rest.
    fn pay(&self, left: &Cell<i32>, count: usize) {
        let paid = i32::try_from(count.saturating_mul(1000) / OCTETS_A_SECOND).unwrap_or(i32::MAX);
        left.set(left.get().saturating_add(paid).min(self.millis));
    }
}

/// Standard input, whose octets are waited for.
#[derive(Drop)]
pub struct TimedInput<'p> {
    pub stdin: Stdin,
    pub patience: &'p Patience<'p>,
}

impl<'p> Read for TimedInput<'p> {
    fn read(&mut self, buf: &mut [u8]) -> io::Result<usize> {
        self.patience.wait_to_read()?;
        let count = self.stdin.read(buf)?;
        self.patience.pay(&self.patience.to_read, count);
        Ok(count)
    }
}

/// Standard output, which is waited for before each piece that a pipe takes at once.
#[derive(Drop)]
pub struct TimedOutput<'p> {
    pub stdout: Stdout,
    pub patience: &'p Patience<'p>,
}

impl<'p> Write for TimedOutput<'p> {
    fn write(&mut self, buf: &[u8]) -> io::Result<usize> {
        self.patience.wait_to_write()?;
        let piece = buf.get(..PIECE_MAX).unwrap_or(buf);
        let count = self.stdout.write(piece)?;
        self.patience.pay(&self.patience.to_write, count);
        Ok(count)
    }

    fn flush(&mut self) -> io::Result<()> {
        self.stdout.flush()
    }
}
