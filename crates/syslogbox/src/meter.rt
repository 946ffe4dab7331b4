//! A line on a terminal that tells how far the inputs of a command were read.

use libc::{SEEK_CUR, STDIN_FILENO, lseek};
use progress::{Progress, ProgressUnit};
use std::cell::RefCell;
use std::fs;
use std::io::{self, IsTerminal, Read, Stderr, Write};
use std::rt::Files;
use std::time::Instant;

// Standard input, by a name that the system resolves to what it is.
const STDIN_PATH: &str = "/proc/self/fd/0";

/// The line on standard error that tells how far the inputs of a command were read.
#[derive(Drop)]
pub struct Meter<'r> {
    rt: &'r HostRuntime,
    stderr: Stderr,
    began: Instant,
    progress: Progress,
    // what draws the line; its memory is used again
    octets: Vec<u8>,
    // whether no line is drawn any more
    has_ended: bool,
}

impl<'r> Meter<'r> {
    /// The meter of a command that reads files and begins now; None where standard error is no terminal,
    /// where no line is wanted, and where the system does not tell the time.
    pub fn of_files(rt: &'r HostRuntime, is_quiet: bool) -> Option<RefCell<Meter<'r>>> {
        if is_quiet || !rt.stderr().is_terminal() {
            return None;
        }
        let began = Instant::now(rt).ok()?;
        Some(RefCell::new(Meter {
            rt,
            stderr: rt.stderr(),
            began,
            progress: Progress::new(ProgressUnit::Octets, 0),
            octets: Vec::new(rt.alloc()),
            has_ended: false,
        }))
    }

    /// The meter of a command that reads standard input; None too where that is a terminal, on which somebody
    /// types.
    pub fn of_input(rt: &'r HostRuntime, is_quiet: bool) -> Option<RefCell<Meter<'r>>> {
        if rt.stdin().is_terminal() {
            return None;
        }
        Meter::of_files(rt, is_quiet)
    }

    // The microseconds since it began.
    fn now(&self) -> u64 {
        match Instant::now(self.rt) {
            Ok(now) => {
                let since = now.saturating_duration_since(self.began);
                u64::try_from(since.as_micros()).unwrap_or(u64::MAX)
            }
            Err(_) => 0,
        }
    }

    // Counts so many more, and draws the line where one is due. What is not drawn is not missed.
    fn add(&mut self, more: u64) {
        self.progress.add(more);
        let now = self.now();
        if self.has_ended || !self.progress.is_due(now) {
            return;
        }
        self.octets.clear();
        if self.progress.draw(now, &mut self.octets).is_ok() {
            let _written = self.stderr.write(self.octets.as_slice());
        }
    }

    // Clears the line, if one stands.
    fn clear(&mut self) {
        let octets = self.progress.clear();
        if !octets.is_empty() {
            let _written = self.stderr.write(octets);
        }
    }
}

/// The meter of a command, which its devices share; or none.
#[derive(Clone, Copy)]
pub struct SharedMeter<'m, 'r> {
    meter: Option<&'m RefCell<Meter<'r>>>,
}

impl<'m, 'r> SharedMeter<'m, 'r> {
    /// It shares this meter.
    pub fn new(meter: Option<&'m RefCell<Meter<'r>>>) -> SharedMeter<'m, 'r> {
        SharedMeter { meter }
    }

    /// So many more are expected; None: nobody knows how many.
    pub fn expect_more(&self, more: Option<u64>) {
        if let Some(shared) = self.meter
            && let Ok(mut meter) = shared.try_borrow_mut()
        {
            meter.progress.expect_more(more);
        }
    }

    /// So many more octets were read.
    pub fn add(&self, more: usize) {
        if let Some(shared) = self.meter
            && let Ok(mut meter) = shared.try_borrow_mut()
        {
            meter.add(more as u64);
        }
    }

    /// Clears the line, if one stands.
    pub fn clear(&self) {
        if let Some(shared) = self.meter
            && let Ok(mut meter) = shared.try_borrow_mut()
        {
            meter.clear();
        }
    }

    // Clears the line, and draws none any more.
    fn end(&self) {
        if let Some(shared) = self.meter
            && let Ok(mut meter) = shared.try_borrow_mut()
        {
            meter.clear();
            meter.has_ended = true;
        }
    }
}

// How many octets a file has from a position on; None where it is no regular file.
fn octets_from<R: Files>(rt: &R, path: &str, position: u64) -> Option<u64> {
    let metadata = fs::metadata(rt, path).ok()?;
    if !metadata.is_file() {
        return None;
    }
    Some(metadata.len().saturating_sub(position))
}

/// How many octets are left of standard input; None where it is no regular file.
pub fn stdin_octets(rt: &HostRuntime) -> Option<u64> {
    let position = u64::try_from(lseek(STDIN_FILENO, 0, SEEK_CUR)).ok()?;
    octets_from(rt, STDIN_PATH, position)
}

/// How many octets the file with this name has; None where it is no regular file.
pub fn file_octets<R: Files>(rt: &R, path: &str) -> Option<u64> {
    octets_from(rt, path, 0)
}

/// A reader whose octets a meter counts.
#[derive(Drop)]
pub struct MeteredReader<'m, 'r, D> {
    pub reader: D,
    pub meter: SharedMeter<'m, 'r>,
}

impl<'m, 'r, D: Read> Read for MeteredReader<'m, 'r, D> {
    fn read(&mut self, buf: &mut [u8]) -> io::Result<usize> {
        let count = self.reader.read(buf)?;
        self.meter.add(count);
        Ok(count)
    }
}

/// A writer before whose octets the line of a meter is cleared.
#[derive(Drop)]
pub struct ClearedWriter<'m, 'r, D> {
    pub writer: D,
    pub meter: SharedMeter<'m, 'r>,
}

impl<'m, 'r, D: Write> Write for ClearedWriter<'m, 'r, D> {
    fn write(&mut self, buf: &[u8]) -> io::Result<usize> {
        self.meter.clear();
        self.writer.write(buf)
    }

    fn flush(&mut self) -> io::Result<()> {
        self.writer.flush()
    }
}

/// Standard output of a command that has a meter. Where it is a terminal, its first octets take the place of the
/// line.
#[derive(Drop)]
pub struct MeteredOutput<'m, 'r, D> {
    writer: D,
    meter: SharedMeter<'m, 'r>,
    is_terminal: bool,
}

impl<'m, 'r, D: Write + IsTerminal> MeteredOutput<'m, 'r, D> {
    /// Over a writer.
    pub fn new(writer: D, meter: SharedMeter<'m, 'r>) -> MeteredOutput<'m, 'r, D> {
        let is_terminal = writer.is_terminal();
        MeteredOutput {
            writer,
            meter,
            is_terminal,
        }
    }
}

impl<'m, 'r, D: Write> Write for MeteredOutput<'m, 'r, D> {
    fn write(&mut self, buf: &[u8]) -> io::Result<usize> {
        if self.is_terminal {
            self.meter.end();
        }
        self.writer.write(buf)
    }

    fn flush(&mut self) -> io::Result<()> {
        self.writer.flush()
    }
}
