//! Standard error of a command whose reader may leave.

use crate::descriptors::has_lost_reader;
use std::io::{self, Stderr, Write};

// what is told where the output cannot be written
const WRITE_FAULT: &[u8] = b"write fault\n";

/// Standard error, where it is not told that the output cannot be written if its reader has gone: who
/// left knows it.
#[derive(Drop)]
pub struct QuietErrors {
    errors: Stderr,
}

impl QuietErrors {
    /// Over standard error.
    pub fn new(rt: &HostRuntime) -> QuietErrors {
        QuietErrors {
            errors: rt.stderr(),
        }
    }
}

impl Write for QuietErrors {
    fn write(&mut self, buf: &[u8]) -> io::Result<usize> {
        if buf == WRITE_FAULT && has_lost_reader() {
            return Ok(buf.len());
        }
        self.errors.write(buf)
    }

    fn flush(&mut self) -> io::Result<()> {
        self.errors.flush()
    }
}
