//! The standard descriptors, as the program finds them when it starts.

use libc::STDOUT_FILENO;
use libc::net::{POLLERR, POLLHUP, POLLOUT, poll};
use libc::types::pollfd;
use std::fs::{File, OpenOptions};
use std::io::{self, Read};
use std::mem::forget;
use std::os::fd::AsRawFd;

const NULL_DEVICE: &str = "/dev/null";

// what the system tells of the standard output
const STDOUT_INFO: &str = "/proc/self/fdinfo/1";

/// Opens /dev/null on each of the descriptors 0 to 2 that is closed, so that no socket and no file
/// ever takes its place: on 0 for writing only, on 1 and 2 for reading only. Each read of standard
/// input, and each write of the output or the diagnostics, then fails as on a closed descriptor.
/// Call it before anything else is opened.
pub fn occupy_closed_descriptors(rt: &HostRuntime) -> io::Result<()> {
    for _descriptor in 0..3 {
        // the lowest descriptor that is closed
        let opened = File::open(rt, NULL_DEVICE)?;
        match opened.as_raw_fd() {
            0 => {
                drop(opened);
                forget(OpenOptions::new().write(true).open(rt, NULL_DEVICE)?);
            }
            1 | 2 => forget(opened),
            _ => return Ok(()),
        }
    }
    Ok(())
}

// Whether a line of `STDOUT_INFO` says that the descriptor is open for reading alone: `flags:`, and in
// octal what it was opened with, whose last digit has the access mode.
fn says_reading_alone(line: &[u8]) -> bool {
    line.starts_with(b"flags:") && matches!(line.last(), Some(b'0' | b'4'))
}

// Whether the standard output is open for reading alone, where the system tells.
fn is_for_reading_alone(rt: &HostRuntime) -> bool {
    let Ok(mut info) = File::open(rt, STDOUT_INFO) else {
        return false;
    };
    let mut text = [0u8; 256];
    let Ok(n) = info.read(&mut text) else {
        return false;
    };
    text[..n]
        .split(|octet| *octet == b'\n')
        .any(says_reading_alone)
}

/// Whether standard output is a pipe or a socket, and nobody is left to read what is written to it.
/// Nothing is written.
pub fn has_lost_reader() -> bool {
    let mut asked = [pollfd {
        fd: STDOUT_FILENO,
        events: POLLOUT,
        revents: 0,
    }];
    let _count = poll(&mut asked, 0);
    asked[0].revents & (POLLERR | POLLHUP) != 0
}

/// Whether standard output can be written at all: its descriptor is open for writing, and somebody
/// is left to read what is written to it. Nothing is written.
pub fn can_be_written(rt: &HostRuntime) -> bool {
    !has_lost_reader() && !is_for_reading_alone(rt)
}
