//! The end of standard input.

use libc::net::{POLLIN, poll};
use libc::types::pollfd;
use libc::{EAGAIN, EINTR, STDIN_FILENO, read};
use mio::unix::SourceFd;
use mio::{Interest, Registry, Token};
use std::io;

/// What a look at standard input says.
#[derive(Clone, Copy)]
pub(crate) enum InputTurn {
    /// Octets came, which are dropped, or a signal came first: there may be more.
    Some,
    /// Nothing is there until the system reports it.
    Dry,
    /// It has ended, or failed.
    Ended,
}

/// Has the system report standard input under a number. An error if it cannot be waited for, as a
/// file or /dev/null.
pub(crate) fn watch_input(registry: &Registry, number: usize) -> io::Result<()> {
    registry.register(
        &mut SourceFd(&STDIN_FILENO),
        Token(number),
        Interest::READABLE,
    )
}

// Whether a read of standard input would not wait; none where a signal came first.
fn is_readable() -> Option<bool> {
    let mut asked = [pollfd {
        fd: STDIN_FILENO,
        events: POLLIN,
        revents: 0,
    }];
    let count = poll(&mut asked, 0);
    if count < 0 { None } else { Some(count > 0) }
}

/// Reads standard input once, if that does not wait. Other processes may have it open too, so it is
/// not made non-blocking.
pub(crate) fn read_input(buf: &mut [u8]) -> InputTurn {
    match is_readable() {
        Some(true) => {}
        Some(false) => return InputTurn::Dry,
        None => return InputTurn::Some,
    }
    let count = read(STDIN_FILENO, buf);
    if count > 0 {
        return InputTurn::Some;
    }
    if count == 0 {
        return InputTurn::Ended;
    }
    match os::errno() {
        EAGAIN => InputTurn::Dry,
        EINTR => InputTurn::Some,
        _ => InputTurn::Ended,
    }
}
