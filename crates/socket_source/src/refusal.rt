//! What the answers of a socket's calls mean. Nothing here calls the system.
ghost use Rattle.std.specs.Prelude.{◌≡◌};
ghost use Rattle.std.specs.IoError.{raw_os_error};
ghost use Rattle.socket_source.specs.Refusals.{ended_if_dry, reading_as, refusal_at, retry_after};

use crate::step::ConnectionEnd;
use libc::{EAGAIN, ECONNABORTED, ECONNREFUSED, EINTR, EMFILE, ENOMEM};
use std::io;

// errors of Linux for which libc has no name here
const EPERM: i32 = 1;

const ENFILE: i32 = 23;

const ENONET: i32 = 64;

const EPROTO: i32 = 71;

const ENOPROTOOPT: i32 = 92;

const EOPNOTSUPP: i32 = 95;

const ENETDOWN: i32 = 100;

const ENETUNREACH: i32 = 101;

const ENOBUFS: i32 = 105;

const EHOSTDOWN: i32 = 112;

const EHOSTUNREACH: i32 = 113;

/// Why the system refused a call of a socket.
#[derive(Clone, Copy)]
pub(crate) enum Refusal {
    /// Nothing is there yet (EAGAIN).
    Dry,
    /// A signal came first (EINTR).
    Interrupted,
    /// The system has no descriptor or no memory left (EMFILE, ENFILE, ENOBUFS, ENOMEM).
    Exhausted,
    /// The one connection or datagram that was next has an error of its own, as ECONNABORTED, and is
    /// gone: what the manual of Linux names for accept(2) (EPERM, ENONET, EPROTO, ENOPROTOOPT,
    /// EOPNOTSUPP, ENETDOWN, ENETUNREACH, EHOSTDOWN, EHOSTUNREACH), and ECONNREFUSED.
    Lost,
    /// Any other error.
    Broken,
}

/// Why a call failed.
pub(crate) fn refusal_of(error: &io::Error) -> Refusal
    ensures { result ≡ refusal_at (raw_os_error error.now) }
{
    match error.raw_os_error() {
        Some(EAGAIN) => Refusal::Dry,
        Some(EINTR) => Refusal::Interrupted,
        Some(EMFILE | ENFILE | ENOBUFS | ENOMEM) => Refusal::Exhausted,
        Some(EPERM | ENONET | EPROTO | ENOPROTOOPT | EOPNOTSUPP | ENETDOWN) => Refusal::Lost,
        Some(ENETUNREACH | ECONNABORTED | ECONNREFUSED | EHOSTDOWN | EHOSTUNREACH) => Refusal::Lost,
        _ => Refusal::Broken,
    }
}

/// What a read of a connection tells.
#[derive(Clone, Copy)]
pub(crate) enum Reading {
    /// So many octets came.
    Piece(usize),
    /// The connection has ended.
    Ended(ConnectionEnd),
    /// Nothing is there until the system reports the socket.
    Dry,
    /// The read has to be made again.
    Again,
}

/// What a read into a slice that is not empty tells. Every error is the connection's own, a reset
/// like any other; none is the server's.
pub(crate) fn reading_of(answer: Result<usize, Refusal>) -> Reading
    ensures { result ≡ reading_as answer }
{
    match answer {
        Ok(0) => Reading::Ended(ConnectionEnd::Closed),
        Ok(len) => Reading::Piece(len),
        Err(Refusal::Dry) => Reading::Dry,
        Err(Refusal::Interrupted) => Reading::Again,
        Err(Refusal::Exhausted | Refusal::Lost | Refusal::Broken) => {
            Reading::Ended(ConnectionEnd::Reset)
        }
    }
}

/// What a read of a connection tells that has been silent for too long: it ends if nothing is there.
pub(crate) fn ended_if_dry(reading: Reading) -> Reading
    ensures { result ≡ ended_if_dry reading }
{
    match reading {
        Reading::Dry => Reading::Ended(ConnectionEnd::Idle),
        other => other,
    }
}

/// When a listener's socket is tried again.
#[derive(Clone, Copy)]
pub(crate) enum Retry {
    /// When the system reports it.
    Reported,
    /// In its next turn.
    Now,
    /// When a connection ends, or with the next tick.
    Later,
    /// When its peer may send more.
    Slowed,
}

/// When a listener's socket is tried again after a refusal. It stays open whatever the refusal was.
pub(crate) fn retry_of(refusal: Refusal) -> Retry
    ensures { result ≡ retry_after refusal }
{
    match refusal {
        Refusal::Dry => Retry::Reported,
        Refusal::Interrupted | Refusal::Lost => Retry::Now,
        Refusal::Exhausted | Refusal::Broken => Retry::Later,
    }
}
