//! The service manager, which a server tells how it does, as sd_notify(3) describes.
ghost use Rattle.std.specs.Prelude.{◌≤◌, IfSome};

use libc::net as c;
use os::FromRawFd;
use std::alloc::{AllocError, Global};
use std::env;
use std::os::fd::{AsRawFd, OwnedFd};
use std::time::{Duration, Instant};

// The most octets of the name of its socket.
const NAME_MAX: usize = 107;

// How many signs of life are sent in the time within which it wants one.
const SIGNS: u32 = 4;

type Address = [u8; c::_SS_SIZE];

// The address of its socket: a path, or behind an at sign a name that is no file's.
fn address_of(name: &str) -> Option<(Address, u32)>
    ensures { IfSome result (λ r. r.1 ≤ 128) }
{
    let octets = name.as_bytes();
    let len = octets.len();
    if len < 2 || len > NAME_MAX {
        return None;
    }
    let mut address = [0u8; c::_SS_SIZE];
    address[..2].copy_from_slice(&(c::AF_UNIX as u16).to_ne_bytes());
    address[2..2 + len].copy_from_slice(octets);
    if address[2] == b'@' {
        address[2] = 0;
    }
    Some((address, len as u32 + 2))
}

// A socket that is connected to it, whose calls do not wait.
fn connected(name: &str) -> Option<OwnedFd> {
    let (address, len) = address_of(name)?;
    let kind = c::SOCK_DGRAM | c::SOCK_NONBLOCK | c::SOCK_CLOEXEC;
    let fd = unsafe { c::socket(c::AF_UNIX, kind, 0) };
    if fd < 0 {
        return None;
    }
    let socket = unsafe { OwnedFd::from_raw_fd(fd) };
    let status = unsafe { c::connect(socket.as_raw_fd(), &address, len) };
    if status < 0 {
        return None;
    }
    Some(socket)
}

// The number in a variable of the environment.
fn number(rt: &HostRuntime, name: &str) -> Option<u64> {
    let text = env::var(rt, name).ok()?;
    text.as_str().parse::<u64>().ok()
}

// How often it wants a sign of life, if it wants any of this process.
fn pace(rt: &HostRuntime) -> Option<Duration> {
    let micros = number(rt, "WATCHDOG_USEC")?;
    match number(rt, "WATCHDOG_PID") {
        Some(process) if i64::try_from(process) != Ok(i64::from(libc::getpid())) => None,
        _ => Some(Duration::from_micros(micros / u64::from(SIGNS))),
    }
}

// What a variable is set to.
fn assignment(alloc: Global, name: &[u8], value: &[u8]) -> Result<Vec<u8>, AllocError> {
    let mut text = Vec::new(alloc);
    text.extend_from_slice(name)?;
    text.extend_from_slice(b"=")?;
    text.extend_from_slice(value)?;
    Ok(text)
}

/// The service manager, if one started this process and wants to be told. What it does not take at once
/// is not told.
#[derive(Drop)]
pub struct ServiceManager {
    alloc: Global,
    socket: Option<OwnedFd>,
    pace: Option<Duration>,
    // when the last sign of life was sent
    last: Option<Instant>,
}

impl ServiceManager {
    /// The one that the environment names.
    pub fn new(rt: &HostRuntime) -> ServiceManager {
        let socket = match env::var(rt, "NOTIFY_SOCKET") {
            Ok(name) => connected(name.as_str()),
            Err(_) => None,
        };
        ServiceManager {
            alloc: rt.alloc(),
            socket,
            pace: pace(rt),
            last: None,
        }
    }

    fn tell(&self, octets: &[u8]) {
        if let Some(socket) = &self.socket {
            let flags = c::MSG_NOSIGNAL | c::MSG_DONTWAIT;
            let _sent = unsafe { c::send(socket.as_raw_fd(), octets, flags) };
        }
    }

    /// Tells it that the server listens.
    pub fn tell_ready(&self) {
        self.tell(b"READY=1");
    }

    /// Tells it that the server ends.
    pub fn tell_stopping(&self) {
        self.tell(b"STOPPING=1");
    }

    /// Tells it a line on how the server does.
    pub fn tell_status(&self, line: &[u8]) {
        if self.socket.is_none() {
            return;
        }
        if let Ok(text) = assignment(self.alloc, b"STATUS", line) {
            self.tell(text.as_slice());
        }
    }

    /// Tells it that the server is alive, as often as it wants that.
    pub fn tell_alive(&mut self, rt: &HostRuntime) {
        let Some(pace) = self.pace else {
            return;
        };
        let Ok(now) = Instant::now(rt) else {
            return;
        };
        let is_due = match self.last {
            Some(last) => now.saturating_duration_since(last) >= pace,
            None => true,
        };
        if is_due {
            self.last = Some(now);
            self.tell(b"WATCHDOG=1");
        }
    }
}
