//! Who asks a server for its metrics and its health over HTTP. Nothing here waits: a connection is read,
//! and written to, as far as it goes at once, so that it keeps no record waiting.

use mio::net::{TcpListener, TcpStream};
use server_metrics::{Asked, Health, asked, put_answer};
use std::alloc::{AllocError, Global};
use std::io::{self, ErrorKind, Read, Write};
use std::net::SocketAddr;
use std::time::{Duration, Instant};

// How many connections are open at most. More wait in the system's queue.
const ASKERS_MAX: usize = 16;

// The most octets of the head of a request.
const HEAD_MAX: usize = 8_192;

// After how many seconds a connection is closed, whatever has come on it or was taken of the answer.
const SECONDS_MAX: u64 = 10;

// A connection.
#[derive(Drop)]
struct Asker {
    stream: TcpStream,
    head: Vec<u8>,
    asked: Asked,
    answer: Vec<u8>,
    // how many octets of the answer were written
    sent: usize,
    since: Instant,
    ended: bool,
}

// Whether a call that failed so may be made again.
fn is_passing(error: &io::Error) -> bool {
    matches!(error.kind(), ErrorKind::WouldBlock | ErrorKind::Interrupted)
}

impl Asker {
    fn new(alloc: Global, stream: TcpStream, since: Instant) -> Asker {
        Asker {
            stream,
            head: Vec::new(alloc),
            asked: Asked::More,
            answer: Vec::new(alloc),
            sent: 0,
            since,
            ended: false,
        }
    }

    // Takes octets that follow those of the head that came.
    fn take(&mut self, octets: &[u8]) {
        if self.head.extend_from_slice(octets).is_err() {
            self.ended = true;
            return;
        }
        self.asked = match asked(self.head.as_slice()) {
            Asked::More if self.head.len() >= HEAD_MAX => Asked::Bad,
            asked => asked,
        };
    }

    // Reads what has come, until the head is whole.
    fn read(&mut self, buf: &mut [u8]) {
        if self.asked != Asked::More {
            return;
        }
        let room = HEAD_MAX.saturating_sub(self.head.len());
        let Some(front) = buf.get_mut(..room) else {
            return;
        };
        match self.stream.read(front) {
            Ok(0) => self.ended = true,
            Ok(count) => self.take(front.get(..count).unwrap_or(&[])),
            Err(error) if is_passing(&error) => {}
            Err(_) => self.ended = true,
        }
    }

    fn waits(&self) -> bool {
        self.asked != Asked::More && self.answer.is_empty()
    }

    // Has the answer ready.
    fn answer(&mut self, health: Health, page: &[u8]) {
        if put_answer(&mut self.answer, self.asked, health, page).is_err() {
            self.ended = true;
        }
    }

    // Writes as much of the answer as is taken at once.
    fn write(&mut self) {
        let rest = self.answer.get(self.sent..).unwrap_or(&[]);
        if rest.is_empty() {
            return;
        }
        match self.stream.write(rest) {
            Ok(count) => self.sent = self.sent.saturating_add(count),
            Err(error) if is_passing(&error) => {}
            Err(_) => self.ended = true,
        }
    }

    fn is_answered(&self) -> bool {
        !self.answer.is_empty() && self.sent >= self.answer.len()
    }

    // Whether it is to be closed.
    fn is_over(&self, now: Instant) -> bool {
        let age = now.saturating_duration_since(self.since);
        self.ended || self.is_answered() || age >= Duration::from_secs(SECONDS_MAX)
    }
}

/// The connections on which somebody asks, and the socket to which they come.
#[derive(Drop)]
pub struct Askers {
    alloc: Global,
    listener: TcpListener,
    open: Vec<Asker>,
    buf: Vec<u8>,
}

impl Askers {
    /// Listens at an address.
    pub fn open(rt: &HostRuntime, address: SocketAddr) -> io::Result<Askers> {
        let alloc = rt.alloc();
        let Ok(buf) = vec![in alloc; 0u8; HEAD_MAX] else {
            return Err(io::Error::from(ErrorKind::OutOfMemory));
        };
        Ok(Askers {
            alloc,
            listener: TcpListener::bind(rt, address)?,
            open: Vec::new(alloc),
            buf,
        })
    }

    /// The address that it listens at.
    pub fn local_addr(&self) -> Option<SocketAddr> {
        self.listener.local_addr().ok()
    }

    // Accepts connections that wait, as far as there are places.
    fn accept(&mut self, now: Instant) {
        for _asker in 0..ASKERS_MAX {
            if self.open.len() >= ASKERS_MAX {
                return;
            }
            let Ok((stream, _peer)) = self.listener.accept() else {
                return;
            };
            if self.open.push(Asker::new(self.alloc, stream, now)).is_err() {
                return;
            }
        }
    }

    /// Accepts connections, and reads what has come. Returns whether an answer is wanted.
    pub fn read(&mut self, now: Instant) -> bool {
        self.accept(now);
        let mut wanted = false;
        for asker in &mut self.open {
            asker.read(&mut self.buf);
            wanted = wanted || asker.waits();
        }
        wanted
    }

    /// Gives those who wait their answers.
    pub fn answer(&mut self, health: Health, page: &[u8]) {
        for asker in &mut self.open {
            if asker.waits() {
                asker.answer(health, page);
            }
        }
    }

    // Closes those that are over.
    fn close(&mut self, now: Instant) -> Result<(), AllocError> {
        let open = std::mem::replace(&mut self.open, Vec::new(self.alloc));
        for asker in open {
            if !asker.is_over(now) {
                self.open.push(asker)?;
            }
        }
        Ok(())
    }

    /// Writes what is taken of the answers at once, and closes the connections that are over.
    pub fn write(&mut self, now: Instant) {
        for asker in &mut self.open {
            asker.write();
        }
        if !self.open.is_empty() {
            let _lost = self.close(now);
        }
    }
}
