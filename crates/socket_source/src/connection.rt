//! A connection that is open.
ghost use Rattle.std.specs.Prelude.{ℕ, ◌<◌, ◌≤◌, length, IfOk, IfSome};
ghost use Rattle.socket_source.specs.Places.{ReadsFew, begun};
ghost use Rattle.socket_source.specs.Sockets.{ReadsWithin};
ghost use Rattle.socket_source.specs.Turns.{ReadsFront};

use crate::front::front_len;
use crate::place::Place;
use crate::refusal::{Reading, reading_of, refusal_of};
use crate::share::Share;
use mio::net::TcpStream;
use std::io::{self, Read};
use std::net::IpAddr;
use syslog_frame::Framing;

/// A connection that is open.
#[derive(Drop)]
pub(crate) struct Connection {
    pub(crate) stream: TcpStream,
    pub(crate) framing: Framing,
    // the number of its peer's host
    pub(crate) peer: u128,
    // its peer's address
    pub(crate) address: IpAddr,
}

/// Where in its stream a connection is, and how many more frames may begin.
#[derive(Clone, Copy)]
pub(crate) struct Allowance {
    pub(crate) place: Place,
    pub(crate) room: u64,
}

// What the answer of a read tells.
fn reading_from(answer: io::Result<usize>, room: usize) -> Reading
    requires { IfOk answer (λ len. len ≤ room) }
    ensures { ReadsWithin room result }
{
    match answer {
        Ok(len) => reading_of(Ok(len)),
        Err(error) => reading_of(Err(refusal_of(&error))),
    }
}

// Reads what waits, and leaves it for the next read.
fn peek(stream: &TcpStream, buf: &mut [u8]) -> Reading
    ensures { ReadsWithin (length buf.new) result }
{
    let room = buf.len();
    reading_from(stream.peek(buf), room)
}

// Reads what waits.
fn take(mut stream: &TcpStream, buf: &mut [u8]) -> Reading
    ensures { ReadsWithin (length buf.new) result }
{
    let room = buf.len();
    reading_from(stream.read(buf), room)
}

impl Connection {
    /// Whether something waits, which is left for the next read.
    pub(crate) fn look(&self) -> Reading {
        peek(&self.stream, &mut [0u8])
    }

    // How many of the first `len` octets are given: all, or those before the first frame that may not
    // begin.
    fn front(&self, allowance: Option<Allowance>, octets: &[u8], len: usize) -> usize
        requires { len ≤ length octets.now }
        ensures within { result ≤ len }
        ensures few { IfSome allowance (λ a. (n : ℕ) → n ≤ result
            → begun self.now.framing a.place octets.now n ≤ a.room) }
    {
        match allowance {
            Some(allowed) => {
                let front = allowed.place.begin(self.framing, octets, len, allowed.room);
                front.len
            }
            None => len,
        }
    }

    /// Reads a share of what waits into the front of a slice; the rest stays in the system's buffer.
    /// What is read is read again into `spent`, and so taken from there. Under an allowance no more
    /// frames begin in it.
    pub(crate) fn read(
        &self,
        share: Share,
        allowance: Option<Allowance>,
        buf: &mut [u8],
        spent: &mut [u8],
    ) -> Reading
        requires { 0 < share.frames }
        ensures within { ReadsWithin (length buf.new) result }
        ensures bounded { ReadsFront share self.now.framing buf.new result }
        ensures few { IfSome allowance (λ a. ReadsFew self.now.framing a.place a.room buf.new result) }
    {
        let room = buf.len().min(spent.len()).min(share.octets);
        match peek(&self.stream, &mut buf[..room]) {
            Reading::Piece(len) => {
                let front = front_len(self.framing, buf, len, share.frames);
                let front = self.front(allowance, buf, front);
                take(&self.stream, &mut spent[..front])
            }
            other => other,
        }
    }
}
