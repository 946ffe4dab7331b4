//! The lines that requests begin with.

ghost use Rattle.std.specs.Prelude.{◌≡◌, ◌≢◌, ◌++◌, ℕ, List, MatchOption, OnOk, decimal};
ghost use Rattle.site_messages.specs.Messages.{IsRequest, request_text, request_words};
ghost use Rattle.site_messages.specs.Words.{IsNumber, number_text};
ghost use Rattle.site_messages.specs.declared.request.Request.{Request as the_request};

use crate::values::{number_of, put, put_number, read_number};
use crate::words::{is, read_text};
use std::alloc::AllocError;

/// What an asker says. Behind a request that counts ranges come the lines of so many; behind `Parts`
/// the line of one; behind `Put` an archive of so many octets.
#[derive(Clone, Copy, Debug, PartialEq, Eq)]
pub enum Request {
    /// It speaks version 1.
    Hello,
    /// The parts of a range, at most so many where they are chosen by count.
    Parts { most: u64 },
    /// Finer parts of each of some ranges, at most so many of each.
    Split { most: u64, ranges: u64 },
    /// The archive of some ranges.
    Get { ranges: u64 },
    /// Records are handed over.
    Put { octets: u64 },
    /// There is no more to ask.
    End,
}

// What follows a word in a line.
fn behind<'a>(line: &'a [u8], word: &[u8]) -> Option<&'a [u8]>
    ensures { MatchOption result ((rest : List ℕ) → line.now ≢ word.now ++ rest)
        (λ rest. line.now ≡ word.now ++ rest.now) }
{
    match read_text(line, word) {
        Ok(rest) => Some(rest),
        Err(_) => None,
    }
}

/// The number behind a word.
pub(crate) fn number_behind(line: &[u8], word: &[u8]) -> Option<u64>
    ensures { MatchOption result ((n : ℕ) → IsNumber n → line.now ≢ word.now ++ decimal n)
        (λ n. IsNumber n × (line.now ≡ word.now ++ decimal n)) }
{
    let rest = behind(line, word)?;
    number_of(rest)
}

// Two numbers behind a word, parted by a space.
fn numbers_behind(line: &[u8], word: &[u8]) -> Option<(u64, u64)>
    ensures { MatchOption result ((m n : ℕ) → IsNumber m → IsNumber n
        → line.now ≢ word.now ++ (number_text m ++ decimal n))
        (λ x. IsNumber x.0 × IsNumber x.1
        × (line.now ≡ word.now ++ (number_text x.0 ++ decimal x.1))) }
{
    let rest = behind(line, word)?;
    match read_number(rest) {
        Err(_) => None,
        Ok((first, rest)) => match number_of(rest) {
            None => None,
            Some(second) => Some((first, second)),
        },
    }
}

impl Request {
    /// The request that a line without its line feed is.
    pub fn of_line(line: &[u8]) -> Option<Request>
        ensures { MatchOption result ((r : the_request) → IsRequest r → line.now ≢ request_words r)
            (λ r. IsRequest r × (line.now ≡ request_words r)) }
    {
        if is(line, b"syslogbox reconcile 1") {
            return Some(Request::Hello);
        }
        if is(line, b"end") {
            return Some(Request::End);
        }
        if let Some(most) = number_behind(line, b"parts ") {
            return Some(Request::Parts { most });
        }
        if let Some((most, ranges)) = numbers_behind(line, b"split ") {
            return Some(Request::Split { most, ranges });
        }
        if let Some(ranges) = number_behind(line, b"get ") {
            return Some(Request::Get { ranges });
        }
        if let Some(octets) = number_behind(line, b"put ") {
            return Some(Request::Put { octets });
        }
        None
    }
}

/// Puts the line of a request behind a text. It fails only when out of memory.
pub fn write_request(text: &mut Vec<u8>, request: Request) -> Result<(), AllocError>
    ensures { OnOk result (text.new.items ≡ text.old.items ++ request_text request) }
{
    match request {
        Request::Hello => put(text, b"syslogbox reconcile 1\n"),
        Request::Parts { most } => {
            put(text, b"parts ")?;
            put_number(text, most, b"\n")
        }
        Request::Split { most, ranges } => {
            put(text, b"split ")?;
            put_number(text, most, b" ")?;
            put_number(text, ranges, b"\n")
        }
        Request::Get { ranges } => {
            put(text, b"get ")?;
            put_number(text, ranges, b"\n")
        }
        Request::Put { octets } => {
            put(text, b"put ")?;
            put_number(text, octets, b"\n")
        }
        Request::End => put(text, b"end\n"),
    }
}
