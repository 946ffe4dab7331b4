//! Pieces of one stream are scanned or copied a number of times.

use std::alloc::{AllocError, Global};
use std::io;
use syslog_frame::{Framing, Ready, Scanner, put_frame};

/// How many octets a piece has.
pub const PIECE: usize = 4_096;

/// About how many octets the stream of one round has: too many for a processor's nearest caches.
const ROUND: usize = 4_096 * PIECE;

/// The most octets of a frame.
const SIZE_MAX: usize = 262_144;

/// The most rounds.
const ROUNDS_MAX: u32 = 10_000_000;

/// The size of a frame and the number of rounds, if the words are numbers in range.
pub fn numbers(size: &str, rounds: &str) -> Option<(usize, u32)> {
    let size: usize = size.parse().ok()?;
    let rounds: u32 = rounds.parse().ok()?;
    (size <= SIZE_MAX && rounds <= ROUNDS_MAX).then_some((size, rounds))
}

/// Frames of this size, as many as a round has, but at least one.
fn stream(alloc: Global, framing: Framing, size: usize) -> Result<Vec<u8>, AllocError> {
    let record = vec![in alloc; b'a'; size]?;
    let mut out = Vec::with_capacity(alloc, ROUND)?;
    for _ in 0..=ROUND / (size + 6) {
        if put_frame(framing, &record, &mut out).is_err() {
            return Err(AllocError);
        }
    }
    Ok(out)
}

/// Scans a piece, and counts the octets of the frames that end in it.
pub fn take(scanner: &mut Scanner, piece: &[u8]) -> u64 {
    let mut rest = piece;
    let mut octets: u64 = 0;
    for _ in 0..=piece.len() {
        let Ok(used) = scanner.push(rest) else {
            return octets;
        };
        rest = &rest[used..];
        match scanner.ready() {
            Some(Ready::Frame(frame)) => octets = octets.wrapping_add(frame.len() as u64),
            Some(_) => {}
            None => return octets,
        }
        let _ = scanner.release();
    }
    octets
}

/// Scans the stream in pieces, and prints how many octets its frames had. It fails if a word is
/// refused, memory runs out or nothing can be printed.
pub fn scan(
    rt: &impl Print,
    alloc: Global,
    framing: &str,
    size: &str,
    rounds: &str,
) -> io::Result<()> {
    let framing = if framing == "lf" {
        Framing::Lf
    } else {
        Framing::Counted
    };
    let Some((size, rounds)) = numbers(size, rounds) else {
        return println!(rt; "no such numbers");
    };
    let stream = stream(alloc, framing, size)?;
    let mut scanner = Scanner::new(alloc, framing)?;
    let mut octets: u64 = 0;
    for _ in 0..rounds {
        for piece in stream.chunks(PIECE) {
            octets = octets.wrapping_add(take(&mut scanner, piece));
        }
    }
    println!(rt; "{octets}")
}

/// Copies the pieces of the counted stream, each to the start of the same buffer, and prints how
/// many octets were copied. It fails if a word is refused, memory runs out or nothing can be
/// printed.
pub fn copy(rt: &impl Print, alloc: Global, size: &str, rounds: &str) -> io::Result<()> {
    let Some((size, rounds)) = numbers(size, rounds) else {
        return println!(rt; "no such numbers");
    };
    let stream = stream(alloc, Framing::Counted, size)?;
    let mut buffer = Vec::with_capacity(alloc, PIECE)?;
    let mut octets: u64 = 0;
    for _ in 0..rounds {
        for piece in stream.chunks(PIECE) {
            buffer.clear();
            buffer.extend_from_slice(piece)?;
            octets = octets.wrapping_add(buffer.len() as u64);
        }
    }
    println!(rt; "{octets}")
}
