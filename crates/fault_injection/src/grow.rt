//! Each call of `syslog_frame` that allocates, once, with its outcome on a line: `ok` and its
//! result, or `memory` and what is left.

use std::alloc::Global;
use std::io;
use syslog_frame::{
    Framing, PiecesFault, PutFault, Scanner, StartFault, frames_of_pieces, put_frame,
};

/// `put_frame` behind two octets that are there already.
fn put(rt: &impl Print, alloc: Global, name: &str, framing: Framing) -> io::Result<()> {
    let Ok(mut out) = b"ab".as_slice().to_vec(alloc) else {
        return println!(rt; "{name}: memory for the octets before");
    };
    let outcome = put_frame(framing, b"record", &mut out);
    let octets = out.len();
    match outcome {
        Ok(()) => println!(rt; "{name}: ok, {octets} octets"),
        Err(PutFault::Memory) if out.as_slice() == b"ab".as_slice() => {
            println!(rt; "{name}: memory, unchanged")
        }
        Err(PutFault::Memory) => println!(rt; "{name}: memory, changed to {octets} octets"),
        Err(fault) => println!(rt; "{name}: {fault}"),
    }
}

/// `frames_of_pieces` of one piece that is made here.
fn pieces(rt: &impl Print, alloc: Global) -> io::Result<()> {
    let Ok(piece) = b"2 ab".as_slice().to_vec(alloc) else {
        return println!(rt; "frames_of_pieces: memory for its piece");
    };
    match frames_of_pieces(alloc, Framing::Counted, &[piece]) {
        Ok(read) => {
            let count = read.frames.len();
            println!(rt; "frames_of_pieces: ok, {count} frame")
        }
        Err(PiecesFault::Memory) => println!(rt; "frames_of_pieces: memory"),
        Err(fault) => println!(rt; "frames_of_pieces: {fault}"),
    }
}

/// Every call of `syslog_frame` that allocates.
pub fn frame(rt: &impl Print, alloc: Global) -> io::Result<()> {
    match Scanner::new(alloc, Framing::Counted) {
        Ok(_) => println!(rt; "new: ok")?,
        Err(_) => println!(rt; "new: memory")?,
    }
    match Scanner::new_at(alloc, Framing::Lf, 7) {
        Ok(scanner) => {
            let position = scanner.position();
            println!(rt; "new_at: ok, position {position}")?
        }
        Err(StartFault::Memory) => println!(rt; "new_at: memory")?,
        Err(fault) => println!(rt; "new_at: {fault}")?,
    }
    put(rt, alloc, "put_frame counted", Framing::Counted)?;
    put(rt, alloc, "put_frame lf", Framing::Lf)?;
    pieces(rt, alloc)
}
