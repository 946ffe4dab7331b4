//! The octets of a stream are read as frames, in whatever pieces they come.

ghost use Rattle.std.specs.Prelude.{IfOk, IfSome};
ghost use Rattle.examples.specs.Shown.{IsFirstFrame};

use std::alloc::{AllocError, Global};
use syslog::{Framing, Ready, Scanner, Severity, view};

/// The octets of the first frame of a stream (RFC 6587) that begins with a piece; None if that has no whole frame,
/// or one that is too long.
///
/// # Errors
/// Out of memory.
pub fn first_frame(
    alloc: Global,
    framing: Framing,
    piece: &[u8],
) -> Result<Option<Vec<u8>>, AllocError>
    // those of a frame that the stream begins with
    ensures { IfOk result (λ found. IfSome found (λ v. IsFirstFrame framing piece.now v.items)) }
{
    let mut scanner = Scanner::new(alloc, framing)?;
    let Ok(_used) = scanner.push(piece) else {
        return Ok(None);
    };
    match scanner.ready() {
        Some(Ready::Frame(frame)) => Ok(Some(frame.to_vec(alloc)?)),
        _ => Ok(None),
    }
}

/// The most severe of the records in a stream (RFC 6587) that comes in these pieces; None if it has
/// no record.
///
/// # Errors
/// Out of memory.
pub fn severest(
    alloc: Global,
    framing: Framing,
    pieces: &[&[u8]],
) -> Result<Option<Severity>, AllocError> {
    let mut scanner = Scanner::new(alloc, framing)?;
    let mut found = None;
    for &piece in pieces {
        found = severer(found, of_piece(&mut scanner, piece));
    }
    Ok(found)
}

// The severest of the records that a piece completes. Each turn takes an octet at least.
fn of_piece(scanner: &mut Scanner, piece: &[u8]) -> Option<Severity> {
    let mut rest = piece;
    let mut found = None;
    for _octet in 0..piece.len() {
        let Ok(used) = scanner.push(rest) else {
            return found;
        };
        if let Some(Ready::Frame(frame)) = scanner.ready() {
            found = severer(found, of_frame(frame));
        }
        let _was_ready = scanner.release();
        rest = &rest[used..];
    }
    found
}

// The severity of a frame that is a record.
fn of_frame(frame: &[u8]) -> Option<Severity> {
    match view(frame) {
        Ok(record) => Some(record.priority().severity()),
        Err(_) => None,
    }
}

// The severer of two: the lower its code, the severer (RFC 5424, table 2).
fn severer(left: Option<Severity>, right: Option<Severity>) -> Option<Severity> {
    match (left, right) {
        (None, other) | (other, None) => other,
        (Some(left), Some(right)) if left.code() <= right.code() => Some(left),
        (Some(_), right) => right,
    }
}

#[cfg(test)]
mod tests {
    use super::*;
    use std::test::Fail;

    #[test]
    fn the_first_frame_is_found(rt: HostRuntime) -> Result<(), Fail> {
        let found = first_frame(rt.alloc(), Framing::Lf, b"one\ntwo\n".as_slice())?;
        assert_eq!(rt; found.ok_or("a frame")?.as_slice(), b"one".as_slice());
        Ok(())
    }

    #[test]
    fn a_frame_may_be_cut_anywhere(rt: HostRuntime) -> Result<(), Fail> {
        let pieces = [
            b"17 <14>1 - h".as_slice(),
            b" a - - -17 <10>1".as_slice(),
            b" - h a - - -".as_slice(),
        ];
        let found = severest(rt.alloc(), Framing::Counted, pieces.as_slice())?;
        assert_eq!(rt; found, Some(Severity::Critical));
        Ok(())
    }
}
