//! The frames of a stream that comes in pieces: a caller of the scanner that follows a stream by
//! the scanner's clauses alone.

ghost use Rattle.std.specs.Prelude.{◌≡◌, ◌≤◌, ◌<◌, ◌+◌, ◌++◌, ◌⊎◌, ℕ, List, length};
ghost use Rattle.std.specs.Prelude.{map, option_map, IfErr, IfOk, IsNone, OnOk};
ghost use Rattle.std.specs.List.{flat_map};
ghost use Rattle.syslog_frame.specs.Frames.{Frames, delivered};
ghost use Rattle.syslog_frame.specs.Pieces.{Delivers, DeliversOn, HasDelivered};
ghost use Rattle.syslog_frame.specs.Pieces.{IsRead, StepImplies, StopsAs};
ghost use Rattle.syslog_frame.specs.Reads.{Reads};
ghost use Rattle.syslog_frame.specs.Scan.{IsReading};
ghost use Rattle.syslog_frame.specs.declared.framing.Framing.{Framing};

use crate::fault::{EndFault, PiecesFault};
use crate::framing::Framing;
use crate::limits::{FRAME_MAX, POSITION_MAX};
use crate::ready::Ready;
use crate::scanner::Scanner;
use std::alloc::{AllocError, Global};

/// How a stream stops after its frames.
#[derive(Clone, Copy, Debug, PartialEq, Eq)]
pub enum StreamEnd {
    /// With the last of them, whole.
    Whole,
    /// Inside a frame whose first octet is at this position.
    Unterminated { start: u64 },
    /// No MSG-LEN can continue with the octet at this position; what follows it is no frame.
    BadCount { at: u64 },
}

/// The frames of a stream.
#[derive(Debug, Drop)]
pub struct StreamFrames {
    /// The frames in order; None for one longer than `FRAME_MAX`.
    pub frames: Vec<Option<Vec<u8>>>,
    /// How the stream stops after them.
    pub stop: StreamEnd,
}

/// What was done with what the scanner had ready.
#[derive(Clone, Copy, Debug)]
pub enum Step {
    /// Nothing was ready.
    Nothing,
    /// It was a bad count.
    Bad { at: u64 },
    /// It was a frame, and was delivered.
    Delivered,
}

/// Delivers the frame that is ready.
fn deliver(
    alloc: Global,
    scanner: &Scanner,
    out: &mut Vec<Option<Vec<u8>>>,
) -> Result<Step, AllocError>
    ensures reports { IfOk result (λ step. StepImplies scanner.now step) }
    ensures delivers { IfOk result (λ step. (kind : Framing) (octets : List ℕ)
        (frames : List (List ℕ)) (rest : List ℕ)
        → Reads FRAME_MAX scanner.now kind 0 octets frames rest
        → Delivers FRAME_MAX kind octets rest (map (option_map (λ v. v.items)) out.old.items)
        (map (option_map (λ v. v.items)) out.new.items) step) }
{
    match scanner.ready() {
        None => Ok(Step::Nothing),
        Some(Ready::BadCount { at }) => Ok(Step::Bad { at }),
        Some(Ready::TooLong) => {
            out.push(None)?;
            Ok(Step::Delivered)
        }
        Some(Ready::Frame(frame)) => {
            let copy = Vec::from_slice(alloc, frame)?;
            out.push(Some(copy))?;
            Ok(Step::Delivered)
        }
    }
}

/// Reads a piece, up to a bad count, and delivers each frame that ends in it.
fn read_piece(
    alloc: Global,
    scanner: &mut Scanner,
    piece: &[u8],
    out: &mut Vec<Option<Vec<u8>>>,
) -> Result<Option<u64>, PiecesFault>
    requires { IsReading scanner.old }
    ensures reading { IfOk result (λ bad. IsNone bad → IsReading scanner.new) }
    ensures delivers { IfOk result (λ bad. (kind : Framing) (octets : List ℕ)
        → HasDelivered FRAME_MAX scanner.old kind octets
        (map (option_map (λ v. v.items)) out.old.items)
        → DeliversOn FRAME_MAX scanner.new kind (octets ++ piece.now)
        (map (option_map (λ v. v.items)) out.new.items) bad) }
    ensures too_long { IfErr result (λ fault. fault ≡ PiecesFault.StreamTooLong
        → POSITION_MAX < scanner.old.position + length piece.now) }
    ensures bound { OnOk result (scanner.old.position ≤ POSITION_MAX
        → scanner.new.position ≤ POSITION_MAX) }
{
    let mut rest = piece;
    while !rest.is_empty() {
        let Ok(used) = scanner.push(rest) else {
            return Err(PiecesFault::StreamTooLong);
        };
        rest = &rest[used..];
        let Ok(step) = deliver(alloc, scanner, out) else {
            return Err(PiecesFault::Memory);
        };
        match step {
            Step::Nothing => {}
            Step::Bad { at } => return Ok(Some(at)),
            Step::Delivered => {
                let _ = scanner.release();
            }
        }
    }
    Ok(None)
}

/// How a stream stops after what a scanner read of it.
fn stop_of(scanner: &Scanner) -> StreamEnd
    requires { IsReading scanner.now }
    ensures { (kind : Framing) (octets : List ℕ) (frames : List (List ℕ)) (rest : List ℕ)
        → Reads FRAME_MAX scanner.now kind 0 octets frames rest
        → Frames kind octets frames rest × StopsAs kind octets frames rest result }
{
    match scanner.end() {
        Ok(()) => StreamEnd::Whole,
        Err(EndFault::Unterminated { start }) => StreamEnd::Unterminated { start },
        Err(EndFault::Failed | EndFault::Unreleased) => unreachable!(),
    }
}

/// The frames of a stream that comes in these pieces, and how it stops after them. It does not
/// matter how the stream is cut. It fails if the stream goes on past `POSITION_MAX` octets without
/// a bad count, or memory runs out.
pub fn frames_of_pieces(
    alloc: Global,
    framing: Framing,
    pieces: &[Vec<u8>],
) -> Result<StreamFrames, PiecesFault>
    // The frames and the end are those of the whole stream.
    ensures read { IfOk result (λ s. IsRead FRAME_MAX framing
        (flat_map (λ piece. piece.items) pieces.now)
        (map (option_map (λ v. v.items)) s.frames.items) s.stop) }
    // No other frames are.
    ensures only { IfOk result (λ s. (others : List (List ℕ)) (rest : List ℕ)
        → Frames framing (flat_map (λ piece. piece.items) pieces.now) others rest
        → map (option_map (λ v. v.items)) s.frames.items ≡ map (delivered FRAME_MAX) others) }
    // The stream is refused only where it is too long, and otherwise only out of memory is reported.
    ensures too_long { result ≡ Err PiecesFault.StreamTooLong
        → POSITION_MAX < length (flat_map (λ piece. piece.items) pieces.now) }
    ensures fits { IfOk result (λ s.
        (length (flat_map (λ piece. piece.items) pieces.now) ≤ POSITION_MAX)
        ⊎ ((at : ℕ) × (s.stop ≡ StreamEnd.BadCount at))) }
{
    let Ok(mut scanner) = Scanner::new(alloc, framing) else {
        return Err(PiecesFault::Memory);
    };
    let mut frames = Vec::new(alloc);
    for piece in pieces {
        if let Some(at) = read_piece(alloc, &mut scanner, piece, &mut frames)? {
            return Ok(StreamFrames {
                frames,
                stop: StreamEnd::BadCount { at },
            });
        }
    }
    let stop = stop_of(&scanner);
    Ok(StreamFrames { frames, stop })
}
