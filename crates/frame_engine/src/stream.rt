//! A stream handled frame by frame, as its pieces arrive.

ghost use Rattle.std.specs.Prelude.{◌≡◌, ◌≤◌, ◌<◌, ◌+◌, ◌++◌, ◌^◌, ℕ, List, length, IfOk, OnErr, IsNone};
ghost use Rattle.syslog_frame.specs.Frames.{Frames};
ghost use Rattle.syslog_frame.specs.Reads.{Reads};
ghost use Rattle.syslog_frame.specs.Scan.{IsReading};
ghost use Rattle.syslog_frame.specs.declared.framing.Framing.{Framing};
ghost use Rattle.driver.specs.Effects.{Done, done_of, then_done};
ghost use Rattle.frame_engine.specs.Streams.{HandlesOn, HandlesStep, HasHandled, HasPart, of_line, StepImplies};
ghost use Rattle.frame_engine.specs.Streams.{ReportsEnd};
ghost use Rattle.frame_engine.specs.declared.line.Line.{Line};

use crate::frame_handler::FrameHandler;
use crate::line::Line;
use driver::Effects;
use std::alloc::AllocError;
use syslog_frame::{EndFault, FRAME_MAX, POSITION_MAX, Ready, Scanner};

/// What was ready, and what was done with it.
#[derive(Clone, Copy, Debug)]
pub enum Step {
    /// Nothing was ready.
    Nothing,
    /// A MSG-LEN is bad at this position.
    Bad { at: u64 },
    /// A frame was ready, and was handled.
    Handled,
}

/// Handles the frame that is ready, if one is.
fn handle_next<D: FrameHandler>(
    handler: &mut D,
    scanner: &Scanner,
    number: u64,
    effects: &mut Effects,
) -> Result<Step, AllocError>
    ensures reports { IfOk result (λ step. StepImplies scanner.now step) }
    ensures handles { IfOk result (λ step. (first : D) (kind : Framing) (octets : List ℕ)
        (frames : List (List ℕ)) (rest : List ℕ)
        → Reads FRAME_MAX scanner.now kind 0 octets frames rest → D.stands first handler.old frames
        → HandlesStep (D.handles first) (D.stands first handler.new) number kind octets frames rest
        (done_of effects.old) (done_of effects.new) step) }
    ensures err { OnErr result (done_of effects.new ≡ done_of effects.old) }
{
    match scanner.ready() {
        None => Ok(Step::Nothing),
        Some(Ready::BadCount { at }) => Ok(Step::Bad { at }),
        Some(Ready::TooLong) => {
            handler.report(Line::TooLong { number }, effects)?;
            Ok(Step::Handled)
        }
        Some(Ready::Frame(frame)) => {
            handler.on_frame(number, frame, effects)?;
            Ok(Step::Handled)
        }
    }
}

/// Reads a piece, up to a bad MSG-LEN, and handles each frame that ends in it: as it lies in the
/// piece, if all of it does. `number` is that of the next frame. Returns the position of the bad
/// MSG-LEN, if there is one. It fails only when out of memory.
pub fn feed<D: FrameHandler>(
    handler: &mut D,
    scanner: &mut Scanner,
    number: &mut u64,
    piece: &[u8],
    effects: &mut Effects,
) -> Result<Option<u64>, AllocError>
    requires reading { IsReading scanner.old }
    requires near { scanner.old.position + length piece.now ≤ POSITION_MAX }
    requires few { number.old + length piece.now < 2 ^ 64 }
    ensures reading { IfOk result (λ bad. IsNone bad → IsReading scanner.new) }
    ensures position { IfOk result (λ bad. IsNone bad →
        scanner.new.position ≡ scanner.old.position + length piece.now) }
    ensures number { number.new ≤ number.old + length piece.now }
    ensures handles { IfOk result (λ bad. (first : D) (kind : Framing) (octets : List ℕ) (before : Done)
        → HasHandled (D.handles first) (D.stands first handler.old) scanner.old kind octets number.old
        (then_done before (done_of effects.old))
        → HandlesOn (D.handles first) (D.stands first handler.new) scanner.new kind
        (octets ++ piece.now) number.new (then_done before (done_of effects.new)) bad) }
    ensures err { OnErr result ((first : D) (kind : Framing) (octets : List ℕ) (before : Done)
        → HasHandled (D.handles first) (D.stands first handler.old) scanner.old kind octets number.old
        (then_done before (done_of effects.old))
        → HasPart (D.handles first) kind (octets ++ piece.now)
        (then_done before (done_of effects.new))) }
{
    let mut rest = piece;
    while !rest.is_empty() {
        if let Some(borrowed) = scanner.next_borrowed(rest) {
            handler.on_frame(*number, borrowed.frame, effects)?;
            rest = &rest[borrowed.used..];
            *number += 1;
            continue;
        }
        let Ok(used) = scanner.push(rest) else {
            unreachable!()
        };
        rest = &rest[used..];
        match handle_next(handler, scanner, *number, effects)? {
            Step::Nothing => {}
            Step::Bad { at } => return Ok(Some(at)),
            Step::Handled => {
                let _ = scanner.release();
                *number += 1;
            }
        }
    }
    Ok(None)
}

/// The line on the end of a stream that was read to its end, if it stops inside a frame.
pub fn end_line(scanner: &Scanner) -> Option<Line>
    requires { IsReading scanner.now }
    ensures { (T : Line → Done) (kind : Framing) (octets : List ℕ) (frames : List (List ℕ))
        (rest : List ℕ) → Reads FRAME_MAX scanner.now kind 0 octets frames rest
        → Frames kind octets frames rest
        × ReportsEnd T kind octets frames rest (of_line T result) }
{
    match scanner.end() {
        Ok(()) => None,
        Err(EndFault::Unterminated { start }) => Some(Line::Unterminated { start }),
        Err(EndFault::Failed | EndFault::Unreleased) => unreachable!(),
    }
}
