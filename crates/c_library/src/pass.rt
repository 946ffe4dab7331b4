//! Frames that are records are passed over (RFC 6587, 3.4).

ghost use Rattle.std.specs.Prelude.{MatchOption};
ghost use Rattle.c_library.specs.Frames.{IsNextFrame};
ghost use Rattle.c_library.specs.Passing.{BeginsGood, BeginsNoGood, Passes, PassesOver};

use crate::check::refusal;
use crate::frame::{NextFrame, framing_of, next_counted, next_line};
use syslog_frame::Framing;

/// What comes first in a framing.
#[inline(always)]
fn next_frame(kind: Framing, piece: &[u8]) -> NextFrame
    ensures { IsNextFrame kind piece.now result }
{
    match kind {
        Framing::Counted => next_counted(piece),
        Framing::Lf => next_line(piece),
    }
}

/// What follows the frame that comes first, if that is a record that is read.
#[inline(always)]
fn behind_record(kind: Framing, piece: &[u8]) -> Option<&[u8]>
    ensures { MatchOption result (BeginsNoGood kind piece.now)
        (λ behind. BeginsGood kind piece.now behind.now) }
{
    let (start, end, used) = match next_frame(kind, piece) {
        NextFrame::Complete { start, end, used } => (start, end, used),
        NextFrame::Waits { .. } => return None,
        NextFrame::Broken { .. } => return None,
    };
    let (_, from_start) = piece.split_at(start);
    let (frame, _) = from_start.split_at(end - start);
    let (_, behind) = piece.split_at(used);
    match refusal(frame) {
        None => Some(behind),
        Some(_fault) => None,
    }
}

/// How many octets the frames at the front of a piece take that are records, and how many these frames are.
fn pass(kind: Framing, piece: &[u8]) -> (usize, usize)
    ensures { Passes kind piece.now result.0 result.1 }
{
    let mut rest = piece;
    let mut count = 0;
    'frames: while let Some(behind) = behind_record(kind, rest) {
        rest = behind;
        count += 1;
    }
    (piece.len() - rest.len(), count)
}

/// Passes over the frames at the front of a piece of a stream that are records, in a framing that is 1 for octet
/// counting and 2 for lines. Returns how many octets they take, and in `count` how many frames they are; what follows
/// is a frame that is no record, or no whole frame. Returns -2 if there is no such framing.
#[unsafe(no_mangle)]
pub extern "C" fn syslogbox_proved_pass(framing: i32, piece: &[u8], count: &mut usize) -> i64
    ensures { PassesOver framing piece.now count.old count.new result }
{
    match framing_of(framing) {
        Some(kind) => {
            let (taken, passed) = pass(kind, piece);
            *count = passed;
            taken as i64
        }
        None => -2,
    }
}
