//! The next frame of a stream (RFC 6587, 3.4).

ghost use Rattle.std.specs.Prelude.{◌≡◌, MatchOption};
ghost use Rattle.c_library.specs.Frames.{Frames, IsAnswerable, IsAnswered, IsNextFrame, framing_number};
ghost use Rattle.syslog_frame.specs.declared.framing.Framing.{Framing};
ghost use Rattle.syslog_frame.specs.declared.framing.Framing.TheVariants.{Counted, Lf};

use crate::numbers::{COUNTED, LF};
use memchr::memchr;
use syslog_frame::{Framing, MsgLen, msg_len};

/// What comes first in a piece of a stream.
#[derive(Clone, Copy)]
pub enum NextFrame {
    /// A whole frame: the octets from `start` to `end`, and `used` octets on the stream.
    Complete {
        start: usize,
        end: usize,
        used: usize,
    },
    /// The front of a frame. If its count was read, the frame begins at `start` and will end at `end`; otherwise both
    /// are 0.
    Waits {
        start: usize,
        end: usize,
    },
    /// No frame can continue with the octet at this offset.
    Broken {
        at: usize,
    },
}

/// The counted frame that comes first.
#[inline]
pub fn next_counted(piece: &[u8]) -> NextFrame
    ensures is { IsNextFrame Counted piece.now result }
    ensures small { IsAnswerable result }
{
    let (count, start) = match msg_len(piece) {
        MsgLen::Whole { count, used } => (count, used),
        MsgLen::Part => return NextFrame::Waits { start: 0, end: 0 },
        MsgLen::Bad { at } => return NextFrame::Broken { at },
    };
    let end = start + count as usize;
    if end > piece.len() {
        return NextFrame::Waits { start, end };
    }
    NextFrame::Complete {
        start,
        end,
        used: end,
    }
}

/// The line that comes first.
#[inline]
pub fn next_line(piece: &[u8]) -> NextFrame
    ensures is { IsNextFrame Lf piece.now result }
    ensures small { IsAnswerable result }
{
    match memchr(b'\n', piece) {
        Some(end) => NextFrame::Complete {
            start: 0,
            end,
            used: end + 1,
        },
        None => NextFrame::Waits { start: 0, end: 0 },
    }
}

/// The framing with this number, if there is one.
pub fn framing_of(number: i32) -> Option<Framing>
    ensures { MatchOption result ((kind : Framing) → ¬ (number ≡ framing_number kind))
        (λ kind. number ≡ framing_number kind) }
{
    match number {
        COUNTED => Some(Framing::Counted),
        LF => Some(Framing::Lf),
        _ => None,
    }
}

/// What is returned for what comes first.
fn put_bounds(next: NextFrame, start: &mut usize, end: &mut usize) -> i64
    requires { IsAnswerable next }
    ensures { IsAnswered next (record { start = start.old; end = end.old })
        (record { start = start.new; end = end.new }) result }
{
    match next {
        NextFrame::Complete {
            start: first,
            end: behind,
            used,
        } => {
            *start = first;
            *end = behind;
            used as i64
        }
        NextFrame::Waits {
            start: first,
            end: behind,
        } => {
            *start = first;
            *end = behind;
            0
        }
        NextFrame::Broken { at } => {
            *start = at;
            *end = at;
            -1
        }
    }
}

/// The next frame of a stream, in a framing that is 1 for octet counting (RFC 6587, 3.4.1) and 2 for lines (3.4.2).
///
/// Returns how many octets of the piece the frame takes; the frame is those from `start` to `end`. Returns 0 if no
/// frame is whole yet; then `start` and `end` are those of the frame whose count was read, else 0. Returns -1 if no
/// frame can continue with the octet at `start`, and -2 if there is no such framing.
#[unsafe(no_mangle)]
pub extern "C" fn syslogbox_proved_frame(
    framing: i32,
    piece: &[u8],
    start: &mut usize,
    end: &mut usize,
) -> i64
    ensures { Frames framing piece.now (record { start = start.old; end = end.old })
        (record { start = start.new; end = end.new }) result }
{
    match framing_of(framing) {
        Some(Framing::Counted) => put_bounds(next_counted(piece), start, end),
        Some(Framing::Lf) => put_bounds(next_line(piece), start, end),
        None => -2,
    }
}
