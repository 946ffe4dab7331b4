//! Frames of a stream that comes in pieces; those that are too long are passed over.

ghost use Rattle.std.specs.Prelude.{◌<◌, ◌≤◌, ℕ, List, [], length};
ghost use Rattle.syslog_frame.specs.Frames.{IsLine};
ghost use Rattle.syslog_frame.specs.declared.framing.Framing.{Framing};
ghost use Rattle.syslog_frame.specs.declared.framing.Framing.TheVariants.{Counted, Lf};
ghost use Rattle.c_library.specs.Frames.{IsComplete};
ghost use Rattle.c_library.specs.Scanning.{IsAt, IsFound, IsTold, PassesCounted, Scans};

use crate::frame::{NextFrame, framing_of, next_counted, next_line};
use crate::numbers::{
    IN_COUNTED, IN_LINE, IN_NOTHING, SCAN_BROKEN, SCAN_FRAME, SCAN_TOO_LONG, SCAN_WAITS,
};
use memchr::memchr;
use syslog_frame::Framing;

/// What a scanner passes over of the frame under way, as that is too long.
#[repr(C)]
#[derive(Clone, Copy, Debug, PartialEq, Eq)]
pub struct SyslogboxScanner {
    /// Nothing (0), a counted frame (1) or a line (2).
    pub inside: u32,
    /// How many octets of the counted frame are to come.
    pub left: u64,
}

/// What was found, and where in the piece.
#[repr(C)]
#[derive(Clone, Copy, Debug, PartialEq, Eq)]
pub struct SyslogboxFound {
    /// How many octets of the piece are done with.
    pub used: usize,
    /// Where the frame begins.
    pub start: usize,
    /// Where it ends.
    pub end: usize,
}

/// What comes first in a piece of a stream.
#[derive(Clone, Copy)]
pub enum Scanned {
    /// A frame that is not too long: the octets from `start` to `end`; and `used` octets on the stream.
    Frame {
        start: usize,
        end: usize,
        used: usize,
    },
    /// The end of a frame that is too long, behind `used` octets.
    TooLong {
        used: usize,
    },
    /// No end of a frame. All octets were passed over as part of one that is too long; or none was, and they are needed
    /// again with more behind them.
    Waits {
        used: usize,
        scanner: SyslogboxScanner,
    },
    /// No frame can continue with the octet at this offset.
    Broken {
        at: usize,
    },
}

/// A scanner that passes over nothing.
const FRESH: SyslogboxScanner = SyslogboxScanner {
    inside: IN_NOTHING,
    left: 0,
};

/// A whole frame: one that is too long, or not.
fn whole(longest: usize, start: usize, end: usize, used: usize) -> Scanned
    requires { start ≤ end }
    ensures { (kind : Framing) (piece : List ℕ) → IsComplete kind piece start end used
        → IsFound kind longest [] piece result }
{
    if end - start > longest {
        Scanned::TooLong { used }
    } else {
        Scanned::Frame { start, end, used }
    }
}

/// What comes first within a counted frame of which so many octets are to come.
fn in_counted(left: u64, piece: &[u8]) -> Scanned
    ensures { (longest : ℕ) (p : List ℕ) → PassesCounted longest left p
        → IsFound Counted longest p piece.now result }
{
    if left <= piece.len() as u64 {
        return Scanned::TooLong {
            used: left as usize,
        };
    }
    Scanned::Waits {
        used: piece.len(),
        scanner: SyslogboxScanner {
            inside: IN_COUNTED,
            left: left - piece.len() as u64,
        },
    }
}

/// What comes first within a line.
fn in_line(piece: &[u8]) -> Scanned
    ensures { (longest : ℕ) (p : List ℕ) → IsLine p → longest < length p
        → IsFound Lf longest p piece.now result }
{
    match memchr(b'\n', piece) {
        Some(at) => Scanned::TooLong { used: at + 1 },
        None => Scanned::Waits {
            used: piece.len(),
            scanner: SyslogboxScanner {
                inside: IN_LINE,
                left: 0,
            },
        },
    }
}

/// What comes first where a counted frame begins.
fn between_counted(longest: usize, piece: &[u8]) -> Scanned
    ensures { IsFound Counted longest [] piece.now result }
{
    let (start, end) = match next_counted(piece) {
        NextFrame::Complete { start, end, used } => return whole(longest, start, end, used),
        NextFrame::Waits { start, end } => (start, end),
        NextFrame::Broken { at } => return Scanned::Broken { at },
    };
    if end - start > longest {
        Scanned::Waits {
            used: piece.len(),
            scanner: SyslogboxScanner {
                inside: IN_COUNTED,
                left: (end - piece.len()) as u64,
            },
        }
    } else {
        Scanned::Waits {
            used: 0,
            scanner: FRESH,
        }
    }
}

/// What comes first where a line begins.
fn between_lines(longest: usize, piece: &[u8]) -> Scanned
    ensures { IsFound Lf longest [] piece.now result }
{
    match next_line(piece) {
        NextFrame::Complete { start, end, used } => return whole(longest, start, end, used),
        NextFrame::Waits { .. } => {}
        NextFrame::Broken { at } => return Scanned::Broken { at },
    }
    if piece.len() > longest {
        Scanned::Waits {
            used: piece.len(),
            scanner: SyslogboxScanner {
                inside: IN_LINE,
                left: 0,
            },
        }
    } else {
        Scanned::Waits {
            used: 0,
            scanner: FRESH,
        }
    }
}

/// What comes first in a piece.
fn scan(kind: Framing, longest: usize, scanner: SyslogboxScanner, piece: &[u8]) -> Scanned
    ensures { (p : List ℕ) → IsAt kind longest scanner p → IsFound kind longest p piece.now result }
{
    match scanner.inside {
        IN_COUNTED => in_counted(scanner.left, piece),
        IN_LINE => in_line(piece),
        _ => match kind {
            Framing::Counted => between_counted(longest, piece),
            Framing::Lf => between_lines(longest, piece),
        },
    }
}

/// Tells what comes first.
fn tell(scanned: Scanned, scanner: &mut SyslogboxScanner, found: &mut SyslogboxFound) -> i32
    ensures { IsTold scanned (record { scanner = scanner.new; found = found.new }) result }
{
    let (answer, next, used, start, end) = match scanned {
        Scanned::Frame { start, end, used } => (SCAN_FRAME, FRESH, used, start, end),
        Scanned::TooLong { used } => (SCAN_TOO_LONG, FRESH, used, 0, 0),
        Scanned::Waits { used, scanner } => (SCAN_WAITS, scanner, used, 0, 0),
        Scanned::Broken { at } => (SCAN_BROKEN, FRESH, 0, at, at),
    };
    *scanner = next;
    *found = SyslogboxFound { used, start, end };
    answer
}

/// Finds what comes first in a piece of a stream, in a framing that is 1 for octet counting and 2 for lines.
///
/// Returns 1 for a frame of at most `longest` octets, 2 at the end of a longer one, which was passed over, 0 if the
/// piece has no end of a frame, -1 if no frame can continue with the octet at `start`, and -2 if there is no such
/// framing. It takes no memory.
#[unsafe(no_mangle)]
pub extern "C" fn syslogbox_proved_scan(
    framing: i32,
    longest: usize,
    piece: &[u8],
    scanner: &mut SyslogboxScanner,
    found: &mut SyslogboxFound,
) -> i32
    ensures { Scans framing longest piece.now
        (record { scanner = scanner.old; found = found.old })
        (record { scanner = scanner.new; found = found.new }) result }
{
    match framing_of(framing) {
        Some(kind) => tell(scan(kind, longest, *scanner, piece), scanner, found),
        None => -2,
    }
}
