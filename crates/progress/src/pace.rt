//! What was counted, and when a line is due.

ghost use Rattle.std.specs.Prelude.{◌≡◌, ◌++◌, ◌+◌, ◌↔◌, IsTrue, List, ℕ, OnErr, OnOk, false, take};
ghost use Rattle.progress.specs.Line.{drawing, line_text};

use crate::line::{Told, percent_of, put_words};
use crate::unit::ProgressUnit;
use std::alloc::AllocError;

/// The microseconds between two lines, at least.
pub const LINE_MICROS: u64 = 500_000;

/// The columns of a line, at most.
const COLUMNS_MAX: usize = 79;

const LINE_BEGINNING: &[u8] = b"\r";

const CLEAR_TO_END: &[u8] = b"\x1b[K";

const CLEAR_LINE: &[u8] = b"\r\x1b[K";

/// How far an input was read, since when, and when a line last told it. Times are microseconds of
/// a clock that does not go back, told by the caller.
#[derive(Clone, Copy, Debug)]
pub struct Progress {
    unit: ProgressUnit,
    count: u64,
    total: Option<u64>,
    since: u64,
    // when a line was last drawn; the beginning, where none was
    last: u64,
    // whether a line was drawn that was not cleared
    stands: bool,
}

// Appends the words of a line as far as the columns go; where memory runs out, possibly a part of them.
fn put_columns(told: Told, out: &mut Vec<u8>) -> Result<(), AllocError>
    ensures ok { OnOk result (out.new.items ≡ out.old.items ++ take 79 (line_text told)) }
    ensures err { (part : List ℕ) × (out.new.items ≡ out.old.items ++ part) }
{
    let before = out.len();
    put_words(told, out)?;
    if out.len() - before > COLUMNS_MAX {
        out.truncate(before + COLUMNS_MAX);
    }
    Ok(())
}

// Appends what draws a line; where memory runs out, possibly a part of it.
fn put_drawing(told: Told, out: &mut Vec<u8>) -> Result<(), AllocError>
    ensures ok { OnOk result (out.new.items ≡ out.old.items ++ drawing told) }
    ensures err { (part : List ℕ) × (out.new.items ≡ out.old.items ++ part) }
{
    out.extend_from_slice(LINE_BEGINNING)?;
    put_columns(told, out)?;
    out.extend_from_slice(CLEAR_TO_END)
}

impl Progress {
    ghost use Rattle.progress.specs.Line.{capped};
    ghost use Rattle.progress.specs.Pace.{IsDue, begun, clearing, drawn, percent_told, told_at, with_more};

    /// Nothing is counted, and nothing is expected. `now` is the beginning.
    pub fn new(unit: ProgressUnit, now: u64) -> Progress
        ensures { result ≡ begun unit now }
    {
        Progress {
            unit,
            count: 0,
            total: Some(0),
            since: now,
            last: now,
            stands: false,
        }
    }

    /// So many more are expected; None: nobody knows how many.
    pub fn expect_more(&mut self, more: Option<u64>)
        ensures { self.new ≡ record self.old { total = with_more self.old.total more } }
    {
        self.total = match (self.total, more) {
            (Some(total), Some(more)) => Some(total.saturating_add(more)),
            _ => None,
        };
    }

    /// So many more were read.
    pub fn add(&mut self, more: u64)
        ensures { self.new ≡ record self.old { count = capped (self.old.count + more) } }
    {
        self.count = self.count.saturating_add(more);
    }

    /// How much of what is expected was read, in percent, rounded down: 100 only where all of it was.
    /// None where nobody knows how much is expected.
    pub fn percent(&self) -> Option<u8>
        ensures { result ≡ percent_told self.now }
    {
        Some(percent_of(self.total?, self.count))
    }

    /// Whether a line is due: `LINE_MICROS` after the last one, or after the beginning.
    pub fn is_due(&self, now: u64) -> bool
        ensures { IsTrue result ↔ IsDue self.now now }
    {
        now.saturating_sub(self.last) >= LINE_MICROS
    }

    // What a line tells at a time.
    fn told(&self, now: u64) -> Told
        ensures { result ≡ told_at self.now now }
    {
        Told {
            unit: self.unit,
            count: self.count,
            total: self.total,
            micros: now.saturating_sub(self.since),
        }
    }

    /// Appends the octets that draw the line in place of the one that stands there, at most
    /// 79 columns wide.
    ///
    /// # Errors
    /// Out of memory: nothing is appended, and nothing is noted.
    pub fn draw(&mut self, now: u64, out: &mut Vec<u8>) -> Result<(), AllocError>
        ensures octets { OnOk result (out.new.items ≡ out.old.items ++ drawing (told_at self.old now)) }
        ensures drawn { OnOk result (self.new ≡ drawn now self.old) }
        ensures err { OnErr result ((out.new.items ≡ out.old.items) × (self.new ≡ self.old)) }
    {
        let before = out.len();
        let put = put_drawing(self.told(now), out);
        match put {
            Ok(()) => {
                self.last = now;
                self.stands = true;
            }
            Err(_) => out.truncate(before),
        }
        put
    }

    /// The octets that clear the line that stands there, which the caller writes; none, where none stands.
    pub fn clear(&mut self) -> &'static [u8]
        ensures octets { result.now ≡ clearing self.old }
        ensures cleared { self.new ≡ record self.old { stands = false } }
    {
        if !self.stands {
            return b"";
        }
        self.stands = false;
        CLEAR_LINE
    }
}
