//! The lines of a count as bars.

ghost use Rattle.std.specs.Prelude.{◌≡◌, ◌≤◌, decimal, length, map, replicate};
ghost use Rattle.octet_language.specs.Language.{Only};
ghost use Rattle.syslog_fields.specs.Appending.{Puts};
ghost use Rattle.archive_counts.specs.Bars.{BarText, BarsText, IsBar, behind_bar, largest, longest, room};
ghost use Rattle.archive_counts.specs.Bars.{shown_row};

use crate::line::put_number;
use crate::rows::Row;
use itoa::Buffer;
use std::alloc::AllocError;
use syslog_fields::appending::put;

/// How wide the parts of lines are.
#[derive(Clone, Copy, Debug)]
pub struct Scale {
    /// The largest count.
    pub largest: u64,
    /// How many columns its bar has.
    pub room: u16,
}

// The largest count of rows, and how many octets their longest words have.
fn extremes(rows: &[Row]) -> (u64, usize)
    ensures largest { result.0 ≡ largest (map shown_row rows.now) }
    ensures longest { result.1 ≡ longest (map shown_row rows.now) }
{
    let mut largest: u64 = 0;
    let mut longest: usize = 0;
    'rows: for row in rows {
        largest = largest.max(row.tally.records);
        longest = longest.max(row.words.as_slice().len());
    }
    (largest, longest)
}

fn digits(number: u64) -> usize
    ensures value { result ≡ length (decimal number) }
    ensures most { result ≤ 20 }
{
    Buffer::new().format(number).len()
}

// The scale of rows within so many columns. The longest bar has one column at least.
fn scale_of(rows: &[Row], columns: u16) -> Scale
    ensures largest { result.largest ≡ largest (map shown_row rows.now) }
    ensures room { result.room ≡ room columns (map shown_row rows.now) }
{
    let (largest, longest) = extremes(rows);
    let taken = longest.saturating_add(digits(largest) + 1);
    let room = (columns as usize).saturating_sub(taken).max(1) as u16;
    Scale { largest, room }
}

// How long the bar of a count is.
fn bar_len(count: u64, scale: Scale) -> u16
    requires { count ≤ scale.largest }
    ensures bar { IsBar count scale.largest scale.room result }
    ensures most { result ≤ scale.room }
{
    if count == 0 {
        return 0;
    }
    let part = u128::from(count) * u128::from(scale.room);
    part.div_ceil(u128::from(scale.largest)) as u16
}

// Appends an octet so many times.
fn put_times(octet: u8, times: u16, out: &mut Vec<u8>) -> Result<(), AllocError>
    ensures { Puts (Only (replicate times octet)) out.old.items out.new.items result }
{
    out.resize(out.len() + times as usize, octet)
}

// Appends what stands behind a bar: so many spaces and the words, if there are any.
fn put_behind(left: u16, words: &[u8], out: &mut Vec<u8>) -> Result<(), AllocError>
    ensures { Puts (Only (behind_bar left words.now)) out.old.items out.new.items result }
{
    if words.is_empty() {
        return Ok(());
    }
    put_times(b' ', left, out)?;
    put(words, out)
}

fn put_bar(row: &Row, scale: Scale, out: &mut Vec<u8>) -> Result<(), AllocError>
    requires { row.now.tally.records ≤ scale.largest }
    ensures { Puts (BarText scale.largest scale.room (shown_row row.now))
        out.old.items out.new.items result }
{
    let indent = digits(scale.largest).saturating_sub(digits(row.tally.records));
    let bar = bar_len(row.tally.records, scale);
    put_times(b' ', indent as u16, out)?;
    put_number(row.tally.records, out)?;
    put(b" ", out)?;
    put_times(b'#', bar, out)?;
    put_behind(scale.room - bar, &row.words, out)?;
    put(b"\n", out)
}

/// Appends a line with a bar for each row. If memory is refused, a part may have been appended.
pub fn put_bars(columns: u16, rows: &[Row], out: &mut Vec<u8>) -> Result<(), AllocError>
    ensures { Puts (BarsText columns (map shown_row rows.now)) out.old.items out.new.items result }
{
    let scale = scale_of(rows, columns);
    'rows: for row in rows {
        put_bar(row, scale, out)?;
    }
    Ok(())
}
