//! The line that tells how far an input was read.

ghost use Rattle.std.specs.Prelude.{◌≡◌, ◌++◌, ◌<◌, ◌≤◌, ◌↔◌, List, ℕ, OnErr, OnOk, decimal};
ghost use Rattle.progress.specs.Line.{comma_before, count_text, counted_text, grouped, line_text, percent_of, percent_text, rate_of, rate_text};
ghost use Rattle.progress.specs.Line.{with_commas};

use crate::unit::{ProgressUnit, name_of};
use itoa::Buffer;
use std::alloc::AllocError;

const MICROS_PER_SECOND: u128 = 1_000_000;

/// What a line tells.
#[derive(Clone, Copy, Debug)]
pub(crate) struct Told {
    pub(crate) unit: ProgressUnit,
    pub(crate) count: u64,
    /// How many there are in all, if that is known.
    pub(crate) total: Option<u64>,
    /// The microseconds in which they were counted.
    pub(crate) micros: u64,
}

fn put(octets: &[u8], out: &mut Vec<u8>) -> Result<(), AllocError>
    ensures ok { OnOk result (out.new.items ≡ out.old.items ++ octets.now) }
    ensures err { (part : List ℕ) × (out.new.items ≡ out.old.items ++ part) }
{
    out.extend_from_slice(octets)
}

// Appends a comma, where the digits that follow are threes of digits.
fn put_comma(following: usize, out: &mut Vec<u8>) -> Result<(), AllocError>
    ensures ok { OnOk result (out.new.items ≡ out.old.items ++ comma_before following) }
    ensures err { (part : List ℕ) × (out.new.items ≡ out.old.items ++ part) }
{
    if following > 0 && following.is_multiple_of(3) {
        return put(b",", out);
    }
    Ok(())
}

// Appends digits with a comma before each three of them, counted from the last.
fn put_digits(digits: &[u8], out: &mut Vec<u8>) -> Result<(), AllocError>
    ensures ok { OnOk result (out.new.items ≡ out.old.items ++ with_commas digits.now) }
    ensures err { (part : List ℕ) × (out.new.items ≡ out.old.items ++ part) }
{
    let mut rest = digits;
    while let Some((digit, following)) = rest.split_first() {
        put(&[*digit], out)?;
        put_comma(following.len(), out)?;
        rest = following;
    }
    Ok(())
}

#[tactic(auto, unfolding(crate::specs::Line::grouped))]
fn put_grouped(number: u64, out: &mut Vec<u8>) -> Result<(), AllocError>
    ensures ok { OnOk result (out.new.items ≡ out.old.items ++ grouped number) }
    ensures err { (part : List ℕ) × (out.new.items ≡ out.old.items ++ part) }
{
    put_digits(Buffer::new().format(number).as_bytes(), out)
}

/// How much of a total was counted, in percent, rounded down; 100 only where all of it was.
pub(crate) fn percent_of(total: u64, count: u64) -> u8
    ensures value { result ≡ percent_of total count }
    ensures full { (result ≡ 100) ↔ (total ≤ count) }
    ensures most { result ≤ 100 }
{
    if total <= count {
        return 100;
    }
    (count as u128 * 100 / total as u128) as u8
}

// How many were counted each second, rounded down; 0 where no time passed.
fn rate_of(count: u64, micros: u64) -> u64
    ensures { result ≡ rate_of count micros }
{
    if micros == 0 {
        return 0;
    }
    let rate = count as u128 * MICROS_PER_SECOND / micros as u128;
    u64::try_from(rate).unwrap_or(u64::MAX)
}

fn put_percent(total: u64, count: u64, out: &mut Vec<u8>) -> Result<(), AllocError>
    ensures ok { OnOk result (out.new.items ≡ out.old.items ++ percent_text total count) }
    ensures err { (part : List ℕ) × (out.new.items ≡ out.old.items ++ part) }
{
    put(b" (", out)?;
    put(
        Buffer::new().format(percent_of(total, count)).as_bytes(),
        out,
    )?;
    put(b" %)", out)
}

// Appends a number and the name of its unit.
fn put_counted(unit: ProgressUnit, number: u64, out: &mut Vec<u8>) -> Result<(), AllocError>
    ensures ok { OnOk result (out.new.items ≡ out.old.items ++ counted_text unit number) }
    ensures err { (part : List ℕ) × (out.new.items ≡ out.old.items ++ part) }
{
    put_grouped(number, out)?;
    put(b" ", out)?;
    put(name_of(unit), out)
}

fn put_count(told: Told, out: &mut Vec<u8>) -> Result<(), AllocError>
    ensures ok { OnOk result (out.new.items
        ≡ out.old.items ++ count_text told.unit told.total told.count) }
    ensures err { (part : List ℕ) × (out.new.items ≡ out.old.items ++ part) }
{
    let Some(total) = told.total else {
        return put_counted(told.unit, told.count, out);
    };
    put_grouped(told.count, out)?;
    put(b" of ", out)?;
    put_counted(told.unit, total, out)?;
    put_percent(total, told.count, out)
}

// Appends how many were counted each second; nothing where it is less than one.
fn put_rate(unit: ProgressUnit, rate: u64, out: &mut Vec<u8>) -> Result<(), AllocError>
    ensures ok { OnOk result (out.new.items ≡ out.old.items ++ rate_text unit rate) }
    ensures err { (part : List ℕ) × (out.new.items ≡ out.old.items ++ part) }
{
    if rate == 0 {
        return Ok(());
    }
    put(b", ", out)?;
    put_counted(unit, rate, out)?;
    put(b"/s", out)
}

/// Appends the words of a line, of any width; where memory runs out, possibly a part of them.
#[tactic(auto, unfolding(crate::specs::Line::line_text))]
pub(crate) fn put_words(told: Told, out: &mut Vec<u8>) -> Result<(), AllocError>
    ensures ok { OnOk result (out.new.items ≡ out.old.items ++ line_text told) }
    ensures err { (part : List ℕ) × (out.new.items ≡ out.old.items ++ part) }
{
    put_count(told, out)?;
    put_rate(told.unit, rate_of(told.count, told.micros), out)
}
