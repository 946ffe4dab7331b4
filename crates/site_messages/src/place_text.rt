//! Places, as they are told.

ghost use Rattle.std.specs.Prelude.{◌≡◌, ◌++◌, OnOk, option_map};
ghost use Rattle.archive_text.specs.EntryViews.{entry_of};
ghost use Rattle.site_messages.specs.Reading.{Reads};
ghost use Rattle.site_messages.specs.Texts.{IsHigh, IsPlace, high_text, place_and};
ghost use Rattle.site_messages.specs.Words.{IsShort, counted_and, counted_text};

use crate::gap::Gap;
use crate::limits::PLACE_MAX;
use crate::values::{put, put_number, put_time, read_number, read_time};
use crate::words::read_text;
use archive_text::EntryView;
use reconcile::Place;
use std::alloc::AllocError;

// Puts the count of octets, a space and the octets.
fn put_counted(text: &mut Vec<u8>, octets: &[u8]) -> Result<(), AllocError>
    ensures { OnOk result (text.new.items ≡ text.old.items ++ counted_text octets.now) }
{
    put_number(text, octets.len() as u64, b" ")?;
    put(text, octets)
}

/// Puts a place, and octets behind it.
pub(crate) fn put_place(text: &mut Vec<u8>, place: &Place, end: &[u8]) -> Result<(), AllocError>
    ensures { OnOk result (text.new.items ≡ text.old.items ++ place_and end.now place.now) }
{
    let entry = place.view();
    put_time(text, entry.instant)?;
    put_counted(text, entry.octets)?;
    put(text, end)
}

/// Puts the upper bound of a range, if it has one, and a line feed.
pub(crate) fn put_high(text: &mut Vec<u8>, high: &Option<Place>) -> Result<(), AllocError>
    ensures { OnOk result (text.new.items ≡ text.old.items ++ high_text high.now) }
{
    match high {
        None => put(text, b"open\n"),
        Some(high) => put_place(text, high, b"\n"),
    }
}

// The octets behind their count and a space.
fn read_counted(octets: &[u8]) -> Result<(&[u8], &[u8]), Gap>
    ensures { Reads IsShort counted_text (λ x. x.0.now) (λ x. x.1.now) octets.now result }
{
    let (count, rest) = read_number(octets)?;
    if count > PLACE_MAX as u64 {
        return Err(Gap::Bad);
    }
    let count = count as usize;
    if rest.len() < count {
        return Err(Gap::More(count - rest.len()));
    }
    Ok(rest.split_at(count))
}

// Counted octets, and what follows them and the text behind them.
fn read_counted_and<'a>(octets: &'a [u8], end: &[u8]) -> Result<(&'a [u8], &'a [u8]), Gap>
    ensures { Reads IsShort (counted_and end.now) (λ x. x.0.now) (λ x. x.1.now) octets.now result }
{
    let (octets, rest) = read_counted(octets)?;
    let rest = read_text(rest, end)?;
    Ok((octets, rest))
}

/// The place that the octets begin with, and what follows it and the text behind it.
pub(crate) fn read_place<'a>(octets: &'a [u8], end: &[u8]) -> Result<(EntryView<'a>, &'a [u8]), Gap>
    ensures { Reads IsPlace (place_and end.now) (λ x. entry_of x.0) (λ x. x.1.now) octets.now
        result }
{
    match read_time(octets) {
        Err(gap) => Err(gap),
        Ok((instant, rest)) => match read_counted_and(rest, end) {
            Err(gap) => Err(gap),
            Ok((octets, rest)) => Ok((EntryView { instant, octets }, rest)),
        },
    }
}

/// The upper bound that the octets begin with, and what follows it and a line feed.
pub(crate) fn read_high(octets: &[u8]) -> Result<(Option<EntryView<'_>>, &[u8]), Gap>
    ensures { Reads IsHigh high_text (λ x. option_map entry_of x.0) (λ x. x.1.now) octets.now
        result }
{
    if octets.is_empty() {
        return Err(Gap::More(1));
    }
    if octets[0] == b'o' {
        return match read_text(octets, b"open\n") {
            Err(gap) => Err(gap),
            Ok(rest) => Ok((None, rest)),
        };
    }
    match read_place(octets, b"\n") {
        Err(gap) => Err(gap),
        Ok((high, rest)) => Ok((Some(high), rest)),
    }
}
