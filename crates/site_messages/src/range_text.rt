//! Ranges, as they are told.

ghost use Rattle.std.specs.Prelude.{◌≡◌, ◌++◌, ◌≤◌, IfOk, OnOk, length};
ghost use Rattle.std.specs.List.{flat_map};
ghost use Rattle.site_messages.specs.Reading.{Reads};
ghost use Rattle.site_messages.specs.Texts.{IsBounds, bounds_text, range_text};
ghost use Rattle.site_messages.specs.Views.{range_of};
ghost use Rattle.reconcile.specs.declared.part.Part.{Part as the_part};

use crate::gap::Gap;
use crate::place_text::{put_high, put_place, read_high, read_place};
use crate::values::put;
use crate::words::read_text;
use archive_text::EntryView;
use reconcile::{Part, Place, Range};
use std::alloc::{AllocError, Global};

/// A range, as it lies in octets.
#[derive(Clone, Copy, Debug, PartialEq, Eq)]
pub struct RangeView<'a> {
    /// The first place.
    pub low: EntryView<'a>,
    /// The first place behind the range; None: it has no end.
    pub high: Option<EntryView<'a>>,
}

impl RangeView<'_> {
    /// The range. It fails only when out of memory.
    pub fn to_range(&self, alloc: Global) -> Result<Range, AllocError>
        ensures { IfOk result (λ range. range ≡ range_of self.now) }
    {
        let low = Place::of(alloc, &self.low)?;
        let high = match &self.high {
            None => None,
            Some(high) => Some(Place::of(alloc, high)?),
        };
        Ok(Range { low, high })
    }
}

/// Puts the bounds of a range, and a line feed.
pub(crate) fn put_bounds(text: &mut Vec<u8>, range: &Range) -> Result<(), AllocError>
    ensures { OnOk result (text.new.items ≡ text.old.items ++ bounds_text range.now) }
{
    put_place(text, &range.low, b" ")?;
    put_high(text, &range.high)
}

/// The bounds that the octets begin with, and what follows them and a line feed.
pub(crate) fn read_bounds(octets: &[u8]) -> Result<(RangeView<'_>, &[u8]), Gap>
    ensures { Reads IsBounds bounds_text (λ x. range_of x.0) (λ x. x.1.now) octets.now result }
{
    match read_place(octets, b" ") {
        Err(gap) => Err(gap),
        Ok((low, rest)) => match read_high(rest) {
            Err(gap) => Err(gap),
            Ok((high, rest)) => Ok((RangeView { low, high }, rest)),
        },
    }
}

/// Puts the line of a range behind a text. It fails only when out of memory.
pub fn write_range(text: &mut Vec<u8>, range: &Range) -> Result<(), AllocError>
    ensures { OnOk result (text.new.items ≡ text.old.items ++ range_text range.now) }
{
    put(text, b"range ")?;
    put_bounds(text, range)
}

/// Puts the lines of the ranges of some parts behind a text. It fails only when out of memory.
pub fn write_ranges(text: &mut Vec<u8>, parts: &[Part]) -> Result<(), AllocError>
    ensures { OnOk result (text.new.items
        ≡ text.old.items ++ flat_map (λ (p : the_part). range_text p.range) parts.now) }
{
    for part in parts {
        write_range(text, &part.range)?;
    }
    Ok(())
}

/// The range whose line the octets begin with, and what follows it.
pub fn read_range(octets: &[u8]) -> Result<(RangeView<'_>, &[u8]), Gap>
    ensures { Reads IsBounds range_text (λ x. range_of x.0) (λ x. x.1.now) octets.now result }
{
    let rest = read_text(octets, b"range ")?;
    read_bounds(rest)
}

/// How many octets the line of a range has at most.
pub fn range_size(range: &Range) -> u64 {
    let low = range.low.view().octets.len() as u64;
    let high = match &range.high {
        None => 0,
        Some(high) => high.view().octets.len() as u64,
    };
    low.saturating_add(high).saturating_add(96)
}
