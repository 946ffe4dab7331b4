//! The days of a folder, one behind the other.
ghost use Rattle.std.specs.Prelude.{◌≡◌, ◌≤◌, ◌↔◌, ℕ, ℤ, List, false, IfNone, IfSome, IsSomeAnd, IsTrue, length, option_map};
ghost use Rattle.archive_text.specs.Entries.{Entry};
ghost use Rattle.archive_join.specs.Ranges.{IsOfRange};
ghost use Rattle.store_reading.specs.Days.{HasInstant, IsAfter, IsDayBelow, IsDayText, IsFrom, IsOf};
ghost use Rattle.store_reading.specs.Names.{AddsDay, HaveSegment, IsFirstDay, IsNextDay, IsNextSegment};
ghost use Rattle.store_reading.specs.Order.{AreInOrder};
ghost use Rattle.store_reading.specs.Parts.{BeginsApart, BeginsWithDay, PartsAt};
ghost use Rattle.store_reading.specs.Ranges.{MayMeet};

use crate::day::Day;
use crate::name_order::Names;
use crate::names::segment_day;
use archive_sets::{Condition, InRange};
use archive_text::{ENTRY_MAX, EntryView, read_entry};
use disk::FileName;
use syslog_value::Instant;

// What is behind the first entry of a text, where that is of the day.
fn behind_of<'a>(text: &'a [u8], day: &Day) -> Option<&'a [u8]>
    ensures some { IfSome result (λ behind. BeginsWithDay day.now text.now behind.now) }
    ensures none { IfNone result (BeginsApart day.now text.now) }
{
    match read_entry(ENTRY_MAX as u64, text) {
        Ok((entry, behind)) => {
            if Day::of(entry.instant).is(day) {
                return Some(behind);
            }
            None
        }
        Err(_) => None,
    }
}

/// How many octets the entries of a day take at the beginning of an archive's text.
pub(crate) fn day_len(text: &[u8], day: &Day) -> usize
    ensures within { result ≤ length text.now }
    ensures parts { PartsAt day.now text.now result }
{
    let mut rest = text;
    'entries: while let Some(behind) = behind_of(rest, day) {
        rest = behind;
    }
    text.len() - rest.len()
}

// The day of the first entry of an archive's text.
fn first_day(text: &[u8]) -> Option<Day>
    ensures { (day : List ℕ) → IsFirstDay text.now day → IsSomeAnd result (λ found. found ≡ day) }
{
    match read_entry(ENTRY_MAX as u64, text) {
        Ok((entry, _)) => Some(Day::of(entry.instant)),
        Err(_) => None,
    }
}

// Whether a day comes behind the last one, if there was any.
fn is_after(last: Option<&Day>, day: &Day) -> bool
    ensures { IsTrue result ↔ IsAfter (option_map (λ d. d.now) last.entry) day.now }
{
    match last {
        None => true,
        Some(last) => last.is_before(day),
    }
}

// Of the next day so far and one more day, which of both comes next behind the last one.
fn nearer(last: Option<&Day>, next: Option<Day>, day: Day) -> Option<Day>
    ensures { AddsDay (option_map (λ d. d.now) last.entry) day next result }
{
    if !is_after(last, &day) {
        return next;
    }
    match next {
        None => Some(day),
        Some(next) => {
            if day.is_before(&next) {
                return Some(day);
            }
            Some(next)
        }
    }
}

// The octets of the last day, behind which a day comes; none where there is no last one.
fn last_octets(last: Option<&Day>) -> &[u8]
    ensures { (day : List ℕ) → IsDayText day
        → IsAfter (option_map (λ d. d.now) last.entry) day ↔ IsDayBelow result.now day }
{
    match last {
        Some(last) => last.as_octets(),
        None => b"".as_slice(),
    }
}

// The day of the first segment among names in their order.
fn first_segment_day(names: &[FileName]) -> Option<Day>
    requires { AreInOrder names.now }
    ensures segment { IfSome result (λ day. IsDayText day × HaveSegment names.now day) }
    ensures first { (day : List ℕ) → IsDayText day → HaveSegment names.now day
        → IsSomeAnd result (λ (next : List ℕ). ¬ (IsDayBelow day next)) }
{
    'names: for name in names {
        match segment_day(name.as_octets()) {
            Some(day) => return Some(day),
            None => {}
        }
    }
    None
}

/// The next day behind the last one among the segments with these names, or the first if there is
/// no last one.
pub fn next_segment_day(names: &Names, last: Option<&Day>) -> Option<Day>
    ensures { IsNextSegment (option_map (λ d. d.now) last.entry) names.now result }
{
    first_segment_day(names.behind(last_octets(last)))
}

/// The next day behind the last one, among those of segments and that of the first entry of an
/// archive's text.
pub(crate) fn next_day(names: &Names, text: &[u8], last: Option<&Day>) -> Option<Day>
    ensures { IsNextDay (option_map (λ d. d.now) last.entry) names.now text.now result }
{
    let next = next_segment_day(names, last);
    match first_day(text) {
        None => next,
        Some(day) => nearer(last, next, day),
    }
}

// Whether a dated day has no instant before a bound.
fn is_from(to: Instant, day: &Day) -> bool
    ensures from { IsTrue result → IsFrom to day.now }
    ensures all { HasInstant day.now → IsFrom to day.now → IsTrue result }
{
    match Instant::from_micros(to.micros() - 1) {
        Some(last) => Day::of(Some(last)).is_before(day),
        None => true,
    }
}

/// Whether no instant of a day is in a range.
pub fn is_outside(range: &InRange, day: &Day) -> bool
    ensures none { IsTrue result → (e : Entry) → IsOf day.now e → ¬ (IsOfRange range.now e) }
    ensures behind { IfSome range.now.to (λ (to : ℤ). HasInstant day.now → IsFrom to day.now → IsTrue result) }
    ensures inside { result ≡ false → MayMeet range.now day.now }
{
    if day.is_undated() {
        return !range.holds(&EntryView {
            instant: None,
            octets: b"",
        });
    }
    if let Some(from) = range.from {
        if day.is_before(&Day::of(Some(from))) {
            return true;
        }
    }
    if let Some(to) = range.to {
        return is_from(to, day);
    }
    false
}
