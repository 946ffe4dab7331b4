//! What has to go so that the segments of a store fit in some room.
ghost use Rattle.std.specs.Prelude.{◌≡◌, ◌↔◌, ◌<◌, ◌≤◌, IsTrue, List, Some, true, ℕ};
ghost use Rattle.archive_text.specs.Entries.{Entry};
ghost use Rattle.archive_text.specs.Periods.{IsPeriodOf};
ghost use Rattle.archive_text.specs.declared.period.Period.TheVariants.{Day as day_Period};
ghost use Rattle.store_reading.specs.Days.{IsOf};
ghost use Rattle.store_expiry.specs.Expired.{IsExpired};
ghost use Rattle.store_expiry.specs.Room.{FitsAt, IsLeastMidnight, IsLeft, goes, kept_octets, midnight, octets_left, octets_of};

use crate::expired::Expired;
use crate::turns::compare;
use std::cmp::Ordering;
use store_reading::Day;
use syslog_value::Instant;

// the microseconds of a day
const DAY: i64 = 86_400_000_000;

// the days from 0000-01-01 to 1970-01-01
const DAYS_BEFORE_1970: i64 = 719_528;

// the number of 9999-12-31, counted from 0000-01-01
const LAST_DAY: u32 = 3_652_424;

// the octets of a date
const DATE_LEN: usize = 10;

/// A segment of a store: what it is called after, and how many octets it has.
#[derive(Debug, Drop)]
pub struct SegmentSize {
    /// Its day, which is `undated` for records without a time; None for a mixed segment.
    pub day: Option<Day>,
    /// The length of its file.
    pub octets: u64,
}

/// How many octets segments have.
pub fn octets_of(segments: &[SegmentSize]) -> u128
    ensures { result ≡ octets_of segments.now }
{
    let mut octets: u128 = 0;
    'segments: for segment in segments {
        octets += u128::from(segment.octets);
    }
    octets
}

// Whether a segment of a day goes with all that is from before the midnight of another day, and with what has
// no time where that is said.
fn is_gone(undated: bool, first: &Day, day: &Day) -> bool
    ensures { result ≡ goes undated first.now (Some day.now) }
{
    let day = day.as_octets();
    (undated || day.len() == DATE_LEN) && compare(day, first.as_octets()) == Ordering::Less
}

// How many octets of a segment are left then.
fn kept_octets(undated: bool, first: &Day, segment: &SegmentSize) -> u64
    ensures { result ≡ kept_octets undated first.now segment.now }
{
    match &segment.day {
        Some(day) if is_gone(undated, first, day) => 0,
        _ => segment.octets,
    }
}

// How many octets of the segments are left then.
fn octets_left(undated: bool, first: &Day, segments: &[SegmentSize]) -> u128
    ensures { result ≡ octets_left undated first.now segments.now }
{
    let mut octets: u128 = 0;
    'segments: for segment in segments {
        octets += u128::from(kept_octets(undated, first, segment));
    }
    octets
}

// The first instant of a day, counted from 0000-01-01.
fn midnight(number: u32) -> Instant
    requires { number ≤ 3_652_424 }
    ensures { result ≡ midnight number }
{
    match Instant::from_micros((i64::from(number) - DAYS_BEFORE_1970) * DAY) {
        Some(instant) => instant,
        None => unreachable!(),
    }
}

// How many octets are left if all goes that is from before the midnight of a day.
fn left_at(undated: bool, number: u32, segments: &[SegmentSize]) -> u128
    requires { number ≤ 3_652_424 }
    ensures { IsLeft undated segments.now (midnight number) result }
{
    octets_left(undated, &Day::of(Some(midnight(number))), segments)
}

// The first day at whose midnight at most so much is left.
fn first_day(undated: bool, segments: &[SegmentSize], most: u128) -> u32
    requires { FitsAt undated segments.now 3_652_424 most }
    ensures within { result ≤ 3_652_424 }
    ensures fits { FitsAt undated segments.now result most }
    ensures needed { (n left : ℕ) → n < result → IsLeft undated segments.now (midnight n) left → most < left }
{
    let mut low = 0;
    let mut high = LAST_DAY;
    'halved: while low < high {
        let middle = low + (high - low) / 2;
        if left_at(undated, middle, segments) <= most {
            high = middle;
        } else {
            low = middle + 1;
        }
    }
    high
}

// The first midnight at which the segments fit in a room, or, where they never do, as little is left as can be.
fn least_midnight(undated: bool, segments: &[SegmentSize], room: u64) -> Instant
    ensures { IsLeastMidnight undated segments.now room result }
{
    let least = left_at(undated, LAST_DAY, segments);
    let most = least.max(u128::from(room));
    midnight(first_day(undated, segments, most))
}

/// What is to expire so that the segments of a store have at most so many octets: the oldest days, and no day
/// more than has to go. With `undated` those without a time are the oldest of all. Where even without all
/// days the segments have more, all days are to expire; only 9999-12-31, behind which no midnight is, stays.
///
/// Mixed segments count whole: what goes of them is not known before they are read.
pub fn expired_for_room(segments: &[SegmentSize], room: u64, undated: bool) -> Expired
    // what has no time goes where that is asked for and something has to go
    ensures undated { IsTrue result.undated ↔ (IsTrue undated × (room < octets_of segments.now)) }

    // all goes that is from before the first midnight at which what is left fits
    ensures before { IsLeastMidnight result.undated segments.now room result.before }

    // the segments that are counted as gone are those whose records are expired
    ensures days { (first day : List ℕ) (e : Entry) → IsPeriodOf day_Period (Some result.before) first
        → IsOf day e → (goes result.undated first (Some day) ≡ true) ↔ IsExpired result e }
{
    let undated = undated && octets_of(segments) > u128::from(room);
    Expired {
        before: least_midnight(undated, segments, room),
        undated,
    }
}

/// How many octets of the segments are left without those that go as a whole.
pub fn octets_without(segments: &[SegmentSize], expired: &Expired) -> u128
    ensures { IsLeft expired.now.undated segments.now expired.now.before result }
{
    octets_left(expired.undated, &Day::of(Some(expired.before)), segments)
}
