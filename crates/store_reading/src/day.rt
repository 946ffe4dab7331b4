//! The days of segments.
ghost use Rattle.std.specs.Prelude.{◌≡◌, ◌≢◌, ◌↔◌, IfNone, IfSome, IsTrue, codes, length};
ghost use Rattle.archive_text.specs.Periods.{IsPeriodOf};
ghost use Rattle.archive_text.specs.declared.period.Period.TheVariants.{Day as day_Period};
ghost use Rattle.store_reading.specs.Days.{IsDayBelow, IsDayText};

use std::cmp::Ordering;
use std::marker::Model;
use syslog_grammar::canonical_timestamp;
use syslog_value::Instant;

// the octets of a date
const DATE_LEN: usize = 10;

// those of `undated`, and that with what is not shown
const UNDATED_LEN: usize = 7;

const UNDATED: [u8; DATE_LEN] = *b"undated---";

/// A day in UTC, after which segments are named: a date, or `undated` for the records without a
/// time.
#[derive(Debug, Drop)]
pub struct Day {
    text: [u8; DATE_LEN],
    len: usize,
}

impl Model for Day {
    ghost use Rattle.std.specs.Prelude.{◌≤◌, ℕ, List, take};
    ghost use Rattle.store_reading.specs.Days.{IsDayText};

    ghost Value = { List ℕ };

    ghost view = { λ d. take d.len d.text };

    ghost invariant = { λ d. (d.len ≤ 10) × IsDayText (take d.len d.text) };
}

impl Day {
    /// The day of records without a time, `undated`.
    pub fn undated() -> Day
        ensures { result ≡ codes "undated" }
    {
        Day {
            text: UNDATED,
            len: UNDATED_LEN,
        }
    }

    /// The day with this name, if it is that of a date.
    pub(crate) fn dated(name: &[u8]) -> Option<Day>
        ensures some { IfSome result (λ day. day ≡ name.now) }
        ensures none { IfNone result (length name.now ≢ DATE_LEN) }
    {
        if name.len() != DATE_LEN {
            return None;
        }
        let mut text = [0; DATE_LEN];
        text.copy_from_slice(name);
        Some(Day {
            text,
            len: DATE_LEN,
        })
    }

    /// The day of an instant, or `undated` for None.
    pub fn of(instant: Option<Instant>) -> Day
        ensures { IsPeriodOf day_Period instant result }
    {
        match instant {
            None => Day::undated(),
            Some(instant) => {
                let time = canonical_timestamp(instant);
                let mut text = [0; DATE_LEN];
                text.copy_from_slice(&time[..DATE_LEN]);
                Day {
                    text,
                    len: DATE_LEN,
                }
            }
        }
    }

    /// The octets of its name.
    pub fn as_octets(&self) -> &[u8]
        ensures name { result.now ≡ self.now }
        ensures day { IsDayText self.now }
    {
        &self.text[..self.len]
    }

    /// Whether the other day is the same.
    pub fn is(&self, other: &Day) -> bool
        ensures { IsTrue result ↔ (self.now ≡ other.now) }
    {
        self.as_octets() == other.as_octets()
    }

    /// Whether it is the day of records without a time.
    pub(crate) fn is_undated(&self) -> bool
        ensures undated { IsTrue result ↔ (self.now ≡ codes "undated") }
        ensures day { IsDayText self.now }
    {
        self.as_octets() == b"undated".as_slice()
    }

    /// Whether it comes before another: `undated` before all dates.
    pub fn is_before(&self, other: &Day) -> bool
        ensures { IsTrue result ↔ IsDayBelow self.now other.now }
    {
        let (a, b) = (self.as_octets(), other.as_octets());
        if a.len() != b.len() {
            return a.len() < b.len();
        }
        match a.cmp(b) {
            Ordering::Less => true,
            Ordering::Equal => false,
            Ordering::Greater => false,
        }
    }

    /// The same day.
    pub fn copy(&self) -> Day
        ensures same { result ≡ self.now }
        ensures day { IsDayText self.now }
    {
        Day {
            text: self.text,
            len: self.len,
        }
    }
}
