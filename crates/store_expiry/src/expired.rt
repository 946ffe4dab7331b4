//! What is expired.
ghost use Rattle.std.specs.Prelude.{◌↔◌, IsTrue, List, ℕ};
ghost use Rattle.archive_text.specs.Entries.{Entry};
ghost use Rattle.archive_text.specs.EntryViews.{entry_of};
ghost use Rattle.record_store.specs.Holdings.{IsOfPeriod};
ghost use Rattle.record_store.specs.Names.{IsSegment};
ghost use Rattle.store_expiry.specs.Expired.{IsBeforeHour, IsExpired, IsHourOf};

use archive_sets::InRange;
use archive_text::EntryView;
use store_reading::{is_outside, segment_day};
use syslog_value::Instant;

// the microseconds of an hour
const HOUR: i64 = 3_600_000_000;

/// The first instant of the hour in which an instant lies; hours are counted from 1970-01-01T00:00:00Z.
pub fn hour_of(instant: Instant) -> Instant
    ensures { IsHourOf instant result }
{
    let micros = instant.micros();
    match Instant::from_micros(micros - micros.rem_euclid(HOUR)) {
        Some(hour) => hour,
        None => unreachable!(),
    }
}

/// Which records of a store are expired: those from before an instant, and those without a time where that
/// is said.
#[derive(Clone, Copy, Debug, PartialEq, Eq)]
pub struct Expired {
    /// The first instant that is not expired.
    pub before: Instant,
    /// Whether records without a time are expired.
    pub undated: bool,
}

impl Expired {
    /// The records from before the hour of a time are expired, and with `undated` those without a time.
    pub fn before(time: Instant, undated: bool) -> Expired
        ensures { (e : Entry) → IsExpired result e ↔ IsBeforeHour time undated e.instant }
    {
        Expired {
            before: hour_of(time),
            undated,
        }
    }

    /// Whether the record of an entry is expired.
    pub fn has(&self, entry: &EntryView<'_>) -> bool
        ensures { IsTrue result ↔ IsExpired self.now (entry_of entry.now) }
    {
        match entry.instant {
            None => self.undated,
            Some(instant) => instant.micros() < self.before.micros(),
        }
    }

    // Whether no record of a segment with this name is expired, by the day in its name.
    pub(crate) fn spares(&self, name: &[u8]) -> bool
        ensures { IsTrue result → (period : List ℕ) → IsSegment period name.now → (e : Entry)
            → IsOfPeriod period e → ¬ (IsExpired self.now e) }
    {
        match segment_day(name) {
            None => false,
            Some(day) => {
                let range = InRange {
                    from: None,
                    to: Some(self.before),
                    undated: self.undated,
                };
                is_outside(&range, &day)
            }
        }
    }
}
