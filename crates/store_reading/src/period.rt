//! The periods of segments.
ghost use Rattle.std.specs.Prelude.{◌≡◌, ◌↔◌, IfNone, IfSome, IsTrue, codes};
ghost use Rattle.archive_text.specs.Periods.{IsPeriodOf};
ghost use Rattle.archive_text.specs.declared.period.Period.TheVariants.{Day as day_Period};
ghost use Rattle.store_reading.specs.Days.{IsDayText, IsPeriodText, MayHave};

use crate::day::Day;
use std::marker::Model;
use syslog_value::Instant;

/// What segments are named after: a day, or `mixed` where records of any days are in one segment.
#[derive(Debug, Drop)]
pub struct Period {
    // none: `mixed`
    day: Option<Day>,
}

impl Model for Period {
    ghost use Rattle.std.specs.Prelude.{ℕ, List};
    ghost use Rattle.store_reading.specs.Days.{period_text};

    ghost Value = { List ℕ };

    ghost view = { λ p. period_text p.day };
}

impl Period {
    /// The period of segments with records of any days.
    pub fn mixed() -> Period
        ensures { result ≡ codes "mixed" }
    {
        Period { day: None }
    }

    /// The period that a day is.
    pub fn of(day: &Day) -> Period
        ensures same { result ≡ day.now }
        ensures day { IsDayText day.now }
    {
        Period {
            day: Some(day.copy()),
        }
    }

    /// The octets of its name.
    pub fn as_octets(&self) -> &[u8]
        ensures name { result.now ≡ self.now }
        ensures period { IsPeriodText self.now }
    {
        match &self.day {
            None => b"mixed".as_slice(),
            Some(day) => day.as_octets(),
        }
    }

    /// Whether the other period is the same.
    pub fn is(&self, other: &Period) -> bool
        ensures { IsTrue result ↔ (self.now ≡ other.now) }
    {
        self.as_octets() == other.as_octets()
    }

    /// Whether it is that of segments with records of any days.
    pub(crate) fn is_mixed(&self) -> bool
        ensures { IsTrue result ↔ (self.now ≡ codes "mixed") }
    {
        self.as_octets() == b"mixed".as_slice()
    }

    /// Whether its segments may have a record of this instant, or of none.
    pub fn may_have(&self, instant: Option<Instant>) -> bool
        ensures { IsTrue result ↔ MayHave self.now instant }
    {
        if self.is_mixed() {
            return true;
        }
        self.is_day_of(instant)
    }

    // Whether it is the day of an instant.
    fn is_day_of(&self, instant: Option<Instant>) -> bool
        ensures { IsTrue result ↔ IsPeriodOf day_Period instant self.now }
    {
        let day = Day::of(instant);
        self.is(&Period::of(&day))
    }

    /// The day that it is, if it is one.
    pub(crate) fn day(&self) -> Option<Day>
        ensures some { IfSome result (λ day. IsDayText day × (day ≡ self.now)) }
        ensures none { IfNone result (self.now ≡ codes "mixed") }
    {
        match &self.day {
            None => None,
            Some(day) => Some(day.copy()),
        }
    }
}
