//! The records in a range of time.

ghost use Rattle.std.specs.Prelude.{◌≡◌, ◌↔◌, ◌<ℤ◌, ◌≤ℤ◌, IfSome, IsTrue, ℤ};
ghost use Rattle.archive_sets.specs.Conditions.{IsInRange};

use crate::condition::Condition;
use archive_text::EntryView;
use syslog_value::Instant;

/// Records in a half-open range of time. A record without a time is in it if the range has no
/// bound, or if `undated` says so.
#[derive(Clone, Copy, Debug, PartialEq, Eq)]
pub struct InRange {
    /// The first instant in the range; None: there is no first one.
    pub from: Option<Instant>,
    /// The first instant behind the range; None: the range has no end.
    pub to: Option<Instant>,
    /// Whether records without a time are in the range even if it has a bound.
    pub undated: bool,
}

// Whether an instant is not before a bound.
fn is_from(from: Option<Instant>, instant: Instant) -> bool
    ensures { IsTrue result ↔ IfSome from (λ (f : ℤ). f ≤ℤ instant) }
{
    match from {
        None => true,
        Some(from) => from.micros() <= instant.micros(),
    }
}

// Whether an instant is before a bound.
fn is_before(instant: Instant, to: Option<Instant>) -> bool
    ensures { IsTrue result ↔ IfSome to (λ (t : ℤ). instant <ℤ t) }
{
    match to {
        None => true,
        Some(to) => instant.micros() < to.micros(),
    }
}

impl Condition for InRange {
    ghost meets = { λ c e. IsInRange c.from c.to c.undated e.instant };

    fn holds(&self, entry: &EntryView<'_>) -> bool {
        match entry.instant {
            None => self.undated || (self.from.is_none() && self.to.is_none()),
            Some(instant) => is_from(self.from, instant) && is_before(instant, self.to),
        }
    }
}
