//! Instants as numbers, so that one comparison orders them.

ghost use Rattle.std.specs.Prelude.{◌≡◌};
ghost use Rattle.archive_sorting.specs.Spans.{instant_at};

use syslog_value::Instant;

// what is added to the microseconds of an instant: those before 1970 of the year 0, and one
const FIRST: i64 = 62_167_219_200_000_001;

/// The rank of an instant, 0 for none: the earlier the instant, the lower the rank.
#[inline]
pub fn rank_of(instant: Option<Instant>) -> u64
    ensures { instant_at result ≡ instant }
{
    match instant {
        None => 0,
        Some(instant) => (instant.micros() + FIRST) as u64,
    }
}
