//! Instants as numbers, so that one comparison orders them.

ghost use Rattle.std.specs.Prelude.{◌≡◌, IfSome};
ghost use Rattle.syslog_value.specs.Parts.{IsInstant};
ghost use Rattle.archive_pages.specs.Spans.{instant_at};

use syslog_value::Instant;

// what is added to the microseconds of an instant: those before 1970 of the year 0, and one
const FIRST: i64 = 62_167_219_200_000_001;

/// The rank of an instant, 0 for none: the earlier the instant, the lower the rank.
#[inline]
pub fn rank_of(instant: Option<Instant>) -> u64
    ensures { instant_at result ≡ instant }
{
    match instant {
        None => 0,
        Some(instant) => (instant.micros() + FIRST) as u64,
    }
}

/// The instant with this rank, if it is in range.
#[inline]
pub fn instant_of(rank: u64) -> Option<Instant>
    requires { IfSome (instant_at rank) IsInstant }
    ensures { result ≡ instant_at rank }
{
    if rank == 0 {
        return None;
    }
    Instant::from_micros(rank as i64 - FIRST)
}
