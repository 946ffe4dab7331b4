//! The earlier and the later of two times.
ghost use Rattle.store_statistics.specs.Times.{IsEarlier, IsLater};

use syslog_value::Instant;

/// The earlier of two times; the other where one of them is none.
pub fn earlier(a: Option<Instant>, b: Option<Instant>) -> Option<Instant>
    ensures { IsEarlier a b result }
{
    let Some(one) = a else {
        return b;
    };
    let Some(other) = b else {
        return a;
    };
    if other.micros() < one.micros() { b } else { a }
}

/// The later of two times; the other where one of them is none.
pub fn later(a: Option<Instant>, b: Option<Instant>) -> Option<Instant>
    ensures { IsLater a b result }
{
    let Some(one) = a else {
        return b;
    };
    let Some(other) = b else {
        return a;
    };
    if one.micros() < other.micros() { b } else { a }
}
