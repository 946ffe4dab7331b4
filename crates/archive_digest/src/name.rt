//! What periods are called.

ghost use Rattle.std.specs.Prelude.{◌≡◌, ◌≤◌, ◌↔◌, [], IsTrue};
ghost use Rattle.archive_text.specs.Periods.{IsPeriodOf, name_length};

use archive_text::Period;
use std::marker::Model;
use syslog_grammar::canonical_timestamp;
use syslog_value::Instant;

// the octets of a canonical timestamp
const TIME_LEN: usize = 27;

// the name of the period of no instant, and what is not shown of it
const UNDATED: [u8; TIME_LEN] = *b"undated--------------------";

/// What a period is called: the first octets of a canonical timestamp, or `undated`.
#[derive(Drop)]
pub struct PeriodName {
    text: [u8; TIME_LEN],
    len: usize,
}

impl Model for PeriodName {
    ghost use Rattle.std.specs.Prelude.{◌≤◌, ℕ, List, length, take};

    ghost Value = { List ℕ };

    ghost view = { λ n. take n.len n.text };

    ghost invariant = { λ n. n.len ≤ length n.text };
}

// How many octets of a canonical timestamp name a period.
fn name_len(period: Period) -> usize
    ensures value { result ≡ name_length period }
    ensures range { result ≤ 13 }
{
    match period {
        Period::Month => 7,
        Period::Day => 10,
        Period::Hour => 13,
    }
}

impl PeriodName {
    /// The name before the first period, of no octets.
    pub fn none() -> PeriodName
        ensures { result ≡ [] }
    {
        PeriodName {
            text: UNDATED,
            len: 0,
        }
    }

    /// What the period of an instant is called, or that of records without one.
    pub fn of(period: Period, instant: Option<Instant>) -> PeriodName
        ensures { IsPeriodOf period instant result }
    {
        match instant {
            None => PeriodName {
                text: UNDATED,
                len: 7,
            },
            Some(instant) => PeriodName {
                text: canonical_timestamp(instant),
                len: name_len(period),
            },
        }
    }

    /// The octets of the name.
    pub fn octets(&self) -> &[u8]
        ensures { result.now ≡ self.now }
    {
        &self.text[..self.len]
    }

    /// Whether the other name is the same.
    pub fn is(&self, other: &PeriodName) -> bool
        ensures { IsTrue result ↔ (self.now ≡ other.now) }
    {
        self.octets() == other.octets()
    }
}
