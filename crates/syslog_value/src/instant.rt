//! Instants, and the civil times that name them (RFC 5424, section 6.2.3).
ghost use Rattle.std.specs.Prelude.{◌≡◌, ◌≤◌, ℤ, ◌↔◌, pos, neg_ℤ, ◌+ℤ◌, ◌-ℤ◌, ◌*ℤ◌};
ghost use Rattle.std.specs.Prelude.{IsSome, IfSome, IfOk, IfErr};
ghost use Rattle.jiff.specs.Words.{IsBetween};
ghost use Rattle.syslog_value.specs.Parts.{IsInstant};
ghost use Rattle.syslog_value.specs.declared.civil.Civil.{Civil};
ghost use Rattle.syslog_value.specs.Instants.{IsCivil, IsOffset, IsFault, instant_of};

use crate::Civil;
use crate::civil::date_at;
use std::marker::Model;
use thiserror::Error;

/// Why a civil time with an offset names no instant: the first of these that holds.
#[derive(Clone, Copy, Debug, PartialEq, Eq, Error)]
pub enum TimeFault {
    /// The calendar has no such date, or the year is above 9999.
    #[error("there is no such date")]
    NoSuchDate,
    /// The day has no such time, or there are more than 999,999 microseconds.
    #[error("there is no such time")]
    NoSuchTime,
    /// The offset is more than 1,439 minutes either way.
    #[error("the offset is a day or more")]
    BadOffset,
    /// The instant lies before the year 0 or after the year 9999.
    #[error("the instant is out of range")]
    OutOfRange,
}

/// An instant from 0000-01-01T00:00:00.000000Z to 9999-12-31T23:59:59.999999Z, in microseconds from
/// 1970-01-01T00:00:00Z.
#[derive(Clone, Copy, Debug, PartialEq, Eq, PartialOrd, Ord)]
pub struct Instant {
    micros: i64,
}

impl Model for Instant {
    ghost Value = { ℤ };

    ghost view = { λ i. i.micros };

    ghost invariant = { λ i. IsInstant i.micros };

    ghost inverse = { λ z. record { micros = z } };
}

// the instant of a day, a second of it, an offset and microseconds
#[inline(always)]
fn joined(day: i64, second: i64, offset_minutes: i64, micros: i64) -> i64
    requires day_in { IsBetween (neg_ℤ (pos 4_371_587)) (pos 2_932_896) day }
    requires second_in { IsBetween (pos 0) (pos 86_399) second }
    requires offset_in { IsBetween (neg_ℤ (pos 1439)) (pos 1439) offset_minutes }
    requires micros_in { IsBetween (pos 0) (pos 999_999) micros }
    ensures { result ≡ (day *ℤ pos 86_400 +ℤ second -ℤ offset_minutes *ℤ pos 60) *ℤ pos 1_000_000
        +ℤ micros }
{
    (day * 86_400 + second - offset_minutes * 60) * 1_000_000 + micros
}

// the civil time in UTC so many microseconds from 1970-01-01T00:00:00Z
fn civil_at(micros: i64) -> Civil
    requires { IsInstant micros }
    ensures valid { IsCivil result }
    ensures value { instant_of result (pos 0) ≡ micros }
{
    let day = micros.div_euclid(86_400_000_000);
    let within = micros.rem_euclid(86_400_000_000) as u64;
    let (year, month, day) = date_at(day);
    let second = (within / 1_000_000) as u32;
    Civil {
        year,
        month,
        day,
        hour: (second / 3600) as u8,
        minute: (second / 60 % 60) as u8,
        second: (second % 60) as u8,
        micros: (within % 1_000_000) as u32,
    }
}

impl Instant {
    /// The instant `micros` microseconds after 1970-01-01T00:00:00Z, or before it if negative; None
    /// if it is out of range.
    pub fn from_micros(micros: i64) -> Option<Instant>
        ensures valid { IsSome result ↔ IsInstant micros }
        ensures value { IfSome result (λ i. i ≡ micros) }
    {
        if micros < -62_167_219_200_000_000 || micros > 253_402_300_799_999_999 {
            return None;
        }
        Some(Instant { micros })
    }

    /// The microseconds since 1970-01-01T00:00:00Z, negative before that.
    pub fn micros(self) -> i64
        ensures value { result ≡ self }
        ensures range { IsInstant result }
    {
        self.micros
    }

    /// The instant that a civil time names on a clock `offset_minutes` minutes ahead of UTC. The
    /// refusals come in the order of the variants of [`TimeFault`].
    #[inline(always)]
    pub fn from_civil(civil: Civil, offset_minutes: i16) -> Result<Instant, TimeFault>
        ensures ok { IfOk result (λ i. IsCivil civil × IsOffset offset_minutes
            × (i ≡ instant_of civil offset_minutes)) }
        ensures err { IfErr result (IsFault civil offset_minutes) }
    {
        let Some(day) = civil.day_number() else {
            return Err(TimeFault::NoSuchDate);
        };
        let Some(second) = civil.second_of_day() else {
            return Err(TimeFault::NoSuchTime);
        };
        if offset_minutes < -1439 || offset_minutes > 1439 {
            return Err(TimeFault::BadOffset);
        }
        let micros = joined(
            day,
            second as i64,
            offset_minutes as i64,
            civil.micros as i64,
        );
        match Instant::from_micros(micros) {
            Some(instant) => Ok(instant),
            None => Err(TimeFault::OutOfRange),
        }
    }

    /// The civil time in UTC.
    pub fn civil(self) -> Civil
        ensures valid { IsCivil result }
        ensures value { instant_of result (pos 0) ≡ self }
        ensures only { (c : Civil) → IsCivil c → instant_of c (pos 0) ≡ self → c ≡ result }
    {
        civil_at(self.micros)
    }
}
