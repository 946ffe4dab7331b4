//! Civil times: a date of the calendar and a time of its day.
ghost use Rattle.std.specs.Prelude.{◌≡◌, ◌≤◌, ℤ, ◌↔◌, pos, neg_ℤ, IsSome, IfSome};
ghost use Rattle.jiff.specs.Words.{IsBetween};
ghost use Rattle.syslog_value.specs.Calendar.{day_number, IsDay};

use jiff::civil::Date;

/// A date of the proleptic Gregorian calendar, and a time of that day. The year 0 is a leap year.
#[derive(Clone, Copy, Debug, PartialEq, Eq)]
pub struct Civil {
    /// 0 to 9999.
    pub year: u16,
    /// 1 to 12.
    pub month: u8,
    /// 1 to 31, and no more than the month has.
    pub day: u8,
    /// 0 to 23.
    pub hour: u8,
    /// 0 to 59.
    pub minute: u8,
    /// 0 to 59: there are no leap seconds.
    pub second: u8,
    /// Microseconds, 0 to 999,999.
    pub micros: u32,
}

impl Civil {
    ghost use Rattle.syslog_value.specs.Instants.{HasDate, HasTime, second_of_day};

    /// The days from 1970-01-01 to the date, if the calendar has it.
    #[inline(always)]
    pub(crate) fn day_number(&self) -> Option<i64>
        ensures exists { IsSome result ↔ HasDate self.now }
        ensures value { IfSome result (λ n.
            n ≡ day_number self.now.year self.now.month self.now.day) }
        ensures range { IfSome result (λ n. IsBetween (neg_ℤ (pos 4_371_587)) (pos 2_932_896) n) }
    {
        if self.year > 9999 || self.month > 12 || self.day > 31 {
            return None;
        }
        match Date::new(self.year as i16, self.month as i8, self.day as i8) {
            Ok(date) => Some(date.to_plain().to_unix_epoch_day() as i64),
            Err(_) => None,
        }
    }

    /// The second of the day, if the day has that time.
    #[inline(always)]
    pub(crate) fn second_of_day(&self) -> Option<u32>
        ensures exists { IsSome result ↔ HasTime self.now }
        ensures value { IfSome result (λ s. s ≡ second_of_day self.now) }
        ensures range { IfSome result (λ s. s ≤ 86_399) }
    {
        if self.hour > 23 || self.minute > 59 || self.second > 59 || self.micros > 999_999 {
            return None;
        }
        Some(u32::from(self.hour) * 3600 + u32::from(self.minute) * 60 + u32::from(self.second))
    }
}

/// The year, month and day that lie so many days after 1970-01-01.
pub(crate) fn date_at(day: i64) -> (u16, u8, u8)
    requires { IsBetween (neg_ℤ (pos 719_528)) (pos 2_932_896) day }
    ensures exists { IsDay result.0 result.1 result.2 }
    ensures value { day_number result.0 result.1 result.2 ≡ day }
{
    let date = Date::ZERO.to_plain().checked_add(day + 719_528).unwrap();
    (date.year as u16, date.month, date.day)
}
