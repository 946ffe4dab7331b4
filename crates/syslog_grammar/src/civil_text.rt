//! The canonical text of an instant.

ghost use Rattle.std.specs.Prelude.{◌≡◌, ◌≤◌, Some};
ghost use Rattle.syslog_value.specs.Instants.{IsCivil};
ghost use Rattle.syslog_fields.specs.Canonical.{TimeForm, civil_text};
ghost use Rattle.syslog_reading.specs.CanonicalOctets.{utc_fraction};
ghost use Rattle.syslog_fields.specs.Time.{padded};

use syslog_value::{Civil, Instant};

/// How many octets a canonical timestamp has, such as `2003-10-11T22:14:15.003000Z`.
pub const TIME_LEN: usize = 27;

/// Two digits.
#[inline(always)]
fn two(number: u8) -> [u8; 2]
    requires { number ≤ 99 }
    ensures { result ≡ padded 2 number }
{
    [b'0' + number / 10 % 10, b'0' + number % 10]
}

/// Four digits.
#[inline(always)]
fn four(number: u16) -> [u8; 4]
    requires { number ≤ 9999 }
    ensures { result ≡ padded 4 number }
{
    let [y1, y2] = two((number / 100) as u8);
    let [y3, y4] = two((number % 100) as u8);
    [y1, y2, y3, y4]
}

/// Six digits.
#[inline(always)]
fn six(number: u32) -> [u8; 6]
    requires { number ≤ 999_999 }
    ensures { result ≡ padded 6 number }
{
    let [u1, u2] = two((number / 10_000) as u8);
    let [u3, u4, u5, u6] = four((number % 10_000) as u16);
    [u1, u2, u3, u4, u5, u6]
}

/// A point, microseconds in six digits, and `Z`.
#[inline(always)]
pub fn utc_fraction(micros: u32) -> [u8; 8]
    requires { micros ≤ 999_999 }
    ensures { result ≡ utc_fraction micros }
{
    let [u1, u2, u3, u4, u5, u6] = six(micros);
    [b'.', u1, u2, u3, u4, u5, u6, b'Z']
}

/// A civil time in UTC as `2003-10-11T22:14:15.003000Z`.
pub fn civil_text(civil: Civil) -> [u8; TIME_LEN]
    requires { IsCivil civil }
    ensures { result ≡ civil_text civil }
{
    let [y1, y2, y3, y4] = four(civil.year);
    let [m1, m2] = two(civil.month);
    let [d1, d2] = two(civil.day);
    let [h1, h2] = two(civil.hour);
    let [i1, i2] = two(civil.minute);
    let [s1, s2] = two(civil.second);
    let [u1, u2, u3, u4, u5, u6] = six(civil.micros);
    [
        y1, y2, y3, y4, b'-', m1, m2, b'-', d1, d2, b'T', h1, h2, b':', i1, i2, b':', s1, s2, b'.',
        u1, u2, u3, u4, u5, u6, b'Z',
    ]
}

/// The canonical timestamp of an instant (RFC 5424, section 6.2.3): in UTC, with microseconds.
pub fn canonical_timestamp(instant: Instant) -> [u8; TIME_LEN]
    ensures { TimeForm (Some instant) result }
{
    civil_text(instant.civil())
}
