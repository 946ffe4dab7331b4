//! The number that encodes a facility and a severity (RFC 5424, section 6.2.1).
ghost use Rattle.std.specs.Prelude.{◌≡◌, ◌+◌, ◌*◌, ◌/◌, ◌%◌, ◌≤◌, ◌↔◌, ℕ, IsSome, IfSome};
ghost use Rattle.syslog_value.specs.Severities.{severity_code};
ghost use Rattle.syslog_value.specs.Facilities.{facility_code};

use crate::{Facility, Severity};
use std::marker::Model;

/// PRIVAL: eight times the facility's code plus the severity's code, 0 to 191.
#[derive(Clone, Copy, Debug, PartialEq, Eq)]
pub struct Priority {
    value: u8,
}

impl Model for Priority {
    ghost Value = { ℕ };

    ghost view = { λ p. p.value };

    ghost invariant = { λ p. p.value ≤ 191 };

    ghost inverse = { λ n. record { value = n } };
}

impl Priority {
    /// The priority with this number; None above 191.
    pub fn from_value(value: u8) -> Option<Priority>
        ensures valid { IsSome result ↔ (value ≤ 191) }
        ensures value { IfSome result (λ priority. priority ≡ value) }
    {
        if value > 191 {
            return None;
        }
        Some(Priority { value })
    }

    /// The priority of a facility and a severity.
    pub fn new(facility: Facility, severity: Severity) -> Priority
        ensures { result ≡ facility_code facility * 8 + severity_code severity }
    {
        Priority {
            value: facility.code() * 8 + severity.code(),
        }
    }

    /// The number, 0 to 191.
    pub fn value(self) -> u8
        ensures value { result ≡ self }
        ensures range { result ≤ 191 }
    {
        self.value
    }

    /// The facility, which is the number divided by eight.
    pub fn facility(self) -> Facility
        ensures { facility_code result ≡ self / 8 }
    {
        Facility::from_code(self.value / 8).unwrap()
    }

    /// The severity, which is the rest of that division.
    pub fn severity(self) -> Severity
        ensures { severity_code result ≡ self % 8 }
    {
        Severity::from_code(self.value % 8).unwrap()
    }
}
