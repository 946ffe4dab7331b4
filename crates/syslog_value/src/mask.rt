//! Which severities a sender lets through (setlogmask(3)).
ghost use Rattle.std.specs.Prelude.{◌≡◌, ◌≤◌, ◌<◌, ◌↔◌, ◌⊎◌, ◌^◌, ℕ, IsTrue};
ghost use Rattle.syslog_value.specs.declared.severity.Severity.{Severity};
ghost use Rattle.syslog_value.specs.Severities.{severity_code};
ghost use Rattle.syslog_value.specs.Masks.{Holds};

use crate::Severity;
use std::marker::Model;

/// A set of severities.
#[derive(Clone, Copy, Debug, PartialEq, Eq)]
pub struct Mask {
    bits: u8,
}

impl Model for Mask {
    ghost Value = { ℕ };

    ghost view = { λ m. m.bits };

    ghost invariant = { λ m. m.bits < 256 };

    ghost inverse = { λ n. record { bits = n } };
}

impl Mask {
    /// The set of all severities.
    pub fn all() -> Mask
        ensures { (s : Severity) → Holds result s }
    {
        Mask { bits: 0xff }
    }

    /// The empty set.
    pub fn none() -> Mask
        ensures { (s : Severity) → ¬ Holds result s }
    {
        Mask { bits: 0 }
    }

    /// The set of this severity alone (LOG_MASK).
    pub fn of(severity: Severity) -> Mask
        ensures { (s : Severity) → Holds result s ↔ (s ≡ severity) }
    {
        Mask {
            bits: 1 << severity.code(),
        }
    }

    /// The set of this severity and all that are more severe (LOG_UPTO).
    pub fn up_to(severity: Severity) -> Mask
        ensures { (s : Severity) → Holds result s ↔ (severity_code s ≤ severity_code severity) }
    {
        Mask {
            bits: 0xff >> (7 - severity.code()),
        }
    }

    /// The set of what is in either.
    pub fn union(self, other: Mask) -> Mask
        ensures { (s : Severity) → Holds result s ↔ (Holds self s ⊎ Holds other s) }
    {
        Mask {
            bits: self.bits | other.bits,
        }
    }

    /// Whether the severity is in the set.
    pub fn holds(self, severity: Severity) -> bool
        ensures { IsTrue result ↔ Holds self severity }
    {
        self.bits & 1 << severity.code() != 0
    }

    /// Whether no severity is in the set.
    pub fn is_empty(self) -> bool
        ensures { IsTrue result ↔ ((s : Severity) → ¬ Holds self s) }
    {
        self.bits == 0
    }
}

/// Masks that hold the same severities are equal.
pub fn masks_are_their_severities(one: Mask, other: Mask)
    ensures { ((s : Severity) → Holds one s ↔ Holds other s) → one ≡ other }
{}
