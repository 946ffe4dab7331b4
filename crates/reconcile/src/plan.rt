//! How an exchange goes.

ghost use Rattle.std.specs.Prelude.{◌≤◌};

/// How an exchange goes.
#[derive(Clone, Copy, Debug, PartialEq, Eq)]
pub struct Plan {
    /// Into how many parts a range is cut, at most.
    pub most: u64,
    /// A range of so many records is got whole.
    pub small: u64,
    /// For how many parts one request asks, at most.
    pub batch: usize,
    /// After so many turns an exchange is given up.
    pub turns: u64,
    ghost several: { 2 ≤ most },
    ghost some: { 1 ≤ small },
    ghost full: { 1 ≤ batch },
}

impl Plan {
    /// Ranges are cut into sixteen parts, and those of 64 records are got whole; a request asks for
    /// 1,024 parts, and a million turns are made.
    pub fn standard() -> Plan {
        Plan {
            most: 16,
            small: 64,
            batch: 1024,
            turns: 1_000_000,
        }
    }
}
