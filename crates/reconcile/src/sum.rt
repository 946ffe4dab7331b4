//! What stands for some entries.

ghost use Rattle.std.specs.Prelude.{◌≡◌, ◌↔◌, IsTrue};

/// What stands for some entries: how many there are, and the length and the SHA-256 (FIPS 180-4) of
/// their archive.
#[derive(Clone, Copy, Debug, PartialEq, Eq)]
pub struct Sum {
    /// How many entries there are.
    pub records: u64,
    /// How many octets their archive has.
    pub octets: u64,
    /// The SHA-256 of their archive.
    pub digest: [u8; 32],
}

impl Sum {
    /// Whether both are one.
    pub fn is(&self, other: &Sum) -> bool
        ensures { IsTrue result ↔ ((self.now.records ≡ other.now.records)
            × (self.now.octets ≡ other.now.octets) × (self.now.digest ≡ other.now.digest)) }
    {
        self.records == other.records && self.octets == other.octets && self.digest == other.digest
    }
}
