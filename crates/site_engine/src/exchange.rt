//! What two sites exchange.

ghost use Rattle.std.specs.Prelude.{◌↔◌, IsTrue};
ghost use Rattle.site_engine.specs.Exchanges.{Pulls, Pushes};

use archive_sets::InRange;

/// What two sites exchange, and which way.
#[derive(Clone, Copy, Debug)]
pub struct Exchange {
    /// The records of which range of time.
    pub range: InRange,
    /// Whether records are got from the other site.
    pub pulls: bool,
    /// Whether records are put to it. Where neither is said, both are meant.
    pub pushes: bool,
    /// Whether records are counted only: none is put, and none that was got is kept.
    pub is_dry: bool,
    /// How many octets are got in all, at most.
    pub room: u64,
}

impl Exchange {
    /// Whether records are got, to be kept or counted.
    pub(crate) fn does_pull(&self) -> bool
        ensures { IsTrue result ↔ Pulls self.now }
    {
        self.pulls || !self.pushes
    }

    /// Whether records are put, or counted.
    pub(crate) fn does_push(&self) -> bool
        ensures { IsTrue result ↔ Pushes self.now }
    {
        self.pushes || !self.pulls
    }
}
