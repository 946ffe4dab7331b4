//! Ranges of the order of an archive.

ghost use Rattle.std.specs.Prelude.{◌↔◌, IsTrue};
ghost use Rattle.reconcile.specs.Ranges.{IsProper};

use crate::checking::is_under;
use crate::place::Place;

/// The places from `low` on and below `high`, if there is one.
#[derive(Debug, Drop)]
pub struct Range {
    /// The first place.
    pub low: Place,
    /// The first place behind the range; None: it has no end.
    pub high: Option<Place>,
}

impl Range {
    /// Whether its end, if it has one, is behind its first place. Else no place is in it.
    pub fn is_proper(&self) -> bool
        ensures { IsTrue result ↔ IsProper self.now }
    {
        is_under(self.high.as_ref(), &self.low)
    }
}
