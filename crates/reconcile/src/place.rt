//! Places in the order of an archive.

ghost use Rattle.std.specs.Prelude.{◌≡◌, ◌↔◌, [], None, IfOk, IsTrue};
ghost use Rattle.archive_text.specs.Entries.{IsBelow};
ghost use Rattle.archive_text.specs.EntryViews.{entry_of};

use archive_text::{EntryView, compare};
use std::alloc::{AllocError, Global};
use std::cmp::Ordering;
use std::marker::Model;
use syslog_value::Instant;

/// A place in the order of an archive: an instant, or none, and octets, as an entry has them.
/// Octets that are no record are a place too, before those that begin with them and go on.
#[derive(Debug, Drop)]
pub struct Place {
    instant: Option<Instant>,
    octets: Vec<u8>,
}

impl Model for Place {
    ghost use Rattle.archive_text.specs.Entries.{Entry};

    ghost Value = { Entry };

    ghost view = { λ p. record { instant = p.instant; octets = p.octets.items } };
}

impl Place {
    /// The first place of all: no instant, and no octets.
    pub fn first(alloc: Global) -> Place
        ensures { result ≡ record { instant = None; octets = [] } }
    {
        Place {
            instant: None,
            octets: Vec::new(alloc),
        }
    }

    /// The place of an entry. It fails only when out of memory.
    pub fn of(alloc: Global, entry: &EntryView<'_>) -> Result<Place, AllocError>
        ensures { IfOk result (λ p. p ≡ entry_of entry.now) }
    {
        Ok(Place {
            instant: entry.instant,
            octets: Vec::from_slice(alloc, entry.octets)?,
        })
    }

    /// This place once more. It fails only when out of memory.
    pub fn copy(&self, alloc: Global) -> Result<Place, AllocError>
        ensures { IfOk result (λ p. p ≡ self.now) }
    {
        Place::of(alloc, &self.view())
    }

    /// The entry of this place.
    pub fn view(&self) -> EntryView<'_>
        ensures { entry_of result ≡ self.now }
    {
        EntryView {
            instant: self.instant,
            octets: self.octets.as_slice(),
        }
    }

    /// Whether this place is before another.
    pub fn is_below(&self, other: &Place) -> bool
        ensures { IsTrue result ↔ IsBelow self.now other.now }
    {
        match compare(&self.view(), &other.view()) {
            Ordering::Less => true,
            _ => false,
        }
    }

    /// Whether this place is another.
    pub fn is(&self, other: &Place) -> bool
        ensures { IsTrue result ↔ (self.now ≡ other.now) }
    {
        match compare(&self.view(), &other.view()) {
            Ordering::Equal => true,
            _ => false,
        }
    }
}
