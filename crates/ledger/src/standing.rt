//! The segments that a ledger lists.

ghost use Rattle.std.specs.Prelude.{◌≡◌};
ghost use Rattle.ledger.specs.Lines.{said_of};

use crate::entry::LedgerEntry;
use crate::listing::listed_behind;
use std::alloc::{AllocError, Global};
use std::collections::BTreeMap;
use std::collections::btree_map::Iter;

/// What a ledger lists of a segment.
#[derive(Clone, Copy, Debug, PartialEq, Eq)]
pub struct Listed {
    /// How many records it has.
    pub count: u64,
    /// How many octets it has.
    pub octets: u64,
    /// The number of the line that lists it.
    pub line: u64,
    /// Whether it was sealed.
    pub sealed: bool,
}

/// The segments that a ledger lists, by their names: added, joined or sealed, and not gone since.
#[derive(Drop)]
pub struct Standing {
    segments: BTreeMap<Vec<u8>, Listed>,
    alloc: Global,
}

impl Standing {
    ghost use Rattle.std.specs.Prelude.{◌≢◌, ◌↔◌, List, [], ℕ, None, Some, IfOk, IsTrue, OnErr, OnOk, filter, length};
    ghost use Rattle.std.specs.Prelude.{not, option_copied};
    ghost use Rattle.std.specs.List.{All, Any};
    ghost use Rattle.std.specs.Option.{is_some};
    ghost use Rattle.ledger.specs.Standings.{ListsSame, TakesLine, listed_at};

    /// No segments.
    pub fn new(alloc: Global) -> Standing
        ensures { (name : List ℕ) → listed_at result name ≡ None }
    {
        Standing {
            segments: BTreeMap::new(alloc),
            alloc,
        }
    }

    /// What is listed of the segment with a name, if it is listed.
    pub fn find(&self, name: &[u8]) -> Option<&Listed>
        ensures { option_copied result ≡ listed_at self.now name.now }
    {
        self.segments.get(name)
    }

    /// Whether the segment with a name is listed.
    pub fn lists(&self, name: &[u8]) -> bool
        ensures { result ≡ is_some (listed_at self.now name.now) }
    {
        self.segments.contains_key(name)
    }

    /// The names of the segments that are listed, in ascending order, and what is listed of each.
    pub fn listed(&self) -> Iter<'_, Vec<u8>, Listed>
        ensures entries { result ≡ self.now.segments.entries }
        ensures listed { All (λ e. listed_at self.now e.0.items ≡ Some e.1) self.now.segments.entries }
    {
        self.segments.iter()
    }

    /// How many segments are listed.
    pub fn len(&self) -> usize
        ensures { result ≡ length self.now.segments.entries }
    {
        self.segments.len()
    }

    /// Whether no segment is listed.
    pub fn is_empty(&self) -> bool
        ensures { IsTrue result ↔ (self.now.segments.entries ≡ []) }
    {
        self.segments.is_empty()
    }

    /// Takes what the line with a number says.
    pub fn take(&mut self, number: u64, entry: &LedgerEntry<'_>) -> Result<(), AllocError>
        ensures ok { OnOk result (TakesLine self.old self.new number (said_of entry.now)) }
        ensures err { OnErr result (ListsSame self.old self.new) }
    {
        let before = self.segments.get(entry.name).copied();
        let Some(listed) = listed_behind(before, number, entry) else {
            let _gone = self.segments.remove(entry.name);
            return Ok(());
        };
        self.segments
            .insert(Vec::from_slice(self.alloc, entry.name)?, listed)?;
        Ok(())
    }

    /// What is left without the segments that have these names: given the names that a folder has, the
    /// listed segments that it lacks.
    pub fn missing(mut self, names: &[&[u8]]) -> Standing
        ensures there { (name : List ℕ) → Any (λ other. other.now ≡ name) names.now
            → listed_at result name ≡ None }
        ensures missing { (name : List ℕ) → All (λ other. other.now ≢ name) names.now
            → listed_at result name ≡ listed_at self name }
    {
        for name in names {
            let _there = self.segments.remove(*name);
        }
        self
    }

    /// Which of some names are not listed.
    pub fn unlisted<'n>(
        &self,
        alloc: Global,
        names: &[&'n [u8]],
    ) -> Result<Vec<&'n [u8]>, AllocError>
        ensures { IfOk result (λ v. v.items
            ≡ filter (λ name. not (is_some (listed_at self.now name.now))) names.now) }
    {
        names
            .iter()
            .copied()
            .filter(|name| !self.lists(*name))
            .collect(alloc)
    }
}
