//! Entries are counted and hashed, all of them and those of the latest period.

ghost use Rattle.std.specs.Prelude.{◌≡◌, ◌++◌, ◌∷◌, ◌<◌, ◌^◌, ◌↔◌, [], List, length, IsTrue};
ghost use Rattle.archive_text.specs.Entries.{Entry};
ghost use Rattle.archive_text.specs.Text.{text_of};
ghost use Rattle.archive_digest.specs.Sums.{IsSumOf, IsTallyOf};
ghost use Rattle.archive_digest.specs.declared.roots.Roots.{Roots};

use crate::roots::Roots;
use crate::sum::Sum;

/// The sum of all entries, and that of the latest ones.
#[derive(Drop)]
pub struct Tally {
    /// Whether there are to be roots.
    pub roots: Roots,
    /// The sum of all entries.
    pub total: Sum,
    /// That of the entries of the latest period; None while that is all of them, so that those of
    /// the first period are hashed only once.
    pub latest: Option<Sum>,
}

impl Tally {
    /// The tally of no entries.
    pub fn new(roots: Roots) -> Tally
        ensures { IsTallyOf roots result [] [] }
    {
        Tally {
            roots,
            total: Sum::new(roots),
            latest: None,
        }
    }

    /// Adds an entry with these octets.
    pub fn add(&mut self, octets: &[u8])
        ensures { (roots : Roots) (xs latest : List Entry) (e : Entry) → e.octets ≡ octets.now
            → length (text_of (xs ++ e ∷ [])) < 2 ^ 64
            → length (text_of (latest ++ e ∷ [])) < 2 ^ 64 → IsTallyOf roots self.old xs latest
            → IsTallyOf roots self.new (xs ++ e ∷ []) (latest ++ e ∷ []) }
    {
        self.total.add(octets);
        if let Some(sum) = &mut self.latest {
            sum.add(octets);
        }
    }

    /// Begins a new period: from now on the latest entries are others.
    pub fn begin(&mut self)
        ensures { (roots : Roots) (xs latest : List Entry) → IsTallyOf roots self.old xs latest
            → IsTallyOf roots self.new xs [] }
    {
        self.latest = Some(Sum::new(self.roots));
    }

    /// Whether there are no entries.
    pub fn is_empty(&self) -> bool
        ensures { (roots : Roots) (xs latest : List Entry) → IsTallyOf roots self.now xs latest
            → (IsTrue result ↔ (xs ≡ [])) }
    {
        self.total.records == 0
    }

    /// The sum of the latest entries.
    pub fn latest(&self) -> &Sum
        ensures { (roots : Roots) (xs latest : List Entry) → IsTallyOf roots self.now xs latest
            → IsSumOf roots result.now latest }
    {
        match &self.latest {
            None => &self.total,
            Some(sum) => sum,
        }
    }
}
