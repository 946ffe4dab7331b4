//! Conditions on the records of an archive.

ghost use Rattle.std.specs.Prelude.{◌≡◌, ◌↔◌, None, IsTrue};
ghost use Rattle.archive_text.specs.Entries.{Entry};
ghost use Rattle.archive_text.specs.EntryViews.{entry_of};

use archive_text::EntryView;

/// A condition that each record of an archive meets or does not meet, as its entry tells.
pub trait Condition {
    // the entries that meet it
    ghost meets: { Self → Entry → Type 0 };

    /// Whether the record of an entry meets the condition.
    fn holds(&self, entry: &EntryView<'_>) -> bool
        ensures { IsTrue result ↔ meets self.now (entry_of entry.now) };
}

/// Records without a time.
#[derive(Clone, Copy, Debug, PartialEq, Eq)]
pub struct OnlyUndated;

impl Condition for OnlyUndated {
    ghost meets = { λ _ e. e.instant ≡ None };

    fn holds(&self, entry: &EntryView<'_>) -> bool {
        entry.instant.is_none()
    }
}

/// Records that meet two conditions.
#[derive(Clone, Copy, Debug, PartialEq, Eq)]
pub struct Both<A, B> {
    /// The one condition.
    pub first: A,
    /// The other one.
    pub second: B,
}

impl<A: Condition, B: Condition> Condition for Both<A, B> {
    ghost meets = { λ c e. A.meets c.first e × B.meets c.second e };

    fn holds(&self, entry: &EntryView<'_>) -> bool {
        self.first.holds(entry) && self.second.holds(entry)
    }
}
