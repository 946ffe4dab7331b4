//! A sorted archive is like any store.

ghost use Rattle.std.specs.Prelude.{◌≡◌};
ghost use Rattle.archive_text.specs.Text.{text_of};
ghost use Rattle.archive_laws.specs.Holding.{HoldSame};
ghost use Rattle.archive_sorting.specs.Records.{entries_in};

use crate::sorted::SortedArchive;
use archive_text::Store;

/// A sorted archive and a store, of whatever kind, that hold the same records have equal entries, and
/// so equal texts.
pub fn sorted_like_a_store<S: Store>(sorted: &SortedArchive, store: &S)
    ensures entries { HoldSame (entries_in sorted.now) (S.entries store.now)
        → entries_in sorted.now ≡ S.entries store.now }
    ensures texts { HoldSame (entries_in sorted.now) (S.entries store.now)
        → text_of (entries_in sorted.now) ≡ text_of (S.entries store.now) }
    ensures records { entries_in sorted.now ≡ S.entries store.now
        → HoldSame (entries_in sorted.now) (S.entries store.now) }
{}
