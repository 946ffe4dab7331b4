//! Stores that hold the same records.

ghost use Rattle.std.specs.Prelude.{◌≡◌, ℕ, List, Some};
ghost use Rattle.std.specs.Io.KnownBytes.{Appends};
ghost use Rattle.archive_text.specs.Text.{text_of};
ghost use Rattle.archive_laws.specs.Holding.{HoldSame};

use archive_text::Store;

/// Two stores, of one kind or of two, that hold the same records have equal entries, and so equal
/// texts: a `write` of each that succeeds writes the same octets. Stores whose texts are equal hold
/// the same records.
pub fn same_records_have_one_text<S: Store, T: Store>(one: &S, two: &T)
    ensures entries { HoldSame (S.entries one.now) (T.entries two.now)
        → S.entries one.now ≡ T.entries two.now }
    ensures texts { HoldSame (S.entries one.now) (T.entries two.now)
        → text_of (S.entries one.now) ≡ text_of (T.entries two.now) }
    ensures written { HoldSame (S.entries one.now) (T.entries two.now)
        → (before first second : List ℕ)
        → Appends (Some before) (Some first) (text_of (S.entries one.now))
        → Appends (Some before) (Some second) (text_of (T.entries two.now)) → first ≡ second }
    ensures records { text_of (S.entries one.now) ≡ text_of (T.entries two.now)
        → HoldSame (S.entries one.now) (T.entries two.now) }
{}
