//! Laws of digests. Each function does nothing, and its contract is the law.

ghost use Rattle.std.specs.Prelude.{◌≡◌, List};
ghost use Rattle.archive_text.specs.Entries.{Entry};
ghost use Rattle.archive_digest.specs.Digests.{IsDivided, Part};

use archive_text::Period;

/// Entries are divided into periods in one way, so an archive has one digest.
pub fn digests_are_one(period: Period)
    ensures { (xs : List Entry) (ps qs : List Part) → IsDivided period xs ps
        → IsDivided period xs qs → ps ≡ qs }
{}
