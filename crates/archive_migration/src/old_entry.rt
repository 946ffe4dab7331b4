//! Old entries are read from the text of an old archive.

ghost use Rattle.std.specs.Prelude.{◌≡◌, IfOk, MatchResult};
ghost use Rattle.archive_migration.specs.OldEntries.{IsOldEntry};
ghost use Rattle.archive_migration.specs.OldFaults.{IsOldEntryFault, IsOldFaultBefore};
ghost use Rattle.archive_migration.specs.OldTexts.{BeginsWithOldEntry};
ghost use Rattle.archive_migration.specs.Reading.{ShowsIt, old_entry_of};

use archive_text::{ArchiveFault, EntryFault, EntryView, counted_octets};
use syslog_grammar::{RecordView, is_canon_unsorted, view};

/// An entry of an old archive, as it lies in octets.
#[derive(Clone, Copy, Debug, PartialEq, Eq)]
pub struct OldEntry<'a> {
    /// The entry, by the old form.
    pub entry: EntryView<'a>,
    /// What a view of its octets shows.
    pub view: RecordView<'a>,
}

/// The old entry that the octets are, if they are the canonical form of a record with its elements
/// in any order. Else the fault says why not.
pub fn old_entry_of_octets(octets: &[u8]) -> Result<OldEntry<'_>, EntryFault>
    ensures entry { IfOk result (λ old. IsOldEntry (old_entry_of old)) }
    ensures octets { IfOk result (λ old. old.entry.octets.now ≡ octets.now) }
    ensures view { IfOk result ShowsIt }
    ensures fault { MatchResult result (λ _. Unit {0}) (IsOldEntryFault octets.now) }
{
    let seen = match view(octets) {
        Ok(seen) => seen,
        Err(fault) => return Err(EntryFault::Bad(fault)),
    };
    if !is_canon_unsorted(octets) {
        return Err(EntryFault::NotCanonical);
    }
    let entry = EntryView {
        instant: seen.instant(),
        octets,
    };
    Ok(OldEntry { entry, view: seen })
}

/// Reads the old entry of at most `most` octets that a text begins with, and gives what follows it.
/// Positions of the fault count from the start of this text.
pub fn read_old_entry(most: u64, text: &[u8]) -> Result<(OldEntry<'_>, &[u8]), ArchiveFault>
    ensures entry { MatchResult result
        (λ x. BeginsWithOldEntry most text.now (old_entry_of x.0) x.1.now)
        (IsOldFaultBefore most text.now) }
    ensures view { IfOk result (λ x. ShowsIt x.0) }
{
    let (octets, rest) = counted_octets(most, text)?;
    match old_entry_of_octets(octets) {
        Ok(entry) => Ok((entry, rest)),
        Err(EntryFault::Bad(fault)) => Err(ArchiveFault::BadEntry { at: 0, fault }),
        Err(EntryFault::NotCanonical) => Err(ArchiveFault::NotCanonical { at: 0 }),
    }
}
