//! Every text is that of a set, or has a fault.

ghost use Rattle.std.specs.Prelude.{◌+◌, ◌<◌, ◌≡◌, ◌++◌, ◌∷◌, ◌^◌, [], ℤ, List, length};
ghost use Rattle.std.specs.Prelude.{IsTrue, MatchOption, MatchResult};
ghost use Rattle.syslog_value.specs.Parts.{Parts};
ghost use Rattle.archive_text.specs.Entries.{Entry, IsAscending};
ghost use Rattle.archive_text.specs.EntryViews.{entry_of};
ghost use Rattle.archive_text.specs.Faults.{IsArchiveFault};
ghost use Rattle.archive_text.specs.Sets.{ArchiveText};
ghost use Rattle.archive_laws.specs.Judging.{IsLast, IsRead};

use archive_text::{ArchiveFault, ENTRY_MAX, EntryView, compare, read_entry};
use std::cmp::Ordering;

/// Whether an entry comes behind ascending entries, of which this is the last.
fn goes_on(last: &Option<EntryView<'_>>, entry: &EntryView<'_>) -> bool
    ensures above { IsTrue result → (es : List Entry) → IsLast es last.now → IsAscending es
        → IsAscending (es ++ entry_of entry.now ∷ []) }
    ensures not_above { (IsTrue result → ⊥) → (es : List Entry) → IsLast es last.now
        → IsAscending es → ¬ (IsAscending (es ++ entry_of entry.now ∷ [])) }
{
    let Some(last) = last else {
        return true;
    };
    match compare(last, entry) {
        Ordering::Less => true,
        Ordering::Equal => false,
        Ordering::Greater => false,
    }
}

/// Reads one more entry behind those that were read, and gives it and what is left.
fn read_on<'a>(
    text: &'a [u8],
    rest: &'a [u8],
    last: &Option<EntryView<'a>>,
) -> Result<(EntryView<'a>, &'a [u8]), ArchiveFault>
    requires read { IsRead ENTRY_MAX text.now rest.now last.now }
    requires some { 0 < length rest.now }
    ensures read { MatchResult result (λ x. IsRead ENTRY_MAX text.now x.1.now (Some x.0))
        (IsArchiveFault ENTRY_MAX text.now) }
    ensures shorter { MatchResult result (λ x. length x.1.now < length rest.now) (λ _. Unit {0}) }
{
    let at = (text.len() - rest.len()) as u64;
    let (entry, behind) = match read_entry(ENTRY_MAX as u64, rest) {
        Ok(read) => read,
        Err(fault) => return Err(fault.later(at)),
    };
    if !goes_on(last, &entry) {
        return Err(ArchiveFault::NotAscending { at });
    }
    Ok((entry, behind))
}

/// The fault of a text, or None: then it is the text of a set.
pub fn archive_or_fault(text: &[u8]) -> Option<ArchiveFault>
    ensures { MatchOption result ((rs : List (Parts ℤ)) × ArchiveText ENTRY_MAX rs text.now)
        (IsArchiveFault ENTRY_MAX text.now) }
{
    let mut rest = text;
    let mut last: Option<EntryView<'_>> = None;
    while !rest.is_empty() {
        match read_on(text, rest, &last) {
            Ok((entry, behind)) => {
                last = Some(entry);
                rest = behind;
            }
            Err(fault) => return Some(fault),
        }
    }
    None
}
