//! Entries are read from the text of an archive.

ghost use Rattle.std.specs.Prelude.{◌≡◌, IfOk, MatchResult};
ghost use Rattle.archive_text.specs.Entries.{IsEntry};
ghost use Rattle.archive_text.specs.EntryViews.{entry_of};
ghost use Rattle.archive_text.specs.Faults.{IsCountedFirst, IsCountFault, IsEntryFault, IsFaultBefore};
ghost use Rattle.archive_text.specs.Text.{BeginsWithEntry};

use crate::entry::EntryView;
use crate::fault::{ArchiveFault, EntryFault};
use syslog_frame::{MsgLen, msg_len};
use syslog_grammar::view_and_form;

/// The entry that the octets are, if they are the canonical form of a record. Else the fault says
/// why not.
pub fn entry_of_octets(octets: &[u8]) -> Result<EntryView<'_>, EntryFault>
    ensures entry { IfOk result (λ v. IsEntry (entry_of v) × (v.octets.now ≡ octets.now)) }
    ensures fault { MatchResult result (λ _. Unit {0}) (IsEntryFault octets.now) }
{
    let (seen, is_canonical) = match view_and_form(octets) {
        Ok(read) => read,
        Err(fault) => return Err(EntryFault::Bad(fault)),
    };
    if !is_canonical {
        return Err(EntryFault::NotCanonical);
    }
    Ok(EntryView {
        instant: seen.instant(),
        octets,
    })
}

/// Reads the octets that the count before them numbers, at most `most`, and gives what follows
/// them (RFC 6587, section 3.4.1). Positions of the fault count from the start of this text.
pub fn counted_octets(most: u64, text: &[u8]) -> Result<(&[u8], &[u8]), ArchiveFault>
    ensures { MatchResult result
        (λ x. IsCountedFirst most text.now x.0.now x.1.now)
        (IsCountFault most text.now) }
{
    let (count, used) = match msg_len(text) {
        MsgLen::Whole { count, used } => (count, used),
        MsgLen::Part => return Err(ArchiveFault::BadFrame {
            at: text.len() as u64,
        }),
        MsgLen::Bad { at } => return Err(ArchiveFault::BadFrame { at: at as u64 }),
    };
    if count > most {
        return Err(ArchiveFault::EntryTooLong { at: 0 });
    }
    let (_, behind) = text.split_at(used);
    if count > behind.len() as u64 {
        return Err(ArchiveFault::BadFrame {
            at: text.len() as u64,
        });
    }
    let (octets, rest) = behind.split_at(count as usize);
    Ok((octets, rest))
}

/// Reads the entry of at most `most` octets that a text begins with, and gives what follows it.
/// Positions of the fault count from the start of this text.
pub fn read_entry(most: u64, text: &[u8]) -> Result<(EntryView<'_>, &[u8]), ArchiveFault>
    ensures { MatchResult result
        (λ x. BeginsWithEntry most text.now (entry_of x.0) x.1.now)
        (IsFaultBefore most text.now) }
{
    let (octets, rest) = counted_octets(most, text)?;
    match entry_of_octets(octets) {
        Ok(entry) => Ok((entry, rest)),
        Err(EntryFault::Bad(fault)) => Err(ArchiveFault::BadEntry { at: 0, fault }),
        Err(EntryFault::NotCanonical) => Err(ArchiveFault::NotCanonical { at: 0 }),
    }
}
