//! An old archive is migrated.

ghost use Rattle.std.specs.Prelude.{◌≡◌, ◌<◌, ◌≤◌, ◌+◌, ◌^◌, ◌↔◌, length, IfErr, IfOk, IsTrue, OnOk};
ghost use Rattle.archive_text.specs.EntryViews.{entry_of};
ghost use Rattle.archive_migration.specs.Migration.{AddsNew, Migrates};
ghost use Rattle.archive_migration.specs.OldEntries.{IsOldEntry};
ghost use Rattle.archive_migration.specs.OldTexts.{BeginsWithOldEntry};
ghost use Rattle.archive_migration.specs.Reading.{IsAboveLast, IsFaultAfter, IsMigrateFault, ShowsIt, old_entry_of};

use crate::old_entry::{OldEntry, read_old_entry};
use archive_text::{AddFault, ArchiveFault, ENTRY_MAX, EntryView, Store, compare};
use archive_vec::ReadFault;
use std::alloc::{AllocError, Global};
use std::cmp::Ordering;

/// Whether an entry is above the last one, if there is one.
fn is_above(last: &Option<EntryView<'_>>, entry: &EntryView<'_>) -> bool
    ensures { IsTrue result ↔ IsAboveLast last.now (entry_of entry.now) }
{
    match last {
        None => true,
        Some(last) => match compare(last, entry) {
            Ordering::Less => true,
            _ => false,
        },
    }
}

/// Reads the old entry that the rest of a text begins with, which must be above the last one, and
/// gives what follows it. The rest begins `offset` octets behind the start of the text.
fn next_old<'a>(
    rest: &'a [u8],
    offset: u64,
    last: &Option<EntryView<'_>>,
) -> Result<(OldEntry<'a>, &'a [u8]), ArchiveFault>
    requires { offset + length rest.now < 2 ^ 64 }
    ensures entry { IfOk result (λ x.
        BeginsWithOldEntry ENTRY_MAX rest.now (old_entry_of x.0) x.1.now) }
    ensures above { IfOk result (λ x. IsAboveLast last.now (old_entry_of x.0)) }
    ensures view { IfOk result (λ x. ShowsIt x.0) }
    ensures fault { IfErr result (IsFaultAfter last.now offset rest.now) }
{
    let (old, behind) = match read_old_entry(ENTRY_MAX as u64, rest) {
        Ok(read) => read,
        Err(fault) => return Err(fault.later(offset)),
    };
    if !is_above(last, &old.entry) {
        return Err(ArchiveFault::NotAscending { at: offset });
    }
    Ok((old, behind))
}

/// Adds the record of an old entry. Its new canonical octets are as many as the old ones, so there
/// are never too many of them.
fn add_old<S: Store>(alloc: Global, store: &mut S, old: &OldEntry<'_>) -> Result<(), AllocError>
    requires entry { IsOldEntry (old_entry_of old.now) }
    requires fits { length old.now.entry.octets.now ≤ ENTRY_MAX }
    requires view { ShowsIt old.now }
    ensures { OnOk result (AddsNew (old_entry_of old.now)
        (S.entries store.old) (S.entries store.new)) }
{
    match store.add_view(alloc, &old.view) {
        Ok(_) => Ok(()),
        Err(AddFault::Memory) => Err(AllocError),
        Err(AddFault::TooLong) => unreachable!(),
    }
}

/// Reads an old archive and adds each of its records, with the elements by id, to a store. If the
/// store held none, its text is then the migrated archive.
///
/// After a fault the store may hold some of the records besides those that it held.
///
/// # Errors
///
/// The fault of the text, by the rules of old archives, or that an allocation failed.
pub fn migrate_into<S: Store>(alloc: Global, text: &[u8], store: &mut S) -> Result<(), ReadFault>
    ensures ok { OnOk result (Migrates text.now (S.entries store.old) (S.entries store.new)) }
    ensures err { IfErr result (IsMigrateFault text.now) }
{
    let mut rest = text;
    let mut last = None;
    while !rest.is_empty() {
        let offset = (text.len() - rest.len()) as u64;
        let (old, behind) = match next_old(rest, offset, &last) {
            Ok(read) => read,
            Err(fault) => return Err(ReadFault::Bad(fault)),
        };
        if add_old(alloc, store, &old).is_err() {
            return Err(ReadFault::Memory);
        }
        last = Some(old.entry);
        rest = behind;
    }
    Ok(())
}
