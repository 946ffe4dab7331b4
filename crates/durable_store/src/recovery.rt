//! The entries of the journals' batches are brought into memory.
ghost use Rattle.std.specs.Prelude.{◌≡◌, ◌≤◌, ◌<◌, ◌^◌, ◌++◌, ◌↔◌, IfErr, IfNone, IfOk, IfSome, IsTrue, List, OnOk};
ghost use Rattle.std.specs.Prelude.{Some, length, ℕ};
ghost use Rattle.disk.specs.Calls.{IsUnchanged};
ghost use Rattle.journal.specs.Batches.{IsBody, IsClosed, open_batch};
ghost use Rattle.journal.specs.Journals.{EndsAt, IsSound};
ghost use Rattle.archive_pages.specs.Paged.{entries_in};
ghost use Rattle.archive_text.specs.Entries.{IsEntry};
ghost use Rattle.archive_text.specs.EntryViews.{entry_of};
ghost use Rattle.record_store.specs.Holdings.{BatchHas, IsReadable, IsSealedBatch, IsWholeJournal, JournalHas};
ghost use Rattle.record_store.specs.Shown.{journal_shown};
ghost use Rattle.durable_store.specs.Asides.{AddsJournal, AreTails};
ghost use Rattle.durable_store.specs.Causes.{IsOpeningCause, IsReadingCause};
ghost use Rattle.durable_store.specs.Recovery.{Adds, AddsFirst, BeginsWithSome, IsRecovered};
ghost use Rattle.durable_store.specs.Recovery.{Refutes};

use crate::fault::OpenFault;
use crate::tail::Tail;
use archive_pages::PagedArchive;
use archive_text::{AddFault, ArchiveFault, ENTRY_MAX, EntryView, Store, read_entry};
use disk::Disk;
use journal::batch_len;
use record_store::{JournalDamage, has_entry, hides_batches, journals, read_journal, seals};
use std::alloc::Global;
use syslog_grammar::view;

// the octets before those of a batch
const HEAD: usize = 5;

// Adds an entry to the set; `at` is where it is.
fn add_entry(
    alloc: Global,
    set: &mut PagedArchive,
    entry: &EntryView<'_>,
    number: u64,
    at: u64,
) -> Result<(), OpenFault>
    requires { IsEntry (entry_of entry.now) }
    ensures adds { OnOk result (Adds (entries_in set.old) (entries_in set.new) (λ e. entry_of entry.now ≡ e)) }
    ensures fault { IfErr result (Refutes number (length entry.now.octets.now ≤ ENTRY_MAX)) }
{
    let Ok(shown) = view(entry.octets) else {
        let fault = JournalDamage::Archive(ArchiveFault::NotCanonical { at });
        return Err(OpenFault::Damaged { number, fault });
    };
    match set.add_view(alloc, &shown) {
        Ok(_) => Ok(()),
        Err(AddFault::TooLong) => {
            let fault = JournalDamage::Archive(ArchiveFault::EntryTooLong { at });
            Err(OpenFault::Damaged { number, fault })
        }
        Err(AddFault::Memory) => Err(OpenFault::Memory),
    }
}

// Adds the entry that a text begins with, and gives what is behind it. A fault counts from `at`.
fn add_first<'a>(
    alloc: Global,
    set: &mut PagedArchive,
    text: &'a [u8],
    number: u64,
    at: u64,
) -> Result<&'a [u8], OpenFault>
    ensures adds { IfOk result (λ behind. AddsFirst text.now behind.now (entries_in set.old)
        (entries_in set.new)) }
    ensures fault { IfErr result (Refutes number (BeginsWithSome text.now)) }
{
    match read_entry(ENTRY_MAX as u64, text) {
        Ok((entry, behind)) => {
            add_entry(alloc, set, &entry, number, at)?;
            Ok(behind)
        }
        Err(fault) => {
            let fault = JournalDamage::Archive(fault.later(at));
            Err(OpenFault::Damaged { number, fault })
        }
    }
}

// Adds the entries of a batch, which begins at an offset of its journal, and gives whether it has its
// seal.
fn add_batch(
    alloc: Global,
    set: &mut PagedArchive,
    body: &[u8],
    number: u64,
    offset: u64,
) -> Result<bool, OpenFault>
    ensures adds { OnOk result (Adds (entries_in set.old) (entries_in set.new) (BatchHas body.now)) }
    ensures whole { OnOk result (IsReadable body.now) }
    ensures sealed { IfOk result (λ sealed. IsTrue sealed ↔ IsSealedBatch body.now) }
    ensures fault { IfErr result (Refutes number (IsReadable body.now)) }
{
    let mut rest = body;
    'entries: while has_entry(rest) {
        let read = (body.len() as u64).saturating_sub(rest.len() as u64);
        rest = add_first(alloc, set, rest, number, offset.saturating_add(read))?;
    }
    let read = body.len().saturating_sub(rest.len());
    let (text, _) = body.split_at(read);
    if seals(text, rest) {
        return Ok(!rest.is_empty());
    }
    let at = offset.saturating_add(read as u64);
    let fault = JournalDamage::Checksum { at };
    Err(OpenFault::Damaged { number, fault })
}

// The first batch, and what is behind it.
fn first_batch(octets: &[u8]) -> Option<(&[u8], &[u8])>
    ensures some { IfSome result (λ r. IsBody r.0.now
        × (octets.now ≡ open_batch r.0.now ++ r.1.now)) }
    ensures none { IfNone result (IsClosed octets.now) }
{
    let len = batch_len(octets)?;
    let (_, behind) = octets.split_at(HEAD);
    Some(behind.split_at(len))
}

// Adds the entries of all batches of the journal with this number, and gives where these end.
fn add_batches(
    alloc: Global,
    set: &mut PagedArchive,
    file: &[u8],
    number: u64,
) -> Result<usize, OpenFault>
    ensures adds { OnOk result (Adds (entries_in set.old) (entries_in set.new) (JournalHas file.now)) }
    ensures whole { OnOk result (IsWholeJournal file.now) }
    ensures within { IfOk result (λ end. end ≤ length file.now) }
    ensures ends { IfOk result (λ end. (bodies : List (List ℕ)) × EndsAt file.now bodies end) }
    ensures fault { IfErr result (Refutes number (IsWholeJournal file.now)) }
{
    let mut rest = file;
    let mut has_seals = false;
    'batches: while let Some((body, behind)) = first_batch(rest) {
        let end = (file.len() as u64).saturating_sub(behind.len() as u64);
        let offset = end.saturating_sub(body.len() as u64);
        let sealed = add_batch(alloc, set, body, number, offset)?;
        if has_seals && !sealed {
            let fault = JournalDamage::Checksum { at: end };
            return Err(OpenFault::Damaged { number, fault });
        }
        has_seals = sealed;
        rest = behind;
    }
    let end = file.len().saturating_sub(rest.len());
    if hides_batches(rest) {
        let fault = JournalDamage::Hidden { at: end as u64 };
        return Err(OpenFault::Damaged { number, fault });
    }
    Ok(end)
}

// Adds the entries of the journal with a number, and what is behind its batches.
fn add_journal<D: Disk>(
    alloc: Global,
    disk: &mut D,
    set: &mut PagedArchive,
    tails: &mut Vec<Tail>,
    number: u64,
) -> Result<(), OpenFault>
    ensures adds { OnOk result (D.tells disk.new → IsSound (D.state disk.old) → (octets : List ℕ)
        → journal_shown (D.state disk.old) number ≡ Some octets
        → AddsJournal (entries_in set.old) (entries_in set.new) tails.old.items tails.new.items number octets) }
    ensures same { D.tells disk.new → IsUnchanged (D.state disk.old) (D.state disk.new) }
    ensures told { D.tells disk.new → D.tells disk.old }
    ensures cause { IfErr result (IsReadingCause (D.tells disk.new) (D.has_failed disk.new)
        (D.state disk.old) number) }
{
    let octets = read_journal(alloc, disk, number)?;
    let end = add_batches(alloc, set, &octets, number)?;
    let (_, behind) = octets.split_at(end);
    if behind.len() <= 1 {
        return Ok(());
    }
    let octets = behind.to_vec(alloc)?;
    match tails.push(Tail { number, octets }) {
        Ok(()) => Ok(()),
        Err(_) => Err(OpenFault::Memory),
    }
}

/// Brings the entries of all journals that a read shows into memory, the oldest first, and gives what is
/// behind their batches. It changes nothing.
pub(crate) fn recover<D: Disk>(
    alloc: Global,
    disk: &mut D,
) -> Result<(PagedArchive, Vec<Tail>), OpenFault>
    ensures recovered { IfOk result (λ r. D.tells disk.new → IsSound (D.state disk.old)
        → IsRecovered (D.state disk.old) (entries_in r.0)) }
    ensures tails { IfOk result (λ r. D.tells disk.new → IsSound (D.state disk.old)
        → AreTails (D.state disk.old) r.1.items) }
    ensures same { D.tells disk.new → IsUnchanged (D.state disk.old) (D.state disk.new) }
    ensures told { D.tells disk.new → D.tells disk.old }
    ensures cause { IfErr result (IsOpeningCause (D.tells disk.new) (D.has_failed disk.new)
        (D.state disk.old)) }
{
    let mut set = PagedArchive::new(alloc);
    let mut tails = Vec::new(alloc);
    let numbers = journals(alloc, disk, u64::MAX)?;
    for number in &numbers {
        add_journal(alloc, disk, &mut set, &mut tails, *number)?;
    }
    Ok((set, tails))
}

/// Reads all journals whole, as an opening does, so that damage is told before anything else is done with
/// them. It changes nothing.
///
/// # Errors
/// Those of [`DurableStore::open`](crate::DurableStore::open).
pub fn check_journals<D: Disk>(alloc: Global, disk: &mut D) -> Result<(), OpenFault>
    ensures whole { OnOk result (D.tells disk.new → IsSound (D.state disk.old)
        → (number : ℕ) (octets : List ℕ) → number < 2 ^ 64
        → journal_shown (D.state disk.old) number ≡ Some octets → IsWholeJournal octets) }
    ensures same { D.tells disk.new → IsUnchanged (D.state disk.old) (D.state disk.new) }
    ensures told { D.tells disk.new → D.tells disk.old }
    ensures cause { IfErr result (IsOpeningCause (D.tells disk.new) (D.has_failed disk.new)
        (D.state disk.old)) }
{
    let _recovered = recover(alloc, disk)?;
    Ok(())
}
