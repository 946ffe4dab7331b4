//! The entries of journals.
ghost use Rattle.std.specs.Prelude.{◌≡◌, ◌≢◌, ◌≤◌, ◌↔◌, ◌++◌, [], IfErr, IfOk, IsTrue, List, ℕ, OnOk, length};
ghost use Rattle.archive_text.specs.Entries.{IsEntry};
ghost use Rattle.archive_text.specs.EntryViews.{entry_of};
ghost use Rattle.record_store.specs.Holdings.{BatchHas, IsReadable, IsSealedBatch, IsWholeJournal, JournalHas};
ghost use Rattle.record_store.specs.Names.{IsJournal};
ghost use Rattle.record_store.specs.Seals.{Seals};
ghost use Rattle.store_reading.specs.Causes.{IsCause, file_causes};
ghost use Rattle.store_reading.specs.Damages.{AreReadable, IsDamagedBatch, IsDamagedJournal, IsFirstFault};
ghost use Rattle.store_reading.specs.Damages.{IsOtherSeal, Tells};
ghost use Rattle.store_reading.specs.Journals.{Adds, AddsFirst, HasAsJournal, IsJournalFile};
ghost use Rattle.store_reading.specs.Sources.{set_entries};
ghost use Rattle.store_reading.specs.Whole.{IsWholeJournalAt};

use crate::fault::{CheckFault, FileFault, ReadFault};
use crate::folder::Folder;
use crate::journal_file::{JournalFile, first_batch, read_journal};
use crate::names::is_journal;
use archive_pages::PagedArchive;
use archive_text::{AddFault, ArchiveFault, ENTRY_MAX, EntryView, Store, read_entry};
use disk::FileName;
use record_store::{JournalDamage, has_entry, seals};
use std::alloc::Global;
use syslog_grammar::view;

/// Adds an entry to a set.
pub(crate) fn add_entry(
    alloc: Global,
    set: &mut PagedArchive,
    entry: &EntryView<'_>,
) -> Result<(), CheckFault>
    requires entry { IsEntry (entry_of entry.now) }
    requires fits { length entry.now.octets.now ≤ ENTRY_MAX }
    ensures adds { OnOk result (Adds (set_entries set.old)
        (set_entries set.new) (λ e. entry_of entry.now ≡ e)) }
    ensures memory { IfErr result (λ fault. fault ≡ CheckFault.Memory) }
{
    let Ok(shown) = view(entry.octets) else {
        return Err(CheckFault::Damaged(FileFault::Archive(ArchiveFault::NotCanonical { at: 0 })));
    };
    match set.add_view(alloc, &shown) {
        Ok(_) => Ok(()),
        Err(AddFault::TooLong) => Err(CheckFault::Damaged(FileFault::Archive(
            ArchiveFault::EntryTooLong { at: 0 },
        ))),
        Err(AddFault::Memory) => Err(CheckFault::Memory),
    }
}

// Adds the entry that a text begins with, and gives what is behind it. A fault counts from `at`.
fn add_first<'a>(
    alloc: Global,
    set: &mut PagedArchive,
    text: &'a [u8],
    at: u64,
) -> Result<&'a [u8], CheckFault>
    ensures adds { IfOk result (λ behind. AddsFirst text.now behind.now (set_entries set.old)
        (set_entries set.new)) }
    ensures damaged { IfErr result (λ fault. Tells fault (IsFirstFault text.now at)) }
{
    match read_entry(ENTRY_MAX as u64, text) {
        Ok((entry, behind)) => {
            add_entry(alloc, set, &entry)?;
            Ok(behind)
        }
        Err(fault) => Err(CheckFault::Damaged(FileFault::Journal(JournalDamage::Archive(fault.later(
            at,
        ))))),
    }
}

// Whether the rest of a batch is the seal of the text before it, or nothing; and which of them. The batch
// begins at an offset of its journal.
fn check_seal(body: &[u8], rest: &[u8], offset: u64) -> Result<bool, CheckFault>
    ensures sealed { OnOk result ((text : List ℕ) → body.now ≡ text ++ rest.now
        → Seals text rest.now) }
    ensures some { IfOk result (λ some. IsTrue some ↔ (rest.now ≢ [])) }
    ensures damaged { IfErr result (λ fault. (text : List ℕ) → body.now ≡ text ++ rest.now
        → Tells fault (IsOtherSeal text rest.now offset)) }
{
    let (text, behind) = body.split_at(body.len().saturating_sub(rest.len()));
    if seals(text, behind) {
        return Ok(!rest.is_empty());
    }
    let at = offset.saturating_add(text.len() as u64);
    Err(CheckFault::Damaged(FileFault::Journal(JournalDamage::Checksum { at })))
}

// Adds the entries of a batch, which begins at an offset of its journal, and gives whether it has its
// seal.
fn add_batch(
    alloc: Global,
    set: &mut PagedArchive,
    body: &[u8],
    offset: u64,
) -> Result<bool, CheckFault>
    ensures adds { OnOk result (Adds (set_entries set.old) (set_entries set.new) (BatchHas body.now)) }
    ensures whole { OnOk result (IsReadable body.now) }
    ensures sealed { IfOk result (λ sealed. IsTrue sealed ↔ IsSealedBatch body.now) }
    ensures damaged { IfErr result (λ fault. Tells fault (IsDamagedBatch body.now offset)) }
{
    let mut rest = body;
    'entries: while has_entry(rest) {
        let read = (body.len() as u64).saturating_sub(rest.len() as u64);
        rest = add_first(alloc, set, rest, offset.saturating_add(read))?;
    }
    check_seal(body, rest, offset)
}

// Adds the entries of all batches of a journal.
fn add_batches(alloc: Global, set: &mut PagedArchive, file: &[u8]) -> Result<(), CheckFault>
    ensures adds { OnOk result (Adds (set_entries set.old) (set_entries set.new) (JournalHas file.now)) }
    ensures readable { OnOk result (AreReadable file.now) }
    ensures damaged { IfErr result (λ fault. Tells fault (IsDamagedJournal file.now)) }
{
    let mut rest = file;
    let mut has_seals = false;
    'batches: while let Some((body, behind)) = first_batch(rest) {
        let end = (file.len() as u64).saturating_sub(behind.len() as u64);
        let sealed = add_batch(alloc, set, body, end.saturating_sub(body.len() as u64))?;
        if has_seals && !sealed {
            let fault = JournalDamage::Checksum { at: end };
            return Err(CheckFault::Damaged(FileFault::Journal(fault)));
        }
        has_seals = sealed;
        rest = behind;
    }
    Ok(())
}

// Adds the entries of a journal that was read.
fn add_read(alloc: Global, set: &mut PagedArchive, journal: &JournalFile) -> Result<(), CheckFault>
    ensures adds { OnOk result ((file : List ℕ) → IsJournalFile journal.now file
        → Adds (set_entries set.old) (set_entries set.new) (JournalHas file)) }
    ensures whole { OnOk result ((file : List ℕ) → IsJournalFile journal.now file
        → IsWholeJournal file) }
    ensures damaged { IfErr result (λ fault. (file : List ℕ) → IsJournalFile journal.now file
        → Tells fault (IsDamagedJournal file)) }
{
    match journal {
        JournalFile::Octets(octets) => add_batches(alloc, set, octets),
        JournalFile::Hidden { at } => Err(CheckFault::Damaged(FileFault::Journal(
            JournalDamage::Hidden { at: *at },
        ))),
    }
}

/// Whether a journal that was read is whole: each of its batches is a sequence of entries and their seal,
/// or entries alone, as older programs wrote it, before all that have a seal; and behind them nothing
/// hides others.
///
/// # Errors
/// The first fault, and where it is; or lack of memory.
pub fn check_journal(alloc: Global, journal: &JournalFile) -> Result<(), CheckFault>
    ensures whole { OnOk result ((file : List ℕ) → IsJournalFile journal.now file
        → IsWholeJournal file) }
    ensures damaged { IfErr result (λ fault. (file : List ℕ) → IsJournalFile journal.now file
        → Tells fault (IsDamagedJournal file)) }
{
    let mut set = PagedArchive::new(alloc);
    add_read(alloc, &mut set, journal)
}

/// Adds the entries of the file of a name, where that is a journal.
pub(crate) fn add_journal<F: Folder>(
    alloc: Global,
    folder: &mut F,
    name: &FileName,
    set: &mut PagedArchive,
) -> Result<(), ReadFault>
    ensures adds { OnOk result (F.tells folder.new → Adds (set_entries set.old)
        (set_entries set.new) (HasAsJournal (F.files folder.old) name.now)) }
    ensures whole { OnOk result (F.tells folder.new
        → IsWholeJournalAt (F.files folder.old) name.now) }
    ensures same { F.tells folder.new → F.files folder.new ≡ F.files folder.old }
    ensures told { F.tells folder.new → F.tells folder.old }
    ensures cause { IfErr result (IsCause (file_causes (F.tells folder.new) (F.has_failed folder.new)
        (F.files folder.old) (λ (n : List ℕ). (n ≡ name.now) × IsJournal n) (λ _. IsDamagedJournal))) }
{
    if !is_journal(name.as_octets()) {
        return Ok(());
    }
    let journal = read_journal(alloc, folder, name)?;
    match add_read(alloc, set, &journal) {
        Ok(()) => Ok(()),
        Err(fault) => Err(fault.of(name.copy(alloc)?)),
    }
}
