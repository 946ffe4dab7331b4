//! What is read into memory: the entries of journals, and those of mixed segments.
ghost use Rattle.std.specs.Prelude.{◌≡◌, ◌≤◌, IfErr, IfOk, IfSome, IsSome, List, ℕ, OnOk, codes, length};
ghost use Rattle.archive_text.specs.Entries.{IsEntry};
ghost use Rattle.archive_text.specs.EntryViews.{entry_of};
ghost use Rattle.archive_text.specs.Text.{IsArchive, text_of};
ghost use Rattle.archive_join.specs.Ranges.{IsOfRange};
ghost use Rattle.record_store.specs.Names.{IsSegment};
ghost use Rattle.store_reading.specs.Causes.{IsCause, IsDamagedInMemory, IsListedInMemory, IsOfMemoryName};
ghost use Rattle.store_reading.specs.Causes.{file_causes};
ghost use Rattle.store_reading.specs.Damages.{IsDamagedArchive, IsDamagedSegment, OfLeft, Tells};
ghost use Rattle.store_reading.specs.Folders.{AreNamesOf};
ghost use Rattle.store_reading.specs.Journals.{Adds, AddsMixed, HasAsMixed, HasInMemory, IsOfMemory, NamedMemoryHas};
ghost use Rattle.store_reading.specs.Segments.{IsHashed};
ghost use Rattle.store_reading.specs.Sources.{set_entries};
ghost use Rattle.store_reading.specs.Whole.{IsWholeInMemory, IsWholeSegment, IsWholeSegmentAt, JournalsAreWhole};
ghost use Rattle.store_reading.specs.Whole.{NamedMemoryIsWhole, SegmentsAreWhole};

use crate::fault::{CheckFault, ReadFault};
use crate::folder::Folder;
use crate::hashing::{HEX_LEN, check_digest, hash_entry, hexadecimal};
use crate::journals::{add_entry, add_journal};
use crate::listing::{LISTINGS, list};
use crate::names::is_mixed;
use crate::period::Period;
use crate::segment::open_file;
use archive_pages::PagedArchive;
use archive_sets::{Condition, InRange};
use archive_streams::ArchiveEntries;
use archive_text::{ENTRY_MAX, EntryView, Store};
use disk::FileName;
use octet_devices::{Input, ToWrite};
use sha2::{Digest, Sha256};
use std::alloc::Global;

// Adds an entry to a set, where it is of the range.
fn add_of_range(
    alloc: Global,
    set: &mut PagedArchive,
    range: &InRange,
    entry: &EntryView<'_>,
) -> Result<(), CheckFault>
    requires entry { IsEntry (entry_of entry.now) }
    requires fits { length entry.now.octets.now ≤ ENTRY_MAX }
    ensures adds { OnOk result (Adds (set_entries set.old) (set_entries set.new)
        (λ e. (entry_of entry.now ≡ e) × IsOfRange range.now e)) }
    ensures memory { IfErr result (λ fault. fault ≡ CheckFault.Memory) }
{
    if !range.holds(entry) {
        return Ok(());
    }
    add_entry(alloc, set, entry)
}

// Adds the entries of the range that a mixed segment has, which is read to its end. Gives its SHA-256 in
// lower-case hexadecimal.
fn add_entries<R: Input>(
    alloc: Global,
    set: &mut PagedArchive,
    range: &InRange,
    reader: &mut R,
) -> Result<[u8; HEX_LEN], CheckFault>
    ensures adds { OnOk result (AddsMixed range.now (R.state reader.old) (set_entries set.old)
        (set_entries set.new)) }
    ensures hashed { IfOk result (λ hex. IsHashed (codes "mixed") (R.state reader.old)
        (R.state reader.new) hex) }
    ensures damaged { IfErr result (λ fault. OfLeft (R.state reader.old) (λ file.
        Tells fault (IsDamagedArchive (codes "mixed") file))) }
{
    let mut entries = ArchiveEntries::new(alloc)?;
    let mut hasher = Sha256::new();
    'entries: while entries.next(reader)? {
        let entry = entries.entry();
        let _ = hash_entry(&mut hasher, entry.octets);
        add_of_range(alloc, set, range, &entry)?;
    }
    Ok(hexadecimal(hasher))
}

// Adds the entries of the range that the mixed segment of a name has.
fn add_segment<R: Input>(
    alloc: Global,
    set: &mut PagedArchive,
    range: &InRange,
    name: &[u8],
    reader: &mut R,
) -> Result<(), CheckFault>
    ensures adds { OnOk result (AddsMixed range.now (R.state reader.old) (set_entries set.old)
        (set_entries set.new)) }
    ensures whole { OnOk result (OfLeft (R.state reader.old) (IsWholeSegment (codes "mixed") name.now)) }
    ensures damaged { IfErr result (λ fault. OfLeft (R.state reader.old) (λ file.
        Tells fault (IsDamagedSegment (codes "mixed") name.now file))) }
{
    let hex = add_entries(alloc, set, range, reader)?;
    check_digest(alloc, name, &Period::mixed(), &hex)
}

// Adds what is of the range in the file of a name, where that is a mixed segment.
fn add_mixed<F: Folder>(
    alloc: Global,
    folder: &mut F,
    name: &FileName,
    range: &InRange,
    set: &mut PagedArchive,
) -> Result<(), ReadFault>
    ensures adds { OnOk result (F.tells folder.new → Adds (set_entries set.old)
        (set_entries set.new) (HasAsMixed (F.files folder.old) range.now name.now)) }
    ensures whole { OnOk result (F.tells folder.new
        → IsWholeSegmentAt (F.files folder.old) (codes "mixed") name.now) }
    ensures same { F.tells folder.new → F.files folder.new ≡ F.files folder.old }
    ensures told { F.tells folder.new → F.tells folder.old }
    ensures cause { IfErr result (IsCause (file_causes (F.tells folder.new) (F.has_failed folder.new)
        (F.files folder.old) (λ (n : List ℕ). (n ≡ name.now) × IsSegment (codes "mixed") n)
        (IsDamagedSegment (codes "mixed")))) }
{
    if !is_mixed(name.as_octets()) {
        return Ok(());
    }
    let mut file = open_file(alloc, folder, name)?;
    match add_segment(alloc, set, range, name.as_octets(), &mut file) {
        Ok(()) => Ok(()),
        Err(fault) => Err(fault.of(name.copy(alloc)?)),
    }
}

// Adds what the file of a name has, where that is a journal or a mixed segment.
fn add_file<F: Folder>(
    alloc: Global,
    folder: &mut F,
    name: &FileName,
    range: &InRange,
    set: &mut PagedArchive,
) -> Result<(), ReadFault>
    ensures adds { OnOk result (F.tells folder.new → Adds (set_entries set.old)
        (set_entries set.new) (HasInMemory (F.files folder.old) range.now name.now)) }
    ensures whole { OnOk result (F.tells folder.new → IsWholeInMemory (F.files folder.old) name.now) }
    ensures same { F.tells folder.new → F.files folder.new ≡ F.files folder.old }
    ensures told { F.tells folder.new → F.tells folder.old }
    ensures cause { IfErr result (IsCause (file_causes (F.tells folder.new) (F.has_failed folder.new)
        (F.files folder.old) (λ (n : List ℕ). (n ≡ name.now) × IsOfMemoryName n)
        IsDamagedInMemory)) }
{
    add_journal(alloc, folder, name, set)?;
    add_mixed(alloc, folder, name, range, set)
}

// Adds what the journals and mixed segments among these names have.
fn add_files<F: Folder>(
    alloc: Global,
    folder: &mut F,
    names: &[FileName],
    range: &InRange,
    set: &mut PagedArchive,
) -> Result<(), ReadFault>
    ensures adds { OnOk result (F.tells folder.new → Adds (set_entries set.old)
        (set_entries set.new) (NamedMemoryHas (F.files folder.old) range.now names.now)) }
    ensures whole { OnOk result (F.tells folder.new
        → NamedMemoryIsWhole (F.files folder.old) names.now) }
    ensures same { F.tells folder.new → F.files folder.new ≡ F.files folder.old }
    ensures told { F.tells folder.new → F.tells folder.old }
    ensures cause { IfErr result (IsCause (file_causes (F.tells folder.new) (F.has_failed folder.new)
        (F.files folder.old) (IsListedInMemory names.now) IsDamagedInMemory)) }
{
    'names: for name in names {
        add_file(alloc, folder, name, range, set)?;
    }
    Ok(())
}

// The text of a set.
fn set_text(alloc: Global, set: &PagedArchive) -> Result<Vec<u8>, ReadFault>
    ensures text { IfOk result (λ v. v.items ≡ text_of (set_entries set.now)) }
    ensures archive { IsArchive ENTRY_MAX (set_entries set.now) }
    ensures memory { IfErr result (λ fault. fault ≡ ReadFault.Memory) }
{
    let mut text = ToWrite::new(Vec::new(alloc));
    match set.write(&mut text) {
        Ok(()) => Ok(text.into_inner()),
        Err(_) => Err(ReadFault::Memory),
    }
}

/// The archive of the entries in a folder's journals, and of those of the range in its mixed
/// segments. If a file is gone that was listed, the names are listed again: a checkpoint has made
/// segments of a journal, or a compaction has joined segments.
pub(crate) fn read_memory<F: Folder>(
    alloc: Global,
    folder: &mut F,
    range: &InRange,
) -> Result<Vec<u8>, ReadFault>
    ensures read { F.tells folder.new → IfOk result (λ v.
        IsOfMemory (F.files folder.old) range.now v.items) }
    ensures journals { OnOk result (F.tells folder.new → JournalsAreWhole (F.files folder.old)) }
    ensures mixed { OnOk result (F.tells folder.new
        → SegmentsAreWhole (F.files folder.old) (codes "mixed")) }
    ensures same { F.tells folder.new → F.files folder.new ≡ F.files folder.old }
    ensures told { F.tells folder.new → F.tells folder.old }
    ensures cause { IfErr result (IsCause (file_causes (F.tells folder.new) (F.has_failed folder.new)
        (F.files folder.old)
        (λ (n : List ℕ). IsOfMemoryName n × (F.tells folder.new → IsSome (F.files folder.old n)))
        IsDamagedInMemory)) }
{
    'listings: for _ in 0..LISTINGS {
        let names = list(alloc, folder)?;
        let mut set = PagedArchive::new(alloc);
        match add_files(alloc, folder, &names, range, &mut set) {
            Ok(()) => return set_text(alloc, &set),
            Err(ReadFault::Gone) => {}
            Err(fault) => return Err(fault),
        }
    }
    Err(ReadFault::Gone)
}
