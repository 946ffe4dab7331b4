//! A sorted archive in memory.

ghost use Rattle.std.specs.Prelude.{◌≡◌, ◌<◌, ◌≤◌, ◌↔◌, List, ℕ, ℤ, [], length, option_map, slice_get};
ghost use Rattle.std.specs.Prelude.{IfErr, IfOk, IsErrOf, IsTrue, OnErr};
ghost use Rattle.octet_devices.specs.Transfers.{WritesAll};
ghost use Rattle.syslog_value.specs.Parts.{Parts};
ghost use Rattle.syslog_reading.specs.ViewParts.{IsViewOf, view_parts};
ghost use Rattle.syslog_reading.specs.WellFormed.{WellFormed};
ghost use Rattle.archive_text.specs.Entries.{Entry, Has, IsEntryOf};
ghost use Rattle.archive_text.specs.Sets.{IsUnionOfEntries};
ghost use Rattle.archive_text.specs.Text.{IsArchive, text_of};
ghost use Rattle.archive_text.specs.Stores.{AddsRecord};
ghost use Rattle.archive_text.specs.declared.limits.TheConstants.{ENTRY_MAX};
ghost use Rattle.archive_laws.specs.Props.{archive_prop};
ghost use Rattle.archive_vec.specs.Reads.{IsReadFault};

use crate::entry_list::EntryList;
use crate::reading::ReadFault;
use archive_text::{AddFault, Added, ENTRY_MAX, EntryView};
use octet_devices::{Output, WriteFault};
use std::alloc::{AllocError, Global};
use syslog_grammar::{RecordView, canon, write_canonical_view};
use syslog_value::Record;

/// A finite set of records: the entries of an archive, in order.
#[derive(Drop)]
pub struct VecArchive {
    pub(crate) list: EntryList,
    pub(crate) scratch: Vec<u8>,
    ghost archive: { IsArchive ENTRY_MAX list } by { archive_prop ENTRY_MAX list },
}

impl VecArchive {
    /// An archive without records.
    pub fn new(alloc: Global) -> VecArchive
        ensures { result.list ≡ [] }
    {
        let list = EntryList::new(alloc);
        let _archive = list.len();
        VecArchive {
            list,
            scratch: Vec::new(alloc),
        }
    }

    /// The canonical octets of the entry at an index, which is how many entries are below it; None
    /// behind the last.
    pub fn get(&self, index: usize) -> Option<&[u8]>
        ensures { option_map (λ s. s.now) result
            ≡ option_map (λ e. e.octets) (slice_get self.now.list index) }
    {
        if index < self.list.len() {
            Some(self.list.at(index).octets)
        } else {
            None
        }
    }

    /// Adds a record. A refusal, as the variants of [`AddFault`] say, leaves the set as it was.
    pub fn add(&mut self, alloc: Global, record: &Record) -> Result<Added, AddFault>
        ensures ok { IfOk result (λ added. AddsRecord record.now self.old.list self.new.list added) }
        ensures err { OnErr result (self.new.list ≡ self.old.list) }
        ensures long { IsErrOf result AddFault.TooLong →
            (e : Entry) → IsEntryOf record.now e → ENTRY_MAX < length e.octets }
    {
        let Ok(octets) = canon(alloc, record) else {
            return Err(AddFault::Memory);
        };
        let _valid = record.priority();
        self.list.add(&EntryView {
            instant: record.instant(),
            octets: octets.as_slice(),
        })
    }

    /// Adds the record that a view shows, without a copy of its parts, as `add` does. The refusals
    /// are the same.
    pub fn add_view(&mut self, alloc: Global, view: &RecordView<'_>) -> Result<Added, AddFault>
        ensures ok { IfOk result (λ added. (b : List ℕ) → IsViewOf b (view_parts view.now) →
            (r : Parts ℤ) × WellFormed r b × AddsRecord r self.old.list self.new.list added) }
        ensures err { OnErr result (self.new.list ≡ self.old.list) }
        ensures long { IsErrOf result AddFault.TooLong →
            (b : List ℕ) → IsViewOf b (view_parts view.now) →
            (r : Parts ℤ) (e : Entry) → WellFormed r b → IsEntryOf r e
            → ENTRY_MAX < length e.octets }
    {
        self.scratch.clear();
        if write_canonical_view(alloc, view, &mut self.scratch).is_err() {
            return Err(AddFault::Memory);
        }
        self.list.add(&EntryView {
            instant: view.instant(),
            octets: self.scratch.as_slice(),
        })
    }

    /// Whether a record is held. It fails only when out of memory.
    pub fn holds(&self, alloc: Global, record: &Record) -> Result<bool, AllocError>
        ensures { IfOk result (λ held. (e : Entry) → IsEntryOf record.now e →
            (IsTrue held ↔ Has self.now.list e)) }
    {
        let octets = canon(alloc, record)?;
        let _valid = record.priority();
        let entry = EntryView {
            instant: record.instant(),
            octets: octets.as_slice(),
        };
        Ok(self.list.find(&entry).is_ok())
    }

    /// How many records are held.
    pub fn len(&self) -> usize
        ensures value { result ≡ length self.now.list }
        ensures archive { IsArchive ENTRY_MAX self.now.list }
    {
        self.list.len()
    }

    /// Writes the text of the archive. If the writer fails, the first octets of the text were
    /// written, as many as the fault says.
    pub fn write<W: Output>(&self, writer: &mut W) -> Result<(), WriteFault>
        ensures { WritesAll (W.state writer.old) (W.state writer.new) (text_of self.now.list)
            result }
    {
        self.list.write(writer)
    }

    /// Reads an archive from its text. The refusals are those of [`ReadFault`].
    pub fn read(alloc: Global, text: &[u8]) -> Result<VecArchive, ReadFault>
        ensures ok { IfOk result (λ archive. text.now ≡ text_of archive.list) }
        ensures err { IfErr result (IsReadFault text.now) }
    {
        match EntryList::read(alloc, text) {
            Ok(list) => {
                let _archive = list.len();
                Ok(VecArchive {
                    list,
                    scratch: Vec::new(alloc),
                })
            }
            Err(fault) => Err(fault),
        }
    }
}

/// The archive of the records of two archives. It fails only when out of memory.
pub fn merge(alloc: Global, left: &VecArchive, right: &VecArchive) -> Result<VecArchive, AllocError>
    ensures members { IfOk result (λ merged.
        IsUnionOfEntries left.now.list right.now.list merged.list) }
    ensures archive { IfOk result (λ merged. IsArchive ENTRY_MAX merged.list) }
{
    let list = left.list.merged(alloc, &right.list)?;
    let _archive = list.len();
    Ok(VecArchive {
        list,
        scratch: Vec::new(alloc),
    })
}
