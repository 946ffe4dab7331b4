//! Records are added.
ghost use Rattle.std.specs.Prelude.{◌≡◌, ◌<◌, ◌↔◌, List, ℕ, ℤ, length, IfOk, IsErrOf, IsTrue, OnErr};
ghost use Rattle.octet_devices.specs.Transfers.{WritesAll};
ghost use Rattle.disk.specs.States.{State};
ghost use Rattle.syslog_value.specs.Parts.{Parts};
ghost use Rattle.syslog_reading.specs.ViewParts.{IsViewOf, view_parts};
ghost use Rattle.syslog_reading.specs.WellFormed.{WellFormed};
ghost use Rattle.archive_text.specs.Entries.{Entry, Has, IsEntryOf};
ghost use Rattle.archive_text.specs.Text.{text_of};
ghost use Rattle.archive_text.specs.Stores.{AddsRecord};
ghost use Rattle.archive_text.specs.declared.limits.TheConstants.{ENTRY_MAX};
ghost use Rattle.record_store.specs.Stores.{Sets};
ghost use Rattle.durable_store.specs.Durables.{AddsTo, Stands, entries_of};

use crate::DurableStore;
use archive_pages::PagedArchive;
use archive_text::{AddFault, Added, EntryView, Store};
use octet_devices::{Output, WriteFault};
use std::alloc::{AllocError, Global};
use syslog_grammar::{RecordView, canon, write_canonical_view};
use syslog_value::Record;

impl Store for DurableStore {
    ghost entries = { entries_of };

    ghost archive = { λ s. ⟦<PagedArchive as Store>⟧.archive s.set };

    fn add(&mut self, alloc: Global, record: &Record) -> Result<Added, AddFault>
        ensures ok { IfOk result (λ added.
            AddsRecord record.now (entries_of self.old) (entries_of self.new) added) }
        ensures err { OnErr result (entries_of self.new ≡ entries_of self.old) }
        ensures long { IsErrOf result AddFault.TooLong →
            (e : Entry) → IsEntryOf record.now e → ENTRY_MAX < length e.octets }

        // over a disk that stays as it is
        ensures stands { IfOk result (λ added. (state : State) (sets : Sets)
            → Stands self.old state sets → AddsTo record.now self.new state sets added) }
        ensures refused { OnErr result ((state : State) (sets : Sets)
            → Stands self.old state sets → Stands self.new state sets) }
    {
        let octets = match canon(alloc, record) {
            Ok(octets) => octets,
            Err(AllocError) => return Err(AddFault::Memory),
        };
        let entry = EntryView {
            instant: record.instant(),
            octets: octets.as_slice(),
        };
        let waiting = self.store.waiting();
        match self.store.append_entry(&entry) {
            Ok(()) => {}
            Err(fault) => return Err(fault),
        }
        match self.set.add(alloc, record) {
            Ok(Added::New) => Ok(Added::New),
            Ok(Added::Held) => {
                self.store.take_back(waiting);
                Ok(Added::Held)
            }
            Err(fault) => {
                self.store.take_back(waiting);
                Err(fault)
            }
        }
    }

    fn add_view(&mut self, alloc: Global, view: &RecordView<'_>) -> Result<Added, AddFault>
        ensures ok { IfOk result (λ added. (b : List ℕ) → IsViewOf b (view_parts view.now) →
            (r : Parts ℤ) × WellFormed r b
            × AddsRecord r (entries_of self.old) (entries_of self.new) added) }
        ensures err { OnErr result (entries_of self.new ≡ entries_of self.old) }
        ensures long { IsErrOf result AddFault.TooLong →
            (b : List ℕ) → IsViewOf b (view_parts view.now) →
            (r : Parts ℤ) (e : Entry) → WellFormed r b → IsEntryOf r e
            → ENTRY_MAX < length e.octets }

        // over a disk that stays as it is
        ensures stands { IfOk result (λ added. (b : List ℕ) → IsViewOf b (view_parts view.now)
            → (state : State) (sets : Sets) → Stands self.old state sets
            → (r : Parts ℤ) × WellFormed r b × AddsTo r self.new state sets added) }
        ensures refused { OnErr result ((state : State) (sets : Sets)
            → Stands self.old state sets → Stands self.new state sets) }
    {
        self.scratch.clear();
        if write_canonical_view(alloc, view, &mut self.scratch).is_err() {
            return Err(AddFault::Memory);
        }
        let entry = EntryView {
            instant: view.instant(),
            octets: &self.scratch,
        };
        let waiting = self.store.waiting();
        match self.store.append_entry(&entry) {
            Ok(()) => {}
            Err(fault) => return Err(fault),
        }
        match self.set.add_view(alloc, view) {
            Ok(Added::New) => Ok(Added::New),
            Ok(Added::Held) => {
                self.store.take_back(waiting);
                Ok(Added::Held)
            }
            Err(fault) => {
                self.store.take_back(waiting);
                Err(fault)
            }
        }
    }

    fn holds(&self, alloc: Global, record: &Record) -> Result<bool, AllocError> {
        self.set.holds(alloc, record)
    }

    fn len(&self) -> usize {
        self.set.len()
    }

    fn write<W: Output>(&self, writer: &mut W) -> Result<(), WriteFault> {
        self.set.write(writer)
    }
}
