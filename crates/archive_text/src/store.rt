//! What an archive in memory offers.

ghost use Rattle.std.specs.Prelude.{◌≡◌, ◌<◌, ◌≤◌, ◌↔◌, List, ℕ, ℤ, length, IfOk, IsErrOf, IsTrue, OnErr};
ghost use Rattle.octet_devices.specs.Transfers.{WritesAll};
ghost use Rattle.syslog_value.specs.Parts.{Parts};
ghost use Rattle.syslog_reading.specs.ViewParts.{IsViewOf, view_parts};
ghost use Rattle.syslog_reading.specs.WellFormed.{WellFormed};
ghost use Rattle.archive_text.specs.Entries.{Entry, Has, IsEntryOf};
ghost use Rattle.archive_text.specs.Text.{IsArchive, text_of};
ghost use Rattle.archive_text.specs.Stores.{AddsRecord};

use octet_devices::{Output, WriteFault};
use std::alloc::{AllocError, Global};
use syslog_grammar::RecordView;
use syslog_value::Record;
use thiserror::Error;

/// What became of a record that was added.
#[derive(Clone, Copy, Debug, PartialEq, Eq)]
pub enum Added {
    /// It was not held before, and is now.
    New,
    /// It was held already.
    Held,
}

/// Why a record was not added: the first of these that holds.
#[derive(Clone, Copy, Debug, PartialEq, Eq, Error)]
pub enum AddFault {
    /// Its canonical form has more than `ENTRY_MAX` octets.
    #[error("the canonical record is too long for an archive")]
    TooLong,
    /// An allocation failed.
    #[error("out of memory")]
    Memory,
}

/// A finite set of records, kept as the entries of an archive.
pub trait Store {
    ghost use Rattle.archive_text.specs.declared.limits.TheConstants.{ENTRY_MAX};

    // the entries of the records that are held, in order
    ghost entries: { Self → List Entry };

    // they are an archive: strictly ascending entries of records, each within the limit
    ghost archive: { (s : Self) → IsArchive ENTRY_MAX (entries s) };

    /// Adds a record. A refusal, as the variants of [`AddFault`] say, leaves the set as it was.
    fn add(&mut self, alloc: Global, record: &Record) -> Result<Added, AddFault>
        ensures ok { IfOk result (λ added.
            AddsRecord record.now (entries self.old) (entries self.new) added) }
        ensures err { OnErr result (entries self.new ≡ entries self.old) }
        ensures long { IsErrOf result AddFault.TooLong →
            (e : Entry) → IsEntryOf record.now e → ENTRY_MAX < length e.octets };

    /// Adds the record that a view shows, as `add` does. A store may do so without a copy of its parts.
    fn add_view(&mut self, alloc: Global, view: &RecordView<'_>) -> Result<Added, AddFault>
        ensures ok { IfOk result (λ added. (b : List ℕ) → IsViewOf b (view_parts view.now) →
            (r : Parts ℤ) × WellFormed r b
            × AddsRecord r (entries self.old) (entries self.new) added) }
        ensures err { OnErr result (entries self.new ≡ entries self.old) }
        ensures long { IsErrOf result AddFault.TooLong →
            (b : List ℕ) → IsViewOf b (view_parts view.now) →
            (r : Parts ℤ) (e : Entry) → WellFormed r b → IsEntryOf r e
            → ENTRY_MAX < length e.octets }
    {
        match view.to_record(alloc) {
            Ok(record) => self.add(alloc, &record),
            Err(_) => Err(AddFault::Memory),
        }
    }

    /// Whether a record is held. It fails only when out of memory.
    fn holds(&self, alloc: Global, record: &Record) -> Result<bool, AllocError>
        ensures { IfOk result (λ held. (e : Entry) → IsEntryOf record.now e →
            (IsTrue held ↔ Has (entries self.now) e)) };

    /// How many records are held.
    fn len(&self) -> usize
        ensures { result ≡ length (entries self.now) };

    /// Writes the text of the archive. If the writer fails, the first octets of the text were
    /// written, as many as the fault says.
    fn write<W: Output>(&self, writer: &mut W) -> Result<(), WriteFault>
        ensures { WritesAll (W.state writer.old) (W.state writer.new) (text_of (entries self.now))
            result };
}
