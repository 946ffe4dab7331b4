//! What sets offer to which records are added.

ghost use Rattle.std.specs.Prelude.{◌↔◌, ◌∷◌, List, ℕ, ℤ, OnOk};
ghost use Rattle.syslog_value.specs.Parts.{Parts};
ghost use Rattle.syslog_reading.specs.ViewParts.{IsViewOf, view_parts};
ghost use Rattle.syslog_reading.specs.WellFormed.{WellFormed};
ghost use Rattle.archive_text.specs.Entries.{Entry, Has, IsEntryOf};

use std::alloc::Global;
use syslog_grammar::RecordView;
use syslog_value::Record;

/// A finite set of records, to which records are added. Unlike a `Store` it does not tell whether a
/// record was there, which it need not know before all are there.
pub trait RecordSet {
    /// Why a record is not added.
    type Fault: Drop;

    // it holds the entries of a list, and no other
    ghost holds: { Self → List Entry → Type 0 };

    // their order and how often each comes do not matter
    ghost alike: { (s : Self) (es fs : List Entry) → ((x : Entry) → Has fs x ↔ Has es x) →
        holds s es → holds s fs };

    /// Adds a record, whether it was there or not.
    fn add(&mut self, alloc: Global, record: &Record) -> Result<(), Self::Fault>
        ensures ok { OnOk result ((es : List Entry) → holds self.old es
            → (e : Entry) × IsEntryOf record.now e × holds self.new (e ∷ es)) };

    /// Adds the record that a view shows, as `add` does.
    fn add_view(&mut self, alloc: Global, view: &RecordView<'_>) -> Result<(), Self::Fault>
        ensures ok { OnOk result ((b : List ℕ) → IsViewOf b (view_parts view.now)
            → (es : List Entry) → holds self.old es
            → (r : Parts ℤ) × (e : Entry) × WellFormed r b × IsEntryOf r e × holds self.new (e ∷ es)) };
}
