//! The entries of an archive are counted, up to its end.

ghost use Rattle.std.specs.Prelude.{◌≡◌, ℕ, false, IfErr, IfOk, IsTrue, MatchResult, OnOk};
ghost use Rattle.octet_devices.specs.Device.{InputState};
ghost use Rattle.archive_streams.specs.Entries.{Ends, IsOpen, ReadsOne};
ghost use Rattle.archive_sets.specs.Failures.{ReadFailures};
ghost use Rattle.archive_sets.specs.Selecting.{IsHalt};
ghost use Rattle.archive_counts.specs.Counting.{Halted, IsFresh, Looking, ReadWhole, Tabling};

use crate::key::CountKey;
use crate::table::Table;
use crate::words::put_words;
use archive_sets::SelectFault;
use archive_streams::{ArchiveEntries, EntriesFault, InputFault};
use octet_devices::Input;
use std::alloc::{AllocError, Global};

/// A count under way.
#[derive(Drop)]
pub struct Counting {
    /// What was read of the archive.
    pub entries: ArchiveEntries,
    /// The entries by their words.
    pub table: Table,
    /// The words of the entry that was read last.
    pub words: Vec<u8>,
}

impl Counting {
    /// A count before the first entry. It fails only when out of memory.
    pub fn new(alloc: Global, keys: &[CountKey]) -> Result<Counting, AllocError>
        ensures { IfOk result (IsFresh keys.now) }
    {
        Ok(Counting {
            entries: ArchiveEntries::new(alloc)?,
            table: Table::new(alloc, keys)?,
            words: Vec::new(alloc),
        })
    }

    // Reads the next entry and answers true, or finds the end and answers false. It fails if there
    // is neither.
    fn advance<R: Input>(&mut self, reader: &mut R) -> Result<bool, SelectFault>
        requires { IsOpen self.old.entries }
        ensures kept { self.new.table ≡ self.old.table }
        ensures entry { IfOk result (λ some. IsTrue some → ReadsOne self.old.entries self.new.entries
            (R.state reader.old) (R.state reader.new)) }
        ensures end { IfOk result (λ some. some ≡ false → Ends self.old.entries self.new.entries
            (R.state reader.old) (R.state reader.new)) }
        ensures fault { IfErr result (λ fault. IsHalt fault self.old.entries self.new.entries
            (R.state reader.old) (R.state reader.new)) }
        ensures told { ReadFailures result (R.state reader.old).failures
            (R.state reader.new).failures }
    {
        match self.entries.next(reader) {
            Ok(some) => Ok(some),
            Err(EntriesFault::Archive(fault)) => Err(SelectFault::Archive(fault)),
            Err(EntriesFault::Input(InputFault::Device)) => Err(SelectFault::Read),
            Err(EntriesFault::Input(InputFault::Endless)) => Err(SelectFault::Endless),
        }
    }

    // The entry that was read last goes into the table.
    fn take(&mut self, keys: &[CountKey]) -> Result<(), AllocError>
        ensures entries { self.new.entries ≡ self.old.entries }
        ensures taken { OnOk result ((d e : InputState) → Looking keys.now self.old d e
            → Tabling keys.now self.new d e) }
    {
        let entry = self.entries.entry();
        self.words.clear();
        put_words(keys, &entry, &mut self.words)?;
        self.table.add(self.words.as_slice(), &entry)
    }

    /// Reads the archive to its end. It fails at the first fault that is met.
    pub fn read_all<R: Input>(
        &mut self,
        keys: &[CountKey],
        reader: &mut R,
    ) -> Result<(), SelectFault>
        requires { IsFresh keys.now self.old }
        ensures outcome { MatchResult result
            (λ _. ReadWhole keys.now self.new (R.state reader.old) (R.state reader.new))
            (λ fault. Halted fault (R.state reader.old) (R.state reader.new)) }
        ensures told { ReadFailures result (R.state reader.old).failures
            (R.state reader.new).failures }
    {
        'entries: while self.advance(reader)? {
            if self.take(keys).is_err() {
                return Err(SelectFault::Memory);
            }
        }
        Ok(())
    }
}
