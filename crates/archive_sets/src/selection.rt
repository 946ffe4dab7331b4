//! A selection under way, step by step.

ghost use Rattle.std.specs.Prelude.{◌≡◌, ◌^◌, ◌<◌, ℕ, false, IfErr, IfOk, IsTrue, OnOk};
ghost use Rattle.archive_streams.specs.Entries.{Ends, IsOpen, ReadsOne};
ghost use Rattle.archive_sets.specs.Failures.{ReadFailures, WriteFailures};
ghost use Rattle.archive_sets.specs.Selecting.{IsFresh, IsHalt, KeepFails, Keeps, KeepsOutput};

use crate::condition::Condition;
use crate::fault::SelectFault;
use archive_streams::{ArchiveEntries, EntriesFault, InputFault};
use archive_text::put_entry;
use octet_devices::{BufferedOutput, Input, Output, WriteFault};
use std::alloc::{AllocError, Global};

/// A selection under way.
#[derive(Drop)]
pub struct Selection {
    /// What was read of the archive.
    pub entries: ArchiveEntries,
    /// What is held back of the text of what was selected.
    pub held: BufferedOutput,
    /// How many entries that text has.
    pub count: u64,
}

impl Selection {
    /// A selection before the first entry. It fails only when out of memory.
    pub fn new(alloc: Global) -> Result<Selection, AllocError>
        ensures { IfOk result IsFresh }
    {
        Ok(Selection {
            entries: ArchiveEntries::new(alloc)?,
            held: BufferedOutput::new(),
            count: 0,
        })
    }

    /// Reads the next entry and answers true, or finds the end and answers false. It fails if there
    /// is neither.
    pub fn advance<R: Input>(&mut self, reader: &mut R) -> Result<bool, SelectFault>
        requires { IsOpen self.old.entries }
        ensures kept { KeepsOutput self.old self.new }
        ensures entry { IfOk result (λ some. IsTrue some → ReadsOne self.old.entries self.new.entries
            (R.state reader.old) (R.state reader.new)) }
        ensures end { IfOk result (λ some. some ≡ false → Ends self.old.entries self.new.entries
            (R.state reader.old) (R.state reader.new)) }
        ensures fault { IfErr result (λ fault. IsHalt fault self.old.entries self.new.entries
            (R.state reader.old) (R.state reader.new)) }
        ensures told { ReadFailures result (R.state reader.old).failures
            (R.state reader.new).failures }
        ensures not_writer { (n : ℕ) → WriteFailures result n n }
    {
        match self.entries.next(reader) {
            Ok(some) => Ok(some),
            Err(EntriesFault::Archive(fault)) => Err(SelectFault::Archive(fault)),
            Err(EntriesFault::Input(InputFault::Device)) => Err(SelectFault::Read),
            Err(EntriesFault::Input(InputFault::Endless)) => Err(SelectFault::Endless),
        }
    }

    /// Puts the entry that was read last behind what was selected, if it meets the condition. It
    /// fails if the writer does.
    pub fn keep<C: Condition, W: Output>(
        &mut self,
        condition: &C,
        writer: &mut W,
    ) -> Result<(), SelectFault>
        requires { self.old.count < 2 ^ 63 }
        ensures entries { self.new.entries ≡ self.old.entries }
        ensures keeps { OnOk result (Keeps (C.meets condition.now) self.old self.new
            (W.state writer.old).taken (W.state writer.new).taken) }
        ensures fault { IfErr result (λ fault. KeepFails (C.meets condition.now) fault self.old
            self.new (W.state writer.old).taken (W.state writer.new).taken) }
        ensures told { WriteFailures result (W.state writer.old).failures
            (W.state writer.new).failures }
        ensures not_reader { (n : ℕ) → ReadFailures result n n }
    {
        let entry = self.entries.entry();
        if !condition.holds(&entry) {
            return Ok(());
        }
        self.count += 1;
        match put_entry(&mut self.held, writer, entry.octets) {
            Ok(()) => Ok(()),
            Err(WriteFault { sent }) => Err(SelectFault::Write { sent }),
        }
    }
}
