//! A digest under way, step by step.

ghost use Rattle.std.specs.Prelude.{◌≡◌, ◌↔◌, ◌⊎◌, [], ℕ, List, false, IfErr, IfOk, IsTrue, OnOk};
ghost use Rattle.archive_text.specs.Entries.{Entry};
ghost use Rattle.archive_streams.specs.Entries.{Ends, IsOpen, ReadsOne};
ghost use Rattle.archive_sets.specs.Failures.{ReadFailures, WriteFailures};
ghost use Rattle.archive_sets.specs.Selecting.{IsHalt};
ghost use Rattle.archive_digest.specs.Digesting.{CountFails, Counts, IsFresh, KeepsOutput};
ghost use Rattle.archive_digest.specs.Sums.{IsTallyOf};
ghost use Rattle.archive_digest.specs.declared.roots.Roots.{Roots};

use crate::line::put_line;
use crate::name::PeriodName;
use crate::roots::Roots;
use crate::tally::Tally;
use archive_sets::SelectFault;
use archive_streams::{ArchiveEntries, EntriesFault, InputFault};
use archive_text::Period;
use octet_devices::{BufferedOutput, Input, Output, WriteFault};
use std::alloc::{AllocError, Global};

/// A digest under way.
#[derive(Drop)]
pub struct Digesting {
    /// What was read of the archive.
    pub entries: ArchiveEntries,
    /// What is held back of the lines.
    pub held: BufferedOutput,
    /// What the latest period is called.
    pub name: PeriodName,
    /// What was counted.
    pub tally: Tally,
}

// Whether no further period begins with an entry of the period `next` behind these, of which the
// latest period has this name.
fn goes_on(tally: &Tally, name: &PeriodName, next: &PeriodName) -> bool
    ensures { (roots : Roots) (xs latest : List Entry) → IsTallyOf roots tally.now xs latest
        → (IsTrue result ↔ ((xs ≡ []) ⊎ (next.now ≡ name.now))) }
{
    tally.is_empty() || next.is(name)
}

impl Digesting {
    /// A digest before the first entry. It fails only when out of memory.
    pub fn new(alloc: Global, roots: Roots) -> Result<Digesting, AllocError>
        ensures { IfOk result (IsFresh roots) }
    {
        Ok(Digesting {
            entries: ArchiveEntries::new(alloc)?,
            held: BufferedOutput::new(),
            name: PeriodName::none(),
            tally: Tally::new(roots),
        })
    }

    /// Reads the next entry and answers true, or finds the end and answers false. It fails if there
    /// is neither.
    pub fn advance<R: Input>(&mut self, reader: &mut R) -> Result<bool, SelectFault>
        requires { IsOpen self.old.entries }
        ensures kept { KeepsOutput self.old self.new }
        ensures entry { IfOk result (λ some. IsTrue some → ReadsOne self.old.entries self.new.entries
            (R.state reader.old) (R.state reader.new)) }
        ensures end { IfOk result (λ some. some ≡ false → Ends self.old.entries self.new.entries
            (R.state reader.old) (R.state reader.new)) }
        ensures fault { IfErr result (λ fault. IsHalt fault self.old.entries self.new.entries
            (R.state reader.old) (R.state reader.new)) }
        ensures told { ReadFailures result (R.state reader.old).failures
            (R.state reader.new).failures }
        ensures not_writer { (n : ℕ) → WriteFailures result n n }
    {
        match self.entries.next(reader) {
            Ok(some) => Ok(some),
            Err(EntriesFault::Archive(fault)) => Err(SelectFault::Archive(fault)),
            Err(EntriesFault::Input(InputFault::Device)) => Err(SelectFault::Read),
            Err(EntriesFault::Input(InputFault::Endless)) => Err(SelectFault::Endless),
        }
    }

    /// Counts the entry that was read last. If a new period begins with it, the line of the one
    /// before is put first; it fails if the writer does.
    pub fn count<W: Output>(&mut self, period: Period, writer: &mut W) -> Result<(), SelectFault>
        ensures entries { self.new.entries ≡ self.old.entries }
        ensures counts { OnOk result (Counts period self.old self.new (W.state writer.old).taken
            (W.state writer.new).taken) }
        ensures fault { IfErr result (λ fault. CountFails period fault self.old self.new
            (W.state writer.old).taken (W.state writer.new).taken) }
        ensures told { WriteFailures result (W.state writer.old).failures
            (W.state writer.new).failures }
        ensures not_reader { (n : ℕ) → ReadFailures result n n }
    {
        let entry = self.entries.entry();
        let name = PeriodName::of(period, entry.instant);
        if goes_on(&self.tally, &self.name, &name) {
            self.name = name;
            self.tally.add(entry.octets);
            return Ok(());
        }
        match put_line(
            &mut self.held,
            writer,
            self.name.octets(),
            self.tally.latest(),
        ) {
            Ok(()) => {
                self.tally.begin();
                self.name = name;
                self.tally.add(entry.octets);
                Ok(())
            }
            Err(WriteFault { sent }) => Err(SelectFault::Write { sent }),
        }
    }
}
