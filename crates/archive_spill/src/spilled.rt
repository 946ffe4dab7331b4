//! A set in memory, and in runs.

ghost use Rattle.std.specs.Prelude.{◌≤◌, ◌<◌};

use crate::fault::SpillFault;
use crate::joins::{join_behind, join_out, write_out, write_run};
use crate::room::joined_at_once;
use crate::spill::Spill;
use archive_pages::PagedArchive;
use archive_text::{AddFault, Store};
use octet_devices::Output;
use std::alloc::Global;
use syslog_grammar::RecordView;
use syslog_value::Record;

/// A set of records, as many of them in memory as its room allows; the rest has gone out to a
/// spill, as runs, each of them an archive.
///
/// Whenever as many runs are out as are joined at once, they are joined into one, and so are as
/// many of those. So each record is written once for each power of that number, and few runs are
/// open.
#[derive(Drop)]
pub struct SpilledArchive<P, R> {
    alloc: Global,
    spill: P,
    // the octets that the pages may take
    room: usize,
    // how many runs are joined at once
    at_once: usize,
    pages: PagedArchive,
    runs: Vec<R>,
    // how often the pages went out
    spilled: u64,
    // whether a run was lost
    lost: bool,
    ghost two: { 2 ≤ at_once },
}

impl<P: Spill + Drop> SpilledArchive<P, P::Run> {
    ghost use Rattle.std.specs.Prelude.{◌≡◌, ◌⊎◌, ◌+◌, ℕ, ℤ, List, [], ◌∷◌, length, vec_len};
    ghost use Rattle.std.specs.Prelude.{IfOk, IsErrOf, OnErr, OnOk};
    ghost use Rattle.syslog_value.specs.Parts.{Parts};
    ghost use Rattle.syslog_reading.specs.ViewParts.{IsViewOf, view_parts};
    ghost use Rattle.syslog_reading.specs.WellFormed.{WellFormed};
    ghost use Rattle.archive_text.specs.Entries.{Entry, IsEntryOf};
    ghost use Rattle.archive_text.specs.Text.{IsArchive, text_of};
    ghost use Rattle.archive_text.specs.declared.limits.TheConstants.{ENTRY_MAX};
    ghost use Rattle.archive_pages.specs.Paged.{entries_in};
    ghost use Rattle.archive_spill.specs.Runs.{AreSame};
    ghost use Rattle.archive_spill.specs.Sets.{Holds, IsInRoom, IsLost, Keeps, limit_of};
    ghost use Rattle.archive_spill.specs.Writing.{IsOfRuns, WritesOut};

    /// An empty set, which may take `room` octets in memory.
    pub fn new(alloc: Global, spill: P, room: usize) -> SpilledArchive<P, P::Run>
        ensures empty { P.tells spill → Holds P.tells P.Run.state result [] }
        ensures limit { limit_of result ≡ room }
    {
        SpilledArchive {
            alloc,
            spill,
            room,
            at_once: joined_at_once(room),
            pages: PagedArchive::new(alloc),
            runs: Vec::new(alloc),
            spilled: 0,
            lost: false,
        }
    }

    /// Adds a record. If the set then takes more than its room in memory, it goes out to the spill,
    /// so that it is within its room again.
    ///
    /// # Errors
    /// `TooLong`, or `Memory` if there was none for the record: the set is as it was. Otherwise
    /// `Spill` or `Memory`: a run is lost, and from then on `add`, `add_view` and `write` answer
    /// `Spill`.
    pub fn add(&mut self, record: &Record) -> Result<(), SpillFault>
        ensures ok { OnOk result ((es : List Entry) → Holds P.tells P.Run.state self.old es
            → (e : Entry) × IsEntryOf record.now e × Holds P.tells P.Run.state self.new (e ∷ es)) }
        ensures err { OnErr result (IsLost self.new ⊎ ((es : List Entry)
            → Holds P.tells P.Run.state self.old es → Holds P.tells P.Run.state self.new es)) }
        ensures long { IsErrOf result SpillFault.TooLong →
            (e : Entry) → IsEntryOf record.now e → ENTRY_MAX < length e.octets }
        ensures same { IsErrOf result SpillFault.TooLong → (es : List Entry)
            → Holds P.tells P.Run.state self.old es → Holds P.tells P.Run.state self.new es }
        ensures spill { IsErrOf result SpillFault.Spill → IsLost self.new }
        ensures not_output { ¬ (IsErrOf result SpillFault.Output) }
        ensures lost { IsLost self.old → IsErrOf result SpillFault.Spill × IsLost self.new }
        ensures room { OnOk result (IsInRoom self.new) }
        ensures limit { limit_of self.new ≡ limit_of self.old }
    {
        if self.lost {
            return Err(SpillFault::Spill);
        }
        match self.pages.add(self.alloc, record) {
            Ok(_) => self.keep_room(),
            Err(AddFault::TooLong) => Err(SpillFault::TooLong),
            Err(AddFault::Memory) => Err(SpillFault::Memory),
        }
    }

    /// Adds the record that a view shows, as `add` does. The errors are those of `add`.
    pub fn add_view(&mut self, view: &RecordView<'_>) -> Result<(), SpillFault>
        ensures ok { OnOk result ((b : List ℕ) → IsViewOf b (view_parts view.now)
            → (es : List Entry) → Holds P.tells P.Run.state self.old es
            → (r : Parts ℤ) × (e : Entry) × WellFormed r b × IsEntryOf r e
            × Holds P.tells P.Run.state self.new (e ∷ es)) }
        ensures err { OnErr result (IsLost self.new ⊎ ((es : List Entry)
            → Holds P.tells P.Run.state self.old es → Holds P.tells P.Run.state self.new es)) }
        ensures long { IsErrOf result SpillFault.TooLong →
            (b : List ℕ) → IsViewOf b (view_parts view.now) → (r : Parts ℤ) (e : Entry)
            → WellFormed r b → IsEntryOf r e → ENTRY_MAX < length e.octets }
        ensures same { IsErrOf result SpillFault.TooLong → (es : List Entry)
            → Holds P.tells P.Run.state self.old es → Holds P.tells P.Run.state self.new es }
        ensures spill { IsErrOf result SpillFault.Spill → IsLost self.new }
        ensures not_output { ¬ (IsErrOf result SpillFault.Output) }
        ensures lost { IsLost self.old → IsErrOf result SpillFault.Spill × IsLost self.new }
        ensures room { OnOk result (IsInRoom self.new) }
        ensures limit { limit_of self.new ≡ limit_of self.old }
    {
        if self.lost {
            return Err(SpillFault::Spill);
        }
        match self.pages.add_view(self.alloc, view) {
            Ok(_) => self.keep_room(),
            Err(AddFault::TooLong) => Err(SpillFault::TooLong),
            Err(AddFault::Memory) => Err(SpillFault::Memory),
        }
    }

    /// Makes a run and drops it, to tell whether there can be one.
    ///
    /// # Errors
    /// `Spill`: there cannot; `Memory`.
    pub fn check_spill(&mut self) -> Result<(), SpillFault>
        ensures same { (es : List Entry) → Holds P.tells P.Run.state self.old es
            → Holds P.tells P.Run.state self.new es }
        ensures fault { IsOfRuns result }
        ensures lost { IsLost self.old → IsLost self.new }
        ensures room { IsInRoom self.old → IsInRoom self.new }
        ensures limit { limit_of self.new ≡ limit_of self.old }
    {
        let _run = self.spill.make()?;
        Ok(())
    }

    /// How many runs are out.
    pub fn runs(&self) -> usize
        ensures { result ≡ vec_len self.now.runs }
    {
        self.runs.len()
    }

    /// Writes the archive of the set. Unless all of the set is in memory, its pages go out to the
    /// spill first, so that the runs can be joined in their room.
    ///
    /// # Errors
    /// `Output`, `Spill` or `Memory`: a prefix of the archive was written.
    pub fn write<W: Output>(mut self, output: &mut W) -> Result<(), SpillFault>
        ensures written { (es ys : List Entry) → Holds P.tells P.Run.state self es
            → IsArchive ENTRY_MAX ys → AreSame es ys
            → WritesOut (W.state output.old) (W.state output.new) (text_of ys) result }
        ensures lost { IsLost self → IsErrOf result SpillFault.Spill × (output.new ≡ output.old) }
    {
        if self.lost {
            return Err(SpillFault::Spill);
        }
        if self.runs.is_empty() {
            return write_out(&self.pages, output);
        }
        self.gather()?;
        join_out(self.alloc, &mut self.runs, output)
    }

    // Lets the pages go out where they take more than their room.
    fn keep_room(&mut self) -> Result<(), SpillFault>
        ensures ok { OnOk result ((es : List Entry) → Holds P.tells P.Run.state self.old es
            → Holds P.tells P.Run.state self.new es) }
        ensures err { OnErr result (IsLost self.new) }
        ensures fault { IsOfRuns result }
        ensures room { OnOk result (IsInRoom self.new) }
        ensures limit { limit_of self.new ≡ limit_of self.old }
    {
        if self.pages.room() <= self.room {
            return Ok(());
        }
        self.lost = true;
        self.spill_pages()?;
        self.join_full()?;
        self.lost = false;
        Ok(())
    }

    // Lets the pages go out as a run.
    fn spill_pages(&mut self) -> Result<(), SpillFault>
        ensures ok { OnOk result ((es : List Entry) → Keeps P.tells P.Run.state self.old es
            → Keeps P.tells P.Run.state self.new es) }
        ensures none { OnOk result (entries_in self.new.pages ≡ []) }
        ensures lost { self.new.lost ≡ self.old.lost }
        ensures limit { limit_of self.new ≡ limit_of self.old }
        ensures fault { IsOfRuns result }
    {
        let run = write_run(&mut self.spill, &self.pages)?;
        let Ok(()) = self.runs.push(run) else {
            return Err(SpillFault::Memory);
        };
        self.pages = PagedArchive::new(self.alloc);
        self.spilled = self.spilled.saturating_add(1);
        Ok(())
    }

    // Joins the last runs, so many of them, into one.
    fn join_last(&mut self) -> Result<(), SpillFault>
        requires { self.old.at_once ≤ vec_len self.old.runs }
        ensures ok { OnOk result ((es : List Entry) → Keeps P.tells P.Run.state self.old es
            → Keeps P.tells P.Run.state self.new es) }
        ensures pages { self.new.pages ≡ self.old.pages }
        ensures fewer { OnOk result
            (vec_len self.new.runs + self.old.at_once ≡ vec_len self.old.runs + 1) }
        ensures at_once { self.new.at_once ≡ self.old.at_once }
        ensures lost { self.new.lost ≡ self.old.lost }
        ensures limit { limit_of self.new ≡ limit_of self.old }
        ensures fault { IsOfRuns result }
    {
        let first = self.runs.len() - self.at_once;
        let joined = join_behind(self.alloc, &mut self.spill, &mut self.runs, first)?;
        self.runs.truncate(first);
        let Ok(()) = self.runs.push(joined) else {
            return Err(SpillFault::Memory);
        };
        Ok(())
    }

    // Joins the last runs where as many went out as are joined at once, and again where as many of
    // those are there.
    fn join_full(&mut self) -> Result<(), SpillFault>
        ensures ok { OnOk result ((es : List Entry) → Keeps P.tells P.Run.state self.old es
            → Keeps P.tells P.Run.state self.new es) }
        ensures pages { self.new.pages ≡ self.old.pages }
        ensures lost { self.new.lost ≡ self.old.lost }
        ensures limit { limit_of self.new ≡ limit_of self.old }
        ensures fault { IsOfRuns result }
    {
        let mut count = self.spilled;
        while count > 0 && count % self.at_once as u64 == 0 && self.runs.len() >= self.at_once {
            count /= self.at_once as u64;
            self.join_last()?;
        }
        Ok(())
    }

    // Lets the pages go out too, and joins runs until few enough are left to be joined at once.
    fn gather(&mut self) -> Result<(), SpillFault>
        ensures ok { OnOk result ((es : List Entry) → Keeps P.tells P.Run.state self.old es
            → Keeps P.tells P.Run.state self.new es) }
        ensures none { OnOk result (entries_in self.new.pages ≡ []) }
        ensures fault { IsOfRuns result }
    {
        self.spill_pages()?;
        while self.runs.len() > self.at_once {
            self.join_last()?;
        }
        Ok(())
    }
}
