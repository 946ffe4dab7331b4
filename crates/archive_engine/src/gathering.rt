//! A set that the records of frames are added to.

ghost use Rattle.std.specs.Prelude.{◌≡◌, ◌++◌, ◌∷◌, ℕ, List, OnOk};

use archive_sorting::{RecordSet, SortedArchive, UnsortedRecords};
use archive_text::AddFault;
use driver::Effects;
use frame_engine::{FrameHandler, Line, Reading, add_refusal, read_frame};
use std::alloc::{AllocError, Global};
use std::mem::replace;
use syslog_legacy::FrameReading;

/// Adds the record of each frame to a set, and notes why a frame has none.
#[derive(Drop)]
pub struct Gathering<S, F> {
    /// The allocator for the octets of a record.
    pub alloc: Global,
    /// How frames are read.
    pub reading: FrameReading,
    /// The set.
    pub set: S,
    /// Why a record was not added.
    pub fault: Option<F>,
}

impl<S: RecordSet + Drop> Gathering<S, S::Fault> {
    ghost use Rattle.std.specs.Prelude.{[]};
    ghost use Rattle.frame_engine.specs.Readings.{IsReadingOf};
    ghost use Rattle.archive_engine.specs.Gathering.{Gathered};

    // Adds the record that was read of a frame.
    fn add(&mut self, read: &Reading<'_>) -> Result<(), AllocError>
        ensures gathered { OnOk result ((frame : List ℕ) (frames : List (List ℕ))
            → IsReadingOf self.old.reading frame read.now
            → Gathered S.holds self.old.reading self.old.set frames
            → Gathered S.holds self.old.reading self.new.set (frames ++ frame ∷ [])) }
        ensures reading { self.new.reading ≡ self.old.reading }
    {
        match read {
            Reading::Record(view) => match self.set.add_view(self.alloc, view) {
                Ok(()) => Ok(()),
                Err(fault) => Err(self.noted(fault)),
            },
            Reading::Legacy(_view) => {
                let record = read.to_record(self.alloc)?;
                match self.set.add(self.alloc, &record) {
                    Ok(()) => Ok(()),
                    Err(fault) => Err(self.noted(fault)),
                }
            }
        }
    }

    // Keeps in mind why a record was not added.
    fn noted(&mut self, fault: S::Fault) -> AllocError
        ensures { self.new.reading ≡ self.old.reading }
    {
        self.fault = Some(fault);
        AllocError
    }
}

impl Gathering<UnsortedRecords, AddFault> {
    ghost use Rattle.archive_sorting.specs.Records.{entries_in, entries_kept};
    ghost use Rattle.archive_sorting.specs.Settled.{HaveSame};

    /// The archive of the records that were gathered. None of them is left in the set.
    pub fn settle(&mut self) -> SortedArchive
        ensures { HaveSame (entries_kept self.old.set) (entries_in result) }
    {
        replace(&mut self.set, UnsortedRecords::new(self.alloc)).settle()
    }
}

impl<S: RecordSet + Drop> FrameHandler for Gathering<S, S::Fault> {
    ghost use Rattle.std.proofs.Common.{inl, inr, refl};
    ghost use Rattle.frame_engine.specs.Converted.{noted_line};
    ghost use Rattle.frame_engine.specs.Handling.{nothing_at_end};
    ghost use Rattle.archive_engine.specs.Archived.{archive_handling};
    ghost use Rattle.archive_engine.specs.Gathering.{GathersFrom};
    ghost use Rattle.archive_engine.specs.GatheringLaws.{gathered_long, gathered_none};

    ghost handles = { λ g. archive_handling g.reading };

    ghost reports = { λ _. noted_line };

    ghost ends = { λ _. nothing_at_end };

    ghost stands = { λ first now frames. GathersFrom S.holds first now frames };

    fn on_frame(
        &mut self,
        number: u64,
        frame: &[u8],
        effects: &mut Effects,
    ) -> Result<(), AllocError> {
        match read_frame(self.reading, number, frame) {
            Ok(read) => self.add(&read),
            Err(line) => add_refusal(line, effects),
        }
    }

    fn report(&self, line: Line, effects: &mut Effects) -> Result<(), AllocError> {
        add_refusal(line, effects)
    }

    fn end(&self, _effects: &mut Effects) -> Result<(), AllocError> {
        Ok(())
    }

    ghost begun = { λ d. (
      refl,
      λ h.
          gathered_none S.holds d.reading d.set h,
    ) };

    ghost long = { λ d n f h. inl (h, refl) };

    ghost passed = { λ first d frames f h stands. (
      stands.0,
      λ k. gathered_long S.holds first.reading d.set frames f h (stands.1 k),
    ) };
}
