//! A datagram as a session: what it holds is one frame, whose record is gathered.

ghost use Rattle.std.specs.Prelude.{◌≡◌, ◌+◌, ◌∷◌, [], List, ℕ, OnErr, OnOk, take};
ghost use Rattle.syslog_frame.specs.declared.limits.TheConstants.{FRAME_MAX};
ghost use Rattle.driver.specs.Effects.{Adds, done_of};
ghost use Rattle.archive_text.specs.declared.store.AddFault.{AddFault};
ghost use Rattle.archive_sorting.specs.declared.unsorted.UnsortedRecords.{UnsortedRecords};
ghost use Rattle.archive_engine.specs.Archived.{archive_handling};
ghost use Rattle.archive_engine.specs.Gathering.{GathersFrom, Holds};
ghost use Rattle.archive_engine.specs.declared.gathering.Gathering.{Gathering};

use crate::gathering::Gathering;
use archive_sorting::{SortedArchive, UnsortedRecords};
use archive_text::AddFault;
use driver::{Effects, Flow, Session};
use frame_engine::{FrameHandler, Line};
use octet_devices::{Output, WriteFault};
use std::alloc::{AllocError, Global};
use syslog_frame::FRAME_MAX;
use syslog_legacy::FrameReading;

// one octet more than a frame has tells a datagram that is too long
const KEPT_MAX: usize = FRAME_MAX + 1;

/// A datagram whose record is gathered. A line on a refusal goes to the diagnostics; the archive
/// is the rest of its output. Of one that is too long only the first octets are kept.
#[derive(Drop)]
pub struct ArchiveDatagram {
    gathering: Gathering<UnsortedRecords, AddFault>,
    kept: Vec<u8>,
    // that of the record, once the datagram has ended
    archive: SortedArchive,
}

impl ArchiveDatagram {
    ghost use Rattle.driver.specs.Sessions.{HasBegun};

    /// A session before the first octet of a datagram.
    pub fn new(alloc: Global, reading: FrameReading) -> ArchiveDatagram
        ensures begun { HasBegun (⟦<ArchiveDatagram as Session>⟧.stands result result)
            (⟦<ArchiveDatagram as Session>⟧.means result) }
        ensures reading { result.gathering.reading ≡ reading }
    {
        ArchiveDatagram {
            gathering: Gathering {
                alloc,
                reading,
                set: UnsortedRecords::new(alloc),
                fault: None,
            },
            kept: Vec::new(alloc),
            archive: UnsortedRecords::new(alloc).settle(),
        }
    }

    // Handles the datagram, of which this is kept.
    fn handle(&mut self, effects: &mut Effects) -> Result<(), AllocError>
        ensures ok { OnOk result ((first : Gathering UnsortedRecords AddFault) (given : List ℕ)
            → self.old.kept.items ≡ take (FRAME_MAX + 1) given
            → GathersFrom Holds first self.old.gathering []
            → Adds (archive_handling first.reading 1 given) (done_of effects.old) (done_of effects.new)
            × GathersFrom Holds first self.new.gathering (given ∷ [])) }
        ensures err { OnErr result (done_of effects.new ≡ done_of effects.old) }
    {
        if self.kept.len() > FRAME_MAX {
            return self.gathering.report(Line::TooLong { number: 1 }, effects);
        }
        self.gathering.on_frame(1, self.kept.as_slice(), effects)
    }
}

impl Session for ArchiveDatagram {
    ghost use Rattle.archive_text.specs.Text.{text_of};
    ghost use Rattle.archive_sorting.specs.Records.{entries_in};
    ghost use Rattle.frame_engine.specs.declared.input_framing.InputFraming.TheVariants.{Datagram};
    ghost use Rattle.archive_engine.specs.Archived.{archive_meaning};

    ghost means = { λ s. archive_meaning s.gathering.reading Datagram };

    ghost rest = { λ s. text_of (entries_in s.archive) };

    ghost stands = { λ first now given. Holds first.gathering.set []
        × GathersFrom Holds first.gathering now.gathering []
        × (now.kept.items ≡ take (FRAME_MAX + 1) given) };

    fn take(&mut self, piece: &[u8], _effects: &mut Effects) -> Result<Flow, AllocError> {
        let room = piece.len().min(KEPT_MAX.saturating_sub(self.kept.len()));
        self.kept.extend_from_slice(&piece[..room])?;
        Ok(Flow::Continue)
    }

    fn end(&mut self, effects: &mut Effects) -> Result<(), AllocError> {
        self.handle(effects)?;
        self.archive = self.gathering.settle();
        Ok(())
    }

    fn write_rest<W: Output>(&self, output: &mut W) -> Result<(), WriteFault> {
        self.archive.write(output)
    }
}
