//! A stream as a session: its records are gathered as its octets come, and sorted at its end.

ghost use Rattle.std.specs.Prelude.{◌≡◌, ◌≤◌, ◌<◌, ◌+◌, ◌^◌, false};
ghost use Rattle.syslog_frame.specs.Scan.{IsReading};
ghost use Rattle.syslog_frame.specs.declared.limits.TheConstants.{POSITION_MAX};

use crate::gathered_stream::GatheredStream;
use archive_sorting::{SortedArchive, UnsortedRecords};
use archive_text::AddFault;
use driver::{Effects, Flow, INPUT_MAX, Session};
use octet_devices::{Output, WriteFault};
use std::alloc::{AllocError, Global};
use syslog_frame::Framing;
use syslog_legacy::FrameReading;

/// A stream whose records are gathered. A line on each refusal goes to the diagnostics; the archive
/// is the rest of its output. It ends at a bad MSG-LEN, or where its input ends.
#[derive(Drop)]
pub struct ArchiveStream {
    stream: GatheredStream<UnsortedRecords, AddFault>,
    // how many more octets it takes
    room: u64,
    is_finished: bool,
    // that of the records, once the stream has ended
    archive: SortedArchive,
    ghost reading: { is_finished ≡ false → IsReading stream.scanner },
    ghost near: { is_finished ≡ false → stream.scanner.position + room ≤ POSITION_MAX },
    ghost few: { is_finished ≡ false → stream.number + room < 2 ^ 63 },
}

impl ArchiveStream {
    ghost use Rattle.std.specs.Prelude.{IfOk};
    ghost use Rattle.driver.specs.Sessions.{HasBegun};

    /// A session before the first octet of a stream.
    ///
    /// # Errors
    /// Out of memory.
    pub fn new(
        alloc: Global,
        framing: Framing,
        reading: FrameReading,
    ) -> Result<ArchiveStream, AllocError>
        ensures begun { IfOk result (λ s. HasBegun (⟦<ArchiveStream as Session>⟧.stands s s)
            (⟦<ArchiveStream as Session>⟧.means s)) }
        ensures framing { IfOk result (λ s. s.stream.scanner.framing ≡ framing) }
        ensures reading { IfOk result (λ s. s.stream.gathering.reading ≡ reading) }
    {
        let stream = GatheredStream::new(alloc, framing, reading, UnsortedRecords::new(alloc))?;
        Ok(ArchiveStream {
            stream,
            room: INPUT_MAX,
            is_finished: false,
            archive: UnsortedRecords::new(alloc).settle(),
        })
    }
}

impl Session for ArchiveStream {
    ghost use Rattle.std.specs.Prelude.{[]};
    ghost use Rattle.archive_text.specs.Text.{text_of};
    ghost use Rattle.archive_sorting.specs.Records.{entries_in};
    ghost use Rattle.frame_engine.specs.Sessions.{StreamStands};
    ghost use Rattle.frame_engine.specs.declared.input_framing.InputFraming.TheVariants.{Stream};
    ghost use Rattle.archive_engine.specs.Archived.{archive_meaning};
    ghost use Rattle.archive_engine.specs.Gathering.{GathersFrom, Holds};

    ghost means = { λ s. archive_meaning s.stream.gathering.reading (Stream s.stream.scanner.framing) };

    ghost rest = { λ s. text_of (entries_in s.archive) };

    ghost stands = { λ first now given. Holds first.stream.gathering.set []
        × StreamStands (GathersFrom Holds first.stream.gathering now.stream.gathering)
        first.stream.scanner.framing now.stream.scanner now.stream.number now.room now.is_finished
        given };

    fn take(&mut self, piece: &[u8], effects: &mut Effects) -> Result<Flow, AllocError> {
        if self.is_finished || piece.len() as u64 > self.room {
            return Ok(Flow::Finished);
        }
        // until it is known to go on
        self.is_finished = true;
        self.room -= piece.len() as u64;
        match self.stream.take(piece, effects)? {
            Flow::Continue => {
                self.is_finished = false;
                Ok(Flow::Continue)
            }
            Flow::Finished => {
                self.archive = self.stream.gathering.settle();
                Ok(Flow::Finished)
            }
        }
    }

    fn end(&mut self, effects: &mut Effects) -> Result<(), AllocError> {
        if self.is_finished {
            return Ok(());
        }
        self.stream.end(effects)?;
        self.archive = self.stream.gathering.settle();
        Ok(())
    }

    fn write_rest<W: Output>(&self, output: &mut W) -> Result<(), WriteFault> {
        self.archive.write(output)
    }
}
