//! A stream whose records are added to a set.

ghost use Rattle.std.specs.Prelude.{◌≡◌, ◌≤◌, ◌<◌, ◌+◌, ◌^◌, ◌++◌, ℕ, List, [], length};
ghost use Rattle.std.specs.Prelude.{IfOk, MatchResult, OnErr};
ghost use Rattle.syslog_frame.specs.Scan.{IsReading};
ghost use Rattle.syslog_frame.specs.declared.framing.Framing.{Framing};
ghost use Rattle.syslog_frame.specs.declared.limits.TheConstants.{POSITION_MAX};
ghost use Rattle.driver.specs.Effects.{Done, done_of, nothing, then_done};
ghost use Rattle.driver.specs.declared.session.Flow.TheVariants.{Continue};
ghost use Rattle.frame_engine.specs.Converted.{noted_line};
ghost use Rattle.frame_engine.specs.Sessions.{EndsInput};
ghost use Rattle.frame_engine.specs.Streams.{HasHandled, HasPart};
ghost use Rattle.frame_engine.specs.declared.input_framing.InputFraming.TheVariants.{Stream};
ghost use Rattle.archive_engine.specs.Archived.{archive_handling};
ghost use Rattle.archive_engine.specs.Gathering.{GathersFrom, GoesOrEnds, only_at_end};
ghost use Rattle.archive_engine.specs.declared.gathering.Gathering.{Gathering};

use crate::gathering::Gathering;
use archive_sorting::RecordSet;
use driver::{Effects, Flow};
use frame_engine::{Line, add_refusal, end_line, feed};
use std::alloc::{AllocError, Global};
use syslog_frame::{Framing, Scanner};
use syslog_legacy::FrameReading;

/// A stream whose records are added to a set. It ends at a bad MSG-LEN, or where its input ends.
#[derive(Drop)]
pub struct GatheredStream<S, F> {
    /// What is done with its frames.
    pub gathering: Gathering<S, F>,
    /// The scanner of the stream.
    pub scanner: Scanner,
    /// The number of the next frame, from 1.
    pub number: u64,
}

impl<S: RecordSet + Drop> GatheredStream<S, S::Fault> {
    /// A stream before its first octet.
    ///
    /// # Errors
    /// Out of memory.
    pub fn new(
        alloc: Global,
        framing: Framing,
        reading: FrameReading,
        set: S,
    ) -> Result<GatheredStream<S, S::Fault>, AllocError>
        ensures begun { IfOk result (λ s. HasHandled (archive_handling s.gathering.reading)
            (GathersFrom S.holds s.gathering s.gathering) s.scanner framing [] s.number nothing) }
        ensures is_reading { IfOk result (λ s. IsReading s.scanner) }
        ensures framing { IfOk result (λ s. s.scanner.framing ≡ framing) }
        ensures position { IfOk result (λ s. s.scanner.position ≡ 0) }
        ensures number { IfOk result (λ s. s.number ≡ 1) }
        ensures reading { IfOk result (λ s. s.gathering.reading ≡ reading) }
        ensures set { IfOk result (λ s. s.gathering.set ≡ set) }
    {
        let scanner = Scanner::new(alloc, framing)?;
        Ok(GatheredStream {
            gathering: Gathering {
                alloc,
                reading,
                set,
                fault: None,
            },
            scanner,
            number: 1,
        })
    }

    /// Takes the next octets, and adds the lines on them to the effects.
    ///
    /// # Errors
    /// Out of memory, or a record was not added: the effects hold the lines on some of the octets.
    pub fn take(&mut self, piece: &[u8], effects: &mut Effects) -> Result<Flow, AllocError>
        requires reading { IsReading self.old.scanner }
        requires near { self.old.scanner.position + length piece.now ≤ POSITION_MAX }
        requires few { self.old.number + length piece.now < 2 ^ 64 }
        ensures reading { IfOk result (λ flow. flow ≡ Continue → IsReading self.new.scanner) }
        ensures position { IfOk result (λ flow. flow ≡ Continue →
            self.new.scanner.position ≡ self.old.scanner.position + length piece.now) }
        ensures number { self.new.number ≤ self.old.number + length piece.now }
        ensures takes { IfOk result (λ flow. (first : Gathering S S.Fault) (kind : Framing)
            (given : List ℕ) (before : Done) → HasHandled (archive_handling first.reading)
            (GathersFrom S.holds first self.old.gathering) self.old.scanner kind given
            self.old.number (then_done before (done_of effects.old))
            → GoesOrEnds flow first.reading (GathersFrom S.holds first self.new.gathering)
            self.new.scanner kind (given ++ piece.now) self.new.number
            (then_done before (done_of effects.new))) }
        ensures err { OnErr result ((first : Gathering S S.Fault) (kind : Framing)
            (given : List ℕ) (before : Done) → HasHandled (archive_handling first.reading)
            (GathersFrom S.holds first self.old.gathering) self.old.scanner kind given
            self.old.number (then_done before (done_of effects.old))
            → HasPart (archive_handling first.reading) kind (given ++ piece.now)
            (then_done before (done_of effects.new))) }
    {
        let gathering = &mut self.gathering;
        let bad = feed(
            gathering,
            &mut self.scanner,
            &mut self.number,
            piece,
            effects,
        )?;
        let Some(at) = bad else {
            return Ok(Flow::Continue);
        };
        let number = self.number;
        add_refusal(Line::BadCount { number, at }, effects)?;
        Ok(Flow::Finished)
    }

    /// Takes the end, and adds the line on it to the effects.
    ///
    /// # Errors
    /// Out of memory: nothing is added.
    pub fn end(&self, effects: &mut Effects) -> Result<(), AllocError>
        requires { IsReading self.now.scanner }
        ensures { MatchResult result (λ _. (first : Gathering S S.Fault) (kind : Framing)
            (given : List ℕ) (before : Done) → HasHandled (archive_handling first.reading)
            (GathersFrom S.holds first self.now.gathering) self.now.scanner kind given
            self.now.number (then_done before (done_of effects.old))
            → EndsInput (archive_handling first.reading) noted_line
            (only_at_end (GathersFrom S.holds first self.now.gathering)) (Stream kind)
            given (then_done before (done_of effects.new)))
            (λ _. done_of effects.new ≡ done_of effects.old) }
    {
        let Some(line) = end_line(&self.scanner) else {
            return Ok(());
        };
        add_refusal(line, effects)
    }
}
