//! A stream as a session: its frames are handled as its octets come.

ghost use Rattle.std.specs.Prelude.{◌≡◌, ◌≤◌, ◌<◌, ◌+◌, ◌^◌, false};
ghost use Rattle.syslog_frame.specs.Scan.{IsReading};
ghost use Rattle.syslog_frame.specs.declared.limits.TheConstants.{POSITION_MAX};

use crate::closing::close_frames;
use crate::frame_handler::FrameHandler;
use crate::line::Line;
use crate::stream::{end_line, feed};
use driver::{Effects, Flow, INPUT_MAX, Session};
use octet_devices::{Output, WriteFault};
use std::alloc::{AllocError, Global};
use syslog_frame::{Framing, POSITION_MAX, Scanner};

/// A stream whose frames a handler is given in order. It ends at a bad MSG-LEN, or where its input
/// ends.
#[derive(Drop)]
pub struct StreamSession<D> {
    handler: D,
    scanner: Scanner,
    // that of the next frame
    number: u64,
    // how many more octets it takes
    room: u64,
    is_finished: bool,
    ghost reading: { is_finished ≡ false → IsReading scanner },
    ghost near: { is_finished ≡ false → scanner.position + room ≤ POSITION_MAX },
    ghost few: { is_finished ≡ false → number + room < 2 ^ 63 },
}

impl<D: FrameHandler + Drop> StreamSession<D> {
    ghost use Rattle.std.specs.Prelude.{◌≡◌, IfOk};
    ghost use Rattle.driver.specs.Sessions.{HasBegun};

    /// A session before the first octet of a stream.
    ///
    /// # Errors
    /// Out of memory.
    pub fn new(alloc: Global, framing: Framing, handler: D) -> Result<StreamSession<D>, AllocError>
        ensures begun { IfOk result (λ s. HasBegun (⟦<StreamSession<D> as Session>⟧.stands s s)
            (⟦<StreamSession<D> as Session>⟧.means s)) }
        ensures handler { IfOk result (λ s. s.handler ≡ handler) }
        ensures framing { IfOk result (λ s. s.scanner.framing ≡ framing) }
    {
        let scanner = Scanner::new(alloc, framing)?;
        Ok(StreamSession {
            handler,
            scanner,
            number: 1,
            room: INPUT_MAX,
            is_finished: false,
        })
    }
}

impl<D: FrameHandler> Session for StreamSession<D> {
    ghost use Rattle.std.specs.Prelude.{[]};
    ghost use Rattle.frame_engine.specs.Sessions.{StreamStands, handler_meaning};
    ghost use Rattle.frame_engine.specs.declared.input_framing.InputFraming.TheVariants.{Stream};

    ghost means = { λ s. handler_meaning (D.handles s.handler) (D.reports s.handler)
        (D.ends s.handler) (Stream s.scanner.framing) };

    ghost rest = { λ _. [] };

    ghost stands = { λ first now given. StreamStands (D.stands first.handler now.handler)
        first.scanner.framing now.scanner now.number now.room now.is_finished given };

    fn take(&mut self, piece: &[u8], effects: &mut Effects) -> Result<Flow, AllocError> {
        if self.is_finished || piece.len() as u64 > self.room {
            return Ok(Flow::Finished);
        }
        // until it is known to go on
        self.is_finished = true;
        self.room -= piece.len() as u64;
        let bad = feed(
            &mut self.handler,
            &mut self.scanner,
            &mut self.number,
            piece,
            effects,
        )?;
        let Some(at) = bad else {
            self.is_finished = false;
            return Ok(Flow::Continue);
        };
        let number = self.number;
        close_frames(&self.handler, Some(Line::BadCount { number, at }), effects)?;
        Ok(Flow::Finished)
    }

    fn end(&mut self, effects: &mut Effects) -> Result<(), AllocError> {
        if self.is_finished {
            return Ok(());
        }
        close_frames(&self.handler, end_line(&self.scanner), effects)
    }

    fn write_rest<W: Output>(&self, _output: &mut W) -> Result<(), WriteFault> {
        Ok(())
    }
}
