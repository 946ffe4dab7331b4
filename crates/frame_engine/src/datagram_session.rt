//! A datagram as a session: what it holds is one frame.

ghost use Rattle.std.specs.Prelude.{◌≡◌, ◌+◌, ◌∷◌, [], List, ℕ, OnErr, OnOk, take};
ghost use Rattle.syslog_frame.specs.declared.limits.TheConstants.{FRAME_MAX};
ghost use Rattle.driver.specs.Effects.{Adds, done_of};

use crate::closing::Mark;
use crate::frame_handler::FrameHandler;
use crate::line::Line;
use driver::{Effects, Flow, Session};
use octet_devices::{Output, WriteFault};
use std::alloc::{AllocError, Global};
use syslog_frame::FRAME_MAX;

// one octet more than a frame has tells a datagram that is too long
const KEPT_MAX: usize = FRAME_MAX + 1;

/// A datagram, which a handler is given as the first frame. Of one that is too long only the first
/// octets are kept.
#[derive(Drop)]
pub struct DatagramSession<D> {
    handler: D,
    kept: Vec<u8>,
}

impl<D: FrameHandler> DatagramSession<D> {
    ghost use Rattle.std.specs.Prelude.{◌≡◌};
    ghost use Rattle.driver.specs.Sessions.{HasBegun};

    /// A session before the first octet of a datagram.
    pub fn new(alloc: Global, handler: D) -> DatagramSession<D>
        ensures begun { HasBegun (⟦<DatagramSession<D> as Session>⟧.stands result result)
            (⟦<DatagramSession<D> as Session>⟧.means result) }
        ensures handler { result.handler ≡ handler }
    {
        DatagramSession {
            handler,
            kept: Vec::new(alloc),
        }
    }

    // Handles the datagram, of which this is kept.
    fn handle(&mut self, effects: &mut Effects) -> Result<(), AllocError>
        ensures ok { OnOk result ((first : D) (given : List ℕ)
            → self.old.kept.items ≡ take (FRAME_MAX + 1) given → D.stands first self.old.handler []
            → Adds (D.handles first 1 given) (done_of effects.old) (done_of effects.new)
            × D.stands first self.new.handler (given ∷ [])) }
        ensures err { OnErr result (done_of effects.new ≡ done_of effects.old) }
    {
        if self.kept.len() > FRAME_MAX {
            return self.handler.report(Line::TooLong { number: 1 }, effects);
        }
        self.handler.on_frame(1, self.kept.as_slice(), effects)
    }
}

impl<D: FrameHandler> Session for DatagramSession<D> {
    ghost use Rattle.frame_engine.specs.Sessions.{handler_meaning};
    ghost use Rattle.frame_engine.specs.declared.input_framing.InputFraming.TheVariants.{Datagram};

    ghost means = { λ s. handler_meaning (D.handles s.handler) (D.reports s.handler)
        (D.ends s.handler) Datagram };

    ghost rest = { λ _. [] };

    ghost stands = { λ first now given. D.stands first.handler now.handler []
        × (now.kept.items ≡ take (FRAME_MAX + 1) given) };

    fn take(&mut self, piece: &[u8], _effects: &mut Effects) -> Result<Flow, AllocError> {
        let room = piece.len().min(KEPT_MAX.saturating_sub(self.kept.len()));
        self.kept.extend_from_slice(&piece[..room])?;
        Ok(Flow::Continue)
    }

    fn end(&mut self, effects: &mut Effects) -> Result<(), AllocError> {
        let mark = Mark::of(effects);
        self.handle(effects)?;
        let ended = self.handler.end(effects);
        if ended.is_err() {
            mark.take_back(effects);
        }
        ended
    }

    fn write_rest<W: Output>(&self, _output: &mut W) -> Result<(), WriteFault> {
        Ok(())
    }
}
