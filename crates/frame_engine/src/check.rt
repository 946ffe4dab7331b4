//! `check`: one line for each frame.

ghost use Rattle.std.specs.Prelude.{◌≡◌, OnErr, OnOk};
ghost use Rattle.frame_engine.specs.Checked.{refused_line};
ghost use Rattle.frame_engine.specs.Converted.{goes_out};
ghost use Rattle.frame_engine.specs.Line.{line_text};
ghost use Rattle.frame_engine.specs.declared.line.Line.TheVariants.{Accepted};
ghost use Rattle.driver.specs.Effects.{done_of, then_done};
ghost use Rattle.frame_engine.specs.declared.line.Line.{Line};

use crate::frame_handler::FrameHandler;
use crate::line::{Line, put_line};
use crate::reading::refusal;
use driver::Effects;
use std::alloc::AllocError;
use syslog_legacy::FrameReading;

/// Writes for each frame whether it is a record, and if not, why. No frame is copied.
#[derive(Clone, Copy, Debug)]
pub struct Check {
    /// How frames are read.
    pub reading: FrameReading,
}

// Reports a refusal on the output.
pub(crate) fn refuse(line: Line, effects: &mut Effects) -> Result<(), AllocError>
    ensures ok { OnOk result (done_of effects.new ≡ then_done (done_of effects.old) (refused_line line)) }
    ensures err { OnErr result (done_of effects.new ≡ done_of effects.old) }
{
    put_line(&mut effects.output, line)?;
    effects.refused = true;
    Ok(())
}

// Says that a frame is a record.
pub(crate) fn accept(number: u64, effects: &mut Effects) -> Result<(), AllocError>
    ensures ok { OnOk result (done_of effects.new
        ≡ then_done (done_of effects.old) (goes_out (line_text (Accepted number)))) }
    ensures err { OnErr result (done_of effects.new ≡ done_of effects.old) }
{
    put_line(&mut effects.output, Line::Accepted { number })
}

impl Check {
    ghost use Rattle.driver.specs.Effects.{Adds};
    ghost use Rattle.frame_engine.specs.Checked.{check_handling};

    // Says of a frame whether it is a record.
    fn check(&self, number: u64, frame: &[u8], effects: &mut Effects) -> Result<(), AllocError>
        ensures ok { OnOk result (Adds (check_handling self.now.reading number frame.now)
            (done_of effects.old) (done_of effects.new)) }
        ensures err { OnErr result (done_of effects.new ≡ done_of effects.old) }
    {
        match refusal(self.reading, number, frame) {
            None => accept(number, effects),
            Some(line) => refuse(line, effects),
        }
    }
}

impl FrameHandler for Check {
    ghost use Rattle.std.proofs.Common.{inl, inr, refl};
    ghost use Rattle.frame_engine.specs.Handling.{nothing_at_end};
    ghost use Rattle.frame_engine.specs.Checked.{check_handling};
    ghost use Rattle.frame_engine.specs.declared.line.Line.TheVariants.{TooLong};

    ghost handles = { λ c. check_handling c.reading };

    ghost reports = { λ _. refused_line };

    ghost ends = { λ _. nothing_at_end };

    ghost stands = { λ first now frames. now ≡ first };

    fn on_frame(
        &mut self,
        number: u64,
        frame: &[u8],
        effects: &mut Effects,
    ) -> Result<(), AllocError> {
        self.check(number, frame, effects)
    }

    fn report(&self, line: Line, effects: &mut Effects) -> Result<(), AllocError> {
        refuse(line, effects)
    }

    fn end(&self, _effects: &mut Effects) -> Result<(), AllocError> {
        Ok(())
    }

    ghost begun = { λ d. refl };

    ghost long = { λ d n f h. inr (TooLong n, inl (h, refl), refl) };

    ghost passed = { λ first d frames f h stands. stands };
}
