//! `check --summary`: one line for each frame, and a last one on legacy packets.

ghost use Rattle.std.specs.Prelude.{◌≡◌};

use crate::check::{accept, refuse};
use crate::frame_handler::FrameHandler;
use crate::line::Line;
use crate::reading::{Reading, read_frame};
use crate::tally::Tally;
use driver::Effects;
use std::alloc::AllocError;
use syslog_legacy::FrameReading;

/// Writes what [`Check`](crate::Check) does, and notes at the end how many packets were read as
/// legacy ones, and how many of these have no time or no host, so that misreadings are seen.
#[derive(Clone, Copy, Debug)]
pub struct CheckSummary {
    /// How frames are read.
    pub reading: FrameReading,
    /// The packets so far.
    pub tally: Tally,
}

impl FrameHandler for CheckSummary {
    ghost use Rattle.std.proofs.Common.{inl, inr, refl};
    ghost use Rattle.frame_engine.specs.Checked.{check_handling, refused_line};
    ghost use Rattle.frame_engine.specs.Summaries.{AreTallied, summary_at_end};
    ghost use Rattle.frame_engine.specs.declared.line.Line.TheVariants.{TooLong};
    ghost use Rattle.frame_engine.specs.TallyLaws.{long_tallied, none_tallied};

    ghost handles = { λ c. check_handling c.reading };

    ghost reports = { λ _. refused_line };

    ghost ends = { λ c. summary_at_end c.reading c.tally };

    ghost stands = { λ first now frames. (now.reading ≡ first.reading)
        × AreTallied first.reading frames first.tally now.tally };

    fn on_frame(
        &mut self,
        number: u64,
        frame: &[u8],
        effects: &mut Effects,
    ) -> Result<(), AllocError> {
        match read_frame(self.reading, number, frame) {
            Ok(Reading::Record(_view)) => accept(number, effects),
            Ok(Reading::Legacy(view)) => {
                self.tally.add(&view);
                accept(number, effects)
            }
            Err(line) => refuse(line, effects),
        }
    }

    fn report(&self, line: Line, effects: &mut Effects) -> Result<(), AllocError> {
        refuse(line, effects)
    }

    fn end(&self, effects: &mut Effects) -> Result<(), AllocError> {
        self.tally.put_summary(&mut effects.diagnostics)
    }

    ghost begun = { λ d. (refl, none_tallied d.reading d.tally) };

    ghost long = { λ d n f h. inr (TooLong n, inl (h, refl), refl) };

    ghost passed = { λ first d frames f h stands. (
      stands.0,
      long_tallied first.reading frames f first.tally d.tally h stands.1,
    ) };
}
