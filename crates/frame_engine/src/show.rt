//! `show`: the fields of each record, one line each.

ghost use Rattle.std.specs.Prelude.{◌≡◌, List, ℕ, OnErr, OnOk};
ghost use Rattle.driver.specs.Effects.{done_of};

use crate::convert::add_refusal;
use crate::frame_handler::FrameHandler;
use crate::line::Line;
use crate::reading::read_frame;
use crate::record_lines::put_record_lines;
use driver::Effects;
use std::alloc::{AllocError, Global};
use syslog_legacy::FrameReading;

/// Writes the fields of each record, and notes why a frame is no record.
#[derive(Clone, Copy, Debug)]
pub struct Show {
    /// The allocator for records.
    pub alloc: Global,
    /// How frames are read.
    pub reading: FrameReading,
}

impl Show {
    ghost use Rattle.driver.specs.Effects.{Adds};
    ghost use Rattle.frame_engine.specs.Showing.{show_handling};

    // Writes the fields of the record that a frame is, or notes why it is none.
    fn show(&self, number: u64, frame: &[u8], effects: &mut Effects) -> Result<(), AllocError>
        ensures ok { OnOk result (Adds (show_handling self.now.reading number frame.now)
            (done_of effects.old) (done_of effects.new)) }
        ensures err { OnErr result (done_of effects.new ≡ done_of effects.old) }
    {
        match read_frame(self.reading, number, frame) {
            Ok(reading) => {
                let record = reading.to_record(self.alloc)?;
                put_record_lines(number, &record, &mut effects.output)
            }
            Err(line) => add_refusal(line, effects),
        }
    }
}

impl FrameHandler for Show {
    ghost use Rattle.std.proofs.Common.{inl, inr, refl};
    ghost use Rattle.frame_engine.specs.Handling.{nothing_at_end};
    ghost use Rattle.frame_engine.specs.Converted.{noted_line};
    ghost use Rattle.frame_engine.specs.Showing.{show_handling};
    ghost use Rattle.frame_engine.specs.declared.line.Line.TheVariants.{TooLong};

    ghost handles = { λ c. show_handling c.reading };

    ghost reports = { λ _. noted_line };

    ghost ends = { λ _. nothing_at_end };

    ghost stands = { λ first now frames. now ≡ first };

    fn on_frame(
        &mut self,
        number: u64,
        frame: &[u8],
        effects: &mut Effects,
    ) -> Result<(), AllocError> {
        self.show(number, frame, effects)
    }

    fn report(&self, line: Line, effects: &mut Effects) -> Result<(), AllocError> {
        add_refusal(line, effects)
    }

    fn end(&self, _effects: &mut Effects) -> Result<(), AllocError> {
        Ok(())
    }

    ghost begun = { λ d. refl };

    ghost long = { λ d n f h. inr (TooLong n, inl (h, refl), refl) };

    ghost passed = { λ first d frames f h stands. stands };
}
