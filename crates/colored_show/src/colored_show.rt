//! `show` with colors.

ghost use Rattle.std.specs.Prelude.{◌≡◌, ◌%◌, ℕ, ℤ, List, OnErr, OnOk};
ghost use Rattle.syslog_value.specs.Parts.{Parts};
ghost use Rattle.syslog_value.specs.Severities.{severity_code};
ghost use Rattle.syslog_legacy.specs.declared.frame_reading.FrameReading.{FrameReading};
ghost use Rattle.driver.specs.Effects.{Adds, Done, done_of};
ghost use Rattle.frame_engine.specs.Readings.{IsReadingOf, IsRecordOf};
ghost use Rattle.frame_engine.specs.Showing.{show_handling};
ghost use Rattle.colored_show.specs.Coloring.{IsColored};
ghost use Rattle.colored_show.specs.Handling.{colored_handling};

use crate::coloring::add_colored;
use driver::Effects;
use frame_engine::{FrameHandler, Line, Reading, Show, add_refusal, read_frame};
use std::alloc::AllocError;
use syslog_value::Severity;

/// Writes the fields of each record in the color of its severity, and notes why a frame is no record.
#[derive(Clone, Copy, Debug)]
pub struct ColoredShow {
    /// What is written, but for the colors.
    pub show: Show,
}

// The severity of the record that was read.
fn severity_of(reading: &Reading<'_>) -> Severity
    ensures { (way : FrameReading) (f : List ℕ) (r : Parts ℤ) → IsReadingOf way f reading.now
        → IsRecordOf way r f → severity_code result ≡ r.priority % 8 }
{
    match reading {
        Reading::Record(view) => view.priority().severity(),
        Reading::Legacy(view) => view.priority().severity(),
    }
}

// Shows the frame with this number in the color of a severity.
fn show_colored(
    show: Show,
    severity: Severity,
    number: u64,
    frame: &[u8],
    effects: &mut Effects,
) -> Result<(), AllocError>
    ensures ok { OnOk result ((plain : Done) × show_handling show.reading number frame.now plain
        × Adds (IsColored severity plain) (done_of effects.old) (done_of effects.new)) }
    ensures err { OnErr result (done_of effects.new ≡ done_of effects.old) }
{
    let mut show = show;
    let mut shown = Effects::new(show.alloc);
    show.on_frame(number, frame, &mut shown)?;
    add_colored(severity, &shown, effects)
}

impl FrameHandler for ColoredShow {
    ghost use Rattle.std.proofs.Common.{inl, inr, refl};
    ghost use Rattle.frame_engine.specs.Converted.{noted_line};
    ghost use Rattle.frame_engine.specs.Handling.{nothing_at_end};
    ghost use Rattle.frame_engine.specs.declared.line.Line.TheVariants.{TooLong};

    ghost handles = { λ c. colored_handling c.show.reading };

    ghost reports = { λ _. noted_line };

    ghost ends = { λ _. nothing_at_end };

    ghost stands = { λ first now frames. now ≡ first };

    fn on_frame(
        &mut self,
        number: u64,
        frame: &[u8],
        effects: &mut Effects,
    ) -> Result<(), AllocError> {
        match read_frame(self.show.reading, number, frame) {
            Ok(reading) => show_colored(self.show, severity_of(&reading), number, frame, effects),
            Err(line) => add_refusal(line, effects),
        }
    }

    fn report(&self, line: Line, effects: &mut Effects) -> Result<(), AllocError> {
        add_refusal(line, effects)
    }

    fn end(&self, _effects: &mut Effects) -> Result<(), AllocError> {
        Ok(())
    }

    ghost begun = { λ d. refl };

    ghost long = { λ d n f h. (
      noted_line (TooLong n),
      inr (TooLong n, inl (h, refl), refl),
      inr (refl, refl),
    ) };

    ghost passed = { λ first d frames f h stands. stands };
}
