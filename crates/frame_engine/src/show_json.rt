//! `show --json`: each record as one line of JSON.

ghost use Rattle.std.specs.Prelude.{◌≡◌, List, ℕ, OnErr, OnOk};
ghost use Rattle.syslog_fields.specs.Appending.{Adds as AddsText};
ghost use Rattle.syslog_legacy.specs.Views.{legacy_view_parts};
ghost use Rattle.syslog_legacy.specs.declared.frame_reading.FrameReading.{FrameReading};
ghost use Rattle.record_json.specs.Objects.{JsonLine};
ghost use Rattle.driver.specs.Effects.{Adds, done_of};
ghost use Rattle.frame_engine.specs.Readings.{IsReadingOf};
ghost use Rattle.frame_engine.specs.ShowingJson.{ShowsJson};

use crate::convert::add_refusal;
use crate::frame_handler::FrameHandler;
use crate::line::Line;
use crate::reading::{Reading, read_frame};
use driver::Effects;
use record_json::{LentParts, put_json_line, put_lent_line};
use std::alloc::{AllocError, Global};
use syslog_grammar::fields::{HeaderValues, MessageView};
use syslog_legacy::{FrameReading, LegacyView};

/// Writes each record as one line of JSON, and notes why a frame is no record.
#[derive(Clone, Copy, Debug)]
pub struct ShowJson {
    /// The allocator for records whose element ids do not ascend.
    pub alloc: Global,
    /// How frames are read.
    pub reading: FrameReading,
}

// Appends the line of a legacy packet's record.
fn put_legacy_line(view: &LegacyView<'_>, out: &mut Vec<u8>) -> Result<(), AllocError>
    ensures ok { OnOk result (AddsText (JsonLine (legacy_view_parts view.now))
        out.old.items out.new.items) }
    ensures err { OnErr result (out.new.items ≡ out.old.items) }
{
    let header = HeaderValues {
        priority: view.priority(),
        instant: view.instant(),
        hostname: view.hostname(),
        app_name: view.app_name(),
        proc_id: view.proc_id(),
        msg_id: None,
    };
    let message = MessageView {
        octets: view.message(),
        has_mark: view.has_mark(),
    };
    let parts = LentParts {
        header,
        structured_data: b"-",
        message,
    };
    put_lent_line(&parts, out)
}

// Appends the line of the record that a frame was read as.
fn put_reading_line(
    alloc: Global,
    reading: &Reading<'_>,
    effects: &mut Effects,
) -> Result<(), AllocError>
    ensures ok { (way : FrameReading) (f : List ℕ) → IsReadingOf way f reading.now
        → OnOk result (Adds (ShowsJson way f) (done_of effects.old) (done_of effects.new)) }
    ensures err { OnErr result (done_of effects.new ≡ done_of effects.old) }
{
    match reading {
        Reading::Record(view) => {
            put_json_line(alloc, view, &mut effects.scratch, &mut effects.output)
        }
        Reading::Legacy(view) => put_legacy_line(view, &mut effects.output),
    }
}

impl ShowJson {
    ghost use Rattle.frame_engine.specs.ShowingJson.{show_json_handling};

    // Writes the line of the record that a frame is, or notes why it is none.
    fn show(&self, number: u64, frame: &[u8], effects: &mut Effects) -> Result<(), AllocError>
        ensures ok { OnOk result (Adds (show_json_handling self.now.reading number frame.now)
            (done_of effects.old) (done_of effects.new)) }
        ensures err { OnErr result (done_of effects.new ≡ done_of effects.old) }
    {
        match read_frame(self.reading, number, frame) {
            Ok(reading) => put_reading_line(self.alloc, &reading, effects),
            Err(line) => add_refusal(line, effects),
        }
    }
}

impl FrameHandler for ShowJson {
    ghost use Rattle.std.proofs.Common.{inl, inr, refl};
    ghost use Rattle.frame_engine.specs.Handling.{nothing_at_end};
    ghost use Rattle.frame_engine.specs.Converted.{noted_line};
    ghost use Rattle.frame_engine.specs.ShowingJson.{show_json_handling};
    ghost use Rattle.frame_engine.specs.declared.line.Line.TheVariants.{TooLong};

    ghost handles = { λ c. show_json_handling c.reading };

    ghost reports = { λ _. noted_line };

    ghost ends = { λ _. nothing_at_end };

    ghost stands = { λ first now frames. now ≡ first };

    fn on_frame(
        &mut self,
        number: u64,
        frame: &[u8],
        effects: &mut Effects,
    ) -> Result<(), AllocError> {
        self.show(number, frame, effects)
    }

    fn report(&self, line: Line, effects: &mut Effects) -> Result<(), AllocError> {
        add_refusal(line, effects)
    }

    fn end(&self, _effects: &mut Effects) -> Result<(), AllocError> {
        Ok(())
    }

    ghost begun = { λ d. refl };

    ghost long = { λ d n f h. inr (TooLong n, inl (h, refl), refl) };

    ghost passed = { λ first d frames f h stands. stands };
}
