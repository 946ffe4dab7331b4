//! The end of what a handler is given: it is done whole, or not at all.

ghost use Rattle.std.specs.Prelude.{◌≡◌, List, ℕ, OnErr, OnOk, Option};
ghost use Rattle.driver.specs.Effects.{Adds, Done, done_of, then_done};
ghost use Rattle.frame_engine.specs.Streams.{of_line};
ghost use Rattle.frame_engine.specs.Closing.{Closes, IsMarkOf};

use crate::frame_handler::FrameHandler;
use crate::line::Line;
use driver::Effects;
use std::alloc::AllocError;

/// How much was done.
#[derive(Clone, Copy, Debug)]
pub struct Mark {
    output: usize,
    diagnostics: usize,
    refused: bool,
}

impl Mark {
    /// What has been done so far.
    pub fn of(effects: &Effects) -> Mark
        ensures { IsMarkOf (done_of effects.now) result }
    {
        Mark {
            output: effects.output.len(),
            diagnostics: effects.diagnostics.len(),
            refused: effects.refused,
        }
    }

    /// Takes back what has been done since.
    pub fn take_back(self, effects: &mut Effects)
        ensures { (done more : Done) → IsMarkOf done self
            → done_of effects.old ≡ then_done done more → done_of effects.new ≡ done }
    {
        effects.output.truncate(self.output);
        effects.diagnostics.truncate(self.diagnostics);
        effects.refused = self.refused;
    }
}

// Reports a line, if there is one.
fn report_any<D: FrameHandler>(
    handler: &D,
    line: Option<Line>,
    effects: &mut Effects,
) -> Result<(), AllocError>
    ensures ok { OnOk result ((first : D) (frames : List (List ℕ)) → D.stands first handler.now frames
        → done_of effects.new ≡ then_done (done_of effects.old) (of_line (D.reports first) line)) }
    ensures err { OnErr result (done_of effects.new ≡ done_of effects.old) }
{
    match line {
        None => Ok(()),
        Some(line) => handler.report(line, effects),
    }
}

/// Reports the line on the end of a stream, if there is one, and ends the handler.
///
/// # Errors
/// Out of memory: nothing was done.
pub fn close_frames<D: FrameHandler>(
    handler: &D,
    line: Option<Line>,
    effects: &mut Effects,
) -> Result<(), AllocError>
    ensures ok { OnOk result ((first : D) (frames : List (List ℕ)) → D.stands first handler.now frames
        → Adds (Closes (D.ends first frames) (of_line (D.reports first) line))
        (done_of effects.old) (done_of effects.new)) }
    ensures err { OnErr result (done_of effects.new ≡ done_of effects.old) }
{
    let mark = Mark::of(effects);
    report_any(handler, line, effects)?;
    let ended = handler.end(effects);
    if ended.is_err() {
        mark.take_back(effects);
    }
    ended
}
