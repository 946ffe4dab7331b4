//! What a command does with each frame of its input.

ghost use Rattle.std.specs.Prelude.{◌≡◌, ◌<◌, ◌++◌, ◌∷◌, [], ℕ, List, length, OnOk, OnErr};
ghost use Rattle.syslog_frame.specs.declared.limits.TheConstants.{FRAME_MAX};
ghost use Rattle.driver.specs.Effects.{Adds, Done, done_of, then_done};
ghost use Rattle.frame_engine.specs.Handling.{AtEnd, Handling};
ghost use Rattle.frame_engine.specs.declared.line.Line.{Line};
ghost use Rattle.frame_engine.specs.declared.line.Line.TheVariants.{TooLong};

use crate::line::Line;
use driver::Effects;
use std::alloc::AllocError;

/// What a command does with each frame of its input, and at their end. Each call appends to what
/// was done, or leaves it as it was if memory runs out.
pub trait FrameHandler {
    // what is done with a frame, by its number and its octets
    ghost handles: { Self → Handling };

    // what is done with a line on the stream, or on a frame that was not delivered
    ghost reports: { Self → Line → Done };

    // what is done at the end of the frames
    ghost ends: { Self → AtEnd };

    // a handler that was like the first is like the second once it was given these frames
    ghost stands: { Self → Self → List (List ℕ) → Type 0 };

    /// Handles the frame with this number, from 1. A frame of more than `FRAME_MAX` octets is
    /// reported as too long.
    ///
    /// # Errors
    /// Out of memory: the handler must not be used any more.
    fn on_frame(
        &mut self,
        number: u64,
        frame: &[u8],
        effects: &mut Effects,
    ) -> Result<(), AllocError>
        ensures ok { OnOk result ((first : Self) (frames : List (List ℕ))
            → stands first self.old frames
            → Adds (handles first number frame.now) (done_of effects.old) (done_of effects.new)
            × stands first self.new (frames ++ frame.now ∷ [])) }
        ensures err { OnErr result (done_of effects.new ≡ done_of effects.old) };

    /// Reports a line.
    ///
    /// # Errors
    /// Out of memory.
    fn report(&self, line: Line, effects: &mut Effects) -> Result<(), AllocError>
        ensures ok { OnOk result ((first : Self) (frames : List (List ℕ))
            → stands first self.now frames
            → done_of effects.new ≡ then_done (done_of effects.old) (reports first line)) }
        ensures err { OnErr result (done_of effects.new ≡ done_of effects.old) };

    /// Ends, after all frames and the line on the end of the stream, if there was one.
    ///
    /// # Errors
    /// Out of memory.
    fn end(&self, effects: &mut Effects) -> Result<(), AllocError>
        ensures ok { OnOk result ((first : Self) (frames : List (List ℕ))
            → stands first self.now frames
            → Adds (ends first frames) (done_of effects.old) (done_of effects.new)) }
        ensures err { OnErr result (done_of effects.new ≡ done_of effects.old) };

    // it begins like itself
    ghost begun: { (d : Self) → stands d d [] };

    // a frame that is too long is reported as such, whatever its octets, and changes nothing else
    ghost long: { (d : Self) (n : ℕ) (f : List ℕ) → FRAME_MAX < length f →
        handles d n f (reports d (TooLong n)) };

    ghost passed: { (first d : Self) (frames : List (List ℕ)) (f : List ℕ) → FRAME_MAX < length f →
        stands first d frames → stands first d (frames ++ f ∷ []) };
}
