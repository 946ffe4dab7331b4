//! `convert`: the canonical octets of each record.

ghost use Rattle.std.specs.Prelude.{◌≡◌, ◌<◌, OnErr, OnOk, length};
ghost use Rattle.frame_engine.specs.Converted.{Framed, noted_line};
ghost use Rattle.driver.specs.Effects.{Adds, done_of, then_done};

use crate::frame_handler::FrameHandler;
use crate::line::{Line, put_line};
use crate::reading::put_reading;
use driver::Effects;
use std::alloc::{AllocError, Global};
use syslog_frame::{Framing, PutFault, put_frame};
use syslog_legacy::FrameReading;

/// Writes the canonical octets of each record, and notes why a frame has none.
#[derive(Clone, Copy, Debug)]
pub struct Convert {
    /// The allocator for records whose element ids do not ascend.
    pub alloc: Global,
    /// How frames are read.
    pub reading: FrameReading,
    /// The framing of the output; None: bare octets.
    pub to: Option<Framing>,
}

/// Notes a refusal. It fails only when out of memory, and then notes nothing.
pub fn add_refusal(line: Line, effects: &mut Effects) -> Result<(), AllocError>
    ensures ok { OnOk result (done_of effects.new ≡ then_done (done_of effects.old) (noted_line line)) }
    ensures err { OnErr result (done_of effects.new ≡ done_of effects.old) }
{
    put_line(&mut effects.diagnostics, line)?;
    effects.refused = true;
    Ok(())
}

// Appends the canonical octets in the scratch buffer to the output, in a framing.
fn put_framed(framing: Framing, number: u64, effects: &mut Effects) -> Result<(), AllocError>
    requires { 0 < length effects.old.scratch.items }
    ensures ok { OnOk result (Adds (Framed framing number effects.old.scratch.items)
        (done_of effects.old) (done_of effects.new)) }
    ensures err { OnErr result (done_of effects.new ≡ done_of effects.old) }
{
    match put_frame(framing, effects.scratch.as_slice(), &mut effects.output) {
        Ok(()) => Ok(()),
        Err(PutFault::HasLf) => add_refusal(Line::HasLf { number }, effects),
        Err(PutFault::TooLong) => add_refusal(Line::CanonicalTooLong { number }, effects),
        Err(PutFault::Memory) => Err(AllocError),
        Err(PutFault::Empty) => unreachable!(),
    }
}

impl Convert {
    ghost use Rattle.frame_engine.specs.Converted.{convert_handling};

    // Writes the canonical octets of the record that a frame is, or notes why there are none.
    fn convert(&self, number: u64, frame: &[u8], effects: &mut Effects) -> Result<(), AllocError>
        ensures ok { OnOk result (Adds (convert_handling self.now.reading self.now.to number frame.now)
            (done_of effects.old) (done_of effects.new)) }
        ensures err { OnErr result (done_of effects.new ≡ done_of effects.old) }
    {
        let Some(framing) = self.to else {
            let out = &mut effects.output;
            return match put_reading(self.reading, number, frame, self.alloc, out)? {
                None => Ok(()),
                Some(line) => add_refusal(line, effects),
            };
        };
        effects.scratch.clear();
        let out = &mut effects.scratch;
        match put_reading(self.reading, number, frame, self.alloc, out)? {
            None => put_framed(framing, number, effects),
            Some(line) => add_refusal(line, effects),
        }
    }
}

impl FrameHandler for Convert {
    ghost use Rattle.std.proofs.Common.{inl, inr, refl};
    ghost use Rattle.frame_engine.specs.Handling.{nothing_at_end};
    ghost use Rattle.frame_engine.specs.Converted.{convert_handling, noted_line};
    ghost use Rattle.frame_engine.specs.declared.line.Line.TheVariants.{TooLong};

    ghost handles = { λ c. convert_handling c.reading c.to };

    ghost reports = { λ _. noted_line };

    ghost ends = { λ _. nothing_at_end };

    ghost stands = { λ first now frames. now ≡ first };

    fn on_frame(
        &mut self,
        number: u64,
        frame: &[u8],
        effects: &mut Effects,
    ) -> Result<(), AllocError> {
        self.convert(number, frame, effects)
    }

    fn report(&self, line: Line, effects: &mut Effects) -> Result<(), AllocError> {
        add_refusal(line, effects)
    }

    fn end(&self, _effects: &mut Effects) -> Result<(), AllocError> {
        Ok(())
    }

    ghost begun = { λ d. refl };

    ghost long = { λ d n f h. inr (TooLong n, inl (h, refl), refl) };

    ghost passed = { λ first d frames f h stands. stands };
}
