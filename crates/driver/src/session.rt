//! What a command does with its input. A session has no devices.

ghost use Rattle.std.specs.Prelude.{ℕ, List};
ghost use Rattle.octet_devices.specs.Transfers.{WritesAll};
ghost use Rattle.driver.specs.Effects.{done_of};
ghost use Rattle.driver.specs.Sessions.{Ends, Meaning, Takes};

use crate::effects::Effects;
use octet_devices::{Output, WriteFault};
use std::alloc::AllocError;

/// Whether a session needs more of its input.
#[derive(Clone, Copy, Debug, PartialEq, Eq)]
pub enum Flow {
    /// It takes more octets, or the end.
    Continue,
    /// Its answer is complete, whatever octets follow.
    Finished,
}

/// What a command does with its input, in whatever pieces it comes.
pub trait Session {
    // what comes of an input, for a session that begins like this
    ghost means: { Self → Meaning };

    // what it has left to write of its output behind the effects, once its answer is complete
    ghost rest: { Self → List ℕ };

    // a session that began like the first stands like the second once it was given these octets
    ghost stands: { Self → Self → List ℕ → Type 0 };

    /// Takes the next octets of the input, and adds what comes of them to the effects.
    ///
    /// # Errors
    /// Out of memory: the effects hold what came of some of the octets, and the session must not be
    /// used any more.
    fn take(&mut self, piece: &[u8], effects: &mut Effects) -> Result<Flow, AllocError>
        ensures { (first : Self) → Takes (stands first self.old) (stands first self.new)
            (rest self.new) (means first) piece.now (done_of effects.old) (done_of effects.new)
            result };

    /// Takes the end of the input, and adds what comes of it to the effects.
    ///
    /// # Errors
    /// Out of memory: the effects hold what came of the input before its end.
    fn end(&mut self, effects: &mut Effects) -> Result<(), AllocError>
        ensures { (first : Self) → Ends (stands first self.old) (rest self.new) (means first)
            (done_of effects.old) (done_of effects.new) result };

    /// Writes the rest of the output, which comes behind what the effects held. It fails if the
    /// output does.
    fn write_rest<W: Output>(&self, output: &mut W) -> Result<(), WriteFault>
        ensures { WritesAll (W.state output.old) (W.state output.new) (rest self.now) result };
}
