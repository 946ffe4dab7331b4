//! What comes of a session is held back until there is much of it.

ghost use Rattle.std.specs.Prelude.{OnOk};
ghost use Rattle.driver.specs.Effects.{IsWrittenOut, done_of};
ghost use Rattle.driver.specs.Holding.{Flushes};

use driver::{Effects, Stopped};
use octet_devices::{Output, write_all};

// the octets held back before they are written
const LARGE: usize = 65_536;

/// Writes the diagnostics and then the output, so that nothing is held back.
pub fn flush<W: Output, N: Output>(
    effects: &mut Effects,
    output: &mut W,
    diagnostics: &mut N,
) -> Result<(), Stopped>
    ensures flushes { Flushes (W.state output.old) (N.state diagnostics.old)
        (W.state output.new) (N.state diagnostics.new)
        (done_of effects.old) (done_of effects.new) result }
    ensures clear { OnOk result (IsWrittenOut (done_of effects.new)) }
{
    let reported = write_all(diagnostics, effects.diagnostics.as_slice());
    effects.diagnostics.clear();
    let written = write_all(output, effects.output.as_slice());
    effects.output.clear();
    match (reported, written) {
        (Ok(()), Ok(())) => Ok(()),
        (Ok(()), Err(_)) => Err(Stopped::Write),
        (Err(_), _) => Err(Stopped::Diagnostics),
    }
}

/// Writes what is held back once it is much.
pub fn flush_due<W: Output, N: Output>(
    effects: &mut Effects,
    output: &mut W,
    diagnostics: &mut N,
) -> Result<(), Stopped>
    ensures { Flushes (W.state output.old) (N.state diagnostics.old)
        (W.state output.new) (N.state diagnostics.new)
        (done_of effects.old) (done_of effects.new) result }
{
    if effects.output.len() < LARGE && effects.diagnostics.len() < LARGE {
        return Ok(());
    }
    flush(effects, output, diagnostics)
}
