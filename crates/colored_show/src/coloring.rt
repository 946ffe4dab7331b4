//! What was shown, in colors.

ghost use Rattle.std.specs.Prelude.{◌≡◌, ◌++◌, List, ℕ, OnErr, OnOk};
ghost use Rattle.driver.specs.Effects.{Adds, done_of};
ghost use Rattle.colored_show.specs.Coloring.{IsColored};

use crate::painting::put_painted;
use driver::Effects;
use std::alloc::AllocError;
use syslog_value::Severity;

// Adds what was shown, with colors; where memory runs out, possibly a part of its output.
fn append_colored(
    severity: Severity,
    shown: &Effects,
    effects: &mut Effects,
) -> Result<(), AllocError>
    ensures ok { OnOk result (Adds (IsColored severity (done_of shown.now))
        (done_of effects.old) (done_of effects.new)) }
    ensures refused { OnErr result (effects.new.refused ≡ effects.old.refused) }
    ensures output { OnErr result ((part : List ℕ)
        × (effects.new.output.items ≡ effects.old.output.items ++ part)) }
    ensures diagnostics { OnErr result (effects.new.diagnostics.items
        ≡ effects.old.diagnostics.items) }
{
    put_painted(severity, shown.output.as_slice(), &mut effects.output)?;
    effects
        .diagnostics
        .extend_from_slice(shown.diagnostics.as_slice())?;
    effects.refused = effects.refused || shown.refused;
    Ok(())
}

/// Adds what was shown, with colors, whole or not at all.
///
/// # Errors
/// Out of memory: nothing is added.
pub(crate) fn add_colored(
    severity: Severity,
    shown: &Effects,
    effects: &mut Effects,
) -> Result<(), AllocError>
    ensures ok { OnOk result (Adds (IsColored severity (done_of shown.now))
        (done_of effects.old) (done_of effects.new)) }
    ensures err { OnErr result (done_of effects.new ≡ done_of effects.old) }
{
    let before = effects.output.len();
    let put = append_colored(severity, shown, effects);
    if put.is_err() {
        effects.output.truncate(before);
    }
    put
}
