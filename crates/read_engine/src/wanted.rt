//! Of records that come, those are written that meet conditions.

ghost use Rattle.std.specs.Prelude.{◌≡◌, None, Some};
ghost use Rattle.octet_devices.specs.Device.{InputState};
ghost use Rattle.driver.specs.Devices.{devices};
ghost use Rattle.driver.specs.Run.{Ran};
ghost use Rattle.record_choice.specs.Choices.{choice_meaning};
ghost use Rattle.read_engine.specs.Readings.{IsWanted};

use crate::record_test::RecordTest;
use archive_sets::Conditions;
use driver::drive;
use octet_devices::{FromRead, Output};
use record_choice::ChosenFrames;
use std::alloc::Global;

/// Writes, of the counted frames of a text, those that are records which meet the conditions, in their canonical
/// form, one after the other. Returns the exit status: `DONE`; `REFUSED` if the text ends inside a frame; `FAULT` if
/// the output failed; `NO_MEMORY` if memory ran out. A line says what went wrong.
pub fn write_wanted<W: Output, N: Output>(
    alloc: Global,
    text: &[u8],
    conditions: &Conditions<'_>,
    output: &mut W,
    diagnostics: &mut N,
) -> u8
    ensures { (input : InputState) × (input_new : InputState) × (input.left ≡ Some text.now)
        × Ran (choice_meaning (IsWanted conditions.now) None)
        (devices input (W.state output.old) (N.state diagnostics.old))
        (devices input_new (W.state output.new) (N.state diagnostics.new)) result }
{
    let mut chosen = ChosenFrames::new(alloc, RecordTest { conditions }, None);
    let mut input = FromRead::new(text);
    drive(alloc, &mut chosen, &mut input, output, diagnostics)
}
