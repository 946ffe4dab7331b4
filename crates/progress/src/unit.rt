//! What is counted.

ghost use Rattle.std.specs.Prelude.{◌≡◌};
ghost use Rattle.progress.specs.Line.{unit_name};

/// What is counted.
#[derive(Clone, Copy, Debug, PartialEq, Eq)]
pub enum ProgressUnit {
    /// Octets of an input.
    Octets,
    /// Files of a folder.
    Files,
}

/// The name of a unit, in the plural.
pub(crate) fn name_of(unit: ProgressUnit) -> &'static [u8]
    ensures { result.now ≡ unit_name unit }
{
    match unit {
        ProgressUnit::Octets => b"octets",
        ProgressUnit::Files => b"files",
    }
}
