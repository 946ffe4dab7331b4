//! Conditions on records as a test of frames.

ghost use Rattle.read_engine.specs.Readings.{IsWanted};

use archive_sets::{Condition, Conditions};
use archive_text::entry_of_octets;
use record_choice::FrameTest;

/// The frames that are records, in their canonical form, which meet conditions.
#[derive(Clone, Copy, Debug, PartialEq, Eq)]
pub(crate) struct RecordTest<'a> {
    pub(crate) conditions: &'a Conditions<'a>,
}

impl<'a> FrameTest for RecordTest<'a> {
    ghost passes = { λ t. IsWanted t.conditions.now };

    fn is_passed(&self, frame: &[u8]) -> bool {
        match entry_of_octets(frame) {
            Ok(entry) => self.conditions.holds(&entry),
            Err(_) => false,
        }
    }
}
