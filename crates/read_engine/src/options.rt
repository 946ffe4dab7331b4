//! What is read of a store, and how it is written.

ghost use Rattle.std.specs.Prelude.{◌↔◌, IsTrue};
ghost use Rattle.read_engine.specs.Options.{IsPlain};
ghost use Rattle.read_engine.specs.Readings.{IsRangeOf};

use archive_sets::{Conditions, InRange, Times};
use syslog_value::Instant;

/// As what the records are written.
#[derive(Clone, Copy, Debug, PartialEq, Eq)]
pub enum ReadForm {
    /// The archive itself.
    Archive,
    /// A line for each record, in its canonical form.
    Lines,
    /// A line of JSON for each record.
    Json,
    /// The fields of each record, one line each.
    Show,
    /// The same, in the color of its severity.
    ColoredShow,
}

/// Which records of a store are written, and as what.
#[derive(Debug, PartialEq, Eq, Drop)]
pub struct ReadOptions<'a> {
    /// The conditions that a record must meet.
    pub conditions: Conditions<'a>,
    /// How many of those records are written: the last ones in the archive's order. None: all of them.
    pub last: Option<u32>,
    /// As what they are written.
    pub form: ReadForm,
    /// Whether damaged files are told and left out, in place of ending the reading.
    pub partial: bool,
}

// the first instant that a record may have, in microseconds since 1970: the year 0 begins
const FIRST_MICROS: i64 = -62_167_219_200_000_000;

/// The range of time in which a store is read for records of these times. Where only those without a time are
/// wanted, no instant is in it, and no day is read.
pub(crate) fn range_of(times: Times) -> InRange
    ensures { IsRangeOf times result }
{
    match times {
        Times::Range(range) => range,
        Times::Undated => {
            InRange {
                from: Instant::from_micros(FIRST_MICROS),
                to: Instant::from_micros(FIRST_MICROS),
                undated: true,
            }
        }
    }
}

impl<'a> ReadOptions<'a> {
    /// Whether all records of these times are written, as an archive.
    pub(crate) fn is_plain(&self) -> bool
        ensures { IsTrue result ↔ IsPlain self.now }
    {
        self.conditions.any.is_empty()
            && self.conditions.none.is_empty()
            && self.last.is_none()
            && self.form == ReadForm::Archive
    }
}
