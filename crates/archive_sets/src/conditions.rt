//! Conditions that are given together.

ghost use Rattle.std.specs.Prelude.{◌↔◌, IsTrue, ℤ};
ghost use Rattle.syslog_value.specs.Parts.{Parts};
ghost use Rattle.syslog_reading.specs.ViewParts.{view_parts};
ghost use Rattle.archive_text.specs.Entries.{Entry};
ghost use Rattle.archive_sets.specs.Tests.{IsShownAs};
ghost use Rattle.archive_sets.specs.Together.{HasNoTest, IsOneOf, MeetsAll, MeetsFields, PassesTests};

use crate::condition::Condition;
use crate::field_test::{FieldTest, may_pass_one_of_each, passes_one, passes_one_of_each};
use crate::range::InRange;
use archive_text::EntryView;
use std::alloc::Global;
use syslog_grammar::{RecordView, view};

/// Which times records may have.
#[derive(Clone, Copy, Debug, PartialEq, Eq)]
pub enum Times {
    /// Those of a range.
    Range(InRange),
    /// None at all.
    Undated,
}

impl Condition for Times {
    ghost meets = { λ t e. IsOneOf t e.instant };

    fn holds(&self, entry: &EntryView<'_>) -> bool {
        match *self {
            Times::Range(range) => range.holds(entry),
            Times::Undated => entry.instant.is_none(),
        }
    }
}

/// All conditions that a record may have to meet. Several tests in one list of `any` mean any of
/// them, and those in `none` mean that it passes none of them.
#[derive(Debug, PartialEq, Eq, Drop)]
pub struct Conditions<'a> {
    /// Which times it may have.
    pub times: Times,
    /// It passes one test of each of these lists.
    pub any: Vec<Vec<FieldTest<'a>>>,
    /// It passes none of these tests.
    pub none: Vec<FieldTest<'a>>,
}

impl<'a> Conditions<'a> {
    /// No condition: each record meets it.
    pub fn all(alloc: Global) -> Conditions<'a>
        ensures { (e : Entry) → MeetsAll result e }
    {
        Conditions {
            times: Times::Range(InRange {
                from: None,
                to: None,
                undated: false,
            }),
            any: Vec::new(alloc),
            none: Vec::new(alloc),
        }
    }

    // Whether there is no test.
    fn has_no_test(&self) -> bool
        ensures { IsTrue result ↔ HasNoTest self.now }
    {
        self.any.is_empty() && self.none.is_empty()
    }

    // Whether a record passes the tests, as its view shows.
    fn are_passed(&self, shown: &RecordView<'_>) -> bool
        ensures { (r : Parts ℤ) → IsShownAs r (view_parts shown.now)
            → (IsTrue result ↔ PassesTests self.now r) }
    {
        passes_one_of_each(&self.any, shown) && !passes_one(&self.none, shown)
    }

    // Whether octets are a record that passes the tests, of which there may be none.
    fn are_met_by(&self, octets: &[u8]) -> bool
        ensures { IsTrue result ↔ MeetsFields self.now octets.now }
    {
        if self.has_no_test() {
            return true;
        }
        if !may_pass_one_of_each(&self.any, octets) {
            return false;
        }
        match view(octets) {
            Ok(shown) => self.are_passed(&shown),
            Err(_) => false,
        }
    }
}

impl<'a> Condition for Conditions<'a> {
    ghost meets = { λ c e. MeetsAll c e };

    fn holds(&self, entry: &EntryView<'_>) -> bool {
        self.times.holds(entry) && self.are_met_by(entry.octets)
    }
}
