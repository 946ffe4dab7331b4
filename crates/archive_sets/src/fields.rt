//! Conditions on the fields of a record.

ghost use Rattle.std.specs.Prelude.{◌≡◌, ◌↔◌, ◌/◌, ◌%◌, ◌≤◌, option_map, IsTrue};
ghost use Rattle.syslog_value.specs.Facilities.{facility_code};
ghost use Rattle.syslog_value.specs.Severities.{severity_code};
ghost use Rattle.syslog_reading.specs.ViewParts.{view_parts};
ghost use Rattle.archive_sets.specs.Fields.{HasWordAt, IsAsSevere, IsInFacility, IsOfRecord, shown_word};

use crate::condition::Condition;
use crate::word_field::WordField;
use archive_text::EntryView;
use syslog_grammar::{RecordView, view};
use syslog_value::{Facility, Priority, Severity};

/// Records as severe as this or more severe.
#[derive(Clone, Copy, Debug, PartialEq, Eq)]
pub struct AsSevereAs {
    /// The least severe of the severities.
    pub severity: Severity,
}

/// Whether the severity of a priority is this one or a more severe one.
pub fn is_as_severe(priority: Priority, severity: Severity) -> bool
    ensures { IsTrue result ↔ (priority % 8 ≤ severity_code severity) }
{
    priority.severity().code() <= severity.code()
}

impl Condition for AsSevereAs {
    ghost meets = { λ c e. IsOfRecord (IsAsSevere c.severity) e.octets };

    fn holds(&self, entry: &EntryView<'_>) -> bool {
        match view(entry.octets) {
            Ok(shown) => is_as_severe(shown.priority(), self.severity),
            Err(_) => false,
        }
    }
}

/// Records of a facility.
#[derive(Clone, Copy, Debug, PartialEq, Eq)]
pub struct OfFacility {
    /// The facility.
    pub facility: Facility,
}

/// Whether a priority is of a facility.
pub fn is_of(priority: Priority, facility: Facility) -> bool
    ensures { IsTrue result ↔ (priority / 8 ≡ facility_code facility) }
{
    priority.facility().code() == facility.code()
}

impl Condition for OfFacility {
    ghost meets = { λ c e. IsOfRecord (IsInFacility c.facility) e.octets };

    fn holds(&self, entry: &EntryView<'_>) -> bool {
        match view(entry.octets) {
            Ok(shown) => is_of(shown.priority(), self.facility),
            Err(_) => false,
        }
    }
}

/// Records that have this word in a field of the header, or NILVALUE if it is None.
#[derive(Clone, Copy, Debug, PartialEq, Eq)]
pub struct HasWord<'a> {
    /// The field.
    pub field: WordField,
    /// The word; None for NILVALUE.
    pub word: Option<&'a [u8]>,
}

/// The word in a field.
pub fn word_of<'a>(field: WordField, shown: &RecordView<'a>) -> Option<&'a [u8]>
    ensures { option_map (λ s. s.now) result ≡ shown_word field (view_parts shown.now) }
{
    match field {
        WordField::Hostname => shown.hostname(),
        WordField::AppName => shown.app_name(),
        WordField::ProcId => shown.proc_id(),
        WordField::MsgId => shown.msg_id(),
    }
}

/// Whether two words are the same.
pub fn is_same(word: Option<&[u8]>, other: Option<&[u8]>) -> bool
    ensures { IsTrue result ↔
        (option_map (λ s. s.now) word.entry ≡ option_map (λ s. s.now) other.entry) }
{
    match (word, other) {
        (None, None) => true,
        (Some(word), Some(other)) => word == other,
        (None, Some(_)) => false,
        (Some(_), None) => false,
    }
}

impl<'a> Condition for HasWord<'a> {
    ghost meets = { λ c e. IsOfRecord (HasWordAt c.field (option_map (λ s. s.now) c.word)) e.octets };

    fn holds(&self, entry: &EntryView<'_>) -> bool {
        match view(entry.octets) {
            Ok(shown) => is_same(word_of(self.field, &shown), self.word),
            Err(_) => false,
        }
    }
}
