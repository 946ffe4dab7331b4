//! The records of an archive that meet conditions.

ghost use Rattle.std.specs.Prelude.{◌≢◌, ◌↔◌, IsTrue, MatchResult};
ghost use Rattle.c_library.specs.Answers.{Answers};
ghost use Rattle.c_library.specs.Selecting.{IsNoSelection, IsSeverityOf};
ghost use Rattle.c_library.specs.Selecting.{IsSeverityRefused, SelectedBy, SelectionOf};
ghost use Rattle.c_library.specs.Unions.{IsNoArchive};

use crate::answer::answer;
use crate::digest::fault_of_one;
use crate::fault::SyslogboxFault;
use crate::fields::{bad_field, instant_of};
use crate::numbers::PRIORITY;
use archive_sets::{
    AsSevereAs, Both, Condition, HasWord, InRange, WordField, select_stream,
    selections_are_archives,
};
use archive_text::EntryView;
use octet_devices::{FromRead, ToWrite};
use std::alloc::Global;
use syslog_value::Severity;

/// Conditions on records, all of which have to be met.
#[repr(C)]
#[derive(Clone, Copy)]
pub struct SyslogboxCondition<'a> {
    /// The first instant, in microseconds from 1970-01-01T00:00:00Z.
    pub from: i64,
    /// The first instant behind the last one.
    pub to: i64,
    /// Whether there is a first instant; if this is 0, there is none.
    pub has_from: u32,
    /// Whether there is an instant behind the last one; if this is 0, there is none.
    pub has_to: u32,
    /// Whether records without a time are taken, even if there is a bound; if this is 0, they are not.
    pub undated: u32,
    /// Whether a severity is asked for; if this is 0, none is.
    pub has_severity: u32,
    /// The least severe of the severities, 0 to 7.
    pub severity: u32,
    /// The host; without octets, any.
    pub hostname: &'a [u8],
    /// The application; without octets, any.
    pub app_name: &'a [u8],
}

/// Records as severe as one severity, if one is asked for.
#[derive(Clone, Copy)]
struct AtSeverity {
    severity: Option<Severity>,
}

impl Condition for AtSeverity {
    ghost use Rattle.std.specs.Prelude.{IfSome};
    ghost use Rattle.archive_sets.specs.Fields.{IsAsSevere, IsOfRecord};

    ghost meets = { λ c e. IfSome c.severity (λ severity. IsOfRecord (IsAsSevere severity) e.octets) };

    fn holds(&self, entry: &EntryView<'_>) -> bool {
        match self.severity {
            None => true,
            Some(severity) => AsSevereAs { severity }.holds(entry),
        }
    }
}

/// Records with a word in a field, if it has octets.
#[derive(Clone, Copy)]
struct WithWord<'a> {
    field: WordField,
    word: &'a [u8],
}

impl<'a> Condition for WithWord<'a> {
    ghost use Rattle.std.specs.Prelude.{◌≡◌, ◌⊎◌, [], Some};
    ghost use Rattle.archive_sets.specs.Fields.{HasWordAt, IsOfRecord};

    ghost meets = { λ c e. (c.word.now ≡ []) ⊎ IsOfRecord (HasWordAt c.field (Some c.word.now)) e.octets };

    fn holds(&self, entry: &EntryView<'_>) -> bool {
        if self.word.is_empty() {
            return true;
        }
        let asked = HasWord {
            field: self.field,
            word: Some(self.word),
        };
        asked.holds(entry)
    }
}

/// Whether a mark is set.
fn is_set(mark: u32) -> bool
    ensures { IsTrue result ↔ (mark ≢ 0) }
{
    mark != 0
}

/// The severity that is asked for, if one is.
fn severity_of(has_severity: u32, severity: u32) -> Result<Option<Severity>, SyslogboxFault>
    ensures { MatchResult result (IsSeverityOf has_severity severity)
        (IsSeverityRefused has_severity severity) }
{
    if has_severity == 0 {
        return Ok(None);
    }
    if severity > 7 {
        return Err(bad_field(PRIORITY, 0));
    }
    Ok(Severity::from_code(severity as u8))
}

/// The text of the archive of the records that meet a condition.
fn selected<C: Condition>(
    alloc: Global,
    asked: &C,
    archive: &[u8],
) -> Result<Vec<u8>, SyslogboxFault>
    ensures { MatchResult result (λ v. SelectedBy (C.meets asked.now) archive.now v.items)
        (IsNoArchive 0 archive.now) }
{
    selections_are_archives(asked);
    let mut writer = ToWrite::new(Vec::new(alloc));
    let mut reader = FromRead::new(archive);
    match select_stream(alloc, asked, &mut reader, &mut writer) {
        Ok(_count) => Ok(writer.into_inner()),
        Err(_) => Err(fault_of_one(alloc, archive)),
    }
}

/// The text of the archive of the records that meet the conditions.
fn selection(
    alloc: Global,
    condition: &SyslogboxCondition<'_>,
    archive: &[u8],
) -> Result<Vec<u8>, SyslogboxFault>
    ensures { MatchResult result (λ v. SelectionOf condition.now archive.now v.items)
        (IsNoSelection condition.now archive.now) }
{
    let range = InRange {
        from: instant_of(condition.has_from, condition.from)?,
        to: instant_of(condition.has_to, condition.to)?,
        undated: is_set(condition.undated),
    };
    let severity = severity_of(condition.has_severity, condition.severity)?;
    let words = Both {
        first: WithWord {
            field: WordField::Hostname,
            word: condition.hostname,
        },
        second: WithWord {
            field: WordField::AppName,
            word: condition.app_name,
        },
    };
    let fields = Both {
        first: AtSeverity { severity },
        second: words,
    };
    let asked = Both {
        first: range,
        second: fields,
    };
    selected(alloc, &asked, archive)
}

/// Writes the archive of the records that meet all conditions, and returns how many octets it has; or -1 and why
/// not.
#[unsafe(no_mangle)]
pub extern "C" fn syslogbox_proved_select(
    alloc: Global,
    condition: &SyslogboxCondition<'_>,
    archive: &[u8],
    out: &mut [u8],
    fault: &mut SyslogboxFault,
) -> i64
    ensures { Answers (SelectionOf condition.now archive.now) (IsNoSelection condition.now archive.now)
        (record { room = out.old; fault = fault.old })
        (record { room = out.new; fault = fault.new }) result }
{
    answer(selection(alloc, condition, archive), out, fault)
}
