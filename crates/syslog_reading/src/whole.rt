//! The reading of a record from all of its octets.

ghost use Rattle.std.specs.Prelude.{IsTrue, MatchOption, MatchResult, OnErr, OnOk};
ghost use Rattle.octet_language.specs.Language.{AnyOf};
ghost use Rattle.syslog_reading.specs.Faults.{FaultOf};
ghost use Rattle.syslog_fields.specs.Grammar.{StructuredDataText};
ghost use Rattle.syslog_reading.specs.Ids.{HoldsDistinct, HoldsRepeated, IdsDiffer};
ghost use Rattle.syslog_reading.specs.Instants.{IsTimeInRange, IsTimeOf};
ghost use Rattle.syslog_reading.specs.Parsing.{IsParsed};
ghost use Rattle.syslog_reading.specs.ViewParts.{IsViewOf, view_parts};
ghost use Rattle.syslog_reading.specs.WellFormed.{WellFormed};

use crate::fault::Fault;
use crate::record_view::RecordView;
use crate::repeated::first_repeated;
use crate::syntax::{Parsed, parse};
use syslog_fields::timestamp::{Timestamp, has_inner_year};
use syslog_value::Instant;

/// The instant lies outside the years from 0 to 9999.
pub struct OutOfRange;

/// The microseconds since 1970-01-01T00:00:00Z of a time, if there is one. It fails if the time is
/// out of range.
#[inline(always)]
pub fn micros_of(time: Option<Timestamp>) -> Result<Option<i64>, OutOfRange>
    ensures { IsTimeOf time result }
{
    let Some(time) = time else {
        return Ok(None);
    };
    match Instant::from_civil(time.civil, time.offset_minutes) {
        Ok(instant) => Ok(Some(instant.micros())),
        Err(_) => Err(OutOfRange),
    }
}

/// The offset of the first id that repeats an earlier one, unless the ids are known to differ.
fn repeated_id(structured_data: &[u8], differ: bool) -> Option<usize>
    requires some { AnyOf StructuredDataText structured_data.now }
    requires differ { IsTrue differ → IdsDiffer structured_data.now }
    ensures { MatchOption result (HoldsDistinct structured_data.now)
        (HoldsRepeated structured_data.now) }
{
    if differ {
        return None;
    }
    first_repeated(structured_data)
}

/// The view of a record whose parts the octets spell. It is refused if the instant is out of range,
/// or else if an id is repeated.
#[inline(always)]
pub fn view_of<'a>(octets: &'a [u8], spelling: Parsed<'a>) -> Result<RecordView<'a>, Fault>
    requires { IsParsed octets.now spelling }
    ensures some { OnOk result (AnyOf WellFormed octets.now) }
    ensures whole { MatchResult result (λ v. IsViewOf octets.now (view_parts v))
        (FaultOf octets.now) }
    ensures none { OnErr result (¬ (AnyOf WellFormed octets.now)) }
    ensures time { OnOk result (IsTimeInRange spelling.entry.fields.time) }
{
    let fields = spelling.fields;
    let micros = match micros_of(fields.time) {
        Ok(micros) => micros,
        Err(OutOfRange) => {
            return Err(Fault::InstantRange {
                offset: octets.len() - fields.time_remaining,
            });
        }
    };
    if let Some(offset) = repeated_id(spelling.structured_data, spelling.differ) {
        return Err(Fault::RepeatedId {
            offset: octets.len() - spelling.structured_data_remaining + offset,
        });
    }
    Ok(RecordView {
        priority: fields.priority,
        micros,
        hostname: fields.hostname,
        app_name: fields.app_name,
        proc_id: fields.proc_id,
        msg_id: fields.msg_id,
        structured_data: spelling.structured_data,
        message: spelling.message.octets,
        behind_time: fields.behind_time,
        has_mark: spelling.message.has_mark,
        is_form: spelling.is_form,
        ascends: spelling.ascends,
    })
}

/// Reads a record from all of the octets: there is a view exactly if they are a well-formed record.
///
/// A fault of the syntax is reported before an instant out of range, and that before a repeated id.
/// It takes no memory.
pub fn view(octets: &[u8]) -> Result<RecordView<'_>, Fault>
    ensures some { OnOk result (AnyOf WellFormed octets.now) }
    ensures whole { MatchResult result (λ v. IsViewOf octets.now (view_parts v))
        (FaultOf octets.now) }
    ensures none { OnErr result (¬ (AnyOf WellFormed octets.now)) }
{
    let spelling = parse(octets)?;
    view_of(octets, spelling)
}

/// Why the octets are no record; None if they are one. The fault is that of [`view`], and comes
/// faster.
pub fn fault_of(octets: &[u8]) -> Option<Fault>
    ensures { MatchOption result (AnyOf WellFormed octets.now) (FaultOf octets.now) }
{
    let parsed = match parse(octets) {
        Ok(parsed) => parsed,
        Err(fault) => return Some(fault),
    };
    if parsed.differ && has_inner_year(parsed.fields.time) {
        return None;
    }
    match view_of(octets, parsed) {
        Ok(_view) => None,
        Err(fault) => Some(fault),
    }
}
