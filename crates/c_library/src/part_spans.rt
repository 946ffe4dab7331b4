//! All parts of a record, in the order of its octets.

ghost use Rattle.std.specs.Prelude.{◌≡◌, ◌+◌, ◌*◌, ◌^◌, ◌<◌, ℕ, List, length};
ghost use Rattle.octet_language.specs.Language.{AnyOf, Each};
ghost use Rattle.octet_language.specs.Reading.{Follows};
ghost use Rattle.syslog_value.specs.Parts.{ElementParts, ParamParts, Parts};
ghost use Rattle.syslog_fields.specs.Grammar.{Element, Param, Priority};
ghost use Rattle.syslog_fields.specs.Time.{CivilTime};
ghost use Rattle.syslog_reading.specs.ViewParts.{IsViewOf, view_parts};
ghost use Rattle.c_library.specs.Faults.{IsWithin};
ghost use Rattle.c_library.specs.PartSpans.{IsHeaderShown, Puts, ShowsAll, ShowsElements};
ghost use Rattle.c_library.specs.PartSpans.{ShowsParams, ShowsSpans, placed};
ghost use Rattle.c_library.specs.Parts.{IsLayout, Spells};

use crate::element::next_element;
use crate::fault::SyslogboxFault;
use crate::layout::{Layout, layout_of};
use crate::numbers::{
    PART_APP_NAME, PART_ELEMENT_ID, PART_HOSTNAME, PART_MESSAGE, PART_MSG_ID, PART_PARAM_NAME,
    PART_PARAM_VALUE, PART_PRIORITY, PART_PROC_ID, PART_TIMESTAMP, PART_VERSION,
};
use crate::part::{SyslogboxPartSpan, place};
use crate::walk::elements_text;
use archive_text::ENTRY_MAX;
use syslog_fields::priority::priority;
use syslog_fields::reading::next;
use syslog_grammar::{RecordView, view};
use syslog_reading::first_element::first_param;

/// The fields before the structured data.
const FIELDS: usize = 7;

/// Puts the spans of the parameters that these octets of a record spell, from an offset of it on,
/// into the room from an index on, and gives the index behind them.
fn put_params(text: &[u8], at: usize, room: &mut [SyslogboxPartSpan], index: usize) -> usize
    requires each { AnyOf (Each Param) text.now }
    requires within { at + length text.now < 2 ^ 32 }
    requires few { index + 2 * length text.now < 2 ^ 32 }
    ensures { (cs : List SyslogboxPartSpan)
        × Puts room.old index (length text.now) cs room.new result
        × ((ps : List ParamParts) → Each Param ps text.now → ShowsParams at ps text.now cs) }
{
    let mut rest = text;
    let mut here = at;
    let mut count = index;
    while let Some((_first, _after)) = next(rest) {
        let (param, others) = first_param(rest);
        let (name, raw) = (param.name(), param.raw());
        let pair = [
            SyslogboxPartSpan::new(PART_PARAM_NAME, here + 1, name.len()),
            SyslogboxPartSpan::new(PART_PARAM_VALUE, here + name.len() + 3, raw.len()),
        ];
        place(&pair, room, count);
        here += name.len() + raw.len() + 4;
        count += 2;
        rest = others;
    }
    count
}

/// Puts the spans of the elements that these octets of a record spell, from an offset of it on,
/// into the room from an index on, and gives the index behind them.
fn put_elements(text: &[u8], at: usize, room: &mut [SyslogboxPartSpan], index: usize) -> usize
    requires each { AnyOf (Each Element) text.now }
    requires within { at + length text.now < 2 ^ 32 }
    requires few { index + 2 * length text.now < 2 ^ 32 }
    ensures { (cs : List SyslogboxPartSpan)
        × Puts room.old index (length text.now) cs room.new result
        × ((es : List ElementParts) → Each Element es text.now → ShowsElements at es text.now cs) }
{
    let mut rest = text;
    let mut here = at;
    let mut count = index;
    while let Some((_first, _after)) = next(rest) {
        let (id, params, behind) = next_element(rest);
        place(
            &[SyslogboxPartSpan::new(PART_ELEMENT_ID, here + 1, id.len())],
            room,
            count,
        );
        count = put_params(params, here + id.len() + 1, room, count + 1);
        here += id.len() + params.len() + 2;
        rest = behind;
    }
    count
}

/// How many octets PRI has.
fn priority_len(octets: &[u8]) -> usize
    ensures { (v : ℕ) (rest : List ℕ) → Follows (Priority v) octets.now rest
        → result + length rest ≡ length octets.now }
{
    match priority(octets) {
        Ok((_value, behind)) => octets.len() - behind.len(),
        Err(_) => 0,
    }
}

/// The spans of the fields before the structured data.
fn header_spans(octets: &[u8], view: &RecordView<'_>, at: Layout) -> [SyslogboxPartSpan; FIELDS]
    requires view { IsViewOf octets.now (view_parts view.now) }
    requires layout { IsLayout octets.now (view_parts view.now) at }
    ensures { IsHeaderShown octets.now (view_parts view.now) at.structured_data result }
{
    let version = priority_len(octets);
    let time = version + 2;
    [
        SyslogboxPartSpan::new(PART_PRIORITY, 1, version - 2),
        SyslogboxPartSpan::new(PART_VERSION, version, 1),
        SyslogboxPartSpan::new(PART_TIMESTAMP, time, at.hostname - time - 1),
        SyslogboxPartSpan::new(PART_HOSTNAME, at.hostname, at.app_name - at.hostname - 1),
        SyslogboxPartSpan::new(PART_APP_NAME, at.app_name, at.proc_id - at.app_name - 1),
        SyslogboxPartSpan::new(PART_PROC_ID, at.proc_id, at.msg_id - at.proc_id - 1),
        SyslogboxPartSpan::new(PART_MSG_ID, at.msg_id, at.structured_data - at.msg_id - 1),
    ]
}

/// Puts the spans of the record that the octets are into the room, as far as it goes, and gives how
/// many there are.
fn put_record(octets: &[u8], view: &RecordView<'_>, room: &mut [SyslogboxPartSpan]) -> usize
    requires view { IsViewOf octets.now (view_parts view.now) }
    requires within { IsWithin octets.now }
    ensures shown { (p : Parts CivilTime) × Spells octets.now p × (cs : List SyslogboxPartSpan)
        × ShowsAll octets.now p cs × (room.new ≡ placed 0 cs room.old) × (result ≡ length cs) }
    ensures bound { result < 2 ^ 32 }
{
    let at = layout_of(octets, view);
    place(&header_spans(octets, view, at), room, 0);
    let text = elements_text(view.structured_data);
    let count = put_elements(text, at.structured_data, room, FIELDS);
    let len = view.message().len();
    let message = SyslogboxPartSpan::new(PART_MESSAGE, octets.len() - len, len);
    place(&[message], room, count);
    count + 1
}

/// Shows each part of the record that the octets are, in their order, as far as the room goes, and
/// returns how many parts there are; or -1 and why the octets are no record, with the room left as
/// it was. It reads the record once, and takes no memory.
#[unsafe(no_mangle)]
pub extern "C" fn syslogbox_proved_spans(
    octets: &[u8],
    room: &mut [SyslogboxPartSpan],
    fault: &mut SyslogboxFault,
) -> i64
    ensures { ShowsSpans octets.now (record { room = room.old; fault = fault.old })
        (record { room = room.new; fault = fault.new }) result }
{
    if octets.len() > ENTRY_MAX {
        *fault = SyslogboxFault::too_long();
        return -1;
    }
    match view(octets) {
        Ok(shown) => put_record(octets, &shown, room) as i64,
        Err(cause) => {
            *fault = SyslogboxFault::of_record(cause);
            -1
        }
    }
}
