//! The parts of a record.

ghost use Rattle.std.specs.Prelude.{ℕ, List, option_map};
ghost use Rattle.syslog_value.specs.Parts.{Parts};
ghost use Rattle.syslog_fields.specs.Canonical.{word_form};
ghost use Rattle.syslog_fields.specs.Time.{CivilTime};
ghost use Rattle.syslog_reading.specs.ViewParts.{IsViewOf, octets_of, view_parts};
ghost use Rattle.c_library.specs.Faults.{IsWithin};
ghost use Rattle.c_library.specs.Parts.{Shows, ShowsTime, Spells};
ghost use Rattle.c_library.specs.Spans.{LiesAt, Spans, SpansWord};

use crate::layout::layout_of;
use crate::span::SyslogboxSpan;
use crate::walk::{count_elements, elements_text};
use syslog_grammar::RecordView;
use syslog_value::Instant;

/// The parts of a record, as they lie in its octets. A word that is `-` has no octets.
#[repr(C)]
#[derive(Clone, Copy)]
pub struct SyslogboxParts {
    /// Microseconds from 1970-01-01T00:00:00Z; 0 if the record has no time.
    pub time: i64,
    /// 1 if the record has a time, else 0.
    pub has_time: u32,
    /// The facility's code, 0 to 23.
    pub facility: u32,
    /// The severity's code, 0 to 7.
    pub severity: u32,
    /// 1 if the message starts with the BOM, else 0; `message` is without it.
    pub has_bom: u32,
    /// HOSTNAME (RFC 5424, 6.2.4).
    pub hostname: SyslogboxSpan,
    /// APP-NAME (6.2.5).
    pub app_name: SyslogboxSpan,
    /// PROCID (6.2.6).
    pub proc_id: SyslogboxSpan,
    /// MSGID (6.2.7).
    pub msg_id: SyslogboxSpan,
    /// STRUCTURED-DATA as it is spelled (6.3): `-`, or the elements.
    pub structured_data: SyslogboxSpan,
    /// How many elements the structured data has.
    pub elements: usize,
    /// MSG without the BOM (6.4).
    pub message: SyslogboxSpan,
}

/// An instant as a flag and microseconds.
fn time_of(instant: Option<Instant>) -> (u32, i64)
    ensures { ShowsTime instant result.0 result.1 }
{
    match instant {
        None => (0, 0),
        Some(instant) => (1, instant.micros()),
    }
}

/// Where a word lies that would begin at this offset.
fn word_span(at: usize, word: Option<&[u8]>) -> SyslogboxSpan
    ensures { (b : List ℕ) → LiesAt b at (word_form (option_map (λ s. s.now) word.entry))
        → SpansWord b result (option_map (λ s. s.now) word.entry) }
{
    match word {
        None => SyslogboxSpan { offset: 0, len: 0 },
        Some(word) => SyslogboxSpan {
            offset: at,
            len: word.len(),
        },
    }
}

/// Where the message lies in the record that the octets are.
fn message_span(octets: &[u8], view: &RecordView<'_>) -> SyslogboxSpan
    requires { IsViewOf octets.now (view_parts view.now) }
    ensures { Spans octets.now result (octets_of (view_parts view.now).message) }
{
    let len = view.message().len();
    SyslogboxSpan {
        offset: octets.len() - len,
        len,
    }
}

/// The parts of the record that the octets are.
pub fn parts_of(octets: &[u8], view: &RecordView<'_>) -> SyslogboxParts
    requires view { IsViewOf octets.now (view_parts view.now) }
    requires within { IsWithin octets.now }
    ensures { (p : Parts CivilTime) × Spells octets.now p × Shows octets.now p result }
{
    let at = layout_of(octets, view);
    let priority = view.priority().value();
    let (has_time, time) = time_of(view.instant());
    SyslogboxParts {
        time,
        has_time,
        facility: u32::from(priority / 8),
        severity: u32::from(priority % 8),
        has_bom: u32::from(view.has_mark()),
        hostname: word_span(at.hostname, view.hostname()),
        app_name: word_span(at.app_name, view.app_name()),
        proc_id: word_span(at.proc_id, view.proc_id()),
        msg_id: word_span(at.msg_id, view.msg_id()),
        structured_data: SyslogboxSpan {
            offset: at.structured_data,
            len: view.structured_data.len(),
        },
        elements: count_elements(elements_text(view.structured_data)),
        message: message_span(octets, view),
    }
}
