//! Whether octets are the canonical form of a record.

ghost use Rattle.std.specs.Prelude.{◌≡◌, ◌↔◌, ◌∷◌, [], ℕ, ℤ, List, IsTrue, MatchOption, length};
ghost use Rattle.std.specs.Prelude.{IfOk, MatchResult, OnErr, OnOk, option_map};
ghost use Rattle.octet_language.specs.Language.{◌⋅◌, AnyOf, Only};
ghost use Rattle.octet_language.specs.Reading.{Follows};
ghost use Rattle.syslog_value.specs.Parts.{ElementParts, IsRecord, Parts};
ghost use Rattle.syslog_fields.specs.Canonical.{Canonical, TimeForm, message_form};
ghost use Rattle.syslog_fields.specs.Canonical.{structured_data_form};
ghost use Rattle.syslog_fields.specs.Dates.{time_of};
ghost use Rattle.syslog_grammar.specs.ElementOrders.{IsInOrder};
ghost use Rattle.syslog_reading.specs.Faults.{FaultOf};
ghost use Rattle.syslog_reading.specs.DataForms.{HasDataForms};
ghost use Rattle.syslog_fields.specs.Grammar.{Nilable, Spaced, MessagePart};
ghost use Rattle.syslog_fields.specs.Grammar.{StructuredDataText};
ghost use Rattle.syslog_reading.specs.Instants.{IsTimeInRange};
ghost use Rattle.syslog_reading.specs.Parsing.{IsParsed};
ghost use Rattle.syslog_fields.specs.Time.{TimeText, instant};
ghost use Rattle.syslog_grammar.specs.Unsorted.{HoldsForm, IsFormOf, IsUnsortedRecord};
ghost use Rattle.syslog_reading.specs.ViewParts.{IsViewOf, view_parts};
ghost use Rattle.syslog_reading.specs.Views.{message_parts};
ghost use Rattle.syslog_reading.specs.WellFormed.{WellFormed};

use crate::civil_text::TIME_LEN;
use syslog_fields::reading::both;
use syslog_fields::timestamp::Timestamp;
use syslog_reading::repeated::first_repeated;
use syslog_reading::syntax::{Parsed, parse};
use syslog_reading::whole::{OutOfRange, micros_of, view_of};
use syslog_reading::{Fault, MessageView, RecordView};

/// Which order of elements is asked for.
#[derive(Clone, Copy)]
pub enum ElementOrder {
    /// The ids of the elements ascend.
    ById,
    /// Any order.
    AsGiven,
}

/// Whether the timestamp that the octets begin with, before its space and what follows that, is in
/// its canonical form: no other time of so many octets ends in `Z`.
#[inline(always)]
pub fn has_time_form(time: Option<Timestamp>, octets: &[u8], behind: &[u8]) -> bool
    requires { Follows (Spaced (Nilable TimeText (option_map time_of time))) octets.now behind.now }
    ensures { IsTrue result
        ↔ Follows (TimeForm (option_map (λ t. instant (time_of t)) time) ⋅ Only (32 ∷ []))
        octets.now behind.now }
{
    let Some(_time) = time else {
        return true;
    };
    if octets.len() - behind.len() != TIME_LEN + 1 {
        return false;
    }
    octets[TIME_LEN - 1] == b'Z'
}

/// Whether structured data is in its canonical form, with its elements in this order, by what its
/// reading told.
fn has_data_form(is_form: bool, ascends: bool, order: ElementOrder) -> bool
    ensures { (text : List ℕ) → HasDataForms is_form ascends text
        → (es : List ElementParts) → StructuredDataText es text
        → (IsTrue result ↔ ((text ≡ structured_data_form es) × IsInOrder order es)) }
{
    match order {
        ElementOrder::ById => both(is_form, ascends),
        ElementOrder::AsGiven => is_form,
    }
}

/// Whether what follows the structured data, so many octets, is in its canonical form.
fn has_message_form(message: &MessageView<'_>, count: usize) -> bool
    ensures { (message_part : List ℕ) → MessagePart (message_parts message.now) message_part
        → count ≡ length message_part
        → (IsTrue result ↔ (message_part ≡ message_form (message_parts message.now))) }
{
    message.has_mark || !message.octets.is_empty() || count == 0
}

/// Whether a record whose parts were read, and whose instant is in range, is in its canonical form,
/// with its elements in this order.
#[inline(always)]
fn has_form(octets: &[u8], parsed: Parsed<'_>, order: ElementOrder) -> bool
    requires parsed { IsParsed octets.now parsed }
    requires time { IsTimeInRange parsed.fields.time }
    ensures form { IsTrue result → HoldsForm order octets.now parsed.entry.structured_data.now }
    ensures none { (IsTrue result → ⊥) → ¬ (AnyOf (λ r b. IsFormOf order b r) octets.now) }
{
    let fields = parsed.fields;
    let (_, time) = octets.split_at(octets.len() - fields.time_remaining);
    if !has_time_form(fields.time, time, fields.behind_time) {
        return false;
    }
    if !has_data_form(parsed.is_form, parsed.ascends, order) {
        return false;
    }
    let count = parsed.structured_data_remaining - parsed.structured_data.len();
    has_message_form(&parsed.message, count)
}

/// The structured data of octets that are a canonical form with the elements in this order. Where
/// any order will do, ids may repeat.
fn canonical_structured_data(octets: &[u8], order: ElementOrder) -> Option<&[u8]>
    ensures { MatchOption result (¬ (AnyOf (λ r b. IsFormOf order b r) octets.now))
        (λ text. HoldsForm order octets.now text.now) }
{
    let Ok(parsed) = parse(octets) else {
        return None;
    };
    if let Err(OutOfRange) = micros_of(parsed.fields.time) {
        return None;
    }
    if !has_form(octets, parsed, order) {
        return None;
    }
    Some(parsed.structured_data)
}

/// Whether the octets are the canonical form of some record.
///
/// It takes no memory, and reads each octet at most a few times.
pub fn is_canon(octets: &[u8]) -> bool
    ensures { IsTrue result ↔ ((r : Parts ℤ) × IsRecord r × Canonical r octets.now) }
{
    canonical_structured_data(octets, ElementOrder::ById).is_some()
}

/// Whether the octets are the canonical form of some record, except that its elements stand in the
/// order of the octets: their ids are distinct, and need not ascend.
///
/// It takes no memory.
pub fn is_canon_unsorted(octets: &[u8]) -> bool
    ensures { IsTrue result ↔ ((r : Parts ℤ) × IsUnsortedRecord r × Canonical r octets.now) }
{
    match canonical_structured_data(octets, ElementOrder::AsGiven) {
        None => false,
        Some(structured_data) => first_repeated(structured_data).is_none(),
    }
}

/// Reads a record as [`view`](crate::view) does, and tells whether the octets are its canonical
/// form. The faults are the same.
///
/// It takes no memory, and reads the octets once for both.
pub fn view_and_form(octets: &[u8]) -> Result<(RecordView<'_>, bool), Fault>
    ensures some { OnOk result (AnyOf WellFormed octets.now) }
    ensures whole { MatchResult result (λ x. IsViewOf octets.now (view_parts x.0))
        (FaultOf octets.now) }
    ensures none { OnErr result (¬ (AnyOf WellFormed octets.now)) }
    ensures form { IfOk result (λ x. IsTrue x.1
        ↔ ((r : Parts ℤ) × IsRecord r × Canonical r octets.now)) }
{
    let parsed = parse(octets)?;
    let view = view_of(octets, parsed)?;
    let is_canonical = has_form(octets, parsed, ElementOrder::ById);
    Ok((view, is_canonical))
}
