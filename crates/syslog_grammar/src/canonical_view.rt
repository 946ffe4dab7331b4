//! The canonical octets of a view.

ghost use Rattle.std.specs.Prelude.{◌≡◌, ℕ, List, IfOk, IsTrue, OnOk, OnErr};
ghost use Rattle.syslog_fields.specs.Appending.{Adds, Anything, Puts};
ghost use Rattle.syslog_grammar.specs.Verbatim.{HasOneMessageForm, ShownHeader, VerbatimForm};
ghost use Rattle.syslog_grammar.specs.Reescaped.{IsUnordered, StructuredDataOf};
ghost use Rattle.syslog_reading.specs.ViewParts.{IsViewOf, view_parts};
ghost use Rattle.syslog_grammar.specs.ShownRecords.{AddsShown};
ghost use Rattle.syslog_reading.specs.Views.{message_parts};
ghost use Rattle.syslog_reading.specs.WellFormed.{AddsCanonical};

use crate::canonical::{
    HeaderValues, put_header, put_message_part, put_priority_version, put_record, put_time,
};
use crate::reescaped::put_elements;
use crate::sorted::put_sorted;
use std::alloc::{AllocError, Global};
use syslog_fields::appending::put;
use syslog_reading::{MessageView, RecordView};

/// Whether a message can follow the structured data in one way only: an empty one may have a space
/// before it or not.
pub fn has_one_message_form(message: &MessageView<'_>) -> bool
    ensures { IsTrue result → HasOneMessageForm (message_parts message.now) }
{
    message.has_mark || !message.octets.is_empty()
}

/// Appends the canonical octets of the record that a view shows, if all that follows the timestamp
/// is canonical as it lies in the octets.
fn copy_verbatim(view: &RecordView<'_>, out: &mut Vec<u8>) -> Result<(), AllocError>
    ensures { Puts (VerbatimForm (view_parts view.now)) out.old.items out.new.items result }
{
    put_priority_version(view.priority(), out)?;
    put_time(view.instant(), out)?;
    put(b" ", out)?;
    put(view.behind_time, out)
}

/// Appends the canonical form of the structured data that a view shows, with its elements as they
/// stand.
fn put_structured_data(view: &RecordView<'_>, out: &mut Vec<u8>) -> Result<(), AllocError>
    ensures { Puts (StructuredDataOf view.now.structured_data.now)
        out.old.items out.new.items result }
{
    let is_form = view.is_form;
    if is_form {
        return put(view.structured_data, out);
    }
    put_elements(view.structured_data, out)
}

/// Appends the canonical header of the record that a view shows, and the space that follows it.
fn put_view_header(view: &RecordView<'_>, out: &mut Vec<u8>) -> Result<(), AllocError>
    ensures { Puts (ShownHeader (view_parts view.now)) out.old.items out.new.items result }
{
    let fields = HeaderValues {
        priority: view.priority(),
        instant: view.instant(),
        hostname: view.hostname(),
        app_name: view.app_name(),
        proc_id: view.proc_id(),
        msg_id: view.msg_id(),
    };
    put_header(&fields, out)
}

/// Appends the canonical octets of the record that a view shows, whose ids ascend, part by part.
fn put_parts(view: &RecordView<'_>, out: &mut Vec<u8>) -> Result<(), AllocError>
    requires { IsTrue view.now.ascends }
    ensures begun { Adds Anything out.old.items out.new.items }
    ensures ok { (b : List ℕ) → IsViewOf b (view_parts view.now)
        → OnOk result (AddsCanonical b out.old.items out.new.items) }
{
    put_view_header(view, out)?;
    put_structured_data(view, out)?;
    let message = view.message_view();
    put_message_part(message.octets, message.has_mark, out)?;
    Ok(())
}

/// Appends the canonical octets of the record that a view shows, whose ids ascend: as they lie if
/// that is possible, else part by part.
fn put_ascending(view: &RecordView<'_>, out: &mut Vec<u8>) -> Result<(), AllocError>
    requires { IsTrue view.now.ascends }
    ensures begun { Adds Anything out.old.items out.new.items }
    ensures ok { (b : List ℕ) → IsViewOf b (view_parts view.now)
        → OnOk result (AddsCanonical b out.old.items out.new.items) }
{
    let is_form = view.is_form;
    if !is_form {
        return put_parts(view, out);
    }
    if !has_one_message_form(&view.message_view()) {
        return put_parts(view, out);
    }
    copy_verbatim(view, out)?;
    Ok(())
}

/// Appends the canonical octets of the record that a view shows, if its elements are sorted by id.
/// It has no allocator: if the ids ascend, no memory is taken but that of the vector.
fn put_ordered(view: &RecordView<'_>, out: &mut Vec<u8>) -> Result<bool, AllocError>
    ensures begun { Adds Anything out.old.items out.new.items }
    ensures ok { (b : List ℕ) → IsViewOf b (view_parts view.now)
        → IfOk result (λ all. IsTrue all → AddsCanonical b out.old.items out.new.items) }
    ensures order { IfOk result (λ all. (IsTrue all → ⊥)
        → IsUnordered (view_parts view.now).elements) }
{
    let ascends = view.ascends;
    if !ascends {
        return Ok(false);
    }
    put_ascending(view, out)?;
    Ok(true)
}

/// Appends the canonical octets of the record that a view shows, with its elements sorted on the
/// stack. If they cannot be, the answer is false, and a part may have been appended.
fn put_resorted(view: &RecordView<'_>, out: &mut Vec<u8>) -> Result<bool, AllocError>
    ensures begun { Adds Anything out.old.items out.new.items }
    ensures ok { (b : List ℕ) → IsViewOf b (view_parts view.now)
        → IfOk result (λ all. IsTrue all → AddsCanonical b out.old.items out.new.items) }
{
    put_view_header(view, out)?;
    if !put_sorted(view.structured_data, view.is_form, out)? {
        return Ok(false);
    }
    let message = view.message_view();
    put_message_part(message.octets, message.has_mark, out)?;
    Ok(true)
}

/// Appends the canonical octets of the record that a view shows, by way of a record that owns its
/// parts.
#[cold]
#[inline(never)]
fn put_owned(alloc: Global, view: &RecordView<'_>, out: &mut Vec<u8>) -> Result<(), AllocError>
    ensures begun { Adds Anything out.old.items out.new.items }
    ensures ok { (b : List ℕ) → IsViewOf b (view_parts view.now)
        → OnOk result (AddsCanonical b out.old.items out.new.items) }
{
    let record = view.to_record(alloc)?;
    put_record(&record, out)
}

/// Appends the canonical octets of the record that a view shows, if its elements are not sorted by
/// id.
fn put_unordered(alloc: Global, view: &RecordView<'_>, out: &mut Vec<u8>) -> Result<(), AllocError>
    ensures begun { Adds Anything out.old.items out.new.items }
    ensures ok { (b : List ℕ) → IsViewOf b (view_parts view.now)
        → OnOk result (AddsCanonical b out.old.items out.new.items) }
{
    let start = out.len();
    if put_resorted(view, out)? {
        return Ok(());
    }
    out.truncate(start);
    put_owned(alloc, view, out)
}

/// Appends the canonical octets of the record that a view shows, in one of these ways.
fn put_view(alloc: Global, view: &RecordView<'_>, out: &mut Vec<u8>) -> Result<(), AllocError>
    ensures begun { Adds Anything out.old.items out.new.items }
    ensures ok { (b : List ℕ) → IsViewOf b (view_parts view.now)
        → OnOk result (AddsCanonical b out.old.items out.new.items) }
{
    let start = out.len();
    if put_ordered(view, out)? {
        return Ok(());
    }
    out.truncate(start);
    put_unordered(alloc, view, out)
}

/// Appends the canonical octets of the record that the octets of a view spell.
///
/// If an allocation fails, the vector is unchanged. The allocator is used only if elements have to
/// be sorted and cannot be sorted on the stack.
pub fn write_canonical_view(
    alloc: Global,
    view: &RecordView<'_>,
    out: &mut Vec<u8>,
) -> Result<(), AllocError>
    ensures ok { (b : List ℕ) → IsViewOf b (view_parts view.now)
        → OnOk result (AddsCanonical b out.old.items out.new.items) }
    ensures shown { OnOk result (AddsShown (view_parts view.now) out.old.items out.new.items) }
    ensures err { OnErr result (out.new.items ≡ out.old.items) }
{
    let start = out.len();
    if let Err(refused) = put_view(alloc, view, out) {
        out.truncate(start);
        return Err(refused);
    }
    Ok(())
}
