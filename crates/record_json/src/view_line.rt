//! The line of a record that was read.

ghost use Rattle.std.specs.Prelude.{◌≡◌, ℕ, List, OnErr, OnOk, IsTrue};
ghost use Rattle.syslog_fields.specs.Appending.{Adds, Anything, Puts};
ghost use Rattle.syslog_reading.specs.ViewParts.{IsViewOf, view_parts};
ghost use Rattle.record_json.specs.Texts.{AddsLine, ShownLine};

use crate::line::{LentParts, append_line};
use std::alloc::{AllocError, Global};
use syslog_grammar::fields::HeaderValues;
use syslog_grammar::{RecordView, view as read, write_canonical_view};

/// Appends the line of the record that a view shows, with its elements as they stand.
fn put_shown(view: &RecordView<'_>, out: &mut Vec<u8>) -> Result<(), AllocError>
    ensures { Puts (ShownLine (view_parts view.now)) out.old.items out.new.items result }
{
    let header = HeaderValues {
        priority: view.priority(),
        instant: view.instant(),
        hostname: view.hostname(),
        app_name: view.app_name(),
        proc_id: view.proc_id(),
        msg_id: view.msg_id(),
    };
    let parts = LentParts {
        header,
        structured_data: view.structured_data,
        message: view.message_view(),
    };
    append_line(&parts, out)
}

/// Appends the line of the record that a view shows, by way of its canonical octets, in which the
/// elements stand by id.
#[cold]
#[inline(never)]
fn put_sorted(
    alloc: Global,
    view: &RecordView<'_>,
    scratch: &mut Vec<u8>,
    out: &mut Vec<u8>,
) -> Result<(), AllocError>
    ensures begun { Adds Anything out.old.items out.new.items }
    ensures ok { (b : List ℕ) → IsViewOf b (view_parts view.now)
        → OnOk result (AddsLine b out.old.items out.new.items) }
{
    scratch.clear();
    write_canonical_view(alloc, view, scratch)?;
    match read(scratch.as_slice()) {
        Ok(sorted) => put_shown(&sorted, out),
        Err(_) => unreachable!(),
    }
}

/// Appends the line of the record that a view shows; if memory is refused, possibly a part of it.
fn append_view_line(
    alloc: Global,
    view: &RecordView<'_>,
    scratch: &mut Vec<u8>,
    out: &mut Vec<u8>,
) -> Result<(), AllocError>
    ensures begun { Adds Anything out.old.items out.new.items }
    ensures ok { (b : List ℕ) → IsViewOf b (view_parts view.now)
        → OnOk result (AddsLine b out.old.items out.new.items) }
{
    let ascends = view.ascends;
    if ascends {
        return put_shown(view, out);
    }
    put_sorted(alloc, view, scratch, out)
}

/// Appends the record that the octets of a view spell as one line of JSON, which a line feed ends.
///
/// If the elements do not stand by id, the canonical octets are first written to the scratch
/// vector, whose contents are lost, and the allocator is used as by [`write_canonical_view`].
/// Otherwise no memory is taken but that of the output. If an allocation fails, the output is
/// unchanged.
pub fn put_json_line(
    alloc: Global,
    view: &RecordView<'_>,
    scratch: &mut Vec<u8>,
    out: &mut Vec<u8>,
) -> Result<(), AllocError>
    ensures ok { (b : List ℕ) → IsViewOf b (view_parts view.now)
        → OnOk result (AddsLine b out.old.items out.new.items) }
    ensures err { OnErr result (out.new.items ≡ out.old.items) }
{
    let start = out.len();
    if let Err(refused) = append_view_line(alloc, view, scratch, out) {
        out.truncate(start);
        return Err(refused);
    }
    Ok(())
}
