//! The canonical octets of a legacy packet's record.

ghost use Rattle.std.specs.Prelude.{◌≡◌};
ghost use Rattle.syslog_fields.specs.Appending.{Appends, Puts};
ghost use Rattle.syslog_fields.specs.Canonical.{Canonical};
ghost use Rattle.syslog_legacy.specs.Views.{legacy_view_parts};

use crate::view::LegacyView;
use std::alloc::AllocError;
use syslog_grammar::fields::{HeaderValues, put_header, put_message_part};

/// Appends the canonical octets of the record that a view shows; if memory is refused, possibly a
/// part of them.
fn put_view(view: &LegacyView<'_>, out: &mut Vec<u8>) -> Result<(), AllocError>
    ensures { Puts (Canonical (legacy_view_parts view.now)) out.old.items out.new.items result }
{
    let fields = HeaderValues {
        priority: view.front.priority,
        instant: view.front.instant,
        hostname: view.front.hostname,
        app_name: view.front.app_name,
        proc_id: view.front.proc_id,
        msg_id: None,
    };
    put_header(&fields, out)?;
    out.extend_from_slice(b"-")?;
    put_message_part(view.message.octets, view.message.has_mark, out)
}

/// Appends the canonical octets of the record that a view shows.
///
/// If an allocation fails, the vector is unchanged. No memory is taken but that of the vector.
pub fn put_legacy_canonical(view: &LegacyView<'_>, out: &mut Vec<u8>) -> Result<(), AllocError>
    ensures { Appends (Canonical (legacy_view_parts view.now))
        out.old.items out.new.items result }
{
    let start = out.len();
    if let Err(refused) = put_view(view, out) {
        out.truncate(start);
        return Err(refused);
    }
    Ok(())
}
