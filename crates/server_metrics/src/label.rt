//! Labels of samples.
ghost use Rattle.std.specs.Prelude.{◌≡◌, ◌++◌, OnOk};
ghost use Rattle.server_metrics.specs.Texts.{escaped, escaped_octet, label_text};

use crate::text::put;
use std::alloc::AllocError;

// Appends an octet of a label's value as the format writes it.
fn put_escaped_octet(out: &mut Vec<u8>, octet: u8) -> Result<(), AllocError>
    ensures { OnOk result (out.new.items ≡ out.old.items ++ escaped_octet octet) }
{
    match octet {
        b'\\' => put(out, b"\\\\"),
        b'"' => put(out, b"\\\""),
        b'\n' => put(out, b"\\n"),
        _ => put(out, &[octet]),
    }
}

// Appends a label's value as the format writes it: a backslash stands before each backslash and each
// double quote, and a line feed is a backslash and `n`.
fn put_escaped(out: &mut Vec<u8>, value: &[u8]) -> Result<(), AllocError>
    ensures { OnOk result (out.new.items ≡ out.old.items ++ escaped value.now) }
{
    for octet in value {
        put_escaped_octet(out, *octet)?;
    }
    Ok(())
}

/// Appends a label: its name, and its value in double quotes.
#[tactic(auto, unfolding(crate::specs::Texts::label_text))]
pub(crate) fn put_label(out: &mut Vec<u8>, name: &[u8], value: &[u8]) -> Result<(), AllocError>
    ensures { OnOk result (out.new.items ≡ out.old.items ++ label_text name.now value.now) }
{
    put(out, name)?;
    put(out, b"=\"")?;
    put_escaped(out, value)?;
    put(out, b"\"")
}
