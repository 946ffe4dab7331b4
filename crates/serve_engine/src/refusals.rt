//! Frames that are refused, as they are kept.
ghost use Rattle.std.specs.Prelude.{◌≡◌, ◌++◌, OnOk, codes, decimal, length};
ghost use Rattle.serve_engine.specs.Refusals.{counted_text, octets_in, refusal_text};

use itoa::Buffer;
use std::alloc::{AllocError, Global};

fn put(out: &mut Vec<u8>, text: &[u8]) -> Result<(), AllocError>
    ensures { OnOk result (out.new.items ≡ out.old.items ++ text.now) }
{
    out.extend_from_slice(text)
}

// Appends octets as a counted frame (RFC 6587, section 3.4.1).
fn put_counted(out: &mut Vec<u8>, octets: &[u8]) -> Result<(), AllocError>
    ensures { OnOk result (out.new.items ≡ out.old.items ++ counted_text octets.now) }
{
    put(out, Buffer::new().format(octets.len()).as_bytes())?;
    put(out, b" ")?;
    put(out, octets)
}

// Appends a line, a line feed and a frame.
fn put_both(out: &mut Vec<u8>, line: &[u8], frame: &[u8]) -> Result<(), AllocError>
    ensures { OnOk result (out.new.items ≡ out.old.items ++ (line.now ++ (codes "\n" ++ frame.now))) }
{
    put(out, line)?;
    put(out, b"\n")?;
    put(out, frame)
}

/// Appends a counted frame: the line on a frame that was refused, and, if that frame is kept, a
/// line feed and the frame.
pub(crate) fn put_refusal(
    alloc: Global,
    out: &mut Vec<u8>,
    line: &[u8],
    frame: Option<&[u8]>,
) -> Result<(), AllocError>
    ensures { OnOk result (out.new.items ≡ out.old.items ++ counted_text (refusal_text line.now (octets_in frame.entry))) }
{
    match frame {
        None => put_counted(out, line),
        Some(frame) => {
            let mut both = Vec::new(alloc);
            put_both(&mut both, line, frame)?;
            put_counted(out, both.as_slice())
        }
    }
}
