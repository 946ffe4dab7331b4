//! Writing of frames.

ghost use Rattle.std.specs.Prelude.{◌≡◌, ◌≤◌, ◌++◌, ◌↔◌, IfErr, IsTrue, OnErr, OnOk, length};
ghost use Rattle.syslog_frame.specs.Frames.{CanCarry, IsLine, framed};
ghost use Rattle.syslog_frame.specs.Put.{IsPutFault};
ghost use Rattle.syslog_frame.specs.declared.framing.Framing.TheVariants.{Counted, Lf};

use crate::fault::PutFault;
use crate::framing::Framing;
use crate::limits::FRAME_MAX;
use itoa::Buffer;
use memchr::memchr;
use std::alloc::AllocError;

fn is_line(octets: &[u8]) -> bool
    ensures { IsTrue result ↔ IsLine octets.now }
{
    match memchr(b'\n', octets) {
        None => true,
        Some(_) => false,
    }
}

/// Appends a line. Its room is reserved first, so that a failed allocation changes nothing.
fn put_line(octets: &[u8], out: &mut Vec<u8>) -> Result<(), AllocError>
    requires { length octets.now ≤ FRAME_MAX }
    ensures ok { OnOk result (out.new.items ≡ out.old.items ++ framed Lf octets.now) }
    ensures same { OnErr result (out.new.items ≡ out.old.items) }
{
    out.reserve(octets.len() + 1)?;
    let _ = out.extend_from_slice(octets);
    let _ = out.extend_from_slice(b"\n");
    Ok(())
}

/// Appends a counted frame, as [`put_line`] appends a line.
fn put_counted(octets: &[u8], out: &mut Vec<u8>) -> Result<(), AllocError>
    requires { length octets.now ≤ FRAME_MAX }
    ensures ok { OnOk result (out.new.items ≡ out.old.items ++ framed Counted octets.now) }
    ensures same { OnErr result (out.new.items ≡ out.old.items) }
{
    let mut buffer = Buffer::new();
    let count = buffer.format(octets.len()).as_bytes();
    out.reserve(count.len() + 1 + octets.len())?;
    let _ = out.extend_from_slice(count);
    let _ = out.extend_from_slice(b" ");
    let _ = out.extend_from_slice(octets);
    Ok(())
}

/// Appends octets to `out` as one frame. The refusals come in the order of the variants of
/// [`PutFault`], and leave `out` unchanged.
pub fn put_frame(framing: Framing, octets: &[u8], out: &mut Vec<u8>) -> Result<(), PutFault>
    ensures ok { OnOk result (CanCarry framing octets.now × (length octets.now ≤ FRAME_MAX)
        × (out.new.items ≡ out.old.items ++ framed framing octets.now)) }
    ensures err { IfErr result (λ fault. IsPutFault FRAME_MAX framing octets.now fault) }
    ensures same { OnErr result (out.new.items ≡ out.old.items) }
{
    match framing {
        Framing::Counted if octets.is_empty() => return Err(PutFault::Empty),
        Framing::Lf if !is_line(octets) => return Err(PutFault::HasLf),
        _ => {}
    }
    if octets.len() > FRAME_MAX {
        return Err(PutFault::TooLong);
    }
    let put = match framing {
        Framing::Counted => put_counted(octets, out),
        Framing::Lf => put_line(octets, out),
    };
    put.map_err(|_| PutFault::Memory)
}
