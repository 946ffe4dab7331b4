//! Octets are written as one frame.

ghost use Rattle.std.specs.Prelude.{◌≡◌, ◌<◌, IfErr, IfOk, MatchResult, length};
ghost use Rattle.octet_devices.specs.Device.{OutputState};
ghost use Rattle.syslog_frame.specs.Frames.{framed};
ghost use Rattle.syslog_sender.specs.Answers.{IsFrameFault, IsWriteFault, TakesFrame};
ghost use Rattle.syslog_sender.specs.Sent.{IsFrame};

use crate::fault::SendFault;
use octet_devices::{Output, WriteFault, write_all};
use std::alloc::Global;
use syslog_frame::{Framing, PutFault, put_frame};

/// The frame of these octets.
fn frame_of(alloc: Global, framing: Framing, octets: &[u8]) -> Result<Vec<u8>, SendFault>
    requires { 0 < length octets.now }
    ensures ok { IfOk result (λ frame.
        IsFrame framing octets.now × (frame.items ≡ framed framing octets.now)) }
    ensures err { IfErr result (λ fault. (old new : OutputState)
        → IsFrameFault framing octets.now old new fault) }
    ensures unwritten { IfErr result (λ fault. ¬ (IsWriteFault fault)) }
{
    let mut frame = Vec::new(alloc);
    match put_frame(framing, octets, &mut frame) {
        Ok(()) => Ok(frame),
        Err(PutFault::HasLf) => Err(SendFault::HasLf),
        Err(PutFault::TooLong) => Err(SendFault::TooLong),
        Err(PutFault::Memory) => Err(SendFault::Memory),
        Err(PutFault::Empty) => unreachable!(),
    }
}

/// Writes octets, at least one, as one frame. It fails as the variants of [`SendFault`] say.
pub fn write_frame<W: Output>(
    alloc: Global,
    framing: Framing,
    octets: &[u8],
    writer: &mut W,
) -> Result<(), SendFault>
    requires { 0 < length octets.now }
    ensures sends { MatchResult result
        (λ _. TakesFrame framing octets.now (W.state writer.old) (W.state writer.new))
        (IsFrameFault framing octets.now (W.state writer.old) (W.state writer.new)) }
    ensures same { IfErr result (λ fault. ¬ (IsWriteFault fault) → writer.new ≡ writer.old) }
{
    let frame = frame_of(alloc, framing, octets)?;
    match write_all(writer, frame.as_slice()) {
        Ok(()) => Ok(()),
        Err(WriteFault { sent }) => Err(SendFault::Write { sent }),
    }
}
