//! An input that is handled frame by frame.

ghost use Rattle.driver.specs.Devices.{devices};
ghost use Rattle.driver.specs.Run.{Ran, RanWithin, endless, limits_by};
ghost use Rattle.frame_engine.specs.Sessions.{handler_meaning};

use crate::datagram_session::DatagramSession;
use crate::frame_handler::FrameHandler;
use crate::input_framing::InputFraming;
use crate::stream_session::StreamSession;
use driver::{EndlessRoom, NO_MEMORY, ReadLimit, drive, drive_endless, report};
use octet_devices::{Input, Output};
use std::alloc::Global;

/// Handles the rest of the input, frame by frame, and writes what comes of it: octets to the
/// output, reports of what went wrong to the diagnostics. Returns the exit status: `DONE` if
/// nothing was refused, else `REFUSED`; `FAULT` if a device failed or the input has no end;
/// `NO_MEMORY` if memory ran out.
pub fn scan_input<D: FrameHandler + Drop, R: Input, W: Output, N: Output>(
    alloc: Global,
    input_framing: InputFraming,
    handler: D,
    input: &mut R,
    output: &mut W,
    diagnostics: &mut N,
) -> u8
    ensures { Ran (handler_meaning (D.handles handler) (D.reports handler) (D.ends handler) input_framing)
        (devices (R.state input.old) (W.state output.old) (N.state diagnostics.old))
        (devices (R.state input.new) (W.state output.new) (N.state diagnostics.new))
        result }
{
    match input_framing {
        InputFraming::Datagram => {
            let mut session = DatagramSession::new(alloc, handler);
            drive(alloc, &mut session, input, output, diagnostics)
        }
        InputFraming::Stream(framing) => {
            let Ok(mut session) = StreamSession::new(alloc, framing, handler) else {
                return report(diagnostics, b"want of memory\n", NO_MEMORY);
            };
            drive(alloc, &mut session, input, output, diagnostics)
        }
    }
}

// The same of an input that may have any length.
fn scan_endless<D: FrameHandler + Drop, R: Input, W: Output, N: Output>(
    alloc: Global,
    input_framing: InputFraming,
    handler: D,
    input: &mut R,
    output: &mut W,
    diagnostics: &mut N,
) -> u8
    ensures { RanWithin endless
        (handler_meaning (D.handles handler) (D.reports handler) (D.ends handler) input_framing)
        (devices (R.state input.old) (W.state output.old) (N.state diagnostics.old))
        (devices (R.state input.new) (W.state output.new) (N.state diagnostics.new))
        result }
{
    let Ok(mut room) = EndlessRoom::new(alloc) else {
        return report(diagnostics, b"want of memory\n", NO_MEMORY);
    };
    match input_framing {
        InputFraming::Datagram => {
            let mut session = DatagramSession::new(alloc, handler);
            drive_endless(alloc, &mut room, &mut session, input, output, diagnostics)
        }
        InputFraming::Stream(framing) => {
            let Ok(mut session) = StreamSession::new(alloc, framing, handler) else {
                return report(diagnostics, b"want of memory\n", NO_MEMORY);
            };
            drive_endless(alloc, &mut room, &mut session, input, output, diagnostics)
        }
    }
}

/// How the frames of an input are delimited, and how much of it is read.
#[derive(Clone, Copy, Debug, PartialEq, Eq)]
pub struct FrameSource {
    /// The framing of the input.
    pub framing: InputFraming,
    /// How much of it is read.
    pub limit: ReadLimit,
}

/// Handles the rest of the input, frame by frame, as [`scan_input`] does, up to the limit of the source.
pub fn scan_source<D: FrameHandler + Drop, R: Input, W: Output, N: Output>(
    alloc: Global,
    source: FrameSource,
    handler: D,
    input: &mut R,
    output: &mut W,
    diagnostics: &mut N,
) -> u8
    ensures { RanWithin (limits_by source.limit)
        (handler_meaning (D.handles handler) (D.reports handler) (D.ends handler) source.framing)
        (devices (R.state input.old) (W.state output.old) (N.state diagnostics.old))
        (devices (R.state input.new) (W.state output.new) (N.state diagnostics.new))
        result }
{
    let FrameSource { framing, limit } = source;
    match limit {
        ReadLimit::Standard => scan_input(alloc, framing, handler, input, output, diagnostics),
        ReadLimit::Unlimited => scan_endless(alloc, framing, handler, input, output, diagnostics),
    }
}
