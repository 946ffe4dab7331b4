//! `archive`: the records of an input, as an archive.

ghost use Rattle.driver.specs.Devices.{devices};
ghost use Rattle.driver.specs.Run.{Ran};
ghost use Rattle.archive_engine.specs.Archived.{archive_meaning};

use crate::archive_datagram::ArchiveDatagram;
use crate::archive_stream::ArchiveStream;
use driver::{NO_MEMORY, drive, report};
use frame_engine::InputFraming;
use octet_devices::{Input, Output};
use std::alloc::Global;
use syslog_legacy::FrameReading;

/// Writes the records of the rest of the input as an archive: each once, in its canonical form, in
/// the one order of archives. A line on each frame that is refused, on a bad count and on an end
/// inside a frame goes to the diagnostics. Returns the exit status: `DONE` if nothing was refused,
/// else `REFUSED`; `FAULT` if a device failed or the input has no end; `NO_MEMORY` if memory ran
/// out. After the last two no archive is written, or the first octets of one if the output or the
/// diagnostics failed.
/// After a bad count nothing more is read.
pub fn archive_input<R: Input, W: Output, N: Output>(
    alloc: Global,
    input_framing: InputFraming,
    reading: FrameReading,
    input: &mut R,
    output: &mut W,
    diagnostics: &mut N,
) -> u8
    ensures { Ran (archive_meaning reading input_framing)
        (devices (R.state input.old) (W.state output.old) (N.state diagnostics.old))
        (devices (R.state input.new) (W.state output.new) (N.state diagnostics.new))
        result }
{
    match input_framing {
        InputFraming::Datagram => {
            let mut session = ArchiveDatagram::new(alloc, reading);
            drive(alloc, &mut session, input, output, diagnostics)
        }
        InputFraming::Stream(framing) => {
            let Ok(mut session) = ArchiveStream::new(alloc, framing, reading) else {
                return report(diagnostics, b"want of memory\n", NO_MEMORY);
            };
            drive(alloc, &mut session, input, output, diagnostics)
        }
    }
}
