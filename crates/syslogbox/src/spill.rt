//! `archive --spill`, over a folder of the system.

use crate::meter::{ClearedWriter, Meter, MeteredOutput, MeteredReader, SharedMeter, stdin_octets};
use archive_engine::archive_spilled_input;
use archive_spill::{FolderSpill, SpilledArchive};
use driver::{FAULT, NO_MEMORY, report};
use frame_engine::InputFraming;
use octet_devices::{FromRead, ToWrite};
use std::alloc::Global;
use syslog_legacy::FrameReading;

/// Where records go that do not fit in memory.
#[derive(Drop)]
pub struct Room<'a> {
    /// The folder of files without names.
    pub dir: &'a str,
    /// The room of the set in memory, in MiB.
    pub memory_mib: u32,
}

// Writes the records of standard input, whose octets a meter counts, as an archive to standard output.
fn archive_metered(
    rt: &HostRuntime,
    alloc: Global,
    input_framing: InputFraming,
    reading: FrameReading,
    room: &Room<'_>,
    meter: SharedMeter<'_, '_>,
) -> u8 {
    let mut diagnostics = ToWrite::new(ClearedWriter {
        writer: rt.stderr(),
        meter,
    });
    if room.dir.is_empty() {
        // no folder: files below it would be those of the root
        return report(&mut diagnostics, b"spill fault\n", FAULT);
    }
    let Ok(spill) = FolderSpill::new(rt, room.dir) else {
        return report(&mut diagnostics, b"want of memory\n", NO_MEMORY);
    };
    let octets = (room.memory_mib as usize).saturating_mul(1 << 20);
    meter.expect_more(stdin_octets(rt));
    let status = archive_spilled_input(
        alloc,
        input_framing,
        reading,
        SpilledArchive::new(alloc, spill, octets),
        &mut FromRead::new(MeteredReader {
            reader: rt.stdin(),
            meter,
        }),
        &mut ToWrite::new(MeteredOutput::new(rt.stdout(), meter)),
        &mut diagnostics,
    );
    meter.clear();
    status
}

/// Writes the records of standard input as an archive to standard output. Returns the exit status.
pub fn archive(
    rt: &HostRuntime,
    alloc: Global,
    input_framing: InputFraming,
    reading: FrameReading,
    room: &Room<'_>,
    is_quiet: bool,
) -> u8 {
    let meter = Meter::of_input(rt, is_quiet);
    let meter = SharedMeter::new(meter.as_ref());
    archive_metered(rt, alloc, input_framing, reading, room, meter)
}
