//! What `check`, `show` and `convert` do with legacy packets, and with devices that fail.

use driver::{FAULT, REFUSED};
use frame_engine::{Check, Convert, FrameHandler, InputFraming, Show, scan_input};
use octet_devices::{FromRead, Fuse, READER_CALLS, ToWrite};
use std::alloc::Global;
use std::io::Read;
use std::test::Fail;
use syslog_frame::Framing;
use syslog_legacy::{FrameReading, LegacyClock};

const LINES: InputFraming = InputFraming::Stream(Framing::Lf);

const COUNTED: InputFraming = InputFraming::Stream(Framing::Counted);

/// A legacy packet, a record of RFC 5424, one with a fault, a packet whose message is not UTF-8,
/// and a packet without a time.
const STREAM: &[u8] = b"<34>Oct 11 22:14:15 mymachine su: 'su root' failed\n\
<13>1 - - - - - -\n\
<13>1 x\n\
<13>\xef\xbb\xbf\xc3\n\
<13>10 x\n";

const CHECKED: &[u8] = b"1 ok\n2 ok\n3 syntax timestamp 6\n4 legacy-not-utf8 8\n5 ok\n";

const NOTED: &[u8] = b"3 syntax timestamp 6\n4 legacy-not-utf8 8\n";

const CONVERTED: &[u8] = b"<34>1 2003-10-11T22:14:15.000000Z mymachine su - - - 'su root' failed\n\
<13>1 - - - - - -\n\
<13>1 - - - - - - 10 x\n";

const SHOWN: &[u8] = b"record 1\npriority 34 auth crit\ntime 2003-10-11T22:14:15.000000Z\n\
host mymachine\napp su\nproc -\nmsgid -\nmessage any \"'su root' failed\"\n\
record 2\npriority 13 user notice\ntime -\nhost -\napp -\nproc -\nmsgid -\nmessage any \"\"\n\
record 5\npriority 13 user notice\ntime -\nhost -\napp -\nproc -\nmsgid -\nmessage any \"10 x\"\n";

/// The status of a command, its output and its notes.
type Ran = (u8, Vec<u8>, Vec<u8>);

/// Runs a handler over octets. The reader fails at the call after the first `reads` ones, the
/// writer after `writes` octets.
fn ran<D: FrameHandler + Drop>(
    alloc: Global,
    input_framing: InputFraming,
    handler: D,
    input: &[u8],
    reads: u64,
    writes: u64,
) -> Ran {
    let mut reader = Fuse::new(FromRead::new(input), u64::MAX, reads);
    let mut writer = Fuse::new(ToWrite::new(Vec::new(alloc)), writes, u64::MAX);
    let mut notes = ToWrite::new(Vec::new(alloc));
    let status = scan_input(
        alloc,
        input_framing,
        handler,
        &mut reader,
        &mut writer,
        &mut notes,
    );
    (status, writer.into_inner().into_inner(), notes.into_inner())
}

fn clock() -> Option<LegacyClock> {
    LegacyClock::new(2003, 0)
}

fn converts(alloc: Global, clock: Option<LegacyClock>) -> Convert {
    Convert {
        alloc,
        reading: FrameReading::from(clock),
        to: Some(Framing::Lf),
    }
}

/// Fails unless a run had this status, output and notes.
fn expect(ran: Ran, status: u8, output: &[u8], notes: &[u8]) -> Result<(), Fail> {
    if ran.0 != status {
        return Err(Fail::from("another status"));
    }
    if ran.1.as_slice() != output {
        return Err(Fail::from("another output"));
    }
    if ran.2.as_slice() != notes {
        return Err(Fail::from("other notes"));
    }
    Ok(())
}

#[test]
fn legacy_packets_are_handled(rt: HostRuntime) -> Result<(), Fail> {
    let alloc = rt.alloc();
    let clock = clock();
    let most = u64::MAX;
    let checked = ran(
        alloc,
        LINES,
        Check {
            reading: FrameReading::from(clock),
        },
        STREAM,
        most,
        most,
    );
    expect(checked, REFUSED, CHECKED, b"")?;
    let converted = ran(alloc, LINES, converts(alloc, clock), STREAM, most, most);
    expect(converted, REFUSED, CONVERTED, NOTED)?;
    let shown = ran(
        alloc,
        LINES,
        Show {
            alloc,
            reading: FrameReading::from(clock),
        },
        STREAM,
        most,
        most,
    );
    expect(shown, REFUSED, SHOWN, NOTED)
}

#[test]
fn without_a_clock_no_packet_is_legacy(rt: HostRuntime) -> Result<(), Fail> {
    let check = Check {
        reading: FrameReading::from(None),
    };
    let most = u64::MAX;
    let checked = ran(
        rt.alloc(),
        InputFraming::Datagram,
        check,
        b"<13>10 x",
        most,
        most,
    );
    expect(checked, REFUSED, b"1 syntax version 5\n", b"")
}

/// Under a writer that fails after n octets, exactly these were written, and the notes end with the
/// line on it.
fn fails_everywhere<D: FrameHandler + Copy + Drop>(
    alloc: Global,
    handler: D,
    output: &[u8],
    noted: &[u8],
) -> Result<(), Fail> {
    let mut notes = Vec::new(alloc);
    notes.extend_from_slice(noted)?;
    notes.extend_from_slice(b"write fault\n")?;
    for n in 0..output.len() {
        let failed = ran(alloc, LINES, handler, STREAM, u64::MAX, n as u64);
        expect(failed, FAULT, &output[..n], notes.as_slice())?;
    }
    Ok(())
}

#[test]
fn a_writer_that_fails_is_reported(rt: HostRuntime) -> Result<(), Fail> {
    let alloc = rt.alloc();
    let clock = clock();
    fails_everywhere(
        alloc,
        Check {
            reading: FrameReading::from(clock),
        },
        CHECKED,
        b"",
    )?;
    fails_everywhere(
        alloc,
        Show {
            alloc,
            reading: FrameReading::from(clock),
        },
        SHOWN,
        NOTED,
    )?;
    fails_everywhere(alloc, converts(alloc, clock), CONVERTED, NOTED)
}

#[test]
fn nothing_is_read_behind_a_bad_count(rt: HostRuntime) -> Result<(), Fail> {
    let alloc = rt.alloc();
    let check = Check {
        reading: FrameReading::from(None),
    };
    // The second call would fail.
    let bad = ran(alloc, COUNTED, check, b"1 xx", 1, u64::MAX);
    expect(bad, REFUSED, b"1 syntax priority 0\n2 bad-count 3\n", b"")?;
    // It fails, and no count is bad before it.
    let failed = ran(alloc, COUNTED, check, b"1 x", 1, u64::MAX);
    expect(failed, FAULT, b"1 syntax priority 0\n", b"read fault\n")
}

/// A reader that gives one octet per call.
#[derive(Drop)]
struct OneByOne<R> {
    inner: R,
}

impl<R: Read> Read for OneByOne<R> {
    fn read(&mut self, buf: &mut [u8]) -> std::io::Result<usize> {
        let len = buf.len().min(1);
        self.inner.read(&mut buf[..len])
    }
}

#[test]
fn an_end_at_the_last_call_is_in_time(rt: HostRuntime) -> Result<(), Fail> {
    let alloc = rt.alloc();
    let check = Check {
        reading: FrameReading::from(None),
    };
    for (octets, status, output, line) in [
        (
            READER_CALLS - 1,
            REFUSED,
            b"unterminated 0\n".as_slice(),
            b"".as_slice(),
        ),
        (READER_CALLS, FAULT, b"", b"endless input\n"),
    ] {
        let inner = std::io::repeat(7).take(octets);
        let mut reader = FromRead::new(OneByOne { inner });
        let mut writer = ToWrite::new(Vec::new(alloc));
        let mut notes = ToWrite::new(Vec::new(alloc));
        let answer = scan_input(alloc, LINES, check, &mut reader, &mut writer, &mut notes);
        expect(
            (answer, writer.into_inner(), notes.into_inner()),
            status,
            output,
            line,
        )?;
    }
    Ok(())
}
