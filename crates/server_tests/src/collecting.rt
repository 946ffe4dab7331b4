//! Sources that are served: lists, and sockets of this process.

use archive_pages::PagedArchive;
use archive_text::Store;
use collect_engine::{
    CollectWords, ListSource, ServeEnd, Source, Step, TcpSource, Transport, UdpSource, run_collect,
    serve,
};
use octet_devices::ToWrite;
use std::alloc::Global;
use std::io::Write;
use std::net::{TcpListener, TcpStream, UdpSocket};
use std::process::Abort;
use std::test::Fail;
use syslog_collect::Collector;
use syslog_frame::Framing;
use syslog_legacy::FrameReading;

const A: &[u8] = b"<13>1 - h a - - - x";

const B: &[u8] = b"<14>1 2024-02-29T23:30:00.000000Z h a - - - y";

const A_COUNTED: &[u8] = b"19 <13>1 - h a - - - x";

const B_COUNTED: &[u8] = b"45 <14>1 2024-02-29T23:30:00.000000Z h a - - - y";

const BOTH: &[u8] = b"19 <13>1 - h a - - - x45 <14>1 2024-02-29T23:30:00.000000Z h a - - - y";

// The status, the archive and the lines of a source that is collected.
fn collected<R: Source>(alloc: Global, source: &mut R) -> Result<(u8, Vec<u8>, Vec<u8>), Fail> {
    let words = CollectWords {
        transport: Transport::Udp,
        port: 514,
        count: 2,
        reading: FrameReading::from(None),
    };
    let mut writer = ToWrite::new(Vec::new(alloc));
    let mut notes = ToWrite::new(Vec::new(alloc));
    let status = run_collect(alloc, &words, source, &mut writer, &mut notes);
    Ok((status, writer.into_inner(), notes.into_inner()))
}

// Sees that a run has this status, archive and lines.
fn see(rt: &impl Abort, found: &(u8, Vec<u8>, Vec<u8>), expected: (u8, &[u8], &[u8])) {
    assert_eq!(rt; found.0, expected.0);
    assert_eq!(rt; found.1.as_slice(), expected.1);
    assert_eq!(rt; found.2.as_slice(), expected.2);
}

// A source in memory that gives these steps with these octets.
fn listed(alloc: Global, steps: &[(Step, &[u8])]) -> Result<ListSource, Fail> {
    let mut list = Vec::new(alloc);
    for (step, octets) in steps {
        let mut copy = Vec::new(alloc);
        copy.extend_from_slice(octets)?;
        list.push((*step, copy))?;
    }
    Ok(ListSource::new(list))
}

// Sends datagrams to a socket; what comes of them is collected.
fn collected_by_udp(rt: &HostRuntime, sent: &[&[u8]]) -> Result<(u8, Vec<u8>, Vec<u8>), Fail> {
    let server = UdpSocket::bind(rt, "127.0.0.1:0")?;
    let client = UdpSocket::bind(rt, "127.0.0.1:0")?;
    let addr = server.local_addr()?;
    for octets in sent {
        client.send_to(octets, addr)?;
    }
    let mut source = UdpSource::new(server, sent.len().min(9) as u32);
    collected(rt.alloc(), &mut source)
}

#[test]
fn datagrams_are_collected(rt: HostRuntime) -> Result<(), Fail> {
    let found = collected_by_udp(&rt, &[B, A])?;
    see(&rt, &found, (0, BOTH, b""));
    Ok(())
}

// Connects to a listener and sends these octets on a connection of their own each; what comes of
// them is collected.
fn collected_by_tcp(
    rt: &HostRuntime,
    framing: Framing,
    sent: &[&[u8]],
) -> Result<(u8, Vec<u8>, Vec<u8>), Fail> {
    let listener = TcpListener::bind(rt, "127.0.0.1:0")?;
    let addr = listener.local_addr()?;
    for octets in sent {
        let mut client = TcpStream::connect(rt, addr)?;
        client.write_all(octets)?;
        drop(client);
    }
    let mut source = TcpSource::new(listener, framing, sent.len().min(9) as u32);
    collected(rt.alloc(), &mut source)
}

#[test]
fn connections_are_collected(rt: HostRuntime) -> Result<(), Fail> {
    let first = b"19 <13>1 - h a - - - x45 ".as_slice();
    let found = collected_by_tcp(&rt, Framing::Counted, &[first, B_COUNTED])?;
    see(&rt, &found, (1, BOTH, b"unterminated 22\n"));
    Ok(())
}

#[test]
fn a_bad_count_ends_its_own_connection_alone(rt: HostRuntime) -> Result<(), Fail> {
    let sent = [b"x".as_slice(), A_COUNTED, b"x"];
    let found = collected_by_tcp(&rt, Framing::Counted, &sent)?;
    see(
        &rt,
        &found,
        (1, A_COUNTED, b"1 bad-count 0\n3 bad-count 0\n"),
    );
    Ok(())
}

#[test]
fn lines_are_collected(rt: HostRuntime) -> Result<(), Fail> {
    let sent = [b"<13>1 - h a - - - x\nx\n".as_slice(), b"x\n"];
    let found = collected_by_tcp(&rt, Framing::Lf, &sent)?;
    see(
        &rt,
        &found,
        (1, A_COUNTED, b"2 syntax priority 0\n3 syntax priority 0\n"),
    );
    Ok(())
}

#[test]
fn after_a_fault_the_archive_is_written(rt: HostRuntime) -> Result<(), Fail> {
    let mut source = listed(rt.alloc(), &[(Step::Datagram(0), B), (Step::Failed, b"")])?;
    let found = collected(rt.alloc(), &mut source)?;
    see(&rt, &found, (2, B_COUNTED, b"socket fault\n"));
    Ok(())
}

#[test]
fn the_rest_of_a_failed_connection_is_passed_over(rt: HostRuntime) -> Result<(), Fail> {
    let mut source = listed(
        rt.alloc(),
        &[
            (Step::Opened(Framing::Counted), b""),
            (Step::Piece(0), b"19 <13>1 - h a - - - xx"),
            (Step::Piece(0), B_COUNTED),
            (Step::Ended, b""),
            (Step::Datagram(0), b""),
            (Step::Finished, b""),
        ],
    )?;
    let found = collected(rt.alloc(), &mut source)?;
    see(
        &rt,
        &found,
        (1, A_COUNTED, b"2 bad-count 22\n3 syntax priority 0\n"),
    );
    Ok(())
}

#[test]
fn a_source_without_an_end_is_told(rt: HostRuntime) -> Result<(), Fail> {
    let steps = [
        (Step::Opened(Framing::Lf), b"".as_slice()),
        (Step::Piece(0), b""),
    ];
    let mut source = listed(rt.alloc(), &steps)?;
    let found = collected(rt.alloc(), &mut source)?;
    see(&rt, &found, (2, b"", b"endless input\n"));
    Ok(())
}

// How serving a list of steps ends.
fn end_of(alloc: Global, steps: &[(Step, &[u8])]) -> Result<ServeEnd, Fail> {
    let mut source = listed(alloc, steps)?;
    let mut notes = ToWrite::new(Vec::new(alloc));
    let Ok(mut collector) = Collector::new(alloc, PagedArchive::new(alloc), None) else {
        return Ok(ServeEnd::Memory);
    };
    Ok(serve(alloc, &mut collector, &mut source, &mut notes))
}

#[test]
fn how_serving_ends(rt: HostRuntime) -> Result<(), Fail> {
    for (steps, end) in [
        (
            [
                (Step::Datagram(0), B),
                (Step::Datagram(0), A),
                (Step::Finished, b"".as_slice()),
            ]
            .as_slice(),
            ServeEnd::Done { refused: false },
        ),
        (
            [(Step::Datagram(0), b"".as_slice()), (Step::Finished, b"")].as_slice(),
            ServeEnd::Done { refused: true },
        ),
        ([].as_slice(), ServeEnd::Failed),
        ([(Step::Ended, b"".as_slice())].as_slice(), ServeEnd::Failed),
        (
            [(Step::Opened(Framing::Lf), b"".as_slice())].as_slice(),
            ServeEnd::Failed,
        ),
    ] {
        assert_eq!(rt; end_of(rt.alloc(), steps)?, end);
    }
    Ok(())
}
