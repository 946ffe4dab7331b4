//! How fast a peer may send: steps of real sockets over the loopback.

use peer_rules::{AllowList, Rates};
use socket_source::{
    ConnectionEnd, Listener, ServerSource, ServerStep, SocketSource, SourceOptions,
};
use std::alloc::Global;
use std::collections::hash_map::RandomState;
use std::io::Write;
use std::net::{SocketAddr, TcpStream, UdpSocket};
use std::process::Abort;
use std::test::Fail;
use std::time::{Duration, Instant};

type Sockets<'a> = SocketSource<'a, HostRuntime>;

// A record in whose text a mark of a count stands.
const RECORD: &[u8] = b"<13>1 - h a - - - x 12 y";

// How many records of a peer pass at once under a rate of one a second.
const BURST: usize = 10;

fn expect(holds: bool, what: &'static str) -> Result<(), Fail> {
    if holds { Ok(()) } else { Err(Fail::from(what)) }
}

fn any() -> Result<SocketAddr, Fail> {
    Ok("127.0.0.1:0".parse::<SocketAddr>()?)
}

// A source of datagrams, and of connections with lines and with counted records, to which an address may
// send so many records a second.
fn open(rt: &HostRuntime, rate: u32, idle: Option<Duration>) -> Result<Sockets<'_>, Fail> {
    let listeners = [
        Listener::Udp(any()?),
        Listener::Lf(any()?),
        Listener::Counted(any()?),
    ];
    let options = SourceOptions {
        connections: 2,
        per_peer: 2,
        idle,
        period: Duration::from_secs(3_600),
        until_eof: false,
        receive_buffer: None,
    };
    let allowed = AllowList::new(rt.alloc());
    let rates = Rates::new(rt.alloc(), RandomState::new(rt)?, rate)?;
    SocketSource::open(rt, rt.alloc(), &listeners, allowed, Some(rates), options).map_err(
        |_fault| Fail::from("no sockets"),
    )
}

// Octets so many times.
fn times(alloc: Global, octets: &[u8], count: usize) -> Result<Vec<u8>, Fail> {
    let mut all = Vec::new(alloc);
    for _time in 0..count {
        all.extend_from_slice(octets)?;
    }
    Ok(all)
}

// A connection to a listener, on which these octets were sent and which the source has opened.
fn connect(
    rt: &HostRuntime,
    source: &mut Sockets<'_>,
    listener: usize,
    octets: &[u8],
) -> Result<TcpStream, Fail> {
    let to = source.local_addr(listener).ok_or("no address")?;
    let mut client = TcpStream::connect(rt, to)?;
    client.write_all(octets)?;
    let mut buf = [0u8; 1];
    let step = source.next(&mut buf);
    expect(matches!(step, ServerStep::Opened { .. }), "not opened")?;
    Ok(client)
}

// Puts what comes next on a connection behind what came before, or tells that it is something else.
fn comes_next(source: &mut Sockets<'_>, came: &mut Vec<u8>) -> Result<bool, Fail> {
    let mut buf = [0u8; 4_096];
    match source.next(&mut buf) {
        ServerStep::Piece { len, .. } if len <= buf.len() => {
            came.extend_from_slice(&buf[..len])?;
            Ok(true)
        }
        _ => Ok(false),
    }
}

#[test]
fn datagrams_above_a_rate_are_dropped(rt: HostRuntime) -> Result<(), Fail> {
    let mut source = open(&rt, 1, None)?;
    let to = source.local_addr(0).ok_or("no address")?;
    let client = UdpSocket::bind(&rt, "127.0.0.1:0")?;
    for _record in 0..BURST + 2 {
        client.send_to(RECORD, to)?;
    }
    let peer = client.local_addr()?;
    let mut buf = [0u8; 64];
    for _record in 0..BURST {
        let given = ServerStep::Datagram {
            listener: 0,
            peer: Some(peer),
            len: RECORD.len(),
        };
        assert_eq!(rt; source.next(&mut buf), given);
    }
    for _record in 0..2 {
        assert_eq!(rt;
            source.next(&mut buf),
            ServerStep::OverRate { listener: 0, peer }
        );
    }
    Ok(())
}

// Of frames on a connection above a rate of one a second, a burst comes at once. The others come in time,
// nothing is lost, and meanwhile the connection is not idle.
fn expect_held_back(rt: &HostRuntime, listener: usize, frame: &[u8]) -> Result<(), Fail> {
    let alloc = rt.alloc();
    let mut source = open(rt, 1, Some(Duration::from_secs(1)))?;
    let sent = times(alloc, frame, BURST + 2)?;
    let begun = Instant::now(rt)?;
    let _client = connect(rt, &mut source, listener, sent.as_slice())?;
    let mut came = Vec::new(alloc);
    expect(comes_next(&mut source, &mut came)?, "nothing came")?;
    expect(
        came.len() == BURST.saturating_mul(frame.len()),
        "not a burst",
    )?;
    for _piece in 0..sent.len() {
        if came.len() < sent.len() {
            expect(comes_next(&mut source, &mut came)?, "it ended")?;
        }
    }
    expect(came.as_slice() == sent.as_slice(), "something is lost")?;
    let took = Instant::now(rt)?.duration_since(begun);
    expect(took >= Duration::from_millis(1_900), "it came too soon")?;
    let mut buf = [0u8; 1];
    let ended = ServerStep::Ended {
        conn: 0,
        end: ConnectionEnd::Idle,
    };
    expect(source.next(&mut buf) == ended, "it did not end")
}

#[test]
fn lines_above_a_rate_wait(rt: HostRuntime) -> Result<(), Fail> {
    expect_held_back(&rt, 1, b"<13>1 - h a - - - x 12 y\n")
}

#[test]
fn counted_records_above_a_rate_wait(rt: HostRuntime) -> Result<(), Fail> {
    expect_held_back(&rt, 2, b"24 <13>1 - h a - - - x 12 y")
}

#[test]
fn lines_and_datagrams_of_an_address_count_together(rt: HostRuntime) -> Result<(), Fail> {
    let alloc = rt.alloc();
    let mut source = open(&rt, 1, None)?;
    let sent = times(alloc, b"x\n", BURST)?;
    let _client = connect(&rt, &mut source, 1, sent.as_slice())?;
    let mut came = Vec::new(alloc);
    assert!(rt; comes_next(&mut source, &mut came)?);
    assert_eq!(rt; came.as_slice(), sent.as_slice());
    let client = UdpSocket::bind(&rt, "127.0.0.1:0")?;
    client.send_to(RECORD, source.local_addr(0).ok_or("no address")?)?;
    let peer = client.local_addr()?;
    let mut buf = [0u8; 64];
    assert_eq!(rt;
        source.next(&mut buf),
        ServerStep::OverRate { listener: 0, peer }
    );
    Ok(())
}
