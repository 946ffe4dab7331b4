//! Steps of a list, and of real sockets over the loopback, in one process.

use libc::{STDIN_FILENO, net as c};
use peer_rules::AllowList;
use socket_source::{
    ConnectionEnd, Listener, MemorySource, OpenFault, PIECE_MAX, STEPS_BETWEEN, ServerSource,
    ServerStep, SocketSource, SourceFault, SourceOptions,
};
use std::alloc::Global;
use std::io::{self, ErrorKind, Read, Write};
use std::net::{Shutdown, SocketAddr, TcpStream, UdpSocket};
use std::os::fd::AsRawFd;
use std::os::unix::net::UnixStream;
use std::process::Abort;
use std::test::Fail;
use std::time::{Duration, Instant};
use std::{env, fs, process};
use syslog_frame::Framing;

// a source over the sockets of the system
type Sockets<'a> = SocketSource<'a, HostRuntime>;

// Room for two connections. No tick comes while a test runs.
fn options(until_eof: bool) -> SourceOptions {
    SourceOptions {
        connections: 2,
        per_peer: 2,
        idle: None,
        period: Duration::from_secs(3_600),
        until_eof,
        receive_buffer: None,
    }
}

fn address(text: &str) -> Result<SocketAddr, Fail> {
    Ok(text.parse::<SocketAddr>()?)
}

// A port of the loopback that the system chooses.
fn any() -> Result<SocketAddr, Fail> {
    address("127.0.0.1:0")
}

fn open<'a>(
    rt: &'a HostRuntime,
    listeners: &[Listener<'_>],
    options: SourceOptions,
) -> Result<Sockets<'a>, OpenFault> {
    SocketSource::open(
        rt,
        rt.alloc(),
        listeners,
        AllowList::new(rt.alloc()),
        None,
        options,
    )
}

// The address of a listener.
fn address_of(source: &Sockets<'_>, listener: usize) -> Result<SocketAddr, Fail> {
    Ok(source.local_addr(listener).ok_or("no address")?)
}

// The octets that a step has put into the front of a slice.
fn front(step: ServerStep, buf: &[u8]) -> &[u8] {
    match step {
        ServerStep::Piece { len, .. } | ServerStep::Datagram { len, .. } if len <= buf.len() => {
            &buf[..len]
        }
        _ => b"".as_slice(),
    }
}

fn next<S: ServerSource>(source: &mut S, buf: &mut [u8]) -> ServerStep {
    source.next(buf)
}

// The source gives this step next, with these octets.
fn expect_next<S: ServerSource>(
    rt: &(impl Abort + AllocGlobal),
    source: &mut S,
    step: ServerStep,
    octets: &[u8],
) -> Result<(), Fail> {
    let mut buf = vec![in rt.alloc(); 0u8; PIECE_MAX]?;
    let given = next(source, &mut buf);
    assert_eq!(rt; given, step);
    assert_eq!(rt; front(given, &buf), octets);
    Ok(())
}

fn udp_client(rt: &HostRuntime) -> Result<UdpSocket, Fail> {
    Ok(UdpSocket::bind(rt, "127.0.0.1:0")?)
}

fn send(client: &UdpSocket, octets: &[u8], to: SocketAddr) -> Result<(), Fail> {
    client.send_to(octets, to)?;
    Ok(())
}

fn connect(rt: &HostRuntime, to: SocketAddr) -> Result<TcpStream, Fail> {
    Ok(TcpStream::connect(rt, to)?)
}

fn write(mut client: &TcpStream, octets: &[u8]) -> Result<(), Fail> {
    client.write_all(octets)?;
    Ok(())
}

// Whether the server has closed a client's connection, which it never writes to.
fn is_closed(mut client: &TcpStream) -> Result<bool, Fail> {
    client.set_read_timeout(Some(Duration::from_secs(5)))?;
    let mut buf = [0u8; 1];
    Ok(client.read(&mut buf)? == 0)
}

// Sends a datagram to the socket at a path.
fn send_to_path(rt: &impl Abort, path: &str, octets: &[u8]) -> Result<(), Fail> {
    let mut address = [0u8; c::_SS_SIZE];
    address[..2].copy_from_slice(&(c::AF_UNIX as u16).to_ne_bytes());
    let room = address.get_mut(2..2 + path.len()).ok_or("a long path")?;
    room.copy_from_slice(path.as_bytes());
    let len = path.len().min(107) as u32 + 3;
    let client = unsafe { c::socket(c::AF_UNIX, c::SOCK_DGRAM, 0) };
    assert_eq!(rt; unsafe { c::connect(client, &address, len) }, 0);
    assert_eq!(rt; libc::write(client, octets), octets.len() as isize);
    let _ = libc::close(client);
    Ok(())
}

// Sends a reset in place of an end.
fn reset(client: &TcpStream) {
    let no_address = [0u8; c::_SS_SIZE];
    let _ = unsafe { c::connect(client.as_raw_fd(), &no_address, 16) };
}

// The framing of a listener of `two_listeners`.
fn framing_of(listener: usize) -> Framing {
    if listener == 0 {
        Framing::Counted
    } else {
        Framing::Lf
    }
}

fn opened(conn: u32, listener: usize, client: &TcpStream) -> Result<ServerStep, Fail> {
    Ok(ServerStep::Opened {
        conn,
        listener,
        framing: framing_of(listener),
        peer: client.local_addr()?,
    })
}

fn turned_away(listener: usize, client: &TcpStream) -> Result<ServerStep, Fail> {
    Ok(ServerStep::TurnedAway {
        listener,
        framing: framing_of(listener),
        peer: client.local_addr()?,
    })
}

fn piece(conn: u32) -> ServerStep {
    ServerStep::Piece { conn, len: 4 }
}

fn ended(conn: u32, end: ConnectionEnd) -> ServerStep {
    ServerStep::Ended { conn, end }
}

fn datagram(listener: usize, client: &UdpSocket, len: usize) -> Result<ServerStep, Fail> {
    let peer = Some(client.local_addr()?);
    Ok(ServerStep::Datagram {
        listener,
        peer,
        len,
    })
}

// The source gives the opening of a client's connection next.
fn expect_opened(
    rt: &(impl Abort + AllocGlobal),
    source: &mut Sockets<'_>,
    conn: u32,
    listener: usize,
    client: &TcpStream,
) -> Result<(), Fail> {
    expect_next(rt, source, opened(conn, listener, client)?, b"")
}

// The source turns a client's connection away next.
fn expect_turned_away(
    rt: &(impl Abort + AllocGlobal),
    source: &mut Sockets<'_>,
    listener: usize,
    client: &TcpStream,
) -> Result<(), Fail> {
    expect_next(rt, source, turned_away(listener, client)?, b"")
}

// The source gives a client's datagram next.
fn expect_datagram(
    rt: &(impl Abort + AllocGlobal),
    source: &mut Sockets<'_>,
    listener: usize,
    client: &UdpSocket,
    octets: &[u8],
) -> Result<(), Fail> {
    let step = datagram(listener, client, octets.len())?;
    expect_next(rt, source, step, octets)
}

// A list of steps, each with its octets.
fn listed(alloc: Global, rows: &[(ServerStep, &[u8])]) -> Result<MemorySource, Fail> {
    let mut steps = Vec::new(alloc);
    for (step, octets) in rows {
        steps.push((*step, octets.to_vec(alloc)?))?;
    }
    Ok(MemorySource::new(alloc, 2, 1, AllowList::new(alloc), steps)?)
}

#[test]
fn a_list_gives_the_steps_that_may_come(rt: HostRuntime) -> Result<(), Fail> {
    let peer = address("192.0.2.1:514")?;
    let opened = ServerStep::Opened {
        conn: 1,
        listener: 0,
        framing: Framing::Lf,
        peer,
    };
    let piece = ServerStep::Piece { conn: 1, len: 2 };
    let datagram = ServerStep::Datagram {
        listener: 0,
        peer: Some(peer),
        len: 1,
    };
    let reset = ended(1, ConnectionEnd::Reset);
    let mut source = listed(
        rt.alloc(),
        &[
            (piece, b"no"),
            (opened, b""),
            (opened, b""),
            (piece, b"ab"),
            (datagram, b"d"),
            (reset, b""),
            (piece, b"no"),
            (opened, b""),
            (piece, b"no"),
            (ServerStep::Tick, b""),
        ],
    )?;
    for (step, octets) in [
        (opened, b"".as_slice()),
        (piece, b"ab"),
        (datagram, b"d"),
        (reset, b""),
        (opened, b""),
    ] {
        expect_next(&rt, &mut source, step, octets)?;
    }
    source.close(1);
    for step in [ServerStep::Tick, ServerStep::Finished] {
        expect_next(&rt, &mut source, step, b"")?;
    }
    let no_room = ServerStep::Failed(SourceFault::NoRoom);
    assert_eq!(rt; next(&mut source, &mut []), no_room);
    Ok(())
}

// A path in the system's temporary folder, where nothing is.
fn unused_path(rt: &HostRuntime) -> io::Result<String> {
    let id = process::id(rt.process());
    let temporary = env::temp_dir(rt)?;
    let folder = temporary.as_str();
    let path = format!(in rt.alloc(); "{folder}/socket_source.{id}")?;
    let _ = fs::remove_file(rt, path.as_str());
    Ok(path)
}

#[test]
fn datagrams_come_whole_and_in_order(rt: HostRuntime) -> Result<(), Fail> {
    let path = unused_path(&rt)?;
    let listeners = [Listener::Udp(any()?), Listener::Unix(path.as_str())];
    // The second opening finds the path of the first, which nobody has open any more.
    drop(open(&rt, &listeners, options(false))?);
    let mut source = open(&rt, &listeners, options(false))?;
    assert_eq!(rt; source.local_addr(1), None);
    let client = udp_client(&rt)?;
    let addr = address_of(&source, 0)?;
    for octets in [b"one".as_slice(), b"", b"three"] {
        send(&client, octets, addr)?;
        expect_datagram(&rt, &mut source, 0, &client, octets)?;
    }
    let waiting = [b"four".as_slice(), b"five"];
    for octets in waiting {
        send(&client, octets, addr)?;
    }
    for octets in waiting {
        expect_datagram(&rt, &mut source, 0, &client, octets)?;
    }
    send_to_path(&rt, path.as_str(), b"path")?;
    let step = ServerStep::Datagram {
        listener: 1,
        peer: None,
        len: 4,
    };
    expect_next(&rt, &mut source, step, b"path")?;
    fs::remove_file(&rt, path.as_str())?;
    Ok(())
}

// Clients of a counted listener, of which each has sent a piece.
fn clients_with_pieces(
    rt: &HostRuntime,
    source: &mut Sockets<'_>,
    count: u32,
) -> Result<Vec<TcpStream>, Fail> {
    let counted = address_of(source, 0)?;
    let mut buf = [0u8; 16];
    let mut clients = Vec::new(rt.alloc());
    for conn in 0..count {
        let client = connect(rt, counted)?;
        if next(source, &mut buf) != opened(conn, 0, &client)? {
            Err("another step")?;
        }
        clients.push(client)?;
    }
    for client in clients.iter() {
        write(client, b"one.")?;
    }
    Ok(clients)
}

// How many pieces of connections come before a datagram.
fn pieces_before_datagram(source: &mut Sockets<'_>) -> usize {
    let mut buf = [0u8; 16];
    let mut pieces = 0usize;
    for _step in 0..201 {
        match next(source, &mut buf) {
            ServerStep::Piece { .. } => pieces = pieces.saturating_add(1),
            ServerStep::Datagram { .. } => break,
            _ => {}
        }
    }
    pieces
}

#[test]
fn a_datagram_comes_between_the_steps_of_connections(rt: HostRuntime) -> Result<(), Fail> {
    let listeners = [Listener::Counted(any()?), Listener::Udp(any()?)];
    let mut options = options(false);
    options.connections = 200;
    options.per_peer = 200;
    let mut source = open(&rt, &listeners, options)?;
    let _clients = clients_with_pieces(&rt, &mut source, 200)?;
    send(&udp_client(&rt)?, b"d", address_of(&source, 1)?)?;
    let pieces = pieces_before_datagram(&mut source);
    assert!(rt;
        pieces <= STEPS_BETWEEN,
        "{pieces} steps of connections came before"
    );
    Ok(())
}

// A port that nobody uses.
fn free_port(rt: &HostRuntime) -> Result<u16, Fail> {
    Ok(udp_client(rt)?.local_addr()?.port())
}

#[test]
fn an_address_of_version_6_is_one_of_its_own(rt: HostRuntime) -> Result<(), Fail> {
    let Ok(client) = UdpSocket::bind(&rt, "[::1]:0") else {
        return Ok(());
    };
    let port = free_port(&rt)?;
    let listeners = [
        Listener::Udp(SocketAddr::from(([0u8; 4], port))),
        Listener::Udp(SocketAddr::from(([0u16; 8], port))),
    ];
    let mut source = open(&rt, &listeners, options(false))?;
    let to = SocketAddr::from(([0, 0, 0, 0, 0, 0, 0, 1], port));
    send(&client, b"six", to)?;
    expect_datagram(&rt, &mut source, 1, &client, b"six")
}

// A source over a counted listener and one of lines, and their addresses.
fn two_listeners(rt: &HostRuntime) -> Result<(Sockets<'_>, SocketAddr, SocketAddr), Fail> {
    let listeners = [Listener::Counted(any()?), Listener::Lf(any()?)];
    let source = open(rt, &listeners, options(false))?;
    let counted = address_of(&source, 0)?;
    let lf = address_of(&source, 1)?;
    Ok((source, counted, lf))
}

#[test]
fn a_number_is_given_again_after_its_end(rt: HostRuntime) -> Result<(), Fail> {
    let (mut source, counted, lf) = two_listeners(&rt)?;
    let one = connect(&rt, counted)?;
    expect_opened(&rt, &mut source, 0, 0, &one)?;
    let two = connect(&rt, lf)?;
    expect_opened(&rt, &mut source, 1, 1, &two)?;
    for (conn, client, octets) in [(1, &two, b"two."), (0, &one, b"one.")] {
        write(client, octets)?;
        expect_next(&rt, &mut source, piece(conn), octets)?;
    }
    // A third is one too many, and the others go on.
    let three = connect(&rt, lf)?;
    expect_turned_away(&rt, &mut source, 1, &three)?;
    assert!(rt; is_closed(&three)?);
    write(&two, b"more")?;
    two.shutdown(Shutdown::Write)?;
    expect_next(&rt, &mut source, piece(1), b"more")?;
    expect_next(&rt, &mut source, ended(1, ConnectionEnd::Closed), b"")?;
    let four = connect(&rt, counted)?;
    expect_opened(&rt, &mut source, 1, 0, &four)
}

#[test]
fn what_the_server_closes_comes_no_more(rt: HostRuntime) -> Result<(), Fail> {
    let (mut source, counted, lf) = two_listeners(&rt)?;
    let one = connect(&rt, counted)?;
    expect_opened(&rt, &mut source, 0, 0, &one)?;
    let two = connect(&rt, counted)?;
    expect_opened(&rt, &mut source, 1, 0, &two)?;
    write(&one, b"lost")?;
    for conn in [0, 7] {
        source.close(conn);
    }
    let three = connect(&rt, lf)?;
    expect_opened(&rt, &mut source, 0, 1, &three)
}

#[test]
fn a_reset_ends_its_connection_alone(rt: HostRuntime) -> Result<(), Fail> {
    let (mut source, counted, lf) = two_listeners(&rt)?;
    let one = connect(&rt, counted)?;
    expect_opened(&rt, &mut source, 0, 0, &one)?;
    let two = connect(&rt, counted)?;
    expect_opened(&rt, &mut source, 1, 0, &two)?;
    reset(&one);
    expect_next(&rt, &mut source, ended(0, ConnectionEnd::Reset), b"")?;
    write(&two, b"two.")?;
    expect_next(&rt, &mut source, piece(1), b"two.")?;
    let three = connect(&rt, lf)?;
    expect_opened(&rt, &mut source, 0, 1, &three)
}

// How many ticks come before the next step that is none, and that step.
fn next_but_ticks(source: &mut Sockets<'_>) -> (u32, ServerStep) {
    let mut buf = [0u8; 16];
    let mut ticks = 0u32;
    for _turn in 0..10_000 {
        match next(source, &mut buf) {
            ServerStep::Tick => ticks = ticks.saturating_add(1),
            step => return (ticks, step),
        }
    }
    (ticks, ServerStep::Tick)
}

#[test]
fn a_silent_connection_is_closed(rt: HostRuntime) -> Result<(), Fail> {
    let mut options = options(false);
    options.idle = Some(Duration::from_millis(60));
    options.period = Duration::from_millis(5);
    options.receive_buffer = Some(65_536);
    let mut source = open(&rt, &[Listener::Counted(any()?)], options)?;
    let start = Instant::now(&rt)?;
    let client = connect(&rt, address_of(&source, 0)?)?;
    let (_, first) = next_but_ticks(&mut source);
    assert_eq!(rt; first, opened(0, 0, &client)?);
    let (ticks, last) = next_but_ticks(&mut source);
    assert_eq!(rt; last, ended(0, ConnectionEnd::Idle));
    assert!(rt; ticks > 0);
    assert!(rt; start.elapsed(&rt)? >= Duration::from_millis(60));
    assert!(rt; is_closed(&client)?);
    Ok(())
}

#[test]
fn a_tick_follows_each_read_if_the_period_is_zero(rt: HostRuntime) -> Result<(), Fail> {
    let mut options = options(false);
    options.period = Duration::ZERO;
    let mut source = open(&rt, &[Listener::Udp(any()?)], options)?;
    let client = udp_client(&rt)?;
    for _datagram in 0..3 {
        send(&client, b"d", address_of(&source, 0)?)?;
    }
    let mut buf = [0u8; 16];
    for read in 0..3 {
        let (ticks, step) = next_but_ticks(&mut source);
        assert!(rt; read == 0 || ticks > 0);
        assert_eq!(rt; step, datagram(0, &client, 1)?);
    }
    assert_eq!(rt; next(&mut source, &mut buf), ServerStep::Tick);
    Ok(())
}

// Descriptors until the system has none left, or this many.
fn all_descriptors(alloc: Global, most: usize) -> Result<Vec<i32>, Fail> {
    let mut all = Vec::new(alloc);
    for _descriptor in 0..most {
        let descriptor = c::eventfd(0, c::EFD_CLOEXEC);
        if descriptor < 0 {
            return Ok(all);
        }
        all.push(descriptor)?;
    }
    Ok(all)
}

#[test]
fn a_listener_goes_on_behind_an_error(rt: HostRuntime) -> Result<(), Fail> {
    let (mut source, counted, lf) = two_listeners(&rt)?;
    let one = connect(&rt, lf)?;
    let expected = turned_away(1, &one)?;
    let held = all_descriptors(rt.alloc(), 100_000)?;
    expect_next(&rt, &mut source, expected, b"")?;
    for descriptor in &held {
        let _ = libc::close(*descriptor);
    }
    assert!(rt; is_closed(&one)?);
    let two = connect(&rt, lf)?;
    expect_opened(&rt, &mut source, 0, 1, &two)?;
    let three = connect(&rt, counted)?;
    expect_opened(&rt, &mut source, 1, 0, &three)
}

// The listener whose socket cannot be opened, and why.
fn refusal_of(
    rt: &HostRuntime,
    listeners: &[Listener<'_>],
) -> Result<Option<(usize, ErrorKind)>, Fail> {
    match open(rt, listeners, options(false)) {
        Err(OpenFault::Listener { listener, cause }) => Ok(Some((listener, cause.kind()))),
        Err(_) => Ok(None),
        Ok(_) => Err("it was opened")?,
    }
}

#[test]
fn a_socket_that_cannot_be_opened_is_told(rt: HostRuntime) -> Result<(), Fail> {
    let taken = udp_client(&rt)?;
    let listeners = [Listener::Lf(any()?), Listener::Udp(taken.local_addr()?)];
    let refusal = refusal_of(&rt, &listeners)?;
    assert_eq!(rt; refusal, Some((1, ErrorKind::AddrInUse)));
    refusal_of(&rt, &[Listener::Unix("/")])?;
    Ok(())
}

// Whether a source that watches standard input is refused for that.
fn refuses_input(rt: &HostRuntime) -> bool {
    matches!(open(rt, &[], options(true)), Err(OpenFault::Input(_)))
}

#[test]
fn the_end_of_standard_input_is_waited_for(rt: HostRuntime) -> Result<(), Fail> {
    let _ = libc::close(STDIN_FILENO);
    assert_eq!(rt; os::open_read(b"/dev/null"), STDIN_FILENO);
    assert!(rt; refuses_input(&rt));
    let _ = libc::close(STDIN_FILENO);
    let (input, other) = UnixStream::pair(&rt)?;
    assert_eq!(rt; input.as_raw_fd(), STDIN_FILENO);
    let mut source = open(&rt, &[Listener::Udp(any()?)], options(true))?;
    drop(other);
    expect_next(&rt, &mut source, ServerStep::InputEnded, b"")?;
    let client = udp_client(&rt)?;
    send(&client, b"late", address_of(&source, 0)?)?;
    expect_datagram(&rt, &mut source, 0, &client, b"late")?;
    for _call in 0..2 {
        expect_next(&rt, &mut source, ServerStep::Finished, b"")?;
    }
    Ok(())
}
