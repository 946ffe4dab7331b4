//! Who may send: steps of a list, of real sockets over the loopback, and what a server makes of them.

use archive_pages::PagedArchive;
use archive_text::Store;
use octet_devices::ToWrite;
use peer_rules::{AllowList, Network};
use serve_engine::{KeepFault, Keeping, Nobody, Pause, ServeCounts, ServeOptions, Server, Taken};
use socket_source::{
    Listener, MemorySource, ServerSource, ServerStep, SocketSource, SourceOptions,
};
use std::alloc::Global;
use std::io::Read;
use std::net::{SocketAddr, TcpStream, UdpSocket};
use std::process::Abort;
use std::test::Fail;
use std::time::Duration;
use syslog_collect::Collector;
use syslog_frame::Framing;

const RECORD: &[u8] = b"<13>1 - h a - - - x";

fn address(text: &str) -> Result<SocketAddr, Fail> {
    Ok(text.parse::<SocketAddr>()?)
}

// A list with one network.
fn only(alloc: Global, network: &str) -> Result<AllowList, Fail> {
    let mut list = AllowList::new(alloc);
    list.add(network.parse::<Network>()?)?;
    Ok(list)
}

fn next<S: ServerSource>(source: &mut S) -> ServerStep {
    let mut buf = [0u8; 64];
    source.next(&mut buf)
}

fn datagram(peer: Option<SocketAddr>) -> ServerStep {
    ServerStep::Datagram {
        listener: 0,
        peer,
        len: RECORD.len(),
    }
}

fn not_allowed(listener: usize, peer: SocketAddr) -> ServerStep {
    ServerStep::NotAllowed { listener, peer }
}

// A connection that comes, or is turned away.
fn connections(peer: SocketAddr) -> [ServerStep; 2] {
    let listener = 0;
    let framing = Framing::Lf;
    [
        ServerStep::TurnedAway {
            listener,
            framing,
            peer,
        },
        ServerStep::Opened {
            conn: 0,
            listener,
            framing,
            peer,
        },
    ]
}

// A source in memory of these steps, to which addresses of a network may send.
fn listed(alloc: Global, network: &str, steps: &[ServerStep]) -> Result<MemorySource, Fail> {
    let mut items = Vec::new(alloc);
    for step in steps {
        items.push((*step, RECORD.to_vec(alloc)?))?;
    }
    let allowed = only(alloc, network)?;
    Ok(MemorySource::new(alloc, 2, 1, allowed, items)?)
}

fn over_rate(peer: SocketAddr) -> ServerStep {
    ServerStep::OverRate { listener: 0, peer }
}

#[test]
fn a_list_gives_steps_of_peers_that_may_send(rt: HostRuntime) -> Result<(), Fail> {
    let good = address("[::ffff:192.0.2.1]:514")?;
    let other = address("198.51.100.1:514")?;
    let [away, opened] = connections(good);
    let [other_away, other_opened] = connections(other);
    let steps = [
        other_opened,
        datagram(Some(other)),
        not_allowed(0, other),
        other_away,
        not_allowed(0, good),
        over_rate(other),
        over_rate(good),
        datagram(None),
        opened,
        datagram(Some(good)),
        away,
    ];
    let mut source = listed(rt.alloc(), "192.0.2.0/24", &steps)?;
    for step in [
        not_allowed(0, other),
        over_rate(good),
        datagram(None),
        opened,
        datagram(Some(good)),
        away,
        ServerStep::Finished,
    ] {
        assert_eq!(rt; next(&mut source), step);
    }
    Ok(())
}

// A source of datagrams and connections to the loopback, to which addresses of a network may send.
fn open<'a>(rt: &'a HostRuntime, network: &str) -> Result<SocketSource<'a, HostRuntime>, Fail> {
    let any = address("127.0.0.1:0")?;
    let listeners = [Listener::Udp(any), Listener::Lf(any)];
    let options = SourceOptions {
        connections: 1,
        per_peer: 1,
        idle: None,
        period: Duration::from_secs(3_600),
        until_eof: false,
        receive_buffer: None,
    };
    let allowed = only(rt.alloc(), network)?;
    SocketSource::open(rt, rt.alloc(), &listeners, allowed, None, options).map_err(
        |_fault| Fail::from("no sockets"),
    )
}

// Sends a datagram, and tells from where.
fn send(rt: &HostRuntime, to: SocketAddr) -> Result<SocketAddr, Fail> {
    let client = UdpSocket::bind(rt, "127.0.0.1:0")?;
    client.send_to(RECORD, to)?;
    Ok(client.local_addr()?)
}

// Whether the server has closed a client's connection, which it never writes to.
fn is_closed(mut client: &TcpStream) -> Result<bool, Fail> {
    client.set_read_timeout(Some(Duration::from_secs(5)))?;
    let mut buf = [0u8; 1];
    Ok(client.read(&mut buf)? == 0)
}

#[test]
fn sockets_take_what_peers_send_that_may(rt: HostRuntime) -> Result<(), Fail> {
    for (network, may_send) in [("127.0.0.1", true), ("127.0.0.2/31", false)] {
        let mut source = open(&rt, network)?;
        let to = source.local_addr(0).ok_or("no address")?;
        let peer = send(&rt, to)?;
        let told = next(&mut source);
        let to = source.local_addr(1).ok_or("no address")?;
        let client = TcpStream::connect(&rt, to)?;
        let connection = next(&mut source);
        let caller = client.local_addr()?;
        if may_send {
            assert_eq!(rt; told, datagram(Some(peer)));
            assert!(rt; matches!(connection, ServerStep::Opened { .. }));
        } else {
            assert_eq!(rt; told, not_allowed(0, peer));
            assert_eq!(rt; connection, not_allowed(1, caller));
            assert!(rt; is_closed(&client)?);
        }
    }
    Ok(())
}

// Keeps nothing.
#[derive(Drop)]
struct NoKeeper;

impl Keeping<PagedArchive> for NoKeeper {
    ghost use Rattle.std.specs.Prelude.{false};

    ghost stands = { λ _ _. ⊥ };

    ghost short = { λ _. false };

    ghost syncs = { λ _. 0 };

    ghost most_syncs = { 0 };

    fn is_short(&self, _fresh: &PagedArchive) -> bool {
        false
    }

    fn take(&mut self, alloc: Global, fresh: &mut PagedArchive) -> Result<Taken, KeepFault> {
        let new = fresh.len() as u64;
        *fresh = PagedArchive::new(alloc);
        Ok(Taken { new, held: 0 })
    }

    fn commit(&mut self, _alloc: Global) -> Result<(), KeepFault> {
        Ok(())
    }

    fn reopen(&mut self, _alloc: Global) -> Result<(), KeepFault> {
        Ok(())
    }

    fn checkpoint(&mut self, _alloc: Global) -> Result<(), KeepFault> {
        Ok(())
    }

    fn journal_len(&self) -> u64 {
        0
    }
}

#[derive(Drop)]
struct NoPause;

impl Pause for NoPause {
    fn pause(&mut self) {}

    fn passed(&mut self) -> u32 {
        1
    }
}

// What a server tells and counts of these steps.
fn served(alloc: Global, steps: &[ServerStep]) -> Result<(Vec<u8>, ServeCounts), Fail> {
    let mut source = listed(alloc, "192.0.2.0/24", steps)?;
    let Ok(collector) = Collector::new(alloc, PagedArchive::new(alloc), None) else {
        return Err(Fail::from("no collector"));
    };
    let notes = ToWrite::new(Vec::new(alloc));
    let refused = ToWrite::new(Vec::new(alloc));
    let mut server = Server::new(alloc, collector, NoKeeper, notes, refused)?;
    let options = ServeOptions {
        checkpoint_len: 1,
        count_millis: 1,
        counts_not_allowed: true,
        counts_over_rate: true,
    };
    let mut nobody = Nobody;
    let _end = server.serve(alloc, &mut source, &mut NoPause, &mut nobody, &options);
    let Nobody = nobody;
    let counts = server.counts();
    let (_keeper, notes, _refused) = server.into_parts();
    Ok((notes.into_inner(), counts))
}

#[test]
fn peers_that_may_not_send_or_send_too_much_are_told_and_counted(
    rt: HostRuntime,
) -> Result<(), Fail> {
    let steps = [
        datagram(Some(address("192.0.2.1:514")?)),
        not_allowed(0, address("198.51.100.1:7")?),
        not_allowed(0, address("[2001:db8::1]:9")?),
        over_rate(address("192.0.2.3:11")?),
        ServerStep::Tick,
    ];
    let (notes, counts) = served(rt.alloc(), &steps)?;
    let told = b"198.51.100.1:7 not allowed\n\
        [2001:db8::1]:9 not allowed\n\
        192.0.2.3:11 over-rate\n\
        received 1 new 1 held 0 refused 0 too-long 0 connections 0 batches 1 octets 19 quiet 0 \
        not-allowed 2 over-rate 1\n";
    assert_eq!(rt; notes.as_slice(), told.as_slice());
    assert_eq!(rt; counts.not_allowed, 2);
    assert_eq!(rt; counts.over_rate, 1);
    assert!(rt; !counts.has_refused());
    Ok(())
}
