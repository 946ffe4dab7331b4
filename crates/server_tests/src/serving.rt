//! Steps of a list are served, over what keeps records in memory.

use archive_pages::PagedArchive;
use archive_text::Store;
use octet_devices::{Fuse, ToWrite};
use peer_rules::AllowList;
use serve_engine::{
    KeepFault, Keeping, Nobody, Pause, ServeCounts, ServeEnd, ServeOptions, Server, Taken,
};
use socket_source::{ConnectionEnd, MemorySource, ServerStep, SourceFault};
use std::alloc::Global;
use std::net::SocketAddr;
use std::process::Abort;
use std::test::Fail;
use syslog_collect::Collector;
use syslog_frame::Framing;

const A: &[u8] = b"<13>1 - h a - - - x";

const B: &[u8] = b"<14>1 2024-02-29T23:30:00.000000Z h a - - - y";

// Counts what it is handed. Some commits have no room, on a disk or in memory, and one fails.
#[derive(Drop)]
struct CountKeeper {
    held: u64,
    committed: u64,
    commits: u64,
    full_from: u64,
    full_until: u64,
    want: KeepFault,
    fails_at: u64,
    checkpoints: u64,
}

impl Keeping<PagedArchive> for CountKeeper {
    ghost use Rattle.std.specs.Prelude.{false};

    ghost stands = { λ _ _. ⊥ };

    ghost short = { λ _. false };

    ghost syncs = { λ _. 0 };

    ghost most_syncs = { 0 };

    fn is_short(&self, _fresh: &PagedArchive) -> bool {
        false
    }

    fn take(&mut self, alloc: Global, fresh: &mut PagedArchive) -> Result<Taken, KeepFault> {
        let new = fresh.len() as u64;
        self.held = self.held.saturating_add(new);
        *fresh = PagedArchive::new(alloc);
        Ok(Taken { new, held: 0 })
    }

    fn commit(&mut self, _alloc: Global) -> Result<(), KeepFault> {
        self.commits = self.commits.saturating_add(1);
        if self.commits == self.fails_at {
            return Err(KeepFault::Failed);
        }
        if self.full_from <= self.commits && self.commits < self.full_until {
            return Err(self.want);
        }
        self.committed = self.held;
        Ok(())
    }

    fn reopen(&mut self, _alloc: Global) -> Result<(), KeepFault> {
        Ok(())
    }

    fn checkpoint(&mut self, _alloc: Global) -> Result<(), KeepFault> {
        self.checkpoints = self.checkpoints.saturating_add(1);
        Ok(())
    }

    fn journal_len(&self) -> u64 {
        self.committed
    }
}

#[derive(Drop)]
struct CountPause(u64);

impl Pause for CountPause {
    fn pause(&mut self) {
        self.0 = self.0.saturating_add(1);
    }

    fn passed(&mut self) -> u32 {
        100
    }
}

fn keeper() -> CountKeeper {
    CountKeeper {
        held: 0,
        committed: 0,
        commits: 0,
        full_from: 0,
        full_until: 0,
        want: KeepFault::Full,
        fails_at: 0,
        checkpoints: 0,
    }
}

// What comes to a server. The address of a peer is a text.
#[derive(Clone, Copy)]
enum Given<'a> {
    Opened(u32, Framing, &'a str),
    Piece(u32, &'a [u8]),
    Ended(u32, ConnectionEnd),
    Datagram(Option<&'a str>, &'a [u8]),
    TurnedAway(Framing, &'a str),
    Step(ServerStep),
}

const TICK: Given<'static> = Given::Step(ServerStep::Tick);

fn address(text: &str) -> Result<SocketAddr, Fail> {
    Ok(text.parse::<SocketAddr>()?)
}

fn datagram_from(peer: Option<&str>) -> Result<ServerStep, Fail> {
    let peer = match peer {
        Some(text) => Some(address(text)?),
        None => None,
    };
    Ok(ServerStep::Datagram {
        listener: 0,
        peer,
        len: 0,
    })
}

// The step of what comes, and its octets.
fn step_of<'a>(given: Given<'a>) -> Result<(ServerStep, &'a [u8]), Fail> {
    let nothing = b"".as_slice();
    Ok(match given {
        Given::Opened(conn, framing, peer) => {
            let peer = address(peer)?;
            let step = ServerStep::Opened {
                conn,
                listener: 1,
                framing,
                peer,
            };
            (step, nothing)
        }
        Given::Piece(conn, octets) => (ServerStep::Piece { conn, len: 0 }, octets),
        Given::Ended(conn, end) => (ServerStep::Ended { conn, end }, nothing),
        Given::Datagram(peer, octets) => (datagram_from(peer)?, octets),
        Given::TurnedAway(framing, peer) => {
            let peer = address(peer)?;
            let step = ServerStep::TurnedAway {
                listener: 1,
                framing,
                peer,
            };
            (step, nothing)
        }
        Given::Step(step) => (step, nothing),
    })
}

// A source in memory that gives these.
fn source_of(alloc: Global, given: &[Given<'_>]) -> Result<MemorySource, Fail> {
    let mut steps = Vec::new(alloc);
    for one in given {
        let (step, octets) = step_of(*one)?;
        steps.push((step, octets.to_vec(alloc)?))?;
    }
    Ok(MemorySource::new(alloc, 4, 3, AllowList::new(alloc), steps)?)
}

// What serving these steps comes to.
#[derive(Drop)]
struct Service {
    end: ServeEnd,
    counts: ServeCounts,
    committed: u64,
    checkpoints: u64,
    pauses: u64,
    notes: Vec<u8>,
    refused: Vec<u8>,
}

type TestServer = Server<PagedArchive, CountKeeper, Fuse<ToWrite<Vec<u8>>>, ToWrite<Vec<u8>>>;

// A server whose notes go to a device that takes so many octets.
fn server_of(alloc: Global, keeper: CountKeeper, room: u64) -> Result<TestServer, Fail> {
    let Ok(collector) = Collector::new(alloc, PagedArchive::new(alloc), None) else {
        return Err(Fail::from("no collector"));
    };
    let notes = Fuse::new(ToWrite::new(Vec::new(alloc)), room, u64::MAX);
    let refused = ToWrite::new(Vec::new(alloc));
    Ok(Server::new(alloc, collector, keeper, notes, refused)?)
}

fn served_with(
    alloc: Global,
    keeper: CountKeeper,
    given: &[Given<'_>],
    room: u64,
    count_millis: u64,
) -> Result<Service, Fail> {
    let mut source = source_of(alloc, given)?;
    let mut server = server_of(alloc, keeper, room)?;
    let mut pause = CountPause(0);
    let options = ServeOptions {
        checkpoint_len: 1,
        count_millis,
        counts_not_allowed: false,
        counts_over_rate: false,
    };
    let mut nobody = Nobody;
    let end = server.serve(alloc, &mut source, &mut pause, &mut nobody, &options);
    let Nobody = nobody;
    let counts = server.counts();
    let (keeper, notes, refused) = server.into_parts();
    Ok(Service {
        end,
        counts,
        committed: keeper.committed,
        checkpoints: keeper.checkpoints,
        pauses: pause.0,
        notes: notes.into_inner().into_inner(),
        refused: refused.into_inner(),
    })
}

fn served(alloc: Global, keeper: CountKeeper, given: &[Given<'_>]) -> Result<Service, Fail> {
    served_with(alloc, keeper, given, u64::MAX, 200)
}

#[test]
fn steps_are_served_and_told(rt: HostRuntime) -> Result<(), Fail> {
    let done = served(
        rt.alloc(),
        keeper(),
        &[
            Given::Datagram(Some("192.0.2.1:514"), A),
            Given::Datagram(Some("192.0.2.1:514"), b"<13>1 x"),
            Given::Datagram(None, b"<13>x"),
            Given::Opened(0, Framing::Counted, "[2001:db8::1]:4711"),
            Given::Opened(1, Framing::Lf, "192.0.2.2:99"),
            Given::Piece(0, b"19 <13>1 - h a"),
            Given::Piece(1, b"<13>1 - h a - - - z\n<1"),
            Given::Piece(0, b" - - - x1x"),
            Given::Piece(0, b"lost"),
            TICK,
            Given::Ended(1, ConnectionEnd::Reset),
            Given::Opened(0, Framing::Lf, "192.0.2.3:7"),
            Given::Piece(0, B),
            Given::Piece(0, b"\n"),
            Given::Ended(0, ConnectionEnd::Idle),
            Given::TurnedAway(Framing::Lf, "192.0.2.4:8"),
            TICK,
            Given::Step(ServerStep::InputEnded),
        ],
    )?;
    assert_eq!(rt; done.end, ServeEnd::Finished);
    assert_eq!(rt; done.committed, 3);
    assert_eq!(rt; done.checkpoints, 2);
    let notes = b"udp 192.0.2.1:514 2 syntax timestamp 6\n\
        unix - 3 syntax version 4\n\
        counted [2001:db8::1]:4711 bad-count 23\n\
        lf 192.0.2.2:99 unterminated 20\n\
        192.0.2.2:99 reset\n\
        192.0.2.3:7 idle\n\
        192.0.2.4:8 closed: too many connections\n\
        received 4 new 3 held 1 refused 2 too-long 0 connections 3 batches 2 octets 123 quiet 0\n";
    assert_eq!(rt; done.notes.as_slice(), notes.as_slice());
    let refused = b"46 udp 192.0.2.1:514 2 syntax timestamp 6\n<13>1 x\
        31 unix - 3 syntax version 4\n<13>x";
    assert_eq!(rt; done.refused.as_slice(), refused.as_slice());
    Ok(())
}

#[test]
fn refused_frames_of_streams_are_kept(rt: HostRuntime) -> Result<(), Fail> {
    let done = served(
        rt.alloc(),
        keeper(),
        &[
            Given::Opened(0, Framing::Counted, "192.0.2.1:4711"),
            Given::Opened(1, Framing::Lf, "192.0.2.2:99"),
            Given::Piece(0, b"6 <13>1"),
            Given::Piece(1, b"<13>1 - h a - - - z\nx"),
            Given::Piece(0, b" 4 <1\nx19 <13>1 - h a - - - x3 <9"),
            Given::Piece(1, b"y"),
            Given::Piece(0, b">"),
            Given::Piece(1, b"z\r\n\n"),
            Given::Ended(0, ConnectionEnd::Closed),
            Given::Ended(1, ConnectionEnd::Closed),
        ],
    )?;
    assert_eq!(rt; done.end, ServeEnd::Finished);
    assert_eq!(rt; done.committed, 2);
    let refused = b"50 counted 192.0.2.1:4711 2 syntax timestamp 6\n<13>1 \
        47 counted 192.0.2.1:4711 3 syntax priority 2\n<1\nx\
        45 counted 192.0.2.1:4711 5 syntax version 3\n<9>\
        40 lf 192.0.2.2:99 6 syntax priority 0\nxyz\r\
        36 lf 192.0.2.2:99 7 syntax priority 0\n";
    assert_eq!(rt; done.refused.as_slice(), refused.as_slice());
    Ok(())
}

// Sees that reading stops as long as a commit wants this, and goes on then.
fn see_a_wait(rt: &(impl Abort + AllocGlobal), want: KeepFault, notes: &[u8]) -> Result<(), Fail> {
    let steps = [
        Given::Datagram(None, A),
        TICK,
        Given::Datagram(None, B),
        TICK,
    ];
    let mut keeper = keeper();
    keeper.full_from = 1;
    keeper.full_until = 4;
    keeper.want = want;
    let done = served(rt.alloc(), keeper, &steps)?;
    assert_eq!(rt; done.end, ServeEnd::Finished);
    assert_eq!(rt; done.committed, 2);
    assert_eq!(rt; done.pauses, 3);
    assert_eq!(rt; done.counts.batches, 2);
    assert_eq!(rt; done.notes.as_slice(), notes);
    Ok(())
}

#[test]
fn a_full_disk_stops_reading(rt: HostRuntime) -> Result<(), Fail> {
    let notes = b"store full\n\
        received 2 new 2 held 0 refused 0 too-long 0 connections 0 batches 2 octets 64 quiet 0\n\
        store has room\n";
    see_a_wait(&rt, KeepFault::Full, notes)
}

#[test]
fn want_of_memory_at_a_commit_stops_reading(rt: HostRuntime) -> Result<(), Fail> {
    let notes = b"store waits: want of memory\n\
        received 2 new 2 held 0 refused 0 too-long 0 connections 0 batches 2 octets 64 quiet 0\n\
        store has room\n";
    see_a_wait(&rt, KeepFault::Memory, notes)
}

#[test]
fn a_disk_that_fails_ends_the_run(rt: HostRuntime) -> Result<(), Fail> {
    let steps = [Given::Datagram(None, A), TICK, Given::Datagram(None, B)];
    let mut keeper = keeper();
    keeper.fails_at = 1;
    let done = served(rt.alloc(), keeper, &steps)?;
    assert_eq!(rt; done.end, ServeEnd::Disk);
    assert_eq!(rt; done.end.status(false), 2);
    assert_eq!(rt; done.committed, 0);
    assert_eq!(rt; done.counts.received, 1);
    assert_eq!(rt; done.notes.as_slice(), b"store fault\n".as_slice());
    Ok(())
}

#[test]
fn a_source_that_fails_is_committed(rt: HostRuntime) -> Result<(), Fail> {
    let failed = ServerStep::Failed(SourceFault::Clock);
    let steps = [Given::Datagram(None, A), Given::Step(failed)];
    let done = served(rt.alloc(), keeper(), &steps)?;
    assert_eq!(rt; done.end, ServeEnd::Source(SourceFault::Clock));
    assert_eq!(rt; done.committed, 1);
    assert_eq!(rt; done.notes.as_slice(), b"source fault\n".as_slice());
    Ok(())
}

#[test]
fn lines_that_cannot_be_written_are_dropped(rt: HostRuntime) -> Result<(), Fail> {
    let steps = [
        Given::Datagram(None, b"no record"),
        Given::Datagram(None, A),
    ];
    let done = served_with(rt.alloc(), keeper(), &steps, 0, 0)?;
    assert_eq!(rt; done.end, ServeEnd::Finished);
    assert_eq!(rt; done.counts.dropped, 1);
    assert_eq!(rt; done.counts.new, 1);
    Ok(())
}
