//! `serve`, over the sockets of the system and a store in a folder.

use crate::askers::Askers;
use crate::copy_disk::is_unfinished;
use crate::flushing::Flushing;
use crate::notes::Notes;
use crate::opening::{Fault, Keeper, StoreDisk, open_refused, open_store, tell_note_error};
use crate::outputs::{Outputs, SharedNotes, SharedRefused};
use crate::service_manager::ServiceManager;
use crate::telling::Teller;
use crate::time::ServerTime;
use crate::watched::{Watched, Watcher};
use driver::{NO_MEMORY, report};
use octet_devices::ToWrite;
use peer_rules::{AllowList, Rates};
use serve_engine::{ServeCounts, ServeEnd, ServeOptions, Server};
use server_metrics::{ListenerCounts, ListenerRow};
use server_words::{InheritedKind, ListenerWords, ServeWords};
use socket_source::{Inherited, Listener, OpenFault as SocketFault, SocketSource, SourceOptions};
use std::alloc::{AllocError, Global};
use std::cell::RefCell;
use std::collections::hash_map::RandomState;
use std::net::SocketAddr;
use std::time::Duration;
use store_engine::shown;
use store_keeper::{SparedSet, server_on};

// Room for datagrams that wait, in octets, as far as the system gives it.
const RECEIVE_BUFFER: u32 = 16 << 20;

// Milliseconds between two lines of counts.
const COUNT_MILLIS: u64 = 60_000;

type Stores<'n, 'f, 'r, 'd> = Server<
    SparedSet,
    Keeper<'d>,
    ToWrite<SharedNotes<'n>>,
    ToWrite<SharedRefused<'f, 'r>>,
>;

fn listener<'a>(words: &ListenerWords<'a>) -> Listener<'a> {
    match *words {
        ListenerWords::Udp(addr) => Listener::Udp(addr),
        ListenerWords::Counted(addr) => Listener::Counted(addr),
        ListenerWords::Lf(addr) => Listener::Lf(addr),
        ListenerWords::Unix(path) => Listener::Unix(path),
        ListenerWords::Inherited(kind) => Listener::Inherited(match kind {
            InheritedKind::Udp => Inherited::Udp,
            InheritedKind::Counted => Inherited::Counted,
            InheritedKind::Lf => Inherited::Lf,
        }),
    }
}

fn kind_of(words: &ListenerWords<'_>) -> &'static str {
    match words {
        ListenerWords::Udp(_) | ListenerWords::Inherited(InheritedKind::Udp) => "udp",
        ListenerWords::Counted(_) | ListenerWords::Inherited(InheritedKind::Counted) => "counted",
        ListenerWords::Lf(_) | ListenerWords::Inherited(InheritedKind::Lf) => "lf",
        ListenerWords::Unix(_) => "unix",
    }
}

// Where a listener listens, as its words say.
fn place_of(alloc: Global, words: &ListenerWords<'_>) -> Result<String, AllocError> {
    match words {
        ListenerWords::Udp(addr) | ListenerWords::Counted(addr) | ListenerWords::Lf(addr) => {
            format!(in alloc; "{addr}")
        }
        ListenerWords::Unix(path) => String::from_str(alloc, path),
        ListenerWords::Inherited(_) => String::from_str(alloc, "inherited"),
    }
}

fn listeners<'a>(alloc: Global, words: &ServeWords<'a>) -> Result<Vec<Listener<'a>>, AllocError> {
    let mut all = Vec::new(alloc);
    for one in &words.listeners {
        all.push(listener(one))?;
    }
    Ok(all)
}

// Who may send.
fn allowed(alloc: Global, words: &ServeWords<'_>) -> Result<AllowList, AllocError> {
    let mut list = AllowList::new(alloc);
    for network in &words.allowed {
        list.add(*network)?;
    }
    Ok(list)
}

fn source_options(words: &ServeWords<'_>) -> SourceOptions {
    SourceOptions {
        connections: words.options.connections as usize,
        per_peer: words.options.per_peer as usize,
        idle: match words.options.idle_seconds {
            Some(seconds) => Some(Duration::from_secs(u64::from(seconds))),
            None => None,
        },
        period: Duration::from_millis(u64::from(words.options.commit_millis)),
        until_eof: words.options.until_eof,
        receive_buffer: Some(RECEIVE_BUFFER),
    }
}

// How fast a peer may send, if that is bounded. The peers choose their addresses, so the keys of the table
// that has them are random.
fn rates(teller: Teller<'_, '_>, words: &ServeWords<'_>) -> Result<Option<Rates>, Fault> {
    let Some(rate) = words.options.rate else {
        return Ok(None);
    };
    let keys = match RandomState::new(teller.rt) {
        Ok(keys) => keys,
        Err(error) => return Err(teller.refuse("sockets", error)),
    };
    match Rates::new(teller.rt.alloc(), keys, rate) {
        Ok(rates) => Ok(Some(rates)),
        Err(_) => Err(teller.out_of_memory()),
    }
}

// Opens the sockets.
fn open_sockets<'a>(
    teller: Teller<'a, '_>,
    words: &ServeWords<'_>,
) -> Result<SocketSource<'a, HostRuntime>, Fault> {
    let rt = teller.rt;
    let Ok(listeners) = listeners(rt.alloc(), words) else {
        return Err(teller.out_of_memory());
    };
    let Ok(allowed) = allowed(rt.alloc(), words) else {
        return Err(teller.out_of_memory());
    };
    let rates = match rates(teller, words) {
        Ok(rates) => rates,
        Err(fault) => return Err(fault),
    };
    let options = source_options(words);
    match SocketSource::open(rt, rt.alloc(), &listeners, allowed, rates, options) {
        Ok(source) => Ok(source),
        Err(SocketFault::Listener { listener, cause }) => match words.listeners.get(listener) {
            Some(one) => match place_of(rt.alloc(), one) {
                Ok(place) => Err(teller.refuse(place.as_str(), cause)),
                Err(_) => Err(teller.out_of_memory()),
            },
            None => Err(teller.refuse("sockets", cause)),
        },
        Err(SocketFault::Memory) => Err(teller.out_of_memory()),
        Err(fault) => Err(teller.refuse("sockets", fault)),
    }
}

// Where a listener listens, with its kind.
fn name_of(
    alloc: Global,
    one: &ListenerWords<'_>,
    address: Option<SocketAddr>,
) -> Result<String, AllocError> {
    let kind = kind_of(one);
    let place = match address {
        Some(address) => format!(in alloc; "{address}")?,
        None => shown(alloc, place_of(alloc, one)?.as_str())?,
    };
    format!(in alloc; "{kind} {place}")
}

// The listeners by their names, of which nothing is counted yet.
fn listener_rows(
    alloc: Global,
    words: &ServeWords<'_>,
    source: &SocketSource<'_, HostRuntime>,
) -> Result<Vec<ListenerRow>, AllocError> {
    let mut rows = Vec::new(alloc);
    for (n, one) in words.listeners.iter().enumerate() {
        rows.push(ListenerRow {
            name: name_of(alloc, one, source.local_addr(n))?,
            counts: ListenerCounts {
                records: 0,
                octets: 0,
                not_records: 0,
                too_long: 0,
                broken: 0,
                not_allowed: 0,
                dropped: 0,
            },
        })?;
    }
    Ok(rows)
}

// Tells where each listener listens.
fn tell_listeners(teller: Teller<'_, '_>, rows: &[ListenerRow]) -> Result<(), AllocError> {
    for row in rows {
        let line = format!(in teller.rt.alloc(); "listening {}\n", row.name)?;
        teller.tell(line.as_str());
    }
    Ok(())
}

// Tells where metrics are shown.
fn tell_askers(teller: Teller<'_, '_>, askers: &Askers) -> Result<(), AllocError> {
    if let Some(address) = askers.local_addr() {
        let line = format!(in teller.rt.alloc(); "listening metrics {address}\n")?;
        teller.tell(line.as_str());
    }
    Ok(())
}

// Listens for those who ask for metrics, if that is asked for.
fn open_askers(teller: Teller<'_, '_>, words: &ServeWords<'_>) -> Result<Option<Askers>, Fault> {
    let Some(address) = words.options.metrics else {
        return Ok(None);
    };
    match Askers::open(teller.rt, address) {
        Ok(askers) => Ok(Some(askers)),
        Err(error) => match format!(in teller.rt.alloc(); "{address}") {
            Ok(place) => Err(teller.refuse(place.as_str(), error)),
            Err(_) => Err(teller.out_of_memory()),
        },
    }
}

// Tells where each listener listens, and what is watched of them, if anybody may ask.
fn begin_watching<'t>(
    teller: Teller<'t, '_>,
    words: &ServeWords<'_>,
    source: &SocketSource<'_, HostRuntime>,
    askers: Option<Askers>,
    counts: ServeCounts,
) -> Result<Option<RefCell<Watched<'t>>>, AllocError> {
    let rows = listener_rows(teller.rt.alloc(), words, source)?;
    tell_listeners(teller, rows.as_slice())?;
    match askers {
        Some(askers) => {
            tell_askers(teller, &askers)?;
            let watched = Watched::new(teller.rt, askers, rows, counts)?;
            Ok(Some(RefCell::new(watched)))
        }
        None => Ok(None),
    }
}

// Makes the server.
fn make_server<'n, 'f, 'r, 'd>(
    teller: Teller<'_, '_>,
    words: &ServeWords<'_>,
    keeper: Keeper<'d>,
    outputs: Outputs<'n, 'f, 'r>,
) -> Result<Stores<'n, 'f, 'r, 'd>, Fault> {
    let made = server_on(
        teller.rt.alloc(),
        keeper,
        words.options.reading,
        words.options.connections as usize,
        ToWrite::new(outputs.notes),
        ToWrite::new(outputs.refused),
    );
    match made {
        Ok(server) => Ok(server),
        Err(_) => Err(teller.out_of_memory()),
    }
}

fn serve_options(words: &ServeWords<'_>) -> ServeOptions {
    ServeOptions {
        checkpoint_len: u64::from(words.options.checkpoint_mib) << 20,
        count_millis: COUNT_MILLIS,
        counts_not_allowed: !words.allowed.is_empty(),
        counts_over_rate: words.options.rate.is_some(),
    }
}

// Tells why serving ended, where it did not finish.
fn tell_end(teller: Teller<'_, '_>, dir: &str, end: ServeEnd, disk: &StoreDisk<'_>) {
    match end {
        ServeEnd::Disk => {
            let _status = teller.refuse_disk(dir, disk.disk(), "the disk failed");
        }
        ServeEnd::Memory => {
            let _status = teller.out_of_memory();
        }
        ServeEnd::Finished | ServeEnd::Source(_) | ServeEnd::Endless => {}
    }
}

// What a server stands on, once all of it is open.
#[derive(Drop)]
struct Opened<'s, 'd> {
    source: SocketSource<'s, HostRuntime>,
    askers: Option<Askers>,
    keeper: Keeper<'d>,
}

// Tells how serving ended, and returns the exit status.
fn finish(
    teller: Teller<'_, '_>,
    dir: &str,
    server: Stores<'_, '_, '_, '_>,
    end: ServeEnd,
    outputs: Outputs<'_, '_, '_>,
) -> u8 {
    teller.notes.tell_stopping();
    let status = end.status(server.counts().has_refused());
    outputs.save_last();
    let (keeper, _notes, _refused) = server.into_parts();
    tell_note_error(teller, dir, keeper.disk().disk());
    tell_end(teller, dir, end, keeper.disk());
    status
}

// Collects until the source ends.
fn collect<'t>(
    teller: Teller<'t, '_>,
    words: &ServeWords<'_>,
    opened: Opened<'t, '_>,
    outputs: Outputs<'_, '_, '_>,
) -> Result<u8, Fault> {
    let Opened {
        source,
        askers,
        keeper,
    } = opened;
    let mut server = make_server(teller, words, keeper, outputs)?;
    let Ok(watched) = begin_watching(teller, words, &source, askers, server.counts()) else {
        return Err(teller.out_of_memory());
    };
    let mut watcher = Watcher {
        watched: watched.as_ref(),
    };
    let rt = teller.rt;
    let mut source = Flushing {
        rt,
        source,
        outputs,
        watcher,
    };
    let mut time = ServerTime::new(rt, outputs);
    let options = serve_options(words);
    teller.notes.tell_ready();
    let end = store_keeper::serve(
        rt.alloc(),
        &mut server,
        &mut source,
        &mut time,
        &mut watcher,
        &options,
    );
    Ok(finish(teller, words.dir, server, end, outputs))
}

// Opens what is asked for, and collects.
fn run<'t>(teller: Teller<'t, 't>, words: &ServeWords<'_>) -> Result<u8, Fault> {
    if is_unfinished(teller.rt, words.dir) {
        return Err(teller.refuse(
            words.dir,
            "a copy that was not finished: remove it, and copy again",
        ));
    }
    let opened = Opened {
        source: open_sockets(teller, words)?,
        askers: open_askers(teller, words)?,
        keeper: open_store(teller, words.dir)?,
    };
    let file = RefCell::new(open_refused(teller, words.dir)?);
    let notes = teller.notes;
    let refused = SharedRefused { file: &file };
    let outputs = Outputs { notes, refused };
    collect(teller, words, opened, outputs)
}

/// Collects from sockets into a store until it is stopped, or until standard input ends if that is
/// asked for. Returns the exit status.
pub fn serve(rt: &HostRuntime, words: &ServeWords<'_>) -> u8 {
    let Ok(notes) = Notes::new(rt) else {
        return report(
            &mut ToWrite::new(rt.stderr()),
            b"want of memory\n",
            NO_MEMORY,
        );
    };
    let notes = RefCell::new(notes);
    let manager = RefCell::new(ServiceManager::new(rt));
    let shared = SharedNotes {
        notes: &notes,
        manager: &manager,
    };
    let teller = Teller { rt, notes: shared };
    let ended = run(teller, words);
    shared.finish();
    match ended {
        Ok(status) | Err(status) => status,
    }
}
