//! A server over a store.
ghost use Rattle.std.specs.Prelude.{◌≡◌, [], List, IfOk, max, min};
ghost use Rattle.archive_text.specs.Entries.{Entry};
ghost use Rattle.syslog_collect.specs.Collectors.{NoneWaits, limit_of, reading_of};
ghost use Rattle.syslog_collect.specs.History.{AcceptedEvent};
ghost use Rattle.syslog_collect.specs.declared.limits.TheConstants.{CONNECTIONS_LIMIT, CONNECTIONS_MAX};
ghost use Rattle.durable_store.specs.declared.checkpoint.TheConstants.{CHECKPOINT_SYNCS};
ghost use Rattle.serve_engine.specs.Intakes.{StandsBy};
ghost use Rattle.serve_engine.specs.Keepings.{Kept};
ghost use Rattle.serve_engine.specs.Servers.{LeadsTo, SyncsTo, counts_of, intake_of, is_full, place_of};
ghost use Rattle.serve_engine.specs.Watching.{WatchedRun};
ghost use Rattle.store_keeper.specs.Keepers.{KeepsOn, disk_of};
ghost use Rattle.store_keeper.specs.Keeping.{kept_whole};
ghost use Rattle.store_keeper.specs.Runs.{RunLeaves};
ghost use Rattle.store_keeper.specs.Spares.{is_short, spared_entries};

use crate::keeper::DiskKeeper;
use crate::spared::SparedSet;
use disk::Disk;
use octet_devices::Output;
use serve_engine::{Pause, ServeEnd, ServeOptions, Server, Watch};
use socket_source::ServerSource;
use std::alloc::{AllocError, Global};
use syslog_collect::Collector;
use syslog_legacy::FrameReading;

/// A server over a store, with room for so many connections, that reads frames so. It begins with what
/// the store holds. The number of connections is from `CONNECTIONS_MAX` to `CONNECTIONS_LIMIT`; one
/// outside is taken for the nearest of these. The room of each connection grows with its frame.
pub fn server_on<D: Disk + Drop, N: Output + Drop, R: Output + Drop>(
    alloc: Global,
    keeper: DiskKeeper<D>,
    reading: FrameReading,
    connections: usize,
    notes: N,
    refused: R,
) -> Result<Server<SparedSet, DiskKeeper<D>, N, R>, AllocError>
    ensures begins { IfOk result (λ server. (es : List Entry) → KeepsOn keeper (kept_whole es)
        → StandsBy spared_entries KeepsOn (intake_of server) (kept_whole es) es []) }
    ensures settled { IfOk result (λ server. NoneWaits (intake_of server).collector) }
    ensures reading { IfOk result (λ server. reading_of (intake_of server).collector ≡ reading) }
    ensures limit { IfOk result (λ server. limit_of (intake_of server).collector
        ≡ max CONNECTIONS_MAX (min connections CONNECTIONS_LIMIT)) }
{
    let set = SparedSet::new(alloc);
    let Ok(collector) = Collector::with_growing_room(alloc, set, reading, connections) else {
        return Err(AllocError);
    };
    let server = Server::new(alloc, collector, keeper, notes, refused)?;
    Ok(server)
}

/// Serves a source into a store, as `Server::serve` does. Once it has finished, every crash leaves in
/// the store's folder what was there first and what was received. However it ends, every crash leaves
/// all that was committed in any of its turns, and nothing that was not received.
pub fn serve<
    D: Disk + Drop,
    N: Output + Drop,
    R: Output + Drop,
    Q: ServerSource,
    P: Pause,
    W: Watch,
>(
    alloc: Global,
    server: &mut Server<SparedSet, DiskKeeper<D>, N, R>,
    source: &mut Q,
    pause: &mut P,
    watch: &mut W,
    options: &ServeOptions,
) -> ServeEnd
    ensures leaves { (k : Kept) (first : List Entry) (before : List AcceptedEvent)
        → StandsBy spared_entries KeepsOn (intake_of server.old) k first before
        → NoneWaits (intake_of server.old).collector
        → RunLeaves result (place_of R.state is_short server.old (Q.state source.old))
        (place_of R.state is_short server.new (Q.state source.new)) k first before }
    ensures leads { LeadsTo spared_entries KeepsOn result (place_of R.state is_short server.old (Q.state source.old))
        (place_of R.state is_short server.new (Q.state source.new)) }
    // Each turn makes few syncs of the disk.
    ensures syncs { SyncsTo spared_entries KeepsOn (λ keeper. D.syncs (disk_of keeper)) CHECKPOINT_SYNCS result
        (place_of R.state is_short server.old (Q.state source.old))
        (place_of R.state is_short server.new (Q.state source.new)) }
    // Whoever watches has seen the server as it is.
    ensures watched { WatchedRun W.sees result watch.old watch.new (counts_of server.new) (is_full server.new) }
{
    server.serve(alloc, source, pause, watch, options)
}
