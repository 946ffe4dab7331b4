//! The sockets of the system as a source of steps.
ghost use Rattle.std.specs.Prelude.{◌≡◌, ◌≤◌, length, max, min, IfErr, IfOk, None};
ghost use Rattle.peer_rules.specs.AllowLists.{networks_of};
ghost use Rattle.socket_source.specs.Opens.{IsFaultOf};
ghost use Rattle.socket_source.specs.Steps.{IsFresh};

use crate::counts::StepCounts;
use crate::limits::CONNECTIONS_MAX;
use crate::listener::Listener;
use crate::open_fault::OpenFault;
use crate::options::SourceOptions;
use crate::sockets::Sockets;
use crate::source::ServerSource;
use crate::step::ServerStep;
use peer_rules::{AllowList, Rates};
use std::alloc::Global;
use std::net::{Net, SocketAddr};
use std::rt::{Clock, Files};

/// The sockets of the system as one source of steps, in one loop without threads: in each turn one
/// ready socket is read once, so that none waits for another.
///
/// A connection's error ends that connection alone. A listener stays, whatever its calls answer: if
/// the system has no descriptor left, it is tried again when a connection ends, and with each tick.
/// While nothing comes, the process sleeps.
#[derive(Drop)]
pub struct SocketSource<'a, R> {
    sockets: Sockets<'a, R>,
    counts: StepCounts,
}

impl<'a, R: Net + Files + Clock> SocketSource<'a, R> {
    /// Opens the sockets of all listeners, in their order. Inherited descriptors are checked before
    /// anything is opened; so call this before files are opened. Peers that have addresses may send
    /// only if the list allows it, over TCP and UDP; a socket at a path is open to all. It fails as the
    /// variants of [`OpenFault`] say.
    pub fn open(
        rt: &'a R,
        alloc: Global,
        listeners: &[Listener<'_>],
        allowed: AllowList,
        rates: Option<Rates>,
        options: SourceOptions,
    ) -> Result<SocketSource<'a, R>, OpenFault>
        ensures fresh { IfOk result (λ source. IsFresh (⟦<SocketSource<'a, R> as ServerSource>⟧.state source)
            (max 1 (min options.connections CONNECTIONS_MAX)) (length listeners.now)
            (networks_of allowed) None) }
        // A listener's fault is that of one of these, and nobody asks about standard input in vain.
        ensures told { IfErr result (IsFaultOf (length listeners.now) options.until_eof) }
    {
        match Sockets::open(rt, alloc, listeners, allowed, rates, options) {
            Ok(sockets) => Ok(SocketSource {
                sockets,
                counts: StepCounts::new(),
            }),
            Err(fault) => Err(fault),
        }
    }

    /// The address of a listener, by its place in the list. A listener at a path has none.
    pub fn local_addr(&self, listener: usize) -> Option<SocketAddr>
        ensures { (⟦<SocketSource<'a, R> as ServerSource>⟧.state self.now).standing.listeners ≤ listener
            → result ≡ None }
    {
        self.sockets.held.listeners.get(listener)?.local_addr()
    }
}

impl<'a, R: Clock> ServerSource for SocketSource<'a, R> {
    ghost use Rattle.std.specs.Prelude.{None, length};
    ghost use Rattle.socket_source.specs.Lines.{line, ready_in};
    ghost use Rattle.socket_source.specs.Steps.{Closes, GaveStep, counts_of};
    ghost use Rattle.socket_source.specs.Runs.{HasTurns};
    ghost use Rattle.socket_source.specs.Turns.{IsBounded};
    ghost use Rattle.socket_source.specs.Waiting.{Keeps};
    ghost use Rattle.socket_source.specs.Standings.{framings, standing};

    ghost state = { λ s. record {
      standing = standing s.sockets;
      counts = counts_of s.counts;
      coming = None;
    } };

    fn next(&mut self, buf: &mut [u8]) -> ServerStep
        ensures gave { GaveStep (⟦<SocketSource<'a, R> as ServerSource>⟧.state self.old)
            (⟦<SocketSource<'a, R> as ServerSource>⟧.state self.new) result buf.new }
        // A turn gives a part of what a connection has: a smaller one, the more sockets are ready.
        ensures bounded { IsBounded (ready_in (line self.new.sockets)) (framings self.new.sockets) buf.new result }
        // Sockets have their turns in order, each a bounded number of steps, and octets come of a turn of
        // their own socket.
        ensures turns { HasTurns (standing self.old.sockets).listeners (Some result)
            (line self.old.sockets) (line self.new.sockets) }
    {
        let step = self.sockets.next_step(buf);
        self.counts.count(step);
        step
    }

    fn close(&mut self, conn: u32)
        ensures closes { Closes (⟦<SocketSource<'a, R> as ServerSource>⟧.state self.old)
            (⟦<SocketSource<'a, R> as ServerSource>⟧.state self.new) conn }
        ensures keeps { Keeps (line self.old.sockets) (line self.new.sockets) }
    {
        self.sockets.release(conn);
    }
}
