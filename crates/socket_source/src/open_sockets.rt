//! The sockets that are listened on, and those that are open.
ghost use Rattle.std.specs.Prelude.{◌≡◌, ℕ, ◌+◌, ◌<◌, ◌≤◌, false, true, length, slice_get, vec_len, IfNone, IfSome};
ghost use Rattle.std.specs.Prelude.{IsSome, None};
ghost use Rattle.socket_source.specs.Kinds.{is_addressed};
ghost use Rattle.slab.specs.Slab.{get};
ghost use Rattle.socket_source.specs.Paces.{Charges, IsPaced, IsReadAtRate};
ghost use Rattle.socket_source.specs.Places.{begun, place_in};
ghost use Rattle.socket_source.specs.Runs.{IsOwn};
ghost use Rattle.socket_source.specs.Sockets.{HasSender, IsAt, IsAtOrDisplaced, IsEnd, IsOf};
ghost use Rattle.peer_rules.specs.AllowLists.{networks_of};
ghost use Rattle.socket_source.specs.Steps.{Becomes, IfLawful, IsLawful, is_peer, without_open};
ghost use Rattle.socket_source.specs.Turns.{IsWithinShare};
ghost use Rattle.socket_source.specs.declared.refusal.Retry.TheVariants.{Reported};
ghost use Rattle.socket_source.specs.declared.step.ServerStep.TheVariants.{Datagram, Ended, NotAllowed};

use crate::allowed::is_peer;
use crate::bound::{Bound, accept_from, receive};
use crate::connection::Connection;
use crate::connections::Connections;
use crate::pace::Pace;
use crate::peers::host_number;
use crate::ready::listener_number;
use crate::refusal::{Reading, Refusal, Retry, retry_of};
use crate::share::Share;
use crate::step::{ConnectionEnd, ServerStep};
use crate::system::spare_descriptor;
use mio::Poll;
use mio::net::TcpStream;
use peer_rules::AllowList;
use std::net::{IpAddr, SocketAddr};
use std::os::fd::OwnedFd;
use std::time::Instant;
use syslog_frame::Framing;

/// What a step of a socket gave, and when the socket is tried again.
#[derive(Clone, Copy)]
pub(crate) struct Taken {
    pub(crate) step: Option<ServerStep>,
    pub(crate) retry: Retry,
}

impl Taken {
    /// Nothing.
    pub(crate) fn none(retry: Retry) -> Taken
        ensures { result ≡ record { step = None; retry = retry } }
    {
        Taken { step: None, retry }
    }

    /// A step.
    pub(crate) fn some(step: ServerStep, retry: Retry) -> Taken
        ensures { result ≡ record { step = Some step; retry = retry } }
    {
        Taken {
            step: Some(step),
            retry,
        }
    }
}

/// The sockets that are listened on, and those that are open.
#[derive(Drop)]
pub(crate) struct OpenSockets {
    pub(crate) poll: Poll,
    pub(crate) listeners: Vec<Bound>,
    pub(crate) connections: Connections,
    // whose datagrams and connections are taken
    pub(crate) allowed: AllowList,
    // and how fast
    pub(crate) pace: Pace,
    pub(crate) spare: Option<OwnedFd>,
    // the connection for which another has just ended
    pub(crate) arrived: Option<Arrived>,
}

/// A connection that was accepted, and is opened in the next step of a listener.
#[derive(Drop)]
pub(crate) struct Arrived {
    listener: usize,
    framing: Framing,
    stream: TcpStream,
    peer: SocketAddr,
}

impl OpenSockets {
    ghost use Rattle.socket_source.specs.Standings.{framings_of, standing_of};

    // The step of a connection that is closed: its peer may not send, or there is no room for it.
    fn closed(&self, listener: usize, framing: Framing, peer: SocketAddr) -> ServerStep
        requires { listener < vec_len self.now.listeners }
        ensures lawful { IsLawful (standing_of self.now) (standing_of self.now) 0 result }
        ensures at { IsAt listener result }
        ensures elsewhere { is_peer (networks_of self.now.allowed) peer ≡ false
            → result ≡ NotAllowed listener peer }
    {
        if is_peer(&self.allowed, peer) {
            ServerStep::TurnedAway {
                listener,
                framing,
                peer,
            }
        } else {
            ServerStep::NotAllowed { listener, peer }
        }
    }

    // Opens a connection that was accepted, or turns it away; one whose peer may not send is closed.
    fn admit(
        &mut self,
        listener: usize,
        framing: Framing,
        accepted: (TcpStream, SocketAddr),
        now: Instant,
    ) -> ServerStep
        requires { listener < vec_len self.old.listeners }
        ensures lawful { IsLawful (standing_of self.old) (standing_of self.new) 0 result }
        ensures at { IsAt listener result }
        ensures elsewhere { is_peer (networks_of self.old.allowed) accepted.1 ≡ false
            → result ≡ NotAllowed listener accepted.1 }
        ensures own { (listeners number : ℕ) → IsOwn listeners number result }
    {
        let (stream, peer) = accepted;
        if !is_peer(&self.allowed, peer) {
            return ServerStep::NotAllowed { listener, peer };
        }
        let first = listener_number(self.listeners.len());
        let registry = self.poll.registry();
        let connection = Connection {
            stream,
            framing,
            peer: host_number(peer),
            address: peer.ip(),
        };
        match self.connections.keep(registry, first, connection, now) {
            Some(conn) => ServerStep::Opened {
                conn,
                listener,
                framing,
                peer,
            },
            None => ServerStep::TurnedAway {
                listener,
                framing,
                peer,
            },
        }
    }

    // Whether another connection has to end before one of this peer, who may send, can be opened.
    fn lacks_place(&self, peer: SocketAddr) -> bool
        ensures { result ≡ true → is_peer (networks_of self.now.allowed) peer ≡ true }
    {
        is_peer(&self.allowed, peer) && self.connections.lacks_place(host_number(peer))
    }

    // Opens a connection that was accepted, or ends another to make room for it: then it is opened in
    // the next step of a listener.
    #[tactic(auto, using(crate::proofs::Places::at_or_displaced))]
    fn make_room(
        &mut self,
        listener: usize,
        framing: Framing,
        accepted: (TcpStream, SocketAddr),
        now: Instant,
    ) -> ServerStep
        requires { listener < vec_len self.old.listeners }
        ensures lawful { IsLawful (standing_of self.old) (standing_of self.new) 0 result }
        ensures at { IsAtOrDisplaced listener result }
        // No connection ends for one whose peer may not send.
        ensures elsewhere { is_peer (networks_of self.old.allowed) accepted.1 ≡ false
            → result ≡ NotAllowed listener accepted.1 }
    {
        if !self.lacks_place(accepted.1) {
            return self.admit(listener, framing, accepted, now);
        }
        let Some(conn) = self.connections.find_displaced(now) else {
            return self.admit(listener, framing, accepted, now);
        };
        self.close(conn);
        let (stream, peer) = accepted;
        self.arrived = Some(Arrived {
            listener,
            framing,
            stream,
            peer,
        });
        ServerStep::Ended {
            conn,
            end: ConnectionEnd::Displaced,
        }
    }

    // Opens the connection for which another has ended, if there is one.
    fn admit_arrived(&mut self, now: Instant) -> Option<ServerStep>
        ensures lawful { IfLawful (standing_of self.old) (standing_of self.new) 0 result }
        ensures none { IfNone result (self.new ≡ record self.old { arrived = None }) }
        ensures one { IsSome result → IsSome self.old.arrived }
        ensures own { IfSome result (λ step. (listeners number : ℕ) → IsOwn listeners number step) }
    {
        let Arrived {
            listener,
            framing,
            stream,
            peer,
        } = self.arrived.take()?;
        if listener >= self.listeners.len() {
            return None;
        }
        Some(self.admit(listener, framing, (stream, peer), now))
    }

    // Accepts a connection.
    #[tactic(auto, using(crate::proofs::Places::at_or_displaced))]
    fn accept(&mut self, listener: usize, now: Instant) -> Taken
        ensures lawful { IfLawful (standing_of self.old) (standing_of self.new) 0 result.step }
        ensures at { IfSome result.step (IsAtOrDisplaced listener) }
    {
        let Some(Bound::Streams { socket, framing }) = self.listeners.get(listener) else {
            return Taken::none(Retry::Reported);
        };
        let framing = *framing;
        match accept_from(socket) {
            Ok(accepted) => {
                Taken::some(self.make_room(listener, framing, accepted, now), Retry::Now)
            }
            Err(Refusal::Exhausted) => self.turn_away(listener),
            Err(refusal) => Taken::none(retry_of(refusal)),
        }
    }

    // Accepts a connection in the place of the spare descriptor, and closes it. Where even that
    // fails, the listener is tried again later.
    fn turn_away(&mut self, listener: usize) -> Taken
        ensures lawful { IfLawful (standing_of self.old) (standing_of self.new) 0 result.step }
        ensures at { IfSome result.step (IsAt listener) }
    {
        self.spare = None;
        let Some(Bound::Streams { socket, framing }) = self.listeners.get(listener) else {
            return Taken::none(Retry::Reported);
        };
        let framing = *framing;
        let taken = match accept_from(socket) {
            Ok((stream, peer)) => {
                drop(stream);
                Taken::some(self.closed(listener, framing, peer), Retry::Now)
            }
            Err(_) => Taken::none(Retry::Later),
        };
        self.spare = spare_descriptor();
        taken
    }

    // The step of a datagram of so many octets from an address that may send: if it is above its rate,
    // the datagram is thrown away.
    fn let_through(
        &mut self,
        listener: usize,
        peer: SocketAddr,
        len: usize,
        now: Instant,
    ) -> ServerStep
        requires known { listener < vec_len self.old.listeners }
        requires may { is_peer (networks_of self.old.allowed) peer ≡ true }
        ensures lawful { IsLawful (standing_of self.old) (standing_of self.new) len result }
        ensures at { IsAt listener result }
        ensures from { HasSender result }
        ensures paced { IsPaced self.old.pace self.new.pace peer now listener len result }
    {
        if self.pace.take(peer.ip(), now, 1) == 0 {
            return ServerStep::OverRate { listener, peer };
        }
        ServerStep::Datagram {
            listener,
            peer: Some(peer),
            len,
        }
    }

    // The step of a datagram of so many octets from an address: if it may not send, or is above its
    // rate, the datagram is thrown away.
    fn received_from(
        &mut self,
        listener: usize,
        peer: SocketAddr,
        len: usize,
        now: Instant,
    ) -> ServerStep
        requires { listener < vec_len self.old.listeners }
        ensures lawful { IsLawful (standing_of self.old) (standing_of self.new) len result }
        ensures at { IsAt listener result }
        ensures from { HasSender result }
        ensures paced { is_peer (networks_of self.old.allowed) peer ≡ true
            → IsPaced self.old.pace self.new.pace peer now listener len result }
        ensures elsewhere { is_peer (networks_of self.old.allowed) peer ≡ false
            → result ≡ NotAllowed listener peer }
    {
        if is_peer(&self.allowed, peer) {
            return self.let_through(listener, peer, len, now);
        }
        ServerStep::NotAllowed { listener, peer }
    }

    // The step of a datagram of so many octets. One without an address is given in any case.
    fn received(
        &mut self,
        listener: usize,
        peer: Option<SocketAddr>,
        len: usize,
        now: Instant,
    ) -> ServerStep
        requires { listener < vec_len self.old.listeners }
        ensures lawful { IsLawful (standing_of self.old) (standing_of self.new) len result }
        ensures at { IsAt listener result }
        ensures given { IfNone peer (result ≡ Datagram listener None len) }
        ensures paced { IfSome peer (λ address. is_peer (networks_of self.old.allowed) address ≡ true
            → IsPaced self.old.pace self.new.pace address now listener len result) }
        ensures elsewhere { IfSome peer (λ address. is_peer (networks_of self.old.allowed) address ≡ false
            → result ≡ NotAllowed listener address) }
        ensures from { IsSome peer → HasSender result }
    {
        match peer {
            Some(peer) => self.received_from(listener, peer, len, now),
            None => ServerStep::Datagram {
                listener,
                peer: None,
                len,
            },
        }
    }

    // Receives a datagram.
    fn receive(&mut self, listener: usize, now: Instant, buf: &mut [u8]) -> Taken
        ensures at { IfSome result.step (IsAt listener) }
        ensures lawful { IfLawful (standing_of self.old) (standing_of self.new) (length buf.new) result.step }
        // where its senders have addresses, a datagram comes with one
        ensures from { IfSome (slice_get self.old.listeners.items listener) (λ bound.
            is_addressed bound ≡ true → IfSome result.step HasSender) }
    {
        let Some(Bound::Datagrams { socket, addressed }) = self.listeners.get(listener) else {
            return Taken::none(Retry::Reported);
        };
        match receive(socket, *addressed, buf) {
            Ok((len, peer)) => Taken::some(self.received(listener, peer, len, now), Retry::Now),
            Err(refusal) => Taken::none(retry_of(refusal)),
        }
    }

    /// Closes a connection.
    pub(crate) fn close(&mut self, conn: u32)
        ensures { Becomes (standing_of self.old) (standing_of self.new)
            (without_open conn (standing_of self.old).live) }
    {
        self.connections.close(conn);
    }

    // What a connection comes to that has ended.
    fn end(&mut self, conn: u32, end: ConnectionEnd) -> Taken
        ensures becomes { Becomes (standing_of self.old) (standing_of self.new)
            (without_open conn (standing_of self.old).live) }
        ensures ended { result ≡ record { step = Some (Ended conn end); retry = Reported } }
    {
        self.close(conn);
        Taken::some(ServerStep::Ended { conn, end }, Retry::Reported)
    }

    /// Ends a connection that is silent, if nothing waits on it. What waits is left for its turn.
    pub(crate) fn end_silent(&mut self, conn: u32) -> Taken
        ensures lawful { IfLawful (standing_of self.old) (standing_of self.new) 0 result.step }
        ensures unserved { IfSome result.step IsEnd }
    {
        match self.connections.look(conn) {
            Some(Reading::Ended(end)) => self.end(conn, end),
            Some(Reading::Piece(_) | Reading::Again) => Taken::none(Retry::Now),
            Some(Reading::Dry) | None => Taken::none(Retry::Reported),
        }
    }

    // Charges the frames that begin in the first `len` octets, which a connection gave, to its peer.
    fn charge(&mut self, conn: u32, peer: IpAddr, now: Instant, octets: &[u8], len: usize)
        requires { len ≤ length octets.now }
        ensures standing { standing_of self.new ≡ standing_of self.old }
        ensures framings { framings_of self.new ≡ framings_of self.old }
        ensures charged { IfSome (framings_of self.old conn) (λ framing. Charges self.old.pace self.new.pace peer now
            (begun framing (place_in self.old.connections.places.items conn) octets.now len)) }
    {
        if self.pace.is_bounded() {
            let frames = self.connections.begin(conn, octets, len);
            let _passed = self.pace.take(peer, now, frames);
        }
    }

    /// Reads a share of a connection, if one is open under the number, and if its peer may send another
    /// frame now. No more frames begin in what it gives than its peer may send; each is charged to it.
    pub(crate) fn read(&mut self, conn: u32, share: Share, now: Instant, buf: &mut [u8]) -> Taken
        requires { 0 < share.frames }
        ensures of { IfSome result.step (IsOf conn) }
        ensures lawful { IfLawful (standing_of self.old) (standing_of self.new) (length buf.new) result.step }
        ensures bounded { IfSome result.step (IsWithinShare share (framings_of self.new) buf.new) }
        ensures paced { IfSome (get self.old.connections.streams conn) (λ c. IsReadAtRate self.old.pace self.new.pace c
            (place_in self.old.connections.places.items conn) now buf.new result) }
    {
        let Some(peer) = self.connections.address(conn) else {
            return Taken::none(Retry::Reported);
        };
        let room = self.pace.room(peer, now);
        if room == Some(0) {
            return Taken::none(Retry::Slowed);
        }
        match self.connections.read(conn, share, room, now, buf) {
            Reading::Piece(len) => {
                self.charge(conn, peer, now, buf, len);
                Taken::some(ServerStep::Piece { conn, len }, Retry::Now)
            }
            Reading::Ended(end) => self.end(conn, end),
            Reading::Again => Taken::none(Retry::Now),
            Reading::Dry => Taken::none(Retry::Reported),
        }
    }

    /// Takes what a socket has, once: that of a listener, or behind them a share of a connection.
    pub(crate) fn take(
        &mut self,
        socket: usize,
        share: Share,
        now: Instant,
        buf: &mut [u8],
    ) -> Taken
        requires { 0 < share.frames }
        ensures lawful { IfLawful (standing_of self.old) (standing_of self.new) (length buf.new) result.step }
        ensures bounded { IfSome result.step (IsWithinShare share (framings_of self.new) buf.new) }
        ensures from { IfSome (slice_get self.old.listeners.items socket) (λ bound.
            is_addressed bound ≡ true → IfSome result.step HasSender) }
        ensures own { IfSome result.step (IsOwn (vec_len self.old.listeners) (socket + 1)) }
    {
        match self.listeners.get(socket) {
            Some(Bound::Streams { .. }) => match self.admit_arrived(now) {
                Some(step) => Taken::some(step, Retry::Now),
                None => self.accept(socket, now),
            },
            Some(Bound::Datagrams { .. }) => self.receive(socket, now, buf),
            None => {
                let conn = socket.saturating_sub(self.listeners.len());
                match u32::try_from(conn) {
                    Ok(conn) => self.read(conn, share, now, buf),
                    Err(_) => Taken::none(Retry::Reported),
                }
            }
        }
    }
}
