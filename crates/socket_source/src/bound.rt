//! The sockets of the listeners.
ghost use Rattle.std.specs.Prelude.{◌≡◌, ◌≤◌, length, true, IfOk, IsSome};
ghost use Rattle.socket_source.specs.Kinds.{HasSenders, is_addressed};

use crate::listener::{Inherited, Listener};
use crate::refusal::{Refusal, refusal_of};
use crate::system::{
    bind_datagrams, bound_port, check, has_addresses, listen_at, raise_receive_buffer,
    takes_connections,
};
use crate::unix_path::bind_path;
use mio::net::{TcpListener, TcpStream, UdpSocket};
use mio::{Interest, Registry, Token};
use os::FromRawFd;
use std::alloc::Global;
use std::io;
use std::net::SocketAddr;
use std::os::fd::{AsRawFd, OwnedFd, RawFd};
use std::rt::Files;
use syslog_frame::Framing;

/// A socket that is listened on.
#[derive(Drop)]
pub(crate) enum Bound {
    /// Connections, whose streams have this framing.
    Streams {
        socket: TcpListener,
        framing: Framing,
    },
    /// Datagrams. Their peers have addresses, unless the socket is at a path.
    Datagrams {
        socket: UdpSocket,
        addressed: bool,
    },
}

fn streams(socket: OwnedFd, framing: Framing) -> Bound {
    Bound::Streams {
        socket: TcpListener::from(socket),
        framing,
    }
}

fn datagrams(socket: OwnedFd, addressed: bool) -> Bound
    ensures { is_addressed result ≡ addressed }
{
    Bound::Datagrams {
        socket: UdpSocket::from(socket),
        addressed,
    }
}

// Refuses a socket that has no port: to listen on it would give it one that nobody knows.
fn check_bound(fd: RawFd) -> io::Result<()> {
    match bound_port(fd)? {
        Some(_) => Ok(()),
        None => Err(io::Error::new(io::ErrorKind::InvalidInput, "a socket that has no port")),
    }
}

/// Refuses a descriptor that was handed over if it is not what is asked for. Afterwards its calls
/// do not wait.
pub(crate) fn check_inherited(fd: RawFd, inherited: Inherited) -> io::Result<()> {
    let is_fit = match inherited {
        Inherited::Udp => !takes_connections(fd)?,
        Inherited::Counted | Inherited::Lf => {
            check_bound(fd)?;
            takes_connections(fd)?
        }
    };
    if !is_fit {
        return Err(io::Error::new(io::ErrorKind::InvalidInput, "a socket of another kind"));
    }
    check(os::set_nonblocking(fd, true))
}

// Takes a descriptor that was handed over and checked.
fn take_inherited(number: u16, inherited: Inherited) -> io::Result<Bound> {
    let owned = unsafe { OwnedFd::from_raw_fd(i32::from(number)) };
    match inherited {
        Inherited::Udp => {
            let addressed = has_addresses(owned.as_raw_fd())?;
            Ok(datagrams(owned, addressed))
        }
        Inherited::Counted => inherited_streams(owned, Framing::Counted),
        Inherited::Lf => inherited_streams(owned, Framing::Lf),
    }
}

// The connections have addresses.
fn inherited_streams(owned: OwnedFd, framing: Framing) -> io::Result<Bound> {
    let socket = TcpListener::from(owned);
    let _address = socket.local_addr()?;
    Ok(Bound::Streams { socket, framing })
}

/// Binds a listener's socket. An inherited one is the descriptor with this number.
pub(crate) fn bind(
    rt: &impl Files,
    alloc: Global,
    listener: Listener<'_>,
    inherited: u16,
) -> io::Result<Bound>
    ensures { IfOk result (HasSenders listener.entry) }
{
    match listener {
        Listener::Udp(addr) => Ok(datagrams(bind_datagrams(addr)?, true)),
        Listener::Counted(addr) => Ok(streams(listen_at(addr)?, Framing::Counted)),
        Listener::Lf(addr) => Ok(streams(listen_at(addr)?, Framing::Lf)),
        Listener::Unix(path) => Ok(datagrams(bind_path(rt, alloc, path)?, false)),
        Listener::Inherited(kind) => take_inherited(inherited, kind),
    }
}

// Receives a datagram. A peer at a path has no address.
fn receive_from(
    socket: &UdpSocket,
    addressed: bool,
    buf: &mut [u8],
) -> io::Result<(usize, Option<SocketAddr>)>
    ensures within { IfOk result (λ r. r.0 ≤ length buf.new) }
    ensures from { addressed ≡ true → IfOk result (λ r. IsSome r.1) }
{
    if addressed {
        let (len, peer) = socket.recv_from(buf)?;
        return Ok((len, Some(peer)));
    }
    let len = socket.recv(buf)?;
    Ok((len, None))
}

impl Bound {
    ghost use Rattle.socket_source.specs.Kinds.{is_datagrams};

    /// Whether it is a socket of datagrams.
    pub(crate) fn is_datagrams(&self) -> bool
        ensures { result ≡ is_datagrams self.now }
    {
        matches!(self, Bound::Datagrams { .. })
    }

    /// Has the system report the socket under a number.
    pub(crate) fn register(&mut self, registry: &Registry, number: usize) -> io::Result<()> {
        let token = Token(number);
        match self {
            Bound::Streams { socket, framing: _ } => {
                registry.register(socket, token, Interest::READABLE)
            }
            Bound::Datagrams {
                socket,
                addressed: _,
            } => registry.register(socket, token, Interest::READABLE),
        }
    }

    /// Asks for `octets` octets of room for datagrams that have come and wait, where there are fewer.
    pub(crate) fn raise_receive_buffer(&self, octets: u32) -> io::Result<()> {
        match self {
            Bound::Streams { .. } => Ok(()),
            Bound::Datagrams { socket, .. } => raise_receive_buffer(socket.as_raw_fd(), octets),
        }
    }

    /// The address that was bound. A socket at a path has none.
    pub(crate) fn local_addr(&self) -> Option<SocketAddr> {
        match self {
            Bound::Streams { socket, .. } => socket.local_addr().ok(),
            Bound::Datagrams { socket, .. } => socket.local_addr().ok(),
        }
    }
}

/// Accepts a connection.
pub(crate) fn accept_from(socket: &TcpListener) -> Result<(TcpStream, SocketAddr), Refusal> {
    match socket.accept() {
        Ok(accepted) => Ok(accepted),
        Err(error) => Err(refusal_of(&error)),
    }
}

/// Receives a datagram. Where peers have addresses, that of its sender comes with it.
pub(crate) fn receive(
    socket: &UdpSocket,
    addressed: bool,
    buf: &mut [u8],
) -> Result<(usize, Option<SocketAddr>), Refusal>
    ensures within { IfOk result (λ r. r.0 ≤ length buf.new) }
    ensures from { addressed ≡ true → IfOk result (λ r. IsSome r.1) }
{
    match receive_from(socket, addressed, buf) {
        Ok(received) => Ok(received),
        Err(error) => Err(refusal_of(&error)),
    }
}
