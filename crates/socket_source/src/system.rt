//! The calls of the system that make sockets.
ghost use Rattle.std.specs.Prelude.{◌≡◌, ◌+◌, ◌≤◌, ◌↔◌, ◌≤ℤ◌, IsOk, length, pos};
ghost use Rattle.mio.specs.SockAddr as raw;

use libc::types::rlimit;
use libc::{RLIMIT_NOFILE, getrlimit, net as c};
use os::FromRawFd;
use std::io;
use std::net::{SocketAddr, SocketAddrV4, SocketAddrV6};
use std::os::fd::{AsRawFd, OwnedFd, RawFd};

// how many connections may wait to be accepted; the system cuts it to its own limit
const BACKLOG: i32 = i32::MAX;

// the octets of C's `sockaddr_in` and `sockaddr_in6`
const V4_LEN: u32 = 16;

const V6_LEN: u32 = 28;

/// The octets of an address as the system reads it.
pub(crate) type RawAddress = [u8; c::_SS_SIZE];

/// The error of the call that has just given this answer, if it is negative.
pub(crate) fn check(status: i32) -> io::Result<()>
    ensures { IsOk result ↔ (pos 0 ≤ℤ status) }
{
    if status < 0 {
        return Err(io::Error::from_raw_os_error(os::errno()));
    }
    Ok(())
}

/// Puts octets into an address.
pub(crate) fn put(address: &mut RawAddress, at: usize, octets: &[u8])
    requires { at + length octets.now ≤ 128 }
    ensures { address.new ≡ raw.put address.old at octets.now }
{
    address[at..at + octets.len()].copy_from_slice(octets);
}

fn family_and_port(family: u16, port: u16) -> RawAddress
    ensures { result ≡ raw.family_and_port family port }
{
    let mut address = [0u8; c::_SS_SIZE];
    put(&mut address, 0, &family.to_ne_bytes());
    put(&mut address, 2, &port.to_be_bytes());
    address
}

fn encode_v4(addr: SocketAddrV4) -> RawAddress
    ensures { result ≡ raw.sockaddr_in addr }
{
    let mut address = family_and_port(c::AF_INET as u16, addr.port());
    put(&mut address, 4, &addr.ip().octets());
    address
}

fn encode_v6(addr: SocketAddrV6) -> RawAddress
    ensures { result ≡ raw.sockaddr_in6 addr }
{
    let mut address = family_and_port(c::AF_INET6 as u16, addr.port());
    put(&mut address, 4, &addr.flowinfo().to_ne_bytes());
    put(&mut address, 8, &addr.ip().octets());
    put(&mut address, 24, &addr.scope_id().to_ne_bytes());
    address
}

// The octets, and how many of them count.
fn encode(addr: SocketAddr) -> (RawAddress, u32)
    ensures octets { result ≡ raw.sockaddr addr }
    ensures len { result.1 ≤ 128 }
{
    match addr {
        SocketAddr::V4(addr) => (encode_v4(addr), V4_LEN),
        SocketAddr::V6(addr) => (encode_v6(addr), V6_LEN),
    }
}

/// Takes a descriptor that the system has just given, or its error if it is negative.
pub(crate) fn owned(fd: RawFd) -> io::Result<OwnedFd> {
    check(fd)?;
    Ok(unsafe { OwnedFd::from_raw_fd(fd) })
}

// The value of an option that is a number.
fn option_value(number: i32) -> [u8; 16] {
    let mut value = [0u8; 16];
    value[..4].copy_from_slice(&number.to_ne_bytes());
    value
}

// The socket takes IPv6 alone, so that one of IPv4 can have the same port.
fn set_v6_only(socket: &OwnedFd) -> io::Result<()> {
    let on = option_value(1);
    let fd = socket.as_raw_fd();
    check(unsafe { c::setsockopt(fd, c::IPPROTO_IPV6, c::IPV6_V6ONLY, &on, 4) })
}

// The port can be bound while connections of a server before this one are still known to the system.
fn set_reuse(socket: &OwnedFd) -> io::Result<()> {
    let on = option_value(1);
    let fd = socket.as_raw_fd();
    check(unsafe { c::setsockopt(fd, c::SOL_SOCKET, c::SO_REUSEADDR, &on, 4) })
}

// The system asks a silent peer after some hours whether it is still there: a connection whose peer
// lost its power ends. The connections of a listening socket have what it has.
fn set_keep_alive(socket: &OwnedFd) -> io::Result<()> {
    let on = option_value(1);
    let fd = socket.as_raw_fd();
    check(unsafe { c::setsockopt(fd, c::SOL_SOCKET, c::SO_KEEPALIVE, &on, 4) })
}

// How many octets of room a socket has for what has come and waits: twice those that were asked for.
fn receive_buffer(fd: RawFd) -> io::Result<i32> {
    let mut value = [0u8; 16];
    let mut len = 16;
    check(unsafe { c::getsockopt(fd, c::SOL_SOCKET, c::SO_RCVBUF, &mut value, &mut len) })?;
    Ok(i32::from_ne_bytes([value[0], value[1], value[2], value[3]]))
}

fn set_receive_buffer(fd: RawFd, octets: u32) -> io::Result<()> {
    let value = option_value(octets.min(i32::MAX as u32) as i32);
    check(unsafe { c::setsockopt(fd, c::SOL_SOCKET, c::SO_RCVBUF, &value, 4) })
}

/// Asks for `octets` octets of room for what has come to a socket and waits. The system gives at
/// most net.core.rmem_max, which another socket shows; one that has more keeps what it has, since a
/// service manager may give more.
pub(crate) fn raise_receive_buffer(fd: RawFd, octets: u32) -> io::Result<()> {
    let kind = c::SOCK_DGRAM | c::SOCK_CLOEXEC;
    let other = owned(unsafe { c::socket(c::AF_UNIX, kind, 0) })?;
    set_receive_buffer(other.as_raw_fd(), octets)?;
    if receive_buffer(other.as_raw_fd())? > receive_buffer(fd)? {
        set_receive_buffer(fd, octets)?;
    }
    Ok(())
}

fn bind(socket: &OwnedFd, addr: SocketAddr) -> io::Result<()> {
    let (address, len) = encode(addr);
    check(unsafe { c::bind(socket.as_raw_fd(), &address, len) })
}

// A datagram socket for an address.
fn datagram_socket(addr: SocketAddr) -> io::Result<OwnedFd> {
    let kind = c::SOCK_DGRAM | c::SOCK_NONBLOCK | c::SOCK_CLOEXEC;
    match addr {
        SocketAddr::V4(_) => owned(unsafe { c::socket(c::AF_INET, kind, 0) }),
        SocketAddr::V6(_) => {
            let socket = owned(unsafe { c::socket(c::AF_INET6, kind, 0) })?;
            set_v6_only(&socket)?;
            Ok(socket)
        }
    }
}

// A stream socket for an address.
fn stream_socket(addr: SocketAddr) -> io::Result<OwnedFd> {
    let kind = c::SOCK_STREAM | c::SOCK_NONBLOCK | c::SOCK_CLOEXEC;
    match addr {
        SocketAddr::V4(_) => owned(unsafe { c::socket(c::AF_INET, kind, 0) }),
        SocketAddr::V6(_) => {
            let socket = owned(unsafe { c::socket(c::AF_INET6, kind, 0) })?;
            set_v6_only(&socket)?;
            Ok(socket)
        }
    }
}

/// A socket for datagrams to an address, whose calls do not wait.
pub(crate) fn bind_datagrams(addr: SocketAddr) -> io::Result<OwnedFd> {
    let socket = datagram_socket(addr)?;
    bind(&socket, addr)?;
    Ok(socket)
}

/// A socket for connections to an address, whose calls do not wait.
pub(crate) fn listen_at(addr: SocketAddr) -> io::Result<OwnedFd> {
    let socket = stream_socket(addr)?;
    set_reuse(&socket)?;
    set_keep_alive(&socket)?;
    bind(&socket, addr)?;
    check(c::listen(socket.as_raw_fd(), BACKLOG))?;
    Ok(socket)
}

// The family of a socket's address, and the octets where IPv4 and IPv6 have its port. An error if it is no
// socket.
fn own_address(fd: RawFd) -> io::Result<(i32, u16)> {
    let mut address = [0u8; c::_SS_SIZE];
    let mut len = c::_SS_SIZE as u32;
    check(unsafe { c::getsockname(fd, &mut address, &mut len) })?;
    let family = i32::from(u16::from_ne_bytes([address[0], address[1]]));
    Ok((family, u16::from_be_bytes([address[2], address[3]])))
}

// Whether a family is IPv4 or IPv6.
fn is_internet(family: i32) -> bool {
    family == c::AF_INET || family == c::AF_INET6
}

/// The port that a socket of IPv4 or IPv6 is bound to. None if it is another socket, or is not bound.
/// An error if it is no socket.
pub(crate) fn bound_port(fd: RawFd) -> io::Result<Option<u16>> {
    let (family, port) = own_address(fd)?;
    Ok((is_internet(family) && port > 0).then_some(port))
}

/// Whether the senders of a socket's datagrams have addresses of IPv4 or IPv6; those of a Unix socket have
/// none. An error if it is another socket, or none.
pub(crate) fn has_addresses(fd: RawFd) -> io::Result<bool> {
    let (family, _port) = own_address(fd)?;
    if is_internet(family) {
        return Ok(true);
    }
    if family == c::AF_UNIX {
        return Ok(false);
    }
    Err(io::Error::new(io::ErrorKind::InvalidInput, "a socket of another kind"))
}

// Linux's error for a call that this kind of socket does not have
const EOPNOTSUPP: i32 = 95;

/// Whether a descriptor is a socket that takes connections, which it then does; otherwise it is one
/// for datagrams. An error if it is no socket.
pub(crate) fn takes_connections(fd: RawFd) -> io::Result<bool> {
    match check(c::listen(fd, BACKLOG)) {
        Ok(()) => Ok(true),
        Err(error) if error.raw_os_error() == Some(EOPNOTSUPP) => Ok(false),
        Err(error) => Err(error),
    }
}

// how many descriptors stay for files that are opened later, at most
const FILES_KEPT: u64 = 32;

/// The first descriptor that no connection may have: those from it on stay free for files. The
/// system gives the lowest one that is free.
pub(crate) fn first_kept_descriptor() -> RawFd {
    let mut limit = rlimit {
        rlim_cur: 0,
        rlim_max: 0,
    };
    if getrlimit(RLIMIT_NOFILE, &mut limit) < 0 {
        return RawFd::MAX;
    }
    let kept = FILES_KEPT.min(limit.rlim_cur / 4);
    limit.rlim_cur.saturating_sub(kept).min(i32::MAX as u64) as i32
}

/// A descriptor that holds a place: when none is left, it can be closed to have one.
pub(crate) fn spare_descriptor() -> Option<OwnedFd> {
    owned(c::eventfd(0, c::EFD_CLOEXEC)).ok()
}
