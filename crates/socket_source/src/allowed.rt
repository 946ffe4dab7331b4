//! Who may send to a source.
ghost use Rattle.std.specs.Prelude.{◌≡◌};
ghost use Rattle.peer_rules.specs.AllowLists.{networks_of};
ghost use Rattle.socket_source.specs.Steps.{is_peer, is_sender};

use peer_rules::AllowList;
use std::net::SocketAddr;

/// Whether the peer of a connection may send, whatever its port.
pub(crate) fn is_peer(allowed: &AllowList, peer: SocketAddr) -> bool
    ensures { result ≡ is_peer (networks_of allowed.now) peer }
{
    allowed.allows(peer.ip())
}

/// Whether the sender of a datagram may send. One without an address is not asked.
pub(crate) fn is_sender(allowed: &AllowList, peer: Option<SocketAddr>) -> bool
    ensures { result ≡ is_sender (networks_of allowed.now) peer }
{
    match peer {
        Some(peer) => is_peer(allowed, peer),
        None => true,
    }
}
