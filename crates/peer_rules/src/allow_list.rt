//! Who may send.
ghost use Rattle.std.specs.Prelude.{◌≡◌, ◌↔◌, ◌++◌, ◌∷◌, [], IsTrue, OnErr, OnOk};
ghost use Rattle.peer_rules.specs.Addresses.{number_of};

use crate::network::Network;
use std::alloc::{AllocError, Global};
use std::net::IpAddr;

/// The networks whose addresses may send. With none of them everybody may.
#[derive(Drop)]
pub struct AllowList {
    networks: Vec<Network>,
}

impl AllowList {
    ghost use Rattle.peer_rules.specs.AllowLists.{MaySend, networks_of};

    /// A list without networks, by which everybody may send.
    pub fn new(alloc: Global) -> AllowList
        ensures { networks_of result ≡ [] }
    {
        AllowList {
            networks: Vec::new(alloc),
        }
    }

    /// The addresses of a network may send. It fails only when out of memory.
    pub fn add(&mut self, network: Network) -> Result<(), AllocError>
        ensures ok { OnOk result (networks_of self.new ≡ networks_of self.old ++ network ∷ []) }
        ensures err { OnErr result (networks_of self.new ≡ networks_of self.old) }
    {
        self.networks.push(network)?;
        Ok(())
    }

    /// Whether an address may send: if it is in one of the networks, or there are none.
    pub fn allows(&self, address: IpAddr) -> bool
        ensures { IsTrue result ↔ MaySend (networks_of self.now) (number_of address) }
    {
        for network in &self.networks {
            if network.contains(address) {
                return true;
            }
        }
        self.networks.is_empty()
    }
}
