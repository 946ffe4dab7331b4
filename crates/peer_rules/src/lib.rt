//! Who may send to a server, and how fast: networks, a list of those that may, and a rate for each address.
//!
//! Nothing here has a device: a caller gives the address of a peer and the time. An IPv6 address that
//! stands for one of IPv4 (RFC 4291, section 2.5.5.2) is that address, everywhere.
#![tactic(auto)]

mod address;
mod allow_list;
mod bucket;
mod network;
mod network_fault;
mod network_text;
mod rates;
#[cfg(test)]
mod tests;

pub use address::address_number;
pub use allow_list::AllowList;
pub use bucket::{BURST_MILLIS, RECORD_CREDIT};
pub use network::Network;
pub use network_fault::NetworkFault;
pub use rates::{PEERS_MAX, Rates};
