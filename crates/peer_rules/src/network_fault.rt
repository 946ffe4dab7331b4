//! Why a network is refused.

use crate::network::Network;
use thiserror::Error;

/// Why a network is refused.
#[derive(Clone, Copy, Debug, PartialEq, Eq, Error)]
pub enum NetworkFault {
    /// The text before the first slash is not an address.
    #[error("not an address")]
    Address,
    /// The text behind the first slash is not a decimal number, or the address has fewer bits.
    #[error("not a prefix length of the address")]
    Length,
    /// The address has bits behind the prefix that are not 0. This network has the address.
    #[error("bits behind the prefix are set; the network is {0}")]
    HostBits(Network),
}
