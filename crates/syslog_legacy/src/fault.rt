//! Why a legacy packet gives no record.

use thiserror::Error;

/// The message starts with the byte order mark, and what follows it is not UTF-8.
#[derive(Clone, Copy, Debug, PartialEq, Eq, Error)]
#[error("the message is not UTF-8 at {offset}")]
pub struct MessageNotUtf8 {
    /// The offset in the packet at which UTF-8 cannot continue, or the packet's length if it ends
    /// inside a character.
    pub offset: usize,
}

/// Why no record was made from a legacy packet.
#[derive(Clone, Copy, Debug, PartialEq, Eq, Error)]
pub enum LegacyFault {
    /// As [MessageNotUtf8] says.
    #[error("the message is not UTF-8 at {offset}")]
    MessageNotUtf8 { offset: usize },
    /// An allocation failed. The packet is a record.
    #[error("out of memory")]
    Memory,
}
