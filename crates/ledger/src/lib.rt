//! The ledger of a store: a text that only grows, with a line for each segment that came, went or was
//! sealed. Each line ends with a SHA-256 of itself and of what the line before ends with, so whoever
//! knows a line knows all lines before it, or has found a collision.
//!
//! [`ChainHead`] is where a ledger stands behind a line: it makes the next line and recognizes it.
//! [`Standing`] has the segments that the lines list, and [`read_ledger`] reads a ledger whole.
#![tactic(auto)]

mod body;
mod entry;
mod fault;
mod head;
mod laws;
mod listing;
mod reader;
mod standing;
mod words;
mod writing;

pub use entry::{Event, LedgerEntry, Removal};
pub use fault::LedgerFault;
pub use head::{ChainHead, LINE_MAX};
pub use laws::{
    agreeing_ledgers_are_equal, ledgers_go_on_from_a_line_in_common,
    ledgers_with_a_line_in_common_are_equal_before_it, seals_stay, segments_go_by_their_lines,
};
pub use reader::{LedgerRead, read_ledger};
pub use standing::{Listed, Standing};
