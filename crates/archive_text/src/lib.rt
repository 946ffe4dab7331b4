//! The text of an archive: a finite set of syslog records, written as the canonical octets of each,
//! once, in one order, each with its length before it. Equal sets are equal texts.
//!
//! [`EntryView`] is an entry that is lent, [`read_entry`] reads one from a text, [`compare`] orders
//! two, [`put_entry`] writes one. [`Store`] is what an archive in memory offers, and
//! [`Period`] says how long the periods are by which entries are told apart.
#![tactic(auto)]

mod entry;
mod fault;
mod limits;
mod period;
mod store;
mod validation;
mod writing;

pub use entry::{EntryView, compare};
pub use fault::{ArchiveFault, EntryFault};
pub use limits::ENTRY_MAX;
pub use period::Period;
pub use store::{AddFault, Added, Store};
pub use validation::{counted_octets, entry_of_octets, read_entry};
pub use writing::put_entry;
