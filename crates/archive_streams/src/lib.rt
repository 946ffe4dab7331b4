//! Two archives of syslog records, each possibly larger than memory, are joined as they are read
//! from two devices and written to a third.
//!
//! [`merge_streams`] holds three entries, whatever the archives hold. [`ArchiveEntries`] reads one
//! archive entry by entry, and holds two.
#![tactic(auto)]

mod entries;
mod entry;
mod fault;
mod join;
mod merge;
mod pieces;
mod progress;
mod reading;
mod side;
mod validation;

pub use entries::ArchiveEntries;
pub use fault::{InputFault, MergeFault, Side, SideFault as EntriesFault};
pub use join::merge_streams;
pub use pieces::ENTRIES_READ_MAX;
