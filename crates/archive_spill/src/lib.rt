//! A set of syslog records that may be larger than memory.
//!
//! [`SpilledArchive`] keeps in memory what fits in its room. The rest goes out to a [`Spill`] as
//! runs, each the text of an archive, and is joined with it when the set is written.
//! [`FolderSpill`] keeps its runs in files of a folder, [`MemorySpill`] in memory.
#![tactic(auto)]

mod fault;
mod folder;
mod joins;
mod memory;
mod record_set;
mod room;
mod spill;
mod spilled;

pub use fault::SpillFault;
pub use folder::{FolderSpill, Uninterrupted};
pub use memory::{MemorySpill, SpillCall};
pub use room::{JOINED_MAX, JOINED_ROOM, joined_at_once};
pub use spill::Spill;
pub use spilled::SpilledArchive;
