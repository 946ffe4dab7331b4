//! The store that a server keeps: a folder that holds a set of records through crashes, and in
//! memory the set of those that came since the last checkpoint.
//!
//! A [`DurableStore`] is opened on a disk: what its journals hold, which is at most what came between
//! two checkpoints for each of them, is read into memory. What is added to it (`Store`) is in memory,
//! and waits; `commit` brings what waits to the disk. `checkpoint` writes what is in memory as
//! segments, at most 65, begins a new journal, and removes at most 64 that are older.
//!
//! Whenever a crash comes, what the folder holds afterwards is a set S with committed ⊆ S ⊆
//! received.
#![tactic(auto)]

mod adding;
mod aside;
mod checkpoint;
mod draft;
mod fault;
mod law;
mod mixed;
mod recovery;
mod segments;
mod shares;
mod store;
mod tail;

pub use aside::SetAside;
pub use checkpoint::CHECKPOINT_SYNCS;
pub use draft::DraftName;
pub use fault::{CheckpointFault, OpenFault};
pub use law::checkpoint_syncs;
pub use mixed::{SET_SYNCS, write_segments};
pub use recovery::check_journals;
pub use shares::entry_len;
pub use store::DurableStore;
