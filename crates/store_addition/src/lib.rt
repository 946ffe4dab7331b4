//! An archive is put into a store, beside a server or without one.
//!
//! [`add_archive`] reads an archive entry by entry, gathers up to 64 MiB of it in memory, and writes
//! them as segments, as a checkpoint does: at most 65 for each 64 MiB, whatever times the records
//! have. It changes neither the journals of the store nor the draft of its server.
//!
//! Whenever a crash comes, the folder holds what it held, and of the archive at least what was
//! counted and at most what was read.
#![tactic(auto)]

mod add;
mod adding;
mod addition;
mod fault;

pub use add::add_archive;
pub use addition::Addition;
pub use fault::{AddFault, Interrupted};
