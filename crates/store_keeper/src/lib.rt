//! What a server keeps its records in: a durable store, and the disk that it is on.
#![tactic(auto)]

mod adding;
mod keeper;
mod serving;
mod spared;
mod watched;

pub use keeper::DiskKeeper;
pub use serving::{serve, server_on};
pub use spared::SparedSet;
pub use watched::SoundDisk;
