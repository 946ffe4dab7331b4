//! What the commands on archives do, over any devices: [`archive_input`] writes the records of an
//! input as an archive, [`merge_archives`] joins two archives, and [`migrate_archive`] brings one
//! of the old form into the new one.
#![tactic(auto)]

mod archive;
mod archive_datagram;
mod archive_spilled;
mod archive_stream;
mod gathered_stream;
mod gathering;
mod merge;
mod migrate;
mod spill_stop;

pub use archive::archive_input;
pub use archive_spilled::{SPILLED_READ_MAX, archive_spilled_input};
pub use merge::merge_archives;
pub use migrate::migrate_archive;
