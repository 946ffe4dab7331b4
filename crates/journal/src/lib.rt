//! A journal: batches of octets in one file, each of which is there whole after a crash or not at all.
//!
//! The file is a row of batches. A batch begins with an octet that is 1 if it is open, and any
//! other if it is closed (254; older programs wrote 0); then come the number of its octets (4 octets, the low ones first) and its
//! octets. The first batch that is closed or cut short, and all behind it, stand for nothing, so a
//! reader may run beside the writer.
//!
//! A batch is written behind a closed octet that is on the disk, followed by the closed octet of
//! the next batch, and synced. Only then is it opened, by one octet, and the file synced again. So
//! nothing relies on a checksum: whatever a crash leaves of a batch that is not open stands for
//! nothing, and one that is open is whole.
#![tactic(auto)]

mod fault;
mod journal;
mod law;
mod opening;
mod reading;

pub use fault::JournalFault;
pub use journal::{BODY_MAX, COMMIT_SYNCS, CREATE_SYNCS, Journal, LENGTH_MAX};
pub use law::{after_a_crash, one_reading};
pub use opening::{OPEN_SYNCS, SETTLE_SYNCS, open, settle};
pub use reading::{OPENED_MAX, batch_len, read_octets};
