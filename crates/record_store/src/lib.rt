//! A durable store of syslog records: a folder that holds a set of records through crashes.
//!
//! A folder has journals (`journal.N`: batches of records in the order in which they came, each with
//! its seal, a length and a checksum) and segments (`DAY.HEX.archive`: archives of the records of a
//! day, complete from the moment they have their name). It holds what these hold; files with other
//! names count for nothing, such as `damaged.journal.N`, to which octets of a journal are moved that
//! stand for nothing.
//!
//! Whenever a crash comes, what the folder holds afterwards is a set S with committed ⊆ S ⊆
//! received. Each call of [`RecordStore`] says so of every state that it may end with, so of every
//! moment (see `disk`), as long as no sync has failed; `turn` says so if other files hold what the
//! journal holds.
#![tactic(auto)]

mod appending;
mod aside;
mod batch;
mod fault;
mod journal_damage;
mod keeping;
mod law;
mod listing;
mod names;
mod opening;
mod putting;
mod renewing;
mod sealing;
mod segment;
mod store;
mod turning;

pub use aside::{cut_journal, set_aside};
pub use fault::{AppendFault, StoreFault};
pub use journal::COMMIT_SYNCS;
pub use journal_damage::JournalDamage;
pub use keeping::KeepFault;
pub use law::{after_a_crash, after_a_restart};
pub use listing::{journals, read_journal};
pub use opening::{OPEN_SYNCS, open};
pub use putting::put;
pub use renewing::renew;
pub use sealing::{has_entry, hides_batches, seals};
pub use segment::{SEGMENT_SYNCS, SegmentDraft, SegmentFault};
pub use store::RecordStore;
pub use turning::TURN_SYNCS;
