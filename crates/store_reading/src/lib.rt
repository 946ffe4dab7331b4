//! The records of a store's folder are read: from its journals and its segments, day by day, into
//! one archive.
//!
//! [`Folder`] is what is read, [`read`] writes the archive of what it holds.
#![tactic(auto)]

mod day;
mod days;
mod fault;
mod folder;
mod hashing;
mod journal_file;
mod journals;
mod law;
mod listing;
mod memory;
mod name_order;
mod names;
mod of_range;
mod opening;
mod period;
mod reading;
mod segment;
mod segment_check;
mod source;

pub use day::Day;
pub use days::{is_outside, next_segment_day};
pub use fault::{CheckFault, FileFault, ReadFault};
pub use folder::Folder;
pub use hashing::{HEX_LEN, check_digest, hash_entry, hexadecimal, segment_octets};
pub use journal_file::{JournalFile, read_journal};
pub use journals::check_journal;
pub use law::equal_sets_give_equal_octets;
pub use listing::list;
pub use name_order::Names;
pub use names::{is_journal, is_mixed, segment_day, segment_period};
pub use opening::{is_segment_of, open_segments};
pub use period::Period;
pub use reading::{DAYS_MAX, join_fault, read};
pub use segment::open_file;
pub use segment_check::{check_segment, hash_segment};
pub use source::Source;
