//! Records that become an archive when all of them are there: their octets are appended to large blocks,
//! where they stay, and an index of numbers is sorted, without those that came more than once.
//!
//! Records are added to [`UnsortedRecords`], which settle into a [`SortedArchive`]. [`RecordSet`] is
//! what they share with other sets: records are added, and it is not told whether they were there.
#![tactic(auto)]

mod arena;
mod copying;
mod laws;
mod rank;
mod record_set;
mod settling;
mod sorted;
mod unsorted;
mod writing;

pub use laws::sorted_like_a_store;
pub use record_set::RecordSet;
pub use sorted::SortedArchive;
pub use unsorted::UnsortedRecords;
