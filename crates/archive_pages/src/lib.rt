//! An archive in memory for large sets: pages of entries in ascending order under an ordered index,
//! and their octets in few large blocks.
#![tactic(auto)]

mod arena;
mod comparing;
mod index;
mod page;
mod paged;
mod rank;
mod ranks;
mod reading;
mod search;
mod writing;

pub use paged::PagedArchive;
pub use reading::Place;
