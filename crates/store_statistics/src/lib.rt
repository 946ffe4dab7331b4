//! What the files of a store's folder have: how many records and octets each, and from when to when its
//! records are.
//!
//! [`stat_store`] writes a line for each file, and one for all of them.
#![tactic(auto)]

mod batches;
mod figures;
mod lines;
mod look;
mod names;
mod segment;
mod stat;
mod sums;
mod survey;
mod tally;
mod telling;
mod times;

pub use stat::stat_store;
