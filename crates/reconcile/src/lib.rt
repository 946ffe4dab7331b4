//! Two sites come to hold the union of their sets of records, and only what differs crosses.
//!
//! [`reconcile`] asks: over a set with ranges ([`RangedSet`]) and the other site ([`Peer`]).
//! [`MemorySet`] and [`LocalPeer`] are a set in memory, and a site in this very process.
#![tactic(auto)]

mod ascending;
mod ask;
mod checking;
mod cutting;
mod laws;
mod local;
mod memory;
mod merging;
mod part;
mod peer;
mod place;
mod plan;
mod range;
mod ranged_set;
mod reading;
mod records;
mod searching;
mod sorting;
mod stopped;
mod sum;
mod summing;
mod writing;

pub use ask::reconcile;
pub use laws::{connected_sites_converge, records_follow_the_pairs};
pub use local::LocalPeer;
pub use memory::MemorySet;
pub use part::Part;
pub use peer::Peer;
pub use place::Place;
pub use plan::Plan;
pub use range::Range;
pub use ranged_set::RangedSet;
pub use reading::read_records;
pub use records::Records;
pub use stopped::{SetFault, Stopped};
pub use sum::Sum;
pub use writing::write_records;
