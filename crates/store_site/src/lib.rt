//! The records of a store as a set with ranges, to which another site adds.
//!
//! [`read_set`] reads the records of a range of time into memory, [`StoreSite`] is the set that has
//! them: what is added goes to the disk first. [`ranges_of`] gives the places of a range of time.
#![tactic(auto)]

mod fault;
mod gathering;
mod ranges;
mod reading;
mod site;

pub use fault::SetReadFault;
pub use ranges::ranges_of;
pub use reading::read_set;
pub use site::StoreSite;
