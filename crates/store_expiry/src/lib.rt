//! What is older than a time is removed from a store's folder: whole segments, and of the others those
//! records that are expired.
//!
//! [`Expired`] says what that is, [`expire`] removes it, and [`expired_for_room`] says what has to go so that the
//! segments fit in some room.
#![tactic(auto)]

mod expired;
mod expiry;
mod fault;
mod line;
mod placing;
mod removal;
mod rest;
mod room;
mod survey;
mod taken;
mod tally;
mod turns;
mod unexpired;

pub use expired::{Expired, hour_of};
pub use expiry::expire;
pub use fault::ExpireFault;
pub use room::{SegmentSize, expired_for_room, octets_of, octets_without};
pub use turns::days_first;
