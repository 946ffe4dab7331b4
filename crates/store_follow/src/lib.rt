//! The records of a store are followed: each is written as it is committed, while a server adds batches
//! to the store's newest journal and goes on with the next one.
//!
//! A [`Follower`] looks again and again at the folder; whoever calls it waits in between. It changes
//! nothing there and needs no server. What it writes is the text of each batch's entries, without the
//! seal, once and in the order in which they were committed.
#![tactic(auto)]

mod batch;
mod fault;
mod follower;
mod following;
mod law;
mod listing;
mod names;
mod place;
mod reading;

pub use fault::FollowFault;
pub use follower::{Follower, Looked};
pub use following::{BATCHES_MAX, OCTETS_MAX};
pub use law::{each_batch_is_committed, each_batch_once, one_text};
pub use reading::BATCH_MAX;
