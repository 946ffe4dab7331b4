//! What `reconcile` and `answer` do: the records of a store and of another site come to be the same, over
//! any devices.
//!
//! [`reconcile_store`] asks and [`answer_store`] answers, and both add to the store. [`compare_store`] and
//! [`answer_read_only`] have no disk, and change nothing.
#![tactic(auto)]

mod answering;
mod asking;
mod directed;
mod exchange;
mod fault;
mod outcome;
mod summary;

pub use answering::{answer_read_only, answer_store};
pub use asking::{compare_store, reconcile_store};
pub use exchange::Exchange;
