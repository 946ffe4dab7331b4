//! The other site over a pipe, and the answers to it.
//!
//! [`PipePeer`] asks, over an input and an output; [`answer`] answers what it is asked from a set.
//! Whatever the other side sends, each call returns, and holds no more than the limits of a message.
#![tactic(auto)]

mod answering;
mod asking;
mod batch;
mod buffer;
mod fault;
mod inlet;
mod peer;
mod traffic;

pub use answering::answer;
pub use fault::PipeFault;
pub use peer::PipePeer;
pub use traffic::{Amount, Traffic};
