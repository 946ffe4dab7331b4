//! The sender: records of one origin, as octets and as frames, under a mask of severities
//! (setlogmask(3), syslog(3)).
//!
//! The words of these contracts are in `specs/`: Senders has the mask in force and the sender's
//! facility, Sent what is written for one event, and Calls, as `Outputs`, all that a list of calls
//! writes. That the calls of a [`Sender`] write just that is the contract of
//! [`calls_write_outputs`].
#![tactic(auto)]

mod fault;
mod framing;
mod law;
mod sender;

pub use fault::SendFault;
pub use law::{calls_have_one_output, calls_write_outputs, last_mask_is_in_force};
pub use sender::Sender;
