//! What the command `send` does: one record is made from the values of its options and written as
//! one frame, unless the mask holds its severity back (setlogmask(3)).
#![tactic(auto)]

mod options;
mod send;
mod values;

pub use options::SendOptions;
pub use send::send_text;
