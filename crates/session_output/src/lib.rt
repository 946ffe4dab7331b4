//! A session as an output: what is written to a [`SessionOutput`] is given to a session of the driver, and what
//! comes of it is written to another output. So what writes one text, as the reading of a store does, writes
//! what a command makes of that text, without room for either.
#![tactic(auto)]

mod beginning;
mod flushing;
mod given;
mod progress;
mod session_output;
mod session_run;

pub use beginning::Beginning;
pub use progress::Progress;
pub use session_output::SessionOutput;
pub use session_run::SessionRun;
