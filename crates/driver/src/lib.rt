//! One driver for every session: it reads an input, gives its octets to the session in whatever
//! pieces they come, and writes what comes of them.
//!
//! [`drive`] owns the loop over the input, what is held back of the output and the diagnostics, and the
//! bound on calls; [`drive_endless`] is the same for an input of any length. A [`Session`] has no devices: it takes pieces and adds to [`Effects`].
#![tactic(auto)]

mod diagnostics;
mod effects;
mod limits;
mod room;
mod run;
mod session;
mod status;
mod stopped;

pub use diagnostics::report;
pub use effects::Effects;
pub use limits::{ENDLESS_CALLS, ENDLESS_READ_MAX, INPUT_MAX, ReadLimit};
pub use room::EndlessRoom;
pub use run::{drive, drive_endless};
pub use session::{Flow, Session};
pub use status::{DONE, FAULT, NO_MEMORY, REFUSED};
pub use stopped::Stopped;
