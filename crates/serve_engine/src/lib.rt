//! A server's engine: the steps of a source go into a collector, and what it has goes to what keeps
//! it through crashes.
//!
//! A [`Server`] has a collector over a set of what came since the last commit, and a [`Keeping`],
//! which is handed that set at each tick and commits it. [`Server::serve`] is the loop; it uses
//! traits alone, so it is proved over any sockets, any disk and any diagnostics.
#![tactic(auto)]

mod counts;
mod intake;
mod keeping;
mod law;
mod limits;
mod lines;
mod pace;
mod peers;
mod refusals;
mod report;
mod row;
mod serve_end;
mod server;
mod serving;
mod stepping;
mod turn;
mod watch;

pub use counts::ServeCounts;
pub use keeping::{KeepFault, Keeping, Pause, Taken};
pub use law::notes_are_few;
pub use limits::{STATUS_LINES, TURN_LINES};
pub use serve_end::ServeEnd;
pub use server::Server;
pub use serving::ServeOptions;
pub use watch::{Nobody, ServerView, Watch};
