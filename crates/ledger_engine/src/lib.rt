//! What the commands on a store's ledger do: [`examine_ledger`] compares it with the files beside it, which
//! [`verify_ledger`] does and tells, and [`seal_days`] joins the segments of each day that is over into one, and has the ledger take its root.
#![tactic(auto)]

mod findings;
mod known;
mod laws;
mod lines;
mod sealing;
mod verifying;

pub use findings::{LedgerFindings, examine_ledger};
pub use known::is_of_store;
pub use laws::seals_stand;
pub use lines::finding_lines;
pub use sealing::seal_days;
pub use verifying::{Pause, verify_ledger};
