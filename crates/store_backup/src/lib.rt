//! A store's folder is copied, also while its server runs: [`backup`] copies journals and segments into another
//! folder, each under a draft's name until all of it is on the disk.
#![tactic(auto)]

mod copying;
mod draft;
mod fault;
mod files;
mod journals;
mod outcome;
mod segments;
mod transfer;

pub use copying::{ROUNDS_MAX, backup};
pub use fault::{BackupFault, CopyFault};
pub use outcome::{Backup, CopiedFile};
