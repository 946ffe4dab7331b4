//! What `read` of a store does: of the records that the store holds, those that meet conditions are written, or
//! the last of them alone, as an archive or as what `convert` and `show` make of it. A damaged file ends it; or
//! the damaged files are told, and what the others hold is read.
//!
//! [`read_records`] is the command, over any folder. [`write_wanted`] chooses from records that come.
#![tactic(auto)]

mod choosing;
mod damaged;
mod folder_behind;
mod left_out;
mod options;
mod outcome;
mod partial;
mod read;
mod record_test;
mod wanted;
mod without_files;

pub use options::{ReadForm, ReadOptions};
pub use read::read_records;
pub use wanted::write_wanted;
