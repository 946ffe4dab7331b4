//! What the commands on archives as sets do, over any devices: [`join_archives`] joins archives
//! depending on who has a record, [`select_archive`] writes the archive of the records of one that
//! meet a condition, [`digest_archive`] the digests of its periods, [`digest_archive_with_roots`] these
//! with Merkle roots, and [`count_archive`] how many records it has by what they have in their fields.
#![tactic(auto)]

mod combination;
mod count;
mod digest;
mod join;
mod select;

pub use combination::Combination;
pub use count::count_archive;
pub use digest::{digest_archive, digest_archive_with_roots};
pub use join::{join_archives, report_on_input};
pub use select::{report_select_fault, select_archive};
