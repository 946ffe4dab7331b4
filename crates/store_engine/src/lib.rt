//! What the commands on stores do, over any folder: [`read_store`] writes the archive of what a store
//! holds, [`verify_store`] which of its files are damaged; [`add_to_store`] puts an archive into it, over
//! any disk. [`SystemFolder`] is a folder of the system's files, and [`SystemDisk`] a disk over one.
#![tactic(auto)]

mod add;
mod lines;
mod printed;
mod read;
mod system;
mod system_disk;
mod verify;

pub use add::add_to_store;
pub use lines::{NoStore, report_damaged_file, report_file_error, report_no_store};
pub use printed::{line_on, shown};
pub use read::{read_store, report_read_fault};
pub use system::{SystemFolder, Uninterrupted};
pub use system_disk::{DraftFile, SystemDisk};
pub use verify::verify_store;
