//! A folder of files as a store sees it: what a read shows now, and what a crash may leave.
//!
//! The model is the usual one. Octets written since the last sync of their file may be there in
//! part, or be any others, also in place of what was there before; no file is longer than it was
//! made. A write harms no octet beside it that is on the disk, even if a crash tears it: a drive
//! that loses a whole sector when it writes a part of it is not covered. A name that was made,
//! replaced or removed since the last sync of the folder may be as it was before, each name on its
//! own. A sync that finds no room, on the disk or in memory, has changed nothing, and may be tried
//! again. Once one has failed for anything else, no later sync promises anything until the machine has
//! been restarted.
//!
//! A crash at any moment of a run is the same run over a disk that fails at every call from that
//! moment on and changes nothing ([`Fuse`] is one): the run then ends with the state of the moment.
//! So a contract over every disk that says, of each state it ends with, `Err` or `Ok`, what a crash
//! may leave, says so of every moment.
#![tactic(auto)]

mod calls;
mod fault;
mod fuse;
mod memory;
mod memory_file;
mod name;

pub use calls::Disk;
pub use fault::DiskFault;
pub use fuse::Fuse;
pub use memory::MemoryDisk;
pub use name::{FileName, NAME_MAX};
